//! The lines of states and edges in the Hanoi Omega-Automata format, with acceptance sets on states or on edges.

ghost use Rattle.std.specs.Prelude.{◌≡◌};
ghost use Rattle.std.specs.Fmt.{decimal};
ghost use Rattle.std.specs.List.{flat_map};
ghost use Rattle.ltl_spec.specs.Automata.HoaText.{label_literal, label_text};
ghost use Rattle.ltl_spec.specs.Automata.GeneralizedText.{marked_edge_line, marks_text};
ghost use Rattle.ltl_sets.specs.Literals.{literal_of};
ghost use Rattle.ltl_streams.specs.Printing.{Prints};
ghost use Rattle.ltl_automaton.specs.CodedEdges.{edges_in};
ghost use Rattle.ltl_automaton.specs.EdgeView.{edge_of};
ghost use Rattle.ltl_text.specs.HoaPieces as pieces;

use crate::digits::Digits;
use ltl_models::{Edge, Edges};
use ltl_sets::{Cube, Literal, RowSet};
use ltl_streams::{ByteSink, Printer};

/// Writes a number in decimal digits.
pub fn put_number<S: ByteSink>(number: usize, output: &mut Printer<'_, S>)
    ensures { Prints S.state output.old output.new (decimal number) }
{
    output.put(Digits::of(number as u64).as_slice());
}

#[inline(always)]
fn put_literal<S: ByteSink>(literal: Literal, output: &mut Printer<'_, S>)
    ensures { Prints S.state output.old output.new (label_literal (literal_of literal)) }
{
    if literal.positive {
        put_number(literal.proposition, output);
    } else {
        output.put(b"!");
        put_number(literal.proposition, output);
    }
}

/// Writes the literals with `&` between them, or `t` if there is none.
fn put_literals<S: ByteSink>(cube: &Cube, output: &mut Printer<'_, S>)
    ensures { Prints S.state output.old output.new (label_text cube.now) }
{
    let mut literals = cube.iter();
    let Some(first) = literals.next() else {
        output.put(b"t");
        return;
    };
    put_literal(first, output);
    for literal in literals {
        output.put(b"&");
        put_literal(literal, output);
    }
}

/// Writes a blank and the numbers of the acceptance sets in braces, or nothing if there is none.
pub fn put_marks<S: ByteSink>(marks: &RowSet, output: &mut Printer<'_, S>)
    ensures { Prints S.state output.old output.new (marks_text marks.now) }
{
    let mut numbers = marks.iter();
    let Some(first) = numbers.next() else {
        return;
    };
    output.put(b" {");
    put_number(first, output);
    for number in numbers {
        output.put(b" ");
        put_number(number, output);
    }
    output.put(b"}");
}

/// Writes the label, the target and the acceptance sets of an edge.
fn put_edge<S: ByteSink>(edge: &Edge, output: &mut Printer<'_, S>)
    ensures { Prints S.state output.old output.new (marked_edge_line (edge_of edge.now)) }
{
    output.put(b"[");
    put_literals(&edge.cube, output);
    output.put(b"] ");
    put_number(edge.target, output);
    put_marks(&edge.marks, output);
    output.put(b"\n");
}

fn put_edges<S: ByteSink>(edges: Edges<'_>, output: &mut Printer<'_, S>)
    ensures { Prints S.state output.old output.new (flat_map marked_edge_line (edges_in edges.entry)) }
{
    for edge in edges.coded {
        put_edge(&edges.labels.edge(edge), output);
    }
}

/// The end of the line `State:`, with the number of the set if the state is in set 0.
fn state_end(in_set: bool) -> &'static [u8]
    ensures { result.now ≡ pieces.state_end in_set }
{
    if in_set { b" {0}\n" } else { b"\n" }
}

/// Writes the number of a state, its set, and its edges.
pub(crate) fn put_state<S: ByteSink>(
    k: usize,
    in_set: bool,
    edges: Edges<'_>,
    output: &mut Printer<'_, S>,
)
    ensures { Prints S.state output.old output.new (pieces.state_text k in_set (edges_in edges.entry)) }
{
    output.put(b"State: ");
    put_number(k, output);
    output.put(state_end(in_set));
    put_edges(edges, output);
}
