//! The head of a drawing, and its states.

ghost use Rattle.std.specs.Prelude.{◌≡◌, ◌&&◌, map, option_map};
ghost use Rattle.ltl_hoa.specs.MarkedView.{edge_of};
ghost use Rattle.ltl_pictures.specs.DotText as text;
ghost use Rattle.ltl_pictures.specs.Picture as picture;
ghost use Rattle.ltl_streams.specs.Printing.{Prints};

use crate::acceptance::is_accepting;
use crate::name::put_name;
use ltl_hoa::{HoaNames, Marked, MarkedEdge};
use ltl_streams::{ByteSink, Printer};
use ltl_text::put_number;
use std::alloc::Allocator;

/// Writes the name of the acceptance condition with this number of sets. DOT reads `&uuml;` as `ü`.
fn put_acceptance_name<S: ByteSink>(sets: usize, out: &mut Printer<'_, S>)
    ensures { Prints S.state out.old out.new (text.acceptance_name sets) }
{
    if sets == 0 {
        out.put(b"all");
    } else if sets == 1 {
        out.put(b"B&uuml;chi");
    } else {
        out.put(b"generalized-B&uuml;chi ");
        put_number(sets, out);
    }
}

/// Writes the line of the title with the name of the automaton, or nothing if it has none.
fn put_title_line<S: ByteSink>(name: Option<&[u8]>, out: &mut Printer<'_, S>)
    ensures { Prints S.state out.old out.new (text.title_line (option_map (λ s. s.now) name.entry)) }
{
    if let Some(name) = name {
        put_name(name, out);
        out.put(b"\\n");
    }
}

/// Writes the head: the name of the automaton, the acceptance condition and a note as the title of the graph, and an arrow without source to the initial
/// state.
pub(crate) fn put_head<A: Allocator, S: ByteSink>(
    automaton: &Marked<'_, A>,
    names: &HoaNames<'_, A>,
    note: &[u8],
    out: &mut Printer<'_, S>,
)
    ensures { Prints S.state out.old out.new
        (text.head_text (record { automaton = automaton.now; names = names.now }) note.now) }
{
    out.put(b"digraph automaton {\n  rankdir=LR\n  labelloc=t\n  label=\"");
    put_title_line(names.automaton(), out);
    put_acceptance_name(automaton.sets(), out);
    out.put(note);
    out.put(b"\"\n  node [shape=circle]\n  I [label=\"\", style=invis, width=0]\n  I -> ");
    put_number(automaton.start(), out);
    out.put(b"\n");
}

/// Whether a state is drawn as a double circle.
pub(crate) fn is_double(by_states: bool, edges: &[MarkedEdge]) -> bool
    ensures { result ≡ (by_states && picture.is_accepting (map edge_of edges.now)) }
{
    by_states && is_accepting(edges)
}

/// The end of a state's statement, after its number.
fn node_end(accepting: bool, red: bool) -> &'static [u8]
    ensures { result.now ≡ text.node_end accepting red }
{
    match (accepting, red) {
        (false, false) => b"\n",
        (true, false) => b" [peripheries=2]\n",
        (false, true) => b" [color=red, penwidth=2]\n",
        (true, true) => b" [peripheries=2, color=red, penwidth=2]\n",
    }
}

/// The end of the statement of a state with a label, after the shape.
fn labelled_end(accepting: bool, red: bool) -> &'static [u8]
    ensures { result.now ≡ text.labelled_end accepting red }
{
    match (accepting, red) {
        (false, false) => b"]\n",
        (true, false) => b", peripheries=2]\n",
        (false, true) => b", color=red, penwidth=2]\n",
        (true, true) => b", peripheries=2, color=red, penwidth=2]\n",
    }
}

/// Writes the label of a state, its number and its name, and the shape.
fn put_label<S: ByteSink>(name: &[u8], k: usize, out: &mut Printer<'_, S>)
    ensures { Prints S.state out.old out.new (text.label_text name.now k) }
{
    out.put(b" [label=\"");
    put_number(k, out);
    out.put(b"\\n");
    put_name(name, out);
    out.put(b"\", shape=ellipse");
}

/// Writes a state, as a double circle if it is accepting, and in red if `red`. A state with a name is an ellipse.
pub(crate) fn put_node<S: ByteSink>(
    name: Option<&[u8]>,
    accepting: bool,
    red: bool,
    k: usize,
    out: &mut Printer<'_, S>,
)
    ensures { Prints S.state out.old out.new (text.node_text (option_map (λ s. s.now) name.entry) accepting red k) }
{
    out.put(b"  ");
    put_number(k, out);
    match name {
        Some(name) => {
            put_label(name, k, out);
            out.put(labelled_end(accepting, red));
        }
        None => out.put(node_end(accepting, red)),
    }
}
