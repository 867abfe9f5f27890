//! Labels of edges, as formulas of propositions.

ghost use Rattle.std.specs.Prelude.{◌≡◌, ◌<◌, ◌++◌, ◌∷◌, codes, length, map, string_bytes, All};
ghost use Rattle.ltl_sets.specs.Literals.{literal_of};
ghost use Rattle.ltl_hoa.specs.MarkedView.{HasPropositionsBelow, edge_of};
ghost use Rattle.ltl_streams.specs.Printing.{Prints};
ghost use Rattle.ltl_pictures.specs.DotText as text;
ghost use Rattle.ltl_pictures.specs.DotText.{edge_text, formula_text, literal_text};

use ltl_hoa::MarkedEdge;
use ltl_sets::{Cube, Literal};
use ltl_streams::{ByteSink, Printer};
use ltl_text::put_marks;
use std::alloc::Allocator;

/// Writes the name of a literal's proposition, with `!` before it if the literal is negative.
fn put_literal<A: Allocator, S: ByteSink>(
    names: &[String<&A>],
    literal: Literal,
    out: &mut Printer<'_, S>,
)
    requires { literal.proposition < length names.now }
    ensures { Prints S.state out.old out.new (literal_text (map string_bytes names.now) (literal_of literal)) }
{
    let name = names[literal.proposition].as_bytes();
    if literal.positive {
        out.put(name);
    } else {
        out.put(b"!");
        out.put(name);
    }
}

/// What is between two literals; with `red` as HTML.
fn and_text(red: bool) -> &'static [u8]
    ensures { result.now ≡ text.and_text red }
{
    if red { b" &amp;&amp; " } else { b" && " }
}

/// Writes the literals with `&&` between them, or `1` if there are none.
fn put_formula<A: Allocator, S: ByteSink>(
    names: &[String<&A>],
    red: bool,
    cube: &Cube,
    out: &mut Printer<'_, S>,
)
    requires { HasPropositionsBelow (length names.now) cube.now }
    ensures { Prints S.state out.old out.new (formula_text (map string_bytes names.now) red cube.now) }
{
    let mut literals = cube.iter();
    let Some(first) = literals.next() else {
        out.put(b"1");
        return;
    };
    put_literal(names, first, out);
    let between = and_text(red);
    for literal in literals {
        out.put(between);
        put_literal(names, literal, out);
    }
}

/// How a label is written: whether it shows acceptance sets, and whether it is HTML with parts in red.
#[derive(Clone, Copy)]
pub(crate) struct Style {
    pub shown: bool,
    pub red: bool,
}

/// Writes the literals of an edge, and its acceptance sets if they are shown.
pub(crate) fn put_edge<A: Allocator, S: ByteSink>(
    names: &[String<&A>],
    style: Style,
    edge: &MarkedEdge,
    out: &mut Printer<'_, S>,
)
    requires { HasPropositionsBelow (length names.now) edge.now.cube }
    ensures { Prints S.state out.old out.new (edge_text (map string_bytes names.now) style.shown style.red (edge_of edge.now)) }
{
    put_formula(names, style.red, &edge.cube, out);
    if style.shown {
        put_marks(&edge.sets.to_row_set(), out);
    }
}
