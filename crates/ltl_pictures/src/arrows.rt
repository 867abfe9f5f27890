//! The arrows from a state, one for each target.

ghost use Rattle.std.specs.Prelude.{◌≡◌, ◌<◌, ◌≤◌, ◌==◌, ◌++◌, length, map, nat_lt, flat_map, string_bytes, codes, All};
ghost use Rattle.std.specs.Fmt.{decimal};
ghost use Rattle.std.specs.List.{list_any, prefix_len};
ghost use Rattle.ltl_models.specs.BaView.{IsTargetOrder, target_at};
ghost use Rattle.ltl_hoa.specs.MarkedView.{HasPropositionsBelow, edge_of};
ghost use Rattle.ltl_text.specs.Options.{edge_at};
ghost use Rattle.ltl_pictures.specs.DotText as text;
ghost use Rattle.ltl_pictures.specs.Drawn.{AreNamed};
ghost use Rattle.ltl_pictures.specs.Picked as picked;
ghost use Rattle.ltl_pictures.specs.Picture.{Arrow, arrows};
ghost use Rattle.ltl_pictures.specs.Pieces.{front_text, parts_text};
ghost use Rattle.ltl_streams.specs.Printing.{Prints};

use crate::label::{Style, put_edge};
use ltl_hoa::MarkedEdge;
use ltl_streams::{ByteSink, Printer};
use ltl_text::put_number;
use std::alloc::Allocator;

/// Edges of a state, some of their indices, and for each edge whether a run takes it.
#[derive(Clone, Copy)]
pub(crate) struct Row<'e> {
    pub edges: &'e [MarkedEdge],
    pub places: &'e [usize],
    pub taken: &'e [bool],
}

/// Whether a run takes the edge with this index.
fn is_taken(taken: &[bool], place: usize) -> bool
    ensures { result ≡ picked.is_set taken.now place }
{
    match taken.get(place) {
        Some(flag) => *flag,
        None => false,
    }
}

/// Whether a run takes an edge with one of these indices.
fn is_one_taken(taken: &[bool], places: &[usize]) -> bool
    ensures { result ≡ list_any (picked.is_set taken.now) places.now }
{
    places.iter().any(|place| is_taken(taken, *place))
}

/// Whether the edge with this index has more than one literal.
fn is_long(edges: &[MarkedEdge], place: usize) -> bool
    ensures { result ≡ nat_lt 1 (length (edge_at (map edge_of edges.now) place).cube) }
{
    match edges.get(place) {
        Some(edge) => edge.cube.count() > 1,
        None => false,
    }
}

/// Whether the label for these edges has a line for each of them.
fn is_broken(edges: &[MarkedEdge], places: &[usize]) -> bool
    ensures { result ≡ text.is_broken (map edge_of edges.now) places.now }
{
    places.iter().any(|place| is_long(edges, *place))
}

/// What is between two edges of a label.
fn or_text(broken: bool, red: bool) -> &'static [u8]
    ensures { result.now ≡ text.or_text broken red }
{
    match (broken, red) {
        (false, _) => b" || ",
        (true, false) => b" ||\\n",
        (true, true) => b" ||<br/>",
    }
}

/// What is before a label.
fn label_start(red: bool) -> &'static [u8]
    ensures { result.now ≡ text.label_start red }
{
    if red { b" [label=<" } else { b" [label=\"" }
}

/// What is behind a label, up to the end of the arrow's statement.
fn label_end(red: bool) -> &'static [u8]
    ensures { result.now ≡ text.label_end red }
{
    if red {
        b">, color=red, penwidth=2]\n"
    } else {
        b"\"]\n"
    }
}

/// The number of indices at the beginning whose edges have this target.
fn group_len(edges: &[MarkedEdge], places: &[usize], target: usize) -> usize
    requires { All (λ p. p < length edges.now) places.now }
    ensures within { result ≤ length places.now }
    ensures group { result ≡ prefix_len (λ p. target_at (map edge_of edges.now) p == target) places.now }
{
    let mut len = 0;
    'group: while len < places.len() && edges[places[len]].target == target {
        len += 1;
    }
    len
}

/// Writes an arrow up to its label.
fn put_front<S: ByteSink>(from: usize, to: usize, red: bool, out: &mut Printer<'_, S>)
    ensures { Prints S.state out.old out.new (front_text from to red) }
{
    out.put(b"  ");
    put_number(from, out);
    out.put(b" -> ");
    put_number(to, out);
    out.put(label_start(red));
}

/// Writes an edge, in red if it is taken.
fn put_part<A: Allocator, S: ByteSink>(
    names: &[String<&A>],
    style: Style,
    taken: bool,
    edge: &MarkedEdge,
    out: &mut Printer<'_, S>,
)
    requires { HasPropositionsBelow (length names.now) edge.now.cube }
    ensures { Prints S.state out.old out.new
        (text.part_text taken (text.edge_text (map string_bytes names.now) style.shown style.red (edge_of edge.now))) }
{
    if taken {
        out.put(b"<font color=\"red\">");
        put_edge(names, style, edge, out);
        out.put(b"</font>");
    } else {
        put_edge(names, style, edge, out);
    }
}

/// Writes the edges of a row with a text between each two.
fn put_parts<A: Allocator, S: ByteSink>(
    names: &[String<&A>],
    style: Style,
    between: &[u8],
    row: Row<'_>,
    out: &mut Printer<'_, S>,
)
    requires within { All (λ p. p < length row.edges.now) row.places.now }
    requires named { AreNamed (length names.now) (map edge_of row.edges.now) }
    ensures { Prints S.state out.old out.new
        (parts_text (map string_bytes names.now) style.shown (picked.is_set row.entry.taken.now) (map edge_of row.entry.edges.now) style.red between.now row.entry.places.now) }
{
    let Some((first, others)) = row.places.split_first() else {
        return;
    };
    let edges = row.edges;
    let first_taken = is_taken(row.taken, *first);
    put_part(names, style, first_taken, &edges[*first], out);
    for place in others {
        out.put(between);
        let taken = is_taken(row.taken, *place);
        put_part(names, style, taken, &edges[*place], out);
    }
}

/// Writes the arrow to a target for the edges of a row, which have this target.
fn put_arrow<A: Allocator, S: ByteSink>(
    names: &[String<&A>],
    shown: bool,
    row: Row<'_>,
    from: usize,
    to: usize,
    out: &mut Printer<'_, S>,
)
    requires within { All (λ p. p < length row.edges.now) row.places.now }
    requires named { AreNamed (length names.now) (map edge_of row.edges.now) }
    ensures { Prints S.state out.old out.new
        (text.arrow_text (map string_bytes names.now) shown (picked.is_set row.entry.taken.now) (map edge_of row.entry.edges.now)
        (record { from = from; to = to; places = row.entry.places.now })) }
{
    let red = is_one_taken(row.taken, row.places);
    let between = or_text(is_broken(row.edges, row.places), red);
    put_front(from, to, red, out);
    put_parts(names, Style { shown, red }, between, row, out);
    out.put(label_end(red));
}

/// Writes the arrows from state `k`. The row has the indices of all edges of the state, sorted by target and then by index.
pub(crate) fn put_arrows<A: Allocator, S: ByteSink>(
    names: &[String<&A>],
    shown: bool,
    row: Row<'_>,
    k: usize,
    out: &mut Printer<'_, S>,
)
    requires order { IsTargetOrder (map edge_of row.edges.now) row.places.now }
    requires named { AreNamed (length names.now) (map edge_of row.edges.now) }
    ensures { Prints S.state out.old out.new
        (flat_map (text.arrow_text (map string_bytes names.now) shown (picked.is_set row.entry.taken.now) (map edge_of row.entry.edges.now))
        (arrows k (map edge_of row.entry.edges.now))) }
{
    let edges = row.edges;
    let taken = row.taken;
    let mut rest = row.places;
    'arrows: while let Some((place, _)) = rest.split_first() {
        let target = edges[*place].target;
        let (places, others) = rest.split_at(group_len(edges, rest, target));
        let arrow = Row {
            edges,
            places,
            taken,
        };
        put_arrow(names, shown, arrow, k, target, out);
        rest = others;
    }
}
