//! The numbering of a table's rows, and the lists of its until rows and elementary rows.

ghost use Rattle.std.specs.Prelude.{◌≡◌, ◌<◌, length, map, slice_index, IfOk};
ghost use Rattle.ltl_spec.specs.NormalForms.SharedNodes.{tree_at};
ghost use Rattle.ltl_formula.specs.SharedNodesView.{IsBelow, node_of};
ghost use Rattle.ltl_formula.specs.PlacesView.{renumbered};
ghost use Rattle.ltl_formula.specs.TableView as table;
ghost use Rattle.ltl_formula.specs.WalkView.{AreInOrder};

use crate::row::Row;
use crate::shared_nodes::SharedNodes;
use smallvec::SmallVec;
use std::alloc::{AllocError, Allocator};

/// The node, with its operands renumbered by `places`.
fn placed(node: Row, places: &[usize]) -> Row
    requires { IsBelow (length places.now) node }
    ensures { node_of result ≡ renumbered (λ i. slice_index places.now i) (node_of node) }
{
    match node {
        Row::Next(i) => Row::Next(places[i]),
        Row::And(i, j) => Row::And(places[i], places[j]),
        Row::Or(i, j) => Row::Or(places[i], places[j]),
        Row::Until(i, j) => Row::Until(places[i], places[j]),
        Row::Release(i, j) => Row::Release(places[i], places[j]),
        Row::True | Row::False | Row::Literal(_) => node,
    }
}

/// The number in the table for each node of the graph. Up to 128 are stored without an allocation.
type NodePlaces<'a, A> = SmallVec<usize, 128, &'a A>;

/// Numbers of until rows. Up to 16 are stored without an allocation.
pub type UntilPlaces<'a, A> = SmallVec<usize, 16, &'a A>;

/// Numbers of elementary rows. Up to 32 are stored without an allocation.
pub type ElementaryPlaces<'a, A> = SmallVec<usize, 32, &'a A>;

/// The rows of a table: the nodes of the graph with these numbers, whose operands are renumbered by their positions in `numbers`.
pub fn numbered_rows<'a, A: Allocator>(
    alloc: &'a A,
    graph: &SharedNodes<'_, A>,
    numbers: &[usize],
) -> Result<Vec<Row, &'a A>, AllocError>
    requires { AreInOrder graph.now.nodes numbers.now }
    ensures trees { IfOk result (λ v. table.row_trees v.items ≡ map (tree_at graph.now.nodes) numbers.now) }
    ensures order { IfOk result (λ v. table.AreOrdered v.items) }
{
    let mut rows = Vec::with_capacity(alloc, numbers.len())?;
    let mut places: NodePlaces<'a, A> = SmallVec::from_elem(alloc, 0, graph.len())?;
    'rows: for (place, number) in numbers.iter().enumerate() {
        rows.push(placed(graph.node(*number), &places))?;
        places[*number] = place;
    }
    Ok(rows)
}

/// Whether the operator is `U`.
fn is_until(row: Row) -> bool
    ensures { result ≡ table.is_until_row row }
{
    matches!(row, Row::Until(_, _))
}

/// Whether the row is a literal, or its operator is `X`, `U` or `V`.
fn is_elementary(row: Row) -> bool
    ensures { result ≡ table.is_elementary_row row }
{
    match row {
        Row::Literal(_) | Row::Next(_) | Row::Until(_, _) | Row::Release(_, _) => true,
        Row::True | Row::False | Row::And(_, _) | Row::Or(_, _) => false,
    }
}

/// Whether row number `place` of `count` rows is elementary. The last row is the root.
fn is_elementary_at(row: Row, place: usize, count: usize) -> bool
    requires { place < count }
    ensures { result ≡ table.is_elementary_of count place row }
{
    is_elementary(row) || place + 1 == count
}

/// The numbers of the rows whose operator is `U`, in ascending order.
pub fn until_places<'a, A: Allocator>(
    alloc: &'a A,
    rows: &[Row],
) -> Result<UntilPlaces<'a, A>, AllocError>
    ensures { IfOk result (λ v. v.items ≡ table.places_by (λ _ r. table.is_until_row r) 0 rows.now) }
{
    let mut places: UntilPlaces<'a, A> = SmallVec::new(alloc);
    'places: for (place, row) in rows.iter().enumerate() {
        if is_until(*row) {
            places.push(place)?;
        }
    }
    Ok(places)
}

/// The numbers of the elementary rows, in ascending order. The last row is one of them, since it is the root.
pub fn elementary_places<'a, A: Allocator>(
    alloc: &'a A,
    rows: &[Row],
) -> Result<ElementaryPlaces<'a, A>, AllocError>
    ensures { IfOk result (λ v. v.items ≡ table.places_by (table.is_elementary_of (length rows.now)) 0 rows.now) }
{
    let mut places: ElementaryPlaces<'a, A> = SmallVec::new(alloc);
    'places: for (place, row) in rows.iter().enumerate() {
        if is_elementary_at(*row, place, rows.len()) {
            places.push(place)?;
        }
    }
    Ok(places)
}
