//! Which until rows count while pairs are pruned.
//!
//! A pair may replace another one before a join is complete if it needs no more, and if it is marked for each until row that counts and for which the other one
//! is. An until row counts in two cases:
//!
//! - It is in one of the sets of rows of `a`, for a row `X a`.
//! - A pair that postpones it needs a literal or a row on which the test of an until row that counts depends.
//!
//! All that fulfilling pairs need is among what their tests depend on. The until rows that count are found in rounds. Each round adds those that count
//! because of the ones that were found before. The last round adds none.

ghost use Rattle.std.specs.Prelude.{◌≡◌, ◌<◌, length, true, IfOk};
ghost use Rattle.ltl_spec.specs.Transitions.CountedUntils.{AreCounted};
ghost use Rattle.ltl_spec.specs.NormalForms.NormalForm.{is_until};
ghost use Rattle.ltl_formula.specs.SharedNodesView.{IsBelow};
ghost use Rattle.ltl_formula.specs.TableView.{is_until_row, row_tree};
ghost use Rattle.ltl_alt.specs.CountedView.{IsRound, places_added, postponing_support};
ghost use Rattle.ltl_alt.specs.RowLists.{row_place};
ghost use Rattle.ltl_alt.specs.Steps.{IsWholeProgram};
ghost use Rattle.ltl_alt.specs.Tests.{AreLeaves, AreTests};
ghost use Rattle.ltl_alt.specs.TransitionView.{table_at};

use crate::fulfilment::Fulfilment;
use crate::leaves::{leaves, leaves_at};
use crate::pair::Pair;
use crate::place::place;
use crate::program::Program;
use crate::support::{Support, fulfilling_of};
use ltl_formula::{Row, Table};
use ltl_sets::RowSet;
use std::alloc::{AllocError, Allocator};

/// Whether a row is an until row.
fn is_until_row(row: Row) -> bool
    ensures { result ≡ is_until_row row }
{
    matches!(row, Row::Until(_, _))
}

/// The place of an until row, or 0 for any other row.
fn until_place<A: Allocator>(table: &Table<'_, A>, row: usize) -> usize
    requires { row < length table.now.rows }
    ensures place { is_until (row_tree table.now row) ≡ true → result ≡ row_place table.now (row_tree table.now row) }
    ensures small { result < RowSet.LIMIT }
{
    table.invariant();
    if is_until_row(table.row(row)) {
        place(table, row)
    } else {
        0
    }
}

/// The support of the pairs that postpone an until row with this place, if this is the support of its left operand's pairs.
fn postponing_support(left: &Support, place: usize) -> Support
    requires { place < RowSet.LIMIT }
    ensures { result ≡ postponing_support left.now place }
{
    left.together(&Support::by(&Pair::later(RowSet::single(place))))
}

/// The places that count because of a row, by what each step depends on. A row `X a` adds all members of the sets of `a`. An until row adds its own place if a
/// pair that postpones it needs something that is needed.
fn places_added<A: Allocator>(
    program: &Program<'_, A>,
    leaves: &[Support],
    needed: &Support,
    row: Row,
    place: usize,
) -> RowSet
    requires rows { IsBelow (length program.now.rows.items) row }
    requires place { place < RowSet.LIMIT }
    ensures { result ≡ places_added leaves.now program.now.rows.items needed.now row place }
{
    match row {
        Row::Next(i) => leaves_at(leaves, program.set_step(i)).targets(),
        Row::Until(i, _) => {
            let left = leaves_at(leaves, program.pair_step(i));
            if needed.shares_some(&postponing_support(&left, place)) {
                RowSet::single(place)
            } else {
                RowSet::empty()
            }
        }
        _ => RowSet::empty(),
    }
}

/// The places that were found before, and those that count because of them.
fn round<A: Allocator>(
    table: &Table<'_, A>,
    program: &Program<'_, A>,
    leaves: &[Support],
    fulfilment: &Fulfilment<'_, A>,
    counted: &RowSet,
) -> RowSet
    requires tests { AreTests (table_at table.now) fulfilment.now }
    requires program { IsWholeProgram table.now program.now.steps.keys program.now.rows.items }
    requires leaves { AreLeaves program.now.steps.keys leaves.now }
    ensures { IsRound table.now counted.now result }
{
    table.invariant();
    let needed = fulfilling_of(table, fulfilment, counted);
    let mut next = *counted;
    'rows: for k in 0..table.len() {
        let place = until_place(table, k);
        let added = places_added(program, leaves, &needed, table.row(k), place);
        next = next.union(&added);
    }
    next
}

/// The places of the until rows that count while pairs are pruned. Places of other rows may be among them, and don't matter.
pub(crate) fn counted<A: Allocator>(
    alloc: &A,
    table: &Table<'_, A>,
    program: &Program<'_, A>,
    fulfilment: &Fulfilment<'_, A>,
) -> Result<RowSet, AllocError>
    requires tests { AreTests (table_at table.now) fulfilment.now }
    requires program { IsWholeProgram table.now program.now.steps.keys program.now.rows.items }
    ensures { IfOk result (AreCounted (table_at table.now)) }
{
    table.invariant();
    let leaves = leaves(alloc, program.steps())?;
    let supports = leaves.as_slice();
    let mut counted = RowSet::empty();
    let mut next = round(table, program, supports, fulfilment, &counted);
    'rounds: while !next.is_subset(&counted) {
        counted.invariant();
        next.invariant();
        counted = next;
        next = round(table, program, supports, fulfilment, &counted);
    }
    Ok(counted)
}
