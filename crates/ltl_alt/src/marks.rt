//! The acceptance marks of pairs.

ghost use Rattle.std.specs.Prelude.{◌≡◌, ◌≤◌, ◌++◌, length, map, true, IfOk, OnOk};
ghost use Rattle.ltl_spec.specs.Collections.Lists.{places_where};
ghost use Rattle.ltl_spec.specs.Transitions.RowTransitions as spec;
ghost use Rattle.least.specs.Columns.{AreColumnsOf, column_at};
ghost use Rattle.ltl_alt.specs.Columns.{AreUnmarked, IsUnmarked, unmarked_by};
ghost use Rattle.ltl_alt.specs.Tests.{AreTests};
ghost use Rattle.ltl_alt.specs.TransitionView.{table_at};

use crate::columns::{BLOCK, Needing, column_at, put_columns};
use crate::fulfilment::Fulfilment;
use crate::pair::Pair;
use crate::transition::Transition;
use least::Columns;
use ltl_formula::Table;
use ltl_sets::RowSet;
use std::alloc::{AllocError, Allocator};

/// For each until row, the pairs of a block that aren't marked for it, from the columns of all steps: they have the row as a target, and don't fulfil it.
fn unmarked_pairs<'a, A: Allocator>(
    alloc: &'a A,
    fulfilment: &Fulfilment<'_, A>,
    needing: &Needing<'_, A>,
    columns: &[RowSet],
) -> Result<Vec<RowSet, &'a A>, AllocError>
    ensures { IfOk result (λ v. v.items ≡ map (unmarked_by needing.now columns.now) fulfilment.now.untils.items) }
{
    let mut sets = Vec::with_capacity(alloc, fulfilment.untils.len())?;
    'untils: for number in 0..fulfilment.untils.len() {
        let until = fulfilment.until(number);
        let fulfilling = column_at(columns, until.step);
        sets.push(needing.leading(until.place).without(&fulfilling))?;
    }
    Ok(sets)
}

/// For each pair of a block, the numbers of the until rows for which it isn't marked.
fn unmarked<'a, A: Allocator>(
    alloc: &'a A,
    fulfilment: &Fulfilment<'_, A>,
    needing: &Needing<'_, A>,
    columns: &[RowSet],
) -> Result<Columns<'a, A>, AllocError>
    requires few { length fulfilment.now.untils.items ≤ RowSet.LIMIT }
    ensures { IfOk result (AreColumnsOf (map (unmarked_by needing.now columns.now) fulfilment.now.untils.items)) }
{
    let pairs = unmarked_pairs(alloc, fulfilment, needing, columns)?;
    Columns::of(alloc, pairs.as_slice())
}

/// The numbers of all until rows.
fn every<A: Allocator>(table: &Table<'_, A>, fulfilment: &Fulfilment<'_, A>) -> RowSet
    requires tests { AreTests (table_at table.now) fulfilment.now }
    ensures { result ≡ places_where (λ F. true) (table_at table.now).untils }
{
    let mut every = RowSet::empty();
    'untils: for number in 0..fulfilment.untils.len() {
        every.insert(number);
    }
    every
}

/// The numbers, among the until rows, of those for which a pair is marked: all but those for which it isn't.
#[inline(always)]
fn marks<A: Allocator>(
    table: &Table<'_, A>,
    pair: &Pair,
    every: &RowSet,
    unmarked: &RowSet,
) -> RowSet
    requires every { every.now ≡ places_where (λ F. true) (table_at table.now).untils }
    requires unmarked { IsUnmarked (table_at table.now) pair.now unmarked.now }
    ensures { result ≡ (spec.with_marks (table_at table.now) pair.now).marks }
{
    pair.cube.invariant();
    every.without(unmarked)
}

/// Appends the pairs of a block as transitions with their marks.
fn mark_block<A: Allocator>(
    table: &Table<'_, A>,
    block: &[Pair],
    every: &RowSet,
    unmarked: &Columns<'_, A>,
    all: &mut Vec<Transition, &A>,
) -> Result<(), AllocError>
    requires every { every.now ≡ places_where (λ F. true) (table_at table.now).untils }
    requires unmarked { AreUnmarked (table_at table.now) block.now unmarked.now }
    ensures { OnOk result (all.new.items ≡ all.old.items ++ map (spec.with_marks (table_at table.now)) block.now) }
{
    'pairs: for index in 0..block.len() {
        let pair = &block[index];
        all.push(Transition {
            cube: pair.cube,
            targets: pair.targets,
            marks: marks(table, pair, every, &unmarked.column(index)),
        })?;
    }
    Ok(())
}

/// The pairs as transitions with their marks, in the same order.
pub(crate) fn marked<'a, A: Allocator>(
    alloc: &'a A,
    table: &Table<'_, A>,
    fulfilment: &Fulfilment<'a, A>,
    pairs: &[Pair],
) -> Result<Vec<Transition, &'a A>, AllocError>
    requires { AreTests (table_at table.now) fulfilment.now }
    ensures { IfOk result (λ v. v.items ≡ map (spec.with_marks (table_at table.now)) pairs.now) }
{
    let every = every(table, fulfilment);
    let mut columns = Vec::with_capacity(alloc, fulfilment.steps.len())?;
    let mut all = Vec::with_capacity(alloc, pairs.len())?;
    let mut from = 0;
    'slices: while from < pairs.len() {
        let end = pairs.len().min(from.saturating_add(BLOCK));
        let block = &pairs[from..end];
        let needing = Needing::of(alloc, block)?;
        put_columns(fulfilment, &needing, &mut columns)?;
        let unmarked = unmarked(alloc, fulfilment, &needing, columns.as_slice())?;
        mark_block(table, block, &every, &unmarked, &mut all)?;
        from = end;
    }
    Ok(all)
}
