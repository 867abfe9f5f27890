//! Bit-parallel evaluation of the fulfilment tests: the pairs of a block are evaluated at once, and the column of a step is the set of those that pass it.

ghost use Rattle.std.specs.Prelude.{◌≡◌, ◌≤◌, [], List, true, length, map, slice_index_or, IfOk, OnOk};
ghost use Rattle.std.specs.Ordering.{nat_cmp};
ghost use Rattle.ltl_sets.specs.Literals.{literal_of};
ghost use Rattle.ltl_spec.specs.Collections.Sets.{has};
ghost use Rattle.ltl_spec.specs.Transitions.Cubes.{literal_cmp};
ghost use Rattle.ltl_spec.specs.Transitions.Pairs as spec_pairs;
ghost use Rattle.least.specs.Columns as by_number;
ghost use Rattle.least.specs.Columns.{AreColumnsOf};
ghost use Rattle.ltl_alt.specs.Columns.{AreColumns, IsColumn, IsNeeding, IsStepColumn};
ghost use Rattle.ltl_alt.specs.Elements.{needs_of};
ghost use Rattle.ltl_alt.specs.Tests.{step_of, steps_of};

use crate::fulfilment::Fulfilment;
use crate::pair::Pair;
use crate::program::Step;
use crate::support::needs;
use least::Columns;
use ltl_sets::{Literal, RowSet};
use std::alloc::{AllocError, Allocator};

/// The largest number of pairs in a block.
pub(crate) const BLOCK: usize = RowSet::LIMIT;

/// The column of the step with this number; no pair if there is no such step.
#[inline(always)]
pub(crate) fn column_at(columns: &[RowSet], number: usize) -> RowSet
    ensures { result ≡ slice_index_or columns.now number [] }
{
    if number < columns.len() {
        columns[number]
    } else {
        RowSet::empty()
    }
}

/// All pairs of a block.
fn everyone(block: &[Pair]) -> RowSet
    requires few { length block.now ≤ RowSet.LIMIT }
    ensures { IsColumn (λ p. true) block.now result }
{
    let mut column = RowSet::empty();
    'pairs: for j in 0..block.len() {
        column.insert(j);
    }
    column
}

/// The numbers of one kind that each pair needs.
fn sets_of<'a, A: Allocator>(
    alloc: &'a A,
    block: &[Pair],
    kind: usize,
) -> Result<Vec<RowSet, &'a A>, AllocError>
    ensures { IfOk result (λ v. v.items ≡ map (λ p. needs_of p kind) block.now) }
{
    let mut sets = Vec::with_capacity(alloc, block.len())?;
    'pairs: for pair in block {
        sets.push(needs(&pair.cube, &pair.targets, kind))?;
    }
    Ok(sets)
}

/// The columns of the numbers of one kind.
fn columns_of<'a, A: Allocator>(
    alloc: &'a A,
    block: &[Pair],
    kind: usize,
) -> Result<Columns<'a, A>, AllocError>
    requires few { length block.now ≤ RowSet.LIMIT }
    ensures { IfOk result (AreColumnsOf (map (λ p. needs_of p kind) block.now)) }
{
    let sets = sets_of(alloc, block, kind)?;
    Columns::of(alloc, sets.as_slice())
}

/// The pairs of a block, and those of them that need a literal or have a row as a target, for each literal and each row.
#[derive(Drop)]
pub(crate) struct Needing<'a, A: Allocator> {
    pub(crate) all: RowSet,
    positive: Columns<'a, A>,
    negative: Columns<'a, A>,
    targets: Columns<'a, A>,
}

impl<'a, A: Allocator> Needing<'a, A> {
    /// The pairs of this block by what they need.
    pub(crate) fn of(alloc: &'a A, block: &[Pair]) -> Result<Self, AllocError>
        requires few { length block.now ≤ RowSet.LIMIT }
        ensures { IfOk result (IsNeeding block.now) }
    {
        Ok(Needing {
            all: everyone(block),
            positive: columns_of(alloc, block, 0)?,
            negative: columns_of(alloc, block, 1)?,
            targets: columns_of(alloc, block, 2)?,
        })
    }

    /// The pairs that need the literal.
    #[inline(always)]
    pub(crate) fn reading(&self, literal: Literal) -> RowSet
        ensures { (ps : List spec_pairs.Pair) → IsNeeding ps self.now → IsColumn (λ p. has literal_cmp (literal_of literal) p.cube) ps result }
    {
        if literal.positive {
            self.positive.column(literal.proposition)
        } else {
            self.negative.column(literal.proposition)
        }
    }

    /// The pairs that have the row at this place as a target.
    #[inline(always)]
    pub(crate) fn leading(&self, place: usize) -> RowSet
        ensures column { result ≡ by_number.column_at self.now.targets place }
        ensures pairs { (ps : List spec_pairs.Pair) → IsNeeding ps self.now → IsColumn (λ p. has nat_cmp place p.targets) ps result }
    {
        self.targets.column(place)
    }
}

/// The column of a step, from the columns of earlier steps.
fn step_column<A: Allocator>(needing: &Needing<'_, A>, columns: &[RowSet], step: Step) -> RowSet
    ensures { (ps : List spec_pairs.Pair) → IsNeeding ps needing.now → IsStepColumn ps columns.now (step_of step) result }
{
    match step {
        Step::Always => needing.all,
        Step::Never => RowSet::empty(),
        Step::Reads(literal) => needing.reading(literal),
        Step::Leads(place) => needing.leading(place),
        Step::Both(i, j) => column_at(columns, i).common(&column_at(columns, j)),
        Step::Either(i, j) => column_at(columns, i).union(&column_at(columns, j)),
    }
}

/// Computes the columns of all steps, in place of the old contents of `columns`.
pub(crate) fn put_columns<A: Allocator>(
    fulfilment: &Fulfilment<'_, A>,
    needing: &Needing<'_, A>,
    columns: &mut Vec<RowSet, &A>,
) -> Result<(), AllocError>
    ensures { OnOk result ((ps : List spec_pairs.Pair) → IsNeeding ps needing.now → AreColumns (steps_of fulfilment.now.steps.items) ps columns.new.items) }
{
    columns.clear();
    'steps: for k in 0..fulfilment.steps.len() {
        let step = fulfilment.steps[k];
        let column = step_column(needing, columns.as_slice(), step);
        columns.push(column)?;
    }
    Ok(())
}
