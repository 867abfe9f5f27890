//! What the pairs of a block lack to pass steps of the fulfilment tests.

ghost use Rattle.std.specs.Prelude.{◌≡◌, ◌≤◌, length, IfOk};
ghost use Rattle.ltl_spec.proofs.Transitions.IndependenceTests.{IsWithinSupport};
ghost use Rattle.ltl_alt.specs.Tests.{step_of};
ghost use Rattle.ltl_alt.specs.WantedView.{AreBlockLacks, AreMore, AreWantedBelow, IsLeafWithin, operands_wanted, wanted_more};

use crate::columns::{Needing, column_at, put_columns};
use crate::fulfilment::Fulfilment;
use crate::pair::Pair;
use crate::program::Step;
use crate::support::Support;
use ltl_sets::RowSet;
use std::alloc::{AllocError, Allocator};

/// Adds pairs to those for which the step with this number is wanted.
#[inline(always)]
fn want<A: Allocator>(wanted: &mut Vec<RowSet, &A>, number: usize, pairs: &RowSet)
    ensures { wanted.new.items ≡ wanted_more wanted.old.items number pairs.now }
{
    if number < wanted.len() {
        wanted[number] = wanted[number].union(pairs);
    }
}

/// Adds pairs to those for which the operands of a step are wanted.
#[inline(always)]
fn want_operands<A: Allocator>(wanted: &mut Vec<RowSet, &A>, step: Step, pairs: &RowSet)
    ensures { wanted.new.items ≡ operands_wanted wanted.old.items (step_of step) pairs.now }
{
    match step {
        Step::Both(i, j) | Step::Either(i, j) => {
            want(wanted, i, pairs);
            want(wanted, j, pairs);
        }
        Step::Always | Step::Never | Step::Reads(_) | Step::Leads(_) => {}
    }
}

/// Adds literals and rows to what these pairs lack.
fn lack_more<A: Allocator>(lacks: &mut Vec<Support, &A>, pairs: &RowSet, leaves: &Support)
    ensures { AreMore (IsWithinSupport leaves.now) lacks.old.items pairs.now lacks.new.items }
{
    let mut rest = pairs.iter();
    'pairs: while let Some(j) = rest.next() {
        if j < lacks.len() {
            lacks[j] = lacks[j].together(leaves);
        }
    }
}

/// Adds what a step looks for to what these pairs lack. Steps that look for nothing themselves add nothing.
fn lack_leaf<A: Allocator>(
    lacks: &mut Vec<Support, &A>,
    pairs: &RowSet,
    leaves: &Support,
    step: Step,
)
    ensures { AreMore (IsLeafWithin leaves.now (step_of step)) lacks.old.items pairs.now lacks.new.items }
{
    match step {
        Step::Reads(_) | Step::Leads(_) => lack_more(lacks, pairs, leaves),
        Step::Always | Step::Never | Step::Both(_, _) | Step::Either(_, _) => {}
    }
}

/// Goes through the steps backwards. Each pair for which a step is wanted, and that doesn't pass it, wants its operands, and lacks what the step looks for.
fn want_below<A: Allocator>(
    fulfilment: &Fulfilment<'_, A>,
    columns: &[RowSet],
    wanted: &mut Vec<RowSet, &A>,
    lacks: &mut Vec<Support, &A>,
)
    requires { length wanted.old.items ≡ length fulfilment.now.steps.items }
    ensures count { length lacks.new.items ≡ length lacks.old.items }
    ensures wanted { AreWantedBelow fulfilment.now columns.now wanted.old.items 0 wanted.new.items lacks.new.items }
{
    let mut left = fulfilment.steps.len();
    'steps: while left > 0 {
        left -= 1;
        let failing = column_at(wanted.as_slice(), left).without(&column_at(columns, left));
        if !failing.is_subset(&RowSet::empty()) {
            let step = fulfilment.steps[left];
            want_operands(wanted, step, &failing);
            lack_leaf(lacks, &failing, &fulfilment.leaves(left), step);
        }
    }
}

/// What each pair of a block lacks of these steps: the literals and rows that decide, if a join adds them, whether the pair passes a step.
pub(crate) fn block_lacks<'a, A: Allocator>(
    alloc: &'a A,
    fulfilment: &Fulfilment<'_, A>,
    roots: &[usize],
    block: &[Pair],
    columns: &mut Vec<RowSet, &A>,
) -> Result<Vec<Support, &'a A>, AllocError>
    requires { length block.now ≤ RowSet.LIMIT }
    ensures { IfOk result (λ v. AreBlockLacks fulfilment.now roots.now block.now v.items) }
{
    let mut lacks = Vec::new(alloc);
    lacks.resize(block.len(), Support::nothing())?;
    if roots.is_empty() {
        return Ok(lacks);
    }
    let needing = Needing::of(alloc, block)?;
    put_columns(fulfilment, &needing, columns)?;
    let mut wanted = Vec::new(alloc);
    wanted.resize(fulfilment.steps.len(), RowSet::empty())?;
    'roots: for k in 0..roots.len() {
        want(&mut wanted, roots[k], &needing.all);
    }
    want_below(fulfilment, columns.as_slice(), &mut wanted, &mut lacks);
    Ok(lacks)
}
