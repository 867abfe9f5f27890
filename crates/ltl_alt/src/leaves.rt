//! The literals and rows on which the steps of tests depend.

ghost use Rattle.std.specs.Prelude.{◌≡◌, ℕ, slice_get, slice_index_or, Some, IfOk};
ghost use Rattle.ltl_spec.proofs.Transitions.IndependenceTests.{no_support};
ghost use Rattle.ltl_spec.proofs.Transitions.SupportTests.{step_leaves};
ghost use Rattle.ltl_alt.specs.Tests.{AreLeaves, AreSmall, IsSmall, step_of};

use crate::pair::Pair;
use crate::program::Step;
use crate::support::Support;
use ltl_sets::RowSet;
use std::alloc::{AllocError, Allocator};

/// The literals and rows of the step with this number; none if there is no such step.
pub(crate) fn leaves_at(leaves: &[Support], number: usize) -> Support
    ensures { result ≡ slice_index_or leaves.now number no_support }
{
    if number < leaves.len() {
        leaves[number]
    } else {
        Support::nothing()
    }
}

/// The literals and rows of a step, from those of earlier steps.
fn step_leaves(before: &[Support], step: Step) -> Support
    requires { IsSmall step }
    ensures { result ≡ step_leaves before.now (step_of step) }
{
    match step {
        Step::Always | Step::Never => Support::nothing(),
        Step::Reads(literal) => Support::by(&Pair::now(literal)),
        Step::Leads(place) => Support::by(&Pair::later(RowSet::single(place))),
        Step::Both(i, j) | Step::Either(i, j) => {
            leaves_at(before, i).together(&leaves_at(before, j))
        }
    }
}

/// The literals and rows of each step.
pub(crate) fn leaves<'a, A: Allocator>(
    alloc: &'a A,
    steps: &[Step],
) -> Result<Vec<Support, &'a A>, AllocError>
    requires { AreSmall steps.now }
    ensures { IfOk result (λ v. AreLeaves steps.now v.items) }
{
    let mut all = Vec::with_capacity(alloc, steps.len())?;
    'steps: for k in 0..steps.len() {
        let step = steps[k];
        let leaves = step_leaves(all.as_slice(), step);
        all.push(leaves)?;
    }
    Ok(all)
}
