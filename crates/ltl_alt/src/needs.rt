//! Which steps of a program are needed for some of them, by a backward pass over the steps.

ghost use Rattle.std.specs.Prelude.{◌≡◌, ℕ, ◌<◌, [], length, slice_index_or, IfOk, true, false};
ghost use Rattle.ltl_spec.specs.Collections.Sets.{Has};
ghost use Rattle.ltl_spec.proofs.Transitions.WantedSteps.{AreWantedFrom, want_operands, want_step};
ghost use Rattle.ltl_alt.specs.NeedsView.{AreNeeded, IsNeeded};
ghost use Rattle.ltl_alt.specs.Tests.{AreEarlier, step_of, steps_of};

use crate::program::Step;
use std::alloc::{AllocError, Allocator};

/// Marks a step as needed.
fn need<A: Allocator>(needed: &mut Vec<bool, &A>, number: usize)
    ensures { needed.new.items ≡ want_step needed.old.items number }
{
    if number < needed.len() {
        needed[number] = true;
    }
}

/// Marks the operands of a step as needed.
fn need_operands<A: Allocator>(needed: &mut Vec<bool, &A>, step: Step)
    ensures { needed.new.items ≡ want_operands needed.old.items (step_of step) }
{
    match step {
        Step::Both(i, j) | Step::Either(i, j) => {
            need(needed, i);
            need(needed, j);
        }
        Step::Always | Step::Never | Step::Reads(_) | Step::Leads(_) => {}
    }
}

/// Goes through the steps from the last one down, and marks the operands of each needed step.
fn need_below<A: Allocator>(needed: &mut Vec<bool, &A>, steps: &[Step])
    requires earlier { AreEarlier (steps_of steps.now) }
    requires count { length needed.old.items ≡ length steps.now }
    ensures needed { AreWantedFrom 0 [] (steps_of steps.now) needed.new.items }
    ensures more { (k : ℕ) → IsNeeded needed.old.items k → IsNeeded needed.new.items k }
{
    let mut k = steps.len();
    'steps: while k > 0 {
        k -= 1;
        if needed[k] {
            need_operands(needed, steps[k]);
        }
    }
}

/// The steps that are needed for these.
pub(crate) fn needed_steps<'a, A: Allocator>(
    alloc: &'a A,
    steps: &[Step],
    roots: &[usize],
) -> Result<Vec<bool, &'a A>, AllocError>
    requires earlier { AreEarlier (steps_of steps.now) }
    requires inside { (k : ℕ) → Has roots.now k → k < length steps.now }
    ensures { IfOk result (λ v. AreNeeded steps.now roots.now v.items) }
{
    let mut needed: Vec<bool, &'a A> = Vec::new(alloc);
    needed.resize(steps.len(), false)?;
    'roots: for k in 0..roots.len() {
        need(&mut needed, roots[k]);
    }
    need_below(&mut needed, steps);
    Ok(needed)
}
