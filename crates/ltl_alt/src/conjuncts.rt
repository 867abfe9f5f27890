//! Splitting of a step into conjuncts: the joins of one pair of each are the pairs of the step.

ghost use Rattle.std.specs.Prelude.{◌≡◌, ◌<◌, ◌≤◌, length, map, true, IfOk, IfSome};
ghost use Rattle.ltl_spec.proofs.Transitions.ConjunctJoins.{join_all};
ghost use Rattle.ltl_spec.proofs.Transitions.SameJoins.{AreAlike};
ghost use Rattle.ltl_alt.specs.ConjunctView.{AreInside, AreTwoConjuncts};
ghost use Rattle.ltl_alt.specs.Steps.{AreOrdered};
ghost use Rattle.ltl_alt.specs.TestPairs.{step_pairs};

use crate::program::Step;
use smallvec::SmallVec;
use std::alloc::{AllocError, Allocator};

/// A list of conjuncts, by the numbers of their steps. Most rows have few.
pub(crate) type Conjuncts<'a, A> = SmallVec<usize, 8, &'a A>;

/// Whether splitting a conjunction of these steps may be of use. The conjuncts of `a R b` are `b`, and `a` or the row itself at the next step; they are split
/// only if `b` can be split as well.
fn is_open(steps: &[Step], left: usize, right: usize) -> bool {
    match steps.get(right) {
        Some(Step::Leads(_)) => false,
        Some(Step::Either(_, last)) => {
            matches!(steps.get(left), Some(Step::Both(_, _)))
                || !matches!(steps.get(*last), Some(Step::Leads(_)))
        }
        _ => true,
    }
}

/// The two conjuncts into which a conjunct splits, if `is_asked` and if it can be split.
fn opened(steps: &[Step], conjunct: usize, is_asked: bool) -> Option<(usize, usize)>
    requires ordered { AreOrdered steps.now }
    requires within { conjunct < length steps.now }
    ensures asked { IfSome result (λ two. is_asked ≡ true) }
    ensures conjuncts { IfSome result (AreTwoConjuncts steps.now conjunct) }
{
    if !is_asked {
        return None;
    }
    match steps[conjunct] {
        Step::Both(left, right) => {
            if is_open(steps, left, right) {
                Some((left, right))
            } else {
                None
            }
        }
        _ => None,
    }
}

/// Splits a step into at most `most` conjuncts, the leftmost first.
pub(crate) fn conjuncts<'a, A: Allocator>(
    alloc: &'a A,
    steps: &[Step],
    step: usize,
    most: usize,
) -> Result<Conjuncts<'a, A>, AllocError>
    requires ordered { AreOrdered steps.now }
    requires within { step < length steps.now }
    requires some { 0 < most }
    ensures few { IfOk result (λ v. length v.items ≤ most) }
    ensures inside { IfOk result (λ v. AreInside steps.now v.items) }
    ensures joined { IfOk result (λ v. AreAlike (step_pairs steps.now step) (join_all (map (step_pairs steps.now) v.items))) }
{
    let mut conjuncts: Conjuncts<'a, A> = SmallVec::new(alloc);
    let mut stack: Conjuncts<'a, A> = SmallVec::new(alloc);
    stack.push(step)?;
    'stack: while let Some(top) = stack.pop() {
        let is_asked = conjuncts.len() + stack.len() + 1 < most;
        if let Some(two) = opened(steps, top, is_asked) {
            stack.push(two.1)?;
            stack.push(two.0)?;
        } else {
            conjuncts.push(top)?;
        }
    }
    Ok(conjuncts)
}
