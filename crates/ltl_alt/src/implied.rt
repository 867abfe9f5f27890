//! Removal of implied (subsumed) transitions.

ghost use Rattle.std.specs.Prelude.{◌≡◌, IfOk, not};
ghost use Rattle.std.specs.List.{filter};
ghost use Rattle.ltl_alt.specs.TransitionView.{AllSets, AreUpTo, is_heavy};
ghost use Rattle.ltl_spec.specs.Transitions.RowTransitions as spec;

use crate::transition::{Differing, Transition};
use least::not_above;
use std::alloc::{AllocError, Allocator};

/// The greatest weight of these transitions, 0 if there are none. A transition that implies another one has a smaller weight.
fn heaviest(transitions: &[Transition]) -> usize
    ensures { AreUpTo result transitions.now }
{
    let mut most = 0;
    'transitions: for transition in transitions {
        let weight = transition.weight();
        if most < weight {
            most = weight;
        }
    }
    most
}

/// The transitions of less than the weight `most`. If that is the greatest weight, no others imply one of the transitions.
fn lighter<'a, A: Allocator>(
    alloc: &'a A,
    transitions: &[Transition],
    most: usize,
) -> Result<Vec<Transition, &'a A>, AllocError>
    ensures { IfOk result (λ v. v.items ≡ filter (λ t. not (is_heavy most t)) transitions.now) }
{
    let mut lighter = Vec::with_capacity(alloc, transitions.len())?;
    'transitions: for transition in transitions {
        if transition.weight() < most {
            lighter.push(*transition)?;
        }
    }
    Ok(lighter)
}

/// The transitions that no other one implies, in their order.
pub(crate) fn unimplied<'a, A: Allocator>(
    alloc: &'a A,
    transitions: Vec<Transition, &'a A>,
) -> Result<Vec<Transition, &'a A>, AllocError>
    requires { AllSets transitions.items }
    ensures { IfOk result (λ v. v.items ≡ spec.unimplied_transitions transitions.entry.items) }
{
    let most = heaviest(transitions.as_slice());
    let lighter = lighter(alloc, transitions.as_slice(), most)?;
    let kept = not_above(
        alloc,
        &Differing,
        lighter.as_slice(),
        transitions.as_slice(),
    )?;
    Ok(kept)
}
