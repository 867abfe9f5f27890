//! The reduction of an automaton that was read.

ghost use Rattle.std.specs.Prelude.{length, IfOk};
ghost use Rattle.ltl_spec.specs.Checking.Bounds.{HasNamesBelow};
ghost use Rattle.ltl_spec.specs.Hoa.HoaPrinted.{marked_of};
ghost use Rattle.ltl_reduce.specs.Reduced.{IsReduced};

use crate::importing::imported;
use crate::reducing::reduce;
use ltl_hoa::Marked;
use ltl_models::{Gba, Gen};
use std::alloc::{AllocError, Allocator};

/// The same as `reduce_marked`, before it is a `Gen`.
#[tactic(auto, using(crate::proofs::MarkedLaws::marked_on, crate::proofs::MarkedLaws::named_on))]
pub(crate) fn reduced<'a, A: Allocator>(
    alloc: &'a A,
    automaton: &Marked<'_, A>,
) -> Result<Gba<'a, A>, AllocError>
    ensures reduced { IfOk result (λ g. IsReduced automaton.now (marked_of g automaton.now.names)) }
    ensures named { IfOk result (HasNamesBelow (length automaton.now.names)) }
{
    automaton.invariant();
    let given = imported(alloc, automaton)?;
    let smaller = reduce(alloc, given)?;
    smaller.invariant();
    Ok(smaller)
}

/// An automaton that accepts the words that the given one accepts, over the same propositions by number. It has no more sets, states and edges, and state 0 is its
/// start.
pub fn reduce_marked<'a, A: Allocator>(
    alloc: &'a A,
    automaton: &Marked<'_, A>,
) -> Result<Gen<'a, A>, AllocError>
    ensures reduced { IfOk result (λ g. IsReduced automaton.now (marked_of g automaton.now.names)) }
    ensures named { IfOk result (HasNamesBelow (length automaton.now.names)) }
{
    let smaller = reduced(alloc, automaton)?;
    Ok(Gen::new(smaller))
}
