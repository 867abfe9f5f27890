//! The reduction of an automaton that was read to a Büchi automaton with accepting states.

ghost use Rattle.std.specs.Prelude.{length, IfOk, IsErrOf};
ghost use Rattle.ltl_spec.specs.Checking.Bounds.{HasNamesBelow};
ghost use Rattle.ltl_reduce.specs.Buchi.{HasFewStates, HasLargeReduction, HasWordsOf};

use crate::marked::reduced;
use crate::state_based::state_based;
use ltl_hoa::Marked;
use ltl_models::{Ba, BaFault, Options};
use ltl_passes::{buchi, merged_buchi};
use std::alloc::Allocator;

/// A Büchi automaton with accepting states that accepts the words that the given automaton accepts, over the same propositions by number. It is made of a
/// reduction. If that has at most one acceptance set, and the edges of each state agree on it, its states accept. Otherwise they are copied for each number of
/// acceptance sets that were met in turn.
pub fn reduce_to_buchi<'a, A: Allocator>(
    alloc: &'a A,
    automaton: &Marked<'_, A>,
) -> Result<Ba<'a, A>, BaFault>
    ensures words { IfOk result (HasWordsOf automaton.now) }
    ensures few { IfOk result (HasFewStates automaton.now) }
    ensures named { IfOk result (HasNamesBelow (length automaton.now.names)) }

    // The result is `TooLarge` only if the copies of a reduction exceed a limit. Memory may run out at any time.
    ensures large { IsErrOf result BaFault.TooLarge → HasLargeReduction automaton.now }
{
    let smaller = reduced(alloc, automaton)?;
    smaller.invariant();
    if let Some(states) = state_based(alloc, &smaller)? {
        return merged_buchi(alloc, states);
    }
    let options = Options {
        keep_implied: false,
        keep_equal: false,
    };
    buchi(alloc, smaller, &options)
}
