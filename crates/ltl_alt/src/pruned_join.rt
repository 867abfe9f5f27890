//! Joins of two lists of pairs, pruned while they grow.

ghost use Rattle.std.specs.Prelude.{◌≡◌, IfOk};
ghost use Rattle.ltl_spec.specs.Transitions.Pairs.{join};
ghost use Rattle.ltl_alt.specs.StandIns.{IsPruned};

use crate::lists::{both, note_joins};
use crate::pair::Pair;
use crate::prune::prune;
use crate::rule::Pruning;
use ltl_automaton::Interner;
use std::alloc::{AllocError, Allocator};

/// The number of different joins that are made before they are pruned for the first time.
const MANY: usize = 65_536;

/// The joins of a pair of each side, pruned by the rule. If there are many, they are pruned while they grow. So their memory goes by how many are left in
/// between, and not by how many are made.
pub(crate) fn pruned_join<'a, A: Allocator>(
    alloc: &'a A,
    pruning: &Pruning<'_, '_, A>,
    left: &[Pair],
    right: &[Pair],
) -> Result<Vec<Pair, &'a A>, AllocError>
    ensures { IfOk result (λ v. IsPruned pruning.now.rule pruning.now.fulfilment.now (join left.now right.now) v.items) }
{
    let mut kept = Vec::new(alloc);
    let mut once = Interner::new(alloc);
    'right: for q in right {
        note_joins(&mut once, left, q)?;
        if once.len() > MANY.max(kept.len()) {
            let grown = both(alloc, kept.as_slice(), once.as_slice())?;
            kept = prune(alloc, pruning, grown)?;
            once = Interner::new(alloc);
        }
    }
    let grown = both(alloc, kept.as_slice(), once.as_slice())?;
    let pruned = prune(alloc, pruning, grown)?;
    Ok(pruned)
}
