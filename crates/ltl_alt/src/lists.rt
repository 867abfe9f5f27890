//! Joins and unions of lists of pairs.
//!
//! Most joins of long lists are duplicates. Each join is looked up by its hash as it is made, so only different ones take memory.

ghost use Rattle.std.specs.Prelude.{◌≡◌, ◌++◌, IfOk, OnOk, filter_map, fold};
ghost use Rattle.std.specs.Ordering.{eq_by_cmp};
ghost use Rattle.ltl_spec.specs.Collections.Lists.{HasNoRepeats, first_occurrences, with_new};
ghost use Rattle.ltl_spec.specs.Collections.Sets as spec_sets;
ghost use Rattle.ltl_spec.specs.Transitions.Pairs as spec_pairs;
ghost use Rattle.ltl_alt.specs.StandIns.{joins_by_right};

use crate::pair::Pair;
use ltl_automaton::Interner;
use std::alloc::{AllocError, Allocator};

/// Adds the joins of each pair of a list with one pair, unless they are there.
pub(crate) fn note_joins<A: Allocator>(
    once: &mut Interner<'_, Pair, A>,
    left: &[Pair],
    right: &Pair,
) -> Result<(), AllocError>
    ensures { OnOk result (once.new.keys ≡ fold (with_new (eq_by_cmp spec_pairs.pair_cmp)) once.old.keys
        (filter_map (λ p. spec_pairs.join_pair p right.now) left.now)) }
{
    'left: for p in left {
        if let Some(pair) = p.join(right) {
            once.number(pair)?;
        }
    }
    Ok(())
}

/// The different joins of a pair of each side, in the order of their first occurrence.
fn noted<'a, A: Allocator>(
    alloc: &'a A,
    left: &[Pair],
    right: &[Pair],
) -> Result<Interner<'a, Pair, A>, AllocError>
    ensures { IfOk result (λ d. d.keys ≡ first_occurrences (eq_by_cmp spec_pairs.pair_cmp) (joins_by_right left.now right.now)) }
{
    let mut once = Interner::new(alloc);
    'right: for q in right {
        note_joins(&mut once, left, q)?;
    }
    Ok(once)
}

/// The different joins of a pair of each side, in the order of their first occurrence.
pub(crate) fn join<'a, A: Allocator>(
    alloc: &'a A,
    left: &[Pair],
    right: &[Pair],
) -> Result<Vec<Pair, &'a A>, AllocError>
    ensures set { IfOk result (λ v. spec_sets.set_of spec_pairs.pair_cmp v.items ≡ spec_sets.set_of spec_pairs.pair_cmp (spec_pairs.join left.now right.now)) }
    ensures once { IfOk result (λ v. HasNoRepeats v.items) }
{
    let once = noted(alloc, left, right)?;
    let pairs = Vec::from_slice(alloc, once.as_slice())?;
    Ok(pairs)
}

/// The pairs of both lists, those of the left one first.
pub(crate) fn both<'a, A: Allocator>(
    alloc: &'a A,
    left: &[Pair],
    right: &[Pair],
) -> Result<Vec<Pair, &'a A>, AllocError>
    ensures { IfOk result (λ v. v.items ≡ left.now ++ right.now) }
{
    let mut pairs = Vec::with_capacity(alloc, left.len().saturating_add(right.len()))?;
    pairs.extend_from_slice(left)?;
    pairs.extend_from_slice(right)?;
    Ok(pairs)
}
