//! Pruning of lists of pairs: removal of pairs that a smaller pair may replace.

ghost use Rattle.std.specs.Prelude.{◌≡◌, not, IfOk};
ghost use Rattle.std.specs.List.{filter};
ghost use Rattle.ltl_alt.specs.StandIns.{AreAmong, AreKept, IsPruned, IsPrunedSafely, is_replaced};

use crate::fulfilment::Fulfilment;
use crate::lacks::{Smaller, Spare, spares_of};
use crate::pair::Pair;
use crate::roots::counted_steps;
use crate::rule::{Pruning, Rule};
use crate::support::Support;
use least::Lookup;
use ltl_automaton::sort_runs_dedup;
use ltl_sets::RowSet;
use std::alloc::{AllocError, Allocator};

/// The greatest size of these pairs.
fn largest(pairs: &[Pair]) -> usize {
    let mut most = 0;
    for pair in pairs {
        most = most.max(pair.size());
    }
    most
}

/// The pairs that are smaller than the largest one. A pair of the greatest size replaces no other one.
fn smaller<'a, A: Allocator>(alloc: &'a A, pairs: &[Pair]) -> Result<Vec<Pair, &'a A>, AllocError>
    ensures { IfOk result (λ v. AreAmong pairs.now v.items) }
{
    let most = largest(pairs);
    let mut smaller = Vec::with_capacity(alloc, pairs.len())?;
    'pairs: for pair in pairs {
        if pair.size() < most {
            smaller.push(*pair)?;
        }
    }
    Ok(smaller)
}

/// The pairs that no smaller one of the spares may replace.
fn left<'a, A: Allocator>(
    alloc: &'a A,
    spares: &mut Lookup<'_, '_, Spare, A>,
    pairs: &[Pair],
) -> Result<Vec<Pair, &'a A>, AllocError>
    ensures { IfOk result (λ v. v.items ≡ filter (λ p. not (is_replaced spares.old p)) pairs.now) }
{
    let mut rest = Vec::with_capacity(alloc, pairs.len())?;
    'pairs: for pair in pairs {
        if !spares.has_lesser(&Smaller, &Spare::of(pair, &Support::nothing())) {
            rest.push(*pair)?;
        }
    }
    Ok(rest)
}

/// The pairs that no other pair of the list may replace.
fn pruned_safely<'a, A: Allocator>(
    alloc: &'a A,
    fulfilment: &Fulfilment<'_, A>,
    counted: &RowSet,
    pairs: Vec<Pair, &'a A>,
) -> Result<Vec<Pair, &'a A>, AllocError>
    ensures { IfOk result (λ v. IsPrunedSafely fulfilment.now counted.now pairs.entry.items v.items) }
{
    let smaller = smaller(alloc, pairs.as_slice())?;
    if smaller.is_empty() {
        return Ok(pairs);
    }
    let roots = counted_steps(alloc, fulfilment, counted)?;
    let spares = spares_of(alloc, fulfilment, roots.as_slice(), smaller.as_slice())?;
    let mut lookup = Lookup::new(alloc, spares.as_slice())?;
    let kept = left(alloc, &mut lookup, pairs.as_slice())?;
    Ok(kept)
}

/// The pairs that no other, smaller pair may replace by the rule. There may be duplicates.
fn kept<'a, A: Allocator>(
    alloc: &'a A,
    pruning: &Pruning<'_, '_, A>,
    pairs: Vec<Pair, &'a A>,
) -> Result<Vec<Pair, &'a A>, AllocError>
    ensures { IfOk result (λ v. AreKept pruning.now.rule pruning.now.fulfilment.now pairs.entry.items v.items) }
{
    match pruning.rule {
        Rule::Duplicate => Ok(pairs),
        Rule::SafelySubsumed(counted) => {
            pruned_safely(alloc, pruning.fulfilment, &counted, pairs)
        }
    }
}

/// The pairs that no other, smaller pair may replace by the rule, sorted and without duplicates. They are sorted last, since most are removed, and by runs,
/// since the joins with one pair often stay in the order of the other pairs. The vector has room for them alone, since most lists are kept in memory.
pub(crate) fn prune<'a, A: Allocator>(
    alloc: &'a A,
    pruning: &Pruning<'_, '_, A>,
    pairs: Vec<Pair, &'a A>,
) -> Result<Vec<Pair, &'a A>, AllocError>
    ensures { IfOk result (λ v. IsPruned pruning.now.rule pruning.now.fulfilment.now pairs.entry.items v.items) }
{
    let mut kept = kept(alloc, pruning, pairs)?;
    sort_runs_dedup(&mut kept)?;
    let exact = Vec::from_slice(alloc, kept.as_slice())?;
    Ok(exact)
}
