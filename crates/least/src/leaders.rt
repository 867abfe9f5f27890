//! The minimal items of a list.

ghost use Rattle.std.specs.Prelude.{◌≡◌, ◌&&◌, not, IfOk};
ghost use Rattle.std.specs.List.{list_any, filter};
ghost use Rattle.least.specs.Lookups.{is_above};

use crate::below::Below;
use crate::counting::Counting;
use crate::lookup::Lookup;
use std::alloc::{AllocError, Allocator};

/// The items that have no candidate below them which is taken into account, in the given order.
pub fn not_above<'a, T: Below, C: Counting<T>, A: Allocator>(
    alloc: &'a A,
    counting: &C,
    candidates: &[T],
    items: &[T],
) -> Result<Vec<T, &'a A>, AllocError>
    ensures { IfOk result (λ v. v.items ≡ filter (λ t. not (is_above T.below (C.counts counting.now) candidates.now t)) items.now) }
{
    let mut lookup = Lookup::new(alloc, candidates)?;
    let mut kept = Vec::new(alloc);
    'items: for item in items {
        if !lookup.has_lesser(counting, item) {
            kept.push(*item)?;
        }
    }
    Ok(kept)
}

/// The items that have no item below them which is taken into account, in the given order.
pub fn least<'a, T: Below, C: Counting<T>, A: Allocator>(
    alloc: &'a A,
    counting: &C,
    items: &[T],
) -> Result<Vec<T, &'a A>, AllocError>
    ensures { IfOk result (λ v. v.items ≡ filter (λ t. not (list_any (λ u. C.counts counting.now u t && T.below u t) items.now)) items.now) }
{
    not_above(alloc, counting, items, items)
}
