//! Which items below a given one are taken into account.

ghost use Rattle.std.specs.Prelude.{◌≡◌, ◌&&◌, Bool};

use crate::below::Below;

/// A relation on items. An item that is below another one is taken into account only if the relation holds. Often the relation is that the two
/// differ.
pub trait Counting<T> {
    ghost counts: { Self → T → T → Bool };

    /// Whether `other` is taken into account for `item`.
    fn counts(&self, other: &T, item: &T) -> bool
        ensures { result ≡ counts self.now other.now item.now };
}

/// Whether `other` is below `item` and is taken into account.
#[inline(always)]
pub(crate) fn is_lesser<T: Below, C: Counting<T>>(other: &T, counting: &C, item: &T) -> bool
    ensures { result ≡ (C.counts counting.now other.now item.now && T.below other.now item.now) }
{
    counting.counts(other, item) && other.is_below(item)
}
