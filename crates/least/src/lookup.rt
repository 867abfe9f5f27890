//! Lookup of an item below a given one.

ghost use Rattle.std.specs.Prelude.{◌≡◌, ◌&&◌, Bool, IfOk, true};
ghost use Rattle.least.specs.Lookups.{is_above};
ghost use Rattle.std.specs.List.{list_any};

use crate::below::Below;
use crate::counting::{Counting, is_lesser};
use crate::index::{Index, place_of_lesser};
use std::alloc::{AllocError, Allocator};
use std::marker::Model;

/// How many items next to the one that was found last are compared before the index is searched. Items that are looked up one after another are often
/// above the same item, or the next one.
const NEAR: usize = 4;

/// Items, with an index. Contracts see it as the list of the items.
#[derive(Drop)]
pub struct Lookup<'b, 'a, T: Below, A: Allocator> {
    items: &'b [T],
    index: Index<'a, A>,
    /// The place of the item that was found last.
    last: usize,
}

impl<'b, 'a, T: Below, A: Allocator> Model for Lookup<'b, 'a, T, A> {
    ghost use Rattle.std.specs.Prelude.{List};
    ghost use Rattle.least.specs.Blocks.{IsIndexed};

    ghost Value = { List T };

    ghost view = { λ l. l.items.now };

    ghost invariant = { λ l. IsIndexed T.needs T.lacking l.items.now l.index.blocks.items l.index.uppers.items };
}

impl<'b, 'a, T: Below, A: Allocator> Lookup<'b, 'a, T, A> {
    /// Prepares the items for lookups. If there are few, nothing is allocated.
    pub fn new(alloc: &'a A, items: &'b [T]) -> Result<Lookup<'b, 'a, T, A>, AllocError>
        ensures { IfOk result (λ l. l ≡ items.now) }
    {
        let index = Index::of(alloc, items)?;
        Ok(Lookup {
            items,
            index,
            last: 0,
        })
    }

    /// Whether one of the items is below this one and is taken into account. The items next to the one that was found last are compared first.
    pub fn has_lesser<C: Counting<T>>(&mut self, counting: &C, item: &T) -> bool
        ensures same { self.new ≡ self.old }
        ensures lesser { result ≡ list_any (λ u. C.counts counting.now u item.now && T.below u item.now) self.old }
    {
        if self.index.blocks.len() == 0 {
            return has_among(self.items, counting, item);
        }
        if has_among(near(self.items, self.last), counting, item) {
            return true;
        }
        match place_of_lesser(self.items, &self.index, counting, item) {
            Some(place) => {
                self.last = place;
                true
            }
            None => false,
        }
    }
}

/// The items from this place on, but not more than [`NEAR`].
fn near<T>(items: &[T], place: usize) -> &[T]
    ensures { (p : T → Bool) → list_any p result.now ≡ true → list_any p items.now ≡ true }
{
    let from = items.len().min(place);
    let end = items.len().min(from.saturating_add(NEAR));
    &items[from..end]
}

/// Whether one of these items is below this one and is taken into account, by a comparison with each.
fn has_among<T: Below, C: Counting<T>>(items: &[T], counting: &C, item: &T) -> bool
    ensures { result ≡ is_above T.below (C.counts counting.now) items.now item.now }
{
    items.iter().any(|other| is_lesser(other, counting, item))
}
