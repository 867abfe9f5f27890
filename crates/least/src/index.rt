//! An index of items by blocks, and of many blocks by upper blocks.

ghost use Rattle.std.specs.Prelude.{◌≡◌, ◌<◌, IfOk, false, is_some, true, length};
ghost use Rattle.least.specs.Blocks.{AreBlocks, AreClear, AreUppers, IsIndexed, part_at};
ghost use Rattle.least.specs.Lookups.{is_above, is_found};

use crate::below::Below;
use crate::block::Block;
use crate::counting::{Counting, is_lesser};
use crate::parts::{BLOCK, blocks_of, commons_of, part};
use std::alloc::{AllocError, Allocator};

/// The largest number of items that have no blocks: they are compared one by one.
const FEW: usize = 24;

/// The largest number of blocks that have no upper blocks: they are searched one by one.
const FEW_BLOCKS: usize = 2;

/// The blocks of a list of items.
#[derive(Drop)]
pub(crate) struct Index<'a, A: Allocator> {
    pub(crate) blocks: Vec<Block<'a, A>, &'a A>,
    /// The blocks of what all items of each block need.
    pub(crate) uppers: Vec<Block<'a, A>, &'a A>,
}

/// The blocks of the items, or none if there are few items.
fn blocks_if_many<'a, T: Below, A: Allocator>(
    alloc: &'a A,
    items: &[T],
) -> Result<Vec<Block<'a, A>, &'a A>, AllocError>
    ensures { IfOk result (λ v. 0 < length v.items → AreBlocks T.needs T.lacking items.now v.items) }
{
    if items.len() <= FEW {
        return Ok(Vec::new(alloc));
    }
    blocks_of(alloc, items)
}

/// The upper blocks of the items, or none if there are few blocks.
fn uppers_if_many<'a, T: Below, A: Allocator>(
    alloc: &'a A,
    items: &[T],
    blocks: usize,
) -> Result<Vec<Block<'a, A>, &'a A>, AllocError>
    ensures { IfOk result (λ v. 0 < length v.items → AreUppers T.needs items.now v.items) }
{
    if blocks <= FEW_BLOCKS {
        return Ok(Vec::new(alloc));
    }
    let commons = commons_of(alloc, items)?;
    blocks_of(alloc, commons.as_slice())
}

impl<'a, A: Allocator> Index<'a, A> {
    /// The index of the items.
    pub(crate) fn of<T: Below>(alloc: &'a A, items: &[T]) -> Result<Index<'a, A>, AllocError>
        ensures { IfOk result (λ x. IsIndexed T.needs T.lacking items.now x.blocks.items x.uppers.items) }
    {
        let blocks = blocks_if_many(alloc, items)?;
        let uppers = uppers_if_many(alloc, items, blocks.len())?;
        Ok(Index { blocks, uppers })
    }
}

/// The place of an item of the block with this number that is below this one and is taken into account. Only the candidates of the block are compared.
fn place_in_block<T: Below, C: Counting<T>, A: Allocator>(
    items: &[T],
    index: &Index<'_, A>,
    counting: &C,
    item: &T,
    number: usize,
) -> Option<usize>
    requires { AreBlocks T.needs T.lacking items.now index.now.blocks.items }
    ensures { is_some result ≡ is_above T.below (C.counts counting.now) (part_at number items.now) item.now }
{
    if number >= index.blocks.len() {
        return None;
    }
    let part = part(items, number);
    let candidates = index.blocks[number].candidates(item);
    let mut rest = candidates.iter();
    'candidates: while let Some(j) = rest.next() {
        if let Some(other) = part.get(j) {
            if is_lesser(other, counting, item) {
                return Some(number.saturating_mul(BLOCK).saturating_add(j));
            }
        }
    }
    None
}

/// The place of an item that is below this one and is taken into account, by one block after another.
fn place_in_blocks<T: Below, C: Counting<T>, A: Allocator>(
    items: &[T],
    index: &Index<'_, A>,
    counting: &C,
    item: &T,
) -> Option<usize>
    requires { AreBlocks T.needs T.lacking items.now index.now.blocks.items }
    ensures { is_some result ≡ is_above T.below (C.counts counting.now) items.now item.now }
{
    'numbers: for number in 0..index.blocks.len() {
        if let Some(place) = place_in_block(items, index, counting, item, number) {
            return Some(place);
        }
    }
    None
}

/// The place of an item that is below this one and is taken into account, in the blocks of the upper block with this number. Only the candidates of
/// the upper block are searched.
fn place_in_upper<T: Below, C: Counting<T>, A: Allocator>(
    items: &[T],
    index: &Index<'_, A>,
    counting: &C,
    item: &T,
    number: usize,
) -> Option<usize>
    requires blocks { AreBlocks T.needs T.lacking items.now index.now.blocks.items }
    requires uppers { AreUppers T.needs items.now index.now.uppers.items }
    requires inside { number < length index.now.uppers.items }
    ensures found { is_some result ≡ true → is_above T.below (C.counts counting.now) items.now item.now ≡ true }
    ensures clear { is_some result ≡ false → AreClear (is_found T.below (C.counts counting.now) item.now) items.now number }
{
    let candidates = index.uppers[number].candidates(item);
    candidates.invariant();
    let mut rest = candidates.iter();
    'candidates: while let Some(b) = rest.next() {
        if let Some(place) = place_in_block(items, index, counting, item, number * BLOCK + b) {
            return Some(place);
        }
    }
    None
}

/// The place of an item that is below this one and is taken into account, by one upper block after another.
fn place_in_uppers<T: Below, C: Counting<T>, A: Allocator>(
    items: &[T],
    index: &Index<'_, A>,
    counting: &C,
    item: &T,
) -> Option<usize>
    requires blocks { AreBlocks T.needs T.lacking items.now index.now.blocks.items }
    requires uppers { AreUppers T.needs items.now index.now.uppers.items }
    ensures { is_some result ≡ is_above T.below (C.counts counting.now) items.now item.now }
{
    'numbers: for number in 0..index.uppers.len() {
        if let Some(place) = place_in_upper(items, index, counting, item, number) {
            return Some(place);
        }
    }
    None
}

/// The place of an item that is below this one and is taken into account. There are blocks.
pub(crate) fn place_of_lesser<T: Below, C: Counting<T>, A: Allocator>(
    items: &[T],
    index: &Index<'_, A>,
    counting: &C,
    item: &T,
) -> Option<usize>
    requires indexed { IsIndexed T.needs T.lacking items.now index.now.blocks.items index.now.uppers.items }
    requires many { 0 < length index.now.blocks.items }
    ensures { is_some result ≡ is_above T.below (C.counts counting.now) items.now item.now }
{
    if index.uppers.len() == 0 {
        return place_in_blocks(items, index, counting, item);
    }
    place_in_uppers(items, index, counting, item)
}
