//! The parts of a list, of [`BLOCK`] items each, and what is made of each part.

ghost use Rattle.std.specs.Prelude.{◌≡◌, ◌≤◌, IfOk, length};
ghost use Rattle.least.specs.Blocks.{AreBlocks, ArePartsOf, IsCommonOf, IsPartCount, part_at};

use crate::block::Block;
use crate::common::{Common, common_of};
use crate::elements::Elements;
use ltl_sets::RowSet;
use std::alloc::{AllocError, Allocator};

/// The largest number of items in a block.
pub(crate) const BLOCK: usize = RowSet::LIMIT;

/// The number of parts of a list of this length.
#[tactic(auto, using(crate::proofs::PartLaws::part_counted))]
fn part_count(len: usize) -> usize
    ensures { IsPartCount len result }
{
    len / BLOCK + (len % BLOCK).min(1)
}

/// The part with this number; the last one may be shorter, and those behind it are empty.
#[inline(always)]
pub(crate) fn part<T>(items: &[T], number: usize) -> &[T]
    ensures { result.now ≡ part_at number items.now }
{
    let from = items.len().min(number.saturating_mul(BLOCK));
    let end = items.len().min(from.saturating_add(BLOCK));
    &items[from..end]
}

/// The blocks of the parts.
#[tactic(auto, using(crate::proofs::PartLaws::parts_begin))]
pub(crate) fn blocks_of<'a, T: Elements, A: Allocator>(
    alloc: &'a A,
    items: &[T],
) -> Result<Vec<Block<'a, A>, &'a A>, AllocError>
    ensures { IfOk result (λ v. AreBlocks T.needs T.lacking items.now v.items) }
{
    let mut blocks = Vec::new(alloc);
    'parts: for number in 0..part_count(items.len()) {
        blocks.push(Block::of(alloc, part(items, number))?)?;
    }
    Ok(blocks)
}

/// What all items of each part need.
#[tactic(auto, using(crate::proofs::PartLaws::parts_begin))]
pub(crate) fn commons_of<'a, T: Elements, A: Allocator>(
    alloc: &'a A,
    items: &[T],
) -> Result<Vec<Common, &'a A>, AllocError>
    ensures { IfOk result (λ v. ArePartsOf (IsCommonOf T.needs) items.now v.items) }
{
    let mut commons = Vec::new(alloc);
    'parts: for number in 0..part_count(items.len()) {
        commons.push(common_of(part(items, number)))?;
    }
    Ok(commons)
}
