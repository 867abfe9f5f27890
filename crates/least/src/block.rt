//! Blocks of items, by the columns of the elements that they need and lack.

ghost use Rattle.std.specs.Prelude.{◌≡◌, ◌≤◌, IfOk, length, map};
ghost use Rattle.std.specs.List.{filter};
ghost use Rattle.least.specs.Blocks.{AreAllBelow, AreLacks, AreLeft, AreNeeds, AreStaying, HasCandidates, IsBlockOf, IsKindOf};

use crate::columns::Columns;
use crate::elements::{Elements, KINDS};
use ltl_sets::RowSet;
use std::alloc::{AllocError, Allocator};
use std::marker::Model;

/// For each element of one kind, the indices of the items that need it, and of those that lack it.
#[derive(Drop)]
struct Kind<'a, A: Allocator> {
    needs: Columns<'a, A>,
    lacks: Columns<'a, A>,
}

impl<'a, A: Allocator> Model for Kind<'a, A> {
    ghost use Rattle.least.specs.Blocks.{KindView};

    ghost Value = { KindView };

    ghost view = { λ k. record { needs = k.needs; lacks = k.lacks } };
}

/// At most [`RowSet::LIMIT`] items, as the indices of all of them, and the columns of each kind of elements.
#[derive(Drop)]
pub(crate) struct Block<'a, A: Allocator> {
    all: RowSet,
    kinds: Vec<Kind<'a, A>, &'a A>,
}

impl<'a, A: Allocator> Model for Block<'a, A> {
    ghost use Rattle.least.specs.Blocks.{BlockView};

    ghost Value = { BlockView };

    ghost view = { λ b. record { all = b.all; kinds = b.kinds.items } };
}

/// The numbers below a count.
fn everyone(count: usize) -> RowSet
    requires { count ≤ RowSet.LIMIT }
    ensures { AreAllBelow count result }
{
    let mut all = RowSet::empty();
    'indices: for j in 0..count {
        all.insert(j);
    }
    all
}

/// The columns of the elements that the items need.
#[tactic(auto, using(crate::proofs::BlockLaws::map_next, crate::proofs::BlockLaws::map_short))]
fn needs_of<'a, T: Elements, A: Allocator>(
    alloc: &'a A,
    block: &[T],
    kind: usize,
) -> Result<Columns<'a, A>, AllocError>
    requires { length block.now ≤ RowSet.LIMIT }
    ensures { IfOk result (AreNeeds T.needs block.now kind) }
{
    let mut sets = Vec::with_capacity(alloc, block.len())?;
    'items: for item in block {
        sets.push(item.needs(kind))?;
    }
    Columns::of(alloc, sets.as_slice())
}

/// The elements that an item of the block asks for. They affect the number of comparisons alone.
fn asked<T: Elements>(block: &[T], kind: usize) -> RowSet {
    let mut all = RowSet::empty();
    for item in block {
        all = all.union(&item.asks(kind));
    }
    all
}

/// The columns of the elements, of those that an item of the block asks for, that the items lack.
#[tactic(auto, using(crate::proofs::BlockLaws::map_next, crate::proofs::BlockLaws::map_short))]
fn lacks_of<'a, T: Elements, A: Allocator>(
    alloc: &'a A,
    block: &[T],
    kind: usize,
) -> Result<Columns<'a, A>, AllocError>
    requires { length block.now ≤ RowSet.LIMIT }
    ensures { IfOk result (AreLacks T.lacking block.now kind) }
{
    let asked = asked(block, kind);
    let mut sets = Vec::with_capacity(alloc, block.len())?;
    'items: for item in block {
        sets.push(item.lacks(kind, &asked))?;
    }
    Columns::of(alloc, sets.as_slice())
}

/// Those of the indices that are in no column of these elements.
#[inline(always)]
fn without_columns<A: Allocator>(all: RowSet, columns: &Columns<'_, A>, elements: &RowSet) -> RowSet
    ensures { AreLeft all columns.now elements.now result }
{
    let mut left = all;
    let mut rest = elements.iter();
    'elements: while let Some(e) = rest.next() {
        left = left.without(&columns.column(e));
    }
    left
}

impl<'a, A: Allocator> Kind<'a, A> {
    /// The columns of one kind.
    fn of<T: Elements>(alloc: &'a A, block: &[T], kind: usize) -> Result<Kind<'a, A>, AllocError>
        requires { length block.now ≤ RowSet.LIMIT }
        ensures { IfOk result (IsKindOf T.needs T.lacking block.now kind) }
    {
        let needs = needs_of(alloc, block, kind)?;
        let lacks = lacks_of(alloc, block, kind)?;
        Ok(Kind { needs, lacks })
    }

    /// Those of the items that need no element but these, and lack none that is asked for.
    #[inline(always)]
    fn staying(&self, all: RowSet, needs: &RowSet, asks: &RowSet) -> RowSet
        ensures { AreStaying all needs.now asks.now self.now result }
    {
        let left = without_columns(all, &self.needs, &self.needs.met().without(needs));
        without_columns(left, &self.lacks, &self.lacks.met().common(asks))
    }
}

impl<'a, A: Allocator> Block<'a, A> {
    /// The block of these items.
    #[tactic(auto, using(crate::proofs::BlockLaws::block_is))]
    pub(crate) fn of<T: Elements>(alloc: &'a A, block: &[T]) -> Result<Block<'a, A>, AllocError>
        requires { length block.now ≤ RowSet.LIMIT }
        ensures { IfOk result (IsBlockOf T.needs T.lacking block.now) }
    {
        let mut kinds = Vec::with_capacity(alloc, KINDS)?;
        'kinds: for kind in 0..KINDS {
            kinds.push(Kind::of(alloc, block, kind)?)?;
        }
        Ok(Block {
            all: everyone(block.len()),
            kinds,
        })
    }

    /// The indices of the items that may be below this one. All others are not below it.
    pub(crate) fn candidates<T: Elements>(&self, item: &T) -> RowSet
        ensures { HasCandidates (T.needs item.now) (T.asks item.now) self.now result }
    {
        let mut left = self.all;
        'kinds: for k in 0..self.kinds.len() {
            if left == RowSet::empty() {
                return left;
            }
            left = self.kinds[k].staying(left, &item.needs(k), &item.asks(k));
        }
        left
    }
}
