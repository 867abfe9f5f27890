//! Pairs that may replace others, with what they lack to fulfil until rows.

ghost use Rattle.std.specs.Prelude.{◌≡◌, length, IfOk, OnOk};
ghost use Rattle.ltl_alt.specs.StandIns.{AreOfBlock, AreSpares, size_of};

use crate::columns::BLOCK;
use crate::fulfilment::Fulfilment;
use crate::pair::Pair;
use crate::support::{Support, needs};
use crate::wanted::block_lacks;
use least::{Below, Counting, Elements};
use ltl_sets::RowSet;
use std::alloc::{AllocError, Allocator};

/// A pair, the literals and rows that it lacks, and its size.
#[derive(Clone, Copy)]
pub(crate) struct Spare {
    pair: Pair,
    lacks: Support,
    size: usize,
}

impl Spare {
    /// A pair that lacks these literals and rows.
    #[inline(always)]
    pub(crate) fn of(pair: &Pair, lacks: &Support) -> Spare
        ensures { result ≡ record { pair = pair.now; lacks = lacks.now; size = size_of pair.now } }
    {
        Spare {
            pair: *pair,
            lacks: *lacks,
            size: pair.size(),
        }
    }
}

/// A pair is below those that it may replace: it needs no more than they do, and lacks nothing that they need.
impl Below for Spare {
    ghost use Rattle.ltl_alt.specs.Elements.{may_replace, needed_too, not_lacked};

    ghost below = { λ s t. may_replace s t.pair };

    #[inline(always)]
    fn is_below(&self, other: &Spare) -> bool {
        self.pair.is_within(&other.pair) && !self.lacks.shares_some(&Support::by(&other.pair))
    }

    ghost needed = { λ s t k e. needed_too s t.pair k e };

    ghost lacked = { λ s t k e. not_lacked s t.pair k e };
}

/// What a pair needs is what others must not lack.
impl Elements for Spare {
    ghost use Rattle.ltl_alt.specs.Elements.{is_lacked, needs_of};

    ghost needs = { λ s. needs_of s.pair };

    ghost asks = { λ s. needs_of s.pair };

    ghost lacking = { is_lacked };

    #[inline(always)]
    fn needs(&self, kind: usize) -> RowSet {
        needs(&self.pair.cube, &self.pair.targets, kind)
    }

    #[inline(always)]
    fn asks(&self, kind: usize) -> RowSet {
        needs(&self.pair.cube, &self.pair.targets, kind)
    }

    #[inline(always)]
    fn lacks(&self, kind: usize, of: &RowSet) -> RowSet {
        of.common(&self.lacks.part(kind))
    }
}

/// Of the pairs that may replace another one, only smaller ones count.
pub(crate) struct Smaller;

impl Counting<Spare> for Smaller {
    ghost use Rattle.std.specs.Prelude.{nat_lt};

    ghost counts = { λ _ s t. nat_lt s.size t.size };

    fn counts(&self, other: &Spare, item: &Spare) -> bool {
        other.size < item.size
    }
}

/// Appends the pairs of a block, with what each of them lacks.
fn put_spares<A: Allocator>(
    spares: &mut Vec<Spare, &A>,
    block: &[Pair],
    lacks: &[Support],
) -> Result<(), AllocError>
    requires { length lacks.now ≡ length block.now }
    ensures { OnOk result (AreOfBlock block.now lacks.now spares.old.items spares.new.items) }
{
    'pairs: for k in 0..block.len() {
        spares.push(Spare::of(&block[k], &lacks[k]))?;
    }
    Ok(())
}

/// These pairs, with what each of them lacks of these steps, in the order of the pairs.
pub(crate) fn spares_of<'a, A: Allocator>(
    alloc: &'a A,
    fulfilment: &Fulfilment<'_, A>,
    roots: &[usize],
    pairs: &[Pair],
) -> Result<Vec<Spare, &'a A>, AllocError>
    ensures { IfOk result (λ v. AreSpares fulfilment.now roots.now pairs.now v.items) }
{
    let mut spares = Vec::with_capacity(alloc, pairs.len())?;
    let mut columns = Vec::with_capacity(alloc, fulfilment.steps.len())?;
    let mut from = 0;
    'rounds: while from < pairs.len() {
        let end = pairs.len().min(from.saturating_add(BLOCK));
        let block = &pairs[from..end];
        let lacks = block_lacks(alloc, fulfilment, roots, block, &mut columns)?;
        put_spares(&mut spares, block, lacks.as_slice())?;
        from = end;
    }
    Ok(spares)
}
