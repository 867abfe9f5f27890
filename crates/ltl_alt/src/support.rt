//! The support of a list of pairs, and a test that two lists are independent.

ghost use Rattle.std.specs.Prelude.{◌≡◌, length};
ghost use Rattle.ltl_spec.specs.Transitions.Pairs as spec_pairs;
ghost use Rattle.ltl_spec.proofs.Transitions.IndependenceTests as independence;
ghost use Rattle.ltl_alt.specs.Elements.{needs_of, part};
ghost use Rattle.ltl_alt.specs.SupportView.{IsAdded, CoversAllFulfilling, AreDependencies};
ghost use Rattle.ltl_alt.specs.Tests.{AreTests};
ghost use Rattle.ltl_alt.specs.TransitionView.{table_at};

use crate::fulfilment::Fulfilment;
use crate::pair::Pair;
use ltl_formula::Table;
use ltl_sets::{Cube, RowSet};
use std::alloc::Allocator;
use std::marker::Model;

/// The literals and rows that pairs need: the propositions of the positive literals, those of the negative ones, and the places of the targets.
#[derive(Clone, Copy)]
pub(crate) struct Support {
    positive: RowSet,
    negative: RowSet,
    targets: RowSet,
}

impl Model for Support {
    ghost use Rattle.ltl_spec.proofs.Transitions.IndependenceTests as independence;

    ghost Value = { independence.Support };

    ghost view = { λ a. record { positive = a.positive; negative = a.negative; targets = a.targets } };

    ghost inverse = { λ a. record { positive = a.positive; negative = a.negative; targets = a.targets } };
}

impl Support {
    /// No literal and no row.
    pub(crate) fn nothing() -> Support
        ensures { result ≡ independence.no_support }
    {
        Support {
            positive: RowSet::empty(),
            negative: RowSet::empty(),
            targets: RowSet::empty(),
        }
    }

    /// The literals and targets of one pair.
    pub(crate) fn by(pair: &Pair) -> Support
        ensures { result ≡ independence.support_of pair.now }
    {
        Support {
            positive: pair.cube.letter(),
            negative: pair.cube.forbidden(),
            targets: pair.targets,
        }
    }

    /// The union of both.
    pub(crate) fn together(&self, other: &Support) -> Support
        ensures { result ≡ independence.together self.now other.now }
    {
        Support {
            positive: self.positive.union(&other.positive),
            negative: self.negative.union(&other.negative),
            targets: self.targets.union(&other.targets),
        }
    }

    /// The literals and targets of all pairs of a list.
    pub(crate) fn of(pairs: &[Pair]) -> Support
        ensures { independence.Covers result pairs.now }
    {
        let mut support = Support::nothing();
        'pairs: for pair in pairs {
            support = support.together(&Support::by(pair));
        }
        support
    }

    /// The numbers of one kind: the propositions of the positive literals (0), those of the negative ones (1), or the places of the targets.
    #[inline(always)]
    pub(crate) fn part(&self, kind: usize) -> RowSet
        ensures { result ≡ part kind self.now }
    {
        match kind {
            0 => self.positive,
            1 => self.negative,
            _ => self.targets,
        }
    }

    /// The places of the targets.
    #[inline(always)]
    pub(crate) fn targets(&self) -> RowSet
        ensures { result ≡ self.now.targets }
    {
        self.targets
    }

    /// Whether a literal or a row is in both.
    pub(crate) fn shares_some(&self, other: &Support) -> bool
        ensures { result ≡ independence.shares_some self.now other.now }
    {
        self.positive.meets(&other.positive)
            || self.negative.meets(&other.negative)
            || self.targets.meets(&other.targets)
    }

    /// Whether a proposition, whatever its sign, or a row is in both.
    fn speaks_of_same(&self, other: &Support) -> bool
        ensures { result ≡ independence.speaks_of_same self.now other.now }
    {
        self.shares_some(other)
            || self.positive.meets(&other.negative)
            || self.negative.meets(&other.positive)
    }
}

/// The members of a set modulo 64, as the bits of a word.
fn folded(set: &RowSet) -> u64 {
    let mut word = 0u64;
    for member in set.iter() {
        word |= 1u64 << (member % 64);
    }
    word
}

/// The literals and targets of a list of pairs modulo 64, as the bits of a word for each kind. It affects the order of joins alone.
#[derive(Clone, Copy)]
pub(crate) struct Extent {
    positive: u64,
    negative: u64,
    targets: u64,
    /// The number of bits.
    size: u32,
}

/// The number of bits of three words.
#[inline(always)]
fn bits(positive: u64, negative: u64, targets: u64) -> u32 {
    positive.count_ones() + negative.count_ones() + targets.count_ones()
}

impl Extent {
    /// That of these pairs.
    pub(crate) fn of(pairs: &[Pair]) -> Extent {
        let support = Support::of(pairs);
        let positive = folded(&support.positive);
        let negative = folded(&support.negative);
        let targets = folded(&support.targets);
        Extent {
            positive,
            negative,
            targets,
            size: bits(positive, negative, targets),
        }
    }

    /// The number of literals and targets that a join of both lists has and the larger list hasn't.
    #[inline(always)]
    pub(crate) fn added(&self, other: &Extent) -> u32 {
        let both = bits(
            self.positive | other.positive,
            self.negative | other.negative,
            self.targets | other.targets,
        );
        both.saturating_sub(self.size.max(other.size))
    }
}

/// The numbers of one kind that a pair with this cube and these targets needs.
#[inline(always)]
pub(crate) fn needs(cube: &Cube, targets: &RowSet, kind: usize) -> RowSet
    ensures { result ≡ needs_of (record { cube = cube.now; targets = targets.now }) kind }
{
    match kind {
        0 => cube.letter(),
        1 => cube.forbidden(),
        _ => *targets,
    }
}

/// Adds the literals and rows of an until row's test, if the row is a target.
fn with_leaves(fulfilling: Support, leaves: &Support, is_put_off: bool) -> Support
    ensures { IsAdded fulfilling leaves.now is_put_off result }
{
    if is_put_off {
        fulfilling.together(leaves)
    } else {
        fulfilling
    }
}

/// The literals and rows on which the tests of the until rows at these places depend. All that the fulfilling pairs of these rows need is among them.
pub(crate) fn fulfilling_of<A: Allocator>(
    table: &Table<'_, A>,
    fulfilment: &Fulfilment<'_, A>,
    targets: &RowSet,
) -> Support
    requires tests { AreTests (table_at table.now) fulfilment.now }
    ensures { CoversAllFulfilling (table_at table.now) targets.now (length (table_at table.now).untils) result }
{
    let mut fulfilling = Support::nothing();
    'untils: for number in 0..fulfilment.untils.len() {
        let until = fulfilment.until(number);
        let is_put_off = targets.holds(until.place);
        fulfilling = with_leaves(fulfilling, &fulfilment.leaves(until.step), is_put_off);
    }
    fulfilling
}

/// What the pairs of a list need, and what can fulfil the until rows that are their targets.
#[derive(Clone, Copy)]
pub(crate) struct Dependencies {
    support: Support,
    fulfilling: Support,
}

impl Dependencies {
    /// The dependencies of a list of pairs.
    pub(crate) fn of<A: Allocator>(
        table: &Table<'_, A>,
        fulfilment: &Fulfilment<'_, A>,
        pairs: &[Pair],
    ) -> Dependencies
        requires tests { AreTests (table_at table.now) fulfilment.now }
        ensures { AreDependencies (table_at table.now) pairs.now result }
    {
        let support = Support::of(pairs);
        Dependencies {
            support,
            fulfilling: fulfilling_of(table, fulfilment, &support.targets),
        }
    }

    /// Whether two lists are independent. The test is sufficient, not necessary: `false` says nothing.
    pub(crate) fn is_independent(&self, other: &Dependencies) -> bool
        ensures { result ≡ independence.is_independent self.now.support self.now.fulfilling other.now.support other.now.fulfilling }
    {
        !self.support.speaks_of_same(&other.support)
            && !self.fulfilling.shares_some(&other.support)
            && !other.fulfilling.shares_some(&self.support)
    }
}
