//! Sets of numbers below `RowSet::LIMIT`.

ghost use Rattle.std.specs.Prelude.{◌≡◌, ℕ, ◌+◌, ◌*◌, ◌<◌, ◌≤◌, nat_eq, nat_lt, List, [], ◌∷◌, length, not};
ghost use Rattle.std.specs.List.{AllByRecursion, filter, list_any};
ghost use Rattle.std.specs.Int.{bit_at};
ghost use Rattle.std.specs.Ordering.{nat_cmp};
ghost use Rattle.std.specs.Cmp.Lexicographic.{slice_cmp};
ghost use Rattle.std.specs.Iterator.{YieldsFirst, item_count};
ghost use Rattle.std.specs.Iterator.Runs.{YieldsInOrder};
ghost use Rattle.ltl_spec.specs.Collections.Sets as sets;
ghost use Rattle.ltl_sets.specs.Words.{words_with};

use crate::lanes;
use std::alloc::AllocError;
use std::cmp::Ordering;
use std::fmt;
use std::hash::{Hash, Hasher};
use std::marker::Model;
use std::simd::prelude::*;
use std::simd::u64x4;

/// A set of numbers below [`RowSet::LIMIT`], as a bit set. Contracts see it as the sorted list of its members.
pub struct RowSet {
    pub(crate) lanes: u64x4,
}

/// A letter of a word, or the propositions of a cube: a set of numbers of propositions. Its limit is the limit of propositions; the other sets have the limit
/// of rows.
pub type PropositionSet = RowSet;

impl Model for RowSet {
    ghost use Rattle.std.specs.Prelude.{ℕ, List};
    ghost use Rattle.std.specs.Coded.{coded_ℕ, coded_list};

    ghost Value = { List ℕ };

    ghost coded = { coded_list coded_ℕ };

    ghost use Rattle.ltl_sets.specs.Words.{IsWords, members, words_with};

    ghost view = { λ a. members a.lanes };

    ghost invariant = { λ a. IsWords a.lanes };

    ghost inverse = { λ is. record { lanes = words_with is } };

    ghost use Rattle.ltl_sets.specs.Inverses.{row_set_again};

    ghost inverse_ok = { row_set_again };
}

impl RowSet {
    /// The bound below which every member is.
    pub const LIMIT: usize = 256;

    /// The number of words of 64 bits, and of bytes.
    pub(crate) const WORDS: usize = RowSet::LIMIT / 64;

    pub(crate) const BYTES: usize = RowSet::LIMIT / 8;

    /// The empty set.
    pub fn empty() -> RowSet
        ensures { result ≡ [] }
    {
        RowSet {
            lanes: u64x4::splat(0),
        }
    }

    /// The set with one member.
    pub fn single(i: usize) -> RowSet
        requires { i < RowSet.LIMIT }
        ensures { result ≡ i ∷ [] }
    {
        RowSet {
            lanes: lanes::single(i),
        }
    }

    /// The set of all numbers below the limit.
    pub fn all() -> RowSet
        ensures { (i : ℕ) → sets.has nat_cmp i result ≡ nat_lt i RowSet.LIMIT }
    {
        RowSet {
            lanes: u64x4::splat(u64::MAX),
        }
    }

    /// The number of members.
    #[inline(always)]
    pub fn count(&self) -> usize
        ensures { result ≡ length self.now }
    {
        let words = self.lanes.to_array();
        (words[0].count_ones()
            + words[1].count_ones()
            + words[2].count_ones()
            + words[3].count_ones()) as usize
    }

    /// Adds a member, which may be there already.
    pub fn insert(&mut self, i: usize)
        requires { i < RowSet.LIMIT }
        ensures { self.new ≡ sets.put nat_cmp i self.old }
    {
        self.lanes = self.lanes | lanes::single(i);
    }

    /// Whether the set has this number, which is below the limit. `holds` takes any number.
    #[inline(always)]
    pub fn contains(&self, i: usize) -> bool
        requires { i < RowSet.LIMIT }
        ensures { result ≡ sets.has nat_cmp i self.now }
    {
        lanes::has(&self.lanes, i)
    }

    /// Whether the set has this number, which may be at or above the limit.
    #[tactic(auto, using(crate::proofs::RowSetLaws::none_high))]
    pub fn holds(&self, i: usize) -> bool
        ensures { result ≡ sets.has nat_cmp i self.now }
    {
        self.invariant();
        i < RowSet::LIMIT && self.contains(i)
    }

    /// The union.
    #[inline(always)]
    pub fn union(&self, other: &RowSet) -> RowSet
        ensures { result ≡ sets.union nat_cmp self.now other.now }
    {
        RowSet {
            lanes: self.lanes | other.lanes,
        }
    }

    /// The intersection.
    #[inline(always)]
    pub fn common(&self, other: &RowSet) -> RowSet
        ensures { result ≡ filter (λ i. sets.has nat_cmp i other.now) self.now }
    {
        RowSet {
            lanes: self.lanes & other.lanes,
        }
    }

    /// The members that are not in the other set.
    #[inline(always)]
    pub fn without(&self, other: &RowSet) -> RowSet
        ensures { result ≡ filter (λ i. not (sets.has nat_cmp i other.now)) self.now }
    {
        RowSet {
            lanes: self.lanes & !other.lanes,
        }
    }

    /// Whether the intersection is not empty.
    #[inline(always)]
    pub fn meets(&self, other: &RowSet) -> bool
        ensures { result ≡ list_any (λ i. sets.has nat_cmp i other.now) self.now }
    {
        !lanes::is_zero(self.lanes & other.lanes)
    }

    /// Whether every member is in the other set.
    #[inline(always)]
    pub fn is_subset(&self, other: &RowSet) -> bool
        ensures { result ≡ sets.is_subset nat_cmp self.now other.now }
    {
        lanes::is_zero(self.lanes & !other.lanes)
    }

    /// Compares the sets as the sorted lists of their members.
    #[inline(always)]
    pub fn cmp_list(&self, other: &RowSet) -> Ordering
        ensures { result ≡ slice_cmp nat_cmp self.now other.now }
    {
        let Some(i) = lanes::lowest(self.lanes ^ other.lanes) else {
            return Ordering::Equal;
        };
        let is_mine = lanes::has(&self.lanes, i);
        let lacking = if is_mine { other.lanes } else { self.lanes };
        lanes::list_order(is_mine, lanes::reaches(lacking, i))
    }

    /// The members in ascending order.
    #[inline(always)]
    pub fn iter(&self) -> Members
        ensures members { result ≡ self.now }
        ensures few { length result ≤ RowSet.LIMIT }
        ensures runs { YieldsInOrder (YieldsFirst {A = ℕ} (λ rest. rest)) (λ rest. rest) }
    {
        Members {
            words: self.lanes.to_array(),
        }
    }

    /// The set as a bit vector: bit j of word k says whether 64 * k + j is a member.
    #[inline(always)]
    #[tactic(auto, using(crate::specs::PlaceLaws::words_again))]
    pub fn words(&self) -> [u64; 4]
        ensures { result ≡ words_with self.now }
    {
        self.lanes.to_array()
    }

    // Byte k: its bit i says whether number 8 * k + i is a member.
    #[inline(always)]
    pub(crate) fn byte(&self, k: usize) -> u8
        requires { k < RowSet.BYTES }
        ensures { (i : ℕ) → i < 8 → nat_eq (bit_at result i) 1 ≡ sets.has nat_cmp (8 * k + i) self.now }
    {
        lanes::byte(&self.lanes, k)
    }

    /// Gives a caller's proof the invariant: the members are sorted and below [`RowSet::LIMIT`]. It does nothing when it runs.
    pub fn invariant(&self)
        ensures rising { sets.IsRising nat_cmp self.now }
        ensures below { AllByRecursion (λ i. i < RowSet.LIMIT) self.now }
        ensures few { length self.now ≤ RowSet.LIMIT }
    {
        let _ = &self.lanes;
    }
}

impl Clone for RowSet {
    ghost use Rattle.std.specs.Prelude.{◌≡◌, ⊤};

    ghost is_clone = { λ s r. r ≡ s };

    ghost is_infallible = { λ _. ⊤ };

    fn clone(&self) -> Result<RowSet, AllocError> {
        Ok(*self)
    }
}

impl Copy for RowSet {}

impl PartialEq for RowSet {
    ghost use Rattle.std.specs.Prelude.{nat_eq};
    ghost use Rattle.std.specs.Cmp.Lexicographic.{pointwise};
    ghost use Rattle.std.proofs.Common.{rules};

    ghost eq = { pointwise nat_eq };

    ghost laws = { Prim.search rules };

    #[inline(always)]
    fn eq(&self, other: &RowSet) -> bool {
        lanes::is_zero(self.lanes ^ other.lanes)
    }
}

impl Eq for RowSet {
    ghost use Rattle.std.proofs.Common.{rules};

    ghost laws = { Prim.search rules };
}

impl Hash for RowSet {
    ghost use Rattle.std.proofs.Common.{ap};
    ghost use Rattle.std.specs.Cmp.Lexicographic.{bytes_decides};
    ghost use Rattle.ltl_sets.specs.Words.{hash_of, words_with};

    ghost hash_input = { λ s. hash_of (words_with s) };

    ghost respects_eq = { λ s t e. ap (λ is. hash_of (words_with is)) ((bytes_decides s t).0 e) };

    #[inline(always)]
    fn hash<H: Hasher>(&self, state: &mut H) {
        lanes::hash(&self.lanes, state);
    }
}

impl fmt::Debug for RowSet {
    fn fmt<W: fmt::Write>(&self, f: &mut fmt::Formatter<W>) -> fmt::Result {
        f.debug_set().entries(self.iter()).finish()
    }
}

/// An iterator over the members of a set. Contracts see it as the list of those still to come.
#[derive(Clone, Debug, Drop)]
pub struct Members {
    words: [u64; RowSet::WORDS],
}

impl Model for Members {
    ghost use Rattle.std.specs.Prelude.{ℕ, List};
    ghost use Rattle.std.specs.Coded.{coded_ℕ, coded_list};
    ghost use Rattle.ltl_sets.specs.Words.{IsWords, members};

    ghost Value = { List ℕ };

    ghost coded = { coded_list coded_ℕ };

    ghost view = { λ a. members a.words };

    ghost invariant = { λ a. IsWords a.words };
}

impl Iterator for Members {
    type Item = usize;

    ghost next_gives = { YieldsFirst (λ rest. rest) };

    ghost remaining = { item_count (λ rest. rest) };

    #[inline(always)]
    fn next(&mut self) -> Option<usize> {
        lanes::take_lowest(&mut self.words)
    }
}
