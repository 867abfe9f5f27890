// Bit sets of `RowSet::LIMIT` bits in words of 64: bit i is bit i % 64 of word i / 64.

ghost use Rattle.std.specs.Prelude.{◌≡◌, ℕ, ◌<◌, cond, nat_eq, ◌+◌, ◌*◌, IfSome, MatchOption, fold, slice_index};
ghost use Rattle.std.specs.Int.{bit_at};
ghost use Rattle.std.specs.Bool.{Decides, beq};
ghost use Rattle.std.specs.declared.cmp.Ordering.TheVariants.{Less, Greater};
ghost use Rattle.ltl_sets.specs.Words.{AreZerosBelow, IsWords, bit_in, HasNone, Reaches, HasLater, FindsLowest, IsLowest, LosesBit, word_alone, hash_of, mixed};

use crate::row_set::RowSet;
use std::cmp::Ordering;
use std::hash::{Hash, Hasher};
use std::simd::prelude::*;
use std::simd::u64x4;

// Whether bit i is set.
#[inline(always)]
pub(crate) fn has(lanes: &u64x4, i: usize) -> bool
    requires { i < RowSet.LIMIT }
    ensures { result ≡ bit_in lanes.now i }
{
    (lanes.to_array()[i / 64] >> (i % 64)) & 1 == 1
}

// Byte k: its bit i is bit 8 * k + i.
#[inline(always)]
pub(crate) fn byte(lanes: &u64x4, k: usize) -> u8
    requires { k < RowSet.BYTES }
    ensures { (i : ℕ) → i < 8 → nat_eq (bit_at result i) 1 ≡ bit_in lanes.now (8 * k + i) }
{
    ((lanes.as_array()[k / 8] >> (8 * (k % 8))) & 255) as u8
}

// Word k of the set that has bit i alone.
fn word_alone(i: usize, k: usize) -> u64
    requires { i < RowSet.LIMIT }
    ensures { result ≡ word_alone i k }
{
    if i / 64 == k { 1 << (i % 64) } else { 0 }
}

// The set that has bit i alone.
pub(crate) fn single(i: usize) -> u64x4
    requires { i < RowSet.LIMIT }
    ensures words { IsWords result }
    ensures alone { (j : ℕ) → j < RowSet.LIMIT → bit_in result j ≡ nat_eq j i }
{
    u64x4::from_array([
        word_alone(i, 0),
        word_alone(i, 1),
        word_alone(i, 2),
        word_alone(i, 3),
    ])
}

// Whether no bit is set.
#[inline(always)]
pub(crate) fn is_zero(lanes: u64x4) -> bool
    requires { IsWords lanes }
    ensures { Decides result (HasNone lanes) }
{
    lanes.reduce_or() == 0
}

// Whether bit i or a higher bit is set.
#[inline(always)]
pub(crate) fn reaches(lanes: u64x4, i: usize) -> bool
    requires words { IsWords lanes }
    requires below { i < RowSet.LIMIT }
    ensures { Decides result (Reaches lanes i) }
{
    let words = lanes.to_array();
    let at = i / 64;
    (words[at] >> (i % 64) != 0) | has_later(&words, at)
}

// Whether a word after this one isn't zero.
#[inline(always)]
fn has_later(words: &[u64; RowSet::WORDS], at: usize) -> bool
    ensures { Decides result (HasLater words.now at) }
{
    ((at < 1) & (words[1] != 0)) | ((at < 2) & (words[2] != 0)) | ((at < 3) & (words[3] != 0))
}

// Clears the lowest bit that is set, and returns its number. The word at this index is the first one that isn't zero.
#[inline(always)]
fn take_from(words: &mut [u64; RowSet::WORDS], at: usize) -> usize
    requires inside { at < RowSet.WORDS }
    requires some { 0 < slice_index words.old at }
    requires zeros { AreZerosBelow words.old at }
    ensures words { IsWords words.new }
    ensures lowest { IsLowest words.old result }
    ensures rest { LosesBit words.old result words.new }
{
    let word = words[at];
    let place = word.trailing_zeros();
    words[at] = word & !(1 << place);
    64 * at + place as usize
}

// Clears the lowest bit that is set, and returns its number. All indices are constants, so that the words can stay in registers.
#[inline(always)]
pub(crate) fn take_lowest(words: &mut [u64; RowSet::WORDS]) -> Option<usize>
    ensures words { IsWords words.new }
    ensures found { FindsLowest words.old result }
    ensures rest { MatchOption result (words.new ≡ words.old) (λ i. LosesBit words.old i words.new) }
{
    if words[0] != 0 {
        return Some(take_from(words, 0));
    }
    if words[1] != 0 {
        return Some(take_from(words, 1));
    }
    if words[2] != 0 {
        return Some(take_from(words, 2));
    }
    if words[3] != 0 {
        return Some(take_from(words, 3));
    }
    None
}

// The lowest bit that is set.
#[inline(always)]
pub(crate) fn lowest(lanes: u64x4) -> Option<usize>
    requires { IsWords lanes }
    ensures { FindsLowest lanes result }
{
    take_lowest(&mut lanes.to_array())
}

// The lowest bit that is set, if it is in the first word. This is the usual case, and needs no search for a word.
#[inline(always)]
pub(crate) fn lowest_of_first(lanes: u64x4) -> Option<usize>
    requires { IsWords lanes }
    ensures { IfSome result (IsLowest lanes) }
{
    let word = lanes.to_array()[0];
    if word == 0 {
        return None;
    }
    Some(word.trailing_zeros() as usize)
}

// The order of two sorted lists that differ. The first difference is a member of one of them: of the first list if `is_first` is true. `goes_on` says
// that the other list has a greater member.
#[inline(always)]
pub(crate) fn list_order(is_first: bool, goes_on: bool) -> Ordering
    ensures { result ≡ cond (beq is_first goes_on) Less Greater }
{
    if is_first == goes_on {
        Ordering::Less
    } else {
        Ordering::Greater
    }
}

// The four words mixed into one, as the input of a hash. Different sets rarely give the same number.
#[inline(always)]
fn mixed(words: &[u64; RowSet::WORDS]) -> u64
    ensures { result ≡ mixed words.now }
{
    let low = words[0]
        .wrapping_mul(0x9e37_79b9_7f4a_7c15)
        .wrapping_add(words[1].wrapping_mul(0xc2b2_ae3d_27d4_eb4f));
    let high = words[2]
        .wrapping_mul(0x1656_67b1_9e37_79f9)
        .wrapping_add(words[3].wrapping_mul(0x85eb_ca77_c2b2_ae63));
    low.wrapping_add(high)
}

// Feeds the four words to a hasher, as one number.
#[inline(always)]
pub(crate) fn hash<H: Hasher>(lanes: &u64x4, state: &mut H)
    ensures { state.new ≡ fold H.write state.old (hash_of lanes.now) }
{
    mixed(&lanes.to_array()).hash(state);
}
