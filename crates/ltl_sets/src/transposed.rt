//! Lists of sets, read by number: for each number, the indices of the sets that have it.

ghost use Rattle.std.specs.Prelude.{◌≡◌, ℕ, ◌+◌, ◌*◌, ◌<◌, ◌≤◌, length, false, nat_eq, not, slice_index, bit_and};
ghost use Rattle.std.specs.Int.{bit_at};
ghost use Rattle.ltl_sets.specs.Transposed.{AreBytes, AreIndices, AreMet, HaveNone, IsOctet, IsPart};

use crate::row_set::RowSet;
use std::simd::prelude::*;
use std::simd::{u8x64, u64x4};

/// How many numbers [`octet`] reads at once.
pub const OCTET: usize = 8;

// Byte k of each set. There are zeros after the last set.
#[tactic(auto, using(crate::proofs::TransposedLaws::bytes_end))]
#[inline(always)]
fn bytes_of(sets: &[RowSet], k: usize) -> [u8; RowSet::LIMIT]
    requires few { length sets.now ≤ RowSet.LIMIT }
    requires below { k < RowSet.BYTES }
    ensures { AreBytes sets.now k result }
{
    let mut bytes = [0; RowSet::LIMIT];
    'sets: for j in 0..sets.len() {
        bytes[j] = sets[j].byte(k);
    }
    bytes
}

// The bytes from 64 * part on.
#[inline(always)]
fn part_of(bytes: &[u8; RowSet::LIMIT], part: usize) -> u8x64
    requires { part < RowSet.WORDS }
    ensures { IsPart bytes.now part result }
{
    u8x64::from_slice(&bytes[64 * part..])
}

// Bit j says whether byte j has a bit of the mask.
#[inline(always)]
fn meeting(bytes: u8x64, mask: u8) -> u64
    ensures { (j : ℕ) → j < 64 → nat_eq (bit_at result j) 1 ≡ not (nat_eq (bit_and (slice_index bytes j) mask) 0) }
{
    (bytes & u8x64::splat(mask))
        .simd_ne(u8x64::splat(0))
        .to_bitmask()
}

// Bit j is bit i of byte 64 * part + j.
#[inline(always)]
fn word_of(bytes: &[u8; RowSet::LIMIT], i: usize, part: usize) -> u64
    requires place { i < 8 }
    requires inside { part < RowSet.WORDS }
    ensures { (j : ℕ) → j < 64 → nat_eq (bit_at result j) 1 ≡ nat_eq (bit_at (slice_index bytes.now (64 * part + j)) i) 1 }
{
    meeting(part_of(bytes, part), 1 << i)
}

// The indices of the bytes that have bit i.
#[inline(always)]
fn indices_of(bytes: &[u8; RowSet::LIMIT], i: usize) -> RowSet
    requires { i < 8 }
    ensures { AreIndices bytes.now i result }
{
    RowSet {
        lanes: u64x4::from_array([
            word_of(bytes, i, 0),
            word_of(bytes, i, 1),
            word_of(bytes, i, 2),
            word_of(bytes, i, 3),
        ]),
    }
}

// The indices of the bytes that have bit i, which none of them has if it isn't met.
#[inline(always)]
fn indices_if(is_met: bool, bytes: &[u8; RowSet::LIMIT], i: usize) -> RowSet
    requires place { i < 8 }
    requires unmet { is_met ≡ false → HaveNone bytes.now i }
    ensures { AreIndices bytes.now i result }
{
    if is_met {
        indices_of(bytes, i)
    } else {
        RowSet::empty()
    }
}

/// For each of the eight numbers from `8 * k` on, the indices of the sets that have it. No set has a number that isn't in `met`, and its column isn't
/// computed.
pub fn octet(sets: &[RowSet], met: &RowSet, k: usize) -> [RowSet; 8]
    requires few { length sets.now ≤ RowSet.LIMIT }
    requires met { AreMet sets.now met.now }
    requires below { k < RowSet.BYTES }
    ensures { IsOctet sets.now k result }
{
    let mut columns = [RowSet::empty(); 8];
    if met.byte(k) == 0 {
        return columns;
    }
    let bytes = bytes_of(sets, k);
    'numbers: for i in 0..8 {
        columns[i] = indices_if(met.contains(8 * k + i), &bytes, i);
    }
    columns
}
