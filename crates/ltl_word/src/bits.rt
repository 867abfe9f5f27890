//! Bit vectors with one bit for each position of a word.

ghost use Rattle.std.specs.Prelude.{◌≡◌, ◌≢◌, ℕ, ◌<◌, ◌/◌, ◌+◌, [], not, length, IfOk, slice_index, slice_set};
ghost use Rattle.ltl_word.specs.Rows.{bit_of, is_set, joined};

use crate::machine_word::{Junction, inverted, shifted, with_bit};
use smallvec::SmallVec;
use std::alloc::{AllocError, Allocator};
use std::marker::Model;

/// A bit vector, which contracts see as the list of its words of 64 bits. Two words, or 128 bits, are stored without an allocation.
#[derive(Drop)]
pub struct Bits<'a, A: Allocator> {
    words: SmallVec<u64, 2, &'a A>,
}

impl<'a, A: Allocator> Model for Bits<'a, A> {
    ghost use Rattle.std.specs.Prelude.{ℕ, List};

    ghost Value = { List ℕ };

    ghost view = { λ b. b.words.items };
}

impl<'a, A: Allocator> Bits<'a, A> {
    /// A vector without bits.
    pub(crate) fn none(alloc: &'a A) -> Bits<'a, A>
        ensures { result ≡ [] }
    {
        Bits {
            words: SmallVec::new(alloc),
        }
    }

    /// A vector of more than `count` bits, which all have this value.
    pub(crate) fn all(alloc: &'a A, count: usize, value: bool) -> Result<Bits<'a, A>, AllocError>
        ensures long { IfOk result (λ bits. length bits ≡ count / 64 + 1) }
        ensures same { IfOk result (λ bits. (i : ℕ) → i / 64 < length bits → bit_of bits i ≡ value) }
    {
        let word = if value { u64::MAX } else { 0 };
        let mut words = SmallVec::with_capacity(alloc, count / 64 + 1)?;
        for _ in 0..count / 64 + 1 {
            words.push(word)?;
        }
        Ok(Bits { words })
    }

    /// Bit `i`, which is the value at position `i`.
    pub fn get(&self, i: usize) -> bool
        requires { i / 64 < length self.now }
        ensures { result ≡ bit_of self.now i }
    {
        (self.words[i / 64] >> (i % 64)) & 1 == 1
    }

    /// The 64 bits from bit `64 * k` on.
    pub(crate) fn word(&self, k: usize) -> u64
        requires { k < length self.now }
        ensures { result ≡ slice_index self.now k }
    {
        self.words[k]
    }

    /// Sets the 64 bits from bit `64 * k` on.
    pub(crate) fn set_word(&mut self, k: usize, word: u64)
        requires { k < length self.old }
        ensures { self.new ≡ slice_set self.old k word }
    {
        self.words[k] = word;
    }

    /// Sets one bit.
    pub(crate) fn put(&mut self, i: usize, value: bool)
        requires { i / 64 < length self.old }
        ensures long { length self.new ≡ length self.old }
        ensures here { bit_of self.new i ≡ value }
        ensures others { (j : ℕ) → j / 64 < length self.old → j ≢ i → bit_of self.new j ≡ bit_of self.old j }
    {
        let k = i / 64;
        self.set_word(k, with_bit(self.word(k), i % 64, value));
    }

    /// The complement.
    pub(crate) fn inverted(&self, alloc: &'a A) -> Result<Bits<'a, A>, AllocError>
        ensures long { IfOk result (λ bits. length bits ≡ length self.now) }
        ensures bits { IfOk result (λ bits. (i : ℕ) → i / 64 < length self.now → bit_of bits i ≡ not (bit_of self.now i)) }
    {
        let mut words = SmallVec::with_capacity(alloc, self.words.len())?;
        for k in 0..self.words.len() {
            words.push(inverted(self.words[k]))?;
        }
        Ok(Bits { words })
    }

    /// The bits shifted by one position: bit `i` of the result is bit `i + 1`.
    pub(crate) fn shifted(&self, alloc: &'a A) -> Result<Bits<'a, A>, AllocError>
        ensures long { IfOk result (λ bits. length bits ≡ length self.now) }
        ensures bits { IfOk result (λ bits. (i : ℕ) → (i + 1) / 64 < length self.now → bit_of bits i ≡ bit_of self.now (i + 1)) }
    {
        let mut words = SmallVec::with_capacity(alloc, self.words.len())?;
        for k in 0..self.words.len() {
            let last = k + 1 < self.words.len() && self.words[k + 1] & 1 == 1;
            words.push(shifted(self.words[k], last))?;
        }
        Ok(Bits { words })
    }

    /// The two vectors combined bit by bit. They have the same length.
    pub(crate) fn with(
        &self,
        alloc: &'a A,
        junction: Junction,
        right: &Bits<'a, A>,
    ) -> Result<Bits<'a, A>, AllocError>
        requires { length right.now ≡ length self.now }
        ensures long { IfOk result (λ bits. length bits ≡ length self.now) }
        ensures bits { IfOk result (λ bits. (i : ℕ) → i / 64 < length self.now → bit_of bits i ≡ joined junction (bit_of self.now i) (bit_of right.now i)) }
    {
        let mut words = SmallVec::with_capacity(alloc, self.words.len())?;
        for k in 0..self.words.len() {
            words.push(junction.word(self.words[k], right.words[k]))?;
        }
        Ok(Bits { words })
    }
}
