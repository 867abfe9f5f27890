//! Rows of bits.

use std::alloc::{AllocError, Allocator};

/// Rows of bits of the same length, 64 of them in a word.
#[derive(Drop)]
pub(crate) struct BitTable<'a, A: Allocator> {
    words: Vec<u64, &'a A>,
    /// The number of words of a row.
    pub(crate) width: usize,
}

impl<'a, A: Allocator> BitTable<'a, A> {
    /// So many rows of so many bits each, all of them 0.
    pub(crate) fn zeros(alloc: &'a A, rows: usize, length: usize) -> Result<Self, AllocError> {
        let width = length / 64 + 1;
        let mut words = Vec::new(alloc);
        words.resize(rows.saturating_mul(width), 0u64)?;
        Ok(BitTable { words, width })
    }

    /// The place of a word.
    #[inline(always)]
    fn place(&self, row: usize, k: usize) -> usize {
        row.wrapping_mul(self.width).wrapping_add(k)
    }

    /// The word `k` of a row; 0 if there is none.
    #[inline(always)]
    pub(crate) fn word(&self, row: usize, k: usize) -> u64 {
        let place = self.place(row, k);
        let words = self.words.as_slice();
        if place < words.len() { words[place] } else { 0 }
    }

    /// Replaces the word `k` of a row, if there is one.
    #[inline(always)]
    pub(crate) fn set_word(&mut self, row: usize, k: usize, word: u64) {
        let place = self.place(row, k);
        let words = self.words.as_mut_slice();
        if place < words.len() {
            words[place] = word;
        }
    }

    /// Whether a bit of a row is 1.
    #[inline(always)]
    pub(crate) fn holds(&self, row: usize, i: usize) -> bool {
        (self.word(row, i / 64) >> (i % 64)) & 1 == 1
    }

    /// Makes a bit of a row 1.
    pub(crate) fn insert(&mut self, row: usize, i: usize) {
        let word = self.word(row, i / 64);
        self.set_word(row, i / 64, word | 1u64 << (i % 64));
    }

    /// Makes a bit of a row 0.
    pub(crate) fn remove(&mut self, row: usize, i: usize) {
        let word = self.word(row, i / 64);
        self.set_word(row, i / 64, word & !(1u64 << (i % 64)));
    }

    /// Adds the bits of another row of the same table to a row.
    pub(crate) fn unite(&mut self, row: usize, other: usize) {
        for k in 0..self.width {
            let word = self.word(row, k) | self.word(other, k);
            self.set_word(row, k, word);
        }
    }

    /// Makes all bits of a row 1.
    pub(crate) fn fill(&mut self, row: usize) {
        for k in 0..self.width {
            self.set_word(row, k, u64::MAX);
        }
    }

    /// Leaves those bits of a row that a row of another table has.
    pub(crate) fn restrict(&mut self, row: usize, table: &BitTable<'_, A>, other: usize) {
        for k in 0..self.width {
            let word = self.word(row, k) & table.word(other, k);
            self.set_word(row, k, word);
        }
    }
}
