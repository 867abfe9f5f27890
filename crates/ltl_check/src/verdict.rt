//! The verdict of a check.

ghost use Rattle.std.specs.Prelude.{◌≡◌};

use ltl_word::Lasso;
use std::alloc::Allocator;

/// Whether there is a word that both automata accept.
#[derive(Drop)]
pub enum Outcome<'a, A: Allocator> {
    /// There is no common word.
    Contained,
    /// A common word, in least form.
    Violated(Lasso<'a, A>),
}

/// The outcome of a check, and the work that it took.
#[derive(Drop)]
pub struct Verdict<'a, A: Allocator> {
    pub(crate) outcome: Outcome<'a, A>,
    pub(crate) steps: u128,
    pub(crate) found: usize,
    pub(crate) shortening: u128,
    pub(crate) shrinking: u128,
}

impl<'a, A: Allocator> Verdict<'a, A> {
    /// Whether there is a common word, and which one.
    pub fn outcome(&self) -> &Outcome<'a, A>
        ensures { result.now ≡ self.now.outcome }
    {
        &self.outcome
    }

    /// The same by value.
    pub fn into_outcome(self) -> Outcome<'a, A>
        ensures { result ≡ self.entry.outcome }
    {
        self.outcome
    }

    /// The number of looks at pairs of edges; a pair is counted on each level again. It stays at its greatest value.
    pub fn steps(&self) -> u128
        ensures { result ≡ self.now.steps }
    {
        self.steps
    }

    /// The number of edges of the path and the cycle that the search found; 0 without a word. The word has no more letters.
    pub fn found(&self) -> usize
        ensures { result ≡ self.now.found }
    {
        self.found
    }

    /// The number of looks at pairs of edges in the search for a shorter word; 0 without a word. It is at most
    /// [`SHORTENING_LIMIT`](crate::SHORTENING_LIMIT) and [`ONE_BASE_LIMIT`](crate::ONE_BASE_LIMIT) together. If it is less than the first of them, no
    /// common word has fewer letters along a path and a cycle of the product.
    pub fn shortening(&self) -> u128
        ensures { result ≡ self.now.shortening }
    {
        self.shortening
    }

    /// The number of looks at edges of products of an automaton and a word while letters and names were left out; 0 without a word, and at most
    /// [`SHRINKING_LIMIT`](crate::SHRINKING_LIMIT).
    pub fn shrinking(&self) -> u128
        ensures { result ≡ self.now.shrinking }
    {
        self.shrinking
    }
}
