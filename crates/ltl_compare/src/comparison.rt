//! The result of a comparison.

use ltl_word::Lasso;
use std::alloc::Allocator;

/// Words that tell two formulas apart, each in least form. The formulas are equivalent if there is none.
#[derive(Drop)]
pub struct Comparison<'a, A: Allocator> {
    /// A word that satisfies the first formula and violates the second one. There is none if and only if the first formula implies the second one.
    pub first_only: Option<Lasso<'a, A>>,
    /// A word that satisfies the second formula and violates the first one. There is none if and only if the second formula implies the first one.
    pub second_only: Option<Lasso<'a, A>>,
    /// The number of looks at pairs of edges, of both searches together; a pair is counted on each level again. It stays at its greatest value.
    pub steps: u128,
}
