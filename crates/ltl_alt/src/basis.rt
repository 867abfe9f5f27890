//! What every set of rows of one exploration shares.

use crate::conjunct_table::ConjunctTable;
use crate::rule::Pruning;
use crate::transition::Transition;
use ltl_formula::Table;
use std::alloc::Allocator;

/// A table of rows, the conjuncts of its elementary rows, and the pruning rule with the tests of until rows. It is made before the first set of rows, and
/// doesn't change.
#[derive(Drop)]
pub(crate) struct Basis<'b, 't, 's, 'a, A: Allocator> {
    pub(crate) alloc: &'a A,
    pub(crate) table: &'t Table<'s, A>,
    pub(crate) pruning: Pruning<'b, 'a, A>,
    pub(crate) conjuncts: ConjunctTable<'a, A>,
    pub(crate) keep_implied: bool,
    /// The only transition of the empty set of rows.
    pub(crate) neutral: Vec<Transition, &'a A>,
}
