//! What every list of pairs of a step is made from.

use crate::program::Program;
use crate::rule::Pruning;
use ltl_formula::Table;
use std::alloc::Allocator;

/// A table of rows, the steps of its rows, and the rule by which their pairs are pruned.
#[derive(Drop)]
pub(crate) struct Context<'b, 't, 's, 'a, A: Allocator> {
    pub(crate) alloc: &'a A,
    pub(crate) table: &'t Table<'s, A>,
    pub(crate) program: &'b Program<'a, A>,
    pub(crate) pruning: Pruning<'b, 'a, A>,
}
