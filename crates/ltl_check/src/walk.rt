//! The result of a search.

use ltl_sets::PropositionSet;
use std::alloc::Allocator;

/// One step of a path: the number of the state that it leaves, the number of the candidate edge, and the edge's letter.
#[derive(Clone, Copy, Debug)]
pub struct Taken {
    pub state: usize,
    pub pick: usize,
    pub letter: PropositionSet,
}

/// A lasso in a graph: a path from the start, and a cycle from its end.
#[derive(Drop)]
pub struct Walk<'a, A: Allocator> {
    pub stem: Vec<Taken, &'a A>,
    pub cycle: Vec<Taken, &'a A>,
}
