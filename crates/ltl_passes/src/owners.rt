//! The first states that had each signature.

ghost use Rattle.std.specs.Prelude.{◌≡◌, ℕ, ◌<◌, List, [], map, IfOk};
ghost use Rattle.ltl_spec.specs.Automata.Automaton as spec;
ghost use Rattle.ltl_automaton.specs.CodedEdges.{coded_edge_of};
ghost use Rattle.ltl_passes.specs.Worklist.{AreOwners};

use crate::partition::{ListInterner, signature};
use ltl_automaton::{CodedEdge, Interner};
use std::alloc::{AllocError, Allocator};

/// Edge lists up to classes, and for each the first state that had it.
#[derive(Drop)]
pub(crate) struct Owners<'a, A: Allocator> {
    pub(crate) seen: ListInterner<'a, A>,
    pub(crate) firsts: Vec<usize, &'a A>,
}

impl<'a, A: Allocator> Owners<'a, A> {
    /// No lists.
    pub(crate) fn new(alloc: &'a A) -> Self
        ensures { result.firsts.items ≡ [] }
    {
        Owners {
            seen: Interner::new(alloc),
            firsts: Vec::new(alloc),
        }
    }

    /// The first state that had these edges up to classes: this one if none had.
    pub(crate) fn owner(
        &mut self,
        edges: Vec<CodedEdge, &'a A>,
        state: usize,
    ) -> Result<usize, AllocError>
        ensures owners { IfOk result (λ t. (count : ℕ) (own : ℕ → spec.State) (view : List spec.Edge → spec.State) → state < count
            → own state ≡ view (map coded_edge_of edges.entry.items) → AreOwners count own view self.old.seen.keys self.old.firsts.items
            → AreOwners count own view self.new.seen.keys self.new.firsts.items × (t < count) × (own t ≡ own state)) }
    {
        let number = signature(&mut self.seen, edges)?;
        if number < self.firsts.len() {
            return Ok(self.firsts[number]);
        }
        if number == self.firsts.len() {
            self.firsts.push(state)?;
        }
        Ok(state)
    }
}
