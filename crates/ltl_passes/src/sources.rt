//! The predecessors of states.

ghost use Rattle.std.specs.Prelude.{◌≡◌, ◌<◌, length, vec_len, All, IfOk, OnOk};
ghost use Rattle.ltl_automaton.specs.SharedView.{automaton_of};
ghost use Rattle.ltl_passes.specs.Partition.{IsWithinStates};

use crate::queue::Queue;
use ltl_automaton::{CodedEdge, SharedStates};
use std::alloc::{AllocError, Allocator};

/// The source of an edge, and the place of another one with the same target.
#[derive(Clone, Copy)]
struct Source {
    state: usize,
    next: usize,
}

/// A place where no source is.
const NOWHERE: usize = usize::MAX;

/// For each state the sources of its edges, as a linked list.
#[derive(Drop)]
pub(crate) struct Sources<'a, A: Allocator> {
    pub(crate) firsts: Vec<usize, &'a A>,
    sources: Vec<Source, &'a A>,
    ghost inside: { All (λ e. e.state < vec_len firsts) sources.items },
}

impl<'a, A: Allocator> Sources<'a, A> {
    /// No sources of this many states.
    fn new(alloc: &'a A, count: usize) -> Result<Self, AllocError>
        ensures { IfOk result (λ w. vec_len w.firsts ≡ count) }
    {
        let mut firsts = Vec::new(alloc);
        firsts.resize(count, NOWHERE)?;
        Ok(Sources {
            firsts,
            sources: Vec::new(alloc),
        })
    }

    /// The sources among the states that are their own names.
    pub(crate) fn of(
        alloc: &'a A,
        states: &SharedStates<'_, CodedEdge, A>,
        names: &[usize],
    ) -> Result<Self, AllocError>
        requires within { IsWithinStates (automaton_of states.now).states }
        requires long { length names.now ≡ length (automaton_of states.now).states }
        ensures { IfOk result (λ w. vec_len w.firsts ≡ length (automaton_of states.now).states) }
    {
        let mut made = Sources::new(alloc, states.len())?;
        for state in 0..names.len() {
            if names[state] == state {
                made.add_all(state, states.edges(state))?;
            }
        }
        Ok(made)
    }

    /// Adds the source of these edges.
    fn add_all(&mut self, state: usize, edges: &[CodedEdge]) -> Result<(), AllocError>
        requires state { state < vec_len self.old.firsts }
        requires within { All (λ e. e.target < vec_len self.old.firsts) edges.now }
        ensures { OnOk result (vec_len self.new.firsts ≡ vec_len self.old.firsts) }
    {
        for edge in edges {
            self.add(state, edge.target)?;
        }
        Ok(())
    }

    /// Adds the source of an edge, unless it was the last one that was added for the target.
    fn add(&mut self, state: usize, target: usize) -> Result<(), AllocError>
        requires state { state < vec_len self.old.firsts }
        requires target { target < vec_len self.old.firsts }
        ensures { OnOk result (vec_len self.new.firsts ≡ vec_len self.old.firsts) }
    {
        let next = self.firsts[target];
        let place = self.sources.len();
        if next < place && self.sources[next].state == state {
            return Ok(());
        }
        self.sources.push(Source { state, next })?;
        self.firsts[target] = place;
        Ok(())
    }

    /// Queues the sources of the edges to a state.
    pub(crate) fn queue_to(&self, target: usize, queue: &mut Queue<'a, A>) -> Result<(), AllocError>
        requires target { target < vec_len self.now.firsts }
        requires wide { vec_len queue.old.waiting ≡ vec_len self.now.firsts }
        ensures { OnOk result (vec_len queue.new.waiting ≡ vec_len queue.old.waiting) }
    {
        let mut place = self.firsts[target];
        'sources: for _ in 0..self.sources.len() {
            if place >= self.sources.len() {
                return Ok(());
            }
            let source = self.sources[place];
            queue.push(source.state)?;
            place = source.next;
        }
        Ok(())
    }
}
