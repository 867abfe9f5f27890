//! Merging by a worklist: a state is visited again only if the class of one of its targets has another name.

ghost use Rattle.std.specs.Prelude.{◌≡◌, ◌<◌, true, length, vec_len, All, IfOk, OnOk};
ghost use Rattle.ltl_automaton.specs.SharedView.{automaton_of};
ghost use Rattle.ltl_passes.specs.Partition.{IsWithinStates};
ghost use Rattle.ltl_passes.specs.Worklist.{AreFiner, IsCoarser, IsMerger, IsOwner, LeadsInside};

use crate::classes::Classes;
use crate::owners::Owners;
use crate::partition::least_places;
use crate::queue::Queue;
use crate::retargeting::retargeted;
use crate::sources::Sources;
use ltl_automaton::{CodedEdge, SharedStates};
use std::alloc::{AllocError, Allocator};

/// A partition, and the owners of the lists of accepting states and of others.
#[derive(Drop)]
pub(crate) struct Merger<'a, A: Allocator> {
    pub(crate) classes: Classes<'a, A>,
    pub(crate) accepting: Owners<'a, A>,
    pub(crate) others: Owners<'a, A>,
}

impl<'a, A: Allocator> Merger<'a, A> {
    /// The first state that had the same signature as this one.
    fn owner(
        &mut self,
        alloc: &'a A,
        states: &SharedStates<'_, CodedEdge, A>,
        state: usize,
    ) -> Result<usize, AllocError>
        requires within { IsWithinStates (automaton_of states.now).states }
        requires merger { IsMerger (automaton_of states.now) self.old }
        requires state { state < length (automaton_of states.now).states }
        ensures { IfOk result (λ t. IsOwner (automaton_of states.now) state self.new t) }
    {
        let edges = retargeted(alloc, states.edges(state), self.classes.names.as_slice())?;
        if states.accepting(state) {
            let owner = self.accepting.owner(edges, state)?;
            return Ok(owner);
        }
        let owner = self.others.owner(edges, state)?;
        Ok(owner)
    }

    /// Merges a state with the first one that had the same signature. Returns the states that have another name now.
    fn look(
        &mut self,
        alloc: &'a A,
        states: &SharedStates<'_, CodedEdge, A>,
        state: usize,
    ) -> Result<Vec<usize, &'a A>, AllocError>
        requires within { IsWithinStates (automaton_of states.now).states }
        requires merger { IsMerger (automaton_of states.now) self.old }
        requires state { state < length (automaton_of states.now).states }
        ensures merger { OnOk result (IsMerger (automaton_of states.now) self.new) }
        ensures renamed { IfOk result (λ v. All (λ s. s < length (automaton_of states.now).states) v.items) }
    {
        let owner = self.owner(alloc, states, state)?;
        let renamed = self.classes.merge(alloc, owner, state)?;
        Ok(renamed)
    }
}

/// Queues the states that are their own names.
fn queued<'a, A: Allocator>(alloc: &'a A, names: &[usize]) -> Result<Queue<'a, A>, AllocError>
    ensures { IfOk result (λ q. vec_len q.waiting ≡ length names.now) }
{
    let mut queue = Queue::new(alloc, names.len())?;
    for state in 0..names.len() {
        if names[state] == state {
            queue.push(state)?;
        }
    }
    Ok(queue)
}

/// Queues the sources of the edges to these states.
fn queue_sources<'a, A: Allocator>(
    sources: &Sources<'a, A>,
    renamed: &[usize],
    queue: &mut Queue<'a, A>,
) -> Result<(), AllocError>
    requires renamed { All (λ s. s < vec_len sources.now.firsts) renamed.now }
    requires wide { vec_len queue.old.waiting ≡ vec_len sources.now.firsts }
    ensures { OnOk result (vec_len queue.new.waiting ≡ vec_len queue.old.waiting) }
{
    for state in renamed {
        sources.queue_to(*state, queue)?;
    }
    Ok(())
}

/// Looks at the queued states, and then at the sources of those that get another name, in turn. A list may be kept for each state that is looked at, so these
/// are at most twice as many as there are states.
fn run<'a, A: Allocator>(
    alloc: &'a A,
    states: &SharedStates<'_, CodedEdge, A>,
    sources: &Sources<'a, A>,
    queue: Queue<'a, A>,
    merger: &mut Merger<'a, A>,
) -> Result<(), AllocError>
    requires within { IsWithinStates (automaton_of states.now).states }
    requires sources { vec_len sources.now.firsts ≡ length (automaton_of states.now).states }
    requires queue { vec_len queue.waiting ≡ length (automaton_of states.now).states }
    requires merger { IsMerger (automaton_of states.now) merger.old }
    ensures { OnOk result (IsMerger (automaton_of states.now) merger.new) }
{
    let mut queue = queue;
    'turns: for turn in 0..states.len().saturating_mul(2) {
        let Some(state) = queue.take(turn) else {
            return Ok(());
        };
        let renamed = merger.look(alloc, states, state)?;
        queue_sources(sources, renamed.as_slice(), &mut queue)?;
    }
    Ok(())
}

/// Whether each class of the first partition is within a class of the other one.
fn is_coarser(fine: &[usize], coarse: &[usize]) -> bool
    requires long { length coarse.now ≡ length fine.now }
    requires inside { LeadsInside (length fine.now) fine.now }
    ensures { result ≡ true → IsCoarser fine.now coarse.now }
{
    for state in 0..fine.len() {
        if coarse[fine[state]] != coarse[state] {
            return false;
        }
    }
    true
}

/// The names after the classes of a partition are merged by the worklist.
fn merged<'a, A: Allocator>(
    alloc: &'a A,
    states: &SharedStates<'_, CodedEdge, A>,
    names: &[usize],
) -> Result<Vec<usize, &'a A>, AllocError>
    requires within { IsWithinStates (automaton_of states.now).states }
    requires finer { AreFiner (automaton_of states.now) names.now }
    ensures { IfOk result (λ v. AreFiner (automaton_of states.now) v.items) }
{
    let sources = Sources::of(alloc, states, names)?;
    let queue = queued(alloc, names)?;
    let classes = Classes::of(alloc, names)?;
    let mut merger = Merger {
        classes,
        accepting: Owners::new(alloc),
        others: Owners::new(alloc),
    };
    run(alloc, states, &sources, queue, &mut merger)?;
    least_places(alloc, merger.classes.names.as_slice(), states.len())
}

/// Names of a partition that is as coarse as this one, or coarser, but no coarser than that of the last round. That classes stay whole is tested here, since
/// nothing is proved about the rings of classes.
pub(crate) fn coarsened<'a, A: Allocator>(
    alloc: &'a A,
    states: &SharedStates<'_, CodedEdge, A>,
    names: Vec<usize, &'a A>,
) -> Result<Vec<usize, &'a A>, AllocError>
    requires within { IsWithinStates (automaton_of states.now).states }
    requires finer { AreFiner (automaton_of states.now) names.items }
    ensures finer { IfOk result (λ v. AreFiner (automaton_of states.now) v.items) }
    ensures coarser { IfOk result (λ v. IsCoarser names.entry.items v.items) }
{
    let merged = merged(alloc, states, names.as_slice())?;
    if is_coarser(names.as_slice(), merged.as_slice()) {
        return Ok(merged);
    }
    Ok(names)
}
