//! Explicit automata whose states share edge lists.

ghost use Rattle.std.specs.Prelude.{◌≡◌, ◌<◌, [], length, map, slice_get, All, Some, IfOk, OnOk};
ghost use Rattle.ltl_spec.specs.Automata.Automaton.{edge_cmp, state_at};
ghost use Rattle.ltl_spec.specs.Collections.Sets.{set_of};
ghost use Rattle.ltl_automaton.specs.LabelTables.{HasRanks, ranked_edge};
ghost use Rattle.ltl_automaton.specs.Net.{edges_to};
ghost use Rattle.ltl_automaton.specs.SharedView.{automaton_of, with_state, IsShared};

use crate::coded_edge::CodedEdge;
use crate::edge::EdgeType;
use crate::edge_list::{EdgeList, relabel};
use crate::ranks::Ranks;
use crate::sorting::sort_dedup;
use crate::step::Step;
use crate::worklist::Key;
use std::alloc::{AllocError, Allocator};
use std::marker::Model;

/// The edge lists, by number.
type Lists<'a, E, A> = Vec<EdgeList<'a, E, A>, &'a A>;

/// A state: the number of its edge list, and whether it is accepting.
#[derive(Clone, Copy, Debug, PartialEq, Eq, Hash)]
pub struct SharedState {
    pub list: usize,
    pub accepting: bool,
}

/// An automaton to which states are appended one at a time. States that are appended like another share its edge list. State 0 is the initial one once
/// the automaton is complete; the type doesn't require that targets exist.
#[derive(Drop)]
pub struct SharedStates<'a, E: EdgeType, A: Allocator> {
    alloc: &'a A,
    sets: usize,
    lists: Lists<'a, E, A>,
    states: Vec<SharedState, &'a A>,
}

impl<'a, E: EdgeType, A: Allocator> Model for SharedStates<'a, E, A> {
    ghost use Rattle.ltl_automaton.specs.SharedView.{Shared, IsShared};

    ghost Value = { Shared };

    ghost view = { λ s. record { sets = s.sets; lists = s.lists.items; states = s.states.items } };

    ghost invariant = { λ s. IsShared s.lists.items s.states.items };
}

/// The edges of `steps` to the states with the numbers `targets`.
fn edges_of<'a, K: Key, E: EdgeType, T: Step<K, E>, A: Allocator>(
    alloc: &'a A,
    steps: &[T],
    targets: &[usize],
) -> Result<Vec<E, &'a A>, AllocError>
    requires { length steps.now ≡ length targets.now }
    ensures { IfOk result (λ es. map E.edge_of es.items ≡ edges_to (map T.move_of steps.now) targets.now) }
{
    let mut edges = Vec::with_capacity(alloc, steps.len())?;
    for i in 0..steps.len() {
        edges.push(steps[i].edge_to(targets[i]))?;
    }
    Ok(edges)
}

/// Sorts the edges, and removes duplicates.
fn sort<E: EdgeType, A: Allocator>(edges: &mut Vec<E, &A>)
    ensures { map E.edge_of edges.new.items ≡ set_of edge_cmp (map E.edge_of edges.old.items) }
{
    sort_dedup(edges);
}

impl<'a, E: EdgeType, A: Allocator> SharedStates<'a, E, A> {
    /// An automaton without states, with this number of acceptance sets.
    pub fn new(alloc: &'a A, sets: usize) -> Self
        ensures { result ≡ record { sets = sets; lists = []; states = [] } }
    {
        SharedStates {
            alloc,
            sets,
            lists: Vec::new(alloc),
            states: Vec::new(alloc),
        }
    }

    /// The number of states.
    pub fn len(&self) -> usize
        ensures { result ≡ length (automaton_of self.now).states }
    {
        self.states.len()
    }

    /// The number of acceptance sets.
    pub fn sets(&self) -> usize
        ensures { result ≡ (automaton_of self.now).sets }
    {
        self.sets
    }

    /// The number of edge lists.
    pub fn list_count(&self) -> usize
        ensures { result ≡ length self.now.lists }
    {
        self.lists.len()
    }

    /// The edge list with this number.
    pub fn list_edges(&self, list: usize) -> &[E]
        requires { list < length self.now.lists }
        ensures { slice_get self.now.lists list ≡ Some (map E.edge_of result.now) }
    {
        self.lists[list].as_slice()
    }

    /// Whether a state is accepting.
    pub fn accepting(&self, i: usize) -> bool
        requires { i < length (automaton_of self.now).states }
        ensures { result ≡ (state_at (automaton_of self.now) i).accepting }
    {
        self.states[i].accepting
    }

    /// A state as it is stored.
    pub fn state(&self, i: usize) -> SharedState
        requires { i < length (automaton_of self.now).states }
        ensures state { slice_get self.now.states i ≡ Some result }
        ensures within { result.list < length self.now.lists }
    {
        self.states[i]
    }

    /// The number of a state's edge list. Two states with the same number have the same edges.
    pub fn list(&self, i: usize) -> usize
        requires { i < length (automaton_of self.now).states }
        ensures within { result < length self.now.lists }
        ensures edges { slice_get self.now.lists result ≡ Some (state_at (automaton_of self.now) i).edges }
    {
        self.states[i].list
    }

    /// The edges of a state.
    pub fn edges(&self, i: usize) -> &[E]
        requires { i < length (automaton_of self.now).states }
        ensures { map E.edge_of result.now ≡ (state_at (automaton_of self.now) i).edges }
    {
        self.list_edges(self.list(i))
    }

    /// Gives a caller's proof the invariant: each state has a list, and each list is that of a state. It does nothing when it runs.
    pub fn invariant(&self)
        ensures { IsShared self.now.lists self.now.states }
    {
        let _ = &self.states;
    }

    /// Appends a state with these edges, in their order, as a list of its own.
    pub fn push(&mut self, accepting: bool, edges: Vec<E, &'a A>) -> Result<(), AllocError>
        ensures ok { OnOk result (automaton_of self.new ≡ with_state (automaton_of self.old) accepting (map E.edge_of edges.entry.items)) }
    {
        self.states.reserve(1)?;
        let list = self.lists.len();
        self.lists.push(EdgeList::new(edges))?;
        self.states.push(SharedState { list, accepting })?;
        Ok(())
    }

    /// Appends a state with the edges of `steps` to the states with the numbers `targets`, sorted and without duplicates.
    pub(crate) fn push_steps<K: Key, T: Step<K, E>>(
        &mut self,
        accepting: bool,
        steps: &[T],
        targets: &[usize],
    ) -> Result<(), AllocError>
        requires { length steps.now ≡ length targets.now }
        ensures ok { OnOk result (automaton_of self.new ≡ with_state (automaton_of self.old) accepting
            (set_of edge_cmp (edges_to (map T.move_of steps.now) targets.now))) }
    {
        let mut edges = edges_of(self.alloc, steps, targets)?;
        sort(&mut edges);
        self.push(accepting, edges)
    }

    /// Appends a state that shares the edge list of state `i`.
    pub fn push_like(&mut self, accepting: bool, i: usize) -> Result<(), AllocError>
        requires { i < length (automaton_of self.old).states }
        ensures ok { OnOk result (automaton_of self.new ≡ with_state (automaton_of self.old) accepting (state_at (automaton_of self.old) i).edges) }
    {
        let list = self.list(i);
        self.states.push(SharedState { list, accepting })?;
        Ok(())
    }
}

impl<'a, A: Allocator> SharedStates<'a, CodedEdge, A> {
    /// Replaces the numbers of the labels of all edges by the places of these labels in the table. Each list is renumbered once.
    pub(crate) fn relabel(&mut self, ranks: &Ranks<'_, A>)
        requires { All (All (HasRanks ranks.now)) self.old.lists }
        ensures { self.new ≡ record { sets = self.old.sets; lists = map (map (ranked_edge ranks.now)) self.old.lists; states = self.old.states } }
    {
        relabel(self.lists.as_mut_slice(), ranks);
    }
}
