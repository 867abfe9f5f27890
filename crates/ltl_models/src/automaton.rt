//! State-based Büchi automata.

ghost use Rattle.std.specs.Prelude.{◌≡◌, ◌<◌, ◌≤◌, [], length, map, All, IfOk};
ghost use Rattle.ltl_spec.specs.Automata.Automaton.{state_at};
ghost use Rattle.ltl_spec.specs.Tools.Limits.{stated_limits};
ghost use Rattle.ltl_automaton.specs.CodedEdges.{coded_edge_of, edges_in};
ghost use Rattle.ltl_automaton.specs.LabelTables.{HasLabels, labelled_of};
ghost use Rattle.ltl_models.specs.BaView.{IsBa, IsTargetOrder, HaveOrders};

use crate::order::{Places, key, places};
use ltl_automaton::{CodedEdge, CodedStates, Edges, SharedStates};
use smallvec::SmallVec;
use std::alloc::{AllocError, Allocator};
use std::marker::Model;

/// The positions of the edges, sorted by target and then by position. Target and position are sorted as one number.
fn places_by_target<'a, A: Allocator>(
    alloc: &'a A,
    edges: &[CodedEdge],
) -> Result<Places<'a, A>, AllocError>
    ensures order { IfOk result (λ ps. IsTargetOrder (map coded_edge_of edges.now) ps.items) }
{
    let mut keys: SmallVec<u64, 4, &'a A> = SmallVec::with_capacity(alloc, edges.len())?;
    for (place, edge) in edges.iter().enumerate() {
        keys.push(key(edge.target, place)?)?;
    }
    keys.as_mut_slice().sort_unstable();
    let places = places(alloc, keys.as_slice())?;
    Ok(places)
}

/// `places_by_target` for each edge list.
fn orders<'a, A: Allocator>(
    alloc: &'a A,
    states: &SharedStates<'_, CodedEdge, A>,
) -> Result<Vec<Places<'a, A>, &'a A>, AllocError>
    ensures { IfOk result (λ v. HaveOrders states.now.lists (map (λ p. p.items) v.items)) }
{
    let mut orders = Vec::new(alloc);
    for list in 0..states.list_count() {
        orders.push(places_by_target(alloc, states.list_edges(list))?)?;
    }
    Ok(orders)
}

/// A Büchi automaton with acceptance on states. State 0 is the initial one. It also holds the order of each state's edges by target, which
/// `by_target` returns.
#[derive(Drop)]
pub struct Ba<'a, A: Allocator> {
    states: CodedStates<'a, A>,
    orders: Vec<Places<'a, A>, &'a A>,
}

impl<'a, A: Allocator> Model for Ba<'a, A> {
    ghost use Rattle.std.specs.Prelude.{map};
    ghost use Rattle.ltl_spec.specs.Automata.Automaton.{Automaton};
    ghost use Rattle.ltl_automaton.specs.Codes.{automaton_code};
    ghost use Rattle.ltl_automaton.specs.LabelTables.{labelled_of};
    ghost use Rattle.ltl_models.specs.BaView.{IsOrderedBa};

    ghost Value = { Automaton };

    ghost coded = { automaton_code };

    ghost view = { λ b. labelled_of b.states };

    ghost invariant = { λ b. IsOrderedBa b.states (map (λ p. p.items) b.orders.items) };
}

impl<'a, A: Allocator> Ba<'a, A> {
    /// The automaton with these states. The edges of each list are sorted by target once, for `by_target`.
    pub fn new(alloc: &'a A, states: CodedStates<'a, A>) -> Result<Self, AllocError>
        requires inside { IsBa (labelled_of states) }
        requires labels { HasLabels states }
        ensures { IfOk result (λ b. b ≡ labelled_of states.entry) }
    {
        let orders = orders(alloc, &states.states)?;
        Ok(Ba { states, orders })
    }

    /// The states, and the table of the labels of their edges.
    pub fn states(&self) -> &CodedStates<'a, A>
        ensures automaton { labelled_of result.now ≡ self.now }
        ensures labels { HasLabels result.now }
    {
        &self.states
    }

    /// The number of states, which is at least 1.
    pub fn len(&self) -> usize
        ensures count { result ≡ length self.now.states }
        ensures some { 0 < result }
        ensures few { result ≤ stated_limits.states }
    {
        self.states.len()
    }

    /// Whether a state is accepting.
    pub fn accepting(&self, i: usize) -> bool
        requires { i < length self.now.states }
        ensures { result ≡ (state_at self.now i).accepting }
    {
        self.states.accepting(i)
    }

    /// The edges of a state, with their labels, sorted by label and then by target, without duplicates.
    pub fn edges(&self, i: usize) -> Edges<'_>
        requires { i < length self.now.states }
        ensures edges { edges_in result ≡ (state_at self.now i).edges }
        ensures within { All (λ e. e.target < length self.now.states) result.coded.now }
        ensures plain { All (λ e. e.marks ≡ []) (edges_in result) }
    {
        self.states.edges(i)
    }

    /// The positions in `edges(i)`, sorted by target and then by position. So edges with one target are adjacent.
    pub fn by_target(&self, i: usize) -> &[usize]
        requires { i < length self.now.states }
        ensures order { IsTargetOrder (state_at self.now i).edges result.now }
    {
        let list = self.states.states.list(i);
        self.orders[list].as_slice()
    }

    /// Gives a caller's proof the invariant of the type. It does nothing when it runs.
    pub fn invariant(&self)
        ensures { IsBa self.now }
    {
        let _ = &self.states;
    }
}
