//! Edges that do for others.

ghost use Rattle.std.specs.Prelude.{◌≡◌, ◌≤◌, ◌<◌, IsTrue, IfSome, length, slice_get, Some};
ghost use Rattle.ltl_automaton.specs.CodedEdges.{edges_in};
ghost use Rattle.ltl_automaton.specs.EdgeView.{edge_of};
ghost use Rattle.ltl_reduce.specs.Matching.{AreMatched, HasMatch, IsMatch, IsMatched};

use crate::frees::Frees;
use crate::relation::Relation;
use ltl_automaton::{Edge, Edges};

/// Whether the edge `other` does for an edge: it asks for no more, leads to a related state, and has the marks, unless the edge is free.
#[inline(always)]
fn matches(edge: &Edge, free: bool, other: &Edge, relation: &Relation<'_>) -> bool
    ensures { IsTrue result → IsMatch relation.now free (edge_of edge.now) (edge_of other.now) }
{
    if relation.relates(edge.target, other.target) {
        if other.cube.implies_of(&edge.cube) {
            return free || edge.marks.is_subset(&other.marks);
        }
    }
    false
}

/// The place of one of `others` that does for an edge. The search begins at the place `first`, and goes round. Each look takes one from the budget, and none is
/// found where that is used up.
#[inline(always)]
fn place_of_match(
    edge: &Edge,
    free: bool,
    others: &Edges<'_>,
    relation: &Relation<'_>,
    first: usize,
    budget: &mut usize,
) -> Option<usize>
    ensures inside { IfSome result (λ k. k < length others.now.coded.now) }
    ensures found { IfSome result (λ _. HasMatch relation.now free (edge_of edge.now) (edges_in others.now)) }
{
    let count = others.len();
    let mut k = first;
    for _look in 0..count {
        if k >= count {
            k = 0;
        }
        if *budget == 0 {
            return None;
        }
        *budget -= 1;
        if matches(edge, free, &others.get(k), relation) {
            return Some(k);
        }
        k += 1;
    }
    None
}

/// What is to be found of two automata: the levels of the first one, the number of its sets, and how its states are related to those of the other one.
#[derive(Clone, Copy)]
pub(crate) struct Matching<'m> {
    pub(crate) frees: Frees<'m>,
    pub(crate) sets: usize,
    pub(crate) relation: Relation<'m>,
}

impl<'m> Matching<'m> {
    /// Whether an edge of the state `s` leads to a dead state, or one of `others` does for it. The search begins at the place `first`, which becomes the one
    /// behind what was found.
    #[inline(always)]
    fn is_matched(
        &self,
        s: usize,
        edge: &Edge,
        others: &Edges<'_>,
        first: &mut usize,
        budget: &mut usize,
    ) -> bool
        ensures { IsTrue result → IsMatched self.now s (edge_of edge.now) (edges_in others.now) }
    {
        if self.frees.is_dead(edge.target) {
            return true;
        }
        let free = self.frees.is_free(self.sets, s, edge.target);
        match place_of_match(edge, free, others, &self.relation, *first, budget) {
            Some(place) => {
                *first = place + 1;
                true
            }
            None => false,
        }
    }

    /// Whether each edge of the state `s` leads to a dead state or has one of `others` that does for it.
    #[tactic(auto, using(crate::proofs::CheckLaws::matched_next))]
    pub(crate) fn are_matched(
        &self,
        s: usize,
        edges: &Edges<'_>,
        others: &Edges<'_>,
        budget: &mut usize,
    ) -> bool
        ensures { IsTrue result → AreMatched self.now s (edges_in edges.now) (edges_in others.now) }
    {
        let mut first = 0;
        for k in 0..edges.len() {
            if !self.is_matched(s, &edges.get(k), others, &mut first, budget) {
                return false;
            }
        }
        true
    }
}
