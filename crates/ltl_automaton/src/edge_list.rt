//! Edge lists as values that can be interned.

ghost use Rattle.std.specs.Prelude.{◌≡◌, map, All};
ghost use Rattle.ltl_automaton.specs.LabelTables.{HasRanks, ranked_edge};

use crate::coded_edge::CodedEdge;
use crate::edge::EdgeType;
use crate::ranks::Ranks;
use std::alloc::Allocator;
use std::hash::{Hash, Hasher};
use std::marker::Model;

/// A list of edges that is compared and hashed by its content, in its order.
#[derive(Drop)]
pub struct EdgeList<'a, E: EdgeType, A: Allocator> {
    edges: Vec<E, &'a A>,
}

impl<'a, E: EdgeType, A: Allocator> Model for EdgeList<'a, E, A> {
    ghost use Rattle.std.specs.Prelude.{map, List};
    ghost use Rattle.std.specs.Coded.{coded_list};
    ghost use Rattle.ltl_spec.specs.Automata.Automaton as spec;
    ghost use Rattle.ltl_automaton.specs.Codes.{edge_code};

    ghost Value = { List spec.Edge };

    ghost coded = { coded_list edge_code };

    ghost view = { λ l. map E.edge_of l.edges.items };
}

impl<'a, E: EdgeType, A: Allocator> PartialEq for EdgeList<'a, E, A> {
    ghost use Rattle.std.specs.Cmp.{partial_equiv_from_equiv};
    ghost use Rattle.ltl_automaton.specs.EdgeView.{same_edges, same_equiv};

    ghost eq = { same_edges };

    ghost laws = { partial_equiv_from_equiv same_equiv };

    fn eq(&self, other: &EdgeList<'a, E, A>) -> bool {
        self.edges.as_slice() == other.edges.as_slice()
    }
}

impl<'a, E: EdgeType, A: Allocator> Eq for EdgeList<'a, E, A> {
    ghost use Rattle.ltl_automaton.specs.EdgeView.{same_equiv};

    ghost laws = { same_equiv };
}

impl<'a, E: EdgeType, A: Allocator> Hash for EdgeList<'a, E, A> {
    ghost use Rattle.std.specs.Hash as words;
    ghost use Rattle.ltl_automaton.specs.EdgeView.{hash_of_same};

    ghost hash_input = { words.slice E.fed };

    ghost respects_eq = { hash_of_same E.fed };

    fn hash<H: Hasher>(&self, state: &mut H) {
        self.edges.as_slice().hash(state);
    }
}

impl<'a, E: EdgeType, A: Allocator> EdgeList<'a, E, A> {
    /// The list of these edges, in their order.
    pub fn new(edges: Vec<E, &'a A>) -> Self
        ensures { result ≡ map E.edge_of edges.entry.items }
    {
        EdgeList { edges }
    }

    /// The edges in their order.
    pub fn as_slice(&self) -> &[E]
        ensures { map E.edge_of result.now ≡ self.now }
    {
        self.edges.as_slice()
    }
}

impl<'a, A: Allocator> EdgeList<'a, CodedEdge, A> {
    /// Replaces the numbers of the labels of each edge by the places of these labels in the table.
    fn relabel(&mut self, ranks: &Ranks<'_, A>)
        requires { All (HasRanks ranks.now) self.old }
        ensures { self.new ≡ map (ranked_edge ranks.now) self.old }
    {
        ranks.relabel(self.edges.as_mut_slice());
    }
}

/// Replaces the numbers of the labels of each edge in each list by the places of these labels in the table.
pub(crate) fn relabel<A: Allocator>(lists: &mut [EdgeList<'_, CodedEdge, A>], ranks: &Ranks<'_, A>)
    requires { All (All (HasRanks ranks.now)) lists.old }
    ensures { lists.new ≡ map (map (ranked_edge ranks.now)) lists.old }
{
    for list in 0..lists.len() {
        lists[list].relabel(ranks);
    }
}
