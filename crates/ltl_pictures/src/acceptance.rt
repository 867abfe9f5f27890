//! Whether acceptance is state-based.

ghost use Rattle.std.specs.Prelude.{◌≡◌, map};
ghost use Rattle.std.specs.List.{list_all, list_any};
ghost use Rattle.ltl_hoa.specs.MarkedView.{edge_of};
ghost use Rattle.ltl_pictures.specs.Picture as picture;

use ltl_hoa::{Marked, MarkedEdge};
use std::alloc::Allocator;

/// Whether an edge is in an acceptance set.
fn is_marked(edge: &MarkedEdge) -> bool
    ensures { result ≡ picture.is_marked (edge_of edge.now) }
{
    let sets = edge.sets.to_row_set();
    let mut numbers = sets.iter();
    numbers.next().is_some()
}

fn is_each_marked(edges: &[MarkedEdge]) -> bool
    ensures { result ≡ list_all (λ e. picture.is_marked (edge_of e)) edges.now }
{
    edges.iter().all(|edge| is_marked(edge))
}

fn is_one_marked(edges: &[MarkedEdge]) -> bool
    ensures { result ≡ list_any (λ e. picture.is_marked (edge_of e)) edges.now }
{
    edges.iter().any(|edge| is_marked(edge))
}

fn all_marked(edges: &[MarkedEdge]) -> bool
    ensures { result ≡ list_all picture.is_marked (map edge_of edges.now) }
{
    is_each_marked(edges)
}

fn any_marked(edges: &[MarkedEdge]) -> bool
    ensures { result ≡ list_any picture.is_marked (map edge_of edges.now) }
{
    is_one_marked(edges)
}

/// Whether a state is accepting: it has an edge, and each of its edges is in an acceptance set.
pub(crate) fn is_accepting(edges: &[MarkedEdge]) -> bool
    ensures { result ≡ picture.is_accepting (map edge_of edges.now) }
{
    any_marked(edges) && all_marked(edges)
}

/// Whether all edges of a state are in an acceptance set, or none is.
fn is_even(edges: &[MarkedEdge]) -> bool
    ensures { result ≡ picture.is_even (map edge_of edges.now) }
{
    all_marked(edges) || !any_marked(edges)
}

/// Whether of each state all edges are in an acceptance set, or none is.
fn are_even<A: Allocator>(automaton: &Marked<'_, A>) -> bool
    ensures { result ≡ list_all picture.is_even automaton.now.edges }
{
    for k in 0..automaton.len() {
        if !is_even(automaton.edges(k)) {
            return false;
        }
    }
    true
}

/// Whether there is one acceptance set, and of each state all edges are in it or none is.
pub(crate) fn is_state_based<A: Allocator>(automaton: &Marked<'_, A>) -> bool
    ensures { result ≡ picture.is_state_based automaton.now }
{
    automaton.sets() == 1 && are_even(automaton)
}
