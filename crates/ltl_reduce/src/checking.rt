//! The check of a step: do two automata accept the same words?

ghost use Rattle.std.specs.Prelude.{◌≡◌, ◌<◌, IsTrue, length};
ghost use Rattle.ltl_automaton.specs.EdgeView.{edge_of};
ghost use Rattle.ltl_reduce.specs.Reduction.{AcceptsSame};
ghost use Rattle.ltl_reduce.specs.FreesView.{AreRight};
ghost use Rattle.ltl_reduce.specs.Matching.{AreAlikeTo, AreEdgesRight, AreFollowed, AreFollowedTo, IsAlike, IsDeathRight, IsFollowed, IsLevelRight, IsRight};

use crate::frees::Frees;
use crate::matching::Matching;
use crate::relation::{Cells, Relation};
use ltl_automaton::Edge;
use ltl_models::Gba;
use std::alloc::Allocator;

/// Whether an edge of the state `s` of an automaton with so many sets leads to no higher level, and is not in the set that its level lacks.
#[tactic(auto, using(crate::proofs::CheckLaws::level_lower, crate::proofs::CheckLaws::level_full, crate::proofs::CheckLaws::level_without))]
fn is_level_right(frees: &Frees<'_>, sets: usize, s: usize, edge: &Edge) -> bool
    ensures { IsTrue result → IsLevelRight sets frees.now s (edge_of edge.now) }
{
    let level = frees.level(s);
    let target = frees.level(edge.target);
    if target < level {
        return true;
    }
    if target > level {
        return false;
    }
    let lacking = frees.lacking(level);
    if lacking >= sets {
        return true;
    }
    if edge.marks.holds(lacking) {
        return false;
    }
    true
}

/// Whether an edge of a dead state is free, and leads to a dead state.
#[tactic(auto, using(crate::proofs::CheckLaws::death_not, crate::proofs::CheckLaws::death_is))]
fn is_death_right(frees: &Frees<'_>, sets: usize, s: usize, edge: &Edge) -> bool
    ensures { IsTrue result → IsDeathRight sets frees.now s (edge_of edge.now) }
{
    if frees.is_dead(s) {
        if frees.is_dead(edge.target) {
            return frees.is_free(sets, s, edge.target);
        }
        return false;
    }
    true
}

/// Whether the levels are right about an edge of the state `s`.
fn is_right(frees: &Frees<'_>, sets: usize, s: usize, edge: &Edge) -> bool
    ensures { IsTrue result → IsRight sets frees.now s (edge_of edge.now) }
{
    if is_level_right(frees, sets, s, edge) {
        return is_death_right(frees, sets, s, edge);
    }
    false
}

/// Whether the levels are right about the edges of a state.
fn are_edges_right<A: Allocator>(automaton: &Gba<'_, A>, frees: &Frees<'_>, s: usize) -> bool
    requires { s < length automaton.now.states }
    ensures { IsTrue result → AreEdgesRight automaton.now frees.now s }
{
    let edges = automaton.edges(s);
    for k in 0..edges.len() {
        if !is_right(frees, automaton.sets(), s, &edges.get(k)) {
            return false;
        }
    }
    true
}

/// Whether the levels are right about all edges.
#[tactic(auto, using(crate::proofs::CheckLaws::rights_next, crate::proofs::CheckLaws::rights_all))]
fn are_right<A: Allocator>(automaton: &Gba<'_, A>, frees: &Frees<'_>) -> bool
    ensures { IsTrue result → AreRight automaton.now frees.now }
{
    for s in 0..automaton.len() {
        if !are_edges_right(automaton, frees, s) {
            return false;
        }
    }
    true
}

/// Two automata, and how the states of each are related to those of the other.
#[derive(Drop)]
struct Pair<'p, 'x, 'y, A: Allocator> {
    first: &'p Gba<'x, A>,
    second: &'p Gba<'y, A>,
    to: Matching<'p>,
    from: Matching<'p>,
}

impl<'p, 'x, 'y, A: Allocator> Pair<'p, 'x, 'y, A> {
    /// Whether a state of the first automaton and one of the second match each other, if the second one has such a state.
    fn is_alike(&self, s: usize, t: usize, budget: &mut usize) -> bool
        requires { s < length self.now.first.now.states }
        ensures { IsTrue result → IsAlike self.now.first.now self.now.second.now self.now.to self.now.from s t }
    {
        if t >= self.second.len() {
            return true;
        }
        let edges = self.first.edges(s);
        let others = self.second.edges(t);
        self.to.are_matched(s, &edges, &others, budget)
            && self.from.are_matched(t, &others, &edges, budget)
    }

    /// Whether each state and the one with its number match each other.
    #[tactic(auto, using(crate::proofs::CheckLaws::alike_next))]
    fn are_alike(&self, numbers: &[usize], budget: &mut usize) -> bool
        requires { length numbers.now ≡ length self.now.first.now.states }
        ensures { IsTrue result → AreAlikeTo self.now.first.now self.now.second.now self.now.to self.now.from numbers.now (length numbers.now) }
    {
        for s in 0..numbers.len() {
            if !self.is_alike(s, numbers[s], budget) {
                return false;
            }
        }
        true
    }

    /// Whether two states match each other as they are related.
    fn is_followed(&self, s: usize, t: usize, budget: &mut usize) -> bool
        requires first { s < length self.now.first.now.states }
        requires second { t < length self.now.second.now.states }
        ensures { IsTrue result → IsFollowed self.now.first.now self.now.second.now self.now.to self.now.from s t }
    {
        if self.to.relation.relates(s, t)
            && !self
                .to
                .are_matched(s, &self.first.edges(s), &self.second.edges(t), budget)
        {
            return false;
        }
        if self.from.relation.relates(t, s)
            && !self
                .from
                .are_matched(t, &self.second.edges(t), &self.first.edges(s), budget)
        {
            return false;
        }
        true
    }

    /// Whether a state matches all to which it is related, and the other way round.
    #[tactic(auto, using(crate::proofs::CheckLaws::followed_next))]
    fn is_state_followed(&self, s: usize, budget: &mut usize) -> bool
        requires { s < length self.now.first.now.states }
        ensures { IsTrue result → AreFollowedTo self.now.first.now self.now.second.now self.now.to self.now.from s (length self.now.second.now.states) }
    {
        for t in 0..self.second.len() {
            if !self.is_followed(s, t, budget) {
                return false;
            }
        }
        true
    }

    /// Whether all states match those to which they are related.
    #[tactic(auto, using(crate::proofs::CheckLaws::all_followed_next))]
    fn are_followed(&self, budget: &mut usize) -> bool
        ensures { IsTrue result → AreFollowed self.now.first.now self.now.second.now self.now.to self.now.from (length self.now.first.now.states) }
    {
        for s in 0..self.first.len() {
            if !self.is_state_followed(s, budget) {
                return false;
            }
        }
        true
    }
}

/// Whether two automata accept the same words, as numbers show: each state with a number and the state of the smaller automaton with this number match each
/// other. `frees` has the levels of the first automaton.
pub(crate) fn check_numbers<A: Allocator>(
    automaton: &Gba<'_, A>,
    smaller: &Gba<'_, A>,
    numbers: &[usize],
    frees: &Frees<'_>,
    budget: &mut usize,
) -> bool
    ensures { IsTrue result → AcceptsSame automaton.now 0 smaller.now }
{
    automaton.invariant();
    smaller.invariant();
    let pair = Pair {
        first: automaton,
        second: smaller,
        to: Matching {
            frees: *frees,
            sets: automaton.sets(),
            relation: Relation::Forward(numbers, smaller.len()),
        },
        from: Matching {
            frees: Frees::none(),
            sets: smaller.sets(),
            relation: Relation::Backward(numbers),
        },
    };
    if automaton.sets() != smaller.sets() || numbers.len() != automaton.len() {
        return false;
    }
    if !pair.to.relation.relates(0, 0) || !pair.from.relation.relates(0, 0) {
        return false;
    }
    are_right(automaton, frees) && pair.are_alike(numbers, budget)
}

/// Whether two automata accept the same words, as a table shows that has for each two states of the first one whether the second one simulates the first one.
/// `stands` has for each state of the smaller automaton a state of the other one.
pub(crate) fn check_cells<A: Allocator>(
    automaton: &Gba<'_, A>,
    smaller: &Gba<'_, A>,
    cells: &Cells<'_>,
    stands: &[usize],
    budget: &mut usize,
) -> bool
    ensures { IsTrue result → AcceptsSame automaton.now 0 smaller.now }
{
    automaton.invariant();
    smaller.invariant();
    let pair = Pair {
        first: automaton,
        second: smaller,
        to: Matching {
            frees: Frees::none(),
            sets: automaton.sets(),
            relation: Relation::Across(*cells, stands),
        },
        from: Matching {
            frees: Frees::none(),
            sets: smaller.sets(),
            relation: Relation::Back(*cells, stands, automaton.len()),
        },
    };
    if automaton.sets() != smaller.sets() || stands.len() != smaller.len() {
        return false;
    }
    if !pair.to.relation.relates(0, 0) || !pair.from.relation.relates(0, 0) {
        return false;
    }
    pair.are_followed(budget)
}
