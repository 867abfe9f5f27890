//! Acceptance of states in place of an acceptance set of edges, where the edges of each state agree on it.

ghost use Rattle.std.specs.Prelude.{◌≡◌, ◌<◌, ◌≤◌, map, length, IsTrue, IfOk, IfSome, slice_index_or};
ghost use Rattle.std.specs.Bool.{Decides};
ghost use Rattle.ltl_automaton.specs.CodedEdges.{coded_edge_of};
ghost use Rattle.ltl_automaton.specs.EdgeView.{edge_of};
ghost use Rattle.ltl_automaton.specs.LabelTables.{HasLabels, labelled_of};
ghost use Rattle.ltl_reduce.specs.StateBased.{Agrees, EdgesAgree, IsInAll, IsStateBased, bare_coded, level_in};

use crate::components::search;
use crate::places::at;
use ltl_automaton::{CodedEdge, CodedStates, Edge, SharedStates};
use ltl_models::Gba;
use std::alloc::{AllocError, Allocator};

/// Whether an edge of an automaton with so many sets is in all of them.
#[tactic(auto, using(crate::proofs::StateBasedLaws::in_all_none, crate::proofs::StateBasedLaws::in_all_one))]
fn is_in_all(sets: usize, edge: &Edge) -> bool
    requires { sets ≤ 1 }
    ensures { Decides result (IsInAll sets (edge_of edge.now)) }
{
    if sets == 0 {
        return true;
    }
    edge.marks.holds(0)
}

/// Whether an edge of the state `s` leads to no higher level, and, if it leads to none that is lower, is in all sets exactly if the state is accepting.
#[tactic(auto, using(crate::proofs::StateBasedLaws::agrees_lower, crate::proofs::StateBasedLaws::agrees_in, crate::proofs::StateBasedLaws::agrees_out))]
fn agrees(levels: &[usize], sets: usize, s: usize, accepting: bool, edge: &Edge) -> bool
    requires { sets ≤ 1 }
    ensures { IsTrue result → Agrees sets (level_in levels.now) s accepting (edge_of edge.now) }
{
    let level = at(levels, s);
    let target = at(levels, edge.target);
    if target < level {
        return true;
    }
    if target > level {
        return false;
    }
    if is_in_all(sets, edge) {
        return accepting;
    }
    !accepting
}

/// Whether the edges of a state agree that it is accepting, or that it isn't.
fn edges_agree<A: Allocator>(
    automaton: &Gba<'_, A>,
    levels: &[usize],
    s: usize,
    accepting: bool,
) -> bool
    requires state { s < length automaton.now.states }
    requires few { automaton.now.sets ≤ 1 }
    ensures { IsTrue result → EdgesAgree automaton.now (level_in levels.now) s accepting }
{
    let edges = automaton.edges(s);
    for k in 0..edges.len() {
        if !agrees(levels, automaton.sets(), s, accepting, &edges.get(k)) {
            return false;
        }
    }
    true
}

/// Whether the first edge of a state that leads to no lower level is in all sets; where there is none, whether there are no sets.
fn is_accepting<A: Allocator>(automaton: &Gba<'_, A>, levels: &[usize], s: usize) -> bool
    requires state { s < length automaton.now.states }
    requires few { automaton.now.sets ≤ 1 }
{
    let edges = automaton.edges(s);
    for k in 0..edges.len() {
        let edge = edges.get(k);
        if at(levels, edge.target) == at(levels, s) {
            return is_in_all(automaton.sets(), &edge);
        }
    }
    automaton.sets() == 0
}

/// The edges without their marks. Number 0 is no marks.
fn bare<'a, A: Allocator>(
    alloc: &'a A,
    edges: &[CodedEdge],
) -> Result<Vec<CodedEdge, &'a A>, AllocError>
    ensures { IfOk result (λ es. map coded_edge_of es.items ≡ map bare_coded (map coded_edge_of edges.now)) }
{
    let mut made = Vec::with_capacity(alloc, edges.len())?;
    for edge in edges {
        made.push(CodedEdge {
            cube: edge.cube,
            marks: 0,
            target: edge.target,
        })?;
    }
    Ok(made)
}

/// The automaton without acceptance sets that accepts the same words by its states, which are the same; `None` if there are several sets, or if edges of a state
/// disagree.
pub(crate) fn state_based<'a, A: Allocator>(
    alloc: &'a A,
    automaton: &Gba<'_, A>,
) -> Result<Option<CodedStates<'a, A>>, AllocError>
    ensures based { IfOk result (λ o. IfSome o (λ c. IsStateBased automaton.now (labelled_of c))) }
    ensures labels { IfOk result (λ o. IfSome o HasLabels) }
{
    automaton.invariant();
    if automaton.sets() > 1 {
        return Ok(None);
    }
    let components = search(alloc, automaton)?;
    let levels = components.of_state.as_slice();
    let input = automaton.states();
    let mut made = SharedStates::new(alloc, 0);
    for s in 0..automaton.len() {
        let accepting = is_accepting(automaton, levels, s);
        if !edges_agree(automaton, levels, s, accepting) {
            return Ok(None);
        }
        let edges = bare(alloc, input.states.edges(s))?;
        made.push(accepting, edges)?;
    }
    let table = input.table.labels().table(alloc)?;
    Ok(Some(CodedStates {
        table,
        states: made,
    }))
}
