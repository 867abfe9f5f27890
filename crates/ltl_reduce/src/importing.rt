//! The way in: an automaton that was read, as a generalized automaton whose state 0 is the start.

ghost use Rattle.std.specs.Prelude.{◌≡◌, map, All, IfOk, OnOk};
ghost use Rattle.ltl_hoa.specs.MarkedView.{edge_of};
ghost use Rattle.ltl_automaton.specs.Net.{successor_of};
ghost use Rattle.ltl_reduce.specs.Importing.{IsFineEdge, exchanged, numbers_of, step_edge, started};

use ltl_automaton::{Builder, CodedBuilder, Edge, Step};
use ltl_hoa::{Marked, MarkedEdge};
use ltl_models::Gba;
use std::alloc::{AllocError, Allocator};

/// An edge that was read, as a step. Its key is the number of its target in the automaton that was read.
#[derive(Clone, Copy)]
struct ReadEdge {
    edge: MarkedEdge,
}

impl Step<usize, Edge> for ReadEdge {
    ghost move_of = { λ r. successor_of (edge_of r.edge) };

    fn key(&self) -> usize {
        self.edge.target
    }

    fn edge_to(&self, target: usize) -> Edge {
        Edge {
            cube: self.edge.cube,
            target,
            marks: self.edge.sets.to_row_set(),
        }
    }
}

/// The number of a state, with the numbers of the start and of state 0 exchanged.
#[inline(always)]
fn exchange(start: usize, k: usize) -> usize
    ensures { result ≡ exchanged start k }
{
    if k == 0 {
        start
    } else if k == start {
        0
    } else {
        k
    }
}

/// The edges as steps.
fn steps_of<'a, A: Allocator>(
    alloc: &'a A,
    edges: &[MarkedEdge],
) -> Result<Vec<ReadEdge, &'a A>, AllocError>
    ensures steps { IfOk result (λ v. map step_edge v.items ≡ map edge_of edges.now) }

    // The labels of edges are sets without contradictions.
    ensures fine { OnOk result (All IsFineEdge (map edge_of edges.now)) }
{
    let mut steps = Vec::with_capacity(alloc, edges.len())?;
    for edge in edges {
        edge.cube.invariant();
        edge.sets.to_row_set().invariant();
        steps.push(ReadEdge { edge: *edge })?;
    }
    Ok(steps)
}

/// The targets of the edges, by their new numbers.
fn targets_of<'a, A: Allocator>(
    alloc: &'a A,
    edges: &[MarkedEdge],
    start: usize,
) -> Result<Vec<usize, &'a A>, AllocError>
    ensures { IfOk result (λ v. v.items ≡ numbers_of start (map edge_of edges.now)) }
{
    let mut targets = Vec::with_capacity(alloc, edges.len())?;
    for edge in edges {
        targets.push(exchange(start, edge.target))?;
    }
    Ok(targets)
}

/// The generalized automaton with the states and edges of one that was read. The numbers of its start and of state 0 are exchanged, so that state 0 is the
/// start.
pub(crate) fn imported<'a, A: Allocator>(
    alloc: &'a A,
    automaton: &Marked<'_, A>,
) -> Result<Gba<'a, A>, AllocError>
    ensures { IfOk result (λ g. g ≡ started automaton.now) }
{
    automaton.invariant();
    let start = automaton.start();
    let mut builder = CodedBuilder::new(alloc, automaton.sets())?;
    for k in 0..automaton.len() {
        let edges = automaton.edges(exchange(start, k));
        let steps = steps_of(alloc, edges)?;
        let targets = targets_of(alloc, edges, start)?;
        builder.push_steps(true, steps.as_slice(), targets.as_slice())?;
    }
    let states = builder.finish()?;
    Ok(Gba::new(states))
}
