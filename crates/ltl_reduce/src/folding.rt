//! The quotient by a simulation, without dominated edges.

use crate::build::{Choice, Plan};
use crate::places::at;
use crate::relation::Cells;
use crate::simulation::is_simulated;
use ltl_automaton::Edges;
use ltl_models::Gba;
use std::alloc::{AllocError, Allocator};

/// Whether another edge dominates the one at a place: it simulates that one, and if that one simulates it too, it stands before it.
fn is_dominated(edges: &Edges<'_>, place: usize, cells: &Cells<'_>, budget: &mut usize) -> bool {
    if place >= edges.len() {
        return false;
    }
    let edge = edges.get(place);
    for k in 0..edges.len() {
        if *budget == 0 {
            return false;
        }
        *budget -= 1;
        if k != place {
            let other = edges.get(k);
            if is_simulated(&edge, &other, cells)
                && (k < place || !is_simulated(&other, &edge, cells))
            {
                return true;
            }
        }
    }
    false
}

/// The least state that simulates the state `s` and is simulated by it.
fn least_equal(cells: &Cells<'_>, s: usize) -> usize {
    for t in 0..s {
        if cells.holds(s, t) && cells.holds(t, s) {
            return t;
        }
    }
    s
}

/// The quotient by the states that simulate each other. A state of it has the edges of its least state that no other edge of that state dominates.
pub(crate) fn folding<'a, A: Allocator>(
    alloc: &'a A,
    automaton: &Gba<'_, A>,
    cells: &Cells<'_>,
    budget: &mut usize,
) -> Result<Plan<'a, A>, AllocError> {
    let mut plan = Plan {
        sources: Vec::new(alloc),
        choices: Vec::new(alloc),
        numbers: Vec::new(alloc),
    };
    for s in 0..automaton.len() {
        let least = least_equal(cells, s);
        if least < s {
            let number = at(plan.numbers.as_slice(), least);
            plan.numbers.push(number)?;
        } else {
            let number = plan.sources.len();
            plan.numbers.push(number)?;
            plan.sources.push(s)?;
            let edges = automaton.edges(s);
            let mut chosen = Vec::new(alloc);
            for place in 0..edges.len() {
                if !is_dominated(&edges, place, cells, budget) {
                    chosen.push(Choice { place, bare: false })?;
                }
            }
            plan.choices.push(chosen)?;
        }
    }
    Ok(plan)
}
