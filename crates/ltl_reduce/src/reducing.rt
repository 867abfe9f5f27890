//! The reduction of an automaton, step by step.

ghost use Rattle.std.specs.Prelude.{◌≡◌, IfOk, IfSome};
ghost use Rattle.ltl_reduce.specs.Reduction.{IsReductionOf};

use crate::build::{built, edge_total};
use crate::checking::{check_cells, check_numbers};
use crate::folding::folding;
use crate::relation::Cells;
use crate::simulation::simulation;
use crate::trimming::{find_levels, trimming};
use ltl_models::Gba;
use std::alloc::{AllocError, Allocator};

/// The largest number of states of an automaton whose states are compared by simulation.
pub const SIMULATION_LIMIT: usize = 4_096;

/// How many times edges are compared at most.
const COMPARISONS: usize = 300_000_000;

/// How many times an automaton is folded at most.
const ROUNDS: usize = 16;

/// The automaton without the states that no accepting run passes, and without marks that none needs; `None` if that isn't shown.
#[tactic(auto, using(crate::proofs::ReductionLaws::reduction_built))]
fn trimmed<'a, A: Allocator>(
    alloc: &'a A,
    automaton: &Gba<'_, A>,
    budget: &mut usize,
) -> Result<Option<Gba<'a, A>>, AllocError>
    ensures { IfOk result (λ o. IfSome o (IsReductionOf automaton.now 0)) }
{
    let levels = find_levels(alloc, automaton)?;
    let frees = levels.frees();
    let plan = trimming(alloc, automaton, &frees)?;
    let Some(smaller) = built(alloc, automaton, &plan)? else {
        return Ok(None);
    };
    if check_numbers(automaton, &smaller, plan.numbers.as_slice(), &frees, budget) {
        return Ok(Some(smaller));
    }
    Ok(None)
}

/// The quotient by simulation without dominated edges; `None` if that isn't shown, or if the automaton is too large for it.
#[tactic(auto, using(crate::proofs::ReductionLaws::reduction_built))]
fn folded<'a, A: Allocator>(
    alloc: &'a A,
    automaton: &Gba<'_, A>,
    budget: &mut usize,
) -> Result<Option<Gba<'a, A>>, AllocError>
    ensures { IfOk result (λ o. IfSome o (IsReductionOf automaton.now 0)) }
{
    if automaton.len() > SIMULATION_LIMIT {
        return Ok(None);
    }
    let table = simulation(alloc, automaton, budget)?;
    let cells = Cells {
        cells: table.as_slice(),
        width: automaton.len(),
    };
    let plan = folding(alloc, automaton, &cells, budget)?;
    let Some(smaller) = built(alloc, automaton, &plan)? else {
        return Ok(None);
    };
    if check_cells(automaton, &smaller, &cells, plan.sources.as_slice(), budget) {
        return Ok(Some(smaller));
    }
    Ok(None)
}

/// `trimmed`, or the same automaton where that is `None`.
#[tactic(auto, using(crate::proofs::ReductionLaws::reduction_self))]
fn trim<'a, A: Allocator>(
    alloc: &'a A,
    automaton: Gba<'a, A>,
    budget: &mut usize,
) -> Result<Gba<'a, A>, AllocError>
    ensures { IfOk result (IsReductionOf automaton.entry 0) }
{
    if let Some(smaller) = trimmed(alloc, &automaton, budget)? {
        return Ok(smaller);
    }
    Ok(automaton)
}

/// `folded`, or the same automaton where that is `None`.
#[tactic(auto, using(crate::proofs::ReductionLaws::reduction_self))]
fn fold<'a, A: Allocator>(
    alloc: &'a A,
    automaton: Gba<'a, A>,
    budget: &mut usize,
) -> Result<Gba<'a, A>, AllocError>
    ensures { IfOk result (IsReductionOf automaton.entry 0) }
{
    if let Some(smaller) = folded(alloc, &automaton, budget)? {
        return Ok(smaller);
    }
    Ok(automaton)
}

/// One round: the automaton is trimmed and then folded.
fn round<'a, A: Allocator>(
    alloc: &'a A,
    automaton: Gba<'a, A>,
    budget: &mut usize,
) -> Result<Gba<'a, A>, AllocError>
    ensures { IfOk result (IsReductionOf automaton.entry 0) }
{
    let small = trim(alloc, automaton, budget)?;
    let smaller = fold(alloc, small, budget)?;
    Ok(smaller)
}

/// Whether an automaton has so many states and edges.
fn has_size<A: Allocator>(automaton: &Gba<'_, A>, states: usize, edges: usize) -> bool {
    automaton.len() == states && edge_total(automaton) == edges
}

/// A smaller automaton that accepts the same words: one without states that no accepting run passes, and without states and edges that others simulate. Nothing
/// is promised of which automaton it is. States are compared by simulation only where there are at most [`SIMULATION_LIMIT`], and as far as a budget of
/// comparisons lasts.
pub fn reduce<'a, A: Allocator>(
    alloc: &'a A,
    automaton: Gba<'a, A>,
) -> Result<Gba<'a, A>, AllocError>
    ensures { IfOk result (IsReductionOf automaton.entry 0) }
{
    let mut budget = COMPARISONS;
    let mut current = automaton;
    for _round in 0..ROUNDS {
        let states = current.len();
        let edges = edge_total(&current);
        let next = round(alloc, current, &mut budget)?;
        current = next;
        let done = has_size(&current, states, edges);
        if done {
            return Ok(current);
        }
    }
    Ok(current)
}
