//! New automata from the edges of old ones.

ghost use Rattle.std.specs.Prelude.{◌≡◌, ◌≤◌, ◌⊎◌, All, IfOk, IfSome};
ghost use Rattle.ltl_reduce.specs.Build.{IsChosen, IsBuiltFrom};
ghost use Rattle.ltl_reduce.specs.Reduction.{edge_count};

use crate::places::at;
use ltl_automaton::{CodedEdge, CodedStates, SharedStates};
use ltl_models::Gba;
use std::alloc::{AllocError, Allocator};

/// An edge that is kept: its place among the edges of its state, and whether it loses its marks.
#[derive(Clone, Copy, Debug, PartialEq, Eq)]
pub(crate) struct Choice {
    pub(crate) place: usize,
    pub(crate) bare: bool,
}

/// A new automaton: for each state the old one whose edges it has, and which of these; and for each old state the number of the new one that stands for it.
#[derive(Drop)]
pub(crate) struct Plan<'a, A: Allocator> {
    pub(crate) sources: Vec<usize, &'a A>,
    pub(crate) choices: Vec<Vec<Choice, &'a A>, &'a A>,
    pub(crate) numbers: Vec<usize, &'a A>,
}

/// The marks of an edge, or those with number 0, which are none.
#[inline(always)]
fn kept_marks(bare: bool, marks: u32) -> u32
    ensures { (result ≡ 0) ⊎ (result ≡ marks) }
{
    if bare {
        return 0;
    }
    marks
}

/// A chosen edge, if it is there and its target has a number below `count`.
#[inline(always)]
#[tactic(auto, using(crate::proofs::BuildLaws::chosen_is))]
fn retold(
    edges: &[CodedEdge],
    choice: &Choice,
    numbers: &[usize],
    count: usize,
) -> Option<CodedEdge>
    ensures { IfSome result (IsChosen edges.now count) }
{
    if choice.place >= edges.len() {
        return None;
    }
    let edge = edges[choice.place];
    let target = at(numbers, edge.target);
    if target >= count {
        return None;
    }
    Some(CodedEdge {
        cube: edge.cube,
        marks: kept_marks(choice.bare, edge.marks),
        target,
    })
}

/// The chosen edges, where their targets have numbers below `count`.
#[tactic(auto, using(crate::proofs::BuildLaws::chosen_next))]
fn chosen<'a, A: Allocator>(
    alloc: &'a A,
    edges: &[CodedEdge],
    choices: &[Choice],
    numbers: &[usize],
    count: usize,
) -> Result<Vec<CodedEdge, &'a A>, AllocError>
    ensures { IfOk result (λ es. All (IsChosen edges.now count) es.items) }
{
    let mut made = Vec::with_capacity(alloc, choices.len())?;
    for choice in choices {
        if let Some(edge) = retold(edges, choice, numbers, count) {
            made.push(edge)?;
        }
    }
    Ok(made)
}

/// The number of edges of an automaton, or less.
#[tactic(auto, using(crate::proofs::BuildLaws::count_next, crate::proofs::BuildLaws::count_whole))]
pub(crate) fn edge_total<A: Allocator>(automaton: &Gba<'_, A>) -> usize
    ensures { result ≤ edge_count automaton.now }
{
    let mut total = 0usize;
    for s in 0..automaton.len() {
        total = total.saturating_add(automaton.edges(s).len());
    }
    total
}

/// The automaton of a plan; `None` if the plan names what isn't there, or if the automaton had more states or edges than the old one.
pub(crate) fn built<'a, A: Allocator>(
    alloc: &'a A,
    automaton: &Gba<'_, A>,
    plan: &Plan<'_, A>,
) -> Result<Option<Gba<'a, A>>, AllocError>
    ensures { IfOk result (λ o. IfSome o (IsBuiltFrom automaton.now)) }
{
    automaton.invariant();
    let input = automaton.states();
    let count = plan.sources.len();
    if count == 0 || count > automaton.len() || plan.choices.len() < count {
        return Ok(None);
    }
    let mut left = edge_total(automaton);
    let mut made = SharedStates::new(alloc, automaton.sets());
    for b in 0..count {
        let source = plan.sources[b];
        if source >= automaton.len() {
            return Ok(None);
        }
        let edges = chosen(
            alloc,
            input.states.edges(source),
            plan.choices[b].as_slice(),
            plan.numbers.as_slice(),
            count,
        )?;
        if edges.len() > left {
            return Ok(None);
        }
        left -= edges.len();
        made.push(true, edges)?;
    }
    let states = CodedStates {
        table: input.table.labels().table(alloc)?,
        states: made,
    };
    Ok(Some(Gba::new(states)))
}
