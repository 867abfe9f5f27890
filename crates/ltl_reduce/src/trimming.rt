//! Which states no run reaches, or no accepting run passes, and which marks no accepting run needs.

use crate::build::{Choice, Plan};
use crate::components::{Components, search};
use crate::frees::Frees;
use crate::places::{NOWHERE, at, is_set, put, set};
use ltl_automaton::CodedEdge;
use ltl_models::Gba;
use ltl_sets::RowSet;
use std::alloc::{AllocError, Allocator};

/// The levels of an automaton: its strongly connected components, what they lack, and which states are dead.
#[derive(Drop)]
pub(crate) struct Levels<'a, A: Allocator> {
    levels: Vec<usize, &'a A>,
    lacking: Vec<usize, &'a A>,
    dead: Vec<bool, &'a A>,
}

impl<'a, A: Allocator> Levels<'a, A> {
    /// The same, borrowed.
    pub(crate) fn frees(&self) -> Frees<'_> {
        Frees {
            levels: self.levels.as_slice(),
            lacking: self.lacking.as_slice(),
            dead: self.dead.as_slice(),
        }
    }
}

/// What the edges within a component are: whether there are any, and the sets that they are in.
#[derive(Clone, Copy)]
struct Within {
    cyclic: bool,
    marks: RowSet,
}

/// The lowest number below `sets` that isn't a mark; `RowSet::LIMIT` if there is none.
fn lacking_set(marks: &RowSet, sets: usize) -> usize {
    for k in 0..sets {
        if !marks.holds(k) {
            return k;
        }
    }
    RowSet::LIMIT
}

/// Notes an edge within a component, by its marks.
fn note(all: &mut [Within], component: usize, marks: &RowSet) {
    if component < all.len() {
        let together = all[component].marks.union(marks);
        all[component] = Within {
            cyclic: true,
            marks: together,
        };
    }
}

/// For each component the edges within it.
fn edges_within<'a, A: Allocator>(
    alloc: &'a A,
    automaton: &Gba<'_, A>,
    components: &Components<'_, A>,
) -> Result<Vec<Within, &'a A>, AllocError> {
    let mut all = Vec::new(alloc);
    all.resize(
        components.count,
        Within {
            cyclic: false,
            marks: RowSet::empty(),
        },
    )?;
    let of_state = components.of_state.as_slice();
    for s in 0..automaton.len() {
        let component = at(of_state, s);
        let edges = automaton.edges(s);
        for k in 0..edges.len() {
            let coded = edges.coded[k];
            if at(of_state, coded.target) == component {
                note(
                    all.as_mut_slice(),
                    component,
                    &edges.labels.marks(coded.marks),
                );
            }
        }
    }
    Ok(all)
}

/// The levels of an automaton.
pub(crate) fn find_levels<'a, A: Allocator>(
    alloc: &'a A,
    automaton: &Gba<'_, A>,
) -> Result<Levels<'a, A>, AllocError> {
    let components = search(alloc, automaton)?;
    let within = edges_within(alloc, automaton, &components)?;
    let mut lacking = Vec::new(alloc);
    let mut live = Vec::new(alloc);
    for component in 0..within.len() {
        let lacks = lacking_set(&within[component].marks, automaton.sets());
        lacking.push(lacks)?;
        live.push(within[component].cyclic && lacks == RowSet::LIMIT)?;
    }
    let of_state = components.of_state.as_slice();
    let order = components.order.as_slice();
    for i in 0..order.len() {
        let component = at(of_state, order[i]);
        if order[i] < automaton.len() && !is_set(live.as_slice(), component) {
            let edges = automaton.edges(order[i]).coded;
            for k in 0..edges.len() {
                if is_set(live.as_slice(), at(of_state, edges[k].target)) {
                    set(live.as_mut_slice(), component, true);
                }
            }
        }
    }
    let mut dead = Vec::new(alloc);
    for s in 0..automaton.len() {
        let component = at(of_state, s);
        dead.push(component < live.len() && !live[component])?;
    }
    Ok(Levels {
        levels: components.of_state,
        lacking,
        dead,
    })
}

/// The number of the marks that all edges of the state `s` have that aren't free; `None` if these differ, or if all are free.
fn common_marks(frees: &Frees<'_>, sets: usize, s: usize, edges: &[CodedEdge]) -> Option<u32> {
    let mut common = None;
    for k in 0..edges.len() {
        let edge = edges[k];
        if !frees.is_dead(edge.target) && !frees.is_free(sets, s, edge.target) {
            match common {
                None => common = Some(edge.marks),
                Some(marks) => {
                    if marks != edge.marks {
                        return None;
                    }
                }
            }
        }
    }
    common
}

/// The edges of the state `s` that don't lead to dead states. A free one keeps its marks only if all edges of the state have these.
fn choices<'a, A: Allocator>(
    alloc: &'a A,
    frees: &Frees<'_>,
    sets: usize,
    s: usize,
    edges: &[CodedEdge],
) -> Result<Vec<Choice, &'a A>, AllocError> {
    let common = common_marks(frees, sets, s, edges);
    let mut choices = Vec::new(alloc);
    for place in 0..edges.len() {
        let edge = edges[place];
        if !frees.is_dead(edge.target) {
            let keeps = match common {
                Some(marks) => marks == edge.marks,
                None => false,
            };
            let bare = !keeps && frees.is_free(sets, s, edge.target);
            choices.push(Choice { place, bare })?;
        }
    }
    Ok(choices)
}

/// The target of the edge at a place; `NOWHERE` if there is none.
fn target_at(edges: &[CodedEdge], place: usize) -> usize {
    if place < edges.len() {
        edges[place].target
    } else {
        NOWHERE
    }
}

/// The automaton of the states that some accepting run passes, breadth first. The initial state stays in any case.
pub(crate) fn trimming<'a, A: Allocator>(
    alloc: &'a A,
    automaton: &Gba<'_, A>,
    frees: &Frees<'_>,
) -> Result<Plan<'a, A>, AllocError> {
    let states = &automaton.states().states;
    let mut numbers: Vec<usize, &'a A> = Vec::new(alloc);
    numbers.resize(states.len(), NOWHERE)?;
    put(numbers.as_mut_slice(), 0, 0);
    let mut plan = Plan {
        sources: Vec::new(alloc),
        choices: Vec::new(alloc),
        numbers,
    };
    plan.sources.push(0)?;
    for b in 0..states.len() {
        let s = at(plan.sources.as_slice(), b);
        if s >= states.len() {
            break;
        }
        let edges = states.edges(s);
        let chosen = choices(alloc, frees, automaton.sets(), s, edges)?;
        for k in 0..chosen.len() {
            let target = target_at(edges, chosen[k].place);
            if target < states.len() && at(plan.numbers.as_slice(), target) == NOWHERE {
                let number = plan.sources.len();
                put(plan.numbers.as_mut_slice(), target, number);
                plan.sources.push(target)?;
            }
        }
        plan.choices.push(chosen)?;
    }
    Ok(plan)
}
