//! Strongly connected components, numbered so that no edge leads to a higher number.

use crate::places::{NOWHERE, at, put};
use ltl_models::Gba;
use std::alloc::{AllocError, Allocator};

/// A state that is being visited, and the place of its next edge.
#[derive(Clone, Copy)]
struct Frame {
    state: usize,
    next: usize,
}

/// The depth-first search of Tarjan. A state's `low` is the least number that is known to be reached from it in its component.
#[derive(Drop)]
struct Visit<'a, A: Allocator> {
    numbers: Vec<usize, &'a A>,
    lows: Vec<usize, &'a A>,
    /// The states that are in no component yet, in the order of their numbers.
    open: Vec<usize, &'a A>,
    frames: Vec<Frame, &'a A>,
    components: Components<'a, A>,
}

/// For each state that is reached from state 0 its component, `NOWHERE` for the others; and the reached states in the order of their components.
#[derive(Drop)]
pub(crate) struct Components<'a, A: Allocator> {
    pub(crate) of_state: Vec<usize, &'a A>,
    pub(crate) order: Vec<usize, &'a A>,
    pub(crate) count: usize,
}

impl<'a, A: Allocator> Visit<'a, A> {
    fn new(alloc: &'a A, count: usize) -> Result<Self, AllocError> {
        let mut numbers = Vec::new(alloc);
        numbers.resize(count, NOWHERE)?;
        let mut lows = Vec::new(alloc);
        lows.resize(count, NOWHERE)?;
        let mut of_state = Vec::new(alloc);
        of_state.resize(count, NOWHERE)?;
        Ok(Visit {
            numbers,
            lows,
            open: Vec::new(alloc),
            frames: Vec::new(alloc),
            components: Components {
                of_state,
                order: Vec::new(alloc),
                count: 0,
            },
        })
    }

    /// Visits a state for the first time. `number` is the number of those before it.
    fn enter(&mut self, state: usize, number: usize) -> Result<(), AllocError> {
        put(self.numbers.as_mut_slice(), state, number);
        put(self.lows.as_mut_slice(), state, number);
        self.open.push(state)?;
        self.frames.push(Frame { state, next: 0 })?;
        Ok(())
    }

    /// Lowers the `low` of a state.
    fn lower(&mut self, state: usize, low: usize) {
        if low < at(self.lows.as_slice(), state) {
            put(self.lows.as_mut_slice(), state, low);
        }
    }

    /// Leaves a state whose edges were all taken. If no state before it is reached from it, the open states from it on are a component.
    fn leave(&mut self, state: usize) -> Result<(), AllocError> {
        let low = at(self.lows.as_slice(), state);
        if low == at(self.numbers.as_slice(), state) {
            let number = self.components.count;
            'members: while let Some(member) = self.open.pop() {
                put(self.components.of_state.as_mut_slice(), member, number);
                self.components.order.push(member)?;
                if member == state {
                    break 'members;
                }
            }
            self.components.count = number.saturating_add(1);
        }
        if let Some(above) = self.frames.last().copied() {
            self.lower(above.state, low);
        }
        Ok(())
    }
}

/// The components of the states that are reached from state 0.
pub(crate) fn search<'a, A: Allocator>(
    alloc: &'a A,
    automaton: &Gba<'_, A>,
) -> Result<Components<'a, A>, AllocError> {
    let states = &automaton.states().states;
    let count = states.len();
    let mut visit = Visit::new(alloc, count)?;
    visit.enter(0, 0)?;
    let mut seen = 1usize;
    for _ in 0..NOWHERE {
        let Some(frame) = visit.frames.pop() else {
            break;
        };
        if frame.state >= count {
            break;
        }
        let edges = states.edges(frame.state);
        if frame.next >= edges.len() {
            visit.leave(frame.state)?;
        } else {
            let target = edges[frame.next].target;
            visit.frames.push(Frame {
                state: frame.state,
                next: frame.next + 1,
            })?;
            let number = at(visit.numbers.as_slice(), target);
            if number == NOWHERE {
                visit.enter(target, seen)?;
                seen = seen.saturating_add(1);
            } else if at(visit.components.of_state.as_slice(), target) == NOWHERE {
                visit.lower(frame.state, number);
            }
        }
    }
    Ok(visit.components)
}
