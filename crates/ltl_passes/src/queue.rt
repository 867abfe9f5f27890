//! A queue of states.

ghost use Rattle.std.specs.Prelude.{◌≡◌, ◌<◌, length, vec_len, All, IfOk, IfSome, OnOk};

use std::alloc::{AllocError, Allocator};

/// States that are taken in turn. A state that waits isn't queued again.
#[derive(Drop)]
pub(crate) struct Queue<'a, A: Allocator> {
    pub(crate) states: Vec<usize, &'a A>,
    pub(crate) waiting: Vec<bool, &'a A>,
    ghost inside: { All (λ s. s < vec_len waiting) states.items },
}

impl<'a, A: Allocator> Queue<'a, A> {
    /// A queue for this many states, of which none waits.
    pub(crate) fn new(alloc: &'a A, count: usize) -> Result<Self, AllocError>
        ensures { IfOk result (λ q. vec_len q.waiting ≡ count) }
    {
        let mut waiting = Vec::new(alloc);
        waiting.resize(count, false)?;
        Ok(Queue {
            states: Vec::new(alloc),
            waiting,
        })
    }

    /// Appends a state, unless it waits.
    pub(crate) fn push(&mut self, state: usize) -> Result<(), AllocError>
        requires { state < vec_len self.old.waiting }
        ensures { OnOk result (vec_len self.new.waiting ≡ vec_len self.old.waiting) }
    {
        if !self.waiting[state] {
            self.states.push(state)?;
            self.waiting[state] = true;
        }
        Ok(())
    }

    /// The state whose turn it is. It doesn't wait any longer.
    pub(crate) fn take(&mut self, turn: usize) -> Option<usize>
        ensures inside { IfSome result (λ s. s < vec_len self.old.waiting) }
        ensures wide { vec_len self.new.waiting ≡ vec_len self.old.waiting }
    {
        if turn >= self.states.len() {
            return None;
        }
        let state = self.states[turn];
        self.waiting[state] = false;
        Some(state)
    }
}
