//! Automata under construction, as `explore_from` needs them.

ghost use Rattle.std.specs.Prelude.{◌≡◌, ◌<◌, ⊤, Bool, true, length, map, OnOk};
ghost use Rattle.ltl_spec.specs.Automata.Automaton as spec;
ghost use Rattle.ltl_spec.specs.Automata.Automaton.{state_at};
ghost use Rattle.ltl_automaton.specs.Net.{edges_to, listed_by};
ghost use Rattle.ltl_automaton.specs.SharedView.{automaton_of, with_state};

use crate::edge::EdgeType;
use crate::shared::SharedStates;
use crate::step::Step;
use crate::worklist::Key;
use std::alloc::{AllocError, Allocator};

/// An automaton under construction. States are appended one at a time, and numbered from 0 in this order. `E` is the type of the edges that are passed in.
/// Nothing is promised of a builder after a call that failed.
pub trait Builder<E: EdgeType> {
    // the automaton of the states so far
    ghost built: { Self → spec.Automaton };

    // whether the edges of a state are sorted, and duplicates removed
    ghost sorts: { Bool };

    // the invariant, which `push_steps` and `push_like` require and keep
    ghost ready: { Self → Type 0 };

    /// The number of states so far.
    fn len(&self) -> usize
        ensures { result ≡ length (built self.now).states };

    /// Appends a state with the edges of `steps` to the states with the numbers `targets`, which needn't exist yet.
    fn push_steps<K: Key, T: Step<K, E>>(
        &mut self,
        accepting: bool,
        steps: &[T],
        targets: &[usize],
    ) -> Result<(), AllocError>
        requires ready { ready self.old }
        requires long { length steps.now ≡ length targets.now }
        ensures built { OnOk result (built self.new
            ≡ with_state (built self.old) accepting (listed_by sorts (edges_to (map T.move_of steps.now) targets.now))) }
        ensures ready { OnOk result (ready self.new) };

    /// Appends a state with the edges of state `i`, which was appended before.
    fn push_like(&mut self, accepting: bool, i: usize) -> Result<(), AllocError>
        requires ready { ready self.old }
        requires within { i < length (built self.old).states }
        ensures built { OnOk result (built self.new ≡ with_state (built self.old) accepting (state_at (built self.old) i).edges) }
        ensures ready { OnOk result (ready self.new) };
}

impl<'a, E: EdgeType, A: Allocator> Builder<E> for SharedStates<'a, E, A> {
    ghost built = { automaton_of };

    ghost sorts = { true };

    ghost ready = { λ _. ⊤ };

    fn len(&self) -> usize {
        self.len()
    }

    fn push_steps<K: Key, T: Step<K, E>>(
        &mut self,
        accepting: bool,
        steps: &[T],
        targets: &[usize],
    ) -> Result<(), AllocError> {
        self.push_steps(accepting, steps, targets)
    }

    fn push_like(&mut self, accepting: bool, i: usize) -> Result<(), AllocError> {
        self.push_like(accepting, i)
    }
}
