//! The automaton that a layout prints, state-based or transition-based.

ghost use Rattle.std.specs.Prelude.{◌≡◌, ◌<◌, ◌≤◌, length, sum_by};
ghost use Rattle.ltl_spec.specs.Automata.Automaton.{state_at};
ghost use Rattle.ltl_spec.specs.Tools.Limits.{stated_limits};
ghost use Rattle.ltl_automaton.specs.CodedEdges.{edges_in};
ghost use Rattle.ltl_cli.specs.Translations.{shown_in};

use ltl_automaton::Edges;
use ltl_buchi::{Ba, Gen};
use std::alloc::Allocator;

/// A Büchi automaton with accepting states, or a generalized one with acceptance sets of edges.
#[derive(Drop)]
pub enum Shown<'a, A: Allocator> {
    /// With accepting states.
    Buchi(Ba<'a, A>),
    /// With acceptance sets of edges.
    Generalized(Gen<'a, A>),
}

impl<A: Allocator> Shown<'_, A> {
    /// The number of states.
    pub fn len(&self) -> usize
        ensures { result ≡ length (shown_in self.now).states }
    {
        match self {
            Shown::Buchi(automaton) => automaton.len(),
            Shown::Generalized(automaton) => automaton.len(),
        }
    }

    /// The number of acceptance sets.
    pub fn sets(&self) -> usize
        ensures { result ≡ (shown_in self.now).sets }
    {
        match self {
            Shown::Buchi(automaton) => automaton.states().sets(),
            Shown::Generalized(automaton) => automaton.sets(),
        }
    }

    /// Whether a state is accepting. All states of a generalized automaton are.
    pub fn accepting(&self, k: usize) -> bool
        requires { k < length (shown_in self.now).states }
        ensures { result ≡ (state_at (shown_in self.now) k).accepting }
    {
        match self {
            Shown::Buchi(automaton) => automaton.accepting(k),
            Shown::Generalized(automaton) => {
                automaton.invariant();
                true
            }
        }
    }

    /// The edges of a state.
    pub fn edges(&self, k: usize) -> Edges<'_>
        requires { k < length (shown_in self.now).states }
        ensures { edges_in result ≡ (state_at (shown_in self.now) k).edges }
    {
        match self {
            Shown::Buchi(automaton) => automaton.states().edges(k),
            Shown::Generalized(automaton) => automaton.edges(k),
        }
    }

    /// States for a caller's proof that the limit on edges isn't exceeded. It does nothing.
    pub fn invariant(&self)
        ensures { sum_by (λ s. length s.edges) (shown_in self.now).states ≤ stated_limits.edges }
    {
        match self {
            Shown::Buchi(automaton) => automaton.invariant(),
            Shown::Generalized(automaton) => automaton.invariant(),
        }
    }
}
