//! Transition-based generalized Büchi automata.

ghost use Rattle.std.specs.Prelude.{◌≡◌, ◌<◌, length};
ghost use Rattle.ltl_spec.specs.Automata.Automaton.{state_at};
ghost use Rattle.ltl_automaton.specs.CodedEdges.{edges_in};
ghost use Rattle.ltl_automaton.specs.LabelTables.{HasLabels, labelled_of};
ghost use Rattle.ltl_models.specs.GbaView.{IsAcceptingGba};

use ltl_automaton::{CodedStates, Edges};
use std::alloc::Allocator;
use std::marker::Model;

/// The largest number of states that an automaton may have.
pub const MOST_STATES: usize = 65_536;

/// The largest number of edges that an automaton may have.
pub const MOST_EDGES: usize = 1_048_576;

/// A generalized Büchi automaton with acceptance sets of edges. State 0 is the initial one.
#[derive(Drop)]
pub struct Gba<'a, A: Allocator> {
    states: CodedStates<'a, A>,
}

impl<'a, A: Allocator> Model for Gba<'a, A> {
    ghost use Rattle.ltl_spec.specs.Automata.Automaton.{Automaton};
    ghost use Rattle.ltl_automaton.specs.LabelTables.{labelled_of};
    ghost use Rattle.ltl_models.specs.GbaView.{IsCodedGba, automaton_code};

    ghost Value = { Automaton };

    ghost coded = { automaton_code };

    ghost view = { λ g. labelled_of g.states };

    ghost invariant = { λ g. IsCodedGba g.states };
}

impl<'a, A: Allocator> Gba<'a, A> {
    /// The automaton with these states.
    pub fn new(states: CodedStates<'a, A>) -> Gba<'a, A>
        requires inside { IsAcceptingGba (labelled_of states) }
        requires labels { HasLabels states }
        ensures { result ≡ labelled_of states.entry }
    {
        Gba { states }
    }

    /// The states, and the table of the labels of their edges.
    pub fn states(&self) -> &CodedStates<'a, A>
        ensures automaton { labelled_of result.now ≡ self.now }
        ensures labels { HasLabels result.now }
    {
        &self.states
    }

    /// The same by value, for a caller that drops the states and keeps the table.
    pub fn into_states(self) -> CodedStates<'a, A>
        ensures automaton { labelled_of result ≡ self.entry }
        ensures labels { HasLabels result }
    {
        self.states
    }

    /// The number of states, which is at least 1.
    pub fn len(&self) -> usize
        ensures count { result ≡ length self.now.states }
    {
        self.states.len()
    }

    /// The number of acceptance sets.
    pub fn sets(&self) -> usize
        ensures count { result ≡ self.now.sets }
    {
        self.states.sets()
    }

    /// The edges of a state, with their labels. Their order depends on how the automaton was made; the type doesn't fix it.
    pub fn edges(&self, i: usize) -> Edges<'_>
        requires { i < length self.now.states }
        ensures { edges_in result ≡ (state_at self.now i).edges }
    {
        self.states.edges(i)
    }

    /// Gives a caller's proof the invariant of the type. It does nothing when it runs.
    pub fn invariant(&self)
        ensures { IsAcceptingGba self.now }
    {
        let _ = &self.states;
    }
}
