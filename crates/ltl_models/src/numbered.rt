//! Generalized Büchi automata as they are printed.

ghost use Rattle.std.specs.Prelude.{◌≡◌, ◌<◌, ◌≤◌, length, All};
ghost use Rattle.ltl_spec.specs.Automata.Automaton.{state_at};
ghost use Rattle.ltl_automaton.specs.CodedEdges.{edges_in};
ghost use Rattle.ltl_models.specs.GbaView.{IsAcceptingGba, IsEdgeWithin};

use crate::gba::Gba;
use ltl_automaton::Edges;
use std::alloc::Allocator;
use std::marker::Model;

/// A generalized Büchi automaton as it is printed. Where `passes::generalized` of `ltl_passes` makes it, its states are numbered breadth first. State 0 is the
/// initial one. Every state is accepting, so that only the acceptance sets count.
#[derive(Drop)]
pub struct Gen<'a, A: Allocator> {
    automaton: Gba<'a, A>,
}

impl<'a, A: Allocator> Model for Gen<'a, A> {
    ghost use Rattle.ltl_spec.specs.Automata.Automaton.{Automaton};
    ghost use Rattle.ltl_automaton.specs.CodedEdges.{edges_in};
    ghost use Rattle.ltl_models.specs.GbaView.{automaton_code};

    ghost Value = { Automaton };

    ghost coded = { automaton_code };

    ghost view = { λ g. g.automaton };
}

impl<'a, A: Allocator> Gen<'a, A> {
    /// The same automaton. Its states aren't renumbered here.
    pub fn new(automaton: Gba<'a, A>) -> Self
        ensures { result ≡ automaton.entry }
    {
        Gen { automaton }
    }

    /// The number of states.
    pub fn len(&self) -> usize
        ensures count { result ≡ length self.now.states }
        ensures some { 0 < result }
        ensures few { result ≤ 65_536 }
    {
        self.automaton.invariant();
        self.automaton.len()
    }

    /// The number of acceptance sets.
    pub fn sets(&self) -> usize
        ensures count { result ≡ self.now.sets }
    {
        self.automaton.sets()
    }

    /// The edges of a state, with their labels. `passes::generalized` sorts them by label, then by target, then by acceptance sets.
    pub fn edges(&self, i: usize) -> Edges<'_>
        requires { i < length self.now.states }
        ensures edges { edges_in result ≡ (state_at self.now i).edges }
        ensures within { All (IsEdgeWithin (length self.now.states) self.now.sets) (edges_in result) }
    {
        self.automaton.invariant();
        self.automaton.edges(i)
    }

    /// Gives a caller's proof the invariant of the type. It does nothing when it runs.
    pub fn invariant(&self)
        ensures { IsAcceptingGba self.now }
    {
        self.automaton.invariant();
    }
}
