//! Automata with a table of their labels.

ghost use Rattle.std.specs.Prelude.{◌≡◌, ◌<◌, length};
ghost use Rattle.ltl_spec.specs.Automata.Automaton.{state_at};
ghost use Rattle.ltl_automaton.specs.CodedEdges.{edges_in};
ghost use Rattle.ltl_automaton.specs.LabelTables.{labelled_of};

use crate::coded_edge::CodedEdge;
use crate::label_table::LabelTable;
use crate::labels::Edges;
use crate::shared::SharedStates;
use std::alloc::Allocator;

/// An automaton: the table of its labels, and its states, whose edges have numbers of that table. The table may have labels that no edge has. The type
/// doesn't require that the table is sorted or that the numbers are in it; `HasLabels` says both.
#[derive(Drop)]
pub struct CodedStates<'a, A: Allocator> {
    /// The labels by number.
    pub table: LabelTable<'a, A>,
    /// The states, with coded edges.
    pub states: SharedStates<'a, CodedEdge, A>,
}

impl<'a, A: Allocator> CodedStates<'a, A> {
    /// The number of states.
    pub fn len(&self) -> usize
        ensures { result ≡ length (labelled_of self.now).states }
    {
        self.states.len()
    }

    /// The number of acceptance sets.
    pub fn sets(&self) -> usize
        ensures { result ≡ (labelled_of self.now).sets }
    {
        self.states.sets()
    }

    /// Whether a state is accepting.
    pub fn accepting(&self, i: usize) -> bool
        requires { i < length (labelled_of self.now).states }
        ensures { result ≡ (state_at (labelled_of self.now) i).accepting }
    {
        self.states.accepting(i)
    }

    /// The edges of a state, with the labels that their numbers refer to.
    pub fn edges(&self, i: usize) -> Edges<'_>
        requires { i < length (labelled_of self.now).states }
        ensures { edges_in result ≡ (state_at (labelled_of self.now) i).edges }
    {
        Edges {
            labels: self.table.labels(),
            coded: self.states.edges(i),
        }
    }
}
