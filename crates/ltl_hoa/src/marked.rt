//! The automata that the reader makes.

ghost use Rattle.std.specs.Prelude.{◌≡◌, ◌<◌, length, map, string_bytes, slice_index_or, []};
ghost use Rattle.ltl_spec.specs.Hoa.HoaReading as spec;
ghost use Rattle.ltl_hoa.specs.MarkedView.{IsMarked, edge_of};

use crate::marks::Marks;
use ltl_names::PROPOSITION_LIMIT;
use ltl_sets::Cube;
use std::alloc::Allocator;
use std::marker::Model;

/// The largest number of states that an automaton may have.
pub const MOST_STATES: usize = 65_536;

/// The largest number of edges that an automaton may have, where each cube of a label counts as an edge.
pub const MOST_EDGES: usize = 1_048_576;

/// The largest number of propositions that an automaton may list.
pub const MOST_NAMES: usize = PROPOSITION_LIMIT;

/// The largest number of acceptance sets that an automaton may have.
pub const MOST_SETS: usize = 32;

/// An edge: its label as a cube over the automaton's propositions, its target, and the acceptance sets that it belongs to.
#[derive(Clone, Copy, Debug, PartialEq, Eq)]
pub struct MarkedEdge {
    pub cube: Cube,
    pub target: usize,
    pub sets: Marks,
}

/// A generalized Büchi automaton with acceptance sets of edges, over named propositions. It has one initial state.
#[derive(Drop)]
pub struct Marked<'a, A: Allocator> {
    start: usize,
    sets: usize,
    names: Vec<String<&'a A>, &'a A>,
    states: Vec<Vec<MarkedEdge, &'a A>, &'a A>,
}

impl<'a, A: Allocator> Model for Marked<'a, A> {
    ghost use Rattle.std.specs.Prelude.{map, length as count, string_bytes};
    ghost use Rattle.ltl_spec.specs.Hoa.HoaReading.{MarkedAutomaton};
    ghost use Rattle.ltl_hoa.specs.MarkedView.{IsMarked, edge_of, marked_code};

    ghost Value = { MarkedAutomaton };

    ghost coded = { marked_code };

    ghost view = { λ m. record {
      states = count m.states.items;
      start = m.start;
      sets = m.sets;
      names = map string_bytes m.names.items;
      edges = map (λ s. map edge_of s.items) m.states.items;
    } };

    ghost invariant = { λ m. IsMarked (record {
      states = count m.states.items;
      start = m.start;
      sets = m.sets;
      names = map string_bytes m.names.items;
      edges = map (λ s. map edge_of s.items) m.states.items;
    }) };
}

impl<'a, A: Allocator> Marked<'a, A> {
    /// The automaton with these parts. `states` has the edge list of each state.
    pub(crate) fn new(
        start: usize,
        sets: usize,
        names: Vec<String<&'a A>, &'a A>,
        states: Vec<Vec<MarkedEdge, &'a A>, &'a A>,
    ) -> Marked<'a, A>
        requires { IsMarked (record {
          states = length states.items;
          start = start;
          sets = sets;
          names = map string_bytes names.items;
          edges = map (λ s. map edge_of s.items) states.items;
        }) }
        ensures { result ≡ record {
          states = length states.entry.items;
          start = start;
          sets = sets;
          names = map string_bytes names.entry.items;
          edges = map (λ s. map edge_of s.items) states.entry.items;
        } }
    {
        Marked {
            start,
            sets,
            names,
            states,
        }
    }

    /// The number of states, which is at least 1.
    pub fn len(&self) -> usize
        ensures count { result ≡ self.now.states }
        ensures edges { result ≡ length self.now.edges }
    {
        self.states.len()
    }

    /// The number of the initial state.
    pub fn start(&self) -> usize
        ensures { result ≡ self.now.start }
    {
        self.start
    }

    /// The number of acceptance sets.
    pub fn sets(&self) -> usize
        ensures { result ≡ self.now.sets }
    {
        self.sets
    }

    /// The names of the propositions, in the order of the list `AP:`. Their positions are the numbers in labels.
    pub fn names(&self) -> &[String<&'a A>]
        ensures { map string_bytes result.now ≡ self.now.names }
    {
        self.names.as_slice()
    }

    /// The edges of a state, in the order of the text. The edges of one label are sorted by their cubes.
    pub fn edges(&self, i: usize) -> &[MarkedEdge]
        requires { i < self.now.states }
        ensures { map edge_of result.now ≡ slice_index_or self.now.edges i [] }
    {
        self.states[i].as_slice()
    }

    /// Gives a caller's proof the invariant of the type. It does nothing when it runs.
    pub fn invariant(&self)
        ensures { IsMarked self.now }
    {
        let _ = &self.states;
    }
}
