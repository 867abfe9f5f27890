//! Borrowed labels, and edges with the labels that their numbers refer to.

ghost use Rattle.std.specs.Prelude.{◌≡◌, ◌<◌, ◌==◌, [], length, slice_get, slice_index_or, Some};
ghost use Rattle.ltl_automaton.specs.EdgeView.{edge_of};
ghost use Rattle.ltl_automaton.specs.Labels.{labelled_edge};
ghost use Rattle.ltl_automaton.specs.CodedEdges.{coded_edge_of, edges_in, tables_of};

use crate::coded_edge::CodedEdge;
use crate::edge::Edge;
use ltl_sets::{Cube, RowSet};

/// The labels of an automaton, borrowed from its `LabelTable`.
#[derive(Clone, Copy)]
pub struct Labels<'l> {
    /// The cubes by number.
    pub cubes: &'l [Cube],
    /// The sets of marks by number.
    pub marks: &'l [RowSet],
}

impl<'l> Labels<'l> {
    /// The cube with this number; the empty cube if there is none.
    #[inline(always)]
    pub fn cube(&self, number: u32) -> Cube
        ensures { result ≡ slice_index_or self.now.cubes.now number [] }
    {
        let place = number as usize;
        if place < self.cubes.len() {
            self.cubes[place]
        } else {
            Cube::empty()
        }
    }

    /// The set of marks with this number; the empty set if there is none.
    #[inline(always)]
    pub fn marks(&self, number: u32) -> RowSet
        ensures { result ≡ slice_index_or self.now.marks.now number [] }
    {
        let place = number as usize;
        if place < self.marks.len() {
            self.marks[place]
        } else {
            RowSet::empty()
        }
    }

    /// The edge with the labels that its numbers refer to.
    #[inline(always)]
    pub fn edge(&self, coded: &CodedEdge) -> Edge
        ensures { edge_of result ≡ labelled_edge (tables_of self.now) (coded_edge_of coded.now) }
    {
        Edge {
            cube: self.cube(coded.cube),
            target: coded.target,
            marks: self.marks(coded.marks),
        }
    }
}

/// The edges of a state, in their order. A caller that needs only targets reads `coded`, and `get` returns an edge with its labels.
#[derive(Clone, Copy)]
pub struct Edges<'e> {
    /// The labels that the numbers in `coded` refer to.
    pub labels: Labels<'e>,
    /// The edges with numbers for their labels.
    pub coded: &'e [CodedEdge],
}

impl<'e> Edges<'e> {
    /// The number of edges.
    pub fn len(&self) -> usize
        ensures { result ≡ length self.now.coded.now }
    {
        self.coded.len()
    }

    /// Whether there is no edge.
    pub fn is_empty(&self) -> bool
        ensures { result ≡ (length self.now.coded.now == 0) }
    {
        self.coded.is_empty()
    }

    /// The edge at this place, with its labels. Places begin at 0.
    #[inline(always)]
    pub fn get(&self, place: usize) -> Edge
        requires { place < length self.now.coded.now }
        ensures { slice_get (edges_in self.now) place ≡ Some (edge_of result) }
    {
        self.labels.edge(&self.coded[place])
    }
}
