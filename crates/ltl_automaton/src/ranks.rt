//! The places of labels in a sorted table. Edges get them in place of the numbers in which their labels came.

ghost use Rattle.std.specs.Prelude.{◌≡◌, map, All};
ghost use Rattle.ltl_automaton.specs.CodedEdges.{coded_edge_of};
ghost use Rattle.ltl_automaton.specs.LabelTables.{HasRanks, ranked_edge};

use crate::coded_edge::CodedEdge;
use crate::label_table::LabelTable;
use std::alloc::Allocator;

/// The labels, sorted. For each label, by its number in the builder, `cubes` or `marks` has its place in the table.
#[derive(Drop)]
pub(crate) struct Ranks<'a, A: Allocator> {
    pub(crate) table: LabelTable<'a, A>,
    pub(crate) cubes: Vec<u32, &'a A>,
    pub(crate) marks: Vec<u32, &'a A>,
}

impl<'a, A: Allocator> Ranks<'a, A> {
    /// Replaces the numbers of the labels of each edge by the places of these labels in the table.
    pub(crate) fn relabel(&self, edges: &mut [CodedEdge])
        requires { All (HasRanks self.now) (map coded_edge_of edges.old) }
        ensures { map coded_edge_of edges.new ≡ map (ranked_edge self.now) (map coded_edge_of edges.old) }
    {
        for i in 0..edges.len() {
            let edge = edges[i];
            edges[i] = CodedEdge {
                cube: self.cubes[edge.cube as usize],
                marks: self.marks[edge.marks as usize],
                target: edge.target,
            };
        }
    }
}
