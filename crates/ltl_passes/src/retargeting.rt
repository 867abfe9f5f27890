//! Edges with their targets replaced.

ghost use Rattle.std.specs.Prelude.{◌≡◌, ◌<◌, length, map, slice_index, All, IfOk};
ghost use Rattle.ltl_spec.specs.Construction.Merging.{retargeted_edge};
ghost use Rattle.ltl_automaton.specs.CodedEdges.{coded_edge_of};
ghost use Rattle.ltl_passes.specs.Partition.{retargeted_list};

use ltl_automaton::{CodedEdge, EdgeType, sort_dedup};
use std::alloc::{AllocError, Allocator};

/// The edges with other targets.
fn retargeted_edges<'a, A: Allocator>(
    alloc: &'a A,
    edges: &[CodedEdge],
    names: &[usize],
) -> Result<Vec<CodedEdge, &'a A>, AllocError>
    requires within { All (λ e. e.target < length names.now) edges.now }
    ensures { IfOk result (λ es. map coded_edge_of es.items ≡ map (retargeted_edge (slice_index names.now)) (map coded_edge_of edges.now)) }
{
    let mut made = Vec::with_capacity(alloc, edges.len())?;
    for edge in edges {
        made.push(edge.with_target(names[edge.target]))?;
    }
    Ok(made)
}

/// The edges with other targets, sorted and without duplicates.
pub(crate) fn retargeted<'a, A: Allocator>(
    alloc: &'a A,
    edges: &[CodedEdge],
    names: &[usize],
) -> Result<Vec<CodedEdge, &'a A>, AllocError>
    requires within { All (λ e. e.target < length names.now) edges.now }
    ensures { IfOk result (λ es. map coded_edge_of es.items ≡ retargeted_list (slice_index names.now) (map coded_edge_of edges.now)) }
{
    let mut made = retargeted_edges(alloc, edges, names)?;
    sort_dedup(&mut made);
    Ok(made)
}
