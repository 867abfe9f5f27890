//! Removal of implied (subsumed) edges.
//!
//! Only edges with the same target imply each other. So the edges are sorted by target, and the minimal ones of each run of one target are kept.

ghost use Rattle.std.specs.Prelude.{◌≡◌, ◌==◌, ◌<◌, ◌≤◌, ◌++◌, true, length, map, All, IfOk, OnOk};
ghost use Rattle.std.specs.List.{prefix_len};
ghost use Rattle.std.specs.List.Sorted.{IsNonDecreasingBy, IsPermutation};
ghost use Rattle.ltl_spec.specs.Collections.Sets.{IsRising};
ghost use Rattle.ltl_spec.specs.Automata.Automaton.{edge_cmp};
ghost use Rattle.ltl_spec.specs.Construction.Merging as merging;
ghost use Rattle.ltl_automaton.specs.EdgeView.{edge_of};
ghost use Rattle.ltl_automaton.specs.CodedEdges.{HaveLabels, coded_edge_of, labelled_edge_of, tables_of};
ghost use Rattle.ltl_automaton.specs.Labels.{AreTables};
ghost use Rattle.ltl_passes.specs.Runs.{AllLeadTo, IsByTarget, IsFirstLike, IsKept, IsOfWeight, IsWeighedLike, code_of, left_of, run_edge, target_of};

use least::{Below, Counting, Elements, least};
use ltl_automaton::{CodedEdge, Edge, Labels, sort_dedup};
use ltl_sets::RowSet;
use std::alloc::{AllocError, Allocator};

/// An edge of a run of edges with one target, with its labels and with numbers for them.
#[derive(Clone, Copy)]
struct RunEdge {
    edge: Edge,
    coded: CodedEdge,
}

/// An edge needs its literals, and lacks the acceptance sets that it isn't in. It asks for those that it is in.
impl Elements for RunEdge {
    ghost use Rattle.ltl_passes.specs.Runs.{elements_asked, elements_needed, is_lacked};

    ghost needs = { elements_needed };

    ghost asks = { elements_asked };

    ghost lacking = { is_lacked };

    fn needs(&self, kind: usize) -> RowSet {
        if kind == 0 {
            self.edge.cube.letter()
        } else if kind == 1 {
            self.edge.cube.forbidden()
        } else {
            RowSet::empty()
        }
    }

    fn asks(&self, kind: usize) -> RowSet {
        if kind == 0 {
            self.edge.marks
        } else {
            RowSet::empty()
        }
    }

    #[tactic(auto, using(crate::proofs::RunLaws::lacks_first, crate::proofs::RunLaws::lacks_none))]
    fn lacks(&self, kind: usize, of: &RowSet) -> RowSet {
        if kind == 0 {
            of.without(&self.edge.marks)
        } else {
            RowSet::empty()
        }
    }
}

/// An edge is below those with its target that it implies: its literals are among theirs, and it is in each acceptance set that they are in.
impl Below for RunEdge {
    ghost use Rattle.ltl_passes.specs.Runs.{is_below, below_asked, below_needed};

    ghost below = { is_below };

    fn is_below(&self, other: &RunEdge) -> bool {
        self.edge.cube.implies_of(&other.edge.cube) && other.edge.marks.is_subset(&self.edge.marks)
    }

    ghost needed = { below_needed };

    ghost lacked = { below_asked };
}

/// Of the edges below an item, only those that differ from it count.
struct Differing;

impl Counting<RunEdge> for Differing {
    ghost use Rattle.ltl_passes.specs.Runs.{is_other};

    ghost counts = { λ _ k l. is_other k l };

    #[tactic(auto, using(crate::proofs::RunLaws::same_test))]
    fn counts(&self, other: &RunEdge, item: &RunEdge) -> bool {
        !(other.edge == item.edge)
    }
}

/// The edges sorted by target.
fn sorted_by_target<'a, A: Allocator>(
    alloc: &'a A,
    edges: &[CodedEdge],
) -> Result<Vec<CodedEdge, &'a A>, AllocError>
    ensures moved { IfOk result (λ v. IsPermutation edges.now v.items) }
    ensures sorted { IfOk result (λ v. IsNonDecreasingBy (λ e. e.target) v.items) }
{
    let mut sorted = Vec::from_slice(alloc, edges)?;
    sorted.sort_unstable_by_key(|edge| edge.target);
    Ok(sorted)
}

/// The edges, each with its labels.
fn with_labels<'a, A: Allocator>(
    alloc: &'a A,
    labels: &Labels<'_>,
    edges: &[CodedEdge],
) -> Result<Vec<RunEdge, &'a A>, AllocError>
    ensures codes { IfOk result (λ v. map code_of v.items ≡ edges.now) }
    ensures labelled { IfOk result (λ v. All (λ k. run_edge k ≡ labelled_edge_of labels.now (code_of k)) v.items) }
{
    let mut order = Vec::with_capacity(alloc, edges.len())?;
    for edge in edges {
        order.push(RunEdge {
            edge: labels.edge(edge),
            coded: *edge,
        })?;
    }
    Ok(order)
}

/// The edges sorted by target, each with its labels.
fn by_target<'a, A: Allocator>(
    alloc: &'a A,
    labels: &Labels<'_>,
    edges: &[CodedEdge],
) -> Result<Vec<RunEdge, &'a A>, AllocError>
    ensures { IfOk result (λ v. IsByTarget labels.now edges.now v.items) }
{
    let sorted = sorted_by_target(alloc, edges)?;
    let order = with_labels(alloc, labels, sorted.as_slice())?;
    Ok(order)
}

/// The number of edges at the beginning that lead to this target.
fn run_len(order: &[RunEdge], target: usize) -> usize
    ensures { result ≡ prefix_len (λ k. target_of k == target) order.now }
{
    let mut len = 0;
    'run: while len < order.len() && order[len].edge.target == target {
        len += 1;
    }
    len
}

/// The weight of an edge: the number of its literals, and the number of sets, of `RowSet::LIMIT`, that it isn't in. An edge that implies another one with its
/// target weighs less.
#[inline(always)]
fn weight(edge: &Edge) -> usize
    ensures { IsOfWeight result (edge_of edge.now) }
{
    edge.cube.invariant();
    edge.marks.invariant();
    let literals = edge.cube.count();
    let marks = edge.marks.count();
    literals + (RowSet::LIMIT - marks)
}

/// Appends the edges to those that are kept.
fn put_all<'a, A: Allocator>(
    run: &[RunEdge],
    kept: &mut Vec<CodedEdge, &'a A>,
) -> Result<(), AllocError>
    ensures { OnOk result (kept.new.items ≡ kept.old.items ++ map code_of run.now) }
{
    for item in run {
        kept.push(item.coded)?;
    }
    Ok(())
}

/// Appends the edges of a run that no other one implies. All lead to the target of `first`.
fn put_least<'a, A: Allocator>(
    alloc: &'a A,
    run: &[RunEdge],
    first: &RunEdge,
    kept: &mut Vec<CodedEdge, &'a A>,
) -> Result<(), AllocError>
    requires { AllLeadTo (target_of first.now) run.now }
    ensures { OnOk result (kept.new.items ≡ kept.old.items ++ map code_of (left_of run.now)) }
{
    if run.len() < 2 {
        return put_all(run, kept);
    }
    let left = least(alloc, &Differing, run)?;
    put_all(left.as_slice(), kept)
}

/// The index of the representative of an edge's target: the noted index, if it is less than `place` and its edge has the same target, else `place`.
#[inline(always)]
fn first_like(edges: &[CodedEdge], place: usize, noted: usize) -> usize
    requires { place < length edges.now }
    ensures { IsFirstLike edges.now place noted result }
{
    if noted < place && edges[noted].target == edges[place].target {
        return noted;
    }
    place
}

/// Whether the two indices are equal or the two edges have the same weight.
fn weighs_like(labels: &Labels<'_>, edges: &[CodedEdge], first: usize, place: usize) -> bool
    requires place { place < length edges.now }
    requires first { first ≤ place }
    ensures { result ≡ true → IsWeighedLike labels.now edges.now first place }
{
    first == place || weight(&labels.edge(&edges[first])) == weight(&labels.edge(&edges[place]))
}

/// Whether all edges with one target have the same weight, for each target; then none is implied. The index of the first edge of each target is noted. The
/// initial contents of `noted` don't matter.
fn are_alike(labels: &Labels<'_>, edges: &[CodedEdge], noted: &mut [usize]) -> bool
    requires within { All (λ e. e.target < length noted.old) edges.now }
    ensures wide { length noted.new ≡ length noted.old }
    ensures alike { result ≡ true → merging.unimplied_edges (map (labelled_edge_of labels.now) edges.now) ≡ map (labelled_edge_of labels.now) edges.now }
{
    for place in 0..edges.len() {
        let target = edges[place].target;
        let first = first_like(edges, place, noted[target]);
        if !weighs_like(labels, edges, first, place) {
            return false;
        }
        noted[target] = first;
    }
    true
}

/// The edges that no other one implies, sorted by target only.
#[tactic(auto, using(crate::proofs::RunLaws::first_run, crate::proofs::RunLaws::last_run))]
fn least_of_runs<'a, A: Allocator>(
    alloc: &'a A,
    labels: &Labels<'_>,
    edges: &[CodedEdge],
) -> Result<Vec<CodedEdge, &'a A>, AllocError>
    ensures { IfOk result (λ es. IsKept labels.now edges.now es.items) }
{
    let order = by_target(alloc, labels, edges)?;
    let mut kept = Vec::new(alloc);
    let mut rest = order.as_slice();
    'runs: while let Some((first, _)) = rest.split_first() {
        let (run, others) = rest.split_at(run_len(rest, first.edge.target));
        put_least(alloc, run, first, &mut kept)?;
        rest = others;
    }
    Ok(kept)
}

/// The edges without those that another one with the same target implies. `noted` has room for an index at each target.
pub(crate) fn unimplied<'a, A: Allocator>(
    alloc: &'a A,
    labels: &Labels<'_>,
    edges: Vec<CodedEdge, &'a A>,
    noted: &mut [usize],
) -> Result<Vec<CodedEdge, &'a A>, AllocError>
    requires tables { AreTables (tables_of labels.now) }
    requires coded { HaveLabels labels.now edges.items }
    requires rising { IsRising edge_cmp (map coded_edge_of edges.items) }
    requires within { All (λ e. e.target < length noted.old) edges.items }
    ensures wide { length noted.new ≡ length noted.old }
    ensures edges { IfOk result (λ es. map (labelled_edge_of labels.now) es.items
        ≡ merging.unimplied_edges (map (labelled_edge_of labels.now) edges.entry.items)) }
    ensures coded { IfOk result (λ es. HaveLabels labels.now es.items) }
{
    if are_alike(labels, edges.as_slice(), noted) {
        return Ok(edges);
    }
    let mut kept = least_of_runs(alloc, labels, edges.as_slice())?;
    if kept.len() == edges.len() {
        return Ok(edges);
    }
    sort_dedup(&mut kept);
    Ok(kept)
}
