//! The classes of states with equal edges up to classes, found by rounds that begin with each state as a class of its own.

ghost use Rattle.std.specs.Prelude.{◌≡◌, ◌<◌, List, ◌++◌, length, map, slice_get, slice_index, Some, All, IfOk, OnOk};
ghost use Rattle.std.specs.List.{range_with_len};
ghost use Rattle.ltl_spec.specs.Collections.Lists.{HasNoRepeats};
ghost use Rattle.ltl_spec.specs.Automata.Automaton as spec;
ghost use Rattle.ltl_spec.specs.Construction.Merging as merging;
ghost use Rattle.ltl_automaton.specs.CodedEdges.{coded_edge_of};
ghost use Rattle.ltl_automaton.specs.SharedView.{automaton_of};
ghost use Rattle.ltl_passes.specs.Worklist.{AreFiner, IsRound};
ghost use Rattle.ltl_passes.specs.Partition.{AreListsWithin, AreSignatures, IsFirstPlaces, IsLeastAlike, IsLeastPlaces, IsWithinStates, place_signature, list_view};

use crate::retargeting::retargeted;
use crate::worklist::coarsened;
use ltl_automaton::{CodedEdge, EdgeList, Interner, SharedState, SharedStates};
use std::alloc::{AllocError, Allocator};

/// An interner of signatures of edge lists: a list with its targets replaced by the names of their classes.
pub(crate) type ListInterner<'a, A> = Interner<'a, EdgeList<'a, CodedEdge, A>, A>;

/// An interner of signatures of states: the signature number of its list, and whether it is accepting.
type StateInterner<'a, A> = Interner<'a, SharedState, A>;

/// The partition in which each state is a class.
pub(crate) fn own_names<'a, A: Allocator>(
    alloc: &'a A,
    count: usize,
) -> Result<Vec<usize, &'a A>, AllocError>
    ensures { IfOk result (λ v. v.items ≡ range_with_len 0 count) }
{
    let mut names = Vec::new(alloc);
    for s in 0..count {
        names.push(s)?;
    }
    Ok(names)
}

/// The number of the signature of an edge list. A new signature gets the next number.
pub(crate) fn signature<'a, A: Allocator>(
    seen: &mut ListInterner<'a, A>,
    edges: Vec<CodedEdge, &'a A>,
) -> Result<usize, AllocError>
    ensures place { IfOk result (λ i. slice_get seen.new.keys i ≡ Some (map coded_edge_of edges.entry.items)) }
    ensures distinct { OnOk result (HasNoRepeats seen.old.keys → HasNoRepeats seen.new.keys) }
    ensures extends { OnOk result ((more : List (List spec.Edge)) × (seen.new.keys ≡ seen.old.keys ++ more)) }
{
    let place = seen.number(EdgeList::new(edges))?;
    Ok(place)
}

/// The signature numbers of all edge lists, if their targets have these names.
fn list_signatures_under<'a, A: Allocator>(
    alloc: &'a A,
    seen: &mut ListInterner<'a, A>,
    states: &SharedStates<'_, CodedEdge, A>,
    names: &[usize],
) -> Result<Vec<usize, &'a A>, AllocError>
    requires within { AreListsWithin states.now.lists (length names.now) }
    requires distinct { HasNoRepeats seen.old.keys }
    ensures { IfOk result (λ v. AreSignatures (length states.now.lists) (list_view states.now.lists (slice_index names.now)) seen.new.keys v.items) }
{
    let mut signatures = Vec::new(alloc);
    for list in 0..states.list_count() {
        let view = retargeted(alloc, states.list_edges(list), names)?;
        signatures.push(signature(seen, view)?)?;
    }
    Ok(signatures)
}

/// For each signature that occurs the index of its first occurrence.
fn first_places<'a, A: Allocator>(
    alloc: &'a A,
    signatures: &[usize],
    count: usize,
) -> Result<Vec<usize, &'a A>, AllocError>
    requires within { All (λ c. c < count) signatures.now }
    ensures { IfOk result (λ v. IsFirstPlaces signatures.now count 0 v.items) }
{
    let mut firsts = Vec::new(alloc);
    firsts.resize(count, 0)?;
    let mut s = signatures.len();
    'states: while s > 0 {
        s -= 1;
        firsts[signatures[s]] = s;
    }
    Ok(firsts)
}

/// For each state the least state with the same signature.
pub(crate) fn least_places<'a, A: Allocator>(
    alloc: &'a A,
    signatures: &[usize],
    count: usize,
) -> Result<Vec<usize, &'a A>, AllocError>
    requires within { All (λ c. c < count) signatures.now }
    ensures { IfOk result (λ v. IsLeastPlaces signatures.now v.items) }
{
    let firsts = first_places(alloc, signatures, count)?;
    let mut names = Vec::new(alloc);
    for signature in signatures {
        names.push(firsts[*signature])?;
    }
    Ok(names)
}

/// The number of the signature of a state. A new signature gets the next number.
fn state_signature<A: Allocator>(
    places: &mut StateInterner<'_, A>,
    state: SharedState,
) -> Result<usize, AllocError>
    ensures place { IfOk result (λ i. slice_get places.new.keys i ≡ Some state) }
    ensures distinct { OnOk result (HasNoRepeats places.old.keys → HasNoRepeats places.new.keys) }
    ensures extends { OnOk result ((more : List SharedState) × (places.new.keys ≡ places.old.keys ++ more)) }
{
    let signature = places.number(state)?;
    Ok(signature)
}

/// The signature numbers of the states, from those of their lists.
fn state_signatures<'a, A: Allocator>(
    alloc: &'a A,
    places: &mut StateInterner<'a, A>,
    states: &SharedStates<'_, CodedEdge, A>,
    list_signatures: &[usize],
) -> Result<Vec<usize, &'a A>, AllocError>
    requires long { length list_signatures.now ≡ length states.now.lists }
    requires distinct { HasNoRepeats places.old.keys }
    ensures { IfOk result (λ v. AreSignatures (length states.now.states) (place_signature states.now.states list_signatures.now) places.new.keys v.items) }
{
    let mut signatures = Vec::new(alloc);
    for s in 0..states.len() {
        let state = states.state(s);
        let coded = SharedState {
            list: list_signatures[state.list],
            accepting: state.accepting,
        };
        signatures.push(state_signature(places, coded)?)?;
    }
    Ok(signatures)
}

/// For each state the least state with the same acceptance and a list of the same signature.
fn least_alike<'a, A: Allocator>(
    alloc: &'a A,
    states: &SharedStates<'_, CodedEdge, A>,
    list_signatures: &[usize],
) -> Result<Vec<usize, &'a A>, AllocError>
    requires long { length list_signatures.now ≡ length states.now.lists }
    ensures { IfOk result (λ v. IsLeastAlike (length states.now.states) (place_signature states.now.states list_signatures.now) v.items) }
{
    let mut places: StateInterner<'a, A> = Interner::new(alloc);
    places.make_room(states.len())?;
    let signatures = state_signatures(alloc, &mut places, states, list_signatures)?;
    least_places(alloc, signatures.as_slice(), places.len())
}

/// The names after one more round.
fn next_names<'a, A: Allocator>(
    alloc: &'a A,
    states: &SharedStates<'_, CodedEdge, A>,
    names: &[usize],
) -> Result<Vec<usize, &'a A>, AllocError>
    requires within { IsWithinStates (automaton_of states.now).states }
    requires finer { AreFiner (automaton_of states.now) names.now }
    ensures { IfOk result (λ v. IsRound (automaton_of states.now) names.now v.items) }
{
    states.invariant();
    let mut seen: ListInterner<'a, A> = Interner::new(alloc);
    seen.make_room(states.list_count())?;
    let signatures = list_signatures_under(alloc, &mut seen, states, names)?;
    least_alike(alloc, states, signatures.as_slice())
}

/// Merges classes until a round changes nothing. Between rounds, merging goes on by a worklist.
fn refined<'a, A: Allocator>(
    alloc: &'a A,
    states: &SharedStates<'_, CodedEdge, A>,
    fine: Vec<usize, &'a A>,
) -> Result<Vec<usize, &'a A>, AllocError>
    requires within { IsWithinStates (automaton_of states.now).states }
    requires finer { AreFiner (automaton_of states.now) fine.items }
    ensures { IfOk result (λ v. v.items ≡ merging.class_names (automaton_of states.now) (length (automaton_of states.now).states)) }
{
    let mut names = fine;
    for round in 0..states.len() {
        let next = next_names(alloc, states, names.as_slice())?;
        if next.as_slice() == names.as_slice() {
            return Ok(names);
        }
        names = coarsened(alloc, states, next)?;
    }
    Ok(names)
}

/// For each state the name of its class, which is the least state of the class. At first each state is a class. In the next round two states are in one class
/// if both or neither is accepting and their edges are equal up to the classes of the targets, until nothing changes.
pub(crate) fn class_names<'a, A: Allocator>(
    alloc: &'a A,
    states: &SharedStates<'_, CodedEdge, A>,
) -> Result<Vec<usize, &'a A>, AllocError>
    requires within { IsWithinStates (automaton_of states.now).states }
    ensures { IfOk result (λ v. v.items ≡ merging.class_names (automaton_of states.now) (length (automaton_of states.now).states)) }
{
    let names = own_names(alloc, states.len())?;
    refined(alloc, states, names)
}
