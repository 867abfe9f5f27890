//! Breadth-first construction of an automaton from its initial state.

ghost use Rattle.std.specs.Prelude.{◌≡◌, ◌<◌, ◌≤◌, ◌+◌, ◌++◌, ◌∷◌, [], fold, map};
ghost use Rattle.std.specs.Prelude.{slice_get, slice_index_or, Some, length, is_some, IfOk, IfSome, OnOk, IsErrOf, if◌then◌else◌};
ghost use Rattle.ltl_spec.specs.Collections.Lists.{with_new};
ghost use Rattle.ltl_spec.specs.Automata.Listing.{PassesLimits};
ghost use Rattle.ltl_spec.specs.Automata.Net.{IsReachable};
ghost use Rattle.ltl_automaton.specs.Net.{edge_in, edges_to, key_of, targets_of, with_made};
ghost use Rattle.ltl_automaton.specs.Net.{moves_of, edges_behind, AreListed, AreTooMany, HasSuccessorsOf, HasBegun};
ghost use Rattle.ltl_automaton.specs.Bounds.{IsBounded};
ghost use Rattle.ltl_spec.specs.Automata.Automaton.{state_at};
ghost use Rattle.ltl_automaton.specs.SharedView.{with_state};

use crate::ahead::are_too_many_ahead;
use crate::builder::Builder;
use crate::edge::EdgeType;
use crate::fault::AutomatonFault;
use crate::step::Step;
use crate::successors::Successors;
use crate::worklist::{Key, Worklist};
use std::alloc::{AllocError, Allocator};

/// The numbers of the targets. A key that isn't listed is appended. `TooLarge` if more than `most` keys are listed then.
fn numbered<'a, K: Key, E: EdgeType, T: Step<K, E>, A: Allocator>(
    alloc: &'a A,
    listing: &mut Worklist<'a, K, A>,
    steps: &[T],
    most: usize,
) -> Result<Vec<usize, &'a A>, AutomatonFault>
    ensures keys { OnOk result (listing.new.keys ≡ fold (with_new K.eq) listing.old.keys (map key_of (map T.move_of steps.now))) }
    ensures explored { listing.new.explored ≡ listing.old.explored }
    ensures edges { IfOk result (λ v. edges_to (map T.move_of steps.now) v.items ≡ map (edge_in K.eq listing.new.keys) (map T.move_of steps.now)) }
    ensures long { IfOk result (λ v. length steps.now ≡ length v.items) }
    ensures fits { OnOk result (length listing.new.keys ≤ most) }
    ensures large { IsErrOf result AutomatonFault.TooLarge → most < length (fold (with_new K.eq) listing.old.keys (map key_of (map T.move_of steps.now))) }
{
    listing.make_room(steps.len())?;
    let mut targets = Vec::with_capacity(alloc, steps.len())?;
    for step in steps {
        let target = listing.number(step.key())?;
        targets.push(target)?;
    }
    if listing.len() > most {
        return Err(AutomatonFault::TooLarge);
    }
    Ok(targets)
}

/// The sum `count + more`, or `TooLarge` if it is above `most`.
fn counted(count: usize, more: usize, most: usize) -> Result<usize, AutomatonFault>
    requires { count ≤ most }
    ensures sum { IfOk result (λ n. n ≡ count + more) }
    ensures fits { IfOk result (λ n. n ≤ most) }
    ensures large { IsErrOf result AutomatonFault.TooLarge → most < count + more }
{
    if more > most - count {
        return Err(AutomatonFault::TooLarge);
    }
    Ok(count + more)
}

/// The largest numbers of states and edges that an automaton may have.
#[derive(Clone, Copy)]
pub struct Limits {
    pub states: usize,
    pub edges: usize,
}

/// How far an exploration is.
#[derive(Drop)]
struct Progress<'a, K: Key, A: Allocator> {
    listing: Worklist<'a, K, A>,
    /// For each explored state the number of its edges, before duplicates are removed.
    lengths: Vec<usize, &'a A>,
    /// The sum of these numbers.
    edges: usize,
    /// That sum when the bound on the edges still to come was last computed.
    looked: usize,
}

impl<'a, K: Key, A: Allocator> Progress<'a, K, A> {
    /// Nothing is explored yet, and `start` waits.
    fn begin(alloc: &'a A, start: K) -> Result<Self, AllocError>
        ensures { IfOk result (λ p. HasBegun start p.listing p.lengths.items × p.edges ≡ 0) }
    {
        let mut listing = Worklist::new(alloc);
        listing.number(start)?;
        Ok(Progress {
            listing,
            lengths: Vec::new(alloc),
            edges: 0,
            looked: 0,
        })
    }
}

/// The number of an explored state that has the edges of `key`, if one is known. The explored states are the first `states` of the listing.
fn known_place<'a, K: Key, E: EdgeType, T: Step<K, E>, S: Successors<K, E, T>, A: Allocator>(
    net: &mut S,
    listing: &Worklist<'a, K, A>,
    key: &K,
    states: usize,
) -> Result<Option<usize>, AllocError>
    requires ready { S.ready net.old }
    ensures place { IfOk result (λ p. IfSome p (λ i. i < states × HasSuccessorsOf (S.net net.old) listing.now.keys i key.now)) }
    ensures same { OnOk result (S.net net.new ≡ S.net net.old) }
    ensures ready { OnOk result (S.ready net.new) }
{
    let Some(same_successors_as) = net.same_successors_as(key)? else {
        return Ok(None);
    };
    match listing.place(same_successors_as) {
        Some(place) if place < states => Ok(Some(place)),
        _ => Ok(None),
    }
}

/// Appends a state that shares the edge list of the state `place`. `TooLarge` if there are more than `most` edges then.
fn put_like<'a, K: Key, E: EdgeType, M: Builder<E> + Drop, A: Allocator>(
    progress: &mut Progress<'a, K, A>,
    made: &mut M,
    place: usize,
    accepting: bool,
    most: usize,
) -> Result<(), AutomatonFault>
    requires within { place < length progress.old.lengths.items × place < length (M.built made.old).states }
    requires ready { M.ready made.old }
    requires few { progress.old.edges ≤ most }
    ensures made { OnOk result ((M.built made.new ≡ with_state (M.built made.old) accepting (state_at (M.built made.old) place).edges) × M.ready made.new) }
    ensures listing { progress.new.listing ≡ progress.old.listing }
    ensures lengths { OnOk result (progress.new.lengths.items ≡ progress.old.lengths.items ++ slice_index_or progress.old.lengths.items place 0 ∷ []) }
    ensures sum { OnOk result (progress.new.edges ≡ progress.old.edges + slice_index_or progress.old.lengths.items place 0 × progress.new.edges ≤ most) }
    ensures large { IsErrOf result AutomatonFault.TooLarge → most < progress.old.edges + slice_index_or progress.old.lengths.items place 0 }
{
    let length = progress.lengths[place];
    progress.edges = counted(progress.edges, length, most)?;
    progress.lengths.push(length)?;
    made.push_like(accepting, place)?;
    Ok(())
}

/// Appends the state of `key` with edges of its own, and lists their targets. `TooLarge` if a limit is exceeded then.
fn put_new<
    'a,
    K: Key,
    E: EdgeType,
    T: Step<K, E>,
    S: Successors<K, E, T>,
    M: Builder<E> + Drop,
    A: Allocator,
>(
    alloc: &'a A,
    net: &mut S,
    progress: &mut Progress<'a, K, A>,
    made: &mut M,
    key: &K,
    limits: Limits,
) -> Result<(), AutomatonFault>
    requires ready { S.ready net.old × M.ready made.old }
    requires few { progress.old.edges ≤ limits.edges }
    ensures net { OnOk result ((S.net net.new ≡ S.net net.old) × S.ready net.new) }
    ensures listed { OnOk result (AreListed K.eq (S.net net.old) key.now progress.old.listing progress.new.listing
        × length progress.new.listing.keys ≤ limits.states) }
    ensures made { OnOk result ((M.built made.new ≡ with_made K.eq M.sorts (S.net net.old) key.now progress.new.listing.keys (M.built made.old))
        × M.ready made.new) }
    ensures lengths { OnOk result (progress.new.lengths.items ≡ progress.old.lengths.items ++ length ((S.net net.old).successors key.now) ∷ []) }
    ensures sum { OnOk result (progress.new.edges ≡ progress.old.edges + length ((S.net net.old).successors key.now) × progress.new.edges ≤ limits.edges) }
    ensures large { IsErrOf result AutomatonFault.TooLarge
        → AreTooMany K.eq (S.net net.old) key.now progress.old.listing progress.old.edges limits.states limits.edges }
{
    net.prepare(key, limits.edges - progress.edges)?;
    let steps = net.steps();
    progress.edges = counted(progress.edges, steps.len(), limits.edges)?;
    progress.lengths.push(steps.len())?;
    let targets = numbered(alloc, &mut progress.listing, steps, limits.states)?;
    made.push_steps(net.accepting(key), steps, targets.as_slice())?;
    Ok(())
}

/// The next key of the worklist, `None` at its end, or `TooLarge` as soon as more than `most` edges are certain.
fn take_next<'a, K: Key, E: EdgeType, T: Step<K, E>, S: Successors<K, E, T>, A: Allocator>(
    net: &mut S,
    progress: &mut Progress<'a, K, A>,
    most: usize,
) -> Result<Option<K>, AutomatonFault>
    requires ready { S.ready net.old }
    requires few { progress.old.edges ≤ most }
    ensures next { IfOk result (λ k. k ≡ slice_get progress.old.listing.keys progress.old.listing.explored) }
    ensures explored { IfOk result (λ k. progress.new.listing.explored
        ≡ (if is_some k then progress.old.listing.explored + 1 else progress.old.listing.explored)) }
    ensures keys { progress.new.listing.keys ≡ progress.old.listing.keys }
    ensures same { progress.new.edges ≡ progress.old.edges × progress.new.lengths.items ≡ progress.old.lengths.items }
    ensures net { OnOk result ((S.net net.new ≡ S.net net.old) × S.ready net.new) }
    ensures large { IsErrOf result AutomatonFault.TooLarge
        → most < progress.old.edges + edges_behind (S.net net.old) progress.old.listing.keys progress.old.listing.explored }
{
    let count = progress.edges;
    if are_too_many_ahead(net, &progress.listing, &mut progress.looked, count, most)? {
        return Err(AutomatonFault::TooLarge);
    }
    Ok(progress.listing.next())
}

/// The automaton of the states that are reachable from `start`. State 0 is `start`; the others are numbered breadth first. The builder determines whether
/// the edges of a state keep the order in which `net` lends them, or are sorted and without duplicates. A limit counts edges before duplicates are removed.
/// The states are appended to `builder`, which has none yet and whose number of acceptance sets stays. The result is this builder.
pub fn explore_from<
    'a,
    K: Key,
    E: EdgeType,
    T: Step<K, E>,
    S: Successors<K, E, T>,
    M: Builder<E> + Drop,
    A: Allocator,
>(alloc: &'a A, start: K, builder: M, net: &mut S, limits: Limits) -> Result<M, AutomatonFault>
    requires some { 0 < limits.states }
    requires ready { S.ready net.old × M.ready builder }
    requires begun { (M.built builder).states ≡ [] }
    ensures reachable { IfOk result (λ m. IsReachable K.eq M.sorts (moves_of (S.net net.old)) start (M.built builder).sets (M.built m)) }
    ensures bounded { IfOk result (λ m. IsBounded limits.states limits.edges (M.built m)) }
    ensures built { IfOk result (λ m. M.ready m) }

    // The result is `TooLarge` if and only if a limit is passed, unless memory is refused before.
    ensures fits { OnOk result (¬ (PassesLimits K.eq (targets_of (S.net net.old)) start limits.states limits.edges)) }
    ensures large { IsErrOf result AutomatonFault.TooLarge → PassesLimits K.eq (targets_of (S.net net.old)) start limits.states limits.edges }
{
    let mut progress = Progress::begin(alloc, start)?;
    let mut made = builder;
    'things: while let Some(key) = take_next(net, &mut progress, limits.edges)? {
        if let Some(place) = known_place(net, &progress.listing, &key, made.len())? {
            let accepting = net.accepting(&key);
            put_like(&mut progress, &mut made, place, accepting, limits.edges)?;
        } else {
            put_new(alloc, net, &mut progress, &mut made, &key, limits)?;
        }
    }
    Ok(made)
}
