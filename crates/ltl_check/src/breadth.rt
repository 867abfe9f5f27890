//! Breadth-first search for a lasso: places are met in the order of the number of edges that lead to them.

ghost use Rattle.std.specs.Prelude.{◌≡◌, ℕ, ◌+◌, ◌<◌, ◌≤◌, ◌^◌, List, length, slice_get, Some, true, IfOk, IfSome, OnOk, Ok, None};
ghost use Rattle.ltl_check.specs.declared.place.Place.{Place};
ghost use Rattle.ltl_check.specs.Nets.{Net};
ghost use Rattle.ltl_check.specs.Explored.{counted};
ghost use Rattle.ltl_check.specs.Places.{IsGoal, is_base, begun, further};
ghost use Rattle.ltl_check.specs.Breadth.{Listed, IsSameLayer, HasPut, HasBranched, IsBegunAt, AreListed, StandsOn, StandsPast, Expands, HasGoal, IsLassoOf, IsPaid, IsWithin};

use crate::graph::Step;
use crate::net::Numbered;
use crate::place::{Arrival, Bases, Place};
use crate::walk::{Taken, Walk};
use ltl_automaton::Interner;
use ltl_sets::RowSet;
use std::alloc::{AllocError, Allocator};

/// Which lassos are searched for: the number of sets, and the states in which a cycle may begin.
#[derive(Clone, Copy)]
pub(crate) struct Task {
    pub(crate) sets: usize,
    pub(crate) bases: Bases,
}

/// How a search ends.
#[derive(Clone, Copy)]
pub(crate) enum Outcome {
    /// Nothing was found so far.
    Nothing,
    /// The place with this number closes a lasso.
    Closed(usize),
    /// No look is left.
    Spent,
}

/// The places that were met, and how. The places before `at` have been looked at, `left` more looks are allowed. All places that at most `depth` edges
/// lead to stand before `end`.
#[derive(Drop)]
pub(crate) struct Breadth<'a, A: Allocator> {
    places: Interner<'a, Place, A>,
    arrivals: Vec<Arrival, &'a A>,
    at: usize,
    end: usize,
    depth: usize,
    left: usize,
}

impl<'a, A: Allocator> Breadth<'a, A> {
    /// The search before its first look.
    pub(crate) fn new<N: Numbered>(alloc: &'a A, net: &N, left: usize) -> Result<Self, AllocError>
        ensures begun { IfOk result (λ b. (task : Task) → StandsOn (N.net net.now) task b) }
        ensures depth { IfOk result (λ b. b.depth ≡ 0) }
        ensures left { IfOk result (λ b. b.left ≡ left) }
    {
        let start = net.start();
        let mut places = Interner::new(alloc);
        let place = Place {
            base: 0,
            state: start,
            marks: RowSet::empty(),
        };
        places.number(place)?;
        let mut arrivals = Vec::new(alloc);
        let taken = Taken {
            state: start,
            pick: 0,
            letter: RowSet::empty(),
        };
        arrivals.push(Arrival {
            from: 0,
            depth: 0,
            taken,
        })?;
        Ok(Breadth {
            places,
            arrivals,
            at: 0,
            end: 1,
            depth: 0,
            left,
        })
    }

    /// Adds a place, unless it is there.
    fn add(&mut self, place: &Place, arrival: &Arrival) -> Result<usize, AllocError>
        ensures there { IfOk result (λ i. slice_get self.new.places.keys i ≡ Some place.now) }
        ensures put { OnOk result (HasPut self.old place.now arrival.now self.new) }
        ensures left { self.new.left ≡ self.old.left }
    {
        let count = self.places.len();
        let number = self.places.number(*place)?;
        if self.places.len() == count {
            return Ok(number);
        }
        self.arrivals.push(*arrival)?;
        Ok(number)
    }

    /// Adds a place, and tells its number if it closes a lasso.
    fn meet(
        &mut self,
        place: &Place,
        arrival: &Arrival,
        sets: usize,
    ) -> Result<Option<usize>, AllocError>
        requires { place.now.state < 2 ^ 63 }
        ensures put { OnOk result (HasPut self.old place.now arrival.now self.new) }
        ensures left { self.new.left ≡ self.old.left }
        ensures closed { IfOk result (λ r. IfSome r (λ i. (slice_get self.new.places.keys i ≡ Some place.now) × IsGoal sets place.now)) }
        ensures listed { OnOk result (Listed self.new.places.keys (length self.new.places.keys) place.now) }
        ensures open { result ≡ Ok None → IsGoal sets place.now → ⊥ }
    {
        let number = self.add(place, arrival)?;
        if place.is_goal(sets) {
            return Ok(Some(number));
        }
        Ok(None)
    }

    /// Adds both places behind an edge of the stem: the stem goes on, or a cycle begins in state `n`, which the edge leaves.
    fn branch(
        &mut self,
        n: usize,
        step: &Step<usize>,
        arrival: &Arrival,
        task: Task,
    ) -> Result<Option<usize>, AllocError>
        requires { (n < 2 ^ 63) × (step.now.target < 2 ^ 63) }
        ensures put { OnOk result (HasBranched task.bases self.old n step.now arrival.now self.new) }
        ensures left { self.new.left ≡ self.old.left }
        ensures closed { IfOk result (λ r. IfSome r (λ i. IsBegunAt task self.new.places.keys n step.now i)) }
        ensures listed { OnOk result (AreListed task.bases self.new.places.keys n step.now) }
        ensures open { result ≡ Ok None → is_base task.bases n ≡ true → IsGoal task.sets (begun n step.now) → ⊥ }
    {
        let further = Place::on_stem(step);
        self.add(&further, arrival)?;
        if !task.bases.have(n) {
            return Ok(None);
        }
        let begun = Place::begun(n, step);
        self.meet(&begun, arrival, task.sets)
    }

    /// Adds the place behind an edge of the cycle.
    fn go_on(
        &mut self,
        here: &Place,
        step: &Step<usize>,
        arrival: &Arrival,
        sets: usize,
    ) -> Result<Option<usize>, AllocError>
        requires { step.now.target < 2 ^ 63 }
        ensures put { OnOk result (HasPut self.old (further here.now step.now) arrival.now self.new) }
        ensures left { self.new.left ≡ self.old.left }
        ensures closed { IfOk result (λ r. IfSome r (λ i. (slice_get self.new.places.keys i ≡ Some (further here.now step.now))
            × IsGoal sets (further here.now step.now))) }
        ensures listed { OnOk result (Listed self.new.places.keys (length self.new.places.keys) (further here.now step.now)) }
        ensures open { result ≡ Ok None → IsGoal sets (further here.now step.now) → ⊥ }
    {
        let further = here.further(step);
        self.meet(&further, arrival, sets)
    }

    /// One look from the place `at`.
    fn look<N: Numbered>(
        &mut self,
        net: &N,
        task: Task,
        k: usize,
        looks: &mut N::Looks,
    ) -> Result<Option<usize>, AllocError>
        requires expands { Expands (N.net net.now) task self.old k }
        requires more { (p : Place) → slice_get self.old.places.keys self.old.at ≡ Some p → k < (N.net net.now).pairs p.state }
        requires within { IsWithin (N.net net.now) self.old }
        ensures on { result ≡ Ok None → Expands (N.net net.now) task self.new (k + 1) }
        ensures closed { IfOk result (λ r. IfSome r (λ i. HasGoal (N.net net.now) task self.new i)) }
        ensures same { OnOk result (IsSameLayer self.old self.new) }
        ensures left { self.new.left ≡ self.old.left }
        ensures looked { N.looked_of looks.new ≡ counted (N.looked_of looks.old) 1 }
    {
        let here = *self.places.get(self.at);
        let depth = self.arrivals[self.at].depth + 1;
        let Some(step) = net.look(here.state, k, looks) else {
            return Ok(None);
        };
        let taken = Taken {
            state: here.state,
            pick: k,
            letter: step.letter,
        };
        let arrival = Arrival {
            from: self.at,
            depth,
            taken,
        };
        if here.base > 0 {
            self.go_on(&here, &step, &arrival, task.sets)
        } else {
            self.branch(here.state, &step, &arrival, task)
        }
    }

    /// All looks from the place `at`.
    fn expand<N: Numbered>(
        &mut self,
        net: &N,
        task: Task,
        looks: &mut N::Looks,
    ) -> Result<Outcome, AllocError>
        requires stands { StandsOn (N.net net.now) task self.old }
        requires more { self.old.at < self.old.end }
        requires within { IsWithin (N.net net.now) self.old }
        ensures on { result ≡ Ok Outcome.Nothing → StandsPast (N.net net.now) task self.new }
        ensures closed { (i : ℕ) → result ≡ Ok (Outcome.Closed i) → HasGoal (N.net net.now) task self.new i }
        ensures same { OnOk result (IsSameLayer self.old self.new) }
        ensures paid { IsPaid (N.looked_of looks.old) (N.looked_of looks.new) self.old.left self.new.left }
        ensures spent { result ≡ Ok Outcome.Spent → self.new.left ≡ 0 }
    {
        let mut k = 0usize;
        'looks: while k < net.pairs_at(self.places.get(self.at).state) {
            if self.left == 0 {
                return Ok(Outcome::Spent);
            }
            self.left -= 1;
            match self.look(net, task, k, looks)? {
                Some(number) => return Ok(Outcome::Closed(number)),
                None => k += 1,
            }
        }
        Ok(Outcome::Nothing)
    }

    /// All looks from the places before `end`.
    fn layer<N: Numbered>(
        &mut self,
        net: &N,
        task: Task,
        looks: &mut N::Looks,
    ) -> Result<Outcome, AllocError>
        requires stands { StandsOn (N.net net.now) task self.old }
        requires within { IsWithin (N.net net.now) self.old }
        ensures on { result ≡ Ok Outcome.Nothing → StandsOn (N.net net.now) task self.new × (self.new.end ≤ self.new.at) }
        ensures closed { (i : ℕ) → result ≡ Ok (Outcome.Closed i) → HasGoal (N.net net.now) task self.new i }
        ensures same { OnOk result (self.new.depth ≡ self.old.depth) }
        ensures paid { IsPaid (N.looked_of looks.old) (N.looked_of looks.new) self.old.left self.new.left }
        ensures spent { result ≡ Ok Outcome.Spent → self.new.left ≡ 0 }
    {
        'layer: while self.at < self.end {
            match self.expand(net, task, looks)? {
                Outcome::Nothing => self.at += 1,
                other => return Ok(other),
            }
        }
        Ok(Outcome::Nothing)
    }

    /// Searches until a lasso is closed, no look is left, or it is sure that no lasso has fewer than `limit` edges.
    pub(crate) fn search<N: Numbered>(
        &mut self,
        net: &N,
        task: Task,
        limit: usize,
        looks: &mut N::Looks,
    ) -> Result<Outcome, AllocError>
        requires stands { StandsOn (N.net net.now) task self.old }
        requires few { IsWithin (N.net net.now) self.old }
        ensures closed { (i : ℕ) → result ≡ Ok (Outcome.Closed i) → HasGoal (N.net net.now) task self.new i × (self.new.depth + 1 < limit) }
        ensures none { result ≡ Ok Outcome.Nothing → StandsOn (N.net net.now) task self.new × (limit ≤ self.new.depth + 1) }
        ensures paid { IsPaid (N.looked_of looks.old) (N.looked_of looks.new) self.old.left self.new.left }
        ensures spent { result ≡ Ok Outcome.Spent → self.new.left ≡ 0 }
    {
        'layers: while self.depth + 1 < limit {
            match self.layer(net, task, looks)? {
                Outcome::Nothing => {
                    self.depth += 1;
                    self.end = self.places.len();
                }
                other => return Ok(other),
            }
        }
        Ok(Outcome::Nothing)
    }

    /// The lasso that the place with this number closes.
    pub(crate) fn lasso(&self, alloc: &'a A, number: usize) -> Result<Walk<'a, A>, AllocError>
        requires { (N : Net) × ((task : Task) × HasGoal N task self.now number) }
        ensures { IfOk result (λ w. (N : Net) (task : Task) → HasGoal N task self.now number → IsLassoOf N task self.now w.stem.items w.cycle.items) }
    {
        let mut stem = Vec::new(alloc);
        let mut cycle = Vec::new(alloc);
        let mut at = number;
        'back: while self.arrivals[at].depth > 0 {
            let arrival = self.arrivals[at];
            if self.places.get(at).base > 0 {
                cycle.push(arrival.taken)?;
            } else {
                stem.push(arrival.taken)?;
            }
            at = arrival.from;
        }
        stem.reverse();
        cycle.reverse();
        Ok(Walk { stem, cycle })
    }
}
