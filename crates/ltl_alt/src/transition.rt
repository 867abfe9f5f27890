//! Transitions of the generalized automaton.

ghost use Rattle.std.specs.Prelude.{◌≡◌, ◌+◌, length};
ghost use Rattle.std.specs.Ordering.{is_ne};
ghost use Rattle.ltl_spec.specs.Transitions.RowTransitions.{implies, transition_cmp};
ghost use Rattle.ltl_alt.specs.ProductView.{join_transitions};

use crate::support::needs;
use least::{Below, Counting, Elements};
use ltl_sets::{Cube, RowSet};
use std::cmp::Ordering;
use std::hash::Hash;
use std::marker::Model;

/// A transition: its literals, its target, which is a set of rows, and its marks: the numbers, among the until rows, of those that it doesn't postpone.
#[derive(Clone, Copy, PartialEq, Eq, Hash)]
pub(crate) struct Transition {
    pub(crate) cube: Cube,
    pub(crate) targets: RowSet,
    pub(crate) marks: RowSet,
}

impl Model for Transition {
    ghost use Rattle.ltl_spec.specs.Transitions.RowTransitions as spec;
    ghost use Rattle.ltl_alt.specs.Codes.{transition_code};

    ghost Value = { spec.Transition };

    ghost coded = { transition_code };

    ghost view = { λ t. record { cube = t.cube; targets = t.targets; marks = t.marks } };

    ghost inverse = { λ t. record { cube = t.cube; targets = t.targets; marks = t.marks } };
}

impl Transition {
    /// The union of both transitions' literals and targets, with the marks that both have, or `None` if their literals contradict each other.
    pub(crate) fn at_once(&self, other: &Transition) -> Option<Transition>
        ensures { result ≡ join_transitions self.now other.now }
    {
        let cube = self.cube.join(&other.cube)?;
        Some(Transition {
            cube,
            targets: self.targets.union(&other.targets),
            marks: self.marks.common(&other.marks),
        })
    }

    /// Whether this transition's literals and targets are among the other's, and the other's marks among its own.
    fn implies(&self, other: &Transition) -> bool
        ensures { result ≡ implies self.now other.now }
    {
        self.cube.implies_of(&other.cube)
            && self.targets.is_subset(&other.targets)
            && other.marks.is_subset(&self.marks)
    }

    /// Compares by the literals, then by the targets, each as a sorted list.
    #[inline(always)]
    pub(crate) fn cmp_list(&self, other: &Transition) -> Ordering
        ensures { result ≡ transition_cmp self.now other.now }
    {
        match self.cube.cmp_list(&other.cube) {
            Ordering::Equal => self.targets.cmp_list(&other.targets),
            unequal => unequal,
        }
    }

    /// The number of its literals and targets.
    #[inline(always)]
    pub(crate) fn weight(&self) -> usize
        ensures { result ≡ length self.now.cube + length self.now.targets }
    {
        self.cube.invariant();
        self.targets.invariant();
        self.cube.count() + self.targets.count()
    }

    /// Whether the two differ in their literals or in their targets.
    fn differs(&self, other: &Transition) -> bool
        ensures { result ≡ is_ne (transition_cmp self.now other.now) }
    {
        self.cmp_list(other).is_ne()
    }
}

/// A transition is below those that it implies.
impl Below for Transition {
    ghost use Rattle.ltl_spec.specs.Transitions.RowTransitions.{implies};
    ghost use Rattle.ltl_alt.specs.Elements.{needed_by_implied, not_unmarked};

    ghost below = { implies };

    fn is_below(&self, other: &Transition) -> bool {
        self.implies(other)
    }

    ghost needed = { needed_by_implied };

    ghost lacked = { not_unmarked };
}

/// A transition needs its literals and targets. One that implies it must not lack its marks, which are of kind 0.
impl Elements for Transition {
    ghost use Rattle.ltl_alt.specs.Elements.{asks_of, is_unmarked, needs_of, pair_of};

    ghost needs = { λ t. needs_of (pair_of t) };

    ghost asks = { asks_of };

    ghost lacking = { is_unmarked };

    #[inline(always)]
    fn needs(&self, kind: usize) -> RowSet {
        needs(&self.cube, &self.targets, kind)
    }

    #[inline(always)]
    fn asks(&self, kind: usize) -> RowSet {
        match kind {
            0 => self.marks,
            _ => RowSet::empty(),
        }
    }

    #[inline(always)]
    #[tactic(auto, using(crate::proofs::ImpliedLaws::marks_it_lacks))]
    fn lacks(&self, kind: usize, of: &RowSet) -> RowSet {
        if kind != 0 {
            return RowSet::empty();
        }
        of.without(&self.marks)
    }
}

/// Of the transitions below an item, only those that differ from it count.
pub(crate) struct Differing;

impl Counting<Transition> for Differing {
    ghost use Rattle.std.specs.Ordering.{is_ne};
    ghost use Rattle.ltl_spec.specs.Transitions.RowTransitions.{transition_cmp};

    ghost counts = { λ _ u t. is_ne (transition_cmp u t) };

    fn counts(&self, other: &Transition, item: &Transition) -> bool {
        other.differs(item)
    }
}
