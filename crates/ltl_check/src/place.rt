//! The places of a search for the shortest lasso.

ghost use Rattle.std.specs.Prelude.{◌≡◌, ◌<◌, ◌^◌, true};
ghost use Rattle.ltl_check.specs.Marks.{in_set};
ghost use Rattle.ltl_check.specs.Places.{IsGoal, HoldsAll, is_base, on_stem, begun, further};

use crate::graph::Step;
use crate::walk::Taken;
use ltl_sets::RowSet;

/// A place on a lasso: on its stem, where `base` is 0 and `marks` is empty, or on its cycle, where `base` is 1 more than the number of the state in which
/// the cycle begins, and `marks` has the sets of the edges since then. `state` is the state at this place.
#[derive(Clone, Copy, PartialEq, Eq, Hash)]
pub(crate) struct Place {
    pub(crate) base: usize,
    pub(crate) state: usize,
    pub(crate) marks: RowSet,
}

/// How a place was reached: the number of the place before, the number of edges from the start, and the last edge.
#[derive(Clone, Copy)]
pub(crate) struct Arrival {
    pub(crate) from: usize,
    pub(crate) depth: usize,
    pub(crate) taken: Taken,
}

/// The states in which a cycle may begin.
#[derive(Clone, Copy)]
pub(crate) enum Bases {
    Every,
    One(usize),
}

impl Bases {
    /// Whether a cycle may begin in this state.
    pub(crate) fn have(self, n: usize) -> bool
        ensures { result ≡ is_base self n }
    {
        match self {
            Bases::Every => true,
            Bases::One(base) => base == n,
        }
    }
}

/// Whether the marks have every set below `sets`.
pub(crate) fn holds_all(marks: &RowSet, sets: usize) -> bool
    ensures held { result ≡ true → HoldsAll sets marks.now }
    ensures lacked { HoldsAll sets marks.now → result ≡ true }
{
    let mut j = 0usize;
    'sets: while j < sets {
        if !marks.holds(j) {
            return false;
        }
        j += 1;
    }
    true
}

impl Place {
    /// The place behind this edge, if it is one of the stem.
    pub(crate) fn on_stem(step: &Step<usize>) -> Place
        ensures { result ≡ on_stem step.now }
    {
        Place {
            base: 0,
            state: step.target,
            marks: RowSet::empty(),
        }
    }

    /// The place behind this edge, if it is the first one of a cycle that begins in state `n`.
    pub(crate) fn begun(n: usize, step: &Step<usize>) -> Place
        requires { n < 2 ^ 63 }
        ensures { result ≡ begun n step.now }
    {
        Place {
            base: n + 1,
            state: step.target,
            marks: step.marks,
        }
    }

    /// The place behind this edge, if the cycle of this place goes on.
    pub(crate) fn further(&self, step: &Step<usize>) -> Place
        ensures { result ≡ further self.now step.now }
    {
        Place {
            base: self.base,
            state: step.target,
            marks: self.marks.union(&step.marks),
        }
    }

    /// Whether a lasso is closed here: the cycle is back in the state in which it began, and has met every set.
    pub(crate) fn is_goal(&self, sets: usize) -> bool
        requires { self.now.state < 2 ^ 63 }
        ensures closed { result ≡ true → IsGoal sets self.now }
        ensures open { IsGoal sets self.now → result ≡ true }
    {
        self.base == self.state + 1 && holds_all(&self.marks, sets)
    }
}
