//! Levels of states. They tell which edges every accepting run takes finitely often.

ghost use Rattle.std.specs.Prelude.{◌≡◌, IsTrue};
ghost use Rattle.ltl_reduce.specs.FreesView as view;

use ltl_sets::RowSet;

/// For each state a level, such that no edge leads to a higher one, and whether it is dead; for each level the number of a set in which no edge within the level
/// is. Where a list ends, a level is 0, no set is lacking, and no state is dead.
#[derive(Clone, Copy)]
pub(crate) struct Frees<'l> {
    pub(crate) levels: &'l [usize],
    pub(crate) lacking: &'l [usize],
    pub(crate) dead: &'l [bool],
}

impl<'l> Frees<'l> {
    /// No edge is free, and no state is dead.
    pub(crate) fn none() -> Frees<'l>
        ensures { view.AreNone result }
    {
        Frees {
            levels: &[],
            lacking: &[],
            dead: &[],
        }
    }

    /// The level of a state.
    #[inline(always)]
    pub(crate) fn level(&self, s: usize) -> usize
        ensures { result ≡ view.level_of self.now s }
    {
        if s < self.levels.len() {
            self.levels[s]
        } else {
            0
        }
    }

    /// The number of the set that a level lacks.
    #[inline(always)]
    pub(crate) fn lacking(&self, level: usize) -> usize
        ensures { result ≡ view.lacking_of self.now level }
    {
        if level < self.lacking.len() {
            self.lacking[level]
        } else {
            RowSet::LIMIT
        }
    }

    /// Whether a state is dead: no accepting run passes it.
    #[inline(always)]
    pub(crate) fn is_dead(&self, s: usize) -> bool
        ensures { result ≡ view.is_dead self.now s }
    {
        s < self.dead.len() && self.dead[s]
    }

    /// Whether an edge between two states of an automaton with so many sets is free.
    #[inline(always)]
    pub(crate) fn is_free(&self, sets: usize, s: usize, target: usize) -> bool
        ensures { result ≡ view.is_free self.now sets s target }
    {
        let level = self.level(s);
        self.level(target) < level || self.lacking(level) < sets
    }
}
