//! Relations between the states of two automata.

ghost use Rattle.std.specs.Prelude.{◌≡◌};
ghost use Rattle.ltl_reduce.specs.RelationView as view;

use crate::places::{at, is_at};

/// A table of truth values in rows of the same width, row by row.
#[derive(Clone, Copy)]
pub(crate) struct Cells<'r> {
    pub(crate) cells: &'r [bool],
    pub(crate) width: usize,
}

impl<'r> Cells<'r> {
    /// What stands in row `i` and column `j`; `false` past the end.
    #[inline(always)]
    pub(crate) fn holds(&self, i: usize, j: usize) -> bool
        ensures { result ≡ view.cell self.now i j }
    {
        let place = i.wrapping_mul(self.width).wrapping_add(j);
        if place < self.cells.len() {
            self.cells[place]
        } else {
            false
        }
    }
}

/// Which states of one automaton are related to which of another one.
#[derive(Clone, Copy)]
pub(crate) enum Relation<'r> {
    /// The number of a state here is that of the other state, which is below a count.
    Forward(&'r [usize], usize),
    /// The other way round.
    Backward(&'r [usize]),
    /// The table has the state in the row, and what the other state stands for in the column.
    Across(Cells<'r>, &'r [usize]),
    /// The table has what the state stands for in the row, and the other state in the column.
    Back(Cells<'r>, &'r [usize], usize),
}

impl<'r> Relation<'r> {
    /// Whether the state `s` is related to the state `t` of the other automaton.
    #[inline(always)]
    pub(crate) fn relates(&self, s: usize, t: usize) -> bool
        ensures { result ≡ view.relates self.now s t }
    {
        match *self {
            Relation::Forward(numbers, count) => t < count && is_at(numbers, s, t),
            Relation::Backward(numbers) => is_at(numbers, t, s),
            Relation::Across(cells, stands) => t < stands.len() && cells.holds(s, at(stands, t)),
            Relation::Back(cells, stands, count) => t < count && cells.holds(at(stands, s), t),
        }
    }
}
