//! The largest direct simulation of an automaton by itself.
//!
//! First all states of which an edge may do for an edge of some kind are collected, in a row of bits for each kind (`shadow`). A state is simulated at most by the
//! states that are in the rows of all its edges. Then the edges of related states are compared, row by row, until no row changes; a row is looked at again only
//! if the row of a target of its state has changed.

use crate::bit_table::BitTable;
use crate::places::{is_set, set};
use crate::relation::Cells;
use crate::shadow::{KIND_BITS, KINDS, Shadow};
use ltl_automaton::{Edge, Edges};
use ltl_models::Gba;
use std::alloc::{AllocError, Allocator};

/// The largest number of states that are compared without a look at the kinds of their edges.
const FEW: usize = 64;

/// Whether an edge has all literals of another one, no marks but those of it, and a target that the other one's target simulates.
#[inline(always)]
pub(crate) fn is_simulated(edge: &Edge, other: &Edge, cells: &Cells<'_>) -> bool {
    cells.holds(edge.target, other.target) && is_covered(edge, other)
}

/// Whether an edge has all literals of another one, and no marks but those of it.
#[inline(always)]
fn is_covered(edge: &Edge, other: &Edge) -> bool {
    other.cube.implies_of(&edge.cube) && edge.marks.is_subset(&other.marks)
}

/// The shadows of the edges of each state.
#[derive(Drop)]
struct Shadows<'a, A: Allocator> {
    rows: Vec<Vec<Shadow, &'a A>, &'a A>,
    /// Whether the words tell all.
    exact: bool,
}

impl<'a, A: Allocator> Shadows<'a, A> {
    /// Those of an automaton.
    fn of(alloc: &'a A, automaton: &Gba<'_, A>) -> Result<Self, AllocError> {
        let mut rows = Vec::new(alloc);
        let mut exact = true;
        for i in 0..automaton.len() {
            let edges = automaton.edges(i);
            let mut row = Vec::new(alloc);
            for k in 0..edges.len() {
                let edge = edges.get(k);
                exact = exact && Shadow::is_exact(&edge);
                row.push(Shadow::of(&edge))?;
            }
            rows.push(row)?;
        }
        Ok(Shadows { rows, exact })
    }

    /// Those of a state.
    #[inline(always)]
    fn row(&self, i: usize) -> &[Shadow] {
        let rows = self.rows.as_slice();
        if i < rows.len() {
            rows[i].as_slice()
        } else {
            &[]
        }
    }
}

/// For each kind the states with an edge that may do for one of this kind.
fn states_by_kind<'a, A: Allocator>(
    alloc: &'a A,
    shadows: &Shadows<'a, A>,
) -> Result<BitTable<'a, A>, AllocError> {
    let count = shadows.rows.len();
    let mut table = BitTable::zeros(alloc, KINDS, count)?;
    for i in 0..count {
        for shadow in shadows.row(i) {
            table.insert(shadow.kind(), i);
        }
    }
    for power in 0..KIND_BITS {
        let bit = 1usize << power;
        for kind in 0..KINDS {
            if kind & bit != 0 {
                table.unite(kind, kind ^ bit);
            }
        }
    }
    Ok(table)
}

/// For each state those that may simulate it, as far as the kinds of their edges show.
fn first_table<'a, A: Allocator>(
    alloc: &'a A,
    shadows: &Shadows<'a, A>,
) -> Result<BitTable<'a, A>, AllocError> {
    let count = shadows.rows.len();
    let mut table = BitTable::zeros(alloc, count, count)?;
    for i in 0..count {
        table.fill(i);
    }
    if count <= FEW {
        return Ok(table);
    }
    let kinds = states_by_kind(alloc, shadows)?;
    for i in 0..count {
        for shadow in shadows.row(i) {
            table.restrict(i, &kinds, shadow.kind());
        }
    }
    Ok(table)
}

/// An automaton whose states are compared.
#[derive(Drop)]
struct Compared<'s, 'x, 'a, A: Allocator> {
    automaton: &'s Gba<'x, A>,
    shadows: Shadows<'a, A>,
}

impl<'s, 'x, 'a, A: Allocator> Compared<'s, 'x, 'a, A> {
    /// Whether the edge at a place of the state `i` is covered by the one at a place of the state `j`.
    fn are_covered(&self, i: usize, place: usize, j: usize, other: usize) -> bool {
        if i < self.automaton.len() && j < self.automaton.len() {
            let edges = self.automaton.edges(i);
            let others = self.automaton.edges(j);
            if place < edges.len() && other < others.len() {
                return is_covered(&edges.get(place), &others.get(other));
            }
        }
        false
    }

    /// Whether an edge of the state `j` simulates the edge at a place of the state `i`, as far as the budget lasts.
    #[inline(always)]
    fn has_match(
        &self,
        i: usize,
        place: usize,
        j: usize,
        table: &BitTable<'_, A>,
        budget: &mut usize,
    ) -> bool {
        let edges = self.shadows.row(i);
        let others = self.shadows.row(j);
        if place >= edges.len() {
            return false;
        }
        let edge = edges[place];
        let most = others.len().min(*budget);
        for m in 0..most {
            let other = others[m];
            if other.may_do_for(&edge)
                && table.holds(edge.target, other.target)
                && (self.shadows.exact || self.are_covered(i, place, j, m))
            {
                *budget = budget.saturating_sub(m + 1);
                return true;
            }
        }
        *budget = budget.saturating_sub(most);
        false
    }

    /// Whether each edge of the state `i` is simulated by one of the state `j`.
    #[inline(always)]
    fn are_simulated(
        &self,
        i: usize,
        j: usize,
        table: &BitTable<'_, A>,
        budget: &mut usize,
    ) -> bool {
        for k in 0..self.shadows.row(i).len() {
            if !self.has_match(i, k, j, table, budget) {
                return false;
            }
        }
        true
    }

    /// Takes out of the row of a state those that don't simulate it. Whether there are any.
    fn sweep(&self, i: usize, table: &mut BitTable<'_, A>, budget: &mut usize) -> bool {
        let mut changed = false;
        for k in 0..table.width {
            let word = table.word(i, k);
            if word != 0 {
                for b in 0..64usize {
                    let j = k.wrapping_mul(64).wrapping_add(b);
                    if (word >> b) & 1 == 1 && j != i && !self.are_simulated(i, j, table, budget) {
                        table.remove(i, j);
                        changed = true;
                    }
                }
            }
        }
        changed
    }

    /// Whether a target of the state has a mark.
    fn leads_to(&self, i: usize, marks: &[bool]) -> bool {
        for shadow in self.shadows.row(i) {
            if is_set(marks, shadow.target) {
                return true;
            }
        }
        false
    }

    /// Sweeps the rows of all states with a target whose row has changed in the last round or in this one, and marks the rows that change. Whether there are any.
    fn sweep_all(
        &self,
        last: &[bool],
        now: &mut [bool],
        table: &mut BitTable<'_, A>,
        budget: &mut usize,
    ) -> bool {
        let mut changed = false;
        let count = self.shadows.rows.len();
        for i in 0..count {
            set(now, i, false);
        }
        for i in 0..count {
            if *budget == 0 {
                return false;
            }
            if (self.leads_to(i, last) || self.leads_to(i, now)) && self.sweep(i, table, budget) {
                set(now, i, true);
                changed = true;
            }
        }
        changed
    }

    /// Sweeps all rows until none changes.
    fn settle(
        &self,
        alloc: &'a A,
        table: &mut BitTable<'_, A>,
        budget: &mut usize,
    ) -> Result<(), AllocError> {
        let count = self.shadows.rows.len();
        let mut last = Vec::new(alloc);
        last.resize(count, true)?;
        let mut now = Vec::new(alloc);
        now.resize(count, false)?;
        for _round in 0..count.saturating_mul(count) {
            if !self.sweep_all(last.as_slice(), now.as_mut_slice(), table, budget) {
                return Ok(());
            }
            std::mem::swap(&mut last, &mut now);
        }
        Ok(())
    }
}

/// For each two states whether the second one simulates the first one, in rows by the first one. Nothing is of use if the budget is used up.
pub(crate) fn simulation<'a, A: Allocator>(
    alloc: &'a A,
    automaton: &Gba<'_, A>,
    budget: &mut usize,
) -> Result<Vec<bool, &'a A>, AllocError> {
    let count = automaton.len();
    let shadows = Shadows::of(alloc, automaton)?;
    let mut table = first_table(alloc, &shadows)?;
    let compared = Compared { automaton, shadows };
    compared.settle(alloc, &mut table, budget)?;
    let mut cells = Vec::new(alloc);
    cells.resize(count.saturating_mul(count), false)?;
    for i in 0..count {
        for j in 0..count {
            if table.holds(i, j) {
                set(
                    cells.as_mut_slice(),
                    i.wrapping_mul(count).wrapping_add(j),
                    true,
                );
            }
        }
    }
    Ok(cells)
}
