//! The rows of a table as a straight-line program of steps.
//!
//! The step of a row's pairs is the row's transition formula. Its disjunctive normal form is the list of the row's pairs. As a test of a pair it says whether
//! the pair needs all that one of these needs. A step combines earlier steps, so one pass evaluates all steps. Equal steps have one number.

ghost use Rattle.std.specs.Prelude.{◌≡◌, ℕ, ◌+◌, ◌<◌, length, IfOk, OnOk, true};
ghost use Rattle.ltl_formula.specs.SharedNodesView.{IsBelow};
ghost use Rattle.ltl_formula.specs.TableView.{IsNamedBelow, is_elementary_row};
ghost use Rattle.ltl_spec.proofs.Transitions.Fulfilment as test;
ghost use Rattle.ltl_alt.specs.Steps.{AreOrdered, HavePairSteps, HaveSetSteps, IsGiven, IsNumbered, IsProgram, IsWholeProgram};
ghost use Rattle.ltl_alt.specs.Steps.{pair_test_from, set_test_from, steps_at};

use crate::place::place;
use ltl_automaton::Interner;
use ltl_formula::{Row, Table};
use ltl_sets::{Literal, RowSet};
use std::alloc::{AllocError, Allocator};

/// A step of a test, with the numbers of its operands.
#[derive(Clone, Copy, Debug, PartialEq, Eq, Hash)]
pub(crate) enum Step {
    /// Every pair passes.
    Always,
    /// No pair passes.
    Never,
    /// A pair passes if it needs the literal.
    Reads(Literal),
    /// A pair passes if the row at this place is among its targets.
    Leads(usize),
    /// A pair passes if it passes both steps.
    Both(usize, usize),
    /// A pair passes if it passes at least one of the steps.
    Either(usize, usize),
}

/// The steps of a row: that of its pairs, and that of its sets of rows. The row holds if all rows of one of its sets hold.
#[derive(Clone, Copy)]
pub(crate) struct RowSteps {
    pub(crate) pairs: usize,
    pub(crate) sets: usize,
}

/// A program, and the steps of each row of a table.
#[derive(Drop)]
pub(crate) struct Program<'a, A: Allocator> {
    pub(crate) steps: Interner<'a, Step, A>,
    pub(crate) rows: Vec<RowSteps, &'a A>,
}

/// The number of a step. A step that is new is appended.
pub(crate) fn number<A: Allocator>(
    steps: &mut Interner<'_, Step, A>,
    step: Step,
) -> Result<usize, AllocError>
    ensures { IfOk result (λ k. IsGiven steps.old.keys steps.new.keys k step) }
{
    let number = steps.number(step)?;
    Ok(number)
}

impl<'a, A: Allocator> Program<'a, A> {
    /// The steps in their order.
    pub(crate) fn steps(&self) -> &[Step]
        ensures { result.now ≡ self.now.steps.keys }
    {
        self.steps.as_slice()
    }

    /// The number of the step that a pair passes if it needs all that one of the row's pairs needs.
    pub(crate) fn pair_step(&self, row: usize) -> usize
        requires { row < length self.now.rows.items }
        ensures { result ≡ (steps_at self.now.rows.items row).pairs }
    {
        self.rows[row].pairs
    }

    /// The number of the step that a pair passes if all rows of one of the row's sets are among its targets.
    pub(crate) fn set_step(&self, row: usize) -> usize
        requires { row < length self.now.rows.items }
        ensures { result ≡ (steps_at self.now.rows.items row).sets }
    {
        self.rows[row].sets
    }

    /// The number of the step for the pairs of a row with this place.
    fn number_pairs(&mut self, row: Row, place: usize) -> Result<usize, AllocError>
        requires rows { IsBelow (length self.old.rows.items) row }
        requires literal { IsNamedBelow RowSet.LIMIT row }
        requires place { is_elementary_row row ≡ true → place < RowSet.LIMIT }
        ensures rows { self.new.rows.items ≡ self.old.rows.items }
        ensures step { IfOk result (λ k. (ps es : ℕ → test.Test) → AreOrdered self.old.steps.keys
            → HavePairSteps self.old.steps.keys self.old.rows.items ps es row
            → IsNumbered self.old.steps.keys self.new.steps.keys k (pair_test_from ps es place row)) }
    {
        match row {
            Row::True => number(&mut self.steps, Step::Always),
            Row::False => number(&mut self.steps, Step::Never),
            Row::Literal(literal) => number(&mut self.steps, Step::Reads(literal)),
            Row::Next(i) => Ok(self.set_step(i)),
            Row::And(i, j) => {
                let both = Step::Both(self.pair_step(i), self.pair_step(j));
                number(&mut self.steps, both)
            }
            Row::Or(i, j) => {
                let either = Step::Either(self.pair_step(i), self.pair_step(j));
                number(&mut self.steps, either)
            }
            Row::Until(i, j) => {
                let (left, right) = (self.pair_step(i), self.pair_step(j));
                let again = number(&mut self.steps, Step::Leads(place))?;
                let put_off = number(&mut self.steps, Step::Both(left, again))?;
                let either = number(&mut self.steps, Step::Either(right, put_off))?;
                Ok(either)
            }
            Row::Release(i, j) => {
                let (left, right) = (self.pair_step(i), self.pair_step(j));
                let again = number(&mut self.steps, Step::Leads(place))?;
                let released = number(&mut self.steps, Step::Either(left, again))?;
                let both = number(&mut self.steps, Step::Both(right, released))?;
                Ok(both)
            }
        }
    }

    /// The number of the step for the sets of a row with this place.
    fn number_sets(&mut self, row: Row, place: usize) -> Result<usize, AllocError>
        requires rows { IsBelow (length self.old.rows.items) row }
        requires literal { IsNamedBelow RowSet.LIMIT row }
        requires place { is_elementary_row row ≡ true → place < RowSet.LIMIT }
        ensures rows { self.new.rows.items ≡ self.old.rows.items }
        ensures step { IfOk result (λ k. (es : ℕ → test.Test) → AreOrdered self.old.steps.keys
            → HaveSetSteps self.old.steps.keys self.old.rows.items es row
            → IsNumbered self.old.steps.keys self.new.steps.keys k (set_test_from es place row)) }
    {
        match row {
            Row::True => number(&mut self.steps, Step::Always),
            Row::False => number(&mut self.steps, Step::Never),
            Row::And(i, j) => {
                let both = Step::Both(self.set_step(i), self.set_step(j));
                number(&mut self.steps, both)
            }
            Row::Or(i, j) => {
                let either = Step::Either(self.set_step(i), self.set_step(j));
                number(&mut self.steps, either)
            }
            Row::Literal(_) | Row::Next(_) | Row::Until(_, _) | Row::Release(_, _) => {
                let leads = number(&mut self.steps, Step::Leads(place))?;
                Ok(leads)
            }
        }
    }

    /// Appends the steps of the next row.
    fn add_row(&mut self, table: &Table<'_, A>, row: usize) -> Result<(), AllocError>
        requires within { row < length table.now.rows }
        requires count { length self.old.rows.items ≡ row }
        requires program { IsProgram table.now self.old.steps.keys self.old.rows.items }
        ensures count { OnOk result (length self.new.rows.items ≡ row + 1) }
        ensures program { OnOk result (IsProgram table.now self.new.steps.keys self.new.rows.items) }
    {
        table.invariant();
        let place = place(table, row);
        let kind = table.row(row);
        let pairs = self.number_pairs(kind, place)?;
        let sets = self.number_sets(kind, place)?;
        self.rows.push(RowSteps { pairs, sets })?;
        Ok(())
    }

    /// The program of all rows of a table.
    pub(crate) fn of(alloc: &'a A, table: &Table<'_, A>) -> Result<Program<'a, A>, AllocError>
        ensures { IfOk result (λ p. IsWholeProgram table.now p.steps.keys p.rows.items) }
    {
        table.invariant();
        let mut program = Program {
            steps: Interner::new(alloc),
            rows: Vec::new(alloc),
        };
        'rows: for k in 0..table.len() {
            program.add_row(table, k)?;
        }
        Ok(program)
    }
}
