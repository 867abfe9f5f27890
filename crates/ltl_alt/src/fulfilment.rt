//! The test of each until row of a table: whether a pair fulfils the row.

ghost use Rattle.std.specs.Prelude.{◌≡◌, ◌<◌, length, slice_get, slice_index_or, Some, IfOk};
ghost use Rattle.ltl_formula.specs.SharedNodesView.{IsBelow};
ghost use Rattle.ltl_spec.specs.NormalForms.Normal.{Bottom};
ghost use Rattle.ltl_spec.proofs.Transitions.IndependenceTests.{no_support};
ghost use Rattle.ltl_alt.specs.Steps.{AreUntilSteps, IsWholeProgram, until_step};
ghost use Rattle.ltl_alt.specs.Subprograms.{HasTests};
ghost use Rattle.ltl_alt.specs.Tests.{AreTests, IsUntilTest};
ghost use Rattle.ltl_alt.specs.TransitionView.{table_at};

use crate::leaves::{leaves, leaves_at};
use crate::needs::needed_steps;
use crate::place::{place, until_count, until_row};
use crate::program::{Program, Step};
use crate::subprogram::Subprogram;
use crate::support::Support;
use ltl_formula::{Row, Table};
use std::alloc::{AllocError, Allocator};

/// An until row's place, and the number of the step that is its test.
#[derive(Clone, Copy)]
pub(crate) struct UntilTest {
    pub(crate) place: usize,
    pub(crate) step: usize,
}

/// The tests of the until rows of a table, as a program of steps.
#[derive(Drop)]
pub(crate) struct Fulfilment<'a, A: Allocator> {
    pub(crate) steps: Vec<Step, &'a A>,
    /// The literals and rows on which each step depends.
    pub(crate) leaves: Vec<Support, &'a A>,
    pub(crate) untils: Vec<UntilTest, &'a A>,
}

/// The number of the step that is an until row's test, or 0 for another row. A pair fulfils an until row if it passes the right operand's test.
fn test_step<A: Allocator>(program: &Program<'_, A>, row: Row) -> usize
    requires { IsBelow (length program.now.rows.items) row }
    ensures { result ≡ until_step program.now.rows.items row }
{
    match row {
        Row::Until(_, j) => program.pair_step(j),
        _ => 0,
    }
}

/// The numbers of the steps of a program that are the tests of the until rows of its table.
fn until_steps<'a, A: Allocator>(
    alloc: &'a A,
    table: &Table<'_, A>,
    program: &Program<'_, A>,
) -> Result<Vec<usize, &'a A>, AllocError>
    requires { IsWholeProgram table.now program.now.steps.keys program.now.rows.items }
    ensures { IfOk result (λ v. AreUntilSteps (table_at table.now) program.now.steps.keys (length table.now.untils) v.items) }
{
    table.invariant();
    let mut tests = Vec::new(alloc);
    'untils: for number in 0..until_count(table) {
        tests.push(test_step(program, table.row(until_row(table, number))))?;
    }
    Ok(tests)
}

/// The test of the until row with this number.
fn until_test<A: Allocator>(
    table: &Table<'_, A>,
    tests: &[usize],
    part: &Subprogram<'_, A>,
    number: usize,
) -> UntilTest
    requires within { number < length table.now.untils }
    requires count { length tests.now ≡ length table.now.untils }
    requires part { HasTests (table_at table.now) tests.now part.now.steps.keys part.now.numbers.items }
    ensures { IsUntilTest (table_at table.now) part.now.steps.keys result (slice_index_or (table_at table.now).untils number Bottom) }
{
    table.invariant();
    UntilTest {
        place: place(table, until_row(table, number)),
        step: part.number(tests[number]),
    }
}

impl<'a, A: Allocator> Fulfilment<'a, A> {
    /// The tests of a table without until rows.
    pub(crate) fn nothing(alloc: &'a A) -> Self {
        Fulfilment {
            steps: Vec::new(alloc),
            leaves: Vec::new(alloc),
            untils: Vec::new(alloc),
        }
    }

    /// The tests of all until rows of a table, out of the program of its rows.
    pub(crate) fn of(
        alloc: &'a A,
        table: &Table<'_, A>,
        program: &Program<'_, A>,
    ) -> Result<Self, AllocError>
        requires { IsWholeProgram table.now program.now.steps.keys program.now.rows.items }
        ensures { IfOk result (AreTests (table_at table.now)) }
    {
        table.invariant();
        let whole = program.steps();
        let tests = until_steps(alloc, table, program)?;
        let needed = needed_steps(alloc, whole, tests.as_slice())?;
        let part = Subprogram::of(alloc, whole, needed.as_slice())?;
        let steps = Vec::from_slice(alloc, part.steps.as_slice())?;
        let leaves = leaves(alloc, steps.as_slice())?;
        let mut untils = Vec::new(alloc);
        'untils: for number in 0..until_count(table) {
            untils.push(until_test(table, tests.as_slice(), &part, number))?;
        }
        Ok(Fulfilment {
            steps,
            leaves,
            untils,
        })
    }

    /// The test of the until row with this number.
    #[inline(always)]
    pub(crate) fn until(&self, number: usize) -> UntilTest
        requires { number < length self.now.untils.items }
        ensures { slice_get self.now.untils.items number ≡ Some result }
    {
        self.untils[number]
    }

    /// The literals and rows on which the step with this number depends.
    pub(crate) fn leaves(&self, number: usize) -> Support
        ensures { result ≡ slice_index_or self.now.leaves.items number no_support }
    {
        leaves_at(self.leaves.as_slice(), number)
    }
}
