//! The rule by which pairs are pruned.

ghost use Rattle.std.specs.Prelude.{IfOk};
ghost use Rattle.ltl_alt.specs.StandIns.{IsRuleOf};
ghost use Rattle.ltl_alt.specs.Steps.{IsWholeProgram};
ghost use Rattle.ltl_alt.specs.Tests.{AreTests};
ghost use Rattle.ltl_alt.specs.TransitionView.{table_at};

use crate::counted::counted;
use crate::fulfilment::Fulfilment;
use crate::program::Program;
use ltl_formula::Table;
use ltl_sets::RowSet;
use std::alloc::{AllocError, Allocator};

/// A rule by which pairs may be dropped from a list.
#[derive(Clone, Copy, PartialEq, Eq)]
pub(crate) enum Rule {
    /// Only duplicates are dropped.
    Duplicate,
    /// A pair may be dropped if another one needs no more, and if that one is marked for each until row that counts and for which the pair is, whatever both
    /// are joined with. The set has the places of the until rows that count.
    SafelySubsumed(RowSet),
}

impl Rule {
    /// The rule for the automaton of a table: if implied transitions are kept, only duplicates are dropped.
    pub(crate) fn of<A: Allocator>(
        alloc: &A,
        table: &Table<'_, A>,
        program: &Program<'_, A>,
        fulfilment: &Fulfilment<'_, A>,
        keep_implied: bool,
    ) -> Result<Rule, AllocError>
        requires tests { AreTests (table_at table.now) fulfilment.now }
        requires program { IsWholeProgram table.now program.now.steps.keys program.now.rows.items }
        ensures { IfOk result (IsRuleOf (table_at table.now) keep_implied) }
    {
        if keep_implied {
            return Ok(Rule::Duplicate);
        }
        let counted = counted(alloc, table, program, fulfilment)?;
        Ok(Rule::SafelySubsumed(counted))
    }
}

/// A rule, and the tests of until rows on which it depends.
#[derive(Drop)]
pub(crate) struct Pruning<'b, 'a, A: Allocator> {
    pub(crate) rule: Rule,
    pub(crate) fulfilment: &'b Fulfilment<'a, A>,
}
