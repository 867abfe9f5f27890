//! The program over byte streams: from the formulas of a plan to the answer.

ghost use Rattle.std.specs.Prelude.{◌≡◌};
ghost use Rattle.ltl_spec.specs.Tools.Comparer.{MayCompare};
ghost use Rattle.ltl_spec.specs.Tools.Limits.{stated_limits};
ghost use Rattle.ltl_spec.specs.Tools.Outcome as spec;
ghost use Rattle.ltl_spec.specs.Tools.Stage.{Open};
ghost use Rattle.ltl_words.specs.Comparer.{pair_planned};
ghost use Rattle.ltl_cli.specs.Inputs.{IsOpen, WasFormula};
ghost use Rattle.ltl_cli.specs.Runs.{Shows, StaysAt};
ghost use Rattle.ltl_comparison.specs.Runs.{IsOutcome};

use crate::answer::{print, status_of};
use crate::finish::finish;
use crate::formulas::compared;
use crate::refusal::Refused;
use ltl_cli::Source;
use ltl_streams::{ByteSink, ByteSource};
use ltl_words::{ComparerPlan, Status};
use std::alloc::Allocator;

/// Compares the formulas of a plan and writes the answer.
fn answered<A: Allocator, R: ByteSource, T: ByteSource, S: ByteSink>(
    alloc: &A,
    plan: &ComparerPlan<'_>,
    first: &mut Source<R>,
    second: &mut Source<T>,
    output: &mut S,
) -> Result<Status, Refused>
    requires first { IsOpen R.state first.old }
    requires second { IsOpen T.state second.old }
    requires output { (S.state output.old).stage ≡ Open }
    ensures { (input : spec.Input) × WasFormula R.state first.old first.new input
        × (other : spec.Input) × WasFormula T.state second.old second.new other
        × IsOutcome (MayCompare stated_limits (pair_planned plan.now) input other) (S.state output.old) (S.state output.new) result }
{
    let comparison = compared(alloc, plan, first, second)?;
    let printed = print(&comparison, output);
    let status = status_of(&comparison);
    drop(comparison);
    printed?;
    Ok(status)
}

/// Carries out a plan and returns the exit status. It writes how the two formulas compare, with a word that satisfies the first formula alone and one that
/// satisfies the second formula alone, where there are such words, and flushes the output; or it writes the message of a refusal. Each source is the file of a
/// formula, and is read only if the plan names one. The first formula is read first. Only a refusal because of a failed write leaves something in the output.
/// A stream isn't used again after one of its calls has failed.
pub fn compare_over<A: Allocator, R: ByteSource, T: ByteSource, S: ByteSink, M: ByteSink>(
    alloc: &A,
    plan: &ComparerPlan<'_>,
    first: &mut Source<R>,
    second: &mut Source<T>,
    output: &mut S,
    message: &mut M,
) -> u8
    requires first { IsOpen R.state first.old }
    requires second { IsOpen T.state second.old }
    requires output { (S.state output.old).stage ≡ Open }
    requires message { (M.state message.old).stage ≡ Open }
    ensures shown { (input : spec.Input) × WasFormula R.state first.old first.new input
        × (other : spec.Input) × WasFormula T.state second.old second.new other
        × Shows (MayCompare stated_limits (pair_planned plan.now) input other)
        (S.state output.old) (S.state output.new) (M.state message.old) (M.state message.new) result }
    ensures same_output { StaysAt (S.state output.old) (S.state output.new) }
    ensures same_message { StaysAt (M.state message.old) (M.state message.new) }
{
    let outcome = answered(alloc, plan, first, second, output);
    finish(outcome, message)
}
