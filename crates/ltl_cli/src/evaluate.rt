//! The evaluator: whether a formula holds at the first position of a word.

ghost use Rattle.std.specs.Prelude.{◌≡◌};
ghost use Rattle.ltl_spec.specs.Tools.Limits.{stated_limits};
ghost use Rattle.ltl_spec.specs.Tools.Stage.{Open};
ghost use Rattle.ltl_spec.specs.Tools.Refusal.{Evaluator};
ghost use Rattle.ltl_spec.specs.Tools.Outcome as spec;
ghost use Rattle.ltl_spec.specs.Tools.Programs.{truth_answer};
ghost use Rattle.ltl_cli.specs.Inputs.{IsOpen, WasFormula};
ghost use Rattle.ltl_cli.specs.Runs.{HasCause, IsOutcome, Shows, StaysAt, ToolRun};
ghost use Rattle.ltl_cli.specs.Evaluations.{IsEvaluated};

use crate::finish::{finish, flushed};
use crate::input::formula_from;
use crate::refusal::Refusal;
use crate::source::Source;
use ltl_streams::{ByteSink, ByteSource, write_whole};
use ltl_word::{Lasso, holds};
use ltl_words::{Plan, PlanFault, Status, Tool};
use std::alloc::Allocator;

/// Reads the formula of the plan and the word of this text, and decides whether the formula holds at the word's first position.
fn evaluated<A: Allocator, R: ByteSource>(
    alloc: &A,
    plan: &Plan<'_>,
    text: &str,
    source: &mut Source<R>,
) -> Result<bool, Refusal>
    requires { IsOpen R.state source.old }
    ensures { (input : spec.Input) × WasFormula R.state source.old source.new input × IsEvaluated plan.now text.now input result }
{
    let formula = formula_from(alloc, plan.formula(), source)?;
    let word = Lasso::read(alloc, text.as_bytes(), &formula)?;
    let truth = holds(alloc, &formula, &word)?;
    Ok(truth)
}

/// The line of output for a truth value.
fn line(truth: bool) -> &'static [u8]
    ensures { result.now ≡ (truth_answer stated_limits truth).output }
{
    if truth { b"true\n" } else { b"false\n" }
}

/// Carries out a plan, or refuses a command line that has none or no word.
fn answered<A: Allocator, R: ByteSource, S: ByteSink>(
    alloc: &A,
    plan: &Result<Plan<'_>, PlanFault>,
    source: &mut Source<R>,
    output: &mut S,
) -> Result<Status, Refusal>
    requires source { IsOpen R.state source.old }
    requires output { (S.state output.old).stage ≡ Open }
    ensures { (input : spec.Input) × WasFormula R.state source.old source.new input × ((file : spec.Input)
        → IsOutcome Evaluator plan.now input file (S.state output.old) (S.state output.new) result) }
{
    let plan = match plan {
        Ok(plan) => plan,
        Err(fault) => return Err(Refusal::of_words(*fault)),
    };
    let text = match plan.word() {
        Some(text) => text,
        None => return Err(Refusal::Usage),
    };
    let truth = evaluated(alloc, plan, text, source)?;
    flushed(write_whole(output, line(truth)), output)?;
    if truth {
        return Ok(Status::Done);
    }
    Ok(Status::Violated)
}

/// Carries out a plan of `ltleval` and returns the exit status: 0 for true, 1 for false. It writes `true` or `false` in a line and flushes the output; or it
/// writes the message of a refusal. It builds no table of rows and no automaton. The source is the formula's file, and is read only if the plan names one.
/// Only a refusal because of a failed write leaves something in the output. A stream isn't used again after one of its calls has failed.
pub fn evaluate_over<A: Allocator, R: ByteSource, S: ByteSink, M: ByteSink>(
    alloc: &A,
    plan: &Result<Plan<'_>, PlanFault>,
    source: &mut Source<R>,
    output: &mut S,
    message: &mut M,
) -> u8
    requires source { IsOpen R.state source.old }
    requires output { (S.state output.old).stage ≡ Open }
    requires message { (M.state message.old).stage ≡ Open }
    ensures shown { (input : spec.Input) × WasFormula R.state source.old source.new input × ((file : spec.Input)
        → Shows (ToolRun Evaluator plan.now input file)
        (S.state output.old) (S.state output.new) (M.state message.old) (M.state message.new) result) }
    ensures same_output { StaysAt (S.state output.old) (S.state output.new) }
    ensures same_message { StaysAt (M.state message.old) (M.state message.new) }
    ensures cause { result ≡ 5 → HasCause R.state plan.now source.new (S.state output.new) }
{
    let outcome = answered(alloc, plan, source, output);
    finish(Tool::Evaluator, outcome, message)
}
