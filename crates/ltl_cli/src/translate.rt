//! The translator: from a formula's text to the text of its Büchi automaton.

ghost use Rattle.std.specs.Prelude.{◌≡◌, length, IfOk};
ghost use Rattle.ltl_spec.specs.Checking.Bounds.{HasNamesBelow};
ghost use Rattle.ltl_spec.specs.Semantics.Language.{AcceptsModels};
ghost use Rattle.ltl_spec.specs.Tools.Stage.{Open};
ghost use Rattle.ltl_spec.specs.Tools.Refusal.{Translator};
ghost use Rattle.ltl_spec.specs.Tools.Outcome as spec;
ghost use Rattle.ltl_syntax.specs.FormulaView.{reading_of};
ghost use Rattle.ltl_cli.specs.Inputs.{IsOpen, WasFormula};
ghost use Rattle.ltl_cli.specs.Runs.{HasCause, IsOutcome, RunNeverShort, Shows, StaysAt, ToolRun};
ghost use Rattle.ltl_cli.specs.Translations.{IsTranslated, automaton_in, text_of};

use crate::finish::{finish, flushed};
use crate::input::formula_from;
use crate::printable::{Printable, printable_of};
use crate::refusal::Refusal;
use crate::source::Source;
use ltl_streams::{ByteSink, ByteSource};
use ltl_syntax::Formula;
use ltl_words::{Plan, PlanFault, Status, Tool};
use std::alloc::Allocator;

/// A formula, and its automaton with the layout of the plan.
#[derive(Drop)]
struct Translation<'a, A: Allocator> {
    formula: Formula<'a, A>,
    automaton: Printable<'a, A>,
}

/// The formula of the plan, and its automaton. The automaton accepts exactly the ultimately periodic words that satisfy the formula.
fn translated<'a, A: Allocator, R: ByteSource>(
    alloc: &'a A,
    plan: &Plan<'_>,
    source: &mut Source<R>,
) -> Result<Translation<'a, A>, Refusal>
    requires { IsOpen R.state source.old }
    ensures found { (input : spec.Input) × WasFormula R.state source.old source.new input
        × IsTranslated plan.now input (λ t. text_of t.automaton t.formula) result }
    ensures language { IfOk result (λ t. AcceptsModels (automaton_in t.automaton) (reading_of t.formula).formula) }
    ensures named { IfOk result (λ t. HasNamesBelow (length t.formula.names) (automaton_in t.automaton)) }
{
    let formula = formula_from(alloc, plan.formula(), source)?;
    let automaton = printable_of(
        alloc,
        &formula,
        plan.layout(),
        plan.rewrite(),
        &plan.options(),
    )?;
    Ok(Translation { formula, automaton })
}

/// Carries out a plan, or refuses a command line that has none.
fn answered<A: Allocator, R: ByteSource, S: ByteSink>(
    alloc: &A,
    plan: &Result<Plan<'_>, PlanFault>,
    source: &mut Source<R>,
    output: &mut S,
) -> Result<Status, Refusal>
    requires source { IsOpen R.state source.old }
    requires output { (S.state output.old).stage ≡ Open }
    ensures { (input : spec.Input) × WasFormula R.state source.old source.new input × ((file : spec.Input)
        → IsOutcome Translator plan.now input file (S.state output.old) (S.state output.new) result) }
{
    let plan = match plan {
        Ok(plan) => plan,
        Err(fault) => return Err(Refusal::of_words(*fault)),
    };
    let translated = translated(alloc, plan, source)?;
    let printed = flushed(
        translated.automaton.put(&translated.formula, output),
        output,
    );
    drop(translated);
    printed?;
    Ok(Status::Done)
}

/// Carries out a plan of `ltl2ba` and returns the exit status. It writes the text of the automaton and flushes the output; or it writes the message of a
/// refusal. The source is the formula's file, and is read only if the plan names one; if the source is `Text` then, the file counts as one that couldn't be
/// opened. Only a refusal because of a failed write leaves something in the output. A stream isn't used again after one of its calls has failed.
pub fn translate_over<A: Allocator, R: ByteSource, S: ByteSink, M: ByteSink>(
    alloc: &A,
    plan: &Result<Plan<'_>, PlanFault>,
    source: &mut Source<R>,
    output: &mut S,
    message: &mut M,
) -> u8
    requires source { IsOpen R.state source.old }
    requires output { (S.state output.old).stage ≡ Open }
    requires message { (M.state message.old).stage ≡ Open }
    ensures shown { (input : spec.Input) × WasFormula R.state source.old source.new input × ((file : spec.Input)
        → Shows (ToolRun Translator plan.now input file)
        (S.state output.old) (S.state output.new) (M.state message.old) (M.state message.new) result) }
    ensures same_output { StaysAt (S.state output.old) (S.state output.new) }
    ensures same_message { StaysAt (M.state message.old) (M.state message.new) }
    ensures cause { result ≡ 5 → HasCause R.state plan.now source.new (S.state output.new) }
    ensures memory { ((input : spec.Input) → WasFormula R.state source.old source.new input → RunNeverShort Translator plan.now input spec.NotOpened) → ¬ (result ≡ 4) }
{
    let outcome = answered(alloc, plan, source, output);
    finish(Tool::Translator, outcome, message)
}
