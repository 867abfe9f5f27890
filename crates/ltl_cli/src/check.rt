//! The checker: language containment of an automaton in a formula, by the product with the automaton of the formula's negation.

ghost use Rattle.std.specs.Prelude.{◌≡◌, ◌⊎◌, length, OnOk, OnErr, IfOk, Ok};
ghost use Rattle.ltl_spec.specs.Checking.Bounds.{HasNamesBelow};
ghost use Rattle.ltl_spec.specs.Semantics.Language.{AcceptsViolations};
ghost use Rattle.ltl_spec.specs.Tools.Stage.{Open};
ghost use Rattle.ltl_spec.specs.Tools.Refusal.{Checker};
ghost use Rattle.ltl_spec.specs.Tools.Outcome as spec;
ghost use Rattle.ltl_streams.specs.Printing.{Prints};
ghost use Rattle.ltl_streams.specs.Streams.{Breaks};
ghost use Rattle.ltl_syntax.specs.FormulaView.{reading_of};
ghost use Rattle.ltl_check.specs.VerdictView.{verdict_of};
ghost use Rattle.ltl_words.specs.declared.request.Plan as asked;
ghost use Rattle.ltl_cli.specs.Inputs.{IsFailed, IsFoundUnless, IsOpen, IsSourceAtFault, WasAutomaton, WasFormula};
ghost use Rattle.ltl_cli.specs.Refusals.{TakesStep};
ghost use Rattle.ltl_words.specs.Tools.{status_number};
ghost use Rattle.ltl_cli.specs.Runs.{Finishes, HasCause, IsOutcome, Shows, StaysAt, ToolRun};
ghost use Rattle.ltl_cli.specs.Checks.{IsChecked, IsNegated, JudgesFormula, ReadsAutomaton, answer_for};

use crate::automaton::automaton_of;
use crate::finish::{finish, flushed};
use crate::input::formula_from;
use crate::refusal::Refusal;
use crate::source::Source;
use ltl_buchi::{Ba, Options};
use ltl_check::{Outcome, Verdict, check};
use ltl_hoa::{Marked, hoa_read_from};
use ltl_streams::{ByteSink, ByteSource, Printer, WriteFault};
use ltl_syntax::Formula;
use ltl_words::{Plan, PlanFault, Status, Tool};
use std::alloc::Allocator;

/// A formula and the automaton of the words that violate it.
#[derive(Drop)]
struct Negation<'a, A: Allocator> {
    formula: Formula<'a, A>,
    violations: Ba<'a, A>,
}

/// The formula of the plan and the automaton of its negation. The negation's normal form is rewritten, and nothing is left unsimplified.
fn negated<'a, A: Allocator, R: ByteSource>(
    alloc: &'a A,
    plan: &Plan<'_>,
    source: &mut Source<R>,
) -> Result<Negation<'a, A>, Refusal>
    requires { IsOpen R.state source.old }
    ensures found { (input : spec.Input) × WasFormula R.state source.old source.new input
        × IsNegated plan.now input (λ t. reading_of t.formula) (λ t. t.violations) result }
    ensures named { IfOk result (λ t. HasNamesBelow (length t.formula.names) t.violations) }
{
    let formula = formula_from(alloc, plan.formula(), source)?;
    let options = Options {
        keep_implied: false,
        keep_equal: false,
    };
    let violations = automaton_of(alloc, &formula, true, true, &options)?;
    Ok(Negation {
        formula,
        violations,
    })
}

/// Reads an automaton from the source. `Source::Text` holds no automaton; it counts as a file that couldn't be opened.
pub fn read_automaton<'a, A: Allocator, T: ByteSource>(
    alloc: &'a A,
    source: &mut Source<T>,
) -> Result<Marked<'a, A>, Refusal>
    requires { IsOpen T.state source.old }
    ensures { (file : spec.Input) × WasAutomaton T.state source.old source.new file × IsFoundUnless (IsFailed file) (ReadsAutomaton file) (λ A. A) result }
{
    match source {
        Source::Input(reader) => {
            let automaton = hoa_read_from(alloc, reader)?;
            Ok(automaton)
        }
        Source::Text | Source::NotOpened => Err(Refusal::CannotOpen),
    }
}

/// Searches for a word that the automaton accepts and that violates the formula.
fn judged<'a, A: Allocator>(
    alloc: &'a A,
    automaton: &Marked<'a, A>,
    negation: &Negation<'a, A>,
) -> Result<Verdict<'a, A>, Refusal>
    requires named { HasNamesBelow (length negation.now.formula.names) negation.now.violations }
    requires language { AcceptsViolations negation.now.violations (reading_of negation.now.formula).formula }
    ensures { TakesStep (JudgesFormula automaton.now (reading_of negation.now.formula) negation.now.violations) (λ v. verdict_of v.outcome) result }
{
    let verdict = check(alloc, automaton, &negation.violations, &negation.formula)?;
    Ok(verdict)
}

/// The verdict for this formula and the automaton of the source.
fn found_by<'a, A: Allocator, T: ByteSource>(
    alloc: &'a A,
    negation: &Negation<'a, A>,
    source: &mut Source<T>,
) -> Result<Verdict<'a, A>, Refusal>
    requires named { HasNamesBelow (length negation.now.formula.names) negation.now.violations }
    requires language { AcceptsViolations negation.now.violations (reading_of negation.now.formula).formula }
    requires source { IsOpen T.state source.old }
    ensures { (file : spec.Input) × WasAutomaton T.state source.old source.new file × ((plan : asked.Plan) (input : spec.Input)
        → IsNegated plan input (λ t. reading_of t.formula) (λ t. t.violations) (Ok negation.now)
        → IsChecked plan input file (λ v. verdict_of v.outcome) result) }
{
    let automaton = read_automaton(alloc, source)?;
    let verdict = judged(alloc, &automaton, negation);
    drop(automaton);
    verdict
}

/// The verdict for the formula of the plan and the automaton of its source, which is read after the formula's negation has been translated.
fn found<'a, A: Allocator, R: ByteSource, T: ByteSource>(
    alloc: &'a A,
    plan: &Plan<'_>,
    source: &mut Source<R>,
    automaton: &mut Source<T>,
) -> Result<Verdict<'a, A>, Refusal>
    requires source { IsOpen R.state source.old }
    requires automaton { IsOpen T.state automaton.old }
    ensures { (input : spec.Input) × WasFormula R.state source.old source.new input
        × (file : spec.Input) × WasAutomaton T.state automaton.old automaton.new file
        × IsChecked plan.now input file (λ v. verdict_of v.outcome) result }
{
    let negation = negated(alloc, plan, source)?;
    let verdict = found_by(alloc, &negation, automaton);
    drop(negation);
    verdict
}

/// Writes the verdict, and the violating word if there is one, each in a line.
fn put<A: Allocator, S: ByteSink>(outcome: &Outcome<'_, A>, out: &mut Printer<'_, S>)
    ensures { Prints S.state out.old out.new (answer_for outcome.now).output }
{
    match outcome {
        Outcome::Contained => out.put(b"contained\n"),
        Outcome::Violated(word) => {
            out.put(b"violated\n");
            word.put(out);
            out.put(b"\n");
        }
    }
}

/// Writes the verdict and flushes the output.
fn print<A: Allocator, S: ByteSink>(
    outcome: &Outcome<'_, A>,
    output: &mut S,
) -> Result<(), WriteFault>
    ensures ok { OnOk result (Finishes (S.state output.old) (S.state output.new) (answer_for outcome.now).output) }
    ensures err { OnErr result (Breaks (S.state output.old) (S.state output.new) (answer_for outcome.now).output) }
{
    let mut out = Printer::new(output);
    put(outcome, &mut out);
    flushed(out.end(), output)
}

/// The exit status for this verdict.
fn status_of<A: Allocator>(outcome: &Outcome<'_, A>) -> Status
    ensures { status_number result ≡ (answer_for outcome.now).status }
{
    match outcome {
        Outcome::Contained => Status::Done,
        Outcome::Violated(_) => Status::Violated,
    }
}

/// Carries out a plan, or refuses a command line that has none.
fn answered<A: Allocator, R: ByteSource, T: ByteSource, S: ByteSink>(
    alloc: &A,
    plan: &Result<Plan<'_>, PlanFault>,
    source: &mut Source<R>,
    automaton: &mut Source<T>,
    output: &mut S,
) -> Result<Status, Refusal>
    requires source { IsOpen R.state source.old }
    requires automaton { IsOpen T.state automaton.old }
    requires output { (S.state output.old).stage ≡ Open }
    ensures { (input : spec.Input) × WasFormula R.state source.old source.new input
        × (file : spec.Input) × WasAutomaton T.state automaton.old automaton.new file
        × IsOutcome Checker plan.now input file (S.state output.old) (S.state output.new) result }
{
    let plan = match plan {
        Ok(plan) => plan,
        Err(fault) => return Err(Refusal::of_words(*fault)),
    };
    let verdict = found(alloc, plan, source, automaton)?;
    let printed = print(verdict.outcome(), output);
    let status = status_of(verdict.outcome());
    drop(verdict);
    printed?;
    Ok(status)
}

/// Carries out a plan of `ltlcheck` and returns the exit status. It writes `contained`, or `violated` and a word that the automaton accepts and that violates
/// the formula, and flushes the output; or it writes the message of a refusal. The first source is the formula's file, and is read only if the plan names
/// one. The second source is the automaton, and is read after the formula's negation has been translated. Only a refusal because of a failed write leaves
/// something in the output. A stream isn't used again after one of its calls has failed.
pub fn check_over<A: Allocator, R: ByteSource, T: ByteSource, S: ByteSink, M: ByteSink>(
    alloc: &A,
    plan: &Result<Plan<'_>, PlanFault>,
    source: &mut Source<R>,
    automaton: &mut Source<T>,
    output: &mut S,
    message: &mut M,
) -> u8
    requires source { IsOpen R.state source.old }
    requires automaton { IsOpen T.state automaton.old }
    requires output { (S.state output.old).stage ≡ Open }
    requires message { (M.state message.old).stage ≡ Open }
    ensures shown { (input : spec.Input) × WasFormula R.state source.old source.new input
        × (file : spec.Input) × WasAutomaton T.state automaton.old automaton.new file
        × Shows (ToolRun Checker plan.now input file) (S.state output.old) (S.state output.new) (M.state message.old) (M.state message.new) result }
    ensures same_output { StaysAt (S.state output.old) (S.state output.new) }
    ensures same_message { StaysAt (M.state message.old) (M.state message.new) }
    ensures cause { result ≡ 5 → HasCause R.state plan.now source.new (S.state output.new) ⊎ IsSourceAtFault T.state automaton.new }
{
    let outcome = answered(alloc, plan, source, automaton, output);
    finish(Tool::Checker, outcome, message)
}
