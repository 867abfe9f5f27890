//! The program over byte streams: from an automaton's text to its drawing, or a timeline.

ghost use Rattle.std.specs.Prelude.{◌≡◌, ℕ, List, Option, Ok};
ghost use Rattle.ltl_spec.specs.Tools.Stage.{Open};
ghost use Rattle.ltl_spec.specs.Tools.Outcome as spec;
ghost use Rattle.ltl_cli.specs.Inputs.{IsFailed, IsFoundUnless, IsOpen, WasAutomaton};
ghost use Rattle.ltl_cli.specs.Runs.{Shows, StaysAt};
ghost use Rattle.ltl_draw.specs.Plans.{Picture, request_in, requested};
ghost use Rattle.ltl_draw.specs.Runs.{IsOutcome, MayDraw, NeedsNoInput, ReadsNamed};

use crate::finish::finish;
use crate::input::named_of;
use crate::named::Named;
use crate::request::Plan;
use crate::run_picture::run_shown;
use crate::timeline::shown;
use ltl_cli::{Refusal, Source, flushed};
use ltl_pictures::Drawing;
use ltl_streams::{ByteSink, ByteSource};
use ltl_words::PlanFault;
use std::alloc::Allocator;

/// Reads an automaton and its names from the source, and prepares their drawing.
fn drawing_of<'a, A: Allocator, R: ByteSource>(
    alloc: &'a A,
    source: &mut Source<R>,
) -> Result<Drawing<'a, A>, Refusal>
    requires { IsOpen R.state source.old }
    ensures { (input : spec.Input) × WasAutomaton R.state source.old source.new input
        × IsFoundUnless (IsFailed input) (ReadsNamed input) (λ N. N) result }
{
    let named = named_of(alloc, source)?;
    let Named { automaton, names } = named;
    let drawing = Drawing::new(alloc, automaton, names)?;
    Ok(drawing)
}

/// Reads an automaton from the source, and writes its drawing.
fn printed<A: Allocator, R: ByteSource, S: ByteSink>(
    alloc: &A,
    source: &mut Source<R>,
    output: &mut S,
) -> Result<(), Refusal>
    requires source { IsOpen R.state source.old }
    requires output { (S.state output.old).stage ≡ Open }
    ensures { (input : spec.Input) × WasAutomaton R.state source.old source.new input
        × ((file : Option (List ℕ)) → IsOutcome (Ok (Picture file)) input (S.state output.old) (S.state output.new) result) }
{
    let drawing = drawing_of(alloc, source)?;
    let printed = flushed(drawing.put_dot(output), output);
    drop(drawing);
    printed?;
    Ok(())
}

/// Carries out a plan.
fn asked<A: Allocator, R: ByteSource, S: ByteSink>(
    alloc: &A,
    plan: &Plan<'_>,
    source: &mut Source<R>,
    output: &mut S,
) -> Result<(), Refusal>
    requires source { IsOpen R.state source.old }
    requires output { (S.state output.old).stage ≡ Open }
    ensures shown { (input : spec.Input) × WasAutomaton R.state source.old source.new input
        × IsOutcome (Ok (request_in plan.now)) input (S.state output.old) (S.state output.new) result }
    ensures unread { NeedsNoInput (Ok (request_in plan.now)) → source.new ≡ source.old }
{
    match plan {
        Plan::Picture(_) => printed(alloc, source, output),
        Plan::Run(text, _) => run_shown(alloc, *text, source, output),
        Plan::Timeline(text, formula) => shown(alloc, *text, *formula, output),
    }
}

/// Carries out a plan, or refuses a command line that has none.
fn answered<A: Allocator, R: ByteSource, S: ByteSink>(
    alloc: &A,
    plan: &Result<Plan<'_>, PlanFault>,
    source: &mut Source<R>,
    output: &mut S,
) -> Result<(), Refusal>
    requires source { IsOpen R.state source.old }
    requires output { (S.state output.old).stage ≡ Open }
    ensures shown { (input : spec.Input) × WasAutomaton R.state source.old source.new input
        × IsOutcome (requested plan.now) input (S.state output.old) (S.state output.new) result }
    ensures unread { NeedsNoInput (requested plan.now) → source.new ≡ source.old }
{
    match plan {
        Ok(plan) => asked(alloc, plan, source, output),
        Err(fault) => Err(Refusal::of_words(*fault)),
    }
}

/// Carries out a plan and returns the exit status. It writes the drawing of the automaton that the source gives, which is that of the plan's file or the
/// standard input, with the names that the text has for it and for its states; or it writes the timeline of a word. Then it flushes the output. Or it writes
/// the message of a refusal. Only a drawing reads the source. Only a refusal because of a failed write leaves something in the output. A stream isn't used
/// again after one of its calls has failed.
pub fn draw_over<A: Allocator, R: ByteSource, S: ByteSink, M: ByteSink>(
    alloc: &A,
    plan: &Result<Plan<'_>, PlanFault>,
    source: &mut Source<R>,
    output: &mut S,
    message: &mut M,
) -> u8
    requires source { IsOpen R.state source.old }
    requires output { (S.state output.old).stage ≡ Open }
    requires message { (M.state message.old).stage ≡ Open }
    ensures shown { (input : spec.Input) × WasAutomaton R.state source.old source.new input
        × Shows (MayDraw (requested plan.now) input) (S.state output.old) (S.state output.new) (M.state message.old) (M.state message.new) result }
    ensures unread { NeedsNoInput (requested plan.now) → source.new ≡ source.old }
    ensures same_output { StaysAt (S.state output.old) (S.state output.new) }
    ensures same_message { StaysAt (M.state message.old) (M.state message.new) }
{
    let outcome = answered(alloc, plan, source, output);
    finish(outcome, message)
}
