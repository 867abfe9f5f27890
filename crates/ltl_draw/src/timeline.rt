//! From the texts of a word and of a formula to their timeline.

ghost use Rattle.std.specs.Prelude.{◌≡◌, [], option_map, Ok, Err, Some, None, IfOk, IfErr, MatchResult};
ghost use Rattle.ltl_spec.specs.Tools.Limits.{stated_limits};
ghost use Rattle.ltl_spec.specs.Tools.Outcome as spec;
ghost use Rattle.ltl_spec.specs.Tools.Programs.{ReadsWord};
ghost use Rattle.ltl_spec.specs.Tools.Stage.{Open};
ghost use Rattle.ltl_cli.specs.Refusals.{TakesStep};
ghost use Rattle.ltl_pictures.specs.Timeline.{word_timeline};
ghost use Rattle.ltl_pictures.specs.TimelineView.{HasTrueMarks};
ghost use Rattle.ltl_draw.specs.Plans.{Timeline};
ghost use Rattle.ltl_draw.specs.Runs.{IsOutcome, IsSent, of_timeline};

use ltl_cli::{Refusal, formula_of};
use ltl_pictures::{TimelineFault, timeline_to, word_timeline_to};
use ltl_streams::ByteSink;
use ltl_syntax::{Formula, read};
use ltl_word::Lasso;
use std::alloc::Allocator;

/// The formula `true`, which has no propositions. The only error is `OutOfMemory`.
fn no_propositions<'a, A: Allocator>(alloc: &'a A) -> Result<Formula<'a, A>, Refusal>
    ensures names { IfOk result (λ f. f.names ≡ []) }
    ensures memory { IfErr result (λ e. e ≡ Refusal.OutOfMemory) }
{
    match read(alloc, b"true") {
        Ok(formula) => Ok(formula),
        Err(_) => Err(Refusal::OutOfMemory),
    }
}

/// Reads a word. Its propositions and those of the formula are counted together.
fn word_of<'a, A: Allocator>(
    alloc: &'a A,
    text: &str,
    formula: &Formula<'_, A>,
) -> Result<Lasso<'a, A>, Refusal>
    ensures { TakesStep (ReadsWord stated_limits formula.now.names text.now) (λ w. w) result }
{
    let word = Lasso::read(alloc, text.as_bytes(), formula)?;
    Ok(word)
}

/// Reads a word without a formula.
pub(crate) fn word_alone<'a, A: Allocator>(
    alloc: &'a A,
    text: &str,
) -> Result<Lasso<'a, A>, Refusal>
    ensures { TakesStep (ReadsWord stated_limits [] text.now) (λ w. w) result }
{
    let formula = no_propositions(alloc)?;
    word_of(alloc, text, &formula)
}

/// The outcome of a run that writes a timeline.
fn outcome(sent: Result<(), TimelineFault>) -> Result<(), Refusal>
    ensures { MatchResult sent (λ x. result ≡ Ok x) (λ fault. result ≡ Err (of_timeline fault)) }
{
    match sent {
        Ok(()) => Ok(()),
        Err(TimelineFault::CannotWrite) => Err(Refusal::CannotWrite),
        Err(TimelineFault::OutOfMemory) => Err(Refusal::OutOfMemory),
    }
}

/// Writes the timeline of the word and flushes the output.
fn send_word<A: Allocator, S: ByteSink>(
    alloc: &A,
    word: &Lasso<'_, A>,
    output: &mut S,
) -> Result<(), TimelineFault>
    ensures { IsSent (λ P. P (word_timeline word.now)) (S.state output.old) (S.state output.new) result }
{
    word_timeline_to(alloc, word, output)?;
    output.flush()?;
    Ok(())
}

/// Writes the timeline of the word and the formula and flushes the output.
fn send_both<A: Allocator, S: ByteSink>(
    alloc: &A,
    formula: &Formula<'_, A>,
    word: &Lasso<'_, A>,
    output: &mut S,
) -> Result<(), TimelineFault>
    ensures { IsSent (HasTrueMarks formula.now word.now) (S.state output.old) (S.state output.new) result }
{
    timeline_to(alloc, formula, word, output)?;
    output.flush()?;
    Ok(())
}

/// Reads a word and writes its timeline.
fn word_shown<A: Allocator, S: ByteSink>(
    alloc: &A,
    text: &str,
    output: &mut S,
) -> Result<(), Refusal>
    requires { (S.state output.old).stage ≡ Open }
    ensures { (input : spec.Input) → IsOutcome (Ok (Timeline text.now None)) input (S.state output.old) (S.state output.new) result }
{
    let word = word_alone(alloc, text)?;
    outcome(send_word(alloc, &word, output))
}

/// Reads a formula and a word for it, and writes their timeline.
fn both_shown<A: Allocator, S: ByteSink>(
    alloc: &A,
    text: &str,
    formula: &str,
    output: &mut S,
) -> Result<(), Refusal>
    requires { (S.state output.old).stage ≡ Open }
    ensures { (input : spec.Input) → IsOutcome (Ok (Timeline text.now (Some formula.now))) input (S.state output.old) (S.state output.new) result }
{
    let read = formula_of(alloc, formula.as_bytes())?;
    read.invariant();
    let word = word_of(alloc, text, &read)?;
    outcome(send_both(alloc, &read, &word, output))
}

/// Reads a word, and a formula if its text is given, and writes the timeline. The formula is read first, as in `ltleval`.
pub(crate) fn shown<A: Allocator, S: ByteSink>(
    alloc: &A,
    text: &str,
    formula: Option<&str>,
    output: &mut S,
) -> Result<(), Refusal>
    requires { (S.state output.old).stage ≡ Open }
    ensures { (input : spec.Input)
        → IsOutcome (Ok (Timeline text.now (option_map (λ s. s.now) formula.entry))) input (S.state output.old) (S.state output.new) result }
{
    match formula {
        Some(formula) => both_shown(alloc, text, formula, output),
        None => word_shown(alloc, text, output),
    }
}
