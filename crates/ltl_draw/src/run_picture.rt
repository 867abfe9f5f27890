//! The drawing of an automaton with an accepting run on a word.

ghost use Rattle.std.specs.Prelude.{◌≡◌, ℕ, List, Option, Ok};
ghost use Rattle.ltl_spec.specs.Tools.Stage.{Open};
ghost use Rattle.ltl_spec.specs.Tools.Outcome as spec;
ghost use Rattle.ltl_cli.specs.Inputs.{IsOpen, WasAutomaton};
ghost use Rattle.ltl_cli.specs.Refusals.{TakesStep};
ghost use Rattle.ltl_draw.specs.Plans.{Run};
ghost use Rattle.ltl_draw.specs.Runs.{IsOutcome, RunsOn, of_run};

use crate::input::named_of;
use crate::named::Named;
use crate::timeline::word_alone;
use ltl_cli::{Refusal, Source, flushed};
use ltl_pictures::{RunDrawing, RunFault, accepting_run};
use ltl_streams::{ByteSink, ByteSource};
use ltl_word::Lasso;
use std::alloc::Allocator;

/// The refusal for a search that doesn't finish.
fn refused(fault: RunFault) -> Refusal
    ensures { result ≡ of_run fault }
{
    match fault {
        RunFault::TooLarge => Refusal::LargeProduct,
        RunFault::OutOfMemory => Refusal::OutOfMemory,
    }
}

/// The drawing of the automaton with an accepting run on the word, if there is one.
fn run_drawing<'a, A: Allocator>(
    alloc: &'a A,
    named: Named<'a, A>,
    word: &Lasso<'_, A>,
) -> Result<RunDrawing<'a, A>, Refusal>
    ensures { TakesStep (RunsOn named.entry word.now) (λ d. d) result }
{
    let Named { automaton, names } = named;
    let run = match accepting_run(alloc, &automaton, word) {
        Ok(run) => run,
        Err(fault) => return Err(refused(fault)),
    };
    automaton.invariant();
    let drawing = RunDrawing::new(alloc, automaton, names, run)?;
    Ok(drawing)
}

/// Reads a word from the text, then an automaton and its names from the source, and writes their drawing with an accepting run on the word.
pub(crate) fn run_shown<A: Allocator, R: ByteSource, S: ByteSink>(
    alloc: &A,
    text: &str,
    source: &mut Source<R>,
    output: &mut S,
) -> Result<(), Refusal>
    requires source { IsOpen R.state source.old }
    requires output { (S.state output.old).stage ≡ Open }
    ensures { (input : spec.Input) × WasAutomaton R.state source.old source.new input
        × ((file : Option (List ℕ)) → IsOutcome (Ok (Run text.now file)) input (S.state output.old) (S.state output.new) result) }
{
    let word = word_alone(alloc, text)?;
    let named = named_of(alloc, source)?;
    let drawing = run_drawing(alloc, named, &word)?;
    let printed = flushed(drawing.put_dot(output), output);
    drop(drawing);
    printed?;
    Ok(())
}
