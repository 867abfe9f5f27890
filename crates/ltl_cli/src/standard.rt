//! The programs over readers and writers of the standard library.

ghost use Rattle.std.specs.Prelude.{◌≡◌, IsErrOf};
ghost use Rattle.ltl_spec.specs.Tools.Refusal.{Checker, Evaluator, Translator};
ghost use Rattle.ltl_spec.specs.Tools.Outcome as spec;
ghost use Rattle.ltl_words.specs.Plans.{formula_word};
ghost use Rattle.ltl_cli.specs.Inputs.{GivesBytesOf, HoldsText, IsInputOf, IsReadFrom, TakesFewer, TakesUpTo, bytes_of, most_taken};
ghost use Rattle.ltl_cli.specs.Runs.{RunNeverShort, ShowsBytes, ToolRun};

use crate::check::check_over;
use crate::evaluate::evaluate_over;
use crate::input::{formula_of, read_file};
use crate::refusal::Refusal;
use crate::source::Source;
use crate::translate::translate_over;
use ltl_streams::{ByteSource, LentReader, ReaderSource, WriterSink};
use ltl_syntax::Formula;
use ltl_words::{FormulaWord, Plan, PlanFault};
use std::alloc::Allocator;
use std::io::{Read, Write};

/// The source with its reader as a byte source, which records how its calls went.
fn asked<R: Read + Drop>(source: Source<R>) -> Source<ReaderSource<R>>
    ensures { GivesBytesOf R.remaining ⟦<ReaderSource<R> as ByteSource>⟧.state source result }
{
    match source {
        Source::Text => Source::Text,
        Source::Input(reader) => Source::Input(ReaderSource::new(reader)),
        Source::NotOpened => Source::NotOpened,
    }
}

/// Reads the formula of a command line, as `formula_from` does.
#[tactic(auto, using(crate::proofs::InputLaws::stream_few))]
pub fn read_formula<'a, A: Allocator, R: Read>(
    alloc: &'a A,
    word: FormulaWord<'_>,
    source: &mut Source<R>,
) -> Result<Formula<'a, A>, Refusal>
    ensures read { (input : spec.Input) × IsInputOf R.remaining source.old input × IsReadFrom (formula_word word.entry) input result }
    ensures few { TakesUpTo (bytes_of R.remaining source.old) (bytes_of R.remaining source.new) most_taken }
    ensures failed { IsErrOf result Refusal.CannotRead → TakesFewer (bytes_of R.remaining source.old) (bytes_of R.remaining source.new) most_taken }
    ensures given { HoldsText (formula_word word.entry) → source.new ≡ source.old }
{
    match word {
        FormulaWord::Given(text) => formula_of(alloc, text.as_bytes()),
        FormulaWord::File(_) => match source {
            Source::Input(reader) => read_file(alloc, &mut LentReader::new(reader)),
            Source::Text | Source::NotOpened => Err(Refusal::CannotOpen),
        },
    }
}

/// Carries out a plan of `ltl2ba`, as `translate_over` does.
#[tactic(auto, using(crate::proofs::InputLaws::gives_open))]
pub fn run_translate<A: Allocator, R: Read + Drop, W: Write, E: Write>(
    alloc: &A,
    plan: &Result<Plan<'_>, PlanFault>,
    source: Source<R>,
    output: &mut W,
    message: &mut E,
) -> u8
    ensures shown { (input : spec.Input) × IsInputOf R.remaining source input × ((file : spec.Input)
        → ShowsBytes (ToolRun Translator plan.now input file)
        (W.contents output.old) (W.contents output.new) (E.contents message.old) (E.contents message.new) result) }
    ensures memory { ((input : spec.Input) → IsInputOf R.remaining source input → RunNeverShort Translator plan.now input spec.NotOpened) → ¬ (result ≡ 4) }
{
    translate_over(
        alloc,
        plan,
        &mut asked(source),
        &mut WriterSink::new(output),
        &mut WriterSink::new(message),
    )
}

/// Carries out a plan of `ltlcheck`, as `check_over` does.
#[tactic(auto, using(crate::proofs::InputLaws::gives_open))]
pub fn run_check<A: Allocator, R: Read + Drop, S: Read + Drop, W: Write, E: Write>(
    alloc: &A,
    plan: &Result<Plan<'_>, PlanFault>,
    source: Source<R>,
    automaton: Source<S>,
    output: &mut W,
    message: &mut E,
) -> u8
    ensures { (input : spec.Input) × IsInputOf R.remaining source input × (file : spec.Input) × IsInputOf S.remaining automaton file
        × ShowsBytes (ToolRun Checker plan.now input file)
        (W.contents output.old) (W.contents output.new) (E.contents message.old) (E.contents message.new) result }
{
    check_over(
        alloc,
        plan,
        &mut asked(source),
        &mut asked(automaton),
        &mut WriterSink::new(output),
        &mut WriterSink::new(message),
    )
}

/// Carries out a plan of `ltleval`, as `evaluate_over` does.
#[tactic(auto, using(crate::proofs::InputLaws::gives_open))]
pub fn run_eval<A: Allocator, R: Read + Drop, W: Write, E: Write>(
    alloc: &A,
    plan: &Result<Plan<'_>, PlanFault>,
    source: Source<R>,
    output: &mut W,
    message: &mut E,
) -> u8
    ensures { (input : spec.Input) × IsInputOf R.remaining source input × ((file : spec.Input)
        → ShowsBytes (ToolRun Evaluator plan.now input file)
        (W.contents output.old) (W.contents output.new) (E.contents message.old) (E.contents message.new) result) }
{
    evaluate_over(
        alloc,
        plan,
        &mut asked(source),
        &mut WriterSink::new(output),
        &mut WriterSink::new(message),
    )
}
