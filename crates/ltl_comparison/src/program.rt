//! The program over any files: from the words of a command line to the exit status.

ghost use Rattle.std.specs.Prelude.{◌≡◌, Some, map};
ghost use Rattle.ltl_spec.specs.Tools.Stage.{Open};
ghost use Rattle.ltl_words.specs.Comparer.{pair_planned};
ghost use Rattle.ltl_words.specs.Plans.{formula_word};
ghost use Rattle.ltl_cli.specs.Headline.{IsSourceOf, file_named, map_ok};
ghost use Rattle.ltl_cli.specs.Openings.{Opens, formula_opened};
ghost use Rattle.ltl_cli.specs.Runs.{Shows, StaysAt};
ghost use Rattle.ltl_comparison.specs.Openings.{OpensFor, pair_opened};
ghost use Rattle.ltl_comparison.specs.Runs.{PairMayCompare, PlansFor, WordsMayCompare};

use crate::comparing::compare_over;
use crate::finish::finish;
use crate::refusal::Refused;
use ltl_cli::{Files, Source};
use ltl_streams::ByteSink;
use ltl_words::{ComparerPlan, FormulaWord, PlanFault, comparer_plan};
use std::alloc::Global;

/// The plan of a command line, or why there is no command line.
fn planned<'a>(
    alloc: Global,
    words: Result<&'a [&'a str], PlanFault>,
) -> Result<ComparerPlan<'a>, PlanFault>
    ensures { PlansFor (map_ok (λ ws. map (λ w. w.now) ws.now) words.entry) result }
{
    match words {
        Ok(words) => comparer_plan(alloc, words),
        Err(fault) => Err(fault),
    }
}

/// The source of a formula: its file, if the command line names one.
fn source_of<F: Files>(files: &mut F, word: FormulaWord<'_>) -> Source<F::File>
    ensures source { IsSourceOf F.File.state (F.Stands files.old) (file_named (formula_word word.entry)) result }
    ensures opened { Opens F.Opened F.Stands F.Comes (formula_opened (formula_word word.entry)) files.old files.new }
{
    match word {
        FormulaWord::Given(_) => Source::Text,
        FormulaWord::File(name) => files.open(name),
    }
}

/// Carries out a plan, with the formulas in the files that it names.
#[tactic(auto, using(ltl_cli::proofs::HeadlineLaws::source_open))]
fn compare_plan<F: Files, S: ByteSink, M: ByteSink>(
    alloc: Global,
    plan: &ComparerPlan<'_>,
    files: &mut F,
    output: &mut S,
    message: &mut M,
) -> u8
    requires output { (S.state output.old).stage ≡ Open }
    requires message { (M.state message.old).stage ≡ Open }
    ensures shown { Shows (PairMayCompare (F.Stands files.old) (Some (pair_planned plan.now)))
        (S.state output.old) (S.state output.new) (M.state message.old) (M.state message.new) result }
    ensures same_output { StaysAt (S.state output.old) (S.state output.new) }
    ensures same_message { StaysAt (M.state message.old) (M.state message.new) }
    ensures opened { Opens F.Opened F.Stands F.Comes (pair_opened (Some (pair_planned plan.now))) files.old files.new }
{
    let mut first = source_of(files, plan.first());
    let mut second = source_of(files, plan.second());
    let status = compare_over(&alloc, plan, &mut first, &mut second, output, message);
    second.close();
    first.close();
    status
}

/// Runs the program with the words of its command line and returns the exit status. The first word is the program's name and isn't looked at. If the words
/// couldn't be obtained, that is reported as a usage error or as lack of memory. Only the formulas' files are opened, if the words name some, before anything
/// is read. `output` and `message` are fresh: no call has been made on them. Each source that is opened is closed, and isn't read after its end or after a
/// failed read.
pub fn compare_words<'a, F: Files, S: ByteSink, M: ByteSink>(
    alloc: Global,
    words: Result<&'a [&'a str], PlanFault>,
    files: &mut F,
    output: &mut S,
    message: &mut M,
) -> u8
    requires output { (S.state output.old).stage ≡ Open }
    requires message { (M.state message.old).stage ≡ Open }
    ensures shown { Shows (WordsMayCompare (F.Stands files.old) (map_ok (λ ws. map (λ w. w.now) ws.now) words.entry))
        (S.state output.old) (S.state output.new) (M.state message.old) (M.state message.new) result }
    ensures same_output { StaysAt (S.state output.old) (S.state output.new) }
    ensures same_message { StaysAt (M.state message.old) (M.state message.new) }
    ensures opened { OpensFor F.Opened F.Stands F.Comes (map_ok (λ ws. map (λ w. w.now) ws.now) words.entry) files.old files.new result }
{
    match planned(alloc, words) {
        Ok(plan) => compare_plan(alloc, &plan, files, output, message),
        Err(fault) => finish(Err(Refused::of_words(fault)), message),
    }
}
