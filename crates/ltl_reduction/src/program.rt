//! The program over any files: from the words of a command line to the exit status.

ghost use Rattle.std.specs.Prelude.{◌≡◌, map, option_map};
ghost use Rattle.ltl_spec.specs.Tools.Stage.{Open};
ghost use Rattle.ltl_cli.specs.Headline.{map_ok};
ghost use Rattle.ltl_cli.specs.Runs.{Shows, StaysAt};
ghost use Rattle.ltl_cli.specs.Openings.{Opens, automaton_opened};
ghost use Rattle.ltl_reduction.specs.Openings.{OpensFor};
ghost use Rattle.ltl_reduction.specs.Plans.{PlansFor, automaton_file, requested};
ghost use Rattle.ltl_reduction.specs.Runs.{PlanMayReduce, WordsMayReduce};

use crate::command::plan;
use crate::reduction::reduce_over;
use crate::request::Plan;
use ltl_cli::{Files, Source};
use ltl_streams::ByteSink;
use ltl_words::PlanFault;
use std::alloc::Global;

/// The plan of a command line, or why there is no command line.
fn planned<'a>(
    alloc: Global,
    words: Result<&'a [&'a str], PlanFault>,
) -> Result<Plan<'a>, PlanFault>
    ensures { PlansFor (map_ok (λ ws. map (λ w. w.now) ws.now) words.entry) (requested result) }
{
    match words {
        Ok(words) => plan(alloc, words),
        Err(fault) => Err(fault),
    }
}

/// The name of the automaton's file, if the plan has one.
fn automaton_name<'a>(plan: &Result<Plan<'a>, PlanFault>) -> Option<&'a str>
    ensures { option_map (λ s. s.now) result ≡ automaton_file (requested plan.now) }
{
    match plan {
        Ok(plan) => plan.file(),
        Err(_) => None,
    }
}

/// Carries out a plan, with the automaton in the file that it names, or else in the standard input.
#[tactic(auto, using(ltl_cli::proofs::HeadlineLaws::file_open))]
fn reduce_plan<F: Files, S: ByteSink, M: ByteSink>(
    alloc: Global,
    plan: &Result<Plan<'_>, PlanFault>,
    files: &mut F,
    output: &mut S,
    message: &mut M,
) -> u8
    requires output { (S.state output.old).stage ≡ Open }
    requires message { (M.state message.old).stage ≡ Open }
    ensures shown { Shows (PlanMayReduce (F.Stands files.old) (F.Comes files.old) (requested plan.now))
        (S.state output.old) (S.state output.new) (M.state message.old) (M.state message.new) result }
    ensures same_output { StaysAt (S.state output.old) (S.state output.new) }
    ensures same_message { StaysAt (M.state message.old) (M.state message.new) }
    ensures opened { Opens F.Opened F.Stands F.Comes (automaton_opened (automaton_file (requested plan.now))) files.old files.new }
{
    match automaton_name(plan) {
        Some(name) => {
            let mut source = files.open(name);
            let status = reduce_over(&alloc, plan, &mut source, output, message);
            source.close();
            status
        }
        None => {
            let mut source = Source::Input(files.input());
            let status = reduce_over(&alloc, plan, &mut source, output, message);
            source.close();
            status
        }
    }
}

/// Runs the program with the words of its command line and returns the exit status. The first word is the program's name and isn't looked at. If the words
/// couldn't be obtained, that is reported as a usage error or as lack of memory. Only the automaton's file is opened, if the words name one; else the automaton is read
/// from the standard input. `output` and `message` are fresh: no call has been made on them.
pub fn reduce_words<'a, F: Files, S: ByteSink, M: ByteSink>(
    alloc: Global,
    words: Result<&'a [&'a str], PlanFault>,
    files: &mut F,
    output: &mut S,
    message: &mut M,
) -> u8
    requires output { (S.state output.old).stage ≡ Open }
    requires message { (M.state message.old).stage ≡ Open }
    ensures shown { Shows (WordsMayReduce (F.Stands files.old) (F.Comes files.old) (map_ok (λ ws. map (λ w. w.now) ws.now) words.entry))
        (S.state output.old) (S.state output.new) (M.state message.old) (M.state message.new) result }
    ensures same_output { StaysAt (S.state output.old) (S.state output.new) }
    ensures same_message { StaysAt (M.state message.old) (M.state message.new) }
    ensures opened { OpensFor F.Opened F.Stands F.Comes (map_ok (λ ws. map (λ w. w.now) ws.now) words.entry) files.old files.new }
{
    let plan = planned(alloc, words);
    reduce_plan(alloc, &plan, files, output, message)
}
