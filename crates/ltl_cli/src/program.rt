//! The programs: from the words of a command line to the exit status.

ghost use Rattle.std.specs.Prelude.{◌≡◌, map, option_map};
ghost use Rattle.ltl_spec.specs.Tools.Outcome as spec;
ghost use Rattle.ltl_spec.specs.Tools.Stage.{Open};
ghost use Rattle.ltl_spec.specs.Tools.Refusal.{Checker};
ghost use Rattle.ltl_cli.specs.Inputs.{IsOpen, WasAutomaton, WasFormula};
ghost use Rattle.ltl_cli.specs.Openings.{Opens, OpensFor, opened_for};
ghost use Rattle.ltl_cli.specs.Headline.{IsInputFor, IsSourceOf, PlanMayShow, PlansFor, WordsMayShow};
ghost use Rattle.ltl_cli.specs.Headline.{automaton_file, file_asked, formula_file, input_asked, map_ok, request_planned};
ghost use Rattle.ltl_words.specs.Tools.{tool_of};
ghost use Rattle.ltl_cli.specs.Runs.{Shows, StaysAt, ToolRun};

use crate::check::check_over;
use crate::evaluate::evaluate_over;
use crate::files::Files;
use crate::source::{ClosableSource, Source};
use crate::translate::translate_over;
use ltl_streams::ByteSink;
use ltl_words::{FormulaWord, Plan, PlanFault, Tool, plan};
use std::alloc::Global;

/// The plan of a command line, or why there is no command line.
fn planned<'a>(
    alloc: Global,
    tool: Tool,
    words: Result<&'a [&'a str], PlanFault>,
) -> Result<Plan<'a>, PlanFault>
    ensures { PlansFor (tool_of tool) (map_ok (λ ws. map (λ w. w.now) ws.now) words.entry) result }
{
    match words {
        Ok(words) => plan(alloc, tool, words),
        Err(fault) => Err(fault),
    }
}

/// The source of the formula: its file, if the plan names one.
fn formula_source<F: Files>(files: &mut F, plan: &Result<Plan<'_>, PlanFault>) -> Source<F::File>
    ensures source { IsSourceOf F.File.state (F.Stands files.old) (formula_file (request_planned plan.now)) result }
    ensures opened { Opens F.Opened F.Stands F.Comes (file_asked (request_planned plan.now)) files.old files.new }
{
    let Ok(plan) = plan else {
        return Source::Text;
    };
    match plan.formula() {
        FormulaWord::Given(_) => Source::Text,
        FormulaWord::File(name) => files.open(name),
    }
}

/// The standard input, as the source of the automaton. Without a plan it isn't asked for.
fn input_source<F: Files>(files: &mut F, plan: &Result<Plan<'_>, PlanFault>) -> Source<F::Input>
    ensures source { IsInputFor F.Input.state (F.Comes files.old) (request_planned plan.now) result }
    ensures opened { Opens F.Opened F.Stands F.Comes (input_asked (request_planned plan.now)) files.old files.new }
{
    match plan {
        Ok(_) => Source::Input(files.input()),
        Err(_) => Source::Text,
    }
}

/// The name of the automaton's file, if the plan has one.
fn automaton_name<'a>(plan: &Result<Plan<'a>, PlanFault>) -> Option<&'a str>
    ensures { option_map (λ s. s.now) result ≡ automaton_file (request_planned plan.now) }
{
    let Ok(plan) = plan else {
        return None;
    };
    plan.automaton()
}

/// Carries out a plan of the checker, and closes the sources.
fn check_closing<R: ClosableSource, T: ClosableSource, S: ByteSink, M: ByteSink>(
    alloc: Global,
    plan: &Result<Plan<'_>, PlanFault>,
    source: Source<R>,
    automaton: Source<T>,
    output: &mut S,
    message: &mut M,
) -> u8
    requires source { IsOpen R.state source }
    requires automaton { IsOpen T.state automaton }
    requires output { (S.state output.old).stage ≡ Open }
    requires message { (M.state message.old).stage ≡ Open }
    ensures shown { (input : spec.Input) × ((behind : Source R) × WasFormula R.state source behind input)
        × (file : spec.Input) × ((behind : Source T) × WasAutomaton T.state automaton behind file)
        × Shows (ToolRun Checker plan.now input file) (S.state output.old) (S.state output.new) (M.state message.old) (M.state message.new) result }
    ensures same_output { StaysAt (S.state output.old) (S.state output.new) }
    ensures same_message { StaysAt (M.state message.old) (M.state message.new) }
{
    let mut source = source;
    let mut automaton = automaton;
    let status = check_over(&alloc, plan, &mut source, &mut automaton, output, message);
    automaton.close();
    source.close();
    status
}

/// Checks the automaton in the file that the plan names, or else the one in the standard input.
#[tactic(auto, using(crate::proofs::HeadlineLaws::source_open, crate::proofs::HeadlineLaws::file_open, crate::proofs::HeadlineLaws::given_open))]
fn check_by_plan<F: Files, S: ByteSink, M: ByteSink>(
    alloc: Global,
    plan: &Result<Plan<'_>, PlanFault>,
    files: &mut F,
    output: &mut S,
    message: &mut M,
) -> u8
    requires output { (S.state output.old).stage ≡ Open }
    requires message { (M.state message.old).stage ≡ Open }
    ensures shown { Shows (PlanMayShow (F.Stands files.old) (F.Comes files.old) Checker plan.now)
        (S.state output.old) (S.state output.new) (M.state message.old) (M.state message.new) result }
    ensures same_output { StaysAt (S.state output.old) (S.state output.new) }
    ensures same_message { StaysAt (M.state message.old) (M.state message.new) }
    ensures opened { Opens F.Opened F.Stands F.Comes (opened_for Checker (request_planned plan.now)) files.old files.new }
{
    let formula = formula_source(files, plan);
    match automaton_name(plan) {
        Some(name) => {
            let automaton = files.open(name);
            check_closing(alloc, plan, formula, automaton, output, message)
        }
        None => {
            let automaton = input_source(files, plan);
            check_closing(alloc, plan, formula, automaton, output, message)
        }
    }
}

/// Carries out a plan of the tool.
#[tactic(auto, using(crate::proofs::HeadlineLaws::source_open))]
fn run_plan<F: Files, S: ByteSink, M: ByteSink>(
    alloc: Global,
    tool: Tool,
    plan: &Result<Plan<'_>, PlanFault>,
    files: &mut F,
    output: &mut S,
    message: &mut M,
) -> u8
    requires output { (S.state output.old).stage ≡ Open }
    requires message { (M.state message.old).stage ≡ Open }
    ensures shown { Shows (PlanMayShow (F.Stands files.old) (F.Comes files.old) (tool_of tool) plan.now)
        (S.state output.old) (S.state output.new) (M.state message.old) (M.state message.new) result }
    ensures same_output { StaysAt (S.state output.old) (S.state output.new) }
    ensures same_message { StaysAt (M.state message.old) (M.state message.new) }
    ensures opened { Opens F.Opened F.Stands F.Comes (opened_for (tool_of tool) (request_planned plan.now)) files.old files.new }
{
    match tool {
        Tool::Translator => {
            let mut formula = formula_source(files, plan);
            let status = translate_over(&alloc, plan, &mut formula, output, message);
            formula.close();
            status
        }
        Tool::Evaluator => {
            let mut formula = formula_source(files, plan);
            let status = evaluate_over(&alloc, plan, &mut formula, output, message);
            formula.close();
            status
        }
        Tool::Checker => check_by_plan(alloc, plan, files, output, message),
    }
}

/// Runs a program with the words of its command line and returns the exit status. The first word is the program's name and isn't looked at. If the words
/// couldn't be obtained, that is reported as a usage error or as lack of memory. The checker reads the automaton from the standard input if they name no
/// file for it. `output` and `message` are fresh: no call has been made on them. Each source that is opened is closed, and isn't read after its end or after a
/// failed read.
pub fn run<'a, F: Files, S: ByteSink, M: ByteSink>(
    alloc: Global,
    tool: Tool,
    words: Result<&'a [&'a str], PlanFault>,
    files: &mut F,
    output: &mut S,
    message: &mut M,
) -> u8
    requires output { (S.state output.old).stage ≡ Open }
    requires message { (M.state message.old).stage ≡ Open }
    ensures shown { Shows (WordsMayShow (F.Stands files.old) (F.Comes files.old) (tool_of tool) (map_ok (λ ws. map (λ w. w.now) ws.now) words.entry))
        (S.state output.old) (S.state output.new) (M.state message.old) (M.state message.new) result }
    ensures same_output { StaysAt (S.state output.old) (S.state output.new) }
    ensures same_message { StaysAt (M.state message.old) (M.state message.new) }
    ensures opened { OpensFor F.Opened F.Stands F.Comes (tool_of tool) (map_ok (λ ws. map (λ w. w.now) ws.now) words.entry) files.old files.new result }
{
    let plan = planned(alloc, tool, words);
    run_plan(alloc, tool, &plan, files, output, message)
}
