//! From the words of a command line to a plan.

ghost use Rattle.std.specs.Prelude.{◌≡◌, map, option_map};
ghost use Rattle.clap.specs.Words.{found_of, rows_of};
ghost use Rattle.ltl_words.specs.Words.{formula_among, lacks_word, request_of_rows};
ghost use Rattle.ltl_spec.specs.Tools.Programs.{layout_of};
ghost use Rattle.ltl_words.specs.Plans.{Plans, formula_word, layout_in, request_in};
ghost use Rattle.ltl_words.specs.Tools.{tool_of};

use crate::command::{is_set, matched};
use crate::layout::Layout;
use crate::request::{FormulaWord, Plan, PlanFault};
use crate::tool::Tool;
use clap::ArgMatches;
use ltl_models::Options;
use std::alloc::Global;

/// The formula, if exactly one of `-f` and `-F` was given.
pub(crate) fn one_formula<'a>(
    text: Option<&'a str>,
    path: Option<&'a str>,
) -> Option<FormulaWord<'a>>
    ensures { option_map formula_word result
        ≡ formula_among (option_map (λ s. s.now) text.entry) (option_map (λ s. s.now) path.entry) }
{
    match (text, path) {
        (Some(text), None) => Some(FormulaWord::Given(text)),
        (None, Some(path)) => Some(FormulaWord::File(path)),
        _ => None,
    }
}

/// The format that `-H` or `-G` selects. The two options exclude each other.
fn one_layout(hoa: bool, generalized: bool) -> Option<Layout>
    ensures { option_map layout_in result ≡ layout_of hoa generalized }
{
    match (hoa, generalized) {
        (false, false) => Some(Layout::Claim),
        (true, false) => Some(Layout::Hoa),
        (false, true) => Some(Layout::Generalized),
        (true, true) => None,
    }
}

/// Whether the program requires a word and none was given.
fn lacks(tool: Tool, word: &Option<&str>) -> bool
    ensures { result ≡ lacks_word (tool_of tool) (option_map (λ s. s.now) word.now) }
{
    matches!(tool, Tool::Evaluator) && word.is_none()
}

fn planned<'a>(tool: Tool, matches: &ArgMatches<'a>) -> Option<Plan<'a>>
    ensures { option_map request_in result ≡ request_of_rows (tool_of tool) (rows_of (found_of matches.now)) }
{
    let formula = one_formula(matches.get_str("f"), matches.get_str("F"))?;
    let layout = one_layout(is_set(matches, "H"), is_set(matches, "G"))?;
    let word = matches.get_str("w");
    if lacks(tool, &word) {
        return None;
    }
    Some(Plan {
        formula,
        automaton: matches.get_str("A"),
        word,
        rewrite: !is_set(matches, "l"),
        options: Options {
            keep_implied: is_set(matches, "o"),
            keep_equal: is_set(matches, "p"),
        },
        layout,
    })
}

/// The plan of a command line. The first word is the program's name, and is skipped.
pub fn plan<'a>(alloc: Global, tool: Tool, words: &'a [&'a str]) -> Result<Plan<'a>, PlanFault>
    ensures { Plans (tool_of tool) (map (λ w. w.now) words.entry.now) result }
{
    let matches = matched(alloc, tool, words)?;
    match planned(tool, &matches) {
        Some(plan) => Ok(plan),
        None => Err(PlanFault::Usage),
    }
}
