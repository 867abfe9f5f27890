//! The command line of `ltlcompare`.

ghost use Rattle.std.specs.Prelude.{◌≡◌, map, option_map, IfOk};
ghost use Rattle.clap.specs.Words.{app_of, found_of, rows_of};
ghost use Rattle.ltl_words.specs.Comparer.{ComparerMatches, ComparerPlans, comparer_app, pair_of, pair_of_rows, pair_planned};
ghost use Rattle.ltl_words.specs.Plans.{formula_word};

use crate::command::value;
use crate::request::{FormulaWord, PlanFault};
use crate::words::one_formula;
use clap::error::ErrorKind;
use clap::{ArgMatches, Command};
use std::alloc::{AllocError, Global};

/// The two formulas that a command line compares.
#[derive(Clone, Copy, Debug)]
pub struct ComparerPlan<'a> {
    pub(crate) first: FormulaWord<'a>,
    pub(crate) second: FormulaWord<'a>,
}

impl<'a> ComparerPlan<'a> {
    /// The first formula, or the name of its file: `-f` or `-F`.
    pub fn first(&self) -> FormulaWord<'a>
        ensures { result ≡ self.now.first }
    {
        self.first
    }

    /// The second formula, or the name of its file: `-g` or `-G`.
    pub fn second(&self) -> FormulaWord<'a>
        ensures { result ≡ self.now.second }
    {
        self.second
    }
}

/// The command: `-f`, `-F`, `-g` and `-G`, each with a value.
fn comparer_command<'a>(alloc: Global) -> Result<Command<'a>, AllocError>
    ensures { IfOk result (λ c. app_of c ≡ comparer_app) }
{
    Command::new(alloc, "ltlcompare")
        .arg(value(alloc, "f", 'f'))?
        .arg(value(alloc, "F", 'F'))?
        .arg(value(alloc, "g", 'g'))?
        .arg(value(alloc, "G", 'G'))
}

/// The values of the options. Any error but a refused allocation is `Usage`.
fn matched<'a>(alloc: Global, words: &'a [&'a str]) -> Result<ArgMatches<'a>, PlanFault>
    ensures { ComparerMatches (map (λ w. w.now) words.entry.now) result }
{
    let command = comparer_command(alloc)?;
    match command.try_get_matches_from(words) {
        Ok(matches) => Ok(matches),
        Err(error) => match error.kind() {
            ErrorKind::OutOfMemory => Err(PlanFault::OutOfMemory),
            _ => Err(PlanFault::Usage),
        },
    }
}

/// The plan for two formulas, if both were given.
fn both<'a>(
    first: Option<FormulaWord<'a>>,
    second: Option<FormulaWord<'a>>,
) -> Option<ComparerPlan<'a>>
    ensures { option_map pair_planned result ≡ pair_of (option_map formula_word first.entry) (option_map formula_word second.entry) }
{
    match (first, second) {
        (Some(first), Some(second)) => Some(ComparerPlan { first, second }),
        _ => None,
    }
}

/// The plan for the parsed command line.
fn planned<'a>(matches: &ArgMatches<'a>) -> Option<ComparerPlan<'a>>
    ensures { option_map pair_planned result ≡ pair_of_rows (rows_of (found_of matches.now)) }
{
    both(
        one_formula(matches.get_str("f"), matches.get_str("F")),
        one_formula(matches.get_str("g"), matches.get_str("G")),
    )
}

/// The plan of a command line of `ltlcompare`. The first word is the program's name, and is skipped.
pub fn comparer_plan<'a>(alloc: Global, words: &'a [&'a str]) -> Result<ComparerPlan<'a>, PlanFault>
    ensures { ComparerPlans (map (λ w. w.now) words.entry.now) result }
{
    let matches = matched(alloc, words)?;
    match planned(&matches) {
        Some(plan) => Ok(plan),
        None => Err(PlanFault::Usage),
    }
}
