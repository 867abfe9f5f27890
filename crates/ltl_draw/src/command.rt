//! The command line of `ltldraw`, parsed by `clap`.

ghost use Rattle.std.specs.Prelude.{◌≡◌, map, option_map, false, IfOk};
ghost use Rattle.clap.specs.Words.{app_of, found_of, rows_of, rule_of};
ghost use Rattle.ltl_words.specs.Words.{value_rule};
ghost use Rattle.ltl_draw.specs.Plans.{Matches, Plans, draw_app, request_for, request_in, request_of_rows, requested};

use crate::request::Plan;
use clap::error::ErrorKind;
use clap::{Arg, ArgAction, ArgMatches, Command};
use ltl_words::PlanFault;
use std::alloc::{AllocError, Global};

/// An option with a value.
fn value<'a>(alloc: Global, id: &'a str, short: char) -> Arg<'a>
    ensures rule { rule_of result ≡ value_rule id.entry.now short }
    ensures local { result.global ≡ false }
{
    Arg::new(alloc, id).short(short).action(ArgAction::Set)
}

/// The command: `-w`, `-t`, `-f` and `-A`, each with a value.
fn command<'a>(alloc: Global) -> Result<Command<'a>, AllocError>
    ensures { IfOk result (λ c. app_of c ≡ draw_app) }
{
    Command::new(alloc, "ltldraw")
        .arg(value(alloc, "w", 'w'))?
        .arg(value(alloc, "t", 't'))?
        .arg(value(alloc, "f", 'f'))?
        .arg(value(alloc, "A", 'A'))
}

/// The values of the options. Words that don't fit are usage errors.
fn matched<'a>(alloc: Global, words: &'a [&'a str]) -> Result<ArgMatches<'a>, PlanFault>
    ensures { Matches (map (λ w. w.now) words.entry.now) result }
{
    let command = command(alloc)?;
    match command.try_get_matches_from(words) {
        Ok(matches) => Ok(matches),
        Err(error) => match error.kind() {
            ErrorKind::OutOfMemory => Err(PlanFault::OutOfMemory),
            _ => Err(PlanFault::Usage),
        },
    }
}

/// The plan for the values of `-w`, `-t`, `-f` and `-A`. `-t` together with `-w` or `-A`, and `-f` without `-t`, mean nothing: the result is `None`.
fn one_plan<'a>(
    run: Option<&'a str>,
    word: Option<&'a str>,
    formula: Option<&'a str>,
    file: Option<&'a str>,
) -> Option<Plan<'a>>
    ensures { option_map request_in result
        ≡ request_for (option_map (λ s. s.now) run.entry) (option_map (λ s. s.now) word.entry) (option_map (λ s. s.now) formula.entry)
        (option_map (λ s. s.now) file.entry) }
{
    match (run, word, formula, file) {
        (Some(run), None, None, file) => Some(Plan::Run(run, file)),
        (None, Some(word), formula, None) => Some(Plan::Timeline(word, formula)),
        (None, None, None, file) => Some(Plan::Picture(file)),
        _ => None,
    }
}

/// The plan for the parsed command line.
fn planned<'a>(matches: &ArgMatches<'a>) -> Option<Plan<'a>>
    ensures { option_map request_in result ≡ request_of_rows (rows_of (found_of matches.now)) }
{
    one_plan(
        matches.get_str("w"),
        matches.get_str("t"),
        matches.get_str("f"),
        matches.get_str("A"),
    )
}

/// The plan of a command line. The first word is the program's name, and is ignored. The errors are `Usage` and `OutOfMemory`.
pub fn plan<'a>(alloc: Global, words: &'a [&'a str]) -> Result<Plan<'a>, PlanFault>
    ensures { Plans (map (λ w. w.now) words.entry.now) (requested result) }
{
    let matches = matched(alloc, words)?;
    match planned(&matches) {
        Some(plan) => Ok(plan),
        None => Err(PlanFault::Usage),
    }
}
