//! The command line of `ltlreduce`, parsed by `clap`.

ghost use Rattle.std.specs.Prelude.{◌≡◌, map, false, IfOk};
ghost use Rattle.clap.specs.Words.{app_of, found_of, rows_of, rule_of};
ghost use Rattle.ltl_words.specs.Words.{flag_rule, has_flag, value_rule};
ghost use Rattle.ltl_reduction.specs.Plans.{Matches, Plans, reduce_app, request_in, request_of_rows, requested};

use crate::request::Plan;
use clap::error::ErrorKind;
use clap::{Arg, ArgAction, ArgMatches, Command};
use ltl_words::PlanFault;
use std::alloc::{AllocError, Global};

/// A flag: an option without a value.
fn flag<'a>(alloc: Global, id: &'a str, short: char) -> Arg<'a>
    ensures rule { rule_of result ≡ flag_rule id.entry.now short }
    ensures local { result.global ≡ false }
{
    Arg::new(alloc, id).short(short).action(ArgAction::SetTrue)
}

/// An option with a value.
fn value<'a>(alloc: Global, id: &'a str, short: char) -> Arg<'a>
    ensures rule { rule_of result ≡ value_rule id.entry.now short }
    ensures local { result.global ≡ false }
{
    Arg::new(alloc, id).short(short).action(ArgAction::Set)
}

/// The command: `-c`, and `-A` with a value.
fn command<'a>(alloc: Global) -> Result<Command<'a>, AllocError>
    ensures { IfOk result (λ c. app_of c ≡ reduce_app) }
{
    Command::new(alloc, "ltlreduce")
        .arg(flag(alloc, "c", 'c'))?
        .arg(value(alloc, "A", 'A'))
}

/// The values of the options. Words that don't fit are usage errors.
fn matched<'a>(alloc: Global, words: &'a [&'a str]) -> Result<ArgMatches<'a>, PlanFault>
    ensures { Matches (map (λ w. w.now) words.entry.now) result }
{
    let command = command(alloc)?;
    match command.try_get_matches_from(words) {
        Ok(matches) => Ok(matches),
        Err(error) => match error.kind() {
            ErrorKind::OutOfMemory => Err(PlanFault::OutOfMemory),
            _ => Err(PlanFault::Usage),
        },
    }
}

/// Whether the flag was given.
fn is_set(matches: &ArgMatches<'_>, id: &str) -> bool
    ensures { result ≡ has_flag id.now (rows_of (found_of matches.now)) }
{
    match matches.get_str(id) {
        Some(text) => text == "true",
        None => false,
    }
}

/// The plan for the parsed command line.
fn planned<'a>(matches: &ArgMatches<'a>) -> Plan<'a>
    ensures { request_in result ≡ request_of_rows (rows_of (found_of matches.now)) }
{
    Plan {
        claim: is_set(matches, "c"),
        file: matches.get_str("A"),
    }
}

/// The plan of a command line. The first word is the program's name, and is ignored. The errors are `Usage` and `OutOfMemory`.
pub fn plan<'a>(alloc: Global, words: &'a [&'a str]) -> Result<Plan<'a>, PlanFault>
    ensures { Plans (map (λ w. w.now) words.entry.now) (requested result) }
{
    let matches = matched(alloc, words)?;
    Ok(planned(&matches))
}
