//! The command lines of the programs, declared for `clap`.

ghost use Rattle.std.specs.Prelude.{◌≡◌, map, IfOk, false};
ghost use Rattle.clap.specs.Words.{app_of, found_of, rows_of, rule_of};
ghost use Rattle.ltl_words.specs.Words.{app_for, checker_app, evaluator_app, flag_rule, has_flag, translator_app, value_rule};
ghost use Rattle.ltl_words.specs.Plans.{Matches};
ghost use Rattle.ltl_words.specs.Tools.{tool_of};

use crate::request::PlanFault;
use crate::tool::Tool;
use clap::error::ErrorKind;
use clap::{Arg, ArgAction, ArgMatches, Command};
use std::alloc::{AllocError, Global};

/// A flag: an option without a value.
fn flag<'a>(alloc: Global, id: &'a str, short: char) -> Arg<'a>
    ensures rule { rule_of result ≡ flag_rule id.entry.now short }
    ensures local { result.global ≡ false }
{
    Arg::new(alloc, id).short(short).action(ArgAction::SetTrue)
}

/// An option with a value.
pub(crate) fn value<'a>(alloc: Global, id: &'a str, short: char) -> Arg<'a>
    ensures rule { rule_of result ≡ value_rule id.entry.now short }
    ensures local { result.global ≡ false }
{
    Arg::new(alloc, id).short(short).action(ArgAction::Set)
}

fn translator_command<'a>(alloc: Global) -> Result<Command<'a>, AllocError>
    ensures { IfOk result (λ c. app_of c ≡ translator_app) }
{
    Command::new(alloc, "ltl2ba")
        .arg(flag(alloc, "l", 'l'))?
        .arg(flag(alloc, "o", 'o'))?
        .arg(flag(alloc, "p", 'p'))?
        .arg(flag(alloc, "H", 'H'))?
        .arg(flag(alloc, "G", 'G'))?
        .arg(value(alloc, "f", 'f'))?
        .arg(value(alloc, "F", 'F'))
}

fn checker_command<'a>(alloc: Global) -> Result<Command<'a>, AllocError>
    ensures { IfOk result (λ c. app_of c ≡ checker_app) }
{
    Command::new(alloc, "ltlcheck")
        .arg(value(alloc, "f", 'f'))?
        .arg(value(alloc, "F", 'F'))?
        .arg(value(alloc, "A", 'A'))
}

fn evaluator_command<'a>(alloc: Global) -> Result<Command<'a>, AllocError>
    ensures { IfOk result (λ c. app_of c ≡ evaluator_app) }
{
    Command::new(alloc, "ltleval")
        .arg(value(alloc, "f", 'f'))?
        .arg(value(alloc, "F", 'F'))?
        .arg(value(alloc, "w", 'w'))
}

fn command<'a>(alloc: Global, tool: Tool) -> Result<Command<'a>, AllocError>
    ensures { IfOk result (λ c. app_of c ≡ app_for (tool_of tool)) }
{
    match tool {
        Tool::Translator => translator_command(alloc),
        Tool::Checker => checker_command(alloc),
        Tool::Evaluator => evaluator_command(alloc),
    }
}

/// Whether the flag was given.
pub fn is_set(matches: &ArgMatches<'_>, id: &str) -> bool
    ensures { result ≡ has_flag id.now (rows_of (found_of matches.now)) }
{
    match matches.get_str(id) {
        Some(text) => text == "true",
        None => false,
    }
}

/// The options that were given, as `clap` parses them. The first word is the program's name, and is skipped. Any error but a refused allocation is
/// `Usage`.
pub fn matched<'a>(
    alloc: Global,
    tool: Tool,
    words: &'a [&'a str],
) -> Result<ArgMatches<'a>, PlanFault>
    ensures { Matches (tool_of tool) (map (λ w. w.now) words.entry.now) result }
{
    let command = command(alloc, tool)?;
    match command.try_get_matches_from(words) {
        Ok(matches) => Ok(matches),
        Err(error) => match error.kind() {
            ErrorKind::OutOfMemory => Err(PlanFault::OutOfMemory),
            _ => Err(PlanFault::Usage),
        },
    }
}
