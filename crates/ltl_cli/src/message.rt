//! The messages of refusals, one line each.

ghost use Rattle.std.specs.Prelude.{◌≡◌, ◌≤◌, ◌++◌, List, ℕ, codes, length, OnOk, OnErr};
ghost use Rattle.ltl_streams.specs.Printing.{Prints};
ghost use Rattle.ltl_streams.specs.Streams.{Breaks, Takes};
ghost use Rattle.ltl_spec.specs.Tools.Refusal as spec;
ghost use Rattle.ltl_cli.specs.Messages.{back_text, front_text, line_for, number_in, number_text, text_for};
ghost use Rattle.ltl_cli.specs.Refusals.{refusal_of};
ghost use Rattle.ltl_words.specs.Tools.{tool_of};
ghost use Rattle.ltl_cli.specs.Runs.{IsTold};

use crate::refusal::Refusal;
use ltl_streams::{ByteSink, Printer, WriteFault};
use ltl_text::Digits;
use ltl_words::Tool;

/// The beginning of each message of the tool.
pub fn name(tool: Tool) -> &'static [u8]
    ensures name { result.now ≡ spec.tool_name (tool_of tool) ++ codes ": " }
    ensures short { length result.now ≤ 10 }
{
    match tool {
        Tool::Translator => b"ltl2ba: ",
        Tool::Checker => b"ltlcheck: ",
        Tool::Evaluator => b"ltleval: ",
    }
}

/// The tool's line of usage.
fn usage(tool: Tool) -> &'static [u8]
    ensures usage { result.now ≡ codes "usage: " ++ spec.usage_text (tool_of tool) }
    ensures short { length result.now ≤ 64 }
{
    match tool {
        Tool::Translator => b"usage: ltl2ba [-l] [-o] [-p] [-H | -G] (-f formula | -F file)",
        Tool::Checker => b"usage: ltlcheck (-f formula | -F file) [-A file]",
        Tool::Evaluator => b"usage: ltleval (-f formula | -F file) -w lasso",
    }
}

/// The text of a refusal up to its number, or all of it if it has no number.
pub fn front(tool: Tool, refusal: Refusal) -> &'static [u8]
    ensures front { result.now ≡ front_text (tool_of tool) (refusal_of refusal) }
    ensures short { length result.now ≤ 64 }
{
    match refusal {
        Refusal::Usage => usage(tool),
        Refusal::CannotOpen => b"cannot open",
        Refusal::CannotRead => b"cannot read",
        Refusal::CannotWrite => b"cannot write",
        Refusal::OutOfMemory => b"out of memory",
        Refusal::LongFormula => b"limit: formula longer than 65536 bytes",
        Refusal::BadFormula(_, _) => b"formula: byte ",
        Refusal::TooManyPropositions => b"limit: more than 256 propositions",
        Refusal::TooManyRows => b"limit: more than 4096 rows",
        Refusal::TooManyElementaryRows => b"limit: more than 256 elementary rows",
        Refusal::LargeAutomaton => b"limit: automaton too large",
        Refusal::LongWord => b"limit: word longer than 65536 bytes",
        Refusal::BadWord(_) => b"word: byte ",
        Refusal::BadAutomaton(_, _) => b"automaton: line ",
        Refusal::LargeProduct => b"limit: product too large",
    }
}

/// The number in the text of a refusal: a byte offset from 0, or a line from 1.
pub fn number(refusal: Refusal) -> Option<usize>
    ensures { result ≡ number_in (refusal_of refusal) }
{
    match refusal {
        Refusal::BadFormula(place, _) => Some(place),
        Refusal::BadWord(place) => Some(place),
        Refusal::BadAutomaton(line, _) => Some(line),
        _ => None,
    }
}

/// The text after the number and the colon.
pub fn back(refusal: Refusal) -> &'static [u8]
    ensures back { result.now ≡ back_text (refusal_of refusal) }
    ensures short { length result.now ≤ 30 }
{
    match refusal {
        Refusal::BadFormula(_, kind) => kind.text().as_bytes(),
        Refusal::BadWord(_) => b"bad word",
        Refusal::BadAutomaton(_, kind) => kind.text().as_bytes(),
        _ => b"",
    }
}

/// Writes a number and a colon, if there is a number.
fn put_number<M: ByteSink>(number: Option<usize>, out: &mut Printer<'_, M>)
    ensures { Prints M.state out.old out.new (number_text number) }
{
    match number {
        Some(number) => {
            out.put(Digits::of(number as u64).as_slice());
            out.put(b": ");
        }
        None => (),
    }
}

/// Writes the text of a refusal to a printer: the message without the tool's name and without a line feed. It allocates nothing.
pub fn print_text<M: ByteSink>(tool: Tool, refusal: Refusal, out: &mut Printer<'_, M>)
    ensures { Prints M.state out.old out.new (text_for tool refusal) }
{
    out.put(front(tool, refusal));
    put_number(number(refusal), out);
    out.put(back(refusal));
}

/// Writes the text of a refusal, up to the first call that fails: the message without the tool's name and without a line feed. It allocates nothing.
pub fn put_text<M: ByteSink>(
    tool: Tool,
    refusal: Refusal,
    message: &mut M,
) -> Result<(), WriteFault>
    ensures ok { OnOk result (Takes (M.state message.old) (M.state message.new) (text_for tool refusal)) }
    ensures err { OnErr result (Breaks (M.state message.old) (M.state message.new) (text_for tool refusal)) }
{
    let mut out = Printer::new(message);
    print_text(tool, refusal, &mut out);
    out.end()
}

/// Writes the message of a refusal, up to the first call that fails. It allocates nothing.
pub(crate) fn write<M: ByteSink>(tool: Tool, refusal: Refusal, message: &mut M)
    ensures { IsTold (M.state message.old) (M.state message.new) (line_for tool refusal) }
{
    let mut out = Printer::new(message);
    out.put(name(tool));
    print_text(tool, refusal, &mut out);
    out.put(b"\n");
    let _ = out.end();
}
