//! The C call `ltl2ba_message`: the line that a program prints for a refusal.

ghost use Rattle.std.specs.Prelude.{◌≡◌, ◌≤◌, Option, length, option_map};
ghost use Rattle.ltl_spec.specs.Tools.Comparer.{comparer_message, subject_of_text};
ghost use Rattle.ltl_spec.specs.Tools.Limits.{stated_limits};
ghost use Rattle.ltl_spec.specs.Tools.Refusal as spec;
ghost use Rattle.ltl_cli.specs.Messages.{line_for};
ghost use Rattle.ltl_cli.specs.Refusals.{refusal_of};
ghost use Rattle.ltl_draw.specs.Messages.{draw_message};
ghost use Rattle.ltl_reduction.specs.Messages.{reduce_message};
ghost use Rattle.ltl_c.specs.Calls.{Delivers};
ghost use Rattle.ltl_c.specs.Codes.{code_for, line_numbered, program_line, program_numbered, refusal_in, subject_in};
ghost use Rattle.ltl_c.specs.Lines.{comparer_front_text, draw_front_text, program_in, reduce_front_text};

use crate::buffer::deliver;
use crate::line::{SIZE, put, put_number};
use crate::refusal_code::{RefusalCode, refusal_at};
use crate::subject::Subject;
use arrayvec::ArrayVec;
use ltl_cli::Refusal;
use ltl_cli::message::{back, front, name, number};
use ltl_words::Tool;

/// A program; the comparer with what a refusal is about.
#[derive(Clone, Copy, Debug, PartialEq, Eq)]
enum Program {
    Plain(Tool),
    Comparer(Subject),
    Drawer,
    Reducer,
}

/// The whole line for a refusal, with a line feed.
fn plain_line(tool: Tool, refusal: Refusal) -> ArrayVec<u8, SIZE>
    ensures { result.items ≡ line_for tool refusal }
{
    let mut line = ArrayVec::new();
    put(&mut line, name(tool));
    put(&mut line, front(tool, refusal));
    put_number(&mut line, number(refusal));
    put(&mut line, back(refusal));
    put(&mut line, b"\n");
    line
}

/// What stands before the text of a refusal of the comparer: which formula has a syntax error.
fn formula_name(subject: Subject, refusal: Refusal) -> &'static [u8]
    ensures name { result.now ≡ subject_of_text (subject_in subject) (refusal_of refusal) }
    ensures short { length result.now ≤ 7 }
{
    match (refusal, subject) {
        (Refusal::BadFormula(_, _), Subject::First) => b"first ",
        (Refusal::BadFormula(_, _), Subject::Second) => b"second ",
        _ => b"",
    }
}

/// The comparer's text of a refusal up to its number, or all of it if it has no number.
fn comparer_front(refusal: Refusal) -> &'static [u8]
    ensures front { result.now ≡ comparer_front_text (refusal_of refusal) }
    ensures short { length result.now ≤ 64 }
{
    match refusal {
        Refusal::Usage => b"usage: ltlcompare (-f formula | -F file) (-g formula | -G file)",
        _ => front(Tool::Checker, refusal),
    }
}

/// The whole line of the comparer for a refusal, with a line feed.
fn comparer_line(subject: Subject, refusal: Refusal) -> ArrayVec<u8, SIZE>
    ensures { result.items ≡ comparer_message stated_limits (subject_in subject) (refusal_of refusal) }
{
    let mut line = ArrayVec::new();
    put(&mut line, b"ltlcompare: ");
    put(&mut line, formula_name(subject, refusal));
    put(&mut line, comparer_front(refusal));
    put_number(&mut line, number(refusal));
    put(&mut line, back(refusal));
    put(&mut line, b"\n");
    line
}

/// The drawer's text of a refusal up to its number, or all of it if it has no number.
fn draw_front(refusal: Refusal) -> &'static [u8]
    ensures front { result.now ≡ draw_front_text (refusal_of refusal) }
    ensures short { length result.now ≤ 64 }
{
    match refusal {
        Refusal::Usage => b"usage: ltldraw [-A file] [-w lasso] | -t lasso [-f formula]",
        _ => front(Tool::Checker, refusal),
    }
}

/// The whole line of the drawer for a refusal, with a line feed.
fn draw_line(refusal: Refusal) -> ArrayVec<u8, SIZE>
    ensures { result.items ≡ draw_message (refusal_of refusal) }
{
    let mut line = ArrayVec::new();
    put(&mut line, b"ltldraw: ");
    put(&mut line, draw_front(refusal));
    put_number(&mut line, number(refusal));
    put(&mut line, back(refusal));
    put(&mut line, b"\n");
    line
}

/// The reducer's text of a refusal up to its number, or all of it if it has no number.
fn reduce_front(refusal: Refusal) -> &'static [u8]
    ensures front { result.now ≡ reduce_front_text (refusal_of refusal) }
    ensures short { length result.now ≤ 64 }
{
    match refusal {
        Refusal::Usage => b"usage: ltlreduce [-c] [-A file]",
        _ => front(Tool::Checker, refusal),
    }
}

/// The whole line of the reducer for a refusal, with a line feed.
fn reduce_line(refusal: Refusal) -> ArrayVec<u8, SIZE>
    ensures { result.items ≡ reduce_message (refusal_of refusal) }
{
    let mut line = ArrayVec::new();
    put(&mut line, b"ltlreduce: ");
    put(&mut line, reduce_front(refusal));
    put_number(&mut line, number(refusal));
    put(&mut line, back(refusal));
    put(&mut line, b"\n");
    line
}

/// The whole line of a program for a refusal.
fn line_of(program: Program, refusal: Refusal) -> ArrayVec<u8, SIZE>
    ensures { result.items ≡ program_line (program_in program) (refusal_of refusal) }
{
    match program {
        Program::Plain(tool) => plain_line(tool, refusal),
        Program::Comparer(subject) => comparer_line(subject, refusal),
        Program::Drawer => draw_line(refusal),
        Program::Reducer => reduce_line(refusal),
    }
}

/// The program with this number.
fn program_at(number: u32) -> Option<Program>
    ensures { option_map program_in result ≡ program_numbered number }
{
    match number {
        0 => Some(Program::Plain(Tool::Translator)),
        1 => Some(Program::Plain(Tool::Checker)),
        2 => Some(Program::Plain(Tool::Evaluator)),
        3 => Some(Program::Comparer(Subject::Other)),
        4 => Some(Program::Comparer(Subject::First)),
        5 => Some(Program::Comparer(Subject::Second)),
        6 => Some(Program::Drawer),
        7 => Some(Program::Reducer),
        _ => None,
    }
}

/// Writes the line that a program prints for a refusal into the buffer. The program is 0 for `ltl2ba`, 1 for `ltlcheck`, 2 for `ltleval`, 6 for `ltldraw`, 7 for
/// `ltlreduce`, and for `ltlcompare` 3 and the `subject` of the comparison added. The text is empty if there is no such program or if the code is that of no refusal. The result
/// is 0, or 6 if the buffer is too short; `count` is the length of the line in bytes. It allocates nothing.
#[unsafe(no_mangle)]
#[tactic(auto, using(crate::proofs::CodeLaws::code_read))]
pub extern "C" fn ltl2ba_message(
    program: u32,
    refusal: &RefusalCode,
    buffer: &mut [u8],
    count: &mut usize,
) -> u8
    ensures line { Delivers 0 (line_numbered program refusal.now) buffer.old buffer.new count.new result }
    ensures reported { (reason : Option spec.Refusal) → refusal.now ≡ code_for reason → refusal_in refusal.now ≡ reason }
{
    match (program_at(program), refusal_at(refusal)) {
        (Some(program), Some(reason)) => {
            deliver(0, line_of(program, reason).as_slice(), buffer, count)
        }
        _ => deliver(0, b"", buffer, count),
    }
}
