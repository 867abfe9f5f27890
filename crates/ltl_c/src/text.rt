//! The C call `ltl2ba_text`: the text of a formula's automaton.

ghost use Rattle.std.specs.Prelude.{◌≡◌, length, MatchResult, OnOk};
ghost use Rattle.std.specs.Io.KnownBytes.{Appends};
ghost use Rattle.ltl_spec.specs.Checking.Bounds.{HasNamesBelow};
ghost use Rattle.ltl_spec.specs.Tools.Outcome as spec;
ghost use Rattle.ltl_spec.specs.Tools.Refusal.{Translator};
ghost use Rattle.ltl_cli.specs.Refusals.{TakesStep};
ghost use Rattle.ltl_cli.specs.Translations.{automaton_in, text_of};
ghost use Rattle.ltl_c.specs.Calls.{HandsOver, PrintsAsked, text_alone, translator_asked};

use crate::buffer::deliver;
use crate::made::{Made, made_of};
use crate::refusal_code::{RefusalCode, code_of, no_refusal};
use crate::text_options::TextOptions;
use ltl_cli::Refusal;
use ltl_streams::{WriteFault, WriterSink};
use std::alloc::{Allocator, Global};
use std::io::Write;

/// Writes the text of an automaton.
fn text_to<A: Allocator, W: Write>(made: &Made<'_, A>, writer: &mut W) -> Result<(), WriteFault>
    requires { HasNamesBelow (length made.now.formula.names) (automaton_in made.now.printable) }
    ensures ok { OnOk result (Appends (W.contents writer.old) (W.contents writer.new) (text_of made.now.printable made.now.formula)) }
{
    made.printable
        .put(&made.formula, &mut WriterSink::new(writer))
}

/// The text of an automaton.
fn text_in<'a, A: Allocator>(alloc: &'a A, made: &Made<'_, A>) -> Result<Vec<u8, &'a A>, Refusal>
    requires { HasNamesBelow (length made.now.formula.names) (automaton_in made.now.printable) }
    ensures { MatchResult result (λ v. v.items ≡ text_of made.now.printable made.now.formula) (λ e. e ≡ Refusal.OutOfMemory) }
{
    let mut text = Vec::new(alloc);
    match text_to(made, &mut text) {
        Ok(()) => Ok(text),
        Err(_) => Err(Refusal::OutOfMemory),
    }
}

/// The text that `ltl2ba` prints for this formula and these options.
fn printed<'a, A: Allocator>(
    alloc: &'a A,
    formula: &[u8],
    options: &TextOptions,
) -> Result<Vec<u8, &'a A>, Refusal>
    ensures { TakesStep (PrintsAsked (translator_asked formula.now options.now)) (λ v. v.items) result }
{
    let made = made_of(alloc, formula, options)?;
    text_in(alloc, &made)
}

/// Writes the text of a formula's automaton into the buffer, as `ltl2ba` prints it for these options. The result is the exit status of `ltl2ba`, or 6 if the
/// buffer is too short. In both cases `count` is the length of the text in bytes. For a refusal `count` is 0, and `refusal` has the code.
#[unsafe(no_mangle)]
pub extern "C" fn ltl2ba_text(
    alloc: Global,
    formula: &[u8],
    options: &TextOptions,
    buffer: &mut [u8],
    count: &mut usize,
    refusal: &mut RefusalCode,
) -> u8
    ensures { HandsOver Translator (translator_asked formula.now options.now) spec.NotOpened text_alone refusal.new buffer.old buffer.new count.new result }
{
    match printed(&alloc, formula, options) {
        Ok(text) => {
            *refusal = no_refusal();
            deliver(0, text.as_slice(), buffer, count)
        }
        Err(reason) => {
            *refusal = code_of(reason);
            deliver(reason.status().number(), b"", buffer, count)
        }
    }
}
