//! The C call `ltlreduce_hoa`: a smaller automaton that accepts the same words.

ghost use Rattle.std.specs.Prelude.{◌≡◌, map, string_bytes, MatchResult, OnOk};
ghost use Rattle.std.specs.Io.KnownBytes.{Appends};
ghost use Rattle.ltl_cli.specs.Refusals.{TakesStep};
ghost use Rattle.ltl_text.specs.NamedText.{named_text};
ghost use Rattle.ltl_c.specs.Reductions.{HandsReduction, ReducesText};

use crate::buffer::deliver;
use crate::refusal_code::{RefusalCode, code_of, no_refusal};
use ltl_cli::{Refusal, marked_of};
use ltl_models::Gen;
use ltl_reduce::reduce_marked;
use ltl_streams::{WriteFault, WriterSink};
use ltl_text::laws::named_text_is_read_back;
use ltl_text::put_named;
use std::alloc::{Allocator, Global};
use std::io::Write;

/// Writes the text of an automaton with these names.
fn text_to<A: Allocator, B: Allocator, W: Write>(
    automaton: &Gen<'_, A>,
    names: &[String<&B>],
    writer: &mut W,
) -> Result<(), WriteFault>
    ensures ok { OnOk result (Appends (W.contents writer.old) (W.contents writer.new) (named_text automaton.now (map string_bytes names.now))) }
{
    put_named(automaton, names, &mut WriterSink::new(writer))
}

/// The text of an automaton with these names, in memory.
fn text_of<'a, A: Allocator, B: Allocator>(
    alloc: &'a A,
    automaton: &Gen<'_, A>,
    names: &[String<&B>],
) -> Result<Vec<u8, &'a A>, Refusal>
    ensures { MatchResult result (λ v. v.items ≡ named_text automaton.now (map string_bytes names.now)) (λ e. e ≡ Refusal.OutOfMemory) }
{
    let mut text = Vec::new(alloc);
    match text_to(automaton, names, &mut text) {
        Ok(()) => Ok(text),
        Err(_) => Err(Refusal::OutOfMemory),
    }
}

/// The text of a reduced automaton, which accepts the words of the one in a text.
fn reduced<'a, A: Allocator>(alloc: &'a A, text: &[u8]) -> Result<Vec<u8, &'a A>, Refusal>
    ensures { TakesStep (ReducesText text.now) (λ v. v.items) result }
{
    let given = marked_of(alloc, text)?;
    given.invariant();
    let made = reduce_marked(alloc, &given)?;
    named_text_is_read_back(&made, given.names());
    text_of(alloc, &made, given.names())
}

/// Writes a smaller automaton that accepts the same words into the buffer, as `ltlreduce` prints it for a text in the Hanoi Omega-Automata format. The result is
/// the exit status of `ltlreduce`, or 6 if the buffer is too short. In both cases `count` is the length of the text in bytes. For a refusal `count` is 0, and
/// `refusal` has the code.
#[unsafe(no_mangle)]
pub extern "C" fn ltlreduce_hoa(
    alloc: Global,
    automaton: &[u8],
    buffer: &mut [u8],
    count: &mut usize,
    refusal: &mut RefusalCode,
) -> u8
    ensures { HandsReduction automaton.now refusal.new buffer.old buffer.new count.new result }
{
    match reduced(&alloc, automaton) {
        Ok(text) => {
            *refusal = no_refusal();
            deliver(0, text.as_slice(), buffer, count)
        }
        Err(reason) => {
            *refusal = code_of(reason);
            deliver(reason.status().number(), b"", buffer, count)
        }
    }
}
