//! The C call `ltldraw_dot`: the picture of an automaton.

ghost use Rattle.std.specs.Prelude.{◌≡◌, MatchResult};
ghost use Rattle.ltl_cli.specs.Refusals.{TakesStep};
ghost use Rattle.ltl_draw.specs.Runs.{ReadsNamedText};
ghost use Rattle.ltl_pictures.specs.DotText.{dot_text};
ghost use Rattle.ltl_c.specs.Pictures.{DrawsText, HandsPicture};

use crate::buffer::deliver;
use crate::refusal_code::{RefusalCode, code_of, no_refusal};
use ltl_cli::{Refusal, marked_of};
use ltl_hoa::hoa_names;
use ltl_pictures::Drawing;
use std::alloc::{Allocator, Global};

/// Reads an automaton and its names from a text, and prepares their drawing.
fn drawing_of<'a, A: Allocator>(alloc: &'a A, text: &[u8]) -> Result<Drawing<'a, A>, Refusal>
    ensures { TakesStep (ReadsNamedText text.now) (λ N. N) result }
{
    let automaton = marked_of(alloc, text)?;
    let names = hoa_names(alloc, text, automaton.len())?;
    let drawing = Drawing::new(alloc, automaton, names)?;
    Ok(drawing)
}

/// The picture of an automaton.
fn picture_of<'a, A: Allocator>(
    alloc: &'a A,
    drawing: &Drawing<'_, A>,
) -> Result<Vec<u8, &'a A>, Refusal>
    ensures { MatchResult result (λ v. v.items ≡ dot_text drawing.now) (λ e. e ≡ Refusal.OutOfMemory) }
{
    let mut picture = Vec::new(alloc);
    match drawing.dot_to(&mut picture) {
        Ok(()) => Ok(picture),
        Err(_) => Err(Refusal::OutOfMemory),
    }
}

/// The picture of the automaton in a text.
fn drawn<'a, A: Allocator>(alloc: &'a A, text: &[u8]) -> Result<Vec<u8, &'a A>, Refusal>
    ensures { TakesStep (DrawsText text.now) (λ v. v.items) result }
{
    let drawing = drawing_of(alloc, text)?;
    picture_of(alloc, &drawing)
}

/// Writes the picture of an automaton into the buffer, as `ltldraw` prints it for a text in the Hanoi Omega-Automata format: a graph for Graphviz. The result
/// is the exit status of `ltldraw`, or 6 if the buffer is too short. In both cases `count` is the length of the picture in bytes. For a refusal `count` is 0,
/// and `refusal` has the code.
#[unsafe(no_mangle)]
pub extern "C" fn ltldraw_dot(
    alloc: Global,
    automaton: &[u8],
    buffer: &mut [u8],
    count: &mut usize,
    refusal: &mut RefusalCode,
) -> u8
    ensures { HandsPicture automaton.now refusal.new buffer.old buffer.new count.new result }
{
    match drawn(&alloc, automaton) {
        Ok(picture) => {
            *refusal = no_refusal();
            deliver(0, picture.as_slice(), buffer, count)
        }
        Err(reason) => {
            *refusal = code_of(reason);
            deliver(reason.status().number(), b"", buffer, count)
        }
    }
}
