//! From the source of a command line to an automaton with the names that its text has.

ghost use Rattle.std.specs.Prelude.{◌≡◌};
ghost use Rattle.ltl_spec.specs.Tools.Stage.{Open};
ghost use Rattle.ltl_spec.specs.Tools.Outcome as spec;
ghost use Rattle.ltl_cli.specs.Inputs.{IsFailed, IsFoundUnless, IsOpen, WasAutomaton, WasStream, most_of_automaton};
ghost use Rattle.ltl_cli.specs.Refusals.{TakesStep};
ghost use Rattle.ltl_draw.specs.Runs.{ReadsNamed, ReadsNamedText};

use crate::named::Named;
use ltl_cli::{Refusal, Source, marked_of, read_text};
use ltl_hoa::{MOST_BYTES, hoa_names};
use ltl_streams::ByteSource;
use std::alloc::Allocator;

/// Reads an automaton and its names from a text.
fn named_in<'a, A: Allocator>(alloc: &'a A, text: &[u8]) -> Result<Named<'a, A>, Refusal>
    ensures { TakesStep (ReadsNamedText text.now) (λ N. N) result }
{
    let automaton = marked_of(alloc, text)?;
    let names = hoa_names(alloc, text, automaton.len())?;
    Ok(Named { automaton, names })
}

/// Reads an automaton and its names from a stream. The whole text is in memory meanwhile.
fn named_from<'a, A: Allocator, R: ByteSource>(
    alloc: &'a A,
    reader: &mut R,
) -> Result<Named<'a, A>, Refusal>
    requires { (R.state reader.old).stage ≡ Open }
    ensures { (input : spec.Input) × WasStream most_of_automaton (R.state reader.old) (R.state reader.new) input
        × IsFoundUnless (IsFailed input) (ReadsNamed input) (λ N. N) result }
{
    let text = read_text(alloc, reader, MOST_BYTES + 1)?;
    named_in(alloc, text.as_slice())
}

/// Reads an automaton and its names from the source. `Source::Text` holds no automaton; it counts as a file that couldn't be opened.
pub(crate) fn named_of<'a, A: Allocator, R: ByteSource>(
    alloc: &'a A,
    source: &mut Source<R>,
) -> Result<Named<'a, A>, Refusal>
    requires { IsOpen R.state source.old }
    ensures { (input : spec.Input) × WasAutomaton R.state source.old source.new input
        × IsFoundUnless (IsFailed input) (ReadsNamed input) (λ N. N) result }
{
    match source {
        Source::Input(reader) => named_from(alloc, reader),
        Source::Text | Source::NotOpened => Err(Refusal::CannotOpen),
    }
}
