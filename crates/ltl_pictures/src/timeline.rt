//! The timelines of a word and of a formula on a word.

ghost use Rattle.std.specs.Prelude.{◌≡◌, Ok, Err, MatchResult};
ghost use Rattle.ltl_streams.specs.Streams.{Breaks, Takes};
ghost use Rattle.ltl_pictures.specs.Timeline.{word_timeline};
ghost use Rattle.ltl_pictures.specs.TimelineView.{FailsToShow, HasTrueMarks};

use crate::fault::TimelineFault;
use crate::propositions::Propositions;
use crate::subformulas::Subformulas;
use ltl_streams::{ByteSink, Printer, WriteFault};
use ltl_syntax::Formula;
use ltl_word::Lasso;
use std::alloc::Allocator;

/// The end of a timeline, from the end of its printer.
fn ended(end: Result<(), WriteFault>) -> Result<(), TimelineFault>
    ensures { MatchResult end (λ x. result ≡ Ok x) (λ _. result ≡ Err TimelineFault.CannotWrite) }
{
    match end {
        Ok(()) => Ok(()),
        Err(_) => Err(TimelineFault::CannotWrite),
    }
}

/// Writes the word as a table. The first line has the last digit of each position's number, counted from 0. Each proposition has a line, with `*`
/// where it is true and `.` elsewhere. A `|` comes before the first position of the cycle. Everything is allocated before the first byte is written.
pub fn word_timeline_to<A: Allocator, C: Allocator, S: ByteSink>(
    alloc: &A,
    word: &Lasso<'_, C>,
    sink: &mut S,
) -> Result<(), TimelineFault>
    ensures { MatchResult result
        (λ _. Takes (S.state sink.old) (S.state sink.new) (word_timeline word.now))
        (FailsToShow (S.state sink.old) (S.state sink.new) (λ P. P (word_timeline word.now))) }
{
    let propositions = Propositions::of_word(alloc, word)?;
    let mut out = Printer::new(sink);
    propositions.put(propositions.width(), word, &mut out);
    ended(out.end())
}

/// Writes the same table, with another line for each different subformula that isn't a proposition. The memory is one bit for each position and
/// subformula, and the texts of all subformulas. Everything is allocated before the first byte is written.
pub fn timeline_to<A: Allocator, B: Allocator, C: Allocator, S: ByteSink>(
    alloc: &A,
    formula: &Formula<'_, B>,
    word: &Lasso<'_, C>,
    sink: &mut S,
) -> Result<(), TimelineFault>
    ensures { MatchResult result
        (λ _. HasTrueMarks formula.now word.now (Takes (S.state sink.old) (S.state sink.new)))
        (FailsToShow (S.state sink.old) (S.state sink.new) (HasTrueMarks formula.now word.now)) }
{
    let propositions = Propositions::of_both(alloc, formula, word)?;
    let subformulas = Subformulas::new(alloc, formula, word)?;
    let width = propositions.width().max(subformulas.width());
    let mut out = Printer::new(sink);
    propositions.put(width, word, &mut out);
    subformulas.put(width, formula, word, &mut out);
    ended(out.end())
}
