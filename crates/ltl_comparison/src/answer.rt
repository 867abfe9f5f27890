//! The answer: how the formulas compare, and the words that tell them apart.

ghost use Rattle.std.specs.Prelude.{◌≡◌, OnOk, OnErr};
ghost use Rattle.ltl_spec.specs.Automata.ClaimText.{line};
ghost use Rattle.ltl_spec.specs.Tools.Comparer.{comparison_answer, comparison_text, relation_status, relation_text, word_line};
ghost use Rattle.ltl_streams.specs.Printing.{Prints};
ghost use Rattle.ltl_streams.specs.Streams.{Breaks};
ghost use Rattle.ltl_compare.specs.ComparisonView.{comparison_of};
ghost use Rattle.ltl_words.specs.Tools.{status_number};
ghost use Rattle.ltl_cli.specs.Runs.{Finishes};

use ltl_cli::flushed;
use ltl_compare::Comparison;
use ltl_streams::{ByteSink, Printer, WriteFault};
use ltl_word::Lasso;
use ltl_words::Status;
use std::alloc::Allocator;

/// The first line. A formula implies the other one if no word satisfies it alone.
fn relation<A: Allocator>(
    first_only: &Option<Lasso<'_, A>>,
    second_only: &Option<Lasso<'_, A>>,
) -> &'static [u8]
    ensures { result.now ≡ line (relation_text first_only.now second_only.now) }
{
    match (first_only, second_only) {
        (None, None) => b"equivalent\n",
        (None, Some(_)) => b"first implies second\n",
        (Some(_), None) => b"second implies first\n",
        (Some(_), Some(_)) => b"incomparable\n",
    }
}

/// The exit status for a comparison.
fn status<A: Allocator>(
    first_only: &Option<Lasso<'_, A>>,
    second_only: &Option<Lasso<'_, A>>,
) -> Status
    ensures { status_number result ≡ relation_status first_only.now second_only.now }
{
    match (first_only, second_only) {
        (None, None) => Status::Done,
        (None, Some(_)) | (Some(_), None) | (Some(_), Some(_)) => Status::Violated,
    }
}

/// The exit status: `Done` if the formulas are equivalent, and else `Violated`.
pub(crate) fn status_of<A: Allocator>(comparison: &Comparison<'_, A>) -> Status
    ensures { status_number result ≡ (comparison_answer (comparison_of comparison.now)).status }
{
    status(&comparison.first_only, &comparison.second_only)
}

/// Writes a line with a word behind a label, if there is a word.
fn put_word<A: Allocator, S: ByteSink>(
    label: &[u8],
    word: &Option<Lasso<'_, A>>,
    out: &mut Printer<'_, S>,
)
    ensures { Prints S.state out.old out.new (word_line label.now word.now) }
{
    match word {
        Some(word) => {
            out.put(label);
            word.put(out);
            out.put(b"\n");
        }
        None => (),
    }
}

/// Writes the answer.
fn put<A: Allocator, S: ByteSink>(comparison: &Comparison<'_, A>, out: &mut Printer<'_, S>)
    ensures { Prints S.state out.old out.new (comparison_text (comparison_of comparison.now)) }
{
    out.put(relation(&comparison.first_only, &comparison.second_only));
    put_word(b"first only: ", &comparison.first_only, out);
    put_word(b"second only: ", &comparison.second_only, out);
}

/// Writes the answer and flushes the output.
pub(crate) fn print<A: Allocator, S: ByteSink>(
    comparison: &Comparison<'_, A>,
    output: &mut S,
) -> Result<(), WriteFault>
    ensures ok { OnOk result (Finishes (S.state output.old) (S.state output.new) (comparison_text (comparison_of comparison.now))) }
    ensures err { OnErr result (Breaks (S.state output.old) (S.state output.new) (comparison_text (comparison_of comparison.now))) }
{
    let mut out = Printer::new(output);
    put(comparison, &mut out);
    flushed(out.end(), output)
}
