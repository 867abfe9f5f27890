//! The messages of refusals. They are those of the checker, with this program's name and usage, and with the formula that has a syntax error.

ghost use Rattle.std.specs.Prelude.{◌≡◌};
ghost use Rattle.ltl_spec.specs.Tools.Comparer.{comparer_message, comparer_text, subject_of_text, subject_text};
ghost use Rattle.ltl_spec.specs.Tools.Limits.{stated_limits};
ghost use Rattle.ltl_streams.specs.Printing.{Prints};
ghost use Rattle.ltl_cli.specs.Refusals.{refusal_of};
ghost use Rattle.ltl_cli.specs.Runs.{IsTold};
ghost use Rattle.ltl_comparison.specs.Refusals.{subject_in};

use crate::refusal::{Refused, Subject};
use ltl_cli::{Refusal, print_text};
use ltl_streams::{ByteSink, Printer};
use ltl_words::Tool;

/// What stands before `formula:` in a message.
fn name(subject: Subject) -> &'static [u8]
    ensures { result.now ≡ subject_text (subject_in subject) }
{
    match subject {
        Subject::First => b"first ",
        Subject::Second => b"second ",
        Subject::Other => b"",
    }
}

/// What stands before the checker's text of a refusal.
fn front(refused: Refused) -> &'static [u8]
    ensures { result.now ≡ subject_of_text (subject_in refused.subject) (refusal_of refused.refusal) }
{
    match refused.refusal {
        Refusal::BadFormula(_, _) => name(refused.subject),
        _ => b"",
    }
}

/// Writes the text of a refusal.
#[tactic(auto, using(crate::proofs::MessageLaws::not_usage))]
fn put_text<M: ByteSink>(refused: Refused, out: &mut Printer<'_, M>)
    ensures { Prints M.state out.old out.new (comparer_text stated_limits (subject_in refused.subject) (refusal_of refused.refusal)) }
{
    match refused.refusal {
        Refusal::Usage => {
            out.put(b"usage: ltlcompare (-f formula | -F file) (-g formula | -G file)")
        }
        _ => {
            out.put(front(refused));
            print_text(Tool::Checker, refused.refusal, out);
        }
    }
}

/// Writes the message of a refusal, up to the first call that fails. It allocates nothing.
pub(crate) fn write<M: ByteSink>(refused: Refused, message: &mut M)
    ensures { IsTold (M.state message.old) (M.state message.new) (comparer_message stated_limits (subject_in refused.subject) (refusal_of refused.refusal)) }
{
    let mut out = Printer::new(message);
    out.put(b"ltlcompare: ");
    put_text(refused, &mut out);
    out.put(b"\n");
    let _ = out.end();
}
