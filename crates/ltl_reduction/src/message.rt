//! The messages of refusals. They are those of the checker, with this program's name and usage.

ghost use Rattle.ltl_streams.specs.Printing.{Prints};
ghost use Rattle.ltl_cli.specs.Refusals.{refusal_of};
ghost use Rattle.ltl_cli.specs.Runs.{IsTold};
ghost use Rattle.ltl_reduction.specs.Messages.{reduce_message, reduce_text};

use ltl_cli::{Refusal, print_text};
use ltl_streams::{ByteSink, Printer};
use ltl_words::Tool;

/// Writes the text of a refusal.
fn put_text<M: ByteSink>(refusal: Refusal, out: &mut Printer<'_, M>)
    ensures { Prints M.state out.old out.new (reduce_text (refusal_of refusal)) }
{
    match refusal {
        Refusal::Usage => out.put(b"usage: ltlreduce [-c] [-A file]"),
        _ => print_text(Tool::Checker, refusal, out),
    }
}

/// Writes the message of a refusal, up to the first call that fails. It allocates nothing.
pub(crate) fn write<M: ByteSink>(refusal: Refusal, message: &mut M)
    ensures { IsTold (M.state message.old) (M.state message.new) (reduce_message (refusal_of refusal)) }
{
    let mut out = Printer::new(message);
    out.put(b"ltlreduce: ");
    put_text(refusal, &mut out);
    out.put(b"\n");
    let _ = out.end();
}
