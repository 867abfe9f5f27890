//! The messages of refusals, one line each.

ghost use Rattle.std.specs.Prelude.{◌≡◌, ◌++◌, codes, decimal};
ghost use Rattle.ltl_streams.specs.Printing.{Prints};
ghost use Rattle.ltl_claim.specs.TokenView.{kind_of};
ghost use Rattle.ltl_cli.specs.Runs.{IsTold};
ghost use Rattle.ltl_claims.specs.Refusals.{bad_claim_text, claim_message, refusal_of, refusal_text};

use crate::refusal::Refusal;
use ltl_claim::ClaimFaultKind;
use ltl_streams::{ByteSink, Printer};
use ltl_text::put_number;

/// Writes the text of a fault in a claim.
fn put_fault<M: ByteSink>(
    line: usize,
    column: usize,
    kind: ClaimFaultKind,
    out: &mut Printer<'_, M>,
)
    ensures { Prints M.state out.old out.new (bad_claim_text line column (kind_of kind)) }
{
    out.put(b"claim: line ");
    put_number(line, out);
    out.put(b", column ");
    put_number(column, out);
    out.put(b": ");
    out.put(kind.text().as_bytes());
}

/// Writes the text of a refusal.
fn put_text<M: ByteSink>(refusal: Refusal, out: &mut Printer<'_, M>)
    ensures { Prints M.state out.old out.new (refusal_text (refusal_of refusal)) }
{
    match refusal {
        Refusal::Usage => out.put(b"usage: ltlclaim [-N file]"),
        Refusal::CannotOpen => out.put(b"cannot open"),
        Refusal::CannotRead => out.put(b"cannot read"),
        Refusal::CannotWrite => out.put(b"cannot write"),
        Refusal::OutOfMemory => out.put(b"out of memory"),
        Refusal::BadClaim(line, column, kind) => put_fault(line, column, kind, out),
    }
}

/// Writes the message of a refusal, up to the first call that fails. It allocates nothing.
pub(crate) fn write<M: ByteSink>(refusal: Refusal, message: &mut M)
    ensures { IsTold (M.state message.old) (M.state message.new) (claim_message (refusal_of refusal)) }
{
    let mut out = Printer::new(message);
    out.put(b"ltlclaim: ");
    put_text(refusal, &mut out);
    out.put(b"\n");
    let _ = out.end();
}
