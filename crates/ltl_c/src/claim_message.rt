//! The C call `ltlclaim_message`: the line that `ltlclaim` prints for a refusal.

ghost use Rattle.std.specs.Prelude.{◌≡◌, ◌≤◌, ◌++◌, Option, length};
ghost use Rattle.ltl_claim.specs.TokenView.{kind_of};
ghost use Rattle.ltl_claims.specs.Refusals as spec;
ghost use Rattle.ltl_claims.specs.Refusals.{bad_claim_text, claim_message, refusal_of, refusal_text};
ghost use Rattle.ltl_c.specs.Calls.{Delivers};
ghost use Rattle.ltl_c.specs.Claims.{claim_code_for, claim_refusal_in, claim_told};

use crate::buffer::deliver;
use crate::claim_code::{ClaimCode, claim_refusal_at};
use crate::line::{SIZE, put};
use arrayvec::ArrayVec;
use ltl_claim::ClaimFaultKind;
use ltl_claims::Refusal;
use ltl_text::Digits;

/// Appends the text of a fault.
fn put_fault(line: &mut ArrayVec<u8, SIZE>, at: usize, column: usize, kind: ClaimFaultKind)
    requires { length line.old.items ≤ 40 }
    ensures put { line.new.items ≡ line.old.items ++ bad_claim_text at column (kind_of kind) }
    ensures short { length line.new.items ≤ 140 }
{
    put(line, b"claim: line ");
    put(line, Digits::of(at as u64).as_slice());
    put(line, b", column ");
    put(line, Digits::of(column as u64).as_slice());
    put(line, b": ");
    put(line, kind.text().as_bytes());
}

/// Appends the text of a refusal.
fn put_refusal(line: &mut ArrayVec<u8, SIZE>, refusal: Refusal)
    requires { length line.old.items ≤ 40 }
    ensures put { line.new.items ≡ line.old.items ++ refusal_text (refusal_of refusal) }
    ensures short { length line.new.items ≤ 140 }
{
    match refusal {
        Refusal::Usage => put(line, b"usage: ltlclaim [-N file]"),
        Refusal::CannotOpen => put(line, b"cannot open"),
        Refusal::CannotRead => put(line, b"cannot read"),
        Refusal::CannotWrite => put(line, b"cannot write"),
        Refusal::OutOfMemory => put(line, b"out of memory"),
        Refusal::BadClaim(at, column, kind) => put_fault(line, at, column, kind),
    }
}

/// The whole line for a refusal, with a line feed.
fn claim_line(refusal: Refusal) -> ArrayVec<u8, SIZE>
    ensures { result.items ≡ claim_message (refusal_of refusal) }
{
    let mut line = ArrayVec::new();
    put(&mut line, b"ltlclaim: ");
    put_refusal(&mut line, refusal);
    put(&mut line, b"\n");
    line
}

/// Writes the line that `ltlclaim` prints for a refusal into the buffer. The text is empty if the code is that of no refusal. The result is 0, or 6 if the buffer
/// is too short; `count` is the length of the line in bytes. It allocates nothing.
#[unsafe(no_mangle)]
#[tactic(auto, using(crate::proofs::ClaimLaws::claim_code_read))]
pub extern "C" fn ltlclaim_message(refusal: &ClaimCode, buffer: &mut [u8], count: &mut usize) -> u8
    ensures line { Delivers 0 (claim_told (claim_refusal_in refusal.now)) buffer.old buffer.new count.new result }
    ensures reported { (reason : Option spec.Refusal) → refusal.now ≡ claim_code_for reason → claim_refusal_in refusal.now ≡ reason }
{
    match claim_refusal_at(refusal) {
        Some(reason) => deliver(0, claim_line(reason).as_slice(), buffer, count),
        None => deliver(0, b"", buffer, count),
    }
}
