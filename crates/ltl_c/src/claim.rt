//! The C call `ltlclaim_hoa`: the automaton of a never claim.

ghost use Rattle.ltl_c.specs.Claims.{HandsClaim};

use crate::buffer::deliver;
use crate::claim_code::{ClaimCode, claim_code_of, no_claim_refusal};
use ltl_claims::hoa_of_text;
use std::alloc::Global;

/// Writes the automaton of a never claim into the buffer, as `ltlclaim` prints it: a text in the Hanoi Omega-Automata format. The result is the exit status of
/// `ltlclaim`, or 6 if the buffer is too short. In both cases `count` is the length of the text in bytes. For a refusal `count` is 0, and `refusal` has the code.
#[unsafe(no_mangle)]
pub extern "C" fn ltlclaim_hoa(
    alloc: Global,
    claim: &[u8],
    buffer: &mut [u8],
    count: &mut usize,
    refusal: &mut ClaimCode,
) -> u8
    ensures { HandsClaim claim.now refusal.new buffer.old buffer.new count.new result }
{
    match hoa_of_text(&alloc, claim) {
        Ok(hoa) => {
            *refusal = no_claim_refusal();
            deliver(0, hoa.as_slice(), buffer, count)
        }
        Err(reason) => {
            *refusal = claim_code_of(reason);
            deliver(reason.status().number(), b"", buffer, count)
        }
    }
}
