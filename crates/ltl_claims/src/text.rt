//! The automaton of a claim in memory.

ghost use Rattle.ltl_spec.specs.Tools.Outcome as spec;
ghost use Rattle.ltl_claims.specs.Runs.{IsClaimRead, IsTextMade};

use crate::refusal::Refusal;
use ltl_claim::{Claim, claim_read_from};
use ltl_claim_hoa::claim_hoa;
use ltl_cli::TextSource;
use std::alloc::Allocator;

/// Reads a claim from a text.
fn claim_of<'a, A: Allocator>(alloc: &'a A, text: &[u8]) -> Result<Claim<'a, A>, Refusal>
    ensures { IsClaimRead (spec.Ended text.now) result }
{
    let mut source = TextSource::new(text);
    match claim_read_from(alloc, &mut source) {
        Ok(claim) => Ok(claim),
        Err(fault) => Err(Refusal::of_claim(fault)),
    }
}

/// The text of the automaton of the claim that a text is, as the program prints it for this text in its input. A read never fails.
pub fn hoa_of_text<'a, A: Allocator>(alloc: &'a A, text: &[u8]) -> Result<Vec<u8, &'a A>, Refusal>
    ensures { IsTextMade (spec.Ended text.now) (λ hoa. hoa.items) result }
{
    let claim = claim_of(alloc, text)?;
    match claim_hoa(alloc, &claim) {
        Ok(hoa) => Ok(hoa),
        Err(_) => Err(Refusal::OutOfMemory),
    }
}
