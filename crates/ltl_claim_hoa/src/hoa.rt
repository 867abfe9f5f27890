//! The text of a claim.

ghost use Rattle.std.specs.Prelude.{◌≡◌, ◌<◌, ◌++◌, length, IfOk, OnOk};
ghost use Rattle.ltl_spec.specs.Claims.ClaimProgram.{Program};
ghost use Rattle.ltl_claim.specs.ClaimView.{IsClaim};
ghost use Rattle.ltl_claim_hoa.specs.ClaimHoa.{body_text, claim_hoa_text, end_lines, ends_in, last_lines};

use crate::digits::put_number;
use crate::head::put_head;
use crate::moves::{lead_to, put_state, put_statement};
use ltl_claim::Claim;
use std::alloc::{AllocError, Allocator};

/// Whether the closing brace is a state: the start or a move leads there.
fn is_ended<A: Allocator>(claim: &Claim<'_, A>) -> bool
    ensures { (P : Program) → IsClaim P claim.now → result ≡ ends_in P }
{
    let end = claim.len();
    if claim.start() == end {
        return true;
    }
    'states: for i in 0..end {
        if lead_to(claim.moves(i), end) {
            return true;
        }
    }
    false
}

/// Appends the lines of all statements.
fn put_statements<A: Allocator, B: Allocator>(
    alloc: &A,
    claim: &Claim<'_, B>,
    text: &mut Vec<u8, &A>,
) -> Result<(), AllocError>
    ensures { OnOk result ((P : Program) → IsClaim P claim.now → text.new.items ≡ text.old.items ++ body_text P) }
{
    'states: for i in 0..claim.len() {
        put_statement(alloc, claim, i, text)?;
    }
    Ok(())
}

/// Appends the lines of the closing brace, at which each word is accepted.
fn put_end<A: Allocator>(end: usize, text: &mut Vec<u8, &A>) -> Result<(), AllocError>
    ensures { OnOk result (text.new.items ≡ text.old.items ++ end_lines end) }
{
    put_state(end, true, text)?;
    text.extend_from_slice(b"[t] ")?;
    put_number(end, text)?;
    text.push(b'\n')?;
    Ok(())
}

/// Appends the lines of the closing brace, if it is a state.
#[tactic(auto, using(crate::proofs::TextLaws::last_written, crate::proofs::TextLaws::last_absent))]
fn put_last<A: Allocator, B: Allocator>(
    claim: &Claim<'_, B>,
    ends: bool,
    text: &mut Vec<u8, &A>,
) -> Result<(), AllocError>
    ensures { OnOk result ((P : Program) → IsClaim P claim.now → text.new.items ≡ text.old.items ++ last_lines P ends) }
{
    if ends {
        put_end(claim.len(), text)?;
    }
    Ok(())
}

/// The number of names.
#[tactic(auto, using(crate::proofs::TextLaws::names_few))]
fn name_count<A: Allocator>(claim: &Claim<'_, A>) -> usize
    ensures { length claim.now.names < 18_446_744_073_709_551_616 }
{
    claim.names().len()
}

/// The text of a claim's automaton in version 1 of the Hanoi Omega-Automata format. It takes memory in proportion to the text. The error is a refused
/// allocation.
pub fn claim_hoa<'a, A: Allocator, B: Allocator>(
    alloc: &'a A,
    claim: &Claim<'_, B>,
) -> Result<Vec<u8, &'a A>, AllocError>
    ensures text { IfOk result (λ text. (P : Program) → IsClaim P claim.now → text.items ≡ claim_hoa_text P) }
    ensures few { length claim.now.states < 9_223_372_036_854_775_808 }
    ensures few_names { length claim.now.names < 18_446_744_073_709_551_616 }
{
    let lines = claim.len().saturating_add(name_count(claim));
    let ends = is_ended(claim);
    // Most lines have at most 16 bytes.
    let mut text = Vec::with_capacity(alloc, lines.saturating_mul(16))?;
    put_head(claim, ends, &mut text)?;
    put_statements(alloc, claim, &mut text)?;
    put_last(claim, ends, &mut text)?;
    text.extend_from_slice(b"--END--\n")?;
    Ok(text)
}
