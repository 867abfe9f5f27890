//! The header of a text.

ghost use Rattle.std.specs.Prelude.{◌≡◌, ◌<◌, ◌∷◌, ◌++◌, Bool, flat_map, length, map, string_bytes, OnOk};
ghost use Rattle.ltl_spec.specs.Automata.HoaText.{quoted, names_line};
ghost use Rattle.ltl_spec.specs.Claims.ClaimProgram.{Program};
ghost use Rattle.ltl_claim.specs.ClaimView.{IsClaim};
ghost use Rattle.ltl_claim_hoa.specs.ClaimHoa.{ends_in, head_text, state_count};

use crate::digits::put_number;
use ltl_claim::Claim;
use std::alloc::{AllocError, Allocator};

/// Appends names in quotes, each behind a blank.
fn put_quoted<A: Allocator, B: Allocator>(
    names: &[String<&B>],
    text: &mut Vec<u8, &A>,
) -> Result<(), AllocError>
    ensures { OnOk result (text.new.items ≡ text.old.items ++ flat_map (λ n. 32 ∷ quoted n) (map string_bytes names.now)) }
{
    'names: for i in 0..names.len() {
        text.extend_from_slice(b" \"")?;
        text.extend_from_slice(names[i].as_bytes())?;
        text.push(b'"')?;
    }
    Ok(())
}

/// Appends the line with the names of the propositions.
fn put_names<A: Allocator, B: Allocator>(
    names: &[String<&B>],
    text: &mut Vec<u8, &A>,
) -> Result<(), AllocError>
    ensures { OnOk result (text.new.items ≡ text.old.items ++ names_line (map string_bytes names.now)) }
{
    text.extend_from_slice(b"AP: ")?;
    put_number(names.len(), text)?;
    put_quoted(names, text)?;
    text.push(b'\n')?;
    Ok(())
}

/// The number of states. `ends` says that the closing brace is one.
#[tactic(auto, using(crate::proofs::TextLaws::count_more, crate::proofs::TextLaws::count_same))]
fn state_count<A: Allocator>(claim: &Claim<'_, A>, ends: bool) -> usize
    ensures { (P : Program) → IsClaim P claim.now → ends ≡ ends_in P → result ≡ state_count P }
{
    if ends { claim.len() + 1 } else { claim.len() }
}

/// Appends the header. `ends` says that the closing brace is a state.
pub(crate) fn put_head<A: Allocator, B: Allocator>(
    claim: &Claim<'_, B>,
    ends: bool,
    text: &mut Vec<u8, &A>,
) -> Result<(), AllocError>
    ensures { OnOk result ((P : Program) → IsClaim P claim.now → ends ≡ ends_in P → text.new.items ≡ text.old.items ++ head_text P) }
{
    text.extend_from_slice(b"HOA: v1\nStates: ")?;
    put_number(state_count(claim, ends), text)?;
    text.extend_from_slice(b"\nStart: ")?;
    put_number(claim.start(), text)?;
    text.push(b'\n')?;
    put_names(claim.names(), text)?;
    text.extend_from_slice(
        b"acc-name: Buchi\nAcceptance: 1 Inf(0)\nproperties: trans-labels explicit-labels state-acc\n--BODY--\n",
    )?;
    Ok(())
}
