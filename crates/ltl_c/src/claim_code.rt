//! The encoding of a claim's refusal as numbers for C.

ghost use Rattle.std.specs.Prelude.{◌≡◌, Some, None, option_map, slice_get};
ghost use Rattle.ltl_claim.specs.TokenView.{kind_of};
ghost use Rattle.ltl_claims.specs.Refusals.{refusal_of};
ghost use Rattle.ltl_c.specs.Claims.{claim_code_for, claim_code_with, claim_fault_number, claim_faults, claim_refusal_in};

use ltl_claim::ClaimFaultKind;
use ltl_claims::Refusal;

/// Why a claim was refused: in C `struct ltlclaim_refusal`.
#[derive(Clone, Copy, Debug)]
#[repr(C)]
pub struct ClaimCode {
    /// The number of the refusal, or 0 for none.
    pub kind: u32,
    /// The number of the fault in the claim; 0 for other refusals.
    pub fault: u32,
    /// The line of the fault, from 1; 0 for other refusals.
    pub line: usize,
    /// Its column in bytes, from 1; 0 for other refusals.
    pub column: usize,
}

/// The faults of a claim by number.
const FAULTS: [ClaimFaultKind; 10] = [
    ClaimFaultKind::NotANeverClaim,
    ClaimFaultKind::Unsupported,
    ClaimFaultKind::BadName,
    ClaimFaultKind::LabelTwice,
    ClaimFaultKind::ElseTwice,
    ClaimFaultKind::BreakOutsideOfDo,
    ClaimFaultKind::UndefinedLabel,
    ClaimFaultKind::TextAfterEnd,
    ClaimFaultKind::LimitPassed,
    ClaimFaultKind::BadToken,
];

/// The number of a fault: its index in `FAULTS`.
fn fault_number(kind: ClaimFaultKind) -> u32
    ensures { result ≡ claim_fault_number (kind_of kind) }
{
    kind as u32
}

/// The fault with this number.
fn fault_at(number: u32) -> Option<ClaimFaultKind>
    ensures { option_map kind_of result ≡ slice_get claim_faults number }
{
    FAULTS.get(number as usize).copied()
}

/// The code with this number, without a fault.
fn plain(kind: u32) -> ClaimCode
    ensures { result ≡ claim_code_with kind 0 0 0 }
{
    ClaimCode {
        kind,
        fault: 0,
        line: 0,
        column: 0,
    }
}

/// The code for no refusal.
pub(crate) fn no_claim_refusal() -> ClaimCode
    ensures { result ≡ claim_code_for None }
{
    plain(0)
}

/// The code of a refusal.
pub(crate) fn claim_code_of(refusal: Refusal) -> ClaimCode
    ensures { result ≡ claim_code_for (Some (refusal_of refusal)) }
{
    match refusal {
        Refusal::Usage => plain(1),
        Refusal::OutOfMemory => plain(2),
        Refusal::CannotOpen => plain(13),
        Refusal::CannotRead => plain(14),
        Refusal::CannotWrite => plain(15),
        Refusal::BadClaim(line, column, kind) => ClaimCode {
            kind: 16,
            fault: fault_number(kind),
            line,
            column,
        },
    }
}

/// The refusal with this code, if there is one.
pub(crate) fn claim_refusal_at(code: &ClaimCode) -> Option<Refusal>
    ensures { option_map refusal_of result ≡ claim_refusal_in code.now }
{
    match code.kind {
        1 => Some(Refusal::Usage),
        2 => Some(Refusal::OutOfMemory),
        13 => Some(Refusal::CannotOpen),
        14 => Some(Refusal::CannotRead),
        15 => Some(Refusal::CannotWrite),
        16 => match fault_at(code.fault) {
            Some(kind) => Some(Refusal::BadClaim(code.line, code.column, kind)),
            None => None,
        },
        _ => None,
    }
}
