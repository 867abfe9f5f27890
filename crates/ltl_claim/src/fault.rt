//! The errors of reading a claim.

ghost use Rattle.std.specs.Prelude.{◌≡◌, ◌≤◌, Some, length};
ghost use Rattle.ltl_claim.specs.ClaimFault.{claim_fault_text};
ghost use Rattle.ltl_claim.specs.TokenView.{kind_of};
ghost use Rattle.ltl_claim.specs.declared.fault.ClaimFault.TheVariants as claim;

use std::alloc::AllocError;
use std::fmt;
use thiserror::Error;

/// What is wrong with a text.
#[derive(Clone, Copy, Debug, PartialEq, Eq)]
pub enum ClaimFaultKind {
    /// The text doesn't begin with `never` and an open brace, with or without a name between.
    NotANeverClaim,
    /// A part of Promela that the profile doesn't have.
    Unsupported,
    /// A name in a guard is no proposition.
    BadName,
    LabelTwice,
    ElseTwice,
    BreakOutsideOfDo,
    UndefinedLabel,
    TextAfterEnd,
    /// The text, its statements or its propositions are above a limit.
    LimitPassed,
    /// A token is in a wrong place, a byte begins no token, a comment isn't closed, or the text ends too early.
    BadToken,
}

impl ClaimFaultKind {
    /// The end of the message, behind the line and the column.
    pub fn text(self) -> &'static str
        ensures text { result.now ≡ claim_fault_text (kind_of self) }
        ensures short { length result.now ≤ 30 }
    {
        match self {
            ClaimFaultKind::NotANeverClaim => "not a never claim",
            ClaimFaultKind::Unsupported => "unsupported",
            ClaimFaultKind::BadName => "bad name",
            ClaimFaultKind::LabelTwice => "label twice",
            ClaimFaultKind::ElseTwice => "else twice",
            ClaimFaultKind::BreakOutsideOfDo => "break outside of do",
            ClaimFaultKind::UndefinedLabel => "undefined label",
            ClaimFaultKind::TextAfterEnd => "text after the end",
            ClaimFaultKind::LimitPassed => "limit passed",
            ClaimFaultKind::BadToken => "bad token",
        }
    }
}

impl fmt::Display for ClaimFaultKind {
    ghost output = { λ kind. Some (claim_fault_text (kind_of kind)) };

    fn fmt<W: fmt::Write>(&self, f: &mut fmt::Formatter<W>) -> fmt::Result {
        f.write_str(self.text())
    }
}

impl std::error::Error for ClaimFaultKind {}

/// Why no claim was read.
#[derive(Clone, Copy, Debug, PartialEq, Eq, Error)]
pub enum ClaimFault {
    /// The leftmost fault of the text, and the line and the column, in bytes, of its first byte. Both are counted from 1. A text with too many bytes has
    /// only the fault `LimitPassed`, at the first byte that is too many.
    #[error("claim: line {0}, column {1}: {2}")]
    At(usize, usize, ClaimFaultKind),
    /// A read of the source failed.
    #[error("cannot read")]
    CannotRead,
    /// The allocator refused an allocation.
    #[error("out of memory")]
    OutOfMemory,
}

impl From<AllocError> for ClaimFault {
    ghost from_gives = { λ _ e. e ≡ claim.OutOfMemory };

    fn from(_error: AllocError) -> ClaimFault {
        ClaimFault::OutOfMemory
    }
}
