//! The errors of reading a formula.

ghost use Rattle.std.specs.Prelude.{◌≡◌, ◌≤◌, Some, length};
ghost use Rattle.ltl_spec.specs.Tools.Refusal.{fault_text};
ghost use Rattle.ltl_syntax.specs.ParserView.{kind_of};

use crate::limits::{PROPOSITION_LIMIT, TEXT_LIMIT};
use std::alloc::AllocError;
use std::fmt;
use thiserror::Error;

/// What is wrong at a byte of a formula's text.
#[derive(Clone, Copy, Debug, PartialEq, Eq)]
pub enum FaultKind {
    /// The byte begins no token.
    UnexpectedByte,
    ExpectedOperand,
    ExpectedOperatorOrEnd,
    /// An operator or the end is expected, but a bracket is open, so that `)` is possible here too.
    ExpectedCloseOrOperator,
}

impl FaultKind {
    /// The end of the message, behind the offset of the byte.
    pub fn text(self) -> &'static str
        ensures text { result.now ≡ fault_text (kind_of self) }
        ensures short { length result.now ≤ 30 }
    {
        match self {
            FaultKind::UnexpectedByte => "unexpected byte",
            FaultKind::ExpectedOperand => "expected operand",
            FaultKind::ExpectedOperatorOrEnd => "expected operator or end",
            FaultKind::ExpectedCloseOrOperator => "expected ) or operator",
        }
    }
}

impl fmt::Display for FaultKind {
    ghost output = { λ kind. Some (fault_text (kind_of kind)) };

    fn fmt<W: fmt::Write>(&self, f: &mut fmt::Formatter<W>) -> fmt::Result {
        f.write_str(self.text())
    }
}

impl std::error::Error for FaultKind {}

/// Why a text is not read. If several reasons apply, the first one in this order is answered. `OutOfMemory` may come in place of any. The last two are also
/// why no formula is made of two.
#[derive(Clone, Copy, Debug, PartialEq, Eq, Error)]
pub enum ReadFault {
    /// The text has more than `TEXT_LIMIT` bytes.
    #[error("limit: formula longer than {limit} bytes", limit = TEXT_LIMIT)]
    TooLong,
    /// The token at this byte is wrong: the text before it begins some formula, and the text with it begins none. Bytes are counted from 0. If tokens
    /// are missing at the end, the number is the length of the text.
    #[error("formula: byte {0}: {1}")]
    AtByte(usize, FaultKind),
    /// The formula has more than `PROPOSITION_LIMIT` different propositions.
    #[error("limit: more than {limit} propositions", limit = PROPOSITION_LIMIT)]
    TooManyPropositions,
    #[error("out of memory")]
    OutOfMemory,
}

impl From<AllocError> for ReadFault {
    ghost use Rattle.std.specs.Prelude.{◌≡◌};
    ghost use Rattle.ltl_syntax.specs.declared.fault.ReadFault.TheVariants.{OutOfMemory};

    ghost from_gives = { λ _ fault. fault ≡ OutOfMemory };

    fn from(_: AllocError) -> ReadFault {
        ReadFault::OutOfMemory
    }
}
