//! The errors of reading an automaton.

ghost use Rattle.std.specs.Prelude.{◌≡◌, ◌≤◌, Some, length};
ghost use Rattle.ltl_spec.specs.Hoa.HoaFaultKind.{hoa_fault_text};
ghost use Rattle.ltl_hoa.specs.TokenView.{kind_of};
ghost use Rattle.ltl_hoa.specs.declared.fault.HoaFault.TheVariants as hoa;
ghost use Rattle.ltl_hoa.specs.declared.fault.Stop.TheVariants as stop;

use std::alloc::AllocError;
use std::fmt;
use thiserror::Error;

/// What is wrong with a text.
#[derive(Clone, Copy, Debug, PartialEq, Eq)]
pub enum HoaFaultKind {
    /// The text doesn't begin with `HOA: v1`.
    NotHoaVersion1,
    /// A token is in a wrong place, a byte begins no token, the text ends too early, or a string or a comment isn't closed.
    BadToken,
    ItemTwice,
    ItemMissing,
    UnknownItem,
    /// The text uses a part of the format that this reader doesn't support.
    Unsupported,
    /// A number of a state, a set or a proposition isn't below the count in the header.
    NumberOutOfRange,
    /// A name is no proposition, or the list has a name twice, or it has too few or too many names.
    BadPropositionList,
    StateDefinedTwice,
    TextAfterEnd,
    /// The text, the automaton or a label is above a limit.
    LimitPassed,
}

impl HoaFaultKind {
    /// The end of the message, behind the number of the line.
    pub fn text(self) -> &'static str
        ensures text { result.now ≡ hoa_fault_text (kind_of self) }
        ensures short { length result.now ≤ 30 }
    {
        match self {
            HoaFaultKind::NotHoaVersion1 => "not HOA v1",
            HoaFaultKind::BadToken => "bad token",
            HoaFaultKind::ItemTwice => "item twice",
            HoaFaultKind::ItemMissing => "item missing",
            HoaFaultKind::UnknownItem => "unknown item",
            HoaFaultKind::Unsupported => "unsupported",
            HoaFaultKind::NumberOutOfRange => "number out of range",
            HoaFaultKind::BadPropositionList => "bad AP list",
            HoaFaultKind::StateDefinedTwice => "state defined twice",
            HoaFaultKind::TextAfterEnd => "text after the end",
            HoaFaultKind::LimitPassed => "limit passed",
        }
    }
}

impl fmt::Display for HoaFaultKind {
    ghost output = { λ kind. Some (hoa_fault_text (kind_of kind)) };

    fn fmt<W: fmt::Write>(&self, f: &mut fmt::Formatter<W>) -> fmt::Result {
        f.write_str(self.text())
    }
}

impl std::error::Error for HoaFaultKind {}

/// Why no automaton was read.
#[derive(Clone, Copy, Debug, PartialEq, Eq, Error)]
pub enum HoaFault {
    /// The leftmost fault of the text, and its line, counted from 1. A text with too many bytes has only the fault `LimitPassed`, in the line where
    /// the limit is passed.
    #[error("automaton: line {0}: {1}")]
    AtLine(usize, HoaFaultKind),
    /// A read of the source failed.
    #[error("cannot read")]
    CannotRead,
    /// The allocator refused an allocation.
    #[error("out of memory")]
    OutOfMemory,
}

impl From<AllocError> for HoaFault {
    ghost from_gives = { λ _ e. e ≡ hoa.OutOfMemory };

    fn from(_error: AllocError) -> HoaFault {
        HoaFault::OutOfMemory
    }
}

/// Why a token was refused.
#[derive(Clone, Copy)]
pub(crate) enum Stop {
    Fault(HoaFaultKind),
    OutOfMemory,
}

impl From<AllocError> for Stop {
    ghost from_gives = { λ _ e. e ≡ stop.OutOfMemory };

    fn from(_error: AllocError) -> Stop {
        Stop::OutOfMemory
    }
}
