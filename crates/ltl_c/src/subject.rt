//! Refusals of a comparison, and which formula they are about.

ghost use Rattle.std.specs.Prelude.{◌≡◌};
ghost use Rattle.ltl_compare.specs.ComparisonView as compare;
ghost use Rattle.ltl_cli.specs.Refusals.{refusal_of};
ghost use Rattle.ltl_c.specs.Codes.{subject_in, subject_number};

use ltl_cli::Refusal;
use ltl_compare::CompareFault;

/// What a refusal is about.
#[derive(Clone, Copy, Debug, PartialEq, Eq)]
pub(crate) enum Subject {
    /// Neither formula alone.
    Other,
    /// The text of the first formula.
    First,
    /// The text of the second formula.
    Second,
}

impl Subject {
    /// The number for C.
    pub(crate) fn number(self) -> u32
        ensures { result ≡ subject_number (subject_in self) }
    {
        match self {
            Subject::Other => 0,
            Subject::First => 1,
            Subject::Second => 2,
        }
    }
}

/// A refusal and its subject.
#[derive(Clone, Copy, Debug, PartialEq, Eq)]
pub(crate) struct Refused {
    pub(crate) subject: Subject,
    pub(crate) refusal: Refusal,
}

/// The refusal of a comparison that doesn't finish.
pub(crate) fn refusal_for(fault: CompareFault) -> Refusal
    ensures { refusal_of result ≡ compare.refusal_of fault }
{
    match fault {
        CompareFault::TooManyRows => Refusal::TooManyRows,
        CompareFault::TooManyElementaryRows => Refusal::TooManyElementaryRows,
        CompareFault::TooLarge => Refusal::LargeAutomaton,
        CompareFault::TooManyPropositions => Refusal::TooManyPropositions,
        CompareFault::ProductTooLarge => Refusal::LargeProduct,
        CompareFault::OutOfMemory => Refusal::OutOfMemory,
    }
}
