//! Refusals and what they are about.

ghost use Rattle.std.specs.Prelude.{◌≡◌};
ghost use Rattle.ltl_comparison.specs.Refusals.{in_words, of_compare};

use ltl_cli::Refusal;
use ltl_compare::CompareFault;
use ltl_streams::WriteFault;
use ltl_words::PlanFault;

/// What a refusal is about.
#[derive(Clone, Copy, Debug, PartialEq, Eq)]
pub(crate) enum Subject {
    /// The first formula, as it was read.
    First,
    /// The second formula, as it was read.
    Second,
    /// Neither of them alone.
    Other,
}

/// A refusal and its subject.
#[derive(Clone, Copy, Debug, PartialEq, Eq)]
pub(crate) struct Refused {
    pub(crate) subject: Subject,
    pub(crate) refusal: Refusal,
}

impl Refused {
    /// The refusal of a command line that has no plan.
    pub(crate) fn of_words(fault: PlanFault) -> Refused
        ensures { result ≡ in_words fault }
    {
        Refused {
            subject: Subject::Other,
            refusal: Refusal::of_words(fault),
        }
    }

    /// The refusal of a comparison that doesn't finish.
    pub(crate) fn of_compare(fault: CompareFault) -> Refused
        ensures { result ≡ of_compare fault }
    {
        let refusal = match fault {
            CompareFault::TooManyRows => Refusal::TooManyRows,
            CompareFault::TooManyElementaryRows => Refusal::TooManyElementaryRows,
            CompareFault::TooLarge => Refusal::LargeAutomaton,
            CompareFault::TooManyPropositions => Refusal::TooManyPropositions,
            CompareFault::ProductTooLarge => Refusal::LargeProduct,
            CompareFault::OutOfMemory => Refusal::OutOfMemory,
        };
        Refused {
            subject: Subject::Other,
            refusal,
        }
    }
}

impl From<WriteFault> for Refused {
    ghost use Rattle.std.specs.Prelude.{◌≡◌};
    ghost use Rattle.ltl_comparison.specs.Refusals.{not_written};

    ghost from_gives = { λ _ refused. refused ≡ not_written };

    fn from(_: WriteFault) -> Refused {
        Refused {
            subject: Subject::Other,
            refusal: Refusal::CannotWrite,
        }
    }
}
