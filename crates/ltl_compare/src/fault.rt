//! The errors of a comparison.

use ltl_buchi::BaFault;
use ltl_check::CheckFault;
use ltl_formula::BuildFault;
use thiserror::Error;

/// Why two formulas were not compared. Memory may be refused at any time.
#[derive(Clone, Copy, Debug, PartialEq, Eq, Error)]
pub enum CompareFault {
    /// A formula or its negation has too many rows.
    #[error("{}", BuildFault::TooManyRows)]
    TooManyRows,
    /// A formula or its negation has too many elementary rows.
    #[error("{}", BuildFault::TooManyElementaryRows)]
    TooManyElementaryRows,
    /// The automaton of a formula or of its negation, or one from which it is made, is too large.
    #[error("limit: automaton too large")]
    TooLarge,
    /// Both formulas have too many different propositions together.
    #[error("{}", CheckFault::TooManyPropositions)]
    TooManyPropositions,
    /// A search has too many states.
    #[error("{}", CheckFault::ProductTooLarge)]
    ProductTooLarge,
    /// The allocator refused an allocation.
    #[error("out of memory")]
    OutOfMemory,
}

impl From<BuildFault> for CompareFault {
    ghost use Rattle.std.specs.Prelude.{◌≡◌};
    ghost use Rattle.ltl_compare.specs.Faults.{of_build};

    ghost from_gives = { λ fault e. e ≡ of_build fault };

    fn from(fault: BuildFault) -> CompareFault {
        match fault {
            BuildFault::TooManyRows => CompareFault::TooManyRows,
            BuildFault::TooManyElementaryRows => CompareFault::TooManyElementaryRows,
            BuildFault::OutOfMemory => CompareFault::OutOfMemory,
        }
    }
}

impl From<BaFault> for CompareFault {
    ghost use Rattle.std.specs.Prelude.{◌≡◌};
    ghost use Rattle.ltl_compare.specs.Faults.{of_translation};

    ghost from_gives = { λ fault e. e ≡ of_translation fault };

    fn from(fault: BaFault) -> CompareFault {
        match fault {
            BaFault::TooLarge => CompareFault::TooLarge,
            BaFault::OutOfMemory => CompareFault::OutOfMemory,
        }
    }
}

impl From<CheckFault> for CompareFault {
    ghost use Rattle.std.specs.Prelude.{◌≡◌};
    ghost use Rattle.ltl_compare.specs.Faults.{of_check};

    ghost from_gives = { λ fault e. e ≡ of_check fault };

    fn from(fault: CheckFault) -> CompareFault {
        match fault {
            CheckFault::TooManyPropositions => CompareFault::TooManyPropositions,
            CheckFault::ProductTooLarge => CompareFault::ProductTooLarge,
            CheckFault::OutOfMemory => CompareFault::OutOfMemory,
        }
    }
}
