//! Errors of the search for a run, and of writing a timeline.

use ltl_streams::WriteFault;
use std::alloc::AllocError;
use thiserror::Error;

/// Why it isn't known whether there is an accepting run.
#[derive(Clone, Copy, Debug, PartialEq, Eq, Error)]
pub enum RunFault {
    /// The product of the automaton's states, the word's positions and the levels of the search has more than [`PRODUCT_LIMIT`](ltl_check::PRODUCT_LIMIT)
    /// states.
    #[error("limit: product too large")]
    TooLarge,
    /// The allocator refused an allocation.
    #[error("out of memory")]
    OutOfMemory,
}

impl From<AllocError> for RunFault {
    ghost use Rattle.std.specs.Prelude.{◌≡◌};
    ghost use Rattle.ltl_pictures.specs.declared.fault.RunFault.TheVariants.{OutOfMemory};

    ghost from_gives = { λ _ e. e ≡ OutOfMemory };

    fn from(_: AllocError) -> RunFault {
        RunFault::OutOfMemory
    }
}

/// Why a timeline wasn't written to its end.
#[derive(Clone, Copy, Debug, PartialEq, Eq, Error)]
pub enum TimelineFault {
    #[error("cannot write")]
    CannotWrite,
    /// The allocator refused an allocation. Nothing was written.
    #[error("out of memory")]
    OutOfMemory,
}

impl From<AllocError> for TimelineFault {
    ghost use Rattle.std.specs.Prelude.{◌≡◌};
    ghost use Rattle.ltl_pictures.specs.declared.fault.TimelineFault.TheVariants.{OutOfMemory};

    ghost from_gives = { λ _ fault. fault ≡ OutOfMemory };

    fn from(_: AllocError) -> TimelineFault {
        TimelineFault::OutOfMemory
    }
}

impl From<WriteFault> for TimelineFault {
    ghost use Rattle.std.specs.Prelude.{◌≡◌};
    ghost use Rattle.ltl_pictures.specs.declared.fault.TimelineFault.TheVariants.{CannotWrite};

    ghost from_gives = { λ _ fault. fault ≡ CannotWrite };

    fn from(_: WriteFault) -> TimelineFault {
        TimelineFault::CannotWrite
    }
}
