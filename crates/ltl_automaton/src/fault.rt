//! The errors of a construction.

ghost use Rattle.std.specs.Prelude.{◌≡◌};
ghost use Rattle.ltl_automaton.specs.declared.fault.AutomatonFault.TheVariants.{OutOfMemory};

use std::alloc::{AllocError, AllocFailed};
use thiserror::Error;

/// Why no automaton was made.
#[derive(Clone, Copy, Debug, PartialEq, Eq, Error)]
pub enum AutomatonFault {
    /// The automaton has more states or more edges than its limits allow.
    #[error("limit: automaton too large")]
    TooLarge,
    /// The allocator refused an allocation.
    #[error("out of memory")]
    OutOfMemory,
}

impl From<AllocError> for AutomatonFault {
    ghost from_gives = { λ _ e. e ≡ OutOfMemory };

    fn from(_error: AllocError) -> AutomatonFault {
        AutomatonFault::OutOfMemory
    }
}

impl<T: Drop> From<AllocFailed<T>> for AutomatonFault {
    ghost from_gives = { λ _ e. e ≡ OutOfMemory };

    fn from(_error: AllocFailed<T>) -> AutomatonFault {
        AutomatonFault::OutOfMemory
    }
}
