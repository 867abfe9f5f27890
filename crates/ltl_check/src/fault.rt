//! The errors of a check.

use ltl_syntax::PROPOSITION_LIMIT;
use std::alloc::AllocError;
use thiserror::Error;

/// Why there is no verdict. The limits are tested in this order; memory may be refused at any time.
#[derive(Clone, Copy, Debug, PartialEq, Eq, Error)]
pub enum CheckFault {
    /// The automaton and the formula have more than [`PROPOSITION_LIMIT`] different propositions together.
    #[error("limit: more than {limit} propositions", limit = PROPOSITION_LIMIT)]
    TooManyPropositions,
    /// The search has more than [`PRODUCT_LIMIT`](crate::PRODUCT_LIMIT) states.
    #[error("limit: product too large")]
    ProductTooLarge,
    /// The allocator refused an allocation.
    #[error("out of memory")]
    OutOfMemory,
}

impl From<AllocError> for CheckFault {
    ghost use Rattle.std.specs.Prelude.{◌≡◌};
    ghost use Rattle.ltl_check.specs.declared.fault.CheckFault.TheVariants.{OutOfMemory};

    ghost from_gives = { λ _ e. e ≡ OutOfMemory };

    fn from(_: AllocError) -> CheckFault {
        CheckFault::OutOfMemory
    }
}
