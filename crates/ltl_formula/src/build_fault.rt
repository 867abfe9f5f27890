//! The errors of building a table.

ghost use Rattle.std.specs.Prelude.{◌≡◌};
ghost use Rattle.ltl_formula.specs.declared.build_fault.BuildFault.TheVariants.{OutOfMemory};

use crate::limits::{ELEMENTARY_ROW_LIMIT, ROW_LIMIT};
use std::alloc::{AllocError, AllocFailed};
use thiserror::Error;

/// Why no table was built.
#[derive(Clone, Copy, Debug, PartialEq, Eq, Error)]
pub enum BuildFault {
    /// There are more than `ROW_LIMIT` rows.
    #[error("limit: more than {limit} rows", limit = ROW_LIMIT)]
    TooManyRows,
    /// There are more than `ELEMENTARY_ROW_LIMIT` elementary rows.
    #[error("limit: more than {limit} elementary rows", limit = ELEMENTARY_ROW_LIMIT)]
    TooManyElementaryRows,
    /// The allocator refused an allocation.
    #[error("out of memory")]
    OutOfMemory,
}

impl From<AllocError> for BuildFault {
    ghost from_gives = { λ _ e. e ≡ OutOfMemory };

    fn from(_error: AllocError) -> BuildFault {
        BuildFault::OutOfMemory
    }
}

impl<T: Drop> From<AllocFailed<T>> for BuildFault {
    ghost from_gives = { λ _ e. e ≡ OutOfMemory };

    fn from(_error: AllocFailed<T>) -> BuildFault {
        BuildFault::OutOfMemory
    }
}
