//! The limits on tables and on formulas.

pub use ltl_syntax::limits::{PROPOSITION_LIMIT, TEXT_LIMIT};

/// The largest number of rows in a table.
pub const ROW_LIMIT: usize = 4096;

/// The largest number of elementary rows in a table.
pub const ELEMENTARY_ROW_LIMIT: usize = 256;
