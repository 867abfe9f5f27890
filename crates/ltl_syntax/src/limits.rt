//! The limits on formulas.

use ltl_names as names;

/// The largest number of bytes in the text of a formula.
pub const TEXT_LIMIT: usize = 65_536;

/// The largest number of different propositions in a formula.
pub const PROPOSITION_LIMIT: usize = names::PROPOSITION_LIMIT;
