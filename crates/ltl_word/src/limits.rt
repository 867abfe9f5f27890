//! The limits on words.

use ltl_names::PROPOSITION_LIMIT;

/// The largest number of bytes in the text of a word.
pub const TEXT_LIMIT: usize = 65_536;

/// The largest number of different propositions in a word and the formula that is evaluated on it, counted together.
pub const NAME_LIMIT: usize = PROPOSITION_LIMIT;
