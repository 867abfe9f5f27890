//! The errors of reading a word.

use crate::limits::{NAME_LIMIT, TEXT_LIMIT};
use std::alloc::AllocError;
use thiserror::Error;

/// Why a text is not read as a word. If several reasons apply, the first one in this order is answered. `OutOfMemory` may come in place of any.
#[derive(Clone, Copy, Debug, PartialEq, Eq, Error)]
pub enum WordFault {
    /// The text has more than `TEXT_LIMIT` bytes.
    #[error("limit: word longer than {limit} bytes", limit = TEXT_LIMIT)]
    TooLong,
    /// The byte with this number is wrong, counted from 0: the text before it begins some word, and the text with it begins none. If letters are
    /// missing at the end, the number is the length of the text.
    #[error("word: byte {0}: bad word")]
    BadWord(usize),
    /// The word and the formula together have more than `NAME_LIMIT` different propositions.
    #[error("limit: more than {limit} propositions", limit = NAME_LIMIT)]
    TooManyPropositions,
    #[error("out of memory")]
    OutOfMemory,
}

impl From<AllocError> for WordFault {
    ghost use Rattle.std.specs.Prelude.{◌≡◌};
    ghost use Rattle.ltl_word.specs.declared.fault.WordFault.TheVariants.{OutOfMemory};

    ghost from_gives = { λ _ fault. fault ≡ OutOfMemory };

    fn from(_: AllocError) -> WordFault {
        WordFault::OutOfMemory
    }
}
