//! Edges in a word each, which shows at once that most edges don't do for another one.

use ltl_automaton::Edge;
use ltl_sets::RowSet;

/// The number of bits of a kind of shadows.
pub(crate) const KIND_BITS: usize = 12;

/// How many kinds of shadows there are.
pub(crate) const KINDS: usize = 4_096;

/// The number of bits for literals of one sign.
const LITERALS: usize = 24;

/// The bits of a word for literals of one sign.
const LITERAL_BITS: u64 = 0xff_ffff;

/// The bits of a word for sets.
const SET_BITS: u64 = 0xffff;

/// An edge as a word: its propositions modulo 24, by sign, and the first 16 sets that it lacks. An edge does for another one only if all its bits are among those
/// of the other one; if both are exact, this is the same as to have no further literals and at least the marks of the other one.
#[derive(Clone, Copy)]
pub(crate) struct Shadow {
    pub(crate) word: u64,
    pub(crate) target: usize,
}

/// The members of a set modulo 24, as the bits of a word.
fn folded(set: &RowSet) -> u64 {
    let mut word = 0u64;
    for member in set.iter() {
        word |= 1u64 << (member % LITERALS);
    }
    word
}

/// Whether the members of a set are below the number of bits for literals.
fn are_low(set: &RowSet) -> bool {
    let words = set.words();
    words[0] <= LITERAL_BITS && words[1] == 0 && words[2] == 0 && words[3] == 0
}

impl Shadow {
    /// That of an edge.
    pub(crate) fn of(edge: &Edge) -> Shadow {
        let lacking = !edge.marks.words()[0] & SET_BITS;
        Shadow {
            word: folded(&edge.cube.letter())
                | folded(&edge.cube.forbidden()) << LITERALS
                | lacking << 48,
            target: edge.target,
        }
    }

    /// Whether the word tells all literals and marks of an edge.
    pub(crate) fn is_exact(edge: &Edge) -> bool {
        are_low(&edge.cube.letter())
            && are_low(&edge.cube.forbidden())
            && edge.marks.words()[0] <= SET_BITS
    }

    /// Whether the edge may do for another one.
    #[inline(always)]
    pub(crate) fn may_do_for(&self, other: &Shadow) -> bool {
        self.word & !other.word == 0
    }

    /// The number of its kind. Of two edges of which one does for the other one, the bits of its kind are among those of the other one's.
    pub(crate) fn kind(&self) -> usize {
        let positive = quarter(self.word & LITERAL_BITS);
        let negative = quarter((self.word >> 24) & LITERAL_BITS);
        (positive | negative << 4 | (self.word >> 48 & 15) << 8) as usize
    }
}

/// 24 bits folded onto four.
fn quarter(bits: u64) -> u64 {
    (bits | bits >> 4 | bits >> 8 | bits >> 12 | bits >> 16 | bits >> 20) & 15
}
