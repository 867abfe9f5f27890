//! Operations on 64 bits in a machine word.

ghost use Rattle.std.specs.Prelude.{◌≡◌, ◌≢◌, ℕ, ◌+◌, ◌-◌, ◌<◌, not};
ghost use Rattle.ltl_word.specs.Rows.{back, is_set, joined};

/// A binary Boolean operation.
#[derive(Clone, Copy)]
pub(crate) enum Junction {
    And,
    Or,
    Implies,
    Iff,
}

impl Junction {
    /// The operation on each pair of bits of two machine words.
    pub(crate) fn word(self, left: u64, right: u64) -> u64
        ensures { (k : ℕ) → k < 64 → is_set result k ≡ joined self (is_set left k) (is_set right k) }
    {
        match self {
            Junction::And => left & right,
            Junction::Or => left | right,
            Junction::Implies => !left | right,
            Junction::Iff => !(left ^ right),
        }
    }
}

/// The complement.
#[tactic(auto, using(crate::proofs::BitLemmas::one_not))]
pub(crate) fn inverted(word: u64) -> u64
    ensures { (k : ℕ) → k < 64 → is_set result k ≡ not (is_set word k) }
{
    !word
}

/// The machine word with this value of the bit at `place`.
pub(crate) fn with_bit(word: u64, place: usize, value: bool) -> u64
    requires { place < 64 }
    ensures here { is_set result place ≡ value }
    ensures others { (k : ℕ) → k < 64 → k ≢ place → is_set result k ≡ is_set word k }
{
    let bit = 1 << place;
    if value { word | bit } else { word & !bit }
}

/// The bits shifted by one place, with `last` as bit 63: bit `k` of the result is bit `k + 1`.
pub(crate) fn shifted(word: u64, last: bool) -> u64
    ensures before { (k : ℕ) → k < 63 → is_set result k ≡ is_set word (k + 1) }
    ensures last { is_set result 63 ≡ last }
{
    with_bit(word >> 1, 63, last)
}

/// `left U right` at each of 64 positions, where `later` is its value at the position after them. The steps double the distance that they look
/// ahead, so there are six of them.
pub(crate) fn until_word(left: u64, right: u64, later: bool) -> u64
    ensures { (k : ℕ) → k < 64 → is_set result k ≡ back (is_set left) (is_set right) (64 - k) k later }
{
    let mut comes = if later {
        right | (left & (1 << 63))
    } else {
        right
    };
    let mut holds = left;
    let mut ahead = 1usize;
    'doublings: while ahead < 64 {
        comes = comes | (holds & (comes >> ahead));
        holds = holds & (holds >> ahead);
        ahead *= 2;
    }
    comes
}
