//! Names of propositions as byte strings.

ghost use Rattle.std.specs.Prelude.{◌≡◌};
ghost use Rattle.std.specs.Bool.{Decides};

use smallvec::SmallVec;

/// A name that is owned. Up to 16 bytes are stored without an allocation.
pub(crate) type OwnedName<'a, A> = SmallVec<u8, 16, &'a A>;

/// Whether two byte strings are equal.
#[tactic(auto, using(crate::proofs::LetterLaws::same_bytes))]
pub(crate) fn is_same(bytes: &[u8], name: &[u8]) -> bool
    ensures { Decides result (bytes.now ≡ name.now) }
{
    bytes == name
}
