//! Values that need elements and lack others.

ghost use Rattle.std.specs.Prelude.{◌≡◌, ℕ, Bool, List};
ghost use Rattle.std.specs.List.{filter};

use ltl_sets::RowSet;

/// The number of kinds of elements.
pub(crate) const KINDS: usize = 3;

/// A value that needs elements, as a set needs its members, asks for others, and lacks some. Elements are numbers below [`RowSet::LIMIT`] of three
/// kinds, which are numbered from 0.
pub trait Elements: Copy {
    ghost needs: { Self → ℕ → List ℕ };

    ghost asks: { Self → ℕ → List ℕ };

    ghost lacking: { Self → ℕ → ℕ → Bool };

    /// The elements of a kind that the value needs.
    fn needs(&self, kind: usize) -> RowSet
        ensures { result ≡ needs self.now kind };

    /// The elements of a kind that the value asks for.
    fn asks(&self, kind: usize) -> RowSet
        ensures { result ≡ asks self.now kind };

    /// Those of these elements of a kind that the value lacks.
    fn lacks(&self, kind: usize, of: &RowSet) -> RowSet
        ensures { result ≡ filter (lacking self.now kind) of.now };
}
