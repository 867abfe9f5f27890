//! Ultimately periodic words (lassos).

ghost use Rattle.std.specs.Prelude.{◌≡◌, ◌≢◌, ◌<◌, ◌≤◌, ℕ, IfOk, IsTrue, [], length, map, slice_index_or};
ghost use Rattle.std.specs.Ordering.{nat_cmp};
ghost use Rattle.ltl_spec.specs.Collections.Sets.{has};
ghost use Rattle.ltl_spec.specs.Semantics.Word.{IsLasso, letter_at, name_cmp};
ghost use Rattle.ltl_spec.specs.Tools.Limits.{stated_limits};
ghost use Rattle.ltl_spec.specs.Words.LassoText.{HasTooManyNames};
ghost use Rattle.ltl_word.specs.LassoView.{size};
ghost use Rattle.ltl_word.specs.ReadText.{IsSpelled};
ghost use Rattle.ltl_word.specs.Rows.{IsRow};

use crate::bits::Bits;
use crate::name::{OwnedName, is_same};
use ltl_sets::PropositionSet;
use std::alloc::{AllocError, Allocator};
use std::marker::Model;

/// An ultimately periodic word: the letters of a finite stem, followed by those of a cycle that repeats forever. A letter is the set of the
/// propositions that are true at a position. `letters` has the stem and then the cycle; a letter has the numbers of its names.
#[derive(Drop)]
pub struct Lasso<'a, A: Allocator> {
    pub(crate) names: Vec<OwnedName<'a, A>, &'a A>,
    pub(crate) letters: Vec<PropositionSet, &'a A>,
    pub(crate) stem: usize,
}

impl<'a, A: Allocator> Model for Lasso<'a, A> {
    ghost use Rattle.std.specs.Prelude.{map};
    ghost use Rattle.ltl_spec.specs.Semantics.Word as word;
    ghost use Rattle.ltl_word.specs.LassoView.{lasso_of, IsMade};

    ghost Value = { word.Lasso };

    ghost view = { λ w. lasso_of (map (λ n. n.items) w.names.items) w.letters.items w.stem };

    ghost invariant = { λ w. IsMade (map (λ n. n.items) w.names.items) w.letters.items w.stem };
}

impl<'a, A: Allocator> Lasso<'a, A> {
    /// Gives a caller's proof the invariant of the type. It does nothing when it runs.
    pub fn invariant(&self)
        ensures word { IsLasso self.now }
        ensures spelled { IsSpelled self.now }
        ensures few { ¬ (HasTooManyNames stated_limits.propositions [] self.now) }
    {
        let _ = &self.names;
    }

    /// The number of letters of the stem and of the cycle together, which is at least 1.
    #[tactic(auto, using(crate::proofs::LetterLaws::size_is))]
    pub fn len(&self) -> usize
        ensures { result ≡ size self.now }
    {
        self.letters.len()
    }

    /// The first position.
    #[tactic(auto, using(crate::proofs::LetterLaws::size_is))]
    pub(crate) fn first(&self) -> usize
        ensures first { result ≡ 0 }
        ensures within { result < size self.now }
    {
        let _ = &self.letters;
        0
    }

    /// The number of letters of the stem, which is also the first position of the cycle.
    #[tactic(auto, using(crate::proofs::LetterLaws::size_is, crate::proofs::LetterLaws::stem_is))]
    pub fn stem_len(&self) -> usize
        ensures stem { result ≡ length self.now.stem }
        ensures cycle { result < size self.now }
    {
        self.stem
    }

    /// The positions where this proposition is true, as a bit vector. A name that isn't in the word is true nowhere.
    pub fn row_of_name<'r, B: Allocator>(
        &self,
        alloc: &'r B,
        name: &[u8],
    ) -> Result<Bits<'r, B>, AllocError>
        ensures { IfOk result (IsRow (size self.now) (λ i. IsTrue (has name_cmp name.now (letter_at self.now i)))) }
    {
        let place = place_of(self.names.as_slice(), name);
        let mut row = Bits::all(alloc, self.letters.len(), false)?;
        let mut i = self.letters.len();
        'positions: while i > 0 {
            i -= 1;
            row.put(i, self.letters[i].holds(place));
        }
        Ok(row)
    }
}

/// The position of the name in the list, or the length of the list if it isn't there.
fn place_of<A: Allocator>(names: &[OwnedName<'_, A>], name: &[u8]) -> usize
    ensures within { result ≤ length names.now }
    ensures found { result < length names.now → slice_index_or (map (λ n. n.items) names.now) result [] ≡ name.now }
    ensures earlier { (k : ℕ) → k < result → slice_index_or (map (λ n. n.items) names.now) k [] ≢ name.now }
{
    let mut at = 0;
    'names: while at < names.len() && !is_same(names[at].as_slice(), name) {
        at += 1;
    }
    at
}
