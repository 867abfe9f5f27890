//! Making a word from its letters as they are written.

ghost use Rattle.std.specs.Prelude.{◌≡◌, ◌≤◌, length, map, IfOk};
ghost use Rattle.std.specs.List.{AllByRecursion};
ghost use Rattle.ltl_spec.specs.Collections.Sets.{Has, IsRising};
ghost use Rattle.ltl_spec.specs.Semantics.Word.{name_cmp};
ghost use Rattle.ltl_spec.specs.Words.LassoText.{with_sets};
ghost use Rattle.ltl_word.specs.NameView.{AreAllPlaces, IsKnown, all_names};
ghost use Rattle.ltl_word.specs.WrittenView.{letters_of};

use crate::lasso::Lasso;
use crate::limits::NAME_LIMIT;
use crate::name::OwnedName;
use crate::name_list::places;
use crate::written::{Letter, Written};
use ltl_sets::PropositionSet;
use smallvec::SmallVec;
use std::alloc::{AllocError, Allocator};

/// Copies of the names.
fn owned<'a, A: Allocator>(
    alloc: &'a A,
    names: &[&[u8]],
) -> Result<Vec<OwnedName<'a, A>, &'a A>, AllocError>
    ensures { IfOk result (λ owned. map (λ n. n.items) owned.items ≡ map (λ n. n.now) names.now) }
{
    let mut owned = Vec::new(alloc);
    for i in 0..names.len() {
        owned.push(SmallVec::from_slice(alloc, names[i])?)?;
    }
    Ok(owned)
}

/// The letters as sets of numbers of names.
fn all_places<'a, A: Allocator>(
    alloc: &'a A,
    names: &[&[u8]],
    letters: &[Letter<'_, 'a, A>],
) -> Result<Vec<PropositionSet, &'a A>, AllocError>
    requires few { length names.now ≤ NAME_LIMIT }
    requires sorted { IsRising name_cmp (map (λ n. n.now) names.now) }
    requires known { AllByRecursion (Has (map (λ n. n.now) names.now)) (all_names (map (λ a. map (λ n. n.now) a.items) letters.now)) }
    ensures { IfOk result (λ rows. AreAllPlaces (map (λ n. n.now) names.now) (map (λ a. map (λ n. n.now) a.items) letters.now) rows.items) }
{
    let mut rows = Vec::with_capacity(alloc, letters.len())?;
    for i in 0..letters.len() {
        rows.push(places(names, letters[i].as_slice()))?;
    }
    Ok(rows)
}

impl<'a, A: Allocator> Lasso<'a, A> {
    /// The word with these letters. `names` has all their names.
    pub(crate) fn from_written(
        alloc: &'a A,
        names: &[&[u8]],
        word: &Written<'_, 'a, A>,
    ) -> Result<Lasso<'a, A>, AllocError>
        requires { IsKnown (map (λ n. n.now) names.now) (letters_of word.now) }
        ensures { IfOk result (λ w. w ≡ with_sets (letters_of word.now)) }
    {
        let mut letters = all_places(alloc, names, word.stem.as_slice())?;
        let stem = letters.len();
        let cycle = all_places(alloc, names, word.cycle.as_slice())?;
        letters.extend_from_slice(cycle.as_slice())?;
        let names = owned(alloc, names)?;
        Ok(Lasso {
            names,
            letters,
            stem,
        })
    }
}
