//! Making a word from letters that are sets of numbers of names.

ghost use Rattle.std.specs.Prelude.{◌≡◌, ◌<◌, ◌≤◌, ◌++◌, [], length, map, true, All, IfOk, IsTrue};
ghost use Rattle.std.specs.List.{AllByRecursion, list_all};
ghost use Rattle.ltl_spec.specs.Formulas.Names.{is_proposition};
ghost use Rattle.ltl_spec.specs.Collections.Sets.{set_of};
ghost use Rattle.ltl_spec.specs.Semantics.Word.{name_cmp};
ghost use Rattle.ltl_word.specs.LassoView.{letter_of, word_with};

use crate::lasso::Lasso;
use crate::limits::NAME_LIMIT;
use crate::name_list::{Names, sort_dedup};
use crate::written::{Letter, Letters, Written};
use ltl_sets::PropositionSet;
use smallvec::SmallVec;
use std::alloc::{AllocError, Allocator};

/// The names with these numbers.
fn names_at<'t, 'a, A: Allocator>(
    alloc: &'a A,
    names: &[&'t str],
    numbers: &PropositionSet,
) -> Result<Letter<'t, 'a, A>, AllocError>
    requires { AllByRecursion (λ i. i < length names.now) numbers.now }
    ensures { IfOk result (λ letter. map (λ n. n.now) letter.items ≡ letter_of (map (λ n. n.now) names.now) numbers.now) }
{
    let mut letter = SmallVec::new(alloc);
    for i in numbers.iter() {
        letter.push(names[i].as_bytes())?;
    }
    Ok(letter)
}

/// The letters as lists of names.
fn letters_at<'t, 'a, A: Allocator>(
    alloc: &'a A,
    names: &[&'t str],
    rows: &[PropositionSet],
) -> Result<Letters<'t, 'a, A>, AllocError>
    requires { AllByRecursion (AllByRecursion (λ i. i < length names.now)) rows.now }
    ensures { IfOk result (λ letters. map (λ a. map (λ n. n.now) a.items) letters.items ≡ map (letter_of (map (λ n. n.now) names.now)) rows.now) }
{
    let mut letters = Vec::with_capacity(alloc, rows.len())?;
    for i in 0..rows.len() {
        letters.push(names_at(alloc, names, &rows[i])?)?;
    }
    Ok(letters)
}

/// The names, sorted and without duplicates.
fn name_set<'t, 'a, A: Allocator>(
    alloc: &'a A,
    names: &[&'t str],
) -> Result<Names<'t, 'a, A>, AllocError>
    ensures { IfOk result (λ set. map (λ n. n.now) set.items ≡ set_of name_cmp (map (λ n. n.now) names.now)) }
{
    let mut set = Vec::with_capacity(alloc, names.len())?;
    for i in 0..names.len() {
        set.push(names[i].as_bytes())?;
    }
    sort_dedup(&mut set);
    Ok(set)
}

/// The letters as if they had been read from a text.
fn written_of<'t, 'a, A: Allocator>(
    alloc: &'a A,
    names: &[&'t str],
    stem: &[PropositionSet],
    cycle: &[PropositionSet],
) -> Result<Written<'t, 'a, A>, AllocError>
    requires stem { AllByRecursion (AllByRecursion (λ i. i < length names.now)) stem.now }
    requires cycle { AllByRecursion (AllByRecursion (λ i. i < length names.now)) cycle.now }
    ensures { IfOk result (λ w. w ≡ record {
      in_cycle = true;
      stem = map (letter_of (map (λ n. n.now) names.now)) stem.now;
      cycle = map (letter_of (map (λ n. n.now) names.now)) cycle.now;
      letter = [];
    }) }
{
    let stem = letters_at(alloc, names, stem)?;
    let cycle = letters_at(alloc, names, cycle)?;
    Ok(Written::of_letters(alloc, stem, cycle))
}

impl<'a, A: Allocator> Lasso<'a, A> {
    /// The word with this stem and cycle. A letter has the numbers of its propositions in `names`; a name may occur there twice.
    pub fn new(
        alloc: &'a A,
        names: &[&str],
        stem: &[PropositionSet],
        cycle: &[PropositionSet],
    ) -> Result<Lasso<'a, A>, AllocError>
        requires propositions { IsTrue (list_all is_proposition (map (λ n. n.now) names.now)) }
        requires few { length names.now ≤ NAME_LIMIT }
        requires within { All (All (λ i. i < length names.now)) (stem.now ++ cycle.now) }
        requires cycles { 0 < length cycle.now }
        ensures { IfOk result (λ w. w ≡ word_with (map (λ n. n.now) names.now) stem.now cycle.now) }
    {
        let set = name_set(alloc, names)?;
        let word = written_of(alloc, names, stem, cycle)?;
        Lasso::from_written(alloc, set.as_slice(), &word)
    }
}
