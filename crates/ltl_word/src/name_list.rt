//! Sorted lists of names.

ghost use Rattle.std.specs.Prelude.{◌≡◌, ◌<◌, ◌≤◌, ◌++◌, [], length, map, slice_index_or, IfOk, MatchResult, OnOk};
ghost use Rattle.std.specs.List.{AllByRecursion};
ghost use Rattle.ltl_spec.specs.Collections.Sets.{Has, IsRising, set_of};
ghost use Rattle.ltl_spec.specs.Semantics.Word.{name_cmp};
ghost use Rattle.ltl_spec.specs.Words.LassoText.{names_in};
ghost use Rattle.ltl_word.specs.NameView.{ArePlaces, IsNameSet, RefusesNames, all_names};
ghost use Rattle.ltl_word.specs.WrittenView.{letters_of};

use crate::fault::WordFault;
use crate::limits::NAME_LIMIT;
use crate::written::{Letter, Written};
use ltl_sets::RowSet;
use ltl_syntax::Formula;
use std::alloc::{AllocError, Allocator};

/// A list of names.
pub(crate) type Names<'t, 'a, A> = Vec<&'t [u8], &'a A>;

/// Sorts the names by their bytes, and removes duplicates.
pub(crate) fn sort_dedup<A: Allocator>(names: &mut Names<'_, '_, A>)
    ensures { map (λ n. n.now) names.new.items ≡ set_of name_cmp (map (λ n. n.now) names.old.items) }
{
    names.sort_unstable();
    names.dedup();
}

/// Appends the names of some letters.
fn push_letters<'t, 'a, A: Allocator>(
    names: &mut Names<'t, 'a, A>,
    letters: &[Letter<'t, 'a, A>],
) -> Result<(), AllocError>
    ensures { OnOk result (map (λ n. n.now) names.new.items
        ≡ map (λ n. n.now) names.old.items ++ all_names (map (λ a. map (λ n. n.now) a.items) letters.now)) }
{
    for i in 0..letters.len() {
        names.extend_from_slice(letters[i].as_slice())?;
    }
    Ok(())
}

/// The names of a formula and of a word, in their order and with repetitions.
fn all<'t, 'a, A: Allocator, B: Allocator>(
    alloc: &'a A,
    formula: &'t Formula<'_, B>,
    word: &Written<'t, 'a, A>,
) -> Result<Names<'t, 'a, A>, AllocError>
    ensures { IfOk result (λ names. map (λ n. n.now) names.items ≡ formula.now.names ++ names_in (letters_of word.now)) }
{
    let mut names = Vec::new(alloc);
    for number in 0..formula.name_count() {
        names.push(formula.name(number).as_bytes())?;
    }
    push_letters(&mut names, word.stem.as_slice())?;
    push_letters(&mut names, word.cycle.as_slice())?;
    Ok(names)
}

/// The names of a formula and of a word together, sorted and without duplicates.
pub(crate) fn gather<'t, 'a, A: Allocator, B: Allocator>(
    alloc: &'a A,
    formula: &'t Formula<'_, B>,
    word: &Written<'t, 'a, A>,
) -> Result<Names<'t, 'a, A>, WordFault>
    ensures { MatchResult result (λ names. IsNameSet (formula.now.names ++ names_in (letters_of word.now)) (map (λ n. n.now) names.items))
        (RefusesNames (length (set_of name_cmp (formula.now.names ++ names_in (letters_of word.now))))) }
{
    let mut names = all(alloc, formula, word)?;
    sort_dedup(&mut names);
    if names.len() > NAME_LIMIT {
        return Err(WordFault::TooManyPropositions);
    }
    Ok(names)
}

/// The position of a name that is in the list.
fn place_of(names: &[&[u8]], name: &[u8]) -> usize
    requires sorted { IsRising name_cmp (map (λ n. n.now) names.now) }
    requires known { Has (map (λ n. n.now) names.now) name.now }
    ensures within { result < length names.now }
    ensures there { slice_index_or (map (λ n. n.now) names.now) result [] ≡ name.now }
{
    names.binary_search(&name).unwrap_or(0)
}

/// The numbers of a letter's names, which are all in the list.
pub(crate) fn places(names: &[&[u8]], letter: &[&[u8]]) -> RowSet
    requires few { length names.now ≤ NAME_LIMIT }
    requires sorted { IsRising name_cmp (map (λ n. n.now) names.now) }
    requires known { AllByRecursion (Has (map (λ n. n.now) names.now)) (map (λ n. n.now) letter.now) }
    ensures { ArePlaces (map (λ n. n.now) names.now) (set_of name_cmp (map (λ n. n.now) letter.now)) result }
{
    let mut places = RowSet::empty();
    let mut i = letter.len();
    'names: while i > 0 {
        i -= 1;
        places.insert(place_of(names, letter[i]));
    }
    places
}
