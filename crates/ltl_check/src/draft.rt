//! Words by their letters, with letters left out or replaced.

ghost use Rattle.std.specs.Prelude.{◌≡◌, ◌+◌, ◌-◌, ◌<◌, ◌≤◌, ◌∷◌, ◌++◌, length, map, take, drop, min, IfOk, OnOk};
ghost use Rattle.std.specs.List.{list_any};
ghost use Rattle.std.specs.Ordering.{nat_cmp};
ghost use Rattle.ltl_spec.specs.Collections.Sets.{has};
ghost use Rattle.ltl_sets.specs.declared.row_set.TheConstants.RowSet.{LIMIT};
ghost use Rattle.ltl_check.specs.Shrunk.{bare};
ghost use Rattle.ltl_check.specs.VerdictView.{letters_of};

use crate::walk::{Taken, Walk};
use ltl_sets::{PropositionSet, RowSet};
use std::alloc::{AllocError, Allocator};

/// A word: `letters` has the stem and then the cycle. A letter has the numbers of names.
#[derive(Drop)]
pub(crate) struct Draft<'a, A: Allocator> {
    pub(crate) letters: Vec<PropositionSet, &'a A>,
    pub(crate) stem: usize,
}

/// Appends the letters of the steps.
fn push_letters<A: Allocator>(
    letters: &mut Vec<PropositionSet, &A>,
    steps: &[Taken],
) -> Result<(), AllocError>
    ensures { OnOk result (letters.new.items ≡ letters.old.items ++ letters_of steps.now) }
{
    for i in 0..steps.len() {
        let step = steps[i];
        letters.push(step.letter)?;
    }
    Ok(())
}

/// Appends the letters with this proposition false in each of them.
fn push_bare<A: Allocator>(
    letters: &mut Vec<PropositionSet, &A>,
    with: &[PropositionSet],
    p: usize,
) -> Result<(), AllocError>
    requires { p < LIMIT }
    ensures { OnOk result (letters.new.items ≡ letters.old.items ++ map (bare p) with.now) }
{
    let gone = RowSet::single(p);
    for i in 0..with.len() {
        let letter = with[i];
        letters.push(letter.without(&gone))?;
    }
    Ok(())
}

impl<'a, A: Allocator> Draft<'a, A> {
    /// The word along the walk.
    pub(crate) fn along(alloc: &'a A, walk: &Walk<'_, A>) -> Result<Draft<'a, A>, AllocError>
        ensures letters { IfOk result (λ d. d.letters.items ≡ letters_of walk.now.stem.items ++ letters_of walk.now.cycle.items) }
        ensures stem { IfOk result (λ d. d.stem ≡ length walk.now.stem.items) }
    {
        let mut letters = Vec::new(alloc);
        push_letters(&mut letters, walk.stem.as_slice())?;
        push_letters(&mut letters, walk.cycle.as_slice())?;
        Ok(Draft {
            letters,
            stem: walk.stem.len(),
        })
    }

    /// The end of the part of `count` letters that begins at `at`, or of a shorter one that ends with the stem or with the cycle.
    pub(crate) fn end_of(&self, at: usize, count: usize) -> usize
        requires { (self.now.stem ≤ length self.now.letters.items) × (at < length self.now.letters.items) × (0 < count) }
        ensures some { at < result }
        ensures few { result ≤ at + count }
        ensures within { result ≤ length self.now.letters.items }
        ensures part { at < self.now.stem → result ≤ self.now.stem }
    {
        let part = if at < self.stem {
            self.stem
        } else {
            self.letters.len()
        };
        part.min(at.saturating_add(count))
    }

    /// The word without the letters from `at` to one before `end`.
    pub(crate) fn without(
        &self,
        alloc: &'a A,
        at: usize,
        end: usize,
    ) -> Result<Draft<'a, A>, AllocError>
        requires { (at ≤ end) × (end ≤ length self.now.letters.items) }
        ensures letters { IfOk result (λ d. d.letters.items ≡ take at self.now.letters.items ++ drop end self.now.letters.items) }
        ensures stem { IfOk result (λ d. d.stem ≡ self.now.stem - (min end self.now.stem - at)) }
    {
        let mut letters = Vec::from_slice(alloc, &self.letters[..at])?;
        letters.extend_from_slice(&self.letters[end..])?;
        let dropped = end.min(self.stem).saturating_sub(at);
        Ok(Draft {
            letters,
            stem: self.stem.saturating_sub(dropped),
        })
    }

    /// Whether this proposition is true in one of the letters.
    pub(crate) fn has_name(&self, p: usize) -> bool
        ensures { result ≡ list_any (has nat_cmp p) self.now.letters.items }
    {
        self.letters.as_slice().iter().any(|letter| letter.holds(p))
    }

    /// The word with this proposition false in each letter.
    pub(crate) fn without_name(&self, alloc: &'a A, p: usize) -> Result<Draft<'a, A>, AllocError>
        requires { p < LIMIT }
        ensures letters { IfOk result (λ d. d.letters.items ≡ map (bare p) self.now.letters.items) }
        ensures stem { IfOk result (λ d. d.stem ≡ self.now.stem) }
    {
        let mut letters = Vec::with_capacity(alloc, self.letters.len())?;
        push_bare(&mut letters, self.letters.as_slice(), p)?;
        Ok(Draft {
            letters,
            stem: self.stem,
        })
    }

    /// The word with this letter in place of the one at `at`.
    pub(crate) fn with(
        &self,
        alloc: &'a A,
        at: usize,
        letter: PropositionSet,
    ) -> Result<Draft<'a, A>, AllocError>
        requires { at < length self.now.letters.items }
        ensures letters { IfOk result (λ d. d.letters.items ≡ take at self.now.letters.items ++ letter ∷ drop (at + 1) self.now.letters.items) }
        ensures stem { IfOk result (λ d. d.stem ≡ self.now.stem) }
    {
        let mut letters = Vec::from_slice(alloc, &self.letters[..at])?;
        letters.push(letter)?;
        letters.extend_from_slice(&self.letters[at + 1..])?;
        Ok(Draft {
            letters,
            stem: self.stem,
        })
    }
}
