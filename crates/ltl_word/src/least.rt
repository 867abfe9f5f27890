//! The shortest representation of a word.

ghost use Rattle.std.specs.Prelude.{◌≡◌, ◌+◌, ◌<◌, ◌≤◌, length, map, IfOk};
ghost use Rattle.std.specs.Bool.{Decides};
ghost use Rattle.ltl_spec.specs.Words.LassoText.{IsLeastForm};
ghost use Rattle.ltl_word.specs.LeastView.{Repeats, IsShortest, IsKept};

use crate::lasso::Lasso;
use crate::name::OwnedName;
use ltl_sets::PropositionSet;
use smallvec::SmallVec;
use std::alloc::{AllocError, Allocator};

/// Whether the cycle is its first `d` letters, repeated.
fn repeats(cycle: &[PropositionSet], d: usize) -> bool
    requires { 0 < d }
    ensures { Decides result (Repeats cycle.now d) }
{
    if cycle.len() % d != 0 {
        return false;
    }
    for i in 0..cycle.len() {
        if cycle[i] != cycle[i % d] {
            return false;
        }
    }
    true
}

/// The smallest `d` for which the cycle is its first `d` letters, repeated.
fn shortest(cycle: &[PropositionSet]) -> usize
    requires { 0 < length cycle.now }
    ensures { IsShortest cycle.now result }
{
    let mut d = 1;
    'lengths: while d < cycle.len() && !repeats(cycle, d) {
        d += 1;
    }
    d
}

/// The length of the stem that is left when its last letters are moved into a cycle of `d` letters, as far as they equal those of the cycle.
fn kept(letters: &[PropositionSet], stem: usize, d: usize) -> usize
    requires { stem + d ≤ length letters.now }
    ensures { IsKept letters.now stem d result }
{
    let mut keep = stem;
    'letters: while keep > 0 && letters[keep - 1] == letters[keep - 1 + d] {
        keep -= 1;
    }
    keep
}

/// A copy of the names.
fn copied<'a, A: Allocator>(
    alloc: &'a A,
    names: &[OwnedName<'_, A>],
) -> Result<Vec<OwnedName<'a, A>, &'a A>, AllocError>
    ensures { IfOk result (λ copied. map (λ n. n.items) copied.items ≡ map (λ n. n.items) names.now) }
{
    let mut copied = Vec::new(alloc);
    for i in 0..names.len() {
        copied.push(SmallVec::from_slice(alloc, names[i].as_slice())?)?;
    }
    Ok(copied)
}

impl<'a, A: Allocator> Lasso<'a, A> {
    /// The same word in least form: with the shortest cycle, and then the shortest stem. Only divisors of the cycle's length are tried, each in one
    /// pass over the cycle.
    pub fn least(&self, alloc: &'a A) -> Result<Lasso<'a, A>, AllocError>
        ensures { IfOk result (λ w. IsLeastForm self.now w) }
    {
        let d = shortest(&self.letters[self.stem..]);
        let stem = kept(self.letters.as_slice(), self.stem, d);
        let letters = Vec::from_slice(alloc, &self.letters[..stem + d])?;
        let names = copied(alloc, self.names.as_slice())?;
        Ok(Lasso {
            names,
            letters,
            stem,
        })
    }
}
