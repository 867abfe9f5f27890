//! The names of a word's letters.

ghost use Rattle.std.specs.Prelude.{◌≡◌, ◌<◌, ◌++◌, length, map, IfOk, OnOk};
ghost use Rattle.std.specs.List.{AllByRecursion};
ghost use Rattle.ltl_spec.specs.Words.LassoText.{names_in};
ghost use Rattle.ltl_word.specs.LassoView.{letter_of};

use crate::lasso::Lasso;
use crate::name::OwnedName;
use ltl_sets::PropositionSet;
use std::alloc::{AllocError, Allocator};

/// Appends the names of a letter.
fn push_names<'w, A: Allocator, B: Allocator>(
    names: &'w [OwnedName<'_, A>],
    letter: &PropositionSet,
    list: &mut Vec<&'w [u8], &B>,
) -> Result<(), AllocError>
    requires { AllByRecursion (λ i. i < length names.now) letter.now }
    ensures { OnOk result (map (λ n. n.now) list.new.items ≡ map (λ n. n.now) list.old.items ++ letter_of (map (λ n. n.items) names.entry.now) letter.now) }
{
    for place in letter.iter() {
        list.push(names[place].as_slice())?;
    }
    Ok(())
}

impl<'a, A: Allocator> Lasso<'a, A> {
    /// The names of all letters, in their order and with repetitions.
    #[tactic(auto, using(crate::proofs::StandingNames::names_begin))]
    pub fn names<'w, 'b, B: Allocator>(
        &'w self,
        alloc: &'b B,
    ) -> Result<Vec<&'w [u8], &'b B>, AllocError>
        ensures { IfOk result (λ names. map (λ n. n.now) names.items ≡ names_in self.entry.now) }
    {
        let names = self.names.as_slice();
        let mut list = Vec::new(alloc);
        for i in 0..self.letters.len() {
            push_names(names, &self.letters[i], &mut list)?;
        }
        Ok(list)
    }
}
