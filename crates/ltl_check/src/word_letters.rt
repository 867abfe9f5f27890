//! The letters of a word, as sets of the numbers of an automaton's propositions.

ghost use Rattle.std.specs.Prelude.{◌≡◌, ℕ, ◌<◌, ◌≤◌, ◌+◌, ◌/◌, [], length, IfOk};
ghost use Rattle.ltl_sets.specs.declared.row_set.TheConstants.RowSet.{LIMIT};
ghost use Rattle.ltl_check.specs.WordLetters.{AreLetters, IsPut, letter_in};

use crate::operand::Operand;
use ltl_sets::PropositionSet;
use ltl_word::{Bits, Lasso};
use std::alloc::{AllocError, Allocator};

/// A list of `count` letters in which no proposition is true.
fn empty_letters<'a, A: Allocator>(
    alloc: &'a A,
    count: usize,
) -> Result<Vec<PropositionSet, &'a A>, AllocError>
    ensures long { IfOk result (λ v. length v.items ≡ count) }
    ensures none { IfOk result (λ v. (i : ℕ) → letter_in v.items i ≡ []) }
{
    let letters = vec![in alloc; PropositionSet::empty(); count]?;
    Ok(letters)
}

/// Adds a proposition to the letters of the positions where it is true.
fn put_row<A: Allocator, B: Allocator>(
    letters: &mut Vec<PropositionSet, &A>,
    row: &Bits<'_, B>,
    p: usize,
)
    requires few { p < LIMIT }
    requires long { length row.now ≡ length letters.old.items / 64 + 1 }
    ensures { IsPut row.now p letters.old.items letters.new.items }
{
    for i in 0..letters.len() {
        if row.get(i) {
            letters[i].insert(p);
        }
    }
}

/// For each position of the word the numbers of the automaton's propositions that are true there. A name that the word doesn't have is false.
///
/// # Errors
///
/// Memory is refused. There is no other error.
pub fn letters<'a, F: Operand, A: Allocator, B: Allocator>(
    alloc: &'a A,
    automaton: &F,
    word: &Lasso<'_, B>,
) -> Result<Vec<PropositionSet, &'a A>, AllocError>
    ensures { IfOk result (λ v. AreLetters (F.automaton_of automaton.now).names word.now v.items) }
{
    automaton.invariant();
    let mut letters = empty_letters(alloc, word.len())?;
    for p in 0..automaton.name_count() {
        let row = word.row_of_name(alloc, automaton.name(p).as_bytes())?;
        put_row(&mut letters, &row, p);
    }
    Ok(letters)
}
