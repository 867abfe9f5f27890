//! Whether an automaton accepts a word, decided by a bounded search of their product.

ghost use Rattle.std.specs.Prelude.{◌≡◌, ◌≤◌, true, Ok};
ghost use Rattle.ltl_spec.specs.Checking.Check.{MarkedAccepts};

use crate::breadth::Task;
use crate::operand::Operand;
use crate::place::Bases;
use crate::plain::Plain;
use crate::product::Steps;
use crate::shortest::{Shorter, find_shorter};
use crate::word_letters::letters;
use crate::word_product::WordProduct;
use ltl_word::Lasso;
use std::alloc::{AllocError, Allocator};

/// The number of looks that may be made at products of automata and words while a word is shrunk.
pub const SHRINKING_LIMIT: usize = 65_536;

/// The largest number of letters of a word that is shrunk.
pub(crate) const SHRINKABLE: usize = 256;

/// The largest number of letters of the word along the walk that was found first, if it is shrunk, too.
pub(crate) const FIRST_SHRINKABLE: usize = 16;

/// The largest number of letters of a word from which names are taken out, each letter counted once for each name.
pub(crate) const NAMED_LETTERS: usize = 4_096;

/// The walks of a product that are searched have fewer edges.
const WALK_LIMIT: usize = 1_024;

/// Whether the automaton is found to accept the word. It may accept it also if the search ends for want of looks.
pub(crate) fn accepts<'a, F: Operand, A: Allocator>(
    alloc: &'a A,
    automaton: &F,
    word: &Lasso<'_, A>,
    looks: &mut Steps,
) -> Result<bool, AllocError>
    requires { looks.old.count ≤ SHRINKING_LIMIT }
    ensures accepted { result ≡ Ok true → MarkedAccepts (F.automaton_of automaton.now) word.now }
    ensures most { looks.new.count ≤ SHRINKING_LIMIT }
{
    automaton.invariant();
    if word.len() > SHRINKABLE {
        return Ok(false);
    }
    let letters = letters(alloc, automaton, word)?;
    let product = WordProduct::new(automaton, letters.as_slice(), word.stem_len());
    let plain = Plain::of(&product);
    let task = Task {
        sets: automaton.sets(),
        bases: Bases::Every,
    };
    let left = SHRINKING_LIMIT - looks.count as usize;
    match find_shorter(alloc, &plain, task, WALK_LIMIT, left, looks)? {
        Shorter::Found(_walk) => Ok(true),
        _ => Ok(false),
    }
}
