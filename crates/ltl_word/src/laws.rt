//! Laws of words and their texts, for callers' proofs. The functions do nothing; their contracts are the laws.

ghost use Rattle.std.specs.Prelude.{◌≡◌, ◌↔◌, ℕ, ◌≤◌, List, length};
ghost use Rattle.ltl_spec.specs.Formulas.Formula as spec;
ghost use Rattle.ltl_spec.specs.Semantics.Satisfaction.{Satisfies};
ghost use Rattle.ltl_spec.specs.Semantics.Word as words;
ghost use Rattle.ltl_spec.specs.Words.LassoText.{HasTooManyNames, IsLeastForm, lasso_text};
ghost use Rattle.ltl_word.specs.ReadText.{IsReadAs, IsRefusedFor};

use crate::fault::WordFault;
use crate::lasso::Lasso;
use crate::limits::{NAME_LIMIT, TEXT_LIMIT};
use std::alloc::Allocator;

/// The text of a word is read as this word, if it isn't too long, and if the word and the formula don't have too many propositions.
pub fn text_is_read_back<A: Allocator>(word: &Lasso<'_, A>)
    ensures { (names : List words.Name) → length (lasso_text word.now) ≤ TEXT_LIMIT → ¬ (HasTooManyNames NAME_LIMIT names word.now)
        → IsReadAs names (lasso_text word.now) word.now }
{
    let _ = &word.letters;
}

/// A text is read as at most one word. A text that is read can only be refused for lack of memory.
pub fn texts_are_read_one_way()
    ensures once { (names : List words.Name) (text : List ℕ) (v w : words.Lasso) → IsReadAs names text v → IsReadAs names text w → v ≡ w }
    ensures alone { (names : List words.Name) (text : List ℕ) (w : words.Lasso) (fault : WordFault) → IsReadAs names text w → IsRefusedFor names text fault
        → fault ≡ WordFault.OutOfMemory }
{}

/// A word has exactly one least form, on which the same formulas hold.
pub fn least_forms_keep_truth()
    ensures one { (u v w : words.Lasso) → IsLeastForm u v → IsLeastForm u w → v ≡ w }
    ensures truth { (u v : words.Lasso) → IsLeastForm u v → (names : List words.Name) (F : spec.Formula) → Satisfies names u 0 F ↔ Satisfies names v 0 F }
{}
