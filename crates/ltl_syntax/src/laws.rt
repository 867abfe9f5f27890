//! Laws of texts and formulas, for callers' proofs. The functions do nothing; their contracts are the laws.

ghost use Rattle.std.specs.Prelude.{◌≡◌, ℕ, ◌≤◌, List, length};
ghost use Rattle.ltl_spec.specs.Formulas.Canonical.{canonical_text};
ghost use Rattle.ltl_syntax.specs.FormulaView.{FormulaView, reading_of};
ghost use Rattle.ltl_syntax.specs.ReadText.{IsReadAs, IsRefusedFor};

use crate::fault::ReadFault;
use crate::formula::Formula;
use crate::limits::TEXT_LIMIT;
use std::alloc::Allocator;

/// If a formula was read, its canonical text is read as the same formula, if it isn't too long.
pub fn canonical_text_is_read_back()
    ensures { (text : List ℕ) (f : FormulaView) → IsReadAs text f → length (canonical_text (reading_of f)) ≤ TEXT_LIMIT
        → IsReadAs (canonical_text (reading_of f)) f }
{}

/// The canonical text of a formula is read as this formula, if it isn't too long.
pub fn text_is_read_back<A: Allocator>(formula: &Formula<'_, A>)
    ensures { length (canonical_text (reading_of formula.now)) ≤ TEXT_LIMIT → IsReadAs (canonical_text (reading_of formula.now)) formula.now }
{
    formula.invariant();
}

/// A text is read as at most one formula. A text that is read can only be refused for lack of memory.
pub fn texts_are_read_one_way()
    ensures once { (text : List ℕ) (f g : FormulaView) → IsReadAs text f → IsReadAs text g → reading_of f ≡ reading_of g }
    ensures alone { (text : List ℕ) (f : FormulaView) (fault : ReadFault) → IsReadAs text f → IsRefusedFor text fault → fault ≡ ReadFault.OutOfMemory }
{}
