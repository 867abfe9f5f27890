//! Laws of texts and automata, for callers' proofs. The functions do nothing; their contracts are the laws.

ghost use Rattle.std.specs.Prelude.{◌≡◌, ◌↔◌, ◌≤◌, ℕ, List, length, None, Ok, Err, Result};
ghost use Rattle.ltl_spec.specs.Automata.Automaton.{Automaton};
ghost use Rattle.ltl_spec.specs.Automata.GeneralizedText.{generalized_text};
ghost use Rattle.ltl_spec.specs.Automata.HoaText.{hoa_text};
ghost use Rattle.ltl_spec.specs.Formulas.Formula.{Reading};
ghost use Rattle.ltl_spec.specs.Hoa.HoaFault.{hoa_fault};
ghost use Rattle.ltl_spec.specs.Hoa.HoaReading.{MarkedAutomaton, stated_form, HoaReadsWithin};
ghost use Rattle.ltl_spec.specs.Tools.Limits.{stated_limits};
ghost use Rattle.ltl_spec.specs.Hoa.HoaPrinted as generalized;
ghost use Rattle.ltl_hoa.specs.Printed.{IsAnswered, IsPrinted, IsReadBack, marked_of};
ghost use Rattle.ltl_hoa.specs.Reading.{Answers, IsOfText};

use crate::fault::HoaFault;
use crate::marked::MOST_SETS;

/// The printed text of a Büchi automaton is read as the same automaton, if it isn't too long: an edge is in set 0 if and only if it leaves an
/// accepting state. So the answer is this automaton, unless a read failed or memory was refused.
pub fn printed_automata_are_read_back()
    ensures reads { (B : Automaton) (F : Reading) → IsPrinted B F → length (hoa_text B F) ≤ stated_limits.hoa_bytes
        → HoaReadsWithin stated_limits stated_form (hoa_text B F) (marked_of B F.names) }
    ensures answered { (B : Automaton) (F : Reading) (answer : Result MarkedAutomaton HoaFault) → IsPrinted B F
        → length (hoa_text B F) ≤ stated_limits.hoa_bytes
        → Answers (hoa_text B F) answer → IsReadBack B F answer }
{}

/// The same for a generalized automaton with at most `MOST_SETS` acceptance sets: each edge is in the sets that it has as marks.
pub fn printed_generalized_automata_are_read_back()
    ensures reads { (B : Automaton) (F : Reading) → generalized.IsPrinted stated_limits MOST_SETS B F
        → length (generalized_text B F) ≤ stated_limits.hoa_bytes
        → HoaReadsWithin stated_limits stated_form (generalized_text B F) (generalized.marked_of B F.names) }
    ensures answered { (B : Automaton) (F : Reading) (answer : Result MarkedAutomaton HoaFault) → generalized.IsPrinted stated_limits MOST_SETS B F
        → length (generalized_text B F) ≤ stated_limits.hoa_bytes
        → Answers (generalized_text B F) answer → IsAnswered (generalized.marked_of B F.names) answer }
{}

/// A text is read as an automaton if and only if it has no fault, and then as exactly one. So no text can be answered once by an automaton and once
/// by a fault.
pub fn texts_are_read_one_way()
    ensures exactly { (text : List ℕ) → (hoa_fault stated_limits stated_form text ≡ None)
        ↔ ((A : MarkedAutomaton) × HoaReadsWithin stated_limits stated_form text A) }
    ensures once { (text : List ℕ) (A B : MarkedAutomaton) → HoaReadsWithin stated_limits stated_form text A → HoaReadsWithin stated_limits stated_form text B
        → A ≡ B }
    ensures alone { (text : List ℕ) (A : MarkedAutomaton) (fault : HoaFault) → Answers text (Ok A) → Answers text (Err fault) → ¬ (IsOfText fault) }
{}
