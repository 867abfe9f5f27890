//! Laws of automata and of their printed texts, for callers' proofs. The functions do nothing; their contracts are the laws.

ghost use Rattle.std.specs.Prelude.{◌≡◌, ◌≤◌, Bool, IsTrue, length, map, string_bytes};
ghost use Rattle.std.specs.List.{list_all};
ghost use Rattle.ltl_spec.specs.Automata.Automaton.{Automaton};
ghost use Rattle.ltl_spec.specs.Automata.GeneralizedText.{generalized_text};
ghost use Rattle.ltl_spec.specs.Automata.HoaText.{hoa_text};
ghost use Rattle.ltl_spec.specs.Checking.Bounds.{HasNamesBelow};
ghost use Rattle.ltl_spec.specs.Claims.ClaimTokens.{HasNoPromelaWord};
ghost use Rattle.ltl_spec.specs.Collections.Lists.{HasNoRepeats};
ghost use Rattle.ltl_spec.specs.Formulas.Names.{is_proposition};
ghost use Rattle.ltl_spec.specs.Hoa.HoaPrinted as generalized;
ghost use Rattle.ltl_spec.specs.NormalForms.Normal.{Normal};
ghost use Rattle.ltl_spec.specs.NormalForms.NormalForm.{core};
ghost use Rattle.ltl_spec.specs.Semantics.Language.{AcceptsModels};
ghost use Rattle.ltl_spec.specs.Tools.Limits.{stated_limits};
ghost use Rattle.ltl_syntax.specs.FormulaView.{reading_of};
ghost use Rattle.ltl_hoa.specs.Printed.{marked_of};
ghost use Rattle.ltl_models.specs.Named.{HasNamesOf};
ghost use Rattle.ltl_text.specs.NamedClaim.{named_claim};
ghost use Rattle.ltl_text.specs.NamedText.{named_text};
ghost use Rattle.ltl_text.specs.ReadBack.{IsClaimOf, ReadsAlike, ReadsAtAnyLength, ReadsBack, ReadsModels};

pub use ltl_hoa::laws::{
    printed_automata_are_read_back, printed_generalized_automata_are_read_back,
    texts_are_read_one_way,
};
use ltl_hoa::marked::MOST_SETS;
use ltl_models::{Ba, Gen};
use ltl_syntax::Formula;
use std::alloc::Allocator;

/// The text that `hoa_to` writes is read as the same automaton, if it isn't too long. The states, the initial state, the names, the labels and the
/// targets are the same, and an edge is in set 0 if and only if it leaves an accepting state. So both accept the same words. If these are the words
/// that satisfy the formula, the automaton that is read accepts exactly them.
pub fn hoa_text_is_read_back<A: Allocator, B: Allocator>(
    automaton: &Ba<'_, A>,
    formula: &Formula<'_, B>,
)
    requires { HasNamesBelow (length formula.now.names) automaton.now }
    ensures back { ReadsBack (hoa_text automaton.now (reading_of formula.now)) (marked_of automaton.now formula.now.names) }
    ensures alike { ReadsAlike (hoa_text automaton.now (reading_of formula.now)) formula.now.names automaton.now }
    ensures models { AcceptsModels automaton.now (reading_of formula.now).formula
        → ReadsModels (hoa_text automaton.now (reading_of formula.now)) (reading_of formula.now) }
{
    automaton.invariant();
    formula.invariant();
}

/// The same for the text that `gen_to` writes, if the automaton has at most `MOST_SETS` acceptance sets: each edge is in the sets that it has as
/// marks.
pub fn generalized_text_is_read_back<A: Allocator, B: Allocator>(
    automaton: &Gen<'_, A>,
    formula: &Formula<'_, B>,
)
    requires named { HasNamesBelow (length formula.now.names) automaton.now }
    requires few { automaton.now.sets ≤ MOST_SETS }
    ensures back { ReadsBack (generalized_text automaton.now (reading_of formula.now)) (generalized.marked_of automaton.now formula.now.names) }
    ensures alike { ReadsAlike (generalized_text automaton.now (reading_of formula.now)) formula.now.names automaton.now }
    ensures models { AcceptsModels automaton.now (reading_of formula.now).formula
        → ReadsModels (generalized_text automaton.now (reading_of formula.now)) (reading_of formula.now) }
{
    automaton.invariant();
    formula.invariant();
}

/// The text that `put_named` writes is read as the same automaton with these names, if it isn't too long, and if the names are different propositions and not too
/// many. As long as it may be, no other limit is passed.
pub fn named_text_is_read_back<A: Allocator, B: Allocator>(
    automaton: &Gen<'_, A>,
    names: &[String<&B>],
)
    requires named { HasNamesBelow (length (map string_bytes names.now)) automaton.now }
    requires few { automaton.now.sets ≤ MOST_SETS }
    requires few_names { length (map string_bytes names.now) ≤ stated_limits.propositions }
    requires propositions { IsTrue (list_all is_proposition (map string_bytes names.now)) }
    requires differ { HasNoRepeats (map string_bytes names.now) }
    ensures { ReadsAtAnyLength (named_text automaton.now (map string_bytes names.now)) (generalized.marked_of automaton.now (map string_bytes names.now)) }
{
    automaton.invariant();
    let _ = names;
}

/// The text that `put_named_claim` writes is read as a claim that accepts the words of the automaton, if the names are propositions and none of them is a word of
/// Promela.
pub fn named_claim_is_read_back<A: Allocator, B: Allocator>(
    automaton: &Ba<'_, A>,
    names: &[String<&B>],
)
    requires named { HasNamesBelow (length (map string_bytes names.now)) automaton.now }
    requires propositions { IsTrue (list_all is_proposition (map string_bytes names.now)) }
    ensures { HasNoPromelaWord (map string_bytes names.now)
        → IsClaimOf (map string_bytes names.now) automaton.now (named_claim automaton.now (map string_bytes names.now)) }
{
    automaton.invariant();
    let _ = names;
}

/// In the automaton of a formula or of its negation, every proposition has a name in the formula. The printers and the laws above require this.
pub fn propositions_have_names<A: Allocator>(formula: &Formula<'_, A>)
    ensures { (N : Normal) (negate rewrite : Bool) (B : Automaton) → N ≡ core (reading_of formula.now).formula negate rewrite → HasNamesOf N B
        → HasNamesBelow (length formula.now.names) B }
{
    formula.invariant();
}
