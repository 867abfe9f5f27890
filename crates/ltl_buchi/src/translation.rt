//! The translation of a formula: its generalized automaton is merged, degeneralized, merged again and renumbered. The generalized translation leaves out
//! degeneralization and the second quotient.

ghost use Rattle.std.specs.Prelude.{◌≡◌, Bool, true, false, IfOk, IsErrOf};
ghost use Rattle.ltl_spec.specs.Formulas.Formula.{Formula};
ghost use Rattle.ltl_spec.specs.NormalForms.NormalForm.{core};
ghost use Rattle.ltl_spec.specs.Automata.Generalized.{IsTooLarge};
ghost use Rattle.ltl_spec.specs.Automata.GeneralizedText.{IsGeneralizedTranslation};
ghost use Rattle.ltl_spec.specs.Construction.Translation.{IsTranslation, IsTranslationTooLarge};
ghost use Rattle.ltl_spec.specs.Semantics.Language.{HasLanguageOf, AcceptsModels, AcceptsViolations};
ghost use Rattle.ltl_spec.specs.Tools.Limits.{stated_limits};
ghost use Rattle.ltl_formula.specs.TableView.{core_of};
ghost use Rattle.ltl_models.specs.Named.{HasNamesOf};

use ltl_alt::Reach;
use ltl_formula::Table;
use ltl_models::{Ba, BaFault, Gba, Gen, Options};
use ltl_passes::{buchi, passes};
use std::alloc::Allocator;

/// The Büchi automaton of a table's formula. It accepts exactly the words that satisfy the formula, whatever the options. Each intermediate automaton is
/// dropped as soon as the next one is made.
pub fn translate<'a, A: Allocator>(
    alloc: &'a A,
    table: &Table<'_, A>,
    options: &Options,
) -> Result<Ba<'a, A>, BaFault>
    ensures definition { IfOk result (IsTranslation (core_of table.now) options.now) }

    // It accepts exactly the ultimately periodic words on which the table's normal form holds. If the table is made of a formula, these are the words that
    // satisfy it; if it is made of the formula's negation, those that violate it. Rewriting doesn't change that.
    ensures language { IfOk result (λ b. HasLanguageOf b (core_of table.now)) }
    ensures models { IfOk result (λ b. (F : Formula) (rewrite : Bool) → core_of table.now ≡ core F false rewrite → AcceptsModels b F) }
    ensures violations { IfOk result (λ b. (F : Formula) (rewrite : Bool) → core_of table.now ≡ core F true rewrite → AcceptsViolations b F) }

    // Its literals use only propositions of the formula.
    ensures named { IfOk result (HasNamesOf (core_of table.now)) }

    // The result is `TooLarge` only if a limit is exceeded, and is never `Ok` then. Memory may run out at any time.
    ensures fits { IfOk result (λ _. ¬ (IsTranslationTooLarge (core_of table.now) options.now stated_limits.states stated_limits.edges)) }
    ensures large { IsErrOf result BaFault.TooLarge → IsTranslationTooLarge (core_of table.now) options.now stated_limits.states stated_limits.edges }
{
    let reached = Gba::reach(alloc, table, options.keep_implied)?;
    buchi(alloc, reached, options)
}

/// The generalized Büchi automaton of a table's formula, merged and renumbered. It accepts exactly the words that satisfy the formula, whatever the options.
/// Each intermediate automaton is dropped as soon as the next one is made.
pub fn generalized<'a, A: Allocator>(
    alloc: &'a A,
    table: &Table<'_, A>,
    options: &Options,
) -> Result<Gen<'a, A>, BaFault>
    ensures definition { IfOk result (IsGeneralizedTranslation (core_of table.now) options.now) }

    // It accepts exactly the ultimately periodic words on which the table's normal form holds. If the table is made of a formula, these are the words that
    // satisfy it; if it is made of the formula's negation, those that violate it. Rewriting doesn't change that.
    ensures language { IfOk result (λ g. HasLanguageOf g (core_of table.now)) }
    ensures models { IfOk result (λ g. (F : Formula) (rewrite : Bool) → core_of table.now ≡ core F false rewrite → AcceptsModels g F) }
    ensures violations { IfOk result (λ g. (F : Formula) (rewrite : Bool) → core_of table.now ≡ core F true rewrite → AcceptsViolations g F) }

    // Its literals use only propositions of the formula.
    ensures named { IfOk result (HasNamesOf (core_of table.now)) }

    // The result is `TooLarge` only if a limit is exceeded before merging, and is never `Ok` then. Degeneralization plays no part. Memory may run out at any
    // time.
    ensures fits { IfOk result (λ _. ¬ (IsTooLarge (core_of table.now) options.now.keep_implied stated_limits.states stated_limits.edges)) }
    ensures large { IsErrOf result BaFault.TooLarge → IsTooLarge (core_of table.now) options.now.keep_implied stated_limits.states stated_limits.edges }
{
    let made = Gba::reach(alloc, table, options.keep_implied)?;
    passes::generalized(alloc, made, options)
}
