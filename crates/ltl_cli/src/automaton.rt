//! Translation of a formula into its automata, with refusals as errors.

ghost use Rattle.std.specs.Prelude.{◌≡◌, List, ℕ, length, IfOk};
ghost use Rattle.ltl_spec.specs.Formulas.Grammar.{IsTextOf};
ghost use Rattle.ltl_spec.specs.Checking.Bounds.{HasNamesBelow};
ghost use Rattle.ltl_syntax.specs.FormulaView.{reading_of};
ghost use Rattle.ltl_cli.specs.Refusals.{TakesStep};
ghost use Rattle.ltl_cli.specs.Translations.{MakesAutomaton, MakesGeneralized};

use crate::refusal::Refusal;
use ltl_buchi::{Ba, Gen, Options, generalized, translate};
use ltl_formula::Table;
use ltl_syntax::Formula;
use std::alloc::Allocator;

/// The Büchi automaton of a formula, or of its negation with `negate`. With `rewrite` the normal form is rewritten first.
pub fn automaton_of<'a, A: Allocator>(
    alloc: &'a A,
    formula: &Formula<'_, A>,
    negate: bool,
    rewrite: bool,
    options: &Options,
) -> Result<Ba<'a, A>, Refusal>
    ensures step { TakesStep (MakesAutomaton (reading_of formula.now) negate rewrite options.now) (λ B. B) result }

    // Each proposition of its labels has a name in the formula, if that was read from a text.
    ensures named { IfOk result (λ B. (text : List ℕ) → IsTextOf text (reading_of formula.now) → HasNamesBelow (length formula.now.names) B) }
{
    let table = Table::build(alloc, formula, negate, rewrite)?;
    let automaton = translate(alloc, &table, options)?;
    Ok(automaton)
}

/// The generalized automaton of a formula. With `rewrite` the normal form is rewritten first.
pub fn generalized_of<'a, A: Allocator>(
    alloc: &'a A,
    formula: &Formula<'_, A>,
    rewrite: bool,
    options: &Options,
) -> Result<Gen<'a, A>, Refusal>
    ensures step { TakesStep (MakesGeneralized (reading_of formula.now) rewrite options.now) (λ G. G) result }

    // Each proposition of its labels has a name in the formula, if that was read from a text.
    ensures named { IfOk result (λ G. (text : List ℕ) → IsTextOf text (reading_of formula.now) → HasNamesBelow (length formula.now.names) G) }
{
    let table = Table::build(alloc, formula, false, rewrite)?;
    let automaton = generalized(alloc, &table, options)?;
    Ok(automaton)
}
