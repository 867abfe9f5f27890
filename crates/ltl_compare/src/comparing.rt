//! The comparison of two formulas, by the product of the automaton of one formula and that of the other one's negation.

ghost use Rattle.std.specs.Prelude.{◌≡◌, length, IfOk};
ghost use Rattle.ltl_spec.specs.Checking.Bounds.{HasNamesBelow};
ghost use Rattle.ltl_spec.specs.Checking.Comparison.{IsComparison};
ghost use Rattle.ltl_spec.specs.Tools.Limits.{stated_limits};
ghost use Rattle.ltl_spec.specs.Tools.Comparison.{Compares, FindsEntailment, MakesAutomaton};
ghost use Rattle.ltl_syntax.specs.FormulaView.{reading_of};
ghost use Rattle.ltl_compare.specs.ComparisonView.{HasFewInBoth, HasFewSteps, TakesStep, comparison_of, found_word};

use crate::comparison::Comparison;
use crate::fault::CompareFault;
use ltl_buchi::{Ba, Options, translate};
use ltl_check::{NamedBa, Outcome, Verdict, common_word};
use ltl_formula::Table;
use ltl_syntax::Formula;
use ltl_word::Lasso;
use std::alloc::Allocator;

/// The Büchi automaton of a formula, or of its negation with `negate`. The normal form is rewritten, and nothing is left unsimplified.
fn automaton_of<'a, A: Allocator>(
    alloc: &'a A,
    formula: &Formula<'_, A>,
    negate: bool,
) -> Result<Ba<'a, A>, CompareFault>
    ensures step { TakesStep (MakesAutomaton stated_limits negate (reading_of formula.now)) (λ B. B) result }
    ensures named { IfOk result (HasNamesBelow (length formula.now.names)) }
{
    formula.invariant();
    let table = Table::build(alloc, formula, negate, true)?;
    let options = Options {
        keep_implied: false,
        keep_equal: false,
    };
    let automaton = translate(alloc, &table, &options)?;
    Ok(automaton)
}

/// Searches for a word that satisfies the first formula and violates the second one.
fn searched<'a, A: Allocator>(
    alloc: &'a A,
    first: &Formula<'a, A>,
    second: &Formula<'a, A>,
) -> Result<Verdict<'a, A>, CompareFault>
    ensures step { TakesStep (FindsEntailment stated_limits (reading_of first.now) (reading_of second.now)) (λ v. found_word v.outcome) result }
    ensures steps { IfOk result (λ v. HasFewSteps (reading_of first.now) (reading_of second.now) v.steps) }
{
    let models = automaton_of(alloc, first, false)?;
    models.invariant();
    let violations = automaton_of(alloc, second, true)?;
    let named = NamedBa::new(&models, first);
    let verdict = common_word(alloc, &named, &violations, second)?;
    Ok(verdict)
}

/// The word of an outcome.
fn word_in<'a, A: Allocator>(outcome: Outcome<'a, A>) -> Option<Lasso<'a, A>>
    ensures { result ≡ found_word outcome.entry }
{
    match outcome {
        Outcome::Contained => None,
        Outcome::Violated(word) => Some(word),
    }
}

/// Whether each of two formulas implies the other one, with a word in least form where it doesn't. Propositions of both with one name are the same.
///
/// The automaton of the first formula and that of the second one's negation are made, and their product is searched; then the same with the
/// formulas exchanged. So each formula is translated twice, once negated.
///
/// # Errors
///
/// A limit is passed, in this order: rows, elementary rows and automaton of the first formula; those of the second one's negation; the propositions of
/// both together; the states of the search; and the same again with the formulas exchanged. Or memory is refused.
pub fn compare<'a, A: Allocator>(
    alloc: &'a A,
    first: &Formula<'a, A>,
    second: &Formula<'a, A>,
) -> Result<Comparison<'a, A>, CompareFault>
    // There is a word exactly where the formula at hand doesn't imply the other one.
    ensures compares { IfOk result (λ c. IsComparison (reading_of first.now) (reading_of second.now) (comparison_of c)) }

    // An error of a limit comes if and only if the limit is passed, in the stated order. Memory may be refused at any time.
    ensures step { TakesStep (Compares stated_limits (reading_of first.now) (reading_of second.now)) comparison_of result }
    ensures steps { IfOk result (λ c. HasFewInBoth (reading_of first.now) (reading_of second.now) c.steps) }
{
    let forth = searched(alloc, first, second)?;
    let back = searched(alloc, second, first)?;
    let steps = forth.steps().saturating_add(back.steps());
    Ok(Comparison {
        first_only: word_in(forth.into_outcome()),
        second_only: word_in(back.into_outcome()),
        steps,
    })
}
