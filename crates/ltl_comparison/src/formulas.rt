//! From the sources of two formulas to their comparison.

ghost use Rattle.std.specs.Prelude.{◌≡◌};
ghost use Rattle.ltl_spec.specs.Tools.Outcome as spec;
ghost use Rattle.ltl_syntax.specs.FormulaView.{reading_of};
ghost use Rattle.ltl_compare.specs.ComparisonView.{comparison_of};
ghost use Rattle.ltl_words.specs.Comparer.{pair_planned};
ghost use Rattle.ltl_words.specs.Plans.{formula_word};
ghost use Rattle.ltl_cli.specs.Inputs.{IsOpen, WasFormula};
ghost use Rattle.ltl_comparison.specs.Comparisons.{IsCompared, IsReadAs, IsRelated};

use crate::refusal::{Refused, Subject};
use ltl_cli::{Source, formula_from};
use ltl_compare::{Comparison, compare};
use ltl_streams::ByteSource;
use ltl_syntax::Formula;
use ltl_words::{ComparerPlan, FormulaWord};
use std::alloc::Allocator;

/// Reads one of the formulas, as `formula_from` does.
fn read<'a, A: Allocator, R: ByteSource>(
    alloc: &'a A,
    subject: Subject,
    word: FormulaWord<'_>,
    source: &mut Source<R>,
) -> Result<Formula<'a, A>, Refused>
    requires { IsOpen R.state source.old }
    ensures { (input : spec.Input) × WasFormula R.state source.old source.new input × IsReadAs subject (formula_word word.entry) input result }
{
    match formula_from(alloc, word, source) {
        Ok(formula) => Ok(formula),
        Err(refusal) => Err(Refused { subject, refusal }),
    }
}

/// Compares two formulas.
fn related<'a, A: Allocator>(
    alloc: &'a A,
    first: &Formula<'a, A>,
    second: &Formula<'a, A>,
) -> Result<Comparison<'a, A>, Refused>
    ensures { IsRelated (reading_of first.now) (reading_of second.now) (λ c. comparison_of c) result }
{
    match compare(alloc, first, second) {
        Ok(comparison) => Ok(comparison),
        Err(fault) => Err(Refused::of_compare(fault)),
    }
}

/// Reads both formulas of a plan and compares them. The second source is read only if the first formula was read.
pub(crate) fn compared<'a, A: Allocator, R: ByteSource, T: ByteSource>(
    alloc: &'a A,
    plan: &ComparerPlan<'_>,
    first: &mut Source<R>,
    second: &mut Source<T>,
) -> Result<Comparison<'a, A>, Refused>
    requires first { IsOpen R.state first.old }
    requires second { IsOpen T.state second.old }
    ensures { (input : spec.Input) × WasFormula R.state first.old first.new input
        × (other : spec.Input) × WasFormula T.state second.old second.new other
        × IsCompared (pair_planned plan.now) input other (λ c. comparison_of c) result }
{
    let one = read(alloc, Subject::First, plan.first(), first)?;
    let two = read(alloc, Subject::Second, plan.second(), second)?;
    let comparison = related(alloc, &one, &two);
    drop(two);
    drop(one);
    comparison
}
