//! The formula of a call and its automaton, with the layout of its text.

ghost use Rattle.std.specs.Prelude.{◌≡◌, length, IfOk, Some};
ghost use Rattle.ltl_spec.specs.Checking.Bounds.{HasNamesBelow};
ghost use Rattle.ltl_spec.specs.Tools.Programs.{Layout};
ghost use Rattle.ltl_spec.specs.Tools.Run.{laid_out};
ghost use Rattle.ltl_syntax.specs.FormulaView.{reading_of};
ghost use Rattle.ltl_cli.specs.Refusals.{TakesStep};
ghost use Rattle.ltl_cli.specs.Translations.{automaton_in, text_of};
ghost use Rattle.ltl_c.specs.Arrays.{MakesAsked, found};
ghost use Rattle.ltl_c.specs.Calls.{layout_numbered};

use crate::text_options::{TextOptions, layout_at};
use ltl_buchi::Options;
use ltl_cli::{Printable, Refusal, formula_of, printable_of};
use ltl_syntax::Formula;
use std::alloc::Allocator;

/// A formula and its automaton.
#[derive(Drop)]
pub(crate) struct Made<'a, A: Allocator> {
    pub(crate) formula: Formula<'a, A>,
    pub(crate) printable: Printable<'a, A>,
}

/// Reads the formula and makes the automaton that the options name.
#[tactic(auto, using(crate::proofs::FoundLaws::nothing_asked, crate::proofs::FoundLaws::formula_not_found, crate::proofs::FoundLaws::automaton_not_found))]
pub(crate) fn made_of<'a, A: Allocator>(
    alloc: &'a A,
    text: &[u8],
    options: &TextOptions,
) -> Result<Made<'a, A>, Refusal>
    ensures made { TakesStep (MakesAsked text.now options.now) (λ m. found (reading_of m.formula) (automaton_in m.printable)) result }
    ensures text { IfOk result (λ m. (layout : Layout) → layout_numbered options.now.layout ≡ Some layout
        → text_of m.printable m.formula ≡ laid_out layout (automaton_in m.printable) (reading_of m.formula)) }
    ensures named { IfOk result (λ m. HasNamesBelow (length m.formula.names) (automaton_in m.printable)) }
{
    let Some(layout) = layout_at(options.layout) else {
        return Err(Refusal::Usage);
    };
    let formula = formula_of(alloc, text)?;
    let kept = Options {
        keep_implied: options.keep_implied,
        keep_equal: options.keep_equal,
    };
    let printable = printable_of(alloc, &formula, layout, !options.no_rewrite, &kept)?;
    Ok(Made { formula, printable })
}
