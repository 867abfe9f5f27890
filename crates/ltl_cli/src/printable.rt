//! The automaton of a formula, with the layout in which it is printed.

ghost use Rattle.std.specs.Prelude.{◌≡◌, List, ℕ, length, IfOk, OnOk, OnErr};
ghost use Rattle.ltl_spec.specs.Checking.Bounds.{HasNamesBelow};
ghost use Rattle.ltl_spec.specs.Formulas.Grammar.{IsTextOf};
ghost use Rattle.ltl_spec.specs.Semantics.Language.{AcceptsModels};
ghost use Rattle.ltl_spec.specs.Tools.Run.{laid_out};
ghost use Rattle.ltl_streams.specs.Streams.{Breaks, Takes};
ghost use Rattle.ltl_syntax.specs.FormulaView.{reading_of};
ghost use Rattle.ltl_words.specs.Plans.{layout_in};
ghost use Rattle.ltl_cli.specs.Refusals.{TakesStep};
ghost use Rattle.ltl_cli.specs.Translations.{MakesShown, automaton_in, shown_in, text_of};

use crate::automaton::{automaton_of, generalized_of};
use crate::refusal::Refusal;
use crate::shown::Shown;
use ltl_buchi::Options;
use ltl_streams::{ByteSink, WriteFault};
use ltl_syntax::Formula;
use ltl_text::{put_claim, put_generalized, put_hoa};
use ltl_words::Layout;
use std::alloc::Allocator;

/// An automaton and the layout of its text.
#[derive(Drop)]
pub struct Printable<'a, A: Allocator> {
    /// The automaton.
    pub automaton: Shown<'a, A>,
    /// The layout.
    pub layout: Layout,
}

/// The automaton that this layout prints.
fn shown_of<'a, A: Allocator>(
    alloc: &'a A,
    formula: &Formula<'_, A>,
    layout: Layout,
    rewrite: bool,
    options: &Options,
) -> Result<Shown<'a, A>, Refusal>
    ensures step { TakesStep (MakesShown (layout_in layout) (reading_of formula.now) rewrite options.now) shown_in result }
    ensures text { IfOk result (λ t. text_of (record { automaton = t; layout = layout }) formula.now
        ≡ laid_out (layout_in layout) (shown_in t) (reading_of formula.now)) }
    ensures named { IfOk result (λ t. (text : List ℕ) → IsTextOf text (reading_of formula.now) → HasNamesBelow (length formula.now.names) (shown_in t)) }
{
    match layout {
        Layout::Claim | Layout::Hoa => {
            let automaton = automaton_of(alloc, formula, false, rewrite, options)?;
            Ok(Shown::Buchi(automaton))
        }
        Layout::Generalized => {
            let automaton = generalized_of(alloc, formula, rewrite, options)?;
            Ok(Shown::Generalized(automaton))
        }
    }
}

/// Translates a formula for a layout. The automaton accepts exactly the ultimately periodic words that satisfy the formula. With `rewrite` the normal form is
/// rewritten first.
pub fn printable_of<'a, A: Allocator>(
    alloc: &'a A,
    formula: &Formula<'_, A>,
    layout: Layout,
    rewrite: bool,
    options: &Options,
) -> Result<Printable<'a, A>, Refusal>
    ensures step { TakesStep (MakesShown (layout_in layout) (reading_of formula.now) rewrite options.now) automaton_in result }
    ensures text { IfOk result (λ t. text_of t formula.now ≡ laid_out (layout_in layout) (automaton_in t) (reading_of formula.now)) }
    ensures models { IfOk result (λ t. AcceptsModels (automaton_in t) (reading_of formula.now).formula) }
    ensures named { IfOk result (λ t. (text : List ℕ) → IsTextOf text (reading_of formula.now) → HasNamesBelow (length formula.now.names) (automaton_in t)) }
{
    let automaton = shown_of(alloc, formula, layout, rewrite, options)?;
    Ok(Printable { automaton, layout })
}

impl<A: Allocator> Printable<'_, A> {
    /// Writes the text of the automaton.
    pub fn put<S: ByteSink>(
        &self,
        formula: &Formula<'_, A>,
        output: &mut S,
    ) -> Result<(), WriteFault>
        requires { HasNamesBelow (length formula.now.names) (automaton_in self.now) }
        ensures ok { OnOk result (Takes (S.state output.old) (S.state output.new) (text_of self.now formula.now)) }
        ensures err { OnErr result (Breaks (S.state output.old) (S.state output.new) (text_of self.now formula.now)) }
    {
        match &self.automaton {
            Shown::Buchi(automaton) => match self.layout {
                Layout::Claim => put_claim(automaton, formula, output),
                _ => put_hoa(automaton, formula, output),
            },
            Shown::Generalized(automaton) => put_generalized(automaton, formula, output),
        }
    }
}
