//! The C call `ltl2ba_automaton`: a formula's automaton in the caller's arrays.

ghost use Rattle.std.specs.Prelude.{◌≡◌, ℕ, List, None, Some};
ghost use Rattle.std.specs.Bool.{Decides};
ghost use Rattle.ltl_syntax.specs.FormulaView.{reading_of};
ghost use Rattle.ltl_cli.specs.Refusals.{refusal_of};
ghost use Rattle.ltl_cli.specs.Translations.{automaton_in};
ghost use Rattle.ltl_c.specs.Arrays.{Fit, HandsAutomaton, arrays, counted, no_rows, rows_of};
ghost use Rattle.ltl_c.specs.Codes.{code_for};

use crate::arrays::{edge_count, put_states};
use crate::buffer::TOO_SHORT;
use crate::made::{Made, made_of};
use crate::places::put_names;
use crate::refusal_code::{code_of, no_refusal};
use crate::rows::{Counts, EdgeRow, NameRow, StateRow};
use crate::text_options::TextOptions;
use ltl_cli::Refusal;
use std::alloc::{Allocator, Global};

/// The number of rows of each kind.
fn counts_of<A: Allocator>(made: &Made<'_, A>) -> Counts
    ensures { (text : List ℕ) → let B = automaton_in made.now.printable in
        result ≡ counted (rows_of text (reading_of made.now.formula) B) B.sets (code_for None) }
{
    Counts {
        states: made.printable.automaton.len(),
        edges: edge_count(&made.printable.automaton),
        names: made.formula.name_count(),
        sets: made.printable.automaton.sets(),
        refusal: no_refusal(),
    }
}

/// Whether the arrays have room for so many rows.
fn fits(counts: &Counts, states: &[StateRow], edges: &[EdgeRow], names: &[NameRow]) -> bool
    ensures { Decides result (Fit counts.now (arrays states.now edges.now names.now)) }
{
    counts.states <= states.len() && counts.edges <= edges.len() && counts.names <= names.len()
}

/// The counts for a refusal: all 0, and its code.
fn refused(reason: Refusal) -> Counts
    ensures { result ≡ no_rows (code_for (Some (refusal_of reason))) }
{
    Counts {
        states: 0,
        edges: 0,
        names: 0,
        sets: 0,
        refusal: code_of(reason),
    }
}

/// Writes the automaton of a formula into the arrays, and for each of its propositions the place of its name in the formula's text. For these options,
/// `ltl2ba_text` prints the same automaton, with the same numbers of states and edges. The result is the exit status of `ltl2ba`, or 6 if an array is too
/// short. If it is 6, no array is changed. In both cases `counts` has the number of rows of each kind. For a refusal the numbers are 0, and `counts` has
/// its code.
#[unsafe(no_mangle)]
pub extern "C" fn ltl2ba_automaton(
    alloc: Global,
    formula: &[u8],
    options: &TextOptions,
    states: &mut [StateRow],
    edges: &mut [EdgeRow],
    names: &mut [NameRow],
    counts: &mut Counts,
) -> u8
    ensures { HandsAutomaton formula.now options.now counts.new (arrays states.old edges.old names.old) (arrays states.new edges.new names.new) result }
{
    match made_of(&alloc, formula, options) {
        Ok(made) => {
            *counts = counts_of(&made);
            if !fits(counts, states, edges, names) {
                return TOO_SHORT;
            }
            put_states(&made.printable.automaton, states, edges);
            put_names(formula, &made.formula, names);
            0
        }
        Err(reason) => {
            *counts = refused(reason);
            reason.status().number()
        }
    }
}
