//! The C call `ltleval_holds`: whether a formula holds on a word.

ghost use Rattle.std.specs.Prelude.{◌≡◌, ◌↔◌, IsTrue, Some};
ghost use Rattle.ltl_spec.specs.Tools.Limits.{stated_limits};
ghost use Rattle.ltl_spec.specs.Tools.Outcome as spec;
ghost use Rattle.ltl_spec.specs.Tools.Refusal.{Evaluator};
ghost use Rattle.ltl_spec.specs.Tools.Programs.{EvaluatorFinds};
ghost use Rattle.ltl_cli.specs.Refusals.{TakesStep};
ghost use Rattle.ltl_c.specs.Calls.{Ends, evaluator_asked, truth_line};

use crate::refusal_code::{RefusalCode, code_of, no_refusal};
use ltl_cli::{Refusal, formula_of};
use ltl_word::{Lasso, holds};
use std::alloc::{Allocator, Global};

/// Reads the formula and the word, and decides whether the formula holds at the word's first position.
fn evaluated<A: Allocator>(alloc: &A, formula: &[u8], word: &[u8]) -> Result<bool, Refusal>
    ensures { TakesStep (EvaluatorFinds stated_limits (evaluator_asked formula.now word.now) spec.NotOpened) (λ b. b) result }
{
    let formula = formula_of(alloc, formula)?;
    let word = Lasso::read(alloc, word, &formula)?;
    let truth = holds(alloc, &formula, &word)?;
    Ok(truth)
}

/// Tells whether a formula holds at the first position of a word. The result is the exit status of `ltleval`: 0 if it holds, 1 if it doesn't. For a refusal
/// it is the refusal's status, `truth` is false, and `refusal` has its code.
#[unsafe(no_mangle)]
pub extern "C" fn ltleval_holds(
    alloc: Global,
    formula: &[u8],
    word: &[u8],
    truth: &mut bool,
    refusal: &mut RefusalCode,
) -> u8
    ensures shown { Ends Evaluator (Some (evaluator_asked formula.now word.now)) spec.NotOpened truth_line refusal.new result }
    ensures truth { IsTrue truth.new ↔ result ≡ 0 }
{
    match evaluated(&alloc, formula, word) {
        Ok(found) => {
            *truth = found;
            *refusal = no_refusal();
            if found { 0 } else { 1 }
        }
        Err(reason) => {
            *truth = false;
            *refusal = code_of(reason);
            reason.status().number()
        }
    }
}
