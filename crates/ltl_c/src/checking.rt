//! The C call `ltlcheck_verdict`: whether all words of an automaton satisfy a formula.

ghost use Rattle.std.specs.Prelude.{◌≡◌, ◌↔◌, ◌<◌, IsTrue, length, Some, MatchResult};
ghost use Rattle.ltl_spec.specs.Checking.Bounds.{HasNamesBelow};
ghost use Rattle.ltl_spec.specs.Semantics.Language.{AcceptsViolations};
ghost use Rattle.ltl_spec.specs.Tools.Outcome as spec;
ghost use Rattle.ltl_spec.specs.Tools.Refusal.{Checker};
ghost use Rattle.ltl_syntax.specs.FormulaView.{reading_of};
ghost use Rattle.ltl_check.specs.VerdictView.{verdict_of};
ghost use Rattle.ltl_cli.specs.Checks.{JudgesFormula};
ghost use Rattle.ltl_cli.specs.Refusals.{TakesStep};
ghost use Rattle.ltl_c.specs.Calls.{HandsOver, checker_asked, verdict_lines};
ghost use Rattle.ltl_c.specs.Verdicts.{FindsAsked, SaysVerdict, is_contained, said, verdict_status, word_text};

use crate::buffer::deliver;
use crate::refusal_code::{RefusalCode, code_of, no_refusal};
use ltl_buchi::{Ba, Options};
use ltl_check::{Outcome, Verdict, check};
use ltl_cli::{Refusal, automaton_of, formula_of, marked_of};
use ltl_hoa::Marked;
use ltl_syntax::Formula;
use std::alloc::{Allocator, Global};

/// The verdict: in C `struct ltlcheck_found`.
#[derive(Clone, Copy, Debug)]
#[repr(C)]
pub struct Found {
    /// The length in bytes of the violating word's text, or 0 if there is none.
    pub count: usize,
    /// Whether each word that the automaton accepts satisfies the formula. It is false for a refusal.
    pub contained: bool,
}

/// The verdict that the caller gets: whether the formula holds, and the text of a violating word, which is empty if it does.
#[derive(Drop)]
struct Saying<'a, A: Allocator> {
    contained: bool,
    text: Vec<u8, &'a A>,
}

/// Searches for a word that the automaton and that of the formula's violations both accept.
fn judged<'a, A: Allocator>(
    alloc: &'a A,
    automaton: &Marked<'a, A>,
    violations: &Ba<'a, A>,
    formula: &Formula<'a, A>,
) -> Result<Verdict<'a, A>, Refusal>
    requires named { HasNamesBelow (length formula.now.names) violations.now }
    requires language { AcceptsViolations violations.now (reading_of formula.now).formula }
    ensures { TakesStep (JudgesFormula automaton.now (reading_of formula.now) violations.now) (λ v. verdict_of v.outcome) result }
{
    let verdict = check(alloc, automaton, violations, formula)?;
    Ok(verdict)
}

/// The verdict for a formula's text and an automaton's text. The automaton is read after the formula's negation has been translated, as in `ltlcheck`.
fn verdict_on<'a, A: Allocator>(
    alloc: &'a A,
    formula: &[u8],
    automaton: &[u8],
) -> Result<Verdict<'a, A>, Refusal>
    ensures { TakesStep (FindsAsked formula.now automaton.now) (λ v. verdict_of v.outcome) result }
{
    let formula = formula_of(alloc, formula)?;
    let options = Options {
        keep_implied: false,
        keep_equal: false,
    };
    let violations = automaton_of(alloc, &formula, true, true, &options)?;
    let automaton = marked_of(alloc, automaton)?;
    judged(alloc, &automaton, &violations, &formula)
}

/// The text of the violating word, which is empty if there is none.
fn word_of<'a, A: Allocator>(
    alloc: &'a A,
    outcome: &Outcome<'_, A>,
) -> Result<Vec<u8, &'a A>, Refusal>
    ensures { MatchResult result (λ v. v.items ≡ word_text (verdict_of outcome.now)) (λ e. e ≡ Refusal.OutOfMemory) }
{
    let mut text = Vec::new(alloc);
    match outcome {
        Outcome::Contained => Ok(text),
        Outcome::Violated(word) => match word.text_to(&mut text) {
            Ok(()) => Ok(text),
            Err(_) => Err(Refusal::OutOfMemory),
        },
    }
}

/// Whether there is no violating word.
fn has_none<A: Allocator>(outcome: &Outcome<'_, A>) -> bool
    ensures { result ≡ is_contained (verdict_of outcome.now) }
{
    match outcome {
        Outcome::Contained => true,
        Outcome::Violated(_) => false,
    }
}

/// The exit status of `ltlcheck` for this verdict.
fn status_for(contained: bool) -> u8
    ensures { result ≡ verdict_status contained }
{
    if contained { 0 } else { 1 }
}

/// The verdict that the caller gets for these texts.
fn answer_to<'a, A: Allocator>(
    alloc: &'a A,
    formula: &[u8],
    automaton: &[u8],
) -> Result<Saying<'a, A>, Refusal>
    ensures { TakesStep (SaysVerdict formula.now automaton.now) (λ s. said s.contained s.text.items) result }
{
    let verdict = verdict_on(alloc, formula, automaton)?;
    let text = word_of(alloc, verdict.outcome())?;
    let contained = has_none(verdict.outcome());
    Ok(Saying { contained, text })
}

/// Tells whether each word that the automaton accepts satisfies the formula, and writes the text of a violating word into the buffer if there is one. The
/// result is the exit status of `ltlcheck`: 0 if each word satisfies the formula, 1 if one doesn't. It is 6 if the buffer is too short for that word's text.
/// For a refusal it is the refusal's status, and `refusal` has its code.
#[unsafe(no_mangle)]
pub extern "C" fn ltlcheck_verdict(
    alloc: Global,
    formula: &[u8],
    automaton: &[u8],
    buffer: &mut [u8],
    found: &mut Found,
    refusal: &mut RefusalCode,
) -> u8
    ensures shown { HandsOver Checker (Some (checker_asked formula.now)) (spec.Ended automaton.now) verdict_lines refusal.new
        buffer.old buffer.new found.new.count result }
    ensures contained { IsTrue found.new.contained ↔ result ≡ 0 }
{
    match answer_to(&alloc, formula, automaton) {
        Ok(saying) => {
            *refusal = no_refusal();
            found.contained = saying.contained;
            deliver(
                status_for(saying.contained),
                saying.text.as_slice(),
                buffer,
                &mut found.count,
            )
        }
        Err(reason) => {
            *refusal = code_of(reason);
            found.contained = false;
            deliver(reason.status().number(), b"", buffer, &mut found.count)
        }
    }
}
