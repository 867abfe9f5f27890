//! The C call `ltlcompare_verdict`: which of two formulas implies the other one, with words where it doesn't.

ghost use Rattle.std.specs.Prelude.{◌≡◌, MatchResult};
ghost use Rattle.std.specs.Bool.{Decides};
ghost use Rattle.ltl_spec.specs.Tools.Comparer.{relation_status};
ghost use Rattle.ltl_syntax.specs.FormulaView.{reading_of};
ghost use Rattle.ltl_compare.specs.ComparisonView.{comparison_of};
ghost use Rattle.ltl_cli.specs.Refusals.{refusal_of};
ghost use Rattle.ltl_c.specs.Codes.{subject_in};
ghost use Rattle.ltl_c.specs.Comparisons.{ComparesTexts, DeliversBoth, HandsComparison, HaveRoom, IsReadAs, IsRelated, IsToldOf};
ghost use Rattle.ltl_c.specs.Comparisons.{compared, not_compared, text_of, texts};

use crate::buffer::TOO_SHORT;
use crate::refusal_code::{RefusalCode, code_of, no_refusal};
use crate::subject::{Refused, Subject, refusal_for};
use ltl_cli::{Refusal, formula_of};
use ltl_compare::{Comparison, compare};
use ltl_syntax::Formula;
use ltl_word::Lasso;
use std::alloc::{Allocator, Global};

/// The comparison of two formulas: in C `struct ltlcompare_found`.
#[derive(Clone, Copy, Debug)]
#[repr(C)]
pub struct Compared {
    /// The length in bytes of the text of a word that satisfies the first formula and violates the second one, or 0 if there is none.
    pub first_only_length: usize,
    /// The length in bytes of the text of a word that satisfies the second formula and violates the first one, or 0 if there is none.
    pub second_only_length: usize,
    /// Whether each word that satisfies the first formula satisfies the second one. It is false for a refusal.
    pub first_implies_second: bool,
    /// Whether each word that satisfies the second formula satisfies the first one. It is false for a refusal.
    pub second_implies_first: bool,
    /// Which formula's text is refused: 1 for the first one, 2 for the second one, and 0 for anything else.
    pub subject: u32,
    /// Why the comparison was refused.
    pub refusal: RefusalCode,
}

/// Reads one of the formulas.
fn read<'a, A: Allocator>(
    alloc: &'a A,
    subject: Subject,
    text: &[u8],
) -> Result<Formula<'a, A>, Refused>
    ensures { IsReadAs subject text.now result }
{
    match formula_of(alloc, text) {
        Ok(formula) => Ok(formula),
        Err(refusal) => Err(Refused { subject, refusal }),
    }
}

/// Compares two formulas.
fn related<'a, A: Allocator>(
    alloc: &'a A,
    first: &Formula<'a, A>,
    second: &Formula<'a, A>,
) -> Result<Comparison<'a, A>, Refused>
    ensures { IsRelated (reading_of first.now) (reading_of second.now) (λ c. comparison_of c) result }
{
    match compare(alloc, first, second) {
        Ok(comparison) => Ok(comparison),
        Err(fault) => Err(Refused {
            subject: Subject::Other,
            refusal: refusal_for(fault),
        }),
    }
}

/// Reads two formulas, the first one first, and compares them.
fn compared_in<'a, A: Allocator>(
    alloc: &'a A,
    first: &[u8],
    second: &[u8],
) -> Result<Comparison<'a, A>, Refused>
    ensures { ComparesTexts first.now second.now (λ c d. comparison_of d ≡ c) result }
{
    let one = read(alloc, Subject::First, first)?;
    let two = read(alloc, Subject::Second, second)?;
    let comparison = related(alloc, &one, &two);
    drop(two);
    drop(one);
    comparison
}

/// The text of a word, which is empty if there is none.
fn word_in<'a, A: Allocator>(
    alloc: &'a A,
    word: &Option<Lasso<'_, A>>,
) -> Result<Vec<u8, &'a A>, Refused>
    ensures { MatchResult result (λ v. v.items ≡ text_of word.now) (λ e. e ≡ record { subject = Subject.Other; refusal = Refusal.OutOfMemory }) }
{
    let lack = Refused {
        subject: Subject::Other,
        refusal: Refusal::OutOfMemory,
    };
    let mut text = Vec::new(alloc);
    match word {
        None => Ok(text),
        Some(word) => match word.text_to(&mut text) {
            Ok(()) => Ok(text),
            Err(_) => Err(lack),
        },
    }
}

/// The texts of both words, what the caller gets of the comparison, and the exit status of `ltlcompare`.
#[derive(Drop)]
struct Answer<'a, A: Allocator> {
    first_only: Vec<u8, &'a A>,
    second_only: Vec<u8, &'a A>,
    compared: Compared,
    status: u8,
}

/// The exit status of `ltlcompare`: 0 if the formulas are equivalent.
fn status_of<A: Allocator>(
    first_only: &Option<Lasso<'_, A>>,
    second_only: &Option<Lasso<'_, A>>,
) -> u8
    ensures { result ≡ relation_status first_only.now second_only.now }
{
    match (first_only, second_only) {
        (None, None) => 0,
        (None, Some(_)) | (Some(_), None) | (Some(_), Some(_)) => 1,
    }
}

/// What the caller gets of a comparison, whose words have these texts.
fn found_for<A: Allocator>(
    comparison: &Comparison<'_, A>,
    first_only: &[u8],
    second_only: &[u8],
) -> Compared
    ensures { first_only.now ≡ text_of comparison.now.first_only → second_only.now ≡ text_of comparison.now.second_only
        → result ≡ compared (comparison_of comparison.now) }
{
    Compared {
        first_only_length: first_only.len(),
        second_only_length: second_only.len(),
        first_implies_second: comparison.first_only.is_none(),
        second_implies_first: comparison.second_only.is_none(),
        subject: Subject::Other.number(),
        refusal: no_refusal(),
    }
}

/// Compares the formulas of two texts, and makes the texts of the words that tell them apart.
fn answered<'a, A: Allocator>(
    alloc: &'a A,
    first: &[u8],
    second: &[u8],
) -> Result<Answer<'a, A>, Refused>
    ensures { ComparesTexts first.now second.now (λ c t. IsToldOf c (texts t.first_only.items t.second_only.items) t.compared t.status) result }
{
    let comparison = compared_in(alloc, first, second)?;
    let first_only = word_in(alloc, &comparison.first_only)?;
    let second_only = word_in(alloc, &comparison.second_only)?;
    let compared = found_for(&comparison, first_only.as_slice(), second_only.as_slice());
    let status = status_of(&comparison.first_only, &comparison.second_only);
    Ok(Answer {
        first_only,
        second_only,
        compared,
        status,
    })
}

/// What the caller gets of a refusal.
fn refused(refused: Refused) -> Compared
    ensures { result ≡ not_compared (subject_in refused.subject) (refusal_of refused.refusal) }
{
    Compared {
        first_only_length: 0,
        second_only_length: 0,
        first_implies_second: false,
        second_implies_first: false,
        subject: refused.subject.number(),
        refusal: code_of(refused.refusal),
    }
}

/// Whether the buffers have room for the texts.
fn have_room(first: &[u8], second: &[u8], first_only: &[u8], second_only: &[u8]) -> bool
    ensures { Decides result (HaveRoom (texts first.now second.now) (texts first_only.now second_only.now)) }
{
    first.len() <= first_only.len() && second.len() <= second_only.len()
}

/// Copies both texts to the beginnings of the buffers and returns the status, or returns `TOO_SHORT` if one of the buffers is too short.
fn deliver_both<A: Allocator>(
    answer: &Answer<'_, A>,
    first_only: &mut [u8],
    second_only: &mut [u8],
) -> u8
    ensures { DeliversBoth answer.now.status (texts answer.now.first_only.items answer.now.second_only.items)
        (texts first_only.old second_only.old) (texts first_only.new second_only.new) result }
{
    let first = answer.first_only.as_slice();
    let second = answer.second_only.as_slice();
    if !have_room(first, second, first_only, second_only) {
        return TOO_SHORT;
    }
    first_only[..first.len()].copy_from_slice(first);
    second_only[..second.len()].copy_from_slice(second);
    answer.status
}

/// Tells which of two formulas implies the other one, and writes a word that satisfies the first formula alone into the buffer `first_only`, and one that
/// satisfies the second formula alone into the buffer `second_only`, as far as there are such words. Propositions of the same name are the same. The result is
/// the exit status of `ltlcompare`: 0 if the formulas are equivalent, 1 if they aren't. It is 6 if a buffer is too short for its word; then neither buffer is
/// changed, and `found` has the lengths that are needed. For a refusal it is the refusal's status, and `found` has its code and the formula that it is about.
#[unsafe(no_mangle)]
pub extern "C" fn ltlcompare_verdict(
    alloc: Global,
    first: &[u8],
    second: &[u8],
    first_only: &mut [u8],
    second_only: &mut [u8],
    found: &mut Compared,
) -> u8
    ensures { HandsComparison first.now second.now found.new (texts first_only.old second_only.old) (texts first_only.new second_only.new) result }
{
    match answered(&alloc, first, second) {
        Ok(answer) => {
            *found = answer.compared;
            deliver_both(&answer, first_only, second_only)
        }
        Err(reason) => {
            *found = refused(reason);
            reason.refusal.status().number()
        }
    }
}
