//! Reading a claim from a reader or a source.

ghost use Rattle.std.specs.Prelude.{◌≡◌, ◌+◌, ◌≤◌, false, MatchResult, IsErrOf, length, unwrap_or, List};
ghost use Rattle.ltl_spec.specs.Tools.Stage.{Open};
ghost use Rattle.ltl_claim.specs.ClaimAnswer.{most_bytes, place_of, undefined};
ghost use Rattle.ltl_claim.specs.ClaimItems.{ClaimItem, claim_items, colon_next};
ghost use Rattle.ltl_claim.specs.ParserView.{ReadsText, TakesAll, coming, new_parser};
ghost use Rattle.ltl_claim.specs.ClaimView.{Answers};
ghost use Rattle.ltl_claim.specs.TokenView.{kind_of};
ghost use Rattle.ltl_claim.specs.Reading.{AnswersHeld, IsInBounds, IsOfText, LeavesStage, PassesLimit, PlacesFault, TakesFewer, TakesText, TakesUpTo};

use crate::claim::Claim;
use crate::fault::{ClaimFault, ClaimFaultKind};
use crate::lexer::Lexer;
use crate::parser::Parser;
use crate::place::place_of;
use crate::program::Program;
use crate::resolve::claim_of;
pub use crate::text::MOST_BYTES;
use crate::text::text_of;
use crate::token::{Token, TokenKind};
use ltl_streams::{ByteSource, LentReader};
use std::alloc::{AllocError, Allocator};
use std::io::Read;

/// Reads a claim from a standard reader. It reads the text to its end, or up to one byte past the limit of 16 MiB.
pub fn claim_read<'a, A: Allocator, R: Read>(
    alloc: &'a A,
    reader: &mut R,
) -> Result<Claim<'a, A>, ClaimFault>
    ensures read { AnswersHeld (R.remaining reader.old) result }
    ensures within { IsInBounds result }
    ensures taken { MatchResult result (λ _. TakesText (R.remaining reader.old) (R.remaining reader.new))
        (λ fault. IsOfText fault → TakesText (R.remaining reader.old) (R.remaining reader.new)) }
    ensures failed { IsErrOf result ClaimFault.CannotRead → TakesFewer (R.remaining reader.old) (R.remaining reader.new) }
    ensures bounded { TakesUpTo (R.remaining reader.old) (R.remaining reader.new) }
{
    claim_read_from(alloc, &mut LentReader::new(reader))
}

/// The same as `claim_read` for a source. If the source was open, it is broken afterwards if and only if a read failed, and never misused.
pub fn claim_read_from<'a, A: Allocator, R: ByteSource>(
    alloc: &'a A,
    source: &mut R,
) -> Result<Claim<'a, A>, ClaimFault>
    ensures read { AnswersHeld (R.state source.old).rest result }
    ensures within { IsInBounds result }
    ensures taken { MatchResult result (λ _. TakesText (R.state source.old).rest (R.state source.new).rest)
        (λ fault. IsOfText fault → TakesText (R.state source.old).rest (R.state source.new).rest) }
    ensures failed { IsErrOf result ClaimFault.CannotRead → TakesFewer (R.state source.old).rest (R.state source.new).rest }
    ensures bounded { TakesUpTo (R.state source.old).rest (R.state source.new).rest }
    ensures same { (R.state source.new).through ≡ (R.state source.old).through }
    ensures stage { (R.state source.old).stage ≡ Open → LeavesStage result (R.state source.new).stage }
{
    let text = text_of(alloc, source)?;
    claim_of_text(alloc, text.as_slice())
}

/// The fault at an offset.
fn fault_at(text: &[u8], at: usize, kind: ClaimFaultKind) -> ClaimFault
    requires few { length text.now ≤ MOST_BYTES + 1 }
    requires within { at ≤ length text.now }
    ensures { PlacesFault text.now at (kind_of kind) result }
{
    let (line, column) = place_of(text, at);
    ClaimFault::At(line, column, kind)
}

/// Reads a claim from its text, in one pass and without recursion.
#[tactic(auto, using(crate::proofs::ReadLaws::short_passes, crate::proofs::ReadLaws::long_passes, crate::proofs::ReadLaws::fault_told, crate::proofs::ReadLaws::fault_answers, crate::proofs::ReadLaws::long_answer))]
fn claim_of_text<'a, A: Allocator>(alloc: &'a A, text: &[u8]) -> Result<Claim<'a, A>, ClaimFault>
    requires few { length text.now ≤ MOST_BYTES + 1 }
    ensures answers { Answers text.now result }
    ensures told { ¬ (IsErrOf result ClaimFault.CannotRead) }
    ensures past { PassesLimit text.now result }
{
    if text.len() > MOST_BYTES {
        return Err(fault_at(text, MOST_BYTES, ClaimFaultKind::LimitPassed));
    }
    let mut parser = Parser::new(alloc)?;
    if let Some((at, kind)) = first_fault(&mut parser, text)? {
        return Err(fault_at(text, at, kind));
    }
    let (program, names) = parser.into_parts();
    Ok(claim_of(alloc, program, &names)?)
}

/// The first fault of a text that isn't too long, and its offset. If there is none, the parser has the whole claim.
#[tactic(auto, using(crate::proofs::ReadLaws::told_fault, crate::proofs::ReadLaws::end_fault, crate::proofs::ReadLaws::undefined_fault, crate::proofs::ReadLaws::whole_text))]
fn first_fault<'t, 'a, A: Allocator>(
    parser: &mut Parser<'t, 'a, A>,
    text: &'t [u8],
) -> Result<Option<(usize, ClaimFaultKind)>, AllocError>
    requires new { parser.old ≡ new_parser }
    requires short { length text.now ≤ MOST_BYTES }
    ensures { ReadsText text.now result parser.new }
{
    if let Some(fault) = take_all(parser, text)? {
        return Ok(Some(fault));
    }
    if let Some(kind) = parser.end(text.len())? {
        return Ok(Some((text.len(), kind)));
    }
    if !parser.program().are_labelled() {
        let at = undefined(text, parser.program());
        return Ok(Some((at, ClaimFaultKind::UndefinedLabel)));
    }
    Ok(None)
}

/// Takes the tokens of a text, up to the first one that is at fault. Returns its fault and its offset.
#[tactic(auto, using(crate::proofs::ReadLaws::reach_begins, crate::proofs::ReadLaws::reach_more, crate::proofs::ReadLaws::reach_fault, crate::proofs::ReadLaws::reach_ends, crate::proofs::ReadLaws::fewer_coming))]
fn take_all<'t, 'a, A: Allocator>(
    parser: &mut Parser<'t, 'a, A>,
    text: &'t [u8],
) -> Result<Option<(usize, ClaimFaultKind)>, AllocError>
    requires { parser.old ≡ new_parser }
    ensures { TakesAll text.now result parser.new }
{
    let mut lexer = Lexer::new(text);
    let mut current = lexer.next_token();
    'tokens: while let Some(token) = current {
        current = lexer.next_token();
        if let Some(kind) = parser.take(token, is_colon(current))? {
            return Ok(Some((token.at, kind)));
        }
    }
    Ok(None)
}

/// Whether the token is a colon.
fn is_colon(token: Option<Token<'_>>) -> bool
    ensures { (behind : List ClaimItem) → result ≡ colon_next (coming token.entry behind) }
{
    matches!(token, Some(token) if token.kind == TokenKind::Colon)
}

/// The offset of the first word behind a `goto` that is no label, or the length of the text.
#[tactic(auto, using(crate::proofs::UndefinedLaws::items_inside))]
fn undefined<A: Allocator>(text: &[u8], program: &Program<'_, '_, A>) -> usize
    ensures exact { result ≡ unwrap_or (undefined program.now.labels false (claim_items text.now)) (length text.now) }
    ensures within { result ≤ length text.now }
{
    let mut lexer = Lexer::new(text);
    let mut behind_goto = false;
    'tokens: while let Some(token) = lexer.next_token() {
        if behind_goto && token.kind == TokenKind::Word && !program.is_label(token.word) {
            return token.at;
        }
        behind_goto = token.kind == TokenKind::Goto;
    }
    text.len()
}
