//! The lexer of claims. It takes the longest token at each place, and skips blanks and comments.

ghost use Rattle.std.specs.Prelude.{◌≡◌, ◌+◌, ◌<◌, ◌≤◌, ℕ, List, [], IfSome, if◌then◌else◌, nat_eq, length, take, take_while, option_map};
ghost use Rattle.ltl_spec.specs.Hoa.HoaToken as hoa;
ghost use Rattle.ltl_spec.specs.Claims.ClaimTokens as tokens;
ghost use Rattle.ltl_claim.specs.ClaimItems as items;
ghost use Rattle.ltl_claim.specs.LexerView.{AreFound, GivesToken, items_at, sign_of, tell_sign, visible_of, visible_tell};
ghost use Rattle.ltl_claim.specs.TokenView.{tell_of, token_of};

use crate::bytes::{begins_word, is_digit, is_word_byte};
use crate::token::{Token, TokenKind};
use crate::word::{number_kind, word_kind};
use ltl_names::is_blank;
use std::marker::Model;

/// The tokens of a text that are still to come.
#[derive(Drop)]
pub(crate) struct Lexer<'t> {
    text: &'t [u8],
    at: usize,
}

impl<'t> Model for Lexer<'t> {
    ghost use Rattle.std.specs.Prelude.{List, ◌≤◌, length};
    ghost use Rattle.ltl_claim.specs.ClaimItems.{ClaimItem};
    ghost use Rattle.ltl_claim.specs.LexerView.{items_at};

    ghost Value = { List ClaimItem };

    ghost view = { λ l. items_at l.text.now l.at };

    ghost invariant = { λ l. l.at ≤ length l.text.now };
}

/// The number of bytes up to the end of a comment, if it has one.
#[tactic(auto, using(crate::proofs::LexerLaws::comment_ends, crate::proofs::LexerLaws::comment_open))]
fn comment_rest(text: &[u8]) -> Option<usize>
    ensures rest { result ≡ tokens.comment_rest text.now }
    ensures within { IfSome result (λ n. n ≤ length text.now) }
{
    let mut at = 0usize;
    'bytes: while at < text.len() {
        if text[at..].starts_with(b"*/") {
            return Some(at + 2);
        }
        at += 1;
    }
    None
}

/// The sign that begins with the first byte, and its length in bytes.
fn sign_from(first: u8, second: u8) -> (TokenKind, usize)
    ensures some { 0 < result.1 }
    ensures short { result.1 ≤ (if nat_eq second 0 then 1 else 2) }
    ensures token { (word : List ℕ) → token_of word result.0 ≡ (sign_of first second).0 }
    ensures length { result.1 ≡ (sign_of first second).1 }
    ensures tell { tell_of result.0 ≡ tell_sign first second }
{
    match first {
        b'{' => (TokenKind::OpenBrace, 1),
        b'}' => (TokenKind::CloseBrace, 1),
        b'(' => (TokenKind::OpenBracket, 1),
        b')' => (TokenKind::CloseBracket, 1),
        b':' if second == b':' => (TokenKind::OptionSign, 2),
        b':' => (TokenKind::Colon, 1),
        b';' => (TokenKind::Semicolon, 1),
        b'-' if second == b'>' => (TokenKind::Arrow, 2),
        b'!' if second == b'=' => (TokenKind::Unequal, 1),
        b'!' => (TokenKind::NotSign, 1),
        b'&' if second == b'&' => (TokenKind::AndSign, 2),
        b'|' if second == b'|' => (TokenKind::OrSign, 2),
        _ if begins_foreign(first) => (TokenKind::Foreign, 1),
        _ => (TokenKind::Broken, 1),
    }
}

/// Whether a sign of Promela that no claim has begins with the byte.
fn begins_foreign(byte: u8) -> bool
    ensures { result ≡ items.begins_sign byte }
{
    matches!(
        byte,
        b'[' | b']'
            | b'<'
            | b'>'
            | b'+'
            | b'*'
            | b'/'
            | b'%'
            | b'&'
            | b'|'
            | b'^'
            | b'~'
            | b'?'
            | b'@'
            | b'.'
            | b','
            | b'='
            | b'#'
            | b'"'
            | b'\''
            | b'-'
    )
}

/// The length of the word at the beginning of the text.
fn word_length(text: &[u8]) -> usize
    ensures bytes { result ≡ length (take_while tokens.is_word_byte text.now) }
    ensures within { result ≤ length text.now }
{
    text.iter().take_while(|byte| is_word_byte(**byte)).count()
}

/// The length of the number at the beginning of the text.
fn number_length(text: &[u8]) -> usize
    ensures bytes { result ≡ length (take_while hoa.is_digit text.now) }
    ensures within { result ≤ length text.now }
{
    text.iter().take_while(|byte| is_digit(**byte)).count()
}

/// The word, number or sign that the text begins with, and its length in bytes. The text begins with no blank and no comment.
fn visible_found(text: &[u8]) -> (TokenKind, usize)
    requires { 0 < length text.now }
    ensures token { token_of (take result.1 text.now) result.0 ≡ (visible_of text.now).0 }
    ensures length { result.1 ≡ (visible_of text.now).1 }
    ensures tell { tell_of result.0 ≡ visible_tell text.now }
    ensures some { 0 < result.1 }
    ensures within { result.1 ≤ length text.now }
{
    let first = text[0];
    if is_digit(first) {
        let length = number_length(text);
        return (number_kind(&text[..length]), length);
    }
    if begins_word(first) {
        let length = word_length(text);
        return (word_kind(&text[..length]), length);
    }
    let second = text.get(1).copied().unwrap_or(0);
    sign_from(first, second)
}

/// The token that the text begins with, or `None` for a blank or a comment, and its length in bytes.
#[tactic(auto, using(crate::proofs::LexerLaws::blank_found, crate::proofs::LexerLaws::comment_found, crate::proofs::LexerLaws::open_comment_found, crate::proofs::LexerLaws::long_enough))]
fn first_found(text: &[u8]) -> (Option<TokenKind>, usize)
    requires { 0 < length text.now }
    ensures found { AreFound text.now result.0 result.1 }
    ensures some { 0 < result.1 }
    ensures within { result.1 ≤ length text.now }
{
    if is_blank(text[0]) {
        return (None, 1);
    }
    if text.starts_with(b"/*") {
        return match comment_rest(&text[2..]) {
            Some(length) => (None, length + 2),
            None => (Some(TokenKind::Broken), 1),
        };
    }
    let (kind, length) = visible_found(text);
    (Some(kind), length)
}

/// The first token at or behind an offset, and the offset behind it.
#[tactic(auto, using(crate::proofs::LexerLaws::items_end))]
fn token_from<'t>(text: &'t [u8], mut at: usize) -> (Option<Token<'t>>, usize)
    requires { at ≤ length text.now }
    ensures gives { GivesToken (items_at text.now at) result.0 (items_at text.now result.1) }
    ensures within { result.1 ≤ length text.now }
{
    'bytes: while at < text.len() {
        let start = at;
        let (found, length) = first_found(&text[start..]);
        at = start + length;
        match found {
            Some(kind) => {
                let word = &text[start..at];
                return (
                    Some(Token {
                        kind,
                        word,
                        at: start,
                    }),
                    at,
                );
            }
            None => {}
        }
    }
    (None, at)
}

impl<'t> Lexer<'t> {
    /// All tokens of the text are still to come.
    pub(crate) fn new(text: &'t [u8]) -> Lexer<'t>
        ensures { result ≡ items.claim_items text.now }
    {
        Lexer { text, at: 0 }
    }

    /// The next token. Behind a token with the kind `Broken` there may be others, which mean nothing.
    pub(crate) fn next_token(&mut self) -> Option<Token<'t>>
        ensures { GivesToken self.old result self.new }
    {
        let (found, at) = token_from(self.text, self.at);
        self.at = at;
        found
    }
}
