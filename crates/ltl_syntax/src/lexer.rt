//! The lexer of formulas. It takes the longest token at each place, and skips blanks.

ghost use Rattle.std.specs.Prelude.{◌≡◌, ◌<◌, ◌≤◌, false, length, slice_index, take};
ghost use Rattle.ltl_spec.specs.Formulas.Tokens as tokens;
ghost use Rattle.ltl_syntax.specs.TokenView.{GivesToken, first_of, items_at, token_of};
ghost use Rattle.std.specs.Iterator.{at_most};

use crate::sign::sign_from;
use crate::token::{Token, TokenKind};
use crate::word::{word_kind, word_length};
use ltl_names::{is_blank, is_lower};
use std::marker::Model;

/// An iterator over the tokens of a text.
#[derive(Drop)]
pub struct Tokens<'t> {
    text: &'t [u8],
    at: usize,
}

impl<'t> Model for Tokens<'t> {
    ghost use Rattle.std.specs.Prelude.{◌≤◌, length};
    ghost use Rattle.ltl_syntax.specs.TokenView.{TokensView, items_at};

    ghost Value = { TokensView };

    ghost view = { λ t. record { text = t.text.now; rest = items_at t.text.now t.at } };

    ghost invariant = { λ t. t.at ≤ length t.text.now };
}

/// The tokens of a text. A byte that begins no token comes as `Unknown`, and is the last token.
pub fn lex(text: &[u8]) -> Tokens<'_>
    ensures text { result.text ≡ text.now }
    ensures rest { result.rest ≡ tokens.items text.now }
{
    Tokens { text, at: 0 }
}

/// The offset of the first byte at or after `at` that is no blank, or the length of the text.
fn after_blanks(text: &[u8], mut at: usize) -> usize
    requires { at ≤ length text.now }
    ensures within { result ≤ length text.now }
    ensures rest { items_at text.now result ≡ items_at text.now at }
    ensures stops { result < length text.now → tokens.is_blank (slice_index text.now result) ≡ false }
{
    'blanks: while at < text.len() && is_blank(text[at]) {
        at += 1;
    }
    at
}

/// The token at the beginning of the text, and its length in bytes.
fn first_token(text: &[u8]) -> (TokenKind, usize)
    requires { 0 < length text.now }
    ensures within { result.1 ≤ length text.now }
    ensures token { token_of (take result.1 text.now) result.0 ≡ (first_of text.now).0 }
    ensures length { result.1 ≡ (first_of text.now).1 }
{
    if is_lower(text[0]) {
        let length = word_length(text);
        (word_kind(&text[..length]), length)
    } else {
        let second = text.get(1).copied().unwrap_or(0);
        let third = text.get(2).copied().unwrap_or(0);
        sign_from(text[0], second, third)
    }
}

impl Iterator for Tokens<'_> {
    type Item = Token;

    ghost next_gives = { GivesToken };

    ghost remaining = { λ s. at_most (length s.rest) };

    fn next(&mut self) -> Option<Token> {
        let start = after_blanks(self.text, self.at);
        self.at = start;
        if start == self.text.len() {
            return None;
        }
        let (kind, length) = first_token(&self.text[start..]);
        let end = start + length;
        self.at = match kind {
            TokenKind::Unknown => self.text.len(),
            _ => end,
        };
        Some(Token { kind, start, end })
    }
}
