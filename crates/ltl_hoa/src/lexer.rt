//! The lexer. It takes one byte at a time, and keeps only the current token.

ghost use Rattle.std.specs.Prelude.{◌≡◌, ◌<◌, ◌≤◌, ◌^◌, ◌+◌, IfOk};
ghost use Rattle.ltl_hoa.specs.LexerView.{begun, beginning, depth_of, ended_kind, last_kind, rested, taken, commented, quoted, spelled};

use crate::bytes::{
    begins_identifier, begins_mark, is_digit, is_identifier_byte, mark_kind, sign_kind,
};
use crate::token::TokenKind;
use ltl_names::is_blank;
use std::alloc::{AllocError, Allocator};
use std::marker::Model;

/// The state of the lexer. Comments nest; an open one has its depth.
#[derive(Clone, Copy)]
pub(crate) enum Phase {
    /// No token is open.
    Between,
    /// A slash, which begins a comment or is an unknown token.
    Slash,
    /// An identifier, or the name of a header item.
    Word,
    /// The number zero. It ends before any byte, since no number has a leading zero.
    Zero,
    Digits,
    /// A prefix of a mark, as `--BO`.
    Mark,
    Text,
    /// A string, after a backslash.
    Escape,
    Comment(usize),
    /// A comment, after a slash that may open an inner one.
    CommentSlash(usize),
    /// A comment, after a star that may close it.
    CommentStar(usize),
    /// An unknown token was met; no token follows.
    Ended,
}

/// The lexer: its state, the content of the open token so far, and the line of the token's first byte.
#[derive(Drop)]
pub(crate) struct Lexer<'a, A: Allocator> {
    phase: Phase,
    text: Vec<u8, &'a A>,
    start: usize,
}

impl<'a, A: Allocator> Model for Lexer<'a, A> {
    ghost use Rattle.ltl_hoa.specs.LexerView.{LexerView};

    ghost Value = { LexerView };

    ghost view = { λ x. record { phase = x.phase; text = x.text.items; start = x.start } };
}

/// The state after a byte between tokens, and the token if it is this byte alone.
fn beginning(byte: u8) -> (Phase, Option<TokenKind>)
    ensures exact { result ≡ beginning byte }
    ensures shallow { depth_of result.0 ≡ 0 }
{
    if is_blank(byte) {
        (Phase::Between, None)
    } else if byte == b'/' {
        (Phase::Slash, None)
    } else if byte == b'"' {
        (Phase::Text, None)
    } else if byte == b'0' {
        (Phase::Zero, None)
    } else if is_digit(byte) {
        (Phase::Digits, None)
    } else if begins_identifier(byte) {
        (Phase::Word, None)
    } else if byte == b'-' {
        (Phase::Mark, None)
    } else {
        match sign_kind(byte) {
            Some(kind) => (Phase::Between, Some(kind)),
            None => (Phase::Ended, Some(TokenKind::Unknown)),
        }
    }
}

/// The state after a byte of a comment. In other states nothing changes.
fn commented(phase: Phase, byte: u8) -> Phase
    requires { depth_of phase < 2 ^ 32 }
    ensures exact { result ≡ commented phase byte }
    ensures shallow { depth_of result ≤ depth_of phase + 1 }
{
    match (phase, byte) {
        (Phase::CommentSlash(depth), b'*') => Phase::Comment(depth + 1),
        (Phase::CommentStar(depth), b'/') => {
            if depth <= 1 {
                Phase::Between
            } else {
                Phase::Comment(depth - 1)
            }
        }
        (Phase::Comment(depth) | Phase::CommentSlash(depth) | Phase::CommentStar(depth), byte) =>
            match byte {
                b'/' => Phase::CommentSlash(depth),
                b'*' => Phase::CommentStar(depth),
                _ => Phase::Comment(depth),
            },
        (phase, _) => phase,
    }
}

impl<'a, A: Allocator> Lexer<'a, A> {
    pub(crate) fn new(alloc: &'a A) -> Lexer<'a, A>
        ensures { result ≡ begun }
    {
        Lexer {
            phase: Phase::Between,
            text: Vec::new(alloc),
            start: 1,
        }
    }

    /// The content of the token.
    pub(crate) fn text(&self) -> &[u8]
        ensures { result.now ≡ self.now.text }
    {
        self.text.as_slice()
    }

    /// The line of the token's first byte.
    pub(crate) fn start(&self) -> usize
        ensures { result ≡ self.now.start }
    {
        self.start
    }

    /// The token that ends before this byte, if there is one.
    pub(crate) fn ends(&self, byte: u8) -> Option<TokenKind>
        ensures { result ≡ ended_kind self.now.phase byte }
    {
        match self.phase {
            Phase::Word if !is_identifier_byte(byte) && byte != b':' => Some(TokenKind::Identifier),
            Phase::Digits if !is_digit(byte) => Some(TokenKind::Int),
            Phase::Zero => Some(TokenKind::Int),
            _ => None,
        }
    }

    /// Closes the token that `ends` returned. Its content stays until the next token begins.
    pub(crate) fn rest(&mut self)
        ensures { self.new ≡ rested self.old }
    {
        self.phase = Phase::Between;
    }

    /// Takes a byte in line `line`. No token ends before it. Returns the token that ends with it, if there is one.
    pub(crate) fn take(&mut self, line: usize, byte: u8) -> Result<Option<TokenKind>, AllocError>
        requires { depth_of self.old.phase < 2 ^ 32 }
        ensures exact { IfOk result (λ kind. (kind, self.new) ≡ taken self.old line byte) }
        ensures shallow { depth_of self.new.phase ≤ depth_of self.old.phase + 1 }
    {
        match self.phase {
            Phase::Between => self.begin(line, byte),
            Phase::Word if byte == b':' => {
                self.phase = Phase::Between;
                Ok(Some(TokenKind::Header))
            }
            Phase::Word | Phase::Digits => {
                self.text.push(byte)?;
                Ok(None)
            }
            Phase::Mark => self.take_mark(byte),
            Phase::Text | Phase::Escape => self.take_quoted(byte),
            Phase::Slash if byte == b'*' => {
                self.phase = Phase::Comment(1);
                Ok(None)
            }
            Phase::Slash => {
                self.phase = Phase::Ended;
                Ok(Some(TokenKind::Unknown))
            }
            phase => {
                self.phase = commented(phase, byte);
                Ok(None)
            }
        }
    }

    /// Takes a byte between tokens.
    fn begin(&mut self, line: usize, byte: u8) -> Result<Option<TokenKind>, AllocError>
        ensures exact { IfOk result (λ kind. (kind, self.new) ≡ spelled line byte) }
        ensures shallow { depth_of self.new.phase ≡ 0 }
    {
        let (phase, kind) = beginning(byte);
        self.text.clear();
        self.start = line;
        self.phase = phase;
        if matches!(
            phase,
            Phase::Zero | Phase::Digits | Phase::Word | Phase::Mark
        ) {
            self.text.push(byte)?;
        }
        Ok(kind)
    }

    /// Takes a byte after a prefix of a mark.
    fn take_mark(&mut self, byte: u8) -> Result<Option<TokenKind>, AllocError>
        requires { self.old.phase ≡ Phase.Mark }
        ensures exact { IfOk result (λ kind. (kind, self.new) ≡ taken self.old 0 byte) }
        ensures shallow { depth_of self.new.phase ≡ 0 }
    {
        self.text.push(byte)?;
        if let Some(kind) = mark_kind(self.text.as_slice()) {
            self.phase = Phase::Between;
            return Ok(Some(kind));
        }
        if begins_mark(self.text.as_slice()) {
            return Ok(None);
        }
        self.phase = Phase::Ended;
        Ok(Some(TokenKind::Unknown))
    }

    /// Takes a byte of a string.
    fn take_quoted(&mut self, byte: u8) -> Result<Option<TokenKind>, AllocError>
        ensures exact { IfOk result (λ kind. (kind, self.new) ≡ quoted self.old byte) }
        ensures shallow { depth_of self.new.phase ≡ 0 }
    {
        match (self.phase, byte) {
            (Phase::Text, b'"') => {
                self.phase = Phase::Between;
                Ok(Some(TokenKind::Text))
            }
            (Phase::Text, b'\\') => {
                self.phase = Phase::Escape;
                Ok(None)
            }
            _ => {
                self.phase = Phase::Text;
                self.text.push(byte)?;
                Ok(None)
            }
        }
    }

    /// The token that ends with the text, if one is open.
    pub(crate) fn end(&self) -> Option<TokenKind>
        ensures { result ≡ last_kind self.now.phase }
    {
        match self.phase {
            Phase::Between | Phase::Ended => None,
            Phase::Word => Some(TokenKind::Identifier),
            Phase::Zero | Phase::Digits => Some(TokenKind::Int),
            Phase::Slash | Phase::Mark => Some(TokenKind::Unknown),
            Phase::Text | Phase::Escape => Some(TokenKind::UnclosedText),
            Phase::Comment(_) | Phase::CommentSlash(_) | Phase::CommentStar(_) => {
                Some(TokenKind::UnclosedComment)
            }
        }
    }
}
