//! The streaming reader: it takes bytes, and holds the lexer, the parser, the current line and the first fault.

ghost use Rattle.std.specs.Prelude.{◌≡◌, ◌≢◌, ◌<◌, ◌≤◌, ◌+◌, ◌∷◌, ◌++◌, [], List, ℕ, Some, None, IsErrOf, IfNone, IfSome, length, OnOk};
ghost use Rattle.ltl_hoa.specs.LexerView.{depth_of, ended_kind, taken};
ghost use Rattle.ltl_hoa.specs.StreamReaderView as view;
ghost use Rattle.ltl_hoa.specs.Reading.{Answers, IsAfter, IsEnded, RefusesText};

use crate::fault::{HoaFault, HoaFaultKind, Stop};
use crate::lexer::Lexer;
use crate::marked::Marked;
use crate::parser::Parser;
use crate::place::Place;
use crate::token::TokenKind;
use std::alloc::{AllocError, Allocator};
use std::marker::Model;

/// The largest number of bytes in a text.
pub const MOST_BYTES: usize = 16_777_216;

/// A fault and its line.
#[derive(Clone, Copy)]
pub(crate) struct Found {
    pub line: usize,
    pub kind: HoaFaultKind,
}

/// The state of the reader. It keeps the current token, the open label, the names and the automaton so far, but no text.
#[derive(Drop)]
pub(crate) struct StreamReader<'a, A: Allocator> {
    /// The number of bytes that were taken, and the line that they end in.
    given: usize,
    line: usize,
    lexer: Lexer<'a, A>,
    parser: Parser<'a, A>,
    /// The leftmost fault. Once there is one, only lines are counted.
    fault: Option<Found>,
}

impl<'a, A: Allocator> Model for StreamReader<'a, A> {
    ghost use Rattle.ltl_hoa.specs.StreamReaderView.{StreamReaderView, IsStreamReader};

    ghost Value = { StreamReaderView };

    ghost view = { λ m. record { given = m.given; line = m.line; lexer = m.lexer; parser = m.parser; fault = m.fault } };

    ghost invariant = { λ m. IsStreamReader (record { given = m.given; line = m.line; lexer = m.lexer; parser = m.parser; fault = m.fault }) };
}

/// The line of a fault at a token that begins in line `start`. The text goes on in line `last`. If a string or a comment has no end, the fault is in line
/// `last`. But a string without an end after the automaton is a fault in line `start`.
fn fault_line(place: Place, kind: TokenKind, start: usize, last: usize) -> usize
    ensures { result ≡ view.fault_line place kind start last }
{
    match (place, kind) {
        (_, TokenKind::UnclosedComment) => last,
        (Place::End, TokenKind::UnclosedText) => start,
        (_, TokenKind::UnclosedText) => last,
        _ => start,
    }
}

/// The line after a byte.
fn line_behind(line: usize, byte: u8) -> usize
    requires { line ≤ MOST_BYTES + 1 }
    ensures { result ≡ view.line_behind line byte }
{
    if byte == b'\n' { line + 1 } else { line }
}

impl<'a, A: Allocator> StreamReader<'a, A> {
    /// A reader that has taken no byte.
    pub(crate) fn new(alloc: &'a A) -> StreamReader<'a, A>
        ensures { result ≡ view.new_stream_reader }
    {
        StreamReader {
            given: 0,
            line: 1,
            lexer: Lexer::new(alloc),
            parser: Parser::new(alloc),
            fault: None,
        }
    }

    /// The line after the bytes so far, counted from 1.
    pub(crate) fn line(&self) -> usize
        ensures { result ≡ self.now.line }
    {
        self.line
    }

    /// Takes some bytes. After an error the reader must not be used again.
    pub(crate) fn take_chunk(&mut self, chunk: &[u8]) -> Result<(), AllocError>
        requires { self.old.given + length chunk.now ≤ MOST_BYTES }
        ensures { (text : List ℕ) → IsAfter self.old text → OnOk result (IsAfter self.new (text ++ chunk.now)) }
    {
        'bytes: for byte in chunk {
            self.take(*byte)?;
        }
        Ok(())
    }

    /// Takes a byte.
    fn take(&mut self, byte: u8) -> Result<(), AllocError>
        requires { self.old.given < MOST_BYTES }
        ensures exact { (text : List ℕ) → IsAfter self.old text → OnOk result (IsAfter self.new (text ++ byte ∷ [])) }
        ensures given { OnOk result (self.new.given ≡ self.old.given + 1) }
    {
        self.given += 1;
        self.lex(byte)?;
        self.line = line_behind(self.line, byte);
        Ok(())
    }

    /// Hands the parser the tokens that end before this byte and with it, unless there is a fault.
    fn lex(&mut self, byte: u8) -> Result<(), AllocError>
        requires { depth_of self.old.lexer.phase < self.old.given }
        ensures exact { OnOk result (view.Lexes self.old byte self.new) }
        ensures given { self.new.given ≡ self.old.given }
        ensures line { self.new.line ≡ self.old.line }
    {
        if self.fault.is_some() {
            return Ok(());
        }
        self.end_token(byte)?;
        if self.fault.is_none() {
            self.feed(byte)?;
        }
        Ok(())
    }

    /// Hands the parser the token that ends before this byte, if there is one.
    fn end_token(&mut self, byte: u8) -> Result<(), AllocError>
        ensures exact { OnOk result (view.EndsToken (ended_kind self.old.lexer.phase byte) self.old self.new) }
        ensures given { self.new.given ≡ self.old.given }
        ensures line { self.new.line ≡ self.old.line }
        ensures depth { depth_of self.new.lexer.phase ≤ depth_of self.old.lexer.phase }
    {
        if let Some(kind) = self.lexer.ends(byte) {
            self.take_token(kind)?;
            self.lexer.rest();
        }
        Ok(())
    }

    /// Takes a byte. No token ends before it. Hands the parser the token that ends with it, if there is one.
    fn feed(&mut self, byte: u8) -> Result<(), AllocError>
        requires { depth_of self.old.lexer.phase < self.old.given }
        ensures exact { OnOk result (view.Feeds (taken self.old.lexer self.old.line byte) self.old self.new) }
        ensures given { self.new.given ≡ self.old.given }
        ensures line { self.new.line ≡ self.old.line }
    {
        let kind = self.lexer.take(self.line, byte)?;
        if let Some(kind) = kind {
            self.take_token(kind)?;
        }
        Ok(())
    }

    /// Hands the parser a token that has ended, and records a fault.
    fn take_token(&mut self, kind: TokenKind) -> Result<(), AllocError>
        ensures exact { OnOk result (view.TakesToken self.old kind self.new) }
        ensures given { self.new.given ≡ self.old.given }
        ensures line { self.new.line ≡ self.old.line }
        ensures lexer { self.new.lexer ≡ self.old.lexer }
    {
        let place = self.parser.place();
        match self.parser.take(kind, self.lexer.text()) {
            Ok(()) => Ok(()),
            Err(Stop::OutOfMemory) => Err(AllocError),
            Err(Stop::Fault(fault)) => {
                self.fault = Some(Found {
                    line: fault_line(place, kind, self.lexer.start(), self.line),
                    kind: fault,
                });
                Ok(())
            }
        }
    }

    /// Ends the text, and returns its automaton or its leftmost fault. The reader must not be used again.
    pub(crate) fn finish(&mut self) -> Result<Marked<'a, A>, HoaFault>
        requires { (text : List ℕ) × IsAfter self.old text }
        ensures answers { (text : List ℕ) → IsAfter self.old text → Answers text result }
        ensures told { ¬ (IsErrOf result HoaFault.CannotRead) }
    {
        self.take_last()?;
        self.answer()
    }

    /// Hands the parser the token that ends with the text, if there is one.
    fn take_last(&mut self) -> Result<(), AllocError>
        ensures { (text : List ℕ) → IsAfter self.old text → OnOk result (IsEnded self.new text) }
    {
        if self.fault.is_some() {
            return Ok(());
        }
        match self.lexer.end() {
            Some(kind) => self.take_token(kind),
            None => Ok(()),
        }
    }

    /// The result for the text, after its last token.
    fn answer(&mut self) -> Result<Marked<'a, A>, HoaFault>
        requires { (text : List ℕ) × IsEnded self.old text }
        ensures answers { (text : List ℕ) → IsEnded self.old text → Answers text result }
        ensures told { ¬ (IsErrOf result HoaFault.CannotRead) }
    {
        match self.refusal() {
            Some(fault) => Err(fault),
            None => Ok(self.parser.finish()),
        }
    }

    /// The fault of the text, after its last token. A text that isn't complete has one.
    fn refusal(&self) -> Option<HoaFault>
        ensures refused { IfSome result (λ fault. (text : List ℕ) → IsEnded self.now text → RefusesText text fault) }
        ensures told { result ≢ Some HoaFault.CannotRead }
        ensures whole { IfNone result ((self.now.fault ≡ None) × (self.now.parser.place ≡ Place.End)) }
    {
        if let Some(found) = self.fault {
            return Some(HoaFault::AtLine(found.line, found.kind));
        }
        match self.parser.place() {
            Place::End => None,
            Place::Format | Place::Version => {
                Some(HoaFault::AtLine(self.line, HoaFaultKind::NotHoaVersion1))
            }
            _ => Some(HoaFault::AtLine(self.line, HoaFaultKind::BadToken)),
        }
    }
}
