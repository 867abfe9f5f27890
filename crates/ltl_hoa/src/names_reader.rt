//! Reading the names of an automaton and of its states from a whole text.

ghost use Rattle.std.specs.Prelude.{◌≡◌, ◌<◌, ◌≤◌, ◌^◌, ◌+◌, IfOk, OnOk, length};
ghost use Rattle.ltl_spec.specs.Hoa.HoaNames as spec;
ghost use Rattle.ltl_hoa.specs.LexerView.{depth_of, taken};
ghost use Rattle.ltl_hoa.specs.NamesReaderView.{new_names_reader, token_taken, before_taken, fed_taken, byte_taken};

use crate::lexer::Lexer;
use crate::naming::{HoaNames, Owner, next_owner};
use crate::token::TokenKind;
use std::alloc::{AllocError, Allocator};
use std::marker::Model;

/// The state of the reader: the open token, the line, the names so far, and what the next string would be the name of.
#[derive(Drop)]
struct NamesReader<'a, A: Allocator> {
    alloc: &'a A,
    line: usize,
    lexer: Lexer<'a, A>,
    owner: Owner,
    names: HoaNames<'a, A>,
}

impl<'a, A: Allocator> Model for NamesReader<'a, A> {
    ghost use Rattle.ltl_hoa.specs.NamesReaderView.{NamesReaderView};

    ghost Value = { NamesReaderView };

    ghost view = { λ m. record { line = m.line; lexer = m.lexer; owner = m.owner; names = m.names } };
}

/// The names that a text has for its automaton and for the states below `states`. They don't depend on whether `hoa_read` accepts the text. Nothing
/// counts from a byte on that begins no token, or from a string or a comment on that has no end. The backslashes that escape bytes in a string are no
/// part of the name. Time and memory are proportional to the length of the text and the number of states.
pub fn hoa_names<'a, A: Allocator>(
    alloc: &'a A,
    text: &[u8],
    states: usize,
) -> Result<HoaNames<'a, A>, AllocError>
    requires length { length text.now < 2 ^ 32 }
    requires states { states < 2 ^ 32 }
    ensures { IfOk result (λ names. names ≡ spec.hoa_names text.now states) }
{
    let mut reader = NamesReader::new(alloc, states)?;
    'bytes: for byte in text {
        reader.take(*byte)?;
    }
    Ok(reader.names)
}

impl<'a, A: Allocator> NamesReader<'a, A> {
    /// A reader that has taken no byte.
    fn new(alloc: &'a A, states: usize) -> Result<NamesReader<'a, A>, AllocError>
        ensures { IfOk result (λ m. m ≡ new_names_reader states) }
    {
        Ok(NamesReader {
            alloc,
            line: 1,
            lexer: Lexer::new(alloc),
            owner: Owner::Nothing,
            names: HoaNames::new(alloc, states)?,
        })
    }

    /// Takes a byte.
    fn take(&mut self, byte: u8) -> Result<(), AllocError>
        requires depth { depth_of self.old.lexer.phase < 2 ^ 32 }
        requires line { self.old.line ≤ 2 ^ 32 }
        ensures exact { OnOk result (self.new ≡ byte_taken self.old byte) }
        ensures depth { OnOk result (depth_of self.new.lexer.phase ≤ depth_of self.old.lexer.phase + 1) }
        ensures line { OnOk result (self.new.line ≤ self.old.line + 1) }
    {
        self.end_token(byte)?;
        self.feed(byte)?;
        if byte == b'\n' {
            self.line += 1;
        }
        Ok(())
    }

    /// Takes a byte in the current line. No token ends before it. Takes the token that ends with it, if there is one.
    fn feed(&mut self, byte: u8) -> Result<(), AllocError>
        requires { depth_of self.old.lexer.phase < 2 ^ 32 }
        ensures exact { OnOk result (self.new ≡ fed_taken (taken self.old.lexer self.old.line byte) self.old) }
        ensures depth { OnOk result (depth_of self.new.lexer.phase ≤ depth_of self.old.lexer.phase + 1) }
        ensures line { OnOk result (self.new.line ≡ self.old.line) }
    {
        if let Some(kind) = self.lexer.take(self.line, byte)? {
            self.take_token(kind)?;
        }
        Ok(())
    }

    /// Takes the token that ends before this byte, if there is one.
    fn end_token(&mut self, byte: u8) -> Result<(), AllocError>
        ensures exact { OnOk result (self.new ≡ before_taken self.old byte) }
        ensures depth { OnOk result (depth_of self.new.lexer.phase ≤ depth_of self.old.lexer.phase) }
        ensures line { OnOk result (self.new.line ≡ self.old.line) }
    {
        if let Some(kind) = self.lexer.ends(byte) {
            self.take_token(kind)?;
            self.lexer.rest();
        }
        Ok(())
    }

    /// Takes the token that has ended.
    fn take_token(&mut self, kind: TokenKind) -> Result<(), AllocError>
        ensures { OnOk result (self.new ≡ token_taken self.old kind) }
    {
        let text = self.lexer.text();
        if matches!(kind, TokenKind::Text) {
            self.names.take(self.alloc, self.owner, text)?;
        }
        self.owner = next_owner(self.owner, kind, text);
        Ok(())
    }
}
