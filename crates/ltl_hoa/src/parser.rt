//! The parser, an automaton over tokens: its place says which tokens may come next.

ghost use Rattle.std.specs.Prelude.{◌≡◌, List, ℕ, IfOk, OnOk, MatchResult, map, string_bytes, Some, None};
ghost use Rattle.ltl_hoa.specs.TokenView.{token_of, kind_of};
ghost use Rattle.ltl_hoa.specs.HeaderView.{body_begun};
ghost use Rattle.ltl_hoa.specs.ParserView as view;

use crate::body::Body;
use crate::fault::{HoaFaultKind, Stop};
use crate::header::Header;
use crate::marked::Marked;
use crate::place::{BodyPlace, ItemBefore, Place};
use crate::token::TokenKind;
use std::alloc::Allocator;
use std::marker::Model;
use std::mem;

/// The state of the parser.
#[derive(Drop)]
pub(crate) struct Parser<'a, A: Allocator> {
    alloc: &'a A,
    place: Place,
    header: Header<'a, A>,
    /// Present from `--BODY--` on.
    body: Option<Body<'a, A>>,
}

impl<'a, A: Allocator> Model for Parser<'a, A> {
    ghost use Rattle.ltl_hoa.specs.ParserView.{ParserView};

    ghost Value = { ParserView };

    ghost view = { λ p. record { place = p.place; header = p.header; body = p.body } };
}

impl<'a, A: Allocator> Parser<'a, A> {
    pub(crate) fn new(alloc: &'a A) -> Parser<'a, A>
        ensures { result ≡ view.new_parser }
    {
        Parser {
            alloc,
            place: Place::Format,
            header: Header::new(alloc),
            body: None,
        }
    }

    /// The place, which says what may come next.
    pub(crate) fn place(&self) -> Place
        ensures { result ≡ self.now.place }
    {
        self.place
    }

    /// Takes the next token.
    pub(crate) fn take(&mut self, kind: TokenKind, text: &[u8]) -> Result<(), Stop>
        ensures { view.Takes self.old (token_of kind text.now) result self.new }
    {
        match self.place {
            Place::Body(place) => self.take_in_body(place, kind, text),
            Place::Item(_) if matches!(kind, TokenKind::Body) => self.begin_body(),
            Place::End => Err(Stop::Fault(HoaFaultKind::TextAfterEnd)),
            place => self.take_in_header(place, kind, text),
        }
    }

    /// Takes a token of the header.
    fn take_in_header(&mut self, place: Place, kind: TokenKind, text: &[u8]) -> Result<(), Stop>
        ensures { view.TakesInHeader place self.old (token_of kind text.now) result self.new }
    {
        self.place = self.header.take(place, kind, text)?;
        Ok(())
    }

    /// Takes a token of the body.
    fn take_in_body(&mut self, place: BodyPlace, kind: TokenKind, text: &[u8]) -> Result<(), Stop>
        ensures { view.TakesInBody place self.old (token_of kind text.now) result self.new }
    {
        let Some(body) = &mut self.body else {
            return Err(Stop::Fault(HoaFaultKind::BadToken));
        };
        self.place = body.take(place, kind, text)?;
        Ok(())
    }

    /// Takes `--BODY--`, which ends the header.
    fn begin_body(&mut self) -> Result<(), Stop>
        ensures { view.Begins (body_begun self.old.header) self.old result self.new }
    {
        match self.header.counts() {
            Ok(counts) => {
                self.body = Some(Body::new(self.alloc, counts)?);
                self.place = Place::Body(BodyPlace::State);
                Ok(())
            }
            Err(kind) => Err(Stop::Fault(kind)),
        }
    }

    /// The automaton of a complete text. The parser must not be used again.
    pub(crate) fn finish(&mut self) -> Marked<'a, A>
        requires { view.IsWhole self.old }
        ensures { view.IsAutomaton self.old result }
    {
        let header = mem::replace(&mut self.header, Header::new(self.alloc));
        match self.body.take() {
            Some(body) => header.finish(body.into_edges()),
            None => unreachable!(),
        }
    }
}
