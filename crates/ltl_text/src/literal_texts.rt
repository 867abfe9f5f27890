//! The texts of literals, prepared for copying.
//!
//! An automaton has many more literals than propositions. So the text of each literal is put together once, in 16 bytes that are copied
//! at once. A longer text is written from the name.

ghost use Rattle.std.specs.Prelude.{◌≡◌, ◌<◌, if◌then◌else◌, [], ◌++◌, length};
ghost use Rattle.ltl_spec.specs.Automata.ClaimText.{literal_text};
ghost use Rattle.ltl_sets.specs.Literals.{literal_of};
ghost use Rattle.ltl_streams.specs.Printing.{Prints};
ghost use Rattle.ltl_text.specs.NameLists.{names_in};
ghost use Rattle.ltl_text.specs.Prepared.{IsPrepared, AreLiterals};

use crate::names::Names;
use arrayvec::ArrayVec;
use ltl_sets::{Literal, RowSet};
use ltl_streams::{ByteSink, Printer};
use std::alloc::Allocator;
use std::marker::Model;

/// The number of bytes that are copied at once.
const WIDTH: usize = 16;

/// A text of `len` bytes. If there are at most 16, they are the first ones of `bytes`.
#[derive(Clone, Copy)]
struct ShortText {
    bytes: [u8; WIDTH],
    len: usize,
}

impl ShortText {
    /// The text that consists of these two.
    fn of(sign: &[u8], name: &[u8]) -> ShortText
        ensures { IsPrepared result (sign.now ++ name.now) }
    {
        let mut bytes = [0; WIDTH];
        let len = sign.len() + name.len();
        if len <= WIDTH {
            bytes[..sign.len()].copy_from_slice(sign);
            bytes[sign.len()..len].copy_from_slice(name);
        }
        ShortText { bytes, len }
    }
}

/// The texts of the two literals of a proposition.
#[derive(Clone, Copy)]
struct Signed {
    positive: ShortText,
    negative: ShortText,
}

impl Signed {
    /// The texts of the literals of this proposition.
    fn of<A: Allocator>(names: &Names<'_, '_, A>, proposition: usize) -> Signed
        requires { proposition < length (names_in names.now) }
        ensures { AreLiterals (names_in names.now) proposition result }
    {
        let name = names.name(proposition).as_bytes();
        Signed {
            positive: ShortText::of(b"", name),
            negative: ShortText::of(b"!", name),
        }
    }

    /// The text of the literal with this sign.
    #[inline(always)]
    fn text(&self, positive: bool) -> &ShortText
        ensures { result.now ≡ (if positive then self.now.positive else self.now.negative) }
    {
        if positive {
            &self.positive
        } else {
            &self.negative
        }
    }
}

impl Default for Signed {
    ghost is_default = { λ s. IsPrepared s.positive [] × IsPrepared s.negative [] };

    fn default() -> Signed {
        let empty = ShortText {
            bytes: [0; WIDTH],
            len: 0,
        };
        Signed {
            positive: empty,
            negative: empty,
        }
    }
}

/// The texts of the literals of propositions with names. Contracts see it as these names.
#[derive(Drop)]
pub struct LiteralTexts<'f, 'a, A: Allocator> {
    names: Names<'f, 'a, A>,
    texts: ArrayVec<Signed, 256>,
}

impl<'f, 'a, A: Allocator> Model for LiteralTexts<'f, 'a, A> {
    ghost use Rattle.std.specs.Prelude.{List};
    ghost use Rattle.ltl_spec.specs.Semantics.Word.{Name};
    ghost use Rattle.ltl_text.specs.NameLists.{names_in};
    ghost use Rattle.ltl_text.specs.Prepared.{ArePrepared};

    ghost Value = { List Name };

    ghost view = { λ t. names_in t.names };

    ghost invariant = { λ t. ArePrepared (names_in t.names) t.texts.items };
}

impl<'f, 'a, A: Allocator> LiteralTexts<'f, 'a, A> {
    /// The texts of the literals of these propositions. Of more than 256 propositions, the first 256 are taken, since a cube has no others.
    pub fn new(names: Names<'f, 'a, A>) -> LiteralTexts<'f, 'a, A>
        ensures { result ≡ names_in names.entry }
    {
        let mut texts = ArrayVec::new();
        for i in 0..names.count().min(RowSet::LIMIT) {
            texts.push(Signed::of(&names, i));
        }
        LiteralTexts { names, texts }
    }

    /// Writes the text of a literal.
    #[inline(always)]
    pub fn put<S: ByteSink>(&self, literal: Literal, output: &mut Printer<'_, S>)
        requires within { literal.proposition < length self.now }
        requires below { literal.proposition < RowSet.LIMIT }
        ensures { Prints S.state output.old output.new (literal_text self.now (literal_of literal)) }
    {
        let text = self.texts[literal.proposition].text(literal.positive);
        if text.len <= WIDTH {
            output.put_first(&text.bytes, text.len);
        } else {
            self.put_long(literal, output);
        }
    }

    /// Writes the text of a literal from its parts.
    #[inline(never)]
    fn put_long<S: ByteSink>(&self, literal: Literal, output: &mut Printer<'_, S>)
        requires { literal.proposition < length self.now }
        ensures { Prints S.state output.old output.new (literal_text self.now (literal_of literal)) }
    {
        let name = self.names.name(literal.proposition).as_bytes();
        if literal.positive {
            output.put(name);
        } else {
            output.put(b"!");
            output.put(name);
        }
    }
}
