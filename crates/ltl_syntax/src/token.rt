//! The tokens of a formula's text.

use crate::operators::{BinaryOperator, UnaryOperator};

/// The kind of a token.
#[derive(Clone, Copy, Debug, PartialEq, Eq)]
pub enum TokenKind {
    Constant(bool),
    /// The name of a proposition, which is the text of the token.
    Name,
    Unary(UnaryOperator),
    Binary(BinaryOperator),
    Open,
    Close,
    /// A byte that begins no token.
    Unknown,
}

/// A token, and its place in the text: `start` is the offset of its first byte, `end` that of the byte after it.
#[derive(Clone, Copy, Debug, PartialEq, Eq)]
pub struct Token {
    pub kind: TokenKind,
    pub start: usize,
    pub end: usize,
}
