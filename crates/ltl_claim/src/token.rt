//! The tokens of claims.

/// The kind of a token. The word of a name is kept apart from it.
#[derive(Clone, Copy, Debug, PartialEq, Eq)]
pub(crate) enum TokenKind {
    /// A name.
    Word,
    /// `true`, `skip` or `1`, or else `false` or `0`.
    Truth(bool),
    Never,
    Assert,
    Atomic,
    Do,
    Od,
    If,
    Fi,
    Goto,
    Break,
    Else,
    OpenBrace,
    CloseBrace,
    OpenBracket,
    CloseBracket,
    OptionSign,
    Colon,
    Semicolon,
    Arrow,
    NotSign,
    AndSign,
    OrSign,
    /// The sign `!=`, of which only the first byte is taken.
    Unequal,
    /// A word, number or sign of Promela that no claim has.
    Foreign,
    /// What has no end, or begins no token.
    Broken,
}

/// A token: its kind, its bytes, and the offset of the first one.
#[derive(Clone, Copy, Debug, PartialEq, Eq)]
pub(crate) struct Token<'t> {
    pub kind: TokenKind,
    pub word: &'t [u8],
    pub at: usize,
}
