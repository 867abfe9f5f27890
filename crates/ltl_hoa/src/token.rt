//! The tokens of the format.

/// The kind of a token. Its content is kept apart from it.
#[derive(Clone, Copy)]
pub(crate) enum TokenKind {
    /// A string. Its content lacks the quotes, and the backslashes that escape a byte.
    Text,
    Identifier,
    /// The name of a header item: an identifier followed by a colon, which isn't in the content.
    Header,
    /// A number. Its content is its digits.
    Int,
    Body,
    End,
    Abort,
    OpenLabel,
    CloseLabel,
    OpenSets,
    CloseSets,
    OpenBracket,
    CloseBracket,
    NotSign,
    AndSign,
    OrSign,
    /// A byte that begins no token.
    Unknown,
    UnclosedText,
    UnclosedComment,
}
