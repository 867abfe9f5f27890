//! The classes of bytes, the signs and the `--..--` marks of the format.

ghost use Rattle.std.specs.Prelude.{◌≡◌};
ghost use Rattle.ltl_spec.specs.Hoa.HoaToken as hoa;
ghost use Rattle.ltl_hoa.specs.TokenView.{begins_mark, mark_kind, sign_kind};

use crate::token::TokenKind;

pub(crate) fn is_digit(byte: u8) -> bool
    ensures { result ≡ hoa.is_digit byte }
{
    byte.is_ascii_digit()
}

/// Whether an identifier may begin with the byte.
pub(crate) fn begins_identifier(byte: u8) -> bool
    ensures { result ≡ hoa.begins_identifier byte }
{
    byte.is_ascii_lowercase() || byte.is_ascii_uppercase() || byte == b'_'
}

/// Whether the byte may follow in an identifier.
pub(crate) fn is_identifier_byte(byte: u8) -> bool
    ensures { result ≡ hoa.is_identifier_byte byte }
{
    begins_identifier(byte) || is_digit(byte) || byte == b'-'
}

/// The token that consists of this byte alone.
pub(crate) fn sign_kind(byte: u8) -> Option<TokenKind>
    ensures { result ≡ sign_kind byte }
{
    match byte {
        b'[' => Some(TokenKind::OpenLabel),
        b']' => Some(TokenKind::CloseLabel),
        b'{' => Some(TokenKind::OpenSets),
        b'}' => Some(TokenKind::CloseSets),
        b'(' => Some(TokenKind::OpenBracket),
        b')' => Some(TokenKind::CloseBracket),
        b'!' => Some(TokenKind::NotSign),
        b'&' => Some(TokenKind::AndSign),
        b'|' => Some(TokenKind::OrSign),
        _ => None,
    }
}

/// The mark that these bytes are.
pub(crate) fn mark_kind(text: &[u8]) -> Option<TokenKind>
    ensures { result ≡ mark_kind text.now }
{
    if text == b"--BODY--".as_slice() {
        Some(TokenKind::Body)
    } else if text == b"--END--".as_slice() {
        Some(TokenKind::End)
    } else if text == b"--ABORT--".as_slice() {
        Some(TokenKind::Abort)
    } else {
        None
    }
}

/// Whether the bytes are a prefix of a mark.
pub(crate) fn begins_mark(text: &[u8]) -> bool
    ensures { result ≡ begins_mark text.now }
{
    b"--BODY--".starts_with(text) || b"--END--".starts_with(text) || b"--ABORT--".starts_with(text)
}
