//! The classes of bytes.

ghost use Rattle.std.specs.Prelude.{◌≡◌};
ghost use Rattle.ltl_spec.specs.Hoa.HoaToken as hoa;
ghost use Rattle.ltl_spec.specs.Claims.ClaimTokens as tokens;

pub(crate) fn is_digit(byte: u8) -> bool
    ensures { result ≡ hoa.is_digit byte }
{
    byte.is_ascii_digit()
}

/// Whether a word may begin with the byte.
pub(crate) fn begins_word(byte: u8) -> bool
    ensures { result ≡ hoa.begins_identifier byte }
{
    byte.is_ascii_lowercase() || byte.is_ascii_uppercase() || byte == b'_'
}

/// Whether the byte may follow in a word.
pub(crate) fn is_word_byte(byte: u8) -> bool
    ensures { result ≡ tokens.is_word_byte byte }
{
    begins_word(byte) || is_digit(byte)
}
