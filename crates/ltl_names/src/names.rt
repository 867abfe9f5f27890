//! Classes of bytes, and names of propositions.

ghost use Rattle.std.specs.Prelude.{◌≡◌};
ghost use Rattle.std.specs.List.{list_all};
ghost use Rattle.ltl_spec.specs.Formulas.Names as names;
ghost use Rattle.ltl_spec.specs.Formulas.Tokens as tokens;

/// The largest number of propositions in a formula, a word or an automaton.
pub const PROPOSITION_LIMIT: usize = 256;

/// Whether the byte is a space, a tab, a CR or an LF.
pub fn is_blank(byte: u8) -> bool
    ensures { result ≡ tokens.is_blank byte }
{
    matches!(byte, b' ' | b'\t' | b'\r' | b'\n')
}

/// Whether the byte may begin a name: an ASCII lower-case letter.
pub fn is_lower(byte: u8) -> bool
    ensures { result ≡ tokens.is_lower byte }
{
    byte.is_ascii_lowercase()
}

/// Whether the byte may follow in a name: an ASCII lower-case letter, a digit or `_`.
pub fn is_name_byte(byte: u8) -> bool
    ensures { result ≡ tokens.is_name_byte byte }
{
    is_lower(byte) || byte.is_ascii_digit() || byte == b'_'
}

/// Whether each byte may follow in a name.
fn are_name_bytes(bytes: &[u8]) -> bool
    ensures { result ≡ list_all tokens.is_name_byte bytes.now }
{
    bytes.iter().all(|byte| is_name_byte(*byte))
}

fn is_constant(name: &[u8]) -> bool
    ensures { result ≡ names.is_constant name.now }
{
    match name {
        b"true" | b"false" => true,
        _ => false,
    }
}

/// Whether the bytes are the name of a proposition. The constants `true` and `false` are none.
pub fn is_proposition(name: &[u8]) -> bool
    ensures { result ≡ names.is_proposition name.now }
{
    match name {
        [] => false,
        [first, rest @ ..] => is_lower(*first) && are_name_bytes(rest) && !is_constant(name),
    }
}
