//! Words: the tokens that are constants or names.

ghost use Rattle.std.specs.Prelude.{◌≡◌, ◌≤◌, length, take_while};
ghost use Rattle.ltl_spec.specs.Formulas.Tokens as tokens;
ghost use Rattle.ltl_syntax.specs.TokenView.{token_of};

use crate::token::TokenKind;
use ltl_names::is_name_byte;

/// The length in bytes of the word at the beginning of the text.
pub(crate) fn word_length(text: &[u8]) -> usize
    ensures bytes { result ≡ length (take_while tokens.is_name_byte text.now) }
    ensures within { result ≤ length text.now }
{
    text.iter().take_while(|byte| is_name_byte(**byte)).count()
}

/// The kind of a word: a constant or a name.
pub(crate) fn word_kind(word: &[u8]) -> TokenKind
    ensures { token_of word.now result ≡ tokens.word_token word.now }
{
    match word {
        b"true" => TokenKind::Constant(true),
        b"false" => TokenKind::Constant(false),
        _ => TokenKind::Name,
    }
}
