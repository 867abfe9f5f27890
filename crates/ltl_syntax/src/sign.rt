//! Signs: the tokens that consist of punctuation or of a capital letter.

ghost use Rattle.std.specs.Prelude.{◌≡◌, ℕ, List};
ghost use Rattle.ltl_syntax.specs.TokenView.{token_of, sign_of};

use crate::operators::{BinaryOperator, UnaryOperator};
use crate::token::TokenKind;

/// The longest sign at the beginning of these bytes, and its length in bytes. No sign is longer than three bytes.
pub(crate) fn sign_from(first: u8, second: u8, third: u8) -> (TokenKind, usize)
    ensures token { (word : List ℕ) → token_of word result.0 ≡ (sign_of first second third).0 }
    ensures length { result.1 ≡ (sign_of first second third).1 }
{
    match first {
        b'!' => (TokenKind::Unary(UnaryOperator::Not), 1),
        b'X' => (TokenKind::Unary(UnaryOperator::Next), 1),
        b'G' => (TokenKind::Unary(UnaryOperator::Always), 1),
        b'F' => (TokenKind::Unary(UnaryOperator::Eventually), 1),
        b'U' => (TokenKind::Binary(BinaryOperator::Until), 1),
        b'V' => (TokenKind::Binary(BinaryOperator::Release), 1),
        b'R' => (TokenKind::Binary(BinaryOperator::Release), 1),
        b'(' => (TokenKind::Open, 1),
        b')' => (TokenKind::Close, 1),
        b'<' => angle_from(second, third),
        b'[' if second == b']' => (TokenKind::Unary(UnaryOperator::Always), 2),
        b'&' if second == b'&' => (TokenKind::Binary(BinaryOperator::And), 2),
        b'/' if second == b'\\' => (TokenKind::Binary(BinaryOperator::And), 2),
        b'|' if second == b'|' => (TokenKind::Binary(BinaryOperator::Or), 2),
        b'\\' if second == b'/' => (TokenKind::Binary(BinaryOperator::Or), 2),
        b'-' if second == b'>' => (TokenKind::Binary(BinaryOperator::Implies), 2),
        _ => (TokenKind::Unknown, 1),
    }
}

/// The longest sign that begins with `<` and goes on with these bytes.
fn angle_from(second: u8, third: u8) -> (TokenKind, usize)
    ensures token { (word : List ℕ) → token_of word result.0 ≡ (sign_of 60 second third).0 }
    ensures length { result.1 ≡ (sign_of 60 second third).1 }
{
    match second {
        b'>' => (TokenKind::Unary(UnaryOperator::Eventually), 2),
        b'-' if third == b'>' => (TokenKind::Binary(BinaryOperator::Iff), 3),
        _ => (TokenKind::Unknown, 1),
    }
}
