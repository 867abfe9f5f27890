//! The signs of labels.

ghost use Rattle.std.specs.Prelude.{◌≡◌, ◌++◌, flat_map, reverse, OnOk};
ghost use Rattle.ltl_claim_hoa.specs.LabelSigns.{sign_text};

use crate::digits::put_number;
use std::alloc::{AllocError, Allocator};

/// A sign of a label: an operand, an operator or a bracket.
#[derive(Clone, Copy, Debug, PartialEq, Eq)]
pub(crate) enum Sign {
    Constant(bool),
    /// The proposition with this number.
    Number(usize),
    Not,
    And,
    Or,
    Open,
    Close,
}

/// Appends the text of a sign.
fn put_sign<A: Allocator>(sign: Sign, text: &mut Vec<u8, &A>) -> Result<(), AllocError>
    ensures { OnOk result (text.new.items ≡ text.old.items ++ sign_text sign) }
{
    match sign {
        Sign::Constant(true) => Ok(text.push(b't')?),
        Sign::Constant(false) => Ok(text.push(b'f')?),
        Sign::Number(number) => put_number(number, text),
        Sign::Not => Ok(text.push(b'!')?),
        Sign::And => Ok(text.push(b'&')?),
        Sign::Or => Ok(text.push(b'|')?),
        Sign::Open => Ok(text.push(b'(')?),
        Sign::Close => Ok(text.push(b')')?),
    }
}

/// Appends the texts of the signs, the last sign first.
pub(crate) fn put_back<A: Allocator>(
    signs: &[Sign],
    text: &mut Vec<u8, &A>,
) -> Result<(), AllocError>
    ensures { OnOk result (text.new.items ≡ text.old.items ++ flat_map sign_text (reverse signs.now)) }
{
    let mut at = signs.len();
    'signs: while at > 0 {
        at -= 1;
        put_sign(signs[at], text)?;
    }
    Ok(())
}
