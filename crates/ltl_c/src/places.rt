//! The first occurrence of each proposition's name in the formula's text.

ghost use Rattle.std.specs.Prelude.{◌≡◌, ◌≤◌, length};
ghost use Rattle.ltl_spec.specs.Formulas.Grammar.{IsTextOf};
ghost use Rattle.ltl_spec.specs.Formulas.Tokens as tokens;
ghost use Rattle.ltl_syntax.specs.FormulaView.{reading_of};
ghost use Rattle.ltl_syntax.specs.TokenView.{item_of};
ghost use Rattle.ltl_c.specs.Arrays.{is_named, name_rows, put_over};

use crate::rows::NameRow;
use ltl_syntax::{Formula, Token, TokenKind, lex};
use std::alloc::Allocator;

/// Whether the token is this name.
fn is_name(text: &[u8], token: Token, name: &str) -> bool
    requires order { token.start ≤ token.end }
    requires within { token.end ≤ length text.now }
    ensures { result ≡ is_named name.now (item_of text.now token) }
{
    match token.kind {
        TokenKind::Name => &text[token.start..token.end] == name.as_bytes(),
        _ => false,
    }
}

/// Writes the row of each name in one pass over the text. The pass looks for one name at a time: names are numbered in the order of their first occurrences.
#[tactic(auto, using(crate::proofs::PlaceLaws::none_found, crate::proofs::PlaceLaws::all_found))]
pub(crate) fn put_names<A: Allocator>(text: &[u8], formula: &Formula<'_, A>, names: &mut [NameRow])
    requires text { IsTextOf text.now (reading_of formula.now) }
    requires fit { length formula.now.names ≤ length names.old }
    ensures { names.new ≡ put_over (name_rows text.now formula.now.names) names.old }
{
    formula.invariant();
    let mut count = 0;
    let mut tokens = lex(text);
    'tokens: while let Some(token) = tokens.next() {
        if count < formula.name_count() && is_name(text, token, formula.name(count)) {
            names[count] = NameRow {
                offset: token.start,
                count: formula.name(count).len(),
            };
            count += 1;
        }
    }
}
