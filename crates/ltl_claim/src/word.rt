//! Words and numbers.

ghost use Rattle.std.specs.Prelude.{◌≡◌, ◌||◌, if◌then◌else◌, option_map, unwrap_or, IfSome};
ghost use Rattle.std.specs.List.{list_any};
ghost use Rattle.ltl_spec.specs.Formulas.Tokens.{same_name};
ghost use Rattle.ltl_spec.specs.Claims.ClaimTokens as tokens;
ghost use Rattle.ltl_claim.specs.TokenView.{foreign_tell, tell_of, token_of, words_to_c, words_to_g, words_to_o, words_to_x};

use crate::token::TokenKind;

/// Whether the word is one of Promela's, in the order of the alphabet up to `chan`.
fn is_word_to_c(word: &[u8]) -> bool
    ensures { result ≡ list_any (same_name word.now) words_to_c }
{
    word == b"active".as_slice()
        || word == b"assert".as_slice()
        || word == b"atomic".as_slice()
        || word == b"bit".as_slice()
        || word == b"bool".as_slice()
        || word == b"break".as_slice()
        || word == b"byte".as_slice()
        || word == b"c_code".as_slice()
        || word == b"c_decl".as_slice()
        || word == b"c_expr".as_slice()
        || word == b"c_state".as_slice()
        || word == b"c_track".as_slice()
        || word == b"chan".as_slice()
}

/// Whether the word is one of Promela's, in the order of the alphabet from `d_step` to `goto`.
fn is_word_to_g(word: &[u8]) -> bool
    ensures { result ≡ list_any (same_name word.now) words_to_g }
{
    word == b"d_step".as_slice()
        || word == b"D_proctype".as_slice()
        || word == b"do".as_slice()
        || word == b"else".as_slice()
        || word == b"empty".as_slice()
        || word == b"enabled".as_slice()
        || word == b"eval".as_slice()
        || word == b"false".as_slice()
        || word == b"fi".as_slice()
        || word == b"for".as_slice()
        || word == b"full".as_slice()
        || word == b"get_priority".as_slice()
        || word == b"goto".as_slice()
}

/// Whether the word is one of Promela's, in the order of the alphabet from `hidden` to `of`.
fn is_word_to_o(word: &[u8]) -> bool
    ensures { result ≡ list_any (same_name word.now) words_to_o }
{
    word == b"hidden".as_slice()
        || word == b"if".as_slice()
        || word == b"init".as_slice()
        || word == b"inline".as_slice()
        || word == b"int".as_slice()
        || word == b"len".as_slice()
        || word == b"local".as_slice()
        || word == b"ltl".as_slice()
        || word == b"mtype".as_slice()
        || word == b"nempty".as_slice()
        || word == b"never".as_slice()
        || word == b"nfull".as_slice()
        || word == b"notrace".as_slice()
        || word == b"np_".as_slice()
        || word == b"od".as_slice()
        || word == b"of".as_slice()
}

/// Whether the word is one of Promela's, in the order of the alphabet from `pc_value` on.
fn is_word_to_x(word: &[u8]) -> bool
    ensures { result ≡ list_any (same_name word.now) words_to_x }
{
    word == b"pc_value".as_slice()
        || word == b"pid".as_slice()
        || word == b"printf".as_slice()
        || word == b"printm".as_slice()
        || word == b"priority".as_slice()
        || word == b"proctype".as_slice()
        || word == b"provided".as_slice()
        || word == b"return".as_slice()
        || word == b"run".as_slice()
        || word == b"select".as_slice()
        || word == b"set_priority".as_slice()
        || word == b"short".as_slice()
        || word == b"show".as_slice()
        || word == b"skip".as_slice()
        || word == b"timeout".as_slice()
        || word == b"trace".as_slice()
        || word == b"true".as_slice()
        || word == b"typedef".as_slice()
        || word == b"unless".as_slice()
        || word == b"unsigned".as_slice()
        || word == b"xr".as_slice()
        || word == b"xs".as_slice()
}

fn is_in_first_half(word: &[u8]) -> bool
    ensures { result ≡ (list_any (same_name word.now) words_to_c || list_any (same_name word.now) words_to_g) }
{
    is_word_to_c(word) || is_word_to_g(word)
}

fn is_in_second_half(word: &[u8]) -> bool
    ensures { result ≡ (list_any (same_name word.now) words_to_o || list_any (same_name word.now) words_to_x) }
{
    is_word_to_o(word) || is_word_to_x(word)
}

/// Whether the word is one of Promela's.
#[tactic(auto, using(crate::proofs::LexerLaws::first_half, crate::proofs::LexerLaws::second_half))]
fn is_promela_word(word: &[u8]) -> bool
    ensures { result ≡ tokens.is_promela_word word.now }
{
    if is_in_first_half(word) {
        return true;
    }
    is_in_second_half(word)
}

/// The token that a word or a number of the profile is.
fn own_kind(word: &[u8]) -> Option<TokenKind>
    ensures token { (other : tokens.ClaimToken) → tokens.listed_or other word.now ≡ unwrap_or (option_map (token_of word.now) result) other }
    ensures tell { IfSome result (λ kind. tell_of kind ≡ foreign_tell (token_of word.now kind)) }
{
    if word == b"never".as_slice() {
        Some(TokenKind::Never)
    } else if word == b"assert".as_slice() {
        Some(TokenKind::Assert)
    } else if word == b"atomic".as_slice() {
        Some(TokenKind::Atomic)
    } else if word == b"do".as_slice() {
        Some(TokenKind::Do)
    } else if word == b"od".as_slice() {
        Some(TokenKind::Od)
    } else if word == b"if".as_slice() {
        Some(TokenKind::If)
    } else if word == b"fi".as_slice() {
        Some(TokenKind::Fi)
    } else if word == b"goto".as_slice() {
        Some(TokenKind::Goto)
    } else if word == b"break".as_slice() {
        Some(TokenKind::Break)
    } else if word == b"else".as_slice() {
        Some(TokenKind::Else)
    } else if word == b"true".as_slice() {
        Some(TokenKind::Truth(true))
    } else if word == b"skip".as_slice() {
        Some(TokenKind::Truth(true))
    } else if word == b"false".as_slice() {
        Some(TokenKind::Truth(false))
    } else if word == b"1".as_slice() {
        Some(TokenKind::Truth(true))
    } else if word == b"0".as_slice() {
        Some(TokenKind::Truth(false))
    } else {
        None
    }
}

/// The kind of a word.
pub(crate) fn word_kind(word: &[u8]) -> TokenKind
    ensures token { token_of word.now result ≡ tokens.listed_or (if tokens.is_promela_word word.now then tokens.Foreign else tokens.Word word.now) word.now }
    ensures tell { tell_of result ≡ foreign_tell (token_of word.now result) }
{
    match own_kind(word) {
        Some(kind) => kind,
        None if is_promela_word(word) => TokenKind::Foreign,
        None => TokenKind::Word,
    }
}

/// The kind of a number, by its digits.
pub(crate) fn number_kind(digits: &[u8]) -> TokenKind
    ensures token { token_of digits.now result ≡ tokens.listed_or tokens.Foreign digits.now }
    ensures tell { tell_of result ≡ foreign_tell (token_of digits.now result) }
{
    own_kind(digits).unwrap_or(TokenKind::Foreign)
}
