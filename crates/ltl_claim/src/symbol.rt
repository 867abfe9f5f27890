//! The symbols of the grammar: what may come next, and what is done before the next token.

ghost use Rattle.std.specs.Prelude.{◌≡◌};
ghost use Rattle.ltl_spec.specs.Claims.ClaimMachine as machine;
ghost use Rattle.ltl_claim.specs.ClaimStep as step;
ghost use Rattle.ltl_claim.specs.SymbolView.{alone_of, is_first, symbol_of};

use crate::token::TokenKind;

/// What is done to the program before the next token is taken. `inside` says whether it is what an option begins with.
#[derive(Clone, Copy)]
pub(crate) enum Action<'t> {
    Constant(bool),
    Name(&'t [u8]),
    Negate,
    JoinAnd,
    JoinOr,
    Test(bool),
    Check(bool),
    Both(bool),
    Label(&'t [u8]),
    Leave(bool),
    Jump(bool, &'t [u8]),
    Otherwise,
    Open(bool),
    Close,
}

/// What may come next. A symbol that begins with `May` may be left out, and one that begins with `In` is a word or sign by itself.
#[derive(Clone, Copy)]
pub(crate) enum Symbol<'t> {
    Title,
    AnItem,
    AStatement,
    Options,
    AFirst,
    AGuard,
    AnOperand,
    Separators,
    InNever,
    InAssert,
    InFi,
    InOd,
    InOpenBrace,
    InCloseBrace,
    InOpenBracket,
    InCloseBracket,
    InColon,
    MayAnother,
    MayMore,
    MayOptions,
    MayConjunct,
    MayDisjunct,
    MaySeparators,
    JumpTo(bool),
    Now(Action<'t>),
}

impl<'t> Symbol<'t> {
    /// Whether the symbol may be left out.
    pub(crate) fn may_be_left_out(self) -> bool
        ensures { result ≡ machine.may_be_left_out (symbol_of self.entry) }
    {
        matches!(
            self,
            Symbol::MayAnother
                | Symbol::MayMore
                | Symbol::MayOptions
                | Symbol::MayConjunct
                | Symbol::MayDisjunct
                | Symbol::MaySeparators
        )
    }

    /// The kind of the token that the symbol is by itself.
    pub(crate) fn alone(self) -> Option<TokenKind>
        ensures { result ≡ alone_of self.entry }
    {
        match self {
            Symbol::InNever => Some(TokenKind::Never),
            Symbol::InAssert => Some(TokenKind::Assert),
            Symbol::InFi => Some(TokenKind::Fi),
            Symbol::InOd => Some(TokenKind::Od),
            Symbol::InOpenBrace => Some(TokenKind::OpenBrace),
            Symbol::InCloseBrace => Some(TokenKind::CloseBrace),
            Symbol::InOpenBracket => Some(TokenKind::OpenBracket),
            Symbol::InCloseBracket => Some(TokenKind::CloseBracket),
            Symbol::InColon => Some(TokenKind::Colon),
            _ => None,
        }
    }

    /// Whether an item or a statement may begin there.
    pub(crate) fn begins_item(self) -> bool
        ensures { result ≡ step.begins_item (symbol_of self.entry) }
    {
        matches!(
            self,
            Symbol::AnItem | Symbol::AStatement | Symbol::MayAnother
        )
    }

    /// Whether an operand may begin there.
    pub(crate) fn begins_operand(self) -> bool
        ensures { result ≡ step.begins_operand (symbol_of self.entry) }
    {
        matches!(
            self,
            Symbol::AnItem
                | Symbol::AStatement
                | Symbol::MayAnother
                | Symbol::AFirst
                | Symbol::AGuard
                | Symbol::AnOperand
        )
    }

    /// Whether the first part of an option begins there.
    pub(crate) fn is_first(self) -> bool
        ensures { result ≡ is_first (symbol_of self.entry) }
    {
        matches!(self, Symbol::AFirst)
    }
}
