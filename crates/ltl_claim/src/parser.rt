//! A predictive parser with an explicit stack, in one pass over the tokens.

ghost use Rattle.std.specs.Prelude.{◌≡◌, ◌∷◌, [], ◌==◌, true, false, nat_le, not, ◌&&◌, is_some, option_map, map, if◌then◌else◌, Bool, IfOk, List, Option, Some, None};
ghost use Rattle.std.specs.List.{list_any};
ghost use Rattle.ltl_spec.specs.Semantics.Word.{Name};
ghost use Rattle.ltl_spec.specs.Formulas.Tokens.{same_name};
ghost use Rattle.ltl_spec.specs.Collections.Lists.{first_occurrences};
ghost use Rattle.ltl_spec.specs.Claims.ClaimProgram as claims;
ghost use Rattle.ltl_spec.specs.Claims.ClaimMachine as machine;
ghost use Rattle.ltl_claim.specs.ClaimFault as fault;
ghost use Rattle.ltl_claim.specs.ClaimStep as step;
ghost use Rattle.ltl_claim.specs.TokenView.{item_of, kind_of, tell_of, token_of};
ghost use Rattle.ltl_claim.specs.ProgramView.{built_of};
ghost use Rattle.ltl_claim.specs.SymbolView.{done, symbol_of, symbols_of, with_symbol};
ghost use Rattle.ltl_claim.specs.ParserView.{Does, Ends, Pushes, Takes, first_part, new_parser, only};

use crate::fault::ClaimFaultKind;
use crate::program::Program;
use crate::symbol::{Action, Symbol};
use crate::token::{Token, TokenKind};
use indexmap::IndexSet;
use ltl_names::{PROPOSITION_LIMIT, is_proposition};
use std::alloc::{AllocError, Allocator};
use std::hash::{BuildHasherDefault, FoldHasher};
use std::marker::Model;

/// The largest number of statements in a claim.
pub(crate) const MOST_STATEMENTS: usize = 65_536;

/// Names, numbered by first occurrence.
pub(crate) type NameSet<'t, 'a, A> = IndexSet<&'t [u8], BuildHasherDefault<FoldHasher>, &'a A>;

/// The state of the parser.
#[derive(Drop)]
pub(crate) struct Parser<'t, 'a, A: Allocator> {
    /// What may come next, the next one last.
    symbols: Vec<Symbol<'t>, &'a A>,
    program: Program<'t, 'a, A>,
    names: NameSet<'t, 'a, A>,
}

impl<'t, 'a, A: Allocator> Model for Parser<'t, 'a, A> {
    ghost use Rattle.std.specs.Prelude.{map};
    ghost use Rattle.ltl_claim.specs.ParserView.{ParserView};

    ghost Value = { ParserView };

    ghost view = { λ p. record { symbols = p.symbols.items; built = p.program; names = map (λ k. k.now) p.names.keys } };
}

impl<'t, 'a, A: Allocator> Parser<'t, 'a, A> {
    /// The state at the beginning of a text.
    pub(crate) fn new(alloc: &'a A) -> Result<Parser<'t, 'a, A>, AllocError>
        ensures { IfOk result (λ p. p ≡ new_parser) }
    {
        let mut symbols = Vec::new(alloc);
        symbols.extend_from_slice(&[
            Symbol::InCloseBrace,
            Symbol::MayMore,
            Symbol::AnItem,
            Symbol::Title,
            Symbol::InNever,
        ])?;
        Ok(Parser {
            symbols,
            program: Program::new(alloc),
            names: IndexSet::with_hasher(alloc, BuildHasherDefault::new()),
        })
    }

    /// Takes the next token, or tells why it doesn't fit. `labels` says that a colon stands behind it.
    #[tactic(auto, using(crate::proofs::ParserLaws::step_acts, crate::proofs::ParserLaws::step_stops, crate::proofs::ParserLaws::step_leaves, crate::proofs::ParserLaws::step_refuses))]
    pub(crate) fn take(
        &mut self,
        token: Token<'t>,
        labels: bool,
    ) -> Result<Option<ClaimFaultKind>, AllocError>
        ensures { Takes labels (item_of token.entry) self.old result self.new }
    {
        let mut in_list = false;
        'symbols: while let Some(symbol) = self.symbols.pop() {
            if let Symbol::Now(action) = symbol {
                if !self.act(action)? {
                    return Ok(Some(ClaimFaultKind::BadToken));
                }
                continue;
            }
            if self.expand(symbol, token, labels)? {
                return Ok(self.early(symbol, token, labels));
            }
            if !symbol.may_be_left_out() {
                return Ok(Some(self.refusal(symbol, token, labels, in_list)));
            }
            in_list = in_list || matches!(symbol, Symbol::MayAnother);
        }
        Ok(Some(ClaimFaultKind::TextAfterEnd))
    }

    /// Does what has to be done before the next token.
    #[tactic(auto, using(crate::proofs::ParserLaws::acts_does))]
    fn act(&mut self, action: Action<'t>) -> Result<bool, AllocError>
        ensures { Does (done action.entry) self.old result self.new }
    {
        match action {
            Action::Constant(value) => self.program.push_constant(value),
            Action::Name(name) => self.name(name),
            Action::Negate => self.program.negate(),
            Action::JoinAnd => self.program.join_and(),
            Action::JoinOr => self.program.join_or(),
            Action::Test(inside) => self.program.test(inside),
            Action::Check(inside) => self.program.check(inside),
            Action::Both(inside) => self.program.test_both(inside),
            Action::Label(name) => self.program.label(name),
            Action::Leave(inside) => self.program.leave(inside),
            Action::Jump(inside, name) => self.program.goto(inside, name),
            Action::Otherwise => self.program.otherwise(),
            Action::Open(loops) => self.program.open(loops),
            Action::Close => self.program.close(),
        }
    }

    /// Notes the name of a proposition, and pushes it.
    fn name(&mut self, name: &'t [u8]) -> Result<bool, AllocError>
        ensures { Does (machine.named name.now) self.old result self.new }
    {
        self.names.insert_full(name)?;
        self.program.push_name(name)?;
        Ok(true)
    }

    fn push(&mut self, symbols: &[Symbol<'t>]) -> Result<bool, AllocError>
        ensures { Pushes (Some (symbols_of symbols.now)) self.old result self.new }
    {
        self.symbols.extend_from_slice(symbols)?;
        Ok(true)
    }

    /// Pushes what has to come behind the token where it begins the symbol, or answers that it doesn't.
    fn expand(
        &mut self,
        symbol: Symbol<'t>,
        token: Token<'t>,
        labels: bool,
    ) -> Result<bool, AllocError>
        ensures { Pushes (step.behind_item labels (symbol_of symbol.entry) (item_of token.entry)) self.old result self.new }
    {
        match symbol {
            Symbol::Title => self.title(token),
            Symbol::AnItem => self.item(token, labels),
            Symbol::AStatement => self.statement(token, labels),
            Symbol::MayMore => self.more(token),
            Symbol::MayAnother => self.more_or_another(token, labels),
            Symbol::Options | Symbol::MayOptions => self.options(token),
            Symbol::AFirst => self.first(token),
            Symbol::JumpTo(inside) => self.target(inside, token),
            Symbol::AGuard => self.guard(token),
            Symbol::AnOperand => self.operand(token),
            Symbol::MayConjunct => self.conjunct(token),
            Symbol::MayDisjunct => self.disjunct(token),
            Symbol::Separators | Symbol::MaySeparators => self.separators(token),
            _ => Ok(symbol.alone() == Some(token.kind)),
        }
    }

    /// The name of the claim, or the brace behind it.
    fn title(&mut self, token: Token<'t>) -> Result<bool, AllocError>
        ensures { Pushes (only (tell_of token.entry.kind) (machine.behind false machine.Title (token_of token.entry.word.now token.entry.kind))) self.old result self.new }
    {
        match token.kind {
            TokenKind::Word => self.push(&[Symbol::InOpenBrace]),
            TokenKind::OpenBrace => Ok(true),
            _ => Ok(false),
        }
    }

    /// A separator in a list.
    fn more(&mut self, token: Token<'t>) -> Result<bool, AllocError>
        ensures { Pushes (only (tell_of token.entry.kind) (machine.behind false machine.More (token_of token.entry.word.now token.entry.kind))) self.old result self.new }
    {
        match token.kind {
            TokenKind::Semicolon | TokenKind::Arrow => self.push(&[Symbol::MayAnother]),
            _ => Ok(false),
        }
    }

    /// One more separator, or an item behind it.
    #[tactic(auto, using(crate::proofs::ParserLaws::another_other))]
    fn more_or_another(&mut self, token: Token<'t>, labels: bool) -> Result<bool, AllocError>
        ensures { Pushes (only (tell_of token.entry.kind) (machine.behind labels machine.Another (token_of token.entry.word.now token.entry.kind)))
            self.old result self.new }
    {
        match token.kind {
            TokenKind::Semicolon | TokenKind::Arrow => self.push(&[Symbol::MayAnother]),
            _ => self.another(token, labels),
        }
    }

    fn options(&mut self, token: Token<'t>) -> Result<bool, AllocError>
        ensures { Pushes (only (tell_of token.entry.kind) (machine.behind false machine.Options (token_of token.entry.word.now token.entry.kind))) self.old result self.new }
    {
        match token.kind {
            TokenKind::OptionSign => {
                self.push(&[Symbol::MayOptions, Symbol::MayMore, Symbol::AFirst])
            }
            _ => Ok(false),
        }
    }

    /// The word behind a `goto`.
    fn target(&mut self, inside: bool, token: Token<'t>) -> Result<bool, AllocError>
        ensures { Pushes (only (tell_of token.entry.kind) (machine.behind false (machine.JumpTo inside) (token_of token.entry.word.now token.entry.kind)))
            self.old result self.new }
    {
        match token.kind {
            TokenKind::Word => self.push(&[Symbol::Now(Action::Jump(inside, token.word))]),
            _ => Ok(false),
        }
    }

    fn conjunct(&mut self, token: Token<'t>) -> Result<bool, AllocError>
        ensures { Pushes (only (tell_of token.entry.kind) (machine.behind false machine.Conjunct (token_of token.entry.word.now token.entry.kind))) self.old result self.new }
    {
        match token.kind {
            TokenKind::AndSign => self.push(&[
                Symbol::MayConjunct,
                Symbol::Now(Action::JoinAnd),
                Symbol::AnOperand,
            ]),
            _ => Ok(false),
        }
    }

    fn disjunct(&mut self, token: Token<'t>) -> Result<bool, AllocError>
        ensures { Pushes (only (tell_of token.entry.kind) (machine.behind false machine.Disjunct (token_of token.entry.word.now token.entry.kind))) self.old result self.new }
    {
        match token.kind {
            TokenKind::OrSign => self.push(&[
                Symbol::MayDisjunct,
                Symbol::Now(Action::JoinOr),
                Symbol::MayConjunct,
                Symbol::AnOperand,
            ]),
            _ => Ok(false),
        }
    }

    fn separators(&mut self, token: Token<'t>) -> Result<bool, AllocError>
        ensures { Pushes (only (tell_of token.entry.kind) (machine.behind false machine.Separators (token_of token.entry.word.now token.entry.kind))) self.old result self.new }
    {
        match token.kind {
            TokenKind::Semicolon | TokenKind::Arrow => self.push(&[Symbol::MaySeparators]),
            _ => Ok(false),
        }
    }

    /// What comes behind a token that begins an item, unless it begins none.
    #[tactic(auto, using(crate::proofs::ParserLaws::item_other))]
    fn item(&mut self, token: Token<'t>, labels: bool) -> Result<bool, AllocError>
        ensures { Pushes (only (tell_of token.entry.kind) (machine.item labels (token_of token.entry.word.now token.entry.kind))) self.old result self.new }
    {
        match token.kind {
            TokenKind::Goto => self.push(&[Symbol::JumpTo(false)]),
            TokenKind::Break => self.push(&[Symbol::Now(Action::Leave(false))]),
            _ => self.statement(token, labels),
        }
    }

    /// The same for an item behind a separator, and more of them.
    #[tactic(auto, using(crate::proofs::ParserLaws::none_pushed))]
    fn another(&mut self, token: Token<'t>, labels: bool) -> Result<bool, AllocError>
        ensures { Pushes (only (tell_of token.entry.kind) (machine.with_more (machine.May machine.More ∷ []) (machine.item labels (token_of token.entry.word.now token.entry.kind))))
            self.old result self.new }
    {
        if !begins_item(token, labels) {
            return Ok(false);
        }
        self.push(&[Symbol::MayMore])?;
        self.item(token, labels)
    }

    #[tactic(auto, using(crate::proofs::ParserLaws::statement_other))]
    fn statement(&mut self, token: Token<'t>, labels: bool) -> Result<bool, AllocError>
        ensures { Pushes (only (tell_of token.entry.kind) (machine.statement labels (token_of token.entry.word.now token.entry.kind))) self.old result self.new }
    {
        match token.kind {
            TokenKind::Word if labels => self.push(&[
                Symbol::AStatement,
                Symbol::Now(Action::Label(token.word)),
                Symbol::InColon,
            ]),
            TokenKind::If => self.push(&[
                Symbol::Now(Action::Close),
                Symbol::InFi,
                Symbol::Options,
                Symbol::Now(Action::Open(false)),
            ]),
            TokenKind::Do => self.push(&[
                Symbol::Now(Action::Close),
                Symbol::InOd,
                Symbol::Options,
                Symbol::Now(Action::Open(true)),
            ]),
            _ => self.head(false, token),
        }
    }

    #[tactic(auto, using(crate::proofs::ParserLaws::first_other))]
    fn first(&mut self, token: Token<'t>) -> Result<bool, AllocError>
        ensures { Pushes (only (tell_of token.entry.kind) (first_part (token_of token.entry.word.now token.entry.kind))) self.old result self.new }
    {
        match token.kind {
            TokenKind::Goto => self.push(&[Symbol::JumpTo(true)]),
            TokenKind::Break => self.push(&[Symbol::Now(Action::Leave(true))]),
            TokenKind::Else => self.push(&[Symbol::Now(Action::Otherwise)]),
            _ => self.head(true, token),
        }
    }

    #[tactic(auto, using(crate::proofs::ParserLaws::none_pushed))]
    fn head(&mut self, inside: bool, token: Token<'t>) -> Result<bool, AllocError>
        ensures { Pushes (only (tell_of token.entry.kind) (machine.head inside (token_of token.entry.word.now token.entry.kind))) self.old result self.new }
    {
        match token.kind {
            TokenKind::Assert => self.push(&[
                Symbol::Now(Action::Check(inside)),
                Symbol::InCloseBracket,
                Symbol::AGuard,
                Symbol::InOpenBracket,
            ]),
            TokenKind::Atomic => self.push(&[
                Symbol::Now(Action::Both(inside)),
                Symbol::InCloseBrace,
                Symbol::MaySeparators,
                Symbol::InCloseBracket,
                Symbol::AGuard,
                Symbol::InOpenBracket,
                Symbol::InAssert,
                Symbol::Separators,
                Symbol::AGuard,
                Symbol::InOpenBrace,
            ]),
            _ => {
                if !begins_operand(token) {
                    return Ok(false);
                }
                self.push(&[Symbol::Now(Action::Test(inside))])?;
                self.guard(token)
            }
        }
    }

    #[tactic(auto, using(crate::proofs::ParserLaws::none_pushed))]
    fn guard(&mut self, token: Token<'t>) -> Result<bool, AllocError>
        ensures { Pushes (only (tell_of token.entry.kind) (machine.guard (token_of token.entry.word.now token.entry.kind))) self.old result self.new }
    {
        if !begins_operand(token) {
            return Ok(false);
        }
        self.push(&[Symbol::MayDisjunct, Symbol::MayConjunct])?;
        self.operand(token)
    }

    #[tactic(auto, using(crate::proofs::ParserLaws::operand_none))]
    fn operand(&mut self, token: Token<'t>) -> Result<bool, AllocError>
        ensures { Pushes (only (tell_of token.entry.kind) (machine.operand (token_of token.entry.word.now token.entry.kind))) self.old result self.new }
    {
        match token.kind {
            TokenKind::NotSign => self.push(&[Symbol::Now(Action::Negate), Symbol::AnOperand]),
            TokenKind::OpenBracket => self.push(&[Symbol::InCloseBracket, Symbol::AGuard]),
            TokenKind::Truth(value) => self.push(&[Symbol::Now(Action::Constant(value))]),
            TokenKind::Word if is_proposition(token.word) => {
                self.push(&[Symbol::Now(Action::Name(token.word))])
            }
            _ => Ok(false),
        }
    }

    /// Whether a token that fits has a fault nevertheless: what it begins would be refused later, or passes a limit.
    fn early(&self, symbol: Symbol<'t>, token: Token<'t>, labels: bool) -> Option<ClaimFaultKind>
        ensures { (all : List Name) → self.now.names ≡ first_occurrences same_name all → option_map kind_of result
            ≡ step.fitting_fault labels (step.begins_item (symbol_of symbol.entry)) (symbol_of symbol.entry) (token_of token.entry.word.now token.entry.kind) (built_of all self.now.built) }
    {
        match token.kind {
            TokenKind::Word => self.word_fault(symbol, token.word, labels),
            TokenKind::Semicolon | TokenKind::Arrow | TokenKind::Goto => None,
            TokenKind::Break => self.leave_fault(),
            TokenKind::Else => self.else_fault(symbol),
            _ => self.number_fault(symbol),
        }
    }

    /// The same for a word.
    fn word_fault(&self, symbol: Symbol<'t>, word: &[u8], labels: bool) -> Option<ClaimFaultKind>
        ensures { (all : List Name) → self.now.names ≡ first_occurrences same_name all → option_map kind_of result
            ≡ step.word_fault labels (step.begins_item (symbol_of symbol.entry)) (symbol_of symbol.entry) word.now (built_of all self.now.built) }
    {
        if labels {
            return self.labelled_fault(symbol, word);
        }
        self.plain_fault(symbol, word)
    }

    /// The same for a word with a colon behind it.
    fn labelled_fault(&self, symbol: Symbol<'t>, word: &[u8]) -> Option<ClaimFaultKind>
        ensures { (all : List Name) → self.now.names ≡ first_occurrences same_name all → option_map kind_of result
            ≡ step.word_fault true (step.begins_item (symbol_of symbol.entry)) (symbol_of symbol.entry) word.now (built_of all self.now.built) }
    {
        if symbol.begins_item() {
            return self.label_fault(word);
        }
        if symbol.is_first() {
            return Some(ClaimFaultKind::Unsupported);
        }
        self.plain_fault(symbol, word)
    }

    /// The same for a word without one.
    fn plain_fault(&self, symbol: Symbol<'t>, word: &[u8]) -> Option<ClaimFaultKind>
        ensures { (all : List Name) → self.now.names ≡ first_occurrences same_name all → option_map kind_of result
            ≡ step.word_fault false (step.begins_item (symbol_of symbol.entry)) (symbol_of symbol.entry) word.now (built_of all self.now.built) }
    {
        if self.is_full_at(symbol) {
            return Some(ClaimFaultKind::LimitPassed);
        }
        if self.is_past_at(symbol, word) {
            return Some(ClaimFaultKind::LimitPassed);
        }
        None
    }

    /// The same for a `break`.
    fn leave_fault(&self) -> Option<ClaimFaultKind>
        ensures { (all : List Name) → option_map kind_of result ≡ (if machine.may_leave claims.Leave (built_of all self.now.built) then None else Some fault.BreakOutsideOfDo) }
    {
        if self.program.may_leave() {
            return None;
        }
        Some(ClaimFaultKind::BreakOutsideOfDo)
    }

    /// The same for an `else`.
    fn else_fault(&self, symbol: Symbol<'t>) -> Option<ClaimFaultKind>
        ensures { (all : List Name) → option_map kind_of result ≡ step.else_fault (step.begins_item (symbol_of symbol.entry)) (symbol_of symbol.entry) (built_of all self.now.built) }
    {
        if !symbol.is_first() {
            return self.number_fault(symbol);
        }
        if self.program.has_otherwise() {
            return Some(ClaimFaultKind::ElseTwice);
        }
        None
    }

    /// The same for a token that begins a statement.
    fn number_fault(&self, symbol: Symbol<'t>) -> Option<ClaimFaultKind>
        ensures { (all : List Name) → option_map kind_of result ≡ step.number_fault (step.begins_item (symbol_of symbol.entry)) (built_of all self.now.built) }
    {
        if self.is_full_at(symbol) {
            return Some(ClaimFaultKind::LimitPassed);
        }
        None
    }

    /// Whether a statement may begin at the symbol, and there may be no more of them.
    #[tactic(auto, using(crate::proofs::ParserLaws::and_then, crate::proofs::ParserLaws::and_else))]
    fn is_full_at(&self, symbol: Symbol<'t>) -> bool
        ensures { (all : List Name) → result ≡ (step.begins_item (symbol_of symbol.entry) && step.is_full (built_of all self.now.built)) }
    {
        symbol.begins_item() && self.is_full()
    }

    /// Whether an operand may begin at the symbol, and the name is one too many.
    #[tactic(auto, using(crate::proofs::ParserLaws::and_then, crate::proofs::ParserLaws::and_else))]
    fn is_past_at(&self, symbol: Symbol<'t>, name: &[u8]) -> bool
        ensures { (all : List Name) → self.now.names ≡ first_occurrences same_name all
            → result ≡ (step.begins_operand (symbol_of symbol.entry) && step.is_past name.now (built_of all self.now.built)) }
    {
        symbol.begins_operand() && self.is_past(name)
    }

    /// Whether there may be no more statements.
    #[tactic(auto, using(crate::proofs::ParserLaws::full_view))]
    fn is_full(&self) -> bool
        ensures { (all : List Name) → result ≡ step.is_full (built_of all self.now.built) }
    {
        self.program.len() >= MOST_STATEMENTS
    }

    /// Whether the name is new, and there may be no more of them.
    fn is_past(&self, name: &[u8]) -> bool
        ensures { (all : List Name) → self.now.names ≡ first_occurrences same_name all → result ≡ step.is_past name.now (built_of all self.now.built) }
    {
        self.names.len() >= PROPOSITION_LIMIT && !self.names.contains(name)
    }

    fn label_fault(&self, name: &[u8]) -> Option<ClaimFaultKind>
        ensures { (all : List Name) → option_map kind_of result ≡ step.label_fault name.now (built_of all self.now.built) }
    {
        if self.program.is_label(name) {
            Some(ClaimFaultKind::LabelTwice)
        } else if name.starts_with(b"end") {
            Some(ClaimFaultKind::Unsupported)
        } else {
            None
        }
    }

    /// Why a token doesn't fit where the symbol has to come. `in_list` says that an item might have begun with it, too.
    fn refusal(
        &self,
        symbol: Symbol<'t>,
        token: Token<'t>,
        labels: bool,
        in_list: bool,
    ) -> ClaimFaultKind
        ensures { kind_of result ≡ step.refusal labels in_list (symbol_of symbol.entry) (symbols_of self.now.symbols) (item_of token.entry) }
    {
        if let Some(kind) = self.place_fault(symbol) {
            return kind;
        }
        if let Some(kind) = tell_fault(symbol, token.kind) {
            return kind;
        }
        let symbol = if in_list { Symbol::AnItem } else { symbol };
        token_fault(symbol, token.kind, labels)
    }

    /// Why any token is refused there, if they all are for the same reason.
    fn place_fault(&self, symbol: Symbol<'t>) -> Option<ClaimFaultKind>
        ensures { option_map kind_of result ≡ step.place_fault (symbol_of symbol.entry) (symbols_of self.now.symbols) }
    {
        match (symbol, self.symbols.last()) {
            (Symbol::InNever | Symbol::Title, _) | (Symbol::InOpenBrace, Some(Symbol::AnItem)) => {
                Some(ClaimFaultKind::NotANeverClaim)
            }
            (Symbol::InAssert, _) | (Symbol::InCloseBrace, Some(_)) => {
                Some(ClaimFaultKind::Unsupported)
            }
            _ => None,
        }
    }

    /// Why a text of this length can't end here, unless it can.
    pub(crate) fn end(&mut self, length: usize) -> Result<Option<ClaimFaultKind>, AllocError>
        ensures { Ends length self.old result self.new }
    {
        if self.symbols.is_empty() {
            return Ok(None);
        }
        let nothing = Token {
            kind: TokenKind::Broken,
            word: b"",
            at: length,
        };
        match self.take(nothing, false)? {
            Some(kind) => Ok(Some(kind)),
            None => Ok(Some(ClaimFaultKind::BadToken)),
        }
    }

    pub(crate) fn program(&self) -> &Program<'t, 'a, A>
        ensures { result.now ≡ self.now.built }
    {
        &self.program
    }

    /// The program of a whole claim, and its names.
    pub(crate) fn into_parts(self) -> (Program<'t, 'a, A>, NameSet<'t, 'a, A>)
        ensures program { result.0 ≡ self.entry.built }
        ensures names { map (λ k. k.now) result.1.keys ≡ self.entry.names }
    {
        let Parser {
            symbols: _,
            program,
            names,
        } = self;
        (program, names)
    }
}

/// Why the token is refused by itself, or the arrow of a conditional expression.
fn tell_fault(symbol: Symbol<'_>, kind: TokenKind) -> Option<ClaimFaultKind>
    ensures { option_map kind_of result ≡ step.tell_fault (symbol_of symbol.entry) (tell_of kind) }
{
    match (symbol, kind) {
        (_, TokenKind::Foreign | TokenKind::Unequal) => Some(ClaimFaultKind::Unsupported),
        (_, TokenKind::Broken) => Some(ClaimFaultKind::BadToken),
        (Symbol::InCloseBracket, TokenKind::Arrow) => Some(ClaimFaultKind::Unsupported),
        _ => None,
    }
}

/// Why another token is refused.
fn token_fault(symbol: Symbol<'_>, kind: TokenKind, labels: bool) -> ClaimFaultKind
    ensures { (word : Name) → kind_of result ≡ step.token_fault labels (symbol_of symbol.entry) (token_of word kind) }
{
    match (symbol, kind) {
        (Symbol::AnItem | Symbol::AStatement | Symbol::AFirst, TokenKind::OpenBrace) => {
            ClaimFaultKind::Unsupported
        }
        (
            Symbol::AStatement,
            TokenKind::Goto
            | TokenKind::Break
            | TokenKind::OptionSign
            | TokenKind::Fi
            | TokenKind::Od
            | TokenKind::CloseBrace,
        ) => ClaimFaultKind::Unsupported,
        (Symbol::AFirst, TokenKind::If | TokenKind::Do) => ClaimFaultKind::Unsupported,
        (Symbol::AFirst, TokenKind::Word) if labels => ClaimFaultKind::Unsupported,
        (
            Symbol::AnItem
            | Symbol::AStatement
            | Symbol::AFirst
            | Symbol::AGuard
            | Symbol::AnOperand,
            TokenKind::Word,
        ) => ClaimFaultKind::BadName,
        _ => ClaimFaultKind::BadToken,
    }
}

/// Whether the token begins an operand.
fn begins_operand(token: Token<'_>) -> bool
    ensures { result ≡ is_some (only (tell_of token.entry.kind) (machine.operand (token_of token.entry.word.now token.entry.kind))) }
{
    match token.kind {
        TokenKind::NotSign | TokenKind::OpenBracket | TokenKind::Truth(_) => true,
        TokenKind::Word => is_proposition(token.word),
        _ => false,
    }
}

/// Whether the token begins an item of a list.
#[tactic(auto, using(crate::proofs::ParserLaws::item_begins, crate::proofs::ParserLaws::word_begins))]
fn begins_item(token: Token<'_>, labels: bool) -> bool
    ensures { result ≡ is_some (only (tell_of token.entry.kind) (machine.item labels (token_of token.entry.word.now token.entry.kind))) }
{
    match token.kind {
        TokenKind::Goto
        | TokenKind::Break
        | TokenKind::If
        | TokenKind::Do
        | TokenKind::Assert
        | TokenKind::Atomic => true,
        TokenKind::Word => labels || is_proposition(token.word),
        _ => begins_operand(token),
    }
}
