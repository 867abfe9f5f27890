//! An operator-precedence parser with one explicit stack, in one pass over the tokens.

ghost use Rattle.std.specs.Prelude.{◌≡◌, ℕ, ◌<◌, ◌≤◌, [], ◌∷◌, ◌++◌, true, false, length, map, slice_range, if◌then◌else◌, List, IfOk, OnOk, MatchResult};
ghost use Rattle.std.specs.List.{list_any};
ghost use Rattle.ltl_spec.specs.Formulas.Grammar.{rank_of};
ghost use Rattle.ltl_spec.specs.Formulas.Tokens as tokens;
ghost use Rattle.ltl_spec.specs.Semantics.Word.{Name};
ghost use Rattle.ltl_spec.specs.Collections.Lists.{place_of, with_new};
ghost use Rattle.ltl_spec.specs.Formulas.GrammarMachine as machine;
ghost use Rattle.ltl_spec.specs.Formulas.Outline.{outline};
ghost use Rattle.ltl_spec.specs.Formulas.Outline.{kind_before};
ghost use Rattle.ltl_syntax.specs.FormulaView.{StandsAt, binary_of, operands_of, tree_of, trees, whole_tree};
ghost use Rattle.ltl_syntax.specs.TokenView.{token_of};
ghost use Rattle.ltl_syntax.specs.CanonicalWork.{HasOperands};
ghost use Rattle.ltl_syntax.specs.ParserView.{AreBelow, AreUsedOnce, FinishesAt, TakesToken, closed_node, is_bracket, frames_of, kind_of, left_of, reader_of};

use crate::fault::{FaultKind, ReadFault};
use crate::operators::{BinaryOperator, Node, UnaryOperator};
use crate::token::{Token, TokenKind};
use indexmap::IndexSet;
use smallvec::SmallVec;
use std::alloc::{AllocError, Allocator};
use std::hash::{BuildHasherDefault, FoldHasher};
use std::marker::Model;

/// Names, numbered by first occurrence.
pub(crate) type NameSet<'t, 'a, A> = IndexSet<&'t [u8], BuildHasherDefault<FoldHasher>, &'a A>;

/// An entry of the stack: an open bracket, a prefix operator that waits for its operand, or a left operand with its infix operator.
/// The number of a left operand takes 32 bits, so that an entry is small.
#[derive(Clone, Copy, Default)]
pub(crate) enum Frame {
    #[default]
    Bracket,
    Prefix(UnaryOperator),
    Pending(u32, BinaryOperator),
}

/// The stack. Up to 32 frames are stored without an allocation.
type Frames<'a, A> = SmallVec<Frame, 32, &'a A>;

/// The greatest rank, which closes every operator.
const LOOSEST: u8 = 5;

/// The rank of an operator. An operator that binds more tightly has a lower rank.
fn rank(operator: BinaryOperator) -> u8
    ensures { result ≡ rank_of (binary_of operator) }
{
    match operator {
        BinaryOperator::Until | BinaryOperator::Release => 1,
        BinaryOperator::And => 2,
        BinaryOperator::Or => 3,
        BinaryOperator::Implies => 4,
        BinaryOperator::Iff => 5,
    }
}

/// The greatest rank that the left operand may have without brackets. Implication is right-associative, the other operators are left-associative.
fn left_rank(operator: BinaryOperator) -> u8
    ensures { result ≡ machine.left_rank (binary_of operator) }
{
    match operator {
        BinaryOperator::Implies => rank(operator) - 1,
        _ => rank(operator),
    }
}

fn is_bracket(frame: Frame) -> bool
    ensures { result ≡ is_bracket frame }
{
    matches!(frame, Frame::Bracket)
}

fn has_bracket(frames: &[Frame]) -> bool
    ensures { result ≡ list_any is_bracket frames.now }
{
    frames.iter().copied().any(is_bracket)
}

/// The number in 32 bits. A number that needs more bits is reported as lack of memory.
fn narrow(number: usize) -> Result<u32, AllocError>
    ensures { IfOk result (λ n. n ≡ number) }
{
    if number > 4_294_967_295 {
        return Err(AllocError);
    }
    Ok(number as u32)
}

/// The node that the frame makes of its right operand, if the frame is a prefix operator or an infix one of at most this rank.
fn closed(frame: Frame, operand: usize, most: u8) -> Option<Node>
    ensures { result ≡ closed_node frame operand most }
{
    match frame {
        Frame::Prefix(operator) => Some(Node::Unary(operator, operand)),
        Frame::Pending(left, operator) if rank(operator) <= most => {
            Some(Node::Binary(operator, left as usize, operand))
        }
        Frame::Bracket | Frame::Pending(..) => None,
    }
}

/// Reduces the stack: each operator of at most this rank takes the last node as its operand, and becomes the last node.
fn close<A: Allocator>(
    nodes: &mut Vec<Node, &A>,
    frames: &mut Frames<'_, A>,
    most: u8,
) -> Result<(), AllocError>
    requires some { 0 < length nodes.old.items }
    requires pending { AreBelow (length nodes.old.items) frames.old.items }
    ensures closed { OnOk result (
        machine.close most (whole_tree nodes.old.items) (frames_of (trees nodes.old.items) frames.old.items)
        ≡ (whole_tree nodes.new.items, frames_of (trees nodes.new.items) frames.new.items)) }
    ensures operands { (count : ℕ) → HasOperands count nodes.old.items → HasOperands count nodes.new.items }
    ensures once { AreUsedOnce nodes.old.items frames.old.items true → AreUsedOnce nodes.new.items frames.new.items true }
    ensures pending { AreBelow (length nodes.new.items) frames.new.items }
    ensures longer { length nodes.old.items ≤ length nodes.new.items }
{
    'closing: while let Some(frame) = frames.last() {
        match closed(*frame, nodes.len() - 1, most) {
            Some(node) => nodes.push(node)?,
            None => return Ok(()),
        }
        frames.pop();
    }
    Ok(())
}

/// The state of the parser. If `has_operand` is set, a complete operand was read, and is the last node.
#[derive(Drop)]
pub(crate) struct Parser<'a, 't, A: Allocator> {
    nodes: Vec<Node, &'a A>,
    frames: Frames<'a, A>,
    names: NameSet<'t, 'a, A>,
    has_operand: bool,
}

impl<'a, 't, A: Allocator> Model for Parser<'a, 't, A> {
    ghost use Rattle.std.specs.Prelude.{map};
    ghost use Rattle.ltl_syntax.specs.ParserView.{ParserView, IsParsing};

    ghost Value = { ParserView };

    ghost view = { λ p. record { nodes = p.nodes.items; frames = p.frames.items; names = map (λ k. k.now) p.names.keys; has_operand = p.has_operand } };

    ghost invariant = { λ p. IsParsing (record {
      nodes = p.nodes.items;
      frames = p.frames.items;
      names = map (λ k. k.now) p.names.keys;
      has_operand = p.has_operand;
    }) };
}

impl<'a, 't, A: Allocator> Parser<'a, 't, A> {
    pub(crate) fn new(alloc: &'a A) -> Parser<'a, 't, A>
        ensures { result ≡ record { nodes = []; frames = []; names = []; has_operand = false } }
    {
        Parser {
            nodes: Vec::new(alloc),
            frames: SmallVec::new(alloc),
            names: IndexSet::with_hasher(alloc, BuildHasherDefault::new()),
            has_operand: false,
        }
    }

    /// Takes the next token.
    pub(crate) fn take(&mut self, text: &'t [u8], token: Token) -> Result<(), ReadFault>
        requires order { token.start ≤ token.end }
        requires within { token.end ≤ length text.now }
        ensures { TakesToken self.old (token_of (slice_range text.now token.start token.end) token.kind) token.start result self.new }
    {
        if let TokenKind::Unknown = token.kind {
            return Err(ReadFault::AtByte(token.start, FaultKind::UnexpectedByte));
        }
        if self.has_operand {
            self.take_behind_operand(token)
        } else {
            self.take_operand(text, token)
        }
    }

    /// Takes a token where an operand is expected.
    fn take_operand(&mut self, text: &'t [u8], token: Token) -> Result<(), ReadFault>
        requires wanting { self.old.has_operand ≡ false }
        requires known { token.kind ≡ TokenKind.Unknown → ⊥ }
        requires order { token.start ≤ token.end }
        requires within { token.end ≤ length text.now }
        ensures { TakesToken self.old (token_of (slice_range text.now token.start token.end) token.kind) token.start result self.new }
    {
        let pushed = match token.kind {
            TokenKind::Constant(value) => self.push_operand(Node::Constant(value)),
            TokenKind::Name => {
                let number = self.number(&text[token.start..token.end])?;
                self.push_operand(Node::Proposition(number))
            }
            TokenKind::Unary(operator) => self.push_frame(Frame::Prefix(operator)),
            TokenKind::Open => self.push_frame(Frame::Bracket),
            _ => return Err(ReadFault::AtByte(token.start, FaultKind::ExpectedOperand)),
        };
        Ok(pushed?)
    }

    /// Takes a token after a complete operand.
    fn take_behind_operand(&mut self, token: Token) -> Result<(), ReadFault>
        requires having { self.old.has_operand ≡ true }
        requires known { token.kind ≡ TokenKind.Unknown → ⊥ }
        ensures { (word : List ℕ) → TakesToken self.old (token_of word token.kind) token.start result self.new }
    {
        match token.kind {
            TokenKind::Binary(operator) => self.push_pending(operator)?,
            TokenKind::Close => {
                if !self.close_bracket()? {
                    return Err(ReadFault::AtByte(token.start, FaultKind::ExpectedOperatorOrEnd));
                }
            }
            _ => return Err(ReadFault::AtByte(token.start, self.expected())),
        }
        Ok(())
    }

    /// The number of a name. A new name gets the next number.
    fn number(&mut self, name: &'t [u8]) -> Result<usize, AllocError>
        ensures number { IfOk result (λ i. i ≡ place_of tokens.same_name name.now self.new.names) }
        ensures within { IfOk result (λ i. i < length self.new.names) }
        ensures after { OnOk result (self.new ≡ record self.old { names = with_new tokens.same_name self.old.names name.now }) }
    {
        let (number, _) = self.names.insert_full(name)?;
        Ok(number)
    }

    fn push_frame(&mut self, frame: Frame) -> Result<(), AllocError>
        requires { left_of frame ≡ [] }
        ensures { OnOk result (self.new ≡ record self.old { frames = self.old.frames ++ frame ∷ [] }) }
    {
        self.frames.push(frame)?;
        Ok(())
    }

    fn push_operand(&mut self, node: Node) -> Result<(), AllocError>
        requires wanting { self.old.has_operand ≡ false }
        requires stands { StandsAt (length self.old.names) (length self.old.nodes) node }
        requires leaf { operands_of node ≡ [] }
        ensures after { OnOk result (self.new ≡ record self.old { nodes = self.old.nodes ++ node ∷ []; has_operand = true }) }
        ensures reader { OnOk result (reader_of self.new ≡ machine.Having (tree_of (trees self.old.nodes) node)
            (frames_of (trees self.old.nodes) self.old.frames)) }
    {
        self.nodes.push(node)?;
        self.has_operand = true;
        Ok(())
    }

    /// Takes an infix operator: reduces its left operand, and pushes both.
    fn push_pending(&mut self, operator: BinaryOperator) -> Result<(), AllocError>
        requires { self.old.has_operand ≡ true }
        ensures names { OnOk result (self.new.names ≡ self.old.names) }
        ensures reader { OnOk result ((names : List Name) → machine.read_step names (reader_of self.old) (tokens.BinarySign (binary_of operator))
            ≡ Some (reader_of self.new)) }
    {
        close(&mut self.nodes, &mut self.frames, left_rank(operator))?;
        let left = narrow(self.nodes.len() - 1)?;
        self.frames.push(Frame::Pending(left, operator))?;
        self.has_operand = false;
        Ok(())
    }

    /// Takes a closing bracket. The answer is `false` if no bracket is open.
    fn close_bracket(&mut self) -> Result<bool, AllocError>
        requires { self.old.has_operand ≡ true }
        ensures names { OnOk result (self.new.names ≡ self.old.names) }
        ensures reader { IfOk result (λ b. (names : List Name) → machine.read_step names (reader_of self.old) tokens.Close
            ≡ (if b then Some (reader_of self.new) else None)) }
    {
        close(&mut self.nodes, &mut self.frames, LOOSEST)?;
        Ok(self.frames.pop().is_some_and(is_bracket))
    }

    /// The fault at a token that can't come here.
    fn expected(&self) -> FaultKind
        ensures { kind_of result ≡ kind_before (outline (reader_of self.now)) }
    {
        if !self.has_operand {
            FaultKind::ExpectedOperand
        } else if has_bracket(self.frames.as_slice()) {
            FaultKind::ExpectedCloseOrOperator
        } else {
            FaultKind::ExpectedOperatorOrEnd
        }
    }

    /// Ends the text, which has length `end`, and reduces the whole stack.
    pub(crate) fn finish(&mut self, end: usize) -> Result<(), ReadFault>
        ensures { FinishesAt self.old end result self.new }
    {
        if !self.has_operand {
            return Err(ReadFault::AtByte(end, FaultKind::ExpectedOperand));
        }
        close(&mut self.nodes, &mut self.frames, LOOSEST)?;
        if !self.frames.is_empty() {
            return Err(ReadFault::AtByte(end, FaultKind::ExpectedCloseOrOperator));
        }
        Ok(())
    }

    /// The nodes and the names.
    pub(crate) fn into_parts(self) -> (Vec<Node, &'a A>, NameSet<'t, 'a, A>)
        ensures nodes { result.0.items ≡ self.entry.nodes }
        ensures names { map (λ k. k.now) result.1.keys ≡ self.entry.names }
        ensures operands { HasOperands (length self.entry.names) self.entry.nodes }
    {
        let Parser {
            nodes,
            frames: _,
            names,
            has_operand: _,
        } = self;
        (nodes, names)
    }
}
