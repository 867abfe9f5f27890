//! The subformulas of a timeline, and the positions where they hold.

ghost use Rattle.std.specs.Prelude.{◌≡◌, ◌<◌, ◌++◌, [], codes, length, map, slice_index_or, IfOk};
ghost use Rattle.std.specs.List.{list_any};
ghost use Rattle.ltl_spec.specs.Formulas.Canonical as canonical;
ghost use Rattle.ltl_spec.specs.Formulas.Tokens.{same_name};
ghost use Rattle.ltl_syntax.specs.FormulaView.{StandsAt, binary_of, tree_of, trees, unary_of};
ghost use Rattle.ltl_streams.specs.Printing.{Prints};
ghost use Rattle.ltl_pictures.specs.Timeline as spec;
ghost use Rattle.ltl_pictures.specs.Timeline.{greatest, subformula_line, texts_from};
ghost use Rattle.ltl_pictures.specs.TimelineView.{AreTexts, is_repeated};
ghost use Rattle.ltl_word.specs.Rows.{bit_of};
ghost use Rattle.ltl_word.specs.SubformulaRows.{AreSubformulaRows};

use crate::lines::put_line;
use crate::propositions::is_same;
use ltl_streams::{ByteSink, Printer};
use ltl_syntax::{
    BinaryOperator, Formula, Node, UnaryOperator, binary_text, constant_text, unary_text,
};
use ltl_word::{Bits, Lasso, subformula_rows};
use std::alloc::{AllocError, Allocator};

/// For each node of a formula, its canonical text and its bit vector.
#[derive(Drop)]
pub(crate) struct Subformulas<'a, A: Allocator> {
    texts: Vec<Vec<u8, &'a A>, &'a A>,
    rows: Vec<Bits<'a, A>, &'a A>,
}

/// The text of a prefix operator with its operand.
fn unary_node<'a, A: Allocator>(
    alloc: &'a A,
    operator: UnaryOperator,
    operand: &[u8],
) -> Result<Vec<u8, &'a A>, AllocError>
    ensures { IfOk result (λ text. text.items ≡ canonical.unary_text (unary_of operator) ++ operand.now) }
{
    let mut text = Vec::new(alloc);
    text.extend_from_slice(unary_text(operator))?;
    text.extend_from_slice(operand)?;
    Ok(text)
}

/// The text of an infix operator with its operands, in brackets.
fn binary_node<'a, A: Allocator>(
    alloc: &'a A,
    operator: BinaryOperator,
    left: &[u8],
    right: &[u8],
) -> Result<Vec<u8, &'a A>, AllocError>
    ensures { IfOk result (λ text. text.items ≡ codes "(" ++ left.now ++ canonical.binary_text (binary_of operator) ++ right.now ++ codes ")") }
{
    let mut text = Vec::new(alloc);
    text.extend_from_slice(b"(")?;
    text.extend_from_slice(left)?;
    text.extend_from_slice(binary_text(operator))?;
    text.extend_from_slice(right)?;
    text.extend_from_slice(b")")?;
    Ok(text)
}

fn copied<'a, A: Allocator>(alloc: &'a A, bytes: &[u8]) -> Result<Vec<u8, &'a A>, AllocError>
    ensures { IfOk result (λ text. text.items ≡ bytes.now) }
{
    let mut text = Vec::new(alloc);
    text.extend_from_slice(bytes)?;
    Ok(text)
}

/// The text of a node, from those of all nodes before it.
fn node_text<'a, A: Allocator, B: Allocator>(
    alloc: &'a A,
    formula: &Formula<'_, B>,
    texts: &[Vec<u8, &'a A>],
    node: Node,
) -> Result<Vec<u8, &'a A>, AllocError>
    requires stands { StandsAt (length formula.now.names) (length texts.now) node }
    requires texts { AreTexts formula.now (map (λ t. t.items) texts.now) }
    ensures { IfOk result (λ text. text.items ≡ canonical.formula_text formula.now.names (tree_of (trees formula.now.nodes) node)) }
{
    match node {
        Node::Constant(value) => copied(alloc, constant_text(value)),
        Node::Proposition(p) => copied(alloc, formula.name(p).as_bytes()),
        Node::Unary(operator, a) => unary_node(alloc, operator, texts[a].as_slice()),
        Node::Binary(operator, a, b) => {
            binary_node(alloc, operator, texts[a].as_slice(), texts[b].as_slice())
        }
    }
}

/// The texts of all nodes. Their total length is at most that of the formula's canonical text times the number of levels of its tree.
fn node_texts<'a, A: Allocator, B: Allocator>(
    alloc: &'a A,
    formula: &Formula<'_, B>,
) -> Result<Vec<Vec<u8, &'a A>, &'a A>, AllocError>
    ensures count { IfOk result (λ texts. length texts.items ≡ length formula.now.nodes) }
    ensures texts { IfOk result (λ texts. AreTexts formula.now (map (λ t. t.items) texts.items)) }
{
    let mut texts = Vec::new(alloc);
    for k in 0..formula.len() {
        let text = node_text(alloc, formula, texts.as_slice(), formula.node(k))?;
        texts.push(text)?;
    }
    Ok(texts)
}

fn is_proposition(node: Node) -> bool
    ensures { result ≡ spec.is_proposition node }
{
    match node {
        Node::Proposition(_) => true,
        Node::Constant(_) | Node::Unary(..) | Node::Binary(..) => false,
    }
}

/// Whether this is one of the texts.
fn has_text<A: Allocator>(texts: &[Vec<u8, &A>], text: &[u8]) -> bool
    ensures { result ≡ list_any (λ t. same_name text.now t.items) texts.now }
{
    texts.iter().any(|other| is_same(text, other.as_slice()))
}

impl<'a, A: Allocator> Subformulas<'a, A> {
    /// The subformulas of the formula, evaluated on the word.
    pub(crate) fn new<B: Allocator, C: Allocator>(
        alloc: &'a A,
        formula: &Formula<'_, B>,
        word: &Lasso<'_, C>,
    ) -> Result<Subformulas<'a, A>, AllocError>
        ensures count { IfOk result (λ s. length s.texts.items ≡ length formula.now.nodes) }
        ensures texts { IfOk result (λ s. AreTexts formula.now (map (λ t. t.items) s.texts.items)) }
        ensures rows { IfOk result (λ s. AreSubformulaRows formula.now word.now s.rows.items) }
    {
        let texts = node_texts(alloc, formula)?;
        let rows = subformula_rows(alloc, formula, word)?;
        Ok(Subformulas { texts, rows })
    }

    /// The length of the longest text.
    pub(crate) fn width(&self) -> usize
        ensures { result ≡ greatest (λ k. length (slice_index_or (map (λ t. t.items) self.now.texts.items) k [])) (length self.now.texts.items) }
    {
        let mut width = 0usize;
        for k in 0..self.texts.len() {
            width = width.max(self.texts[k].as_slice().len());
        }
        width
    }

    /// Whether an earlier node has the text of this one, too.
    fn is_repeated(&self, k: usize) -> bool
        requires { k < length self.now.texts.items }
        ensures { result ≡ is_repeated (map (λ t. t.items) self.now.texts.items) k }
    {
        has_text(&self.texts[..k], self.texts[k].as_slice())
    }

    /// Whether a node has no line of its own: a proposition, or a subformula that an earlier node has, too.
    fn is_left_out<B: Allocator>(&self, formula: &Formula<'_, B>, k: usize) -> bool
        requires within { k < length formula.now.nodes }
        requires count { length self.now.texts.items ≡ length formula.now.nodes }
        requires texts { AreTexts formula.now (map (λ t. t.items) self.now.texts.items) }
        ensures { result ≡ spec.is_left_out formula.now k }
    {
        if is_proposition(formula.node(k)) {
            return true;
        }
        self.is_repeated(k)
    }

    /// Writes a line for each different subformula that isn't a proposition.
    pub(crate) fn put<B: Allocator, C: Allocator, S: ByteSink>(
        &self,
        width: usize,
        formula: &Formula<'_, B>,
        word: &Lasso<'_, C>,
        out: &mut Printer<'_, S>,
    )
        requires count { length self.now.texts.items ≡ length formula.now.nodes }
        requires texts { AreTexts formula.now (map (λ t. t.items) self.now.texts.items) }
        requires rows { AreSubformulaRows formula.now word.now self.now.rows.items }
        ensures { Prints S.state out.old out.new
            (texts_from (subformula_line formula.now word.now (λ k i. bit_of (slice_index_or self.now.rows.items k []) i) width) 0 (length formula.now.nodes)) }
    {
        for k in 0..formula.len() {
            if self.is_left_out(formula, k) {
                continue;
            }
            put_line(width, word, self.texts[k].as_slice(), &self.rows[k], out);
        }
    }
}
