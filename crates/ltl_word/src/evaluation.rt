//! Evaluation of a formula on an ultimately periodic word.

ghost use Rattle.std.specs.Prelude.{◌≡◌, ℕ, ◌<◌, ◌/◌, ◌+◌, List, false, length, IfOk, [], slice_index_or, map, Option};
ghost use Rattle.std.specs.Option.{option_map};
ghost use Rattle.std.specs.Bool.{Decides};
ghost use Rattle.ltl_spec.specs.Semantics.Word.{Name};
ghost use Rattle.ltl_spec.specs.Semantics.Satisfaction.{Satisfies};
ghost use Rattle.ltl_spec.specs.Formulas.Formula as spec;
ghost use Rattle.ltl_syntax.specs.FormulaView.{StandsAt, binary_of, reading_of, tree_of, trees, unary_of};
ghost use Rattle.ltl_word.specs.Evaluation.{AreNameRows, AreOperandRows, IsLong, IsRowIf, IsRowOf, going_of};
ghost use Rattle.ltl_word.specs.LassoView.{size};
ghost use Rattle.ltl_word.specs.Rows.{bit_of, step_of};
ghost use Rattle.ltl_word.specs.Uses.{KeepsLater, row_by};

use crate::bits::Bits;
use crate::going::Going;
use crate::lasso::Lasso;
use crate::machine_word::Junction;
use crate::uses::last_uses;
use ltl_syntax::{BinaryOperator, Formula, Node, UnaryOperator};
use std::alloc::{AllocError, Allocator};

/// For each proposition of the formula, the positions where it is true.
fn name_rows<'a, A: Allocator, B: Allocator, C: Allocator>(
    alloc: &'a A,
    formula: &Formula<'_, B>,
    word: &Lasso<'_, C>,
) -> Result<Vec<Bits<'a, A>, &'a A>, AllocError>
    ensures { IfOk result (λ rows. AreNameRows formula.now.names word.now rows.items) }
{
    let mut rows = Vec::new(alloc);
    for p in 0..formula.name_count() {
        rows.push(word.row_of_name(alloc, formula.name(p).as_bytes())?)?;
    }
    Ok(rows)
}

/// Whether the formula holds at the first position of the word. The time is proportional to the number of nodes times the number of positions, at 64
/// positions a step. Memory is one bit for each position and each proposition, and for each position and each operator or constant whose value is
/// still needed.
pub fn holds<'a, A: Allocator, B: Allocator, C: Allocator>(
    alloc: &'a A,
    formula: &Formula<'_, B>,
    word: &Lasso<'_, C>,
) -> Result<bool, AllocError>
    ensures { IfOk result (λ truth. Decides truth (Satisfies formula.now.names word.now 0 (reading_of formula.now).formula)) }
{
    let names = name_rows(alloc, formula, word)?;
    let uses = last_uses(alloc, formula)?;
    let mut rows = Vec::new(alloc);
    for i in 0..formula.len() {
        let node = formula.node(i);
        let row = node_row(
            alloc,
            formula,
            word,
            names.as_slice(),
            rows.as_slice(),
            node,
        )?;
        rows.push(row)?;
        release(alloc, &mut rows, uses.as_slice(), i, node);
    }
    let whole = operand(
        formula,
        names.as_slice(),
        rows.as_slice(),
        formula.len() - 1,
    );
    Ok(whole.get(word.first()))
}

/// Drops the row of node `k` if node `i` is the last one that uses it.
fn release_one<'a, A: Allocator>(
    alloc: &'a A,
    rows: &mut Vec<Bits<'a, A>, &'a A>,
    last_uses: &[usize],
    i: usize,
    k: usize,
)
    requires row { k < length rows.old.items }
    requires known { k < length last_uses.now }
    ensures { KeepsLater last_uses.now i rows.old.items rows.new.items }
{
    if last_uses[k] == i {
        rows[k] = Bits::none(alloc);
    }
}

/// Drops the rows of the operands of node `i` that no later node uses.
fn release<'a, A: Allocator>(
    alloc: &'a A,
    rows: &mut Vec<Bits<'a, A>, &'a A>,
    last_uses: &[usize],
    i: usize,
    node: Node,
)
    requires stands { (count : ℕ) × StandsAt count i node }
    requires rows { i < length rows.old.items }
    requires known { i < length last_uses.now }
    ensures { KeepsLater last_uses.now i rows.old.items rows.new.items }
{
    match node {
        Node::Constant(_) | Node::Proposition(_) => {}
        Node::Unary(_, a) => release_one(alloc, rows, last_uses, i, a),
        Node::Binary(_, a, b) => {
            release_one(alloc, rows, last_uses, i, a);
            release_one(alloc, rows, last_uses, i, b);
        }
    }
}

/// The row of a node. That of a proposition is shared by all nodes with the proposition.
fn operand<'r, 'a, A: Allocator, B: Allocator>(
    formula: &Formula<'_, B>,
    names: &'r [Bits<'a, A>],
    rows: &'r [Bits<'a, A>],
    k: usize,
) -> &'r Bits<'a, A>
    requires node { k < length formula.now.nodes }
    requires row { k < length rows.now }
    requires names { length names.now ≡ length formula.now.names }
    ensures { result.now ≡ row_by names.now (slice_index_or rows.now k []) (slice_index_or formula.now.nodes k (Node.Constant false)) }
{
    match formula.node(k) {
        Node::Proposition(p) => &names[p],
        Node::Constant(_) | Node::Unary(..) | Node::Binary(..) => &rows[k],
    }
}

/// The row that is stored for a node, made from those of its operands. For a proposition it is empty, since the row of `names` is used.
fn node_row<'a, A: Allocator, B: Allocator, C: Allocator>(
    alloc: &'a A,
    formula: &Formula<'_, B>,
    word: &Lasso<'_, C>,
    names: &[Bits<'a, A>],
    rows: &[Bits<'a, A>],
    node: Node,
) -> Result<Bits<'a, A>, AllocError>
    requires stands { StandsAt (length formula.now.names) (length rows.now) node }
    requires within { length rows.now < length formula.now.nodes }
    requires names { AreNameRows formula.now.names word.now names.now }
    requires rows { AreOperandRows formula.now word.now names.now rows.now node }
    ensures { IfOk result (λ own. IsRowOf formula.now.names word.now (tree_of (trees formula.now.nodes) node) (row_by names.now own node)) }
{
    match node {
        Node::Constant(value) => Bits::all(alloc, word.len(), value),
        Node::Proposition(_) => Ok(Bits::none(alloc)),
        Node::Unary(operator, a) => {
            unary_row(alloc, word, operator, operand(formula, names, rows, a))
        }
        Node::Binary(operator, a, b) => {
            let left = operand(formula, names, rows, a);
            binary_row(
                alloc,
                word,
                operator,
                left,
                operand(formula, names, rows, b),
            )
        }
    }
}

/// The row of a prefix operator, from that of its operand.
pub(crate) fn unary_row<'a, A: Allocator, C: Allocator>(
    alloc: &'a A,
    word: &Lasso<'_, C>,
    operator: UnaryOperator,
    row: &Bits<'a, A>,
) -> Result<Bits<'a, A>, AllocError>
    requires { length row.now ≡ size word.now / 64 + 1 }
    ensures { IfOk result (λ bits. (names : List Name) (F : spec.Formula) → IsRowOf names word.now F row.now
        → IsRowOf names word.now (spec.Unary (unary_of operator) F) bits) }
{
    match operator {
        UnaryOperator::Not => row.inverted(alloc),
        UnaryOperator::Next => next_row(alloc, word.stem_len(), word.len(), row),
        UnaryOperator::Always => going_row(alloc, word, None, row, true),
        UnaryOperator::Eventually => going_row(alloc, word, None, row, false),
    }
}

/// The row of `X`: the value at the next position. After the last position comes the first one of the cycle.
fn next_row<'a, A: Allocator>(
    alloc: &'a A,
    stem: usize,
    count: usize,
    row: &Bits<'a, A>,
) -> Result<Bits<'a, A>, AllocError>
    requires cycle { stem < count }
    requires long { length row.now ≡ count / 64 + 1 }
    ensures long { IfOk result (λ bits. length bits ≡ count / 64 + 1) }
    ensures bits { IfOk result (λ bits. (i : ℕ) → i < count → bit_of bits i ≡ bit_of row.now (step_of stem count i)) }
{
    let mut next = row.shifted(alloc)?;
    next.put(count - 1, row.get(stem));
    Ok(next)
}

/// The row of an infix operator, from those of its operands.
pub(crate) fn binary_row<'a, A: Allocator, C: Allocator>(
    alloc: &'a A,
    word: &Lasso<'_, C>,
    operator: BinaryOperator,
    left: &Bits<'a, A>,
    right: &Bits<'a, A>,
) -> Result<Bits<'a, A>, AllocError>
    requires left { length left.now ≡ size word.now / 64 + 1 }
    requires right { length right.now ≡ size word.now / 64 + 1 }
    ensures { IfOk result (λ bits. (names : List Name) (F G : spec.Formula) → IsRowOf names word.now F left.now → IsRowOf names word.now G right.now
        → IsRowOf names word.now (spec.Binary (binary_of operator) F G) bits) }
{
    match operator {
        BinaryOperator::And => left.with(alloc, Junction::And, right),
        BinaryOperator::Or => left.with(alloc, Junction::Or, right),
        BinaryOperator::Implies => left.with(alloc, Junction::Implies, right),
        BinaryOperator::Iff => left.with(alloc, Junction::Iff, right),
        BinaryOperator::Until => going_row(alloc, word, Some(left), right, false),
        BinaryOperator::Release => going_row(alloc, word, Some(left), right, true),
    }
}

/// The row of `left U right`, or with `negated` that of `left V right`. Without a left operand it is that of `<>right`, or with `negated` `[]right`.
fn going_row<'a, A: Allocator, C: Allocator>(
    alloc: &'a A,
    word: &Lasso<'_, C>,
    left: Option<&Bits<'a, A>>,
    right: &Bits<'a, A>,
    negated: bool,
) -> Result<Bits<'a, A>, AllocError>
    requires left { IsLong (size word.now) (option_map (λ b. b.now) left) }
    requires right { length right.now ≡ size word.now / 64 + 1 }
    ensures { IfOk result (λ bits. (names : List Name) (F : Option spec.Formula) (G : spec.Formula) → IsRowIf names word.now F (option_map (λ b. b.now) left.entry)
        → IsRowOf names word.now G right.now → IsRowOf names word.now (going_of negated F G) bits) }
{
    let going = Going {
        left,
        right,
        negated,
    };
    going.row(alloc, word.stem_len(), word.len())
}
