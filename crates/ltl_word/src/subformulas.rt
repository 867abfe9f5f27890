//! Evaluation of all subformulas of a formula.

ghost use Rattle.std.specs.Prelude.{◌<◌, length, IfOk};
ghost use Rattle.ltl_syntax.specs.FormulaView.{StandsAt, tree_of, trees};
ghost use Rattle.ltl_word.specs.Evaluation.{IsRowOf};
ghost use Rattle.ltl_word.specs.SubformulaRows.{AreFirstRows, AreSubformulaRows};

use crate::bits::Bits;
use crate::evaluation::{binary_row, unary_row};
use crate::lasso::Lasso;
use ltl_syntax::{Formula, Node};
use std::alloc::{AllocError, Allocator};

/// The row of a node, from those of all nodes before it.
fn subformula_row<'a, A: Allocator, B: Allocator, C: Allocator>(
    alloc: &'a A,
    formula: &Formula<'_, B>,
    word: &Lasso<'_, C>,
    rows: &[Bits<'a, A>],
    node: Node,
) -> Result<Bits<'a, A>, AllocError>
    requires stands { StandsAt (length formula.now.names) (length rows.now) node }
    requires rows { AreFirstRows formula.now word.now rows.now }
    ensures { IfOk result (λ row. IsRowOf formula.now.names word.now (tree_of (trees formula.now.nodes) node) row) }
{
    match node {
        Node::Constant(value) => Bits::all(alloc, word.len(), value),
        Node::Proposition(p) => word.row_of_name(alloc, formula.name(p).as_bytes()),
        Node::Unary(operator, a) => unary_row(alloc, word, operator, &rows[a]),
        Node::Binary(operator, a, b) => binary_row(alloc, word, operator, &rows[a], &rows[b]),
    }
}

/// For each node of the formula, the positions of the word where its subformula holds, as a bit vector. Memory is one bit for each position and each
/// node.
pub fn subformula_rows<'a, A: Allocator, B: Allocator, C: Allocator>(
    alloc: &'a A,
    formula: &Formula<'_, B>,
    word: &Lasso<'_, C>,
) -> Result<Vec<Bits<'a, A>, &'a A>, AllocError>
    ensures { IfOk result (λ rows. AreSubformulaRows formula.now word.now rows.items) }
{
    let mut rows = Vec::new(alloc);
    for i in 0..formula.len() {
        let row = subformula_row(alloc, formula, word, rows.as_slice(), formula.node(i))?;
        rows.push(row)?;
    }
    Ok(rows)
}
