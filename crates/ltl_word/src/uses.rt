//! The last uses of the nodes of a formula, by which rows are dropped early.

ghost use Rattle.std.specs.Prelude.{◌≡◌, ℕ, ◌<◌, ◌≤◌, length, slice_index_or, IfOk};
ghost use Rattle.ltl_syntax.specs.FormulaView.{StandsAt};
ghost use Rattle.ltl_word.specs.Uses.{AreLastUses, IsUsedAt};

use ltl_syntax::{Formula, Node};
use std::alloc::{AllocError, Allocator};

/// Records node `i` as the last one that uses its operands.
fn note<A: Allocator>(last_uses: &mut Vec<usize, &A>, i: usize, node: Node)
    requires stands { (count : ℕ) × StandsAt count i node }
    requires within { i < length last_uses.old.items }
    ensures long { length last_uses.new.items ≡ length last_uses.old.items }
    ensures used { IsUsedAt last_uses.new.items i node }
    ensures kept { (k j : ℕ) → j ≤ i → j ≤ slice_index_or last_uses.old.items k 0 → j ≤ slice_index_or last_uses.new.items k 0 }
{
    match node {
        Node::Constant(_) | Node::Proposition(_) => {}
        Node::Unary(_, a) => last_uses[a] = i,
        Node::Binary(_, a, b) => {
            last_uses[a] = i;
            last_uses[b] = i;
        }
    }
}

/// For each node the number of the last node that has it as an operand. That of the whole formula is the number of nodes, since its row is needed at
/// the end.
pub(crate) fn last_uses<'a, A: Allocator, B: Allocator>(
    alloc: &'a A,
    formula: &Formula<'_, B>,
) -> Result<Vec<usize, &'a A>, AllocError>
    ensures { IfOk result (λ last_uses. AreLastUses formula.now.nodes last_uses.items) }
{
    let count = formula.len();
    let mut last_uses = Vec::with_capacity(alloc, count)?;
    for _ in 0..count {
        last_uses.push(0)?;
    }
    for i in 0..count {
        note(&mut last_uses, i, formula.node(i));
    }
    last_uses[count - 1] = count;
    Ok(last_uses)
}
