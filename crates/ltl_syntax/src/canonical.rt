//! The printer of formulas: the canonical text, with brackets around each binary operator.

ghost use Rattle.std.specs.Prelude.{◌≡◌, ◌+◌, ◌++◌, ◌<◌, All, IfOk, OnOk, length, map, string_bytes, sum_by};
ghost use Rattle.ltl_spec.specs.Formulas.Canonical as spec;
ghost use Rattle.ltl_syntax.specs.FormulaView.{binary_of, trees, unary_of, whole_tree};
ghost use Rattle.ltl_syntax.specs.CanonicalWork.{HasOperands, Points, stack_text, weight, work_text};

use crate::operators::{BinaryOperator, Node, UnaryOperator};
use smallvec::SmallVec;
use std::alloc::{AllocError, Allocator};

/// A part of the text that is still to be written.
#[derive(Clone, Copy, Default)]
enum Task {
    Visit(usize),
    Middle(BinaryOperator),
    #[default]
    Close,
}

/// The stack of what is still to be written. Up to 32 entries are stored without an allocation.
type Tasks<'a, A> = SmallVec<Task, 32, &'a A>;

/// The canonical text of a constant.
pub fn constant_text(value: bool) -> &'static [u8]
    ensures { result.now ≡ spec.constant_text value }
{
    if value { b"true" } else { b"false" }
}

/// The canonical text of a prefix operator, which precedes that of its operand.
pub fn unary_text(operator: UnaryOperator) -> &'static [u8]
    ensures { result.now ≡ spec.unary_text (unary_of operator) }
{
    match operator {
        UnaryOperator::Not => b"!",
        UnaryOperator::Next => b"X ",
        UnaryOperator::Always => b"[]",
        UnaryOperator::Eventually => b"<>",
    }
}

/// The canonical text of an infix operator, with a blank on each side. It stands between those of its operands.
pub fn binary_text(operator: BinaryOperator) -> &'static [u8]
    ensures { result.now ≡ spec.binary_text (binary_of operator) }
{
    match operator {
        BinaryOperator::And => b" && ",
        BinaryOperator::Or => b" || ",
        BinaryOperator::Implies => b" -> ",
        BinaryOperator::Iff => b" <-> ",
        BinaryOperator::Until => b" U ",
        BinaryOperator::Release => b" V ",
    }
}

/// Writes the beginning of a node, and pushes what follows it. A chain of prefix operators is written whole, and takes no entry of the stack.
fn visit<A: Allocator>(
    nodes: &[Node],
    names: &[String<&A>],
    i: usize,
    text: &mut Vec<u8, &A>,
    stack: &mut Tasks<'_, A>,
) -> Result<(), AllocError>
    requires ordered { HasOperands (length names.now) nodes.now }
    requires within { i < length nodes.now }
    requires all_point { All (Points (length nodes.now)) stack.old.items }
    ensures points { OnOk result (All (Points (length nodes.now)) stack.new.items) }
    ensures text { OnOk result (let names = map string_bytes names.now in
        text.new.items ++ stack_text names (trees nodes.now) stack.new.items
        ≡ text.old.items ++ (work_text names (trees nodes.now) (Task.Visit i) ++ stack_text names (trees nodes.now) stack.old.items)) }
    ensures falls { OnOk result (sum_by (weight (trees nodes.now)) stack.new.items
        < weight (trees nodes.now) (Task.Visit i) + sum_by (weight (trees nodes.now)) stack.old.items) }
{
    let mut i = i;
    'prefixes: loop {
        match nodes[i] {
            Node::Constant(value) => return text.extend_from_slice(constant_text(value)),
            Node::Proposition(number) => return text.extend_from_slice(names[number].as_bytes()),
            Node::Unary(operator, operand) => {
                text.extend_from_slice(unary_text(operator))?;
                i = operand;
            }
            Node::Binary(operator, left, right) => {
                text.push(b'(')?;
                return stack.extend_from_slice(&[
                    Task::Close,
                    Task::Visit(right),
                    Task::Middle(operator),
                    Task::Visit(left),
                ]);
            }
        }
    }
}

/// Writes an entry of the stack, or its beginning, and pushes what follows.
fn step<A: Allocator>(
    nodes: &[Node],
    names: &[String<&A>],
    work: Task,
    text: &mut Vec<u8, &A>,
    stack: &mut Tasks<'_, A>,
) -> Result<(), AllocError>
    requires ordered { HasOperands (length names.now) nodes.now }
    requires points { Points (length nodes.now) work }
    requires all_point { All (Points (length nodes.now)) stack.old.items }
    ensures points { OnOk result (All (Points (length nodes.now)) stack.new.items) }
    ensures text { OnOk result (let names = map string_bytes names.now in
        text.new.items ++ stack_text names (trees nodes.now) stack.new.items
        ≡ text.old.items ++ (work_text names (trees nodes.now) work ++ stack_text names (trees nodes.now) stack.old.items)) }
    ensures falls { OnOk result (sum_by (weight (trees nodes.now)) stack.new.items
        < weight (trees nodes.now) work + sum_by (weight (trees nodes.now)) stack.old.items) }
{
    match work {
        Task::Middle(operator) => text.extend_from_slice(binary_text(operator)),
        Task::Close => text.extend_from_slice(b")"),
        Task::Visit(i) => visit(nodes, names, i, text, stack),
    }
}

/// The canonical text of the last node. The node tree is walked by an explicit stack.
pub(crate) fn canonical<'a, A: Allocator>(
    alloc: &'a A,
    nodes: &[Node],
    names: &[String<&'a A>],
) -> Result<Vec<u8, &'a A>, AllocError>
    requires some { 0 < length nodes.now }
    requires ordered { HasOperands (length names.now) nodes.now }
    ensures { IfOk result (λ text. text.items ≡ spec.formula_text (map string_bytes names.now) (whole_tree nodes.now)) }
{
    let mut stack: Tasks<'a, A> = SmallVec::from_slice(alloc, &[Task::Visit(nodes.len() - 1)])?;
    // Most texts have at most eight bytes for each node.
    let mut text = Vec::with_capacity(alloc, nodes.len().saturating_mul(8))?;
    'work: while let Some(work) = stack.pop() {
        step(nodes, names, work, &mut text, &mut stack)?;
    }
    Ok(text)
}
