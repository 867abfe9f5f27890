//! The rewriting rules: local equivalences that apply when a node is built. The numbers of the operands decide them, and the right operand's node if
//! the operator is `U` or `V`.

ghost use Rattle.std.specs.Prelude.{◌≡◌, ◌<◌, ◌==◌, ◌&&◌, ℕ, length, IfOk, if◌then◌else◌};
ghost use Rattle.ltl_spec.specs.NormalForms.SharedNodes as nodes;
ghost use Rattle.ltl_spec.specs.NormalForms.SharedRewriting as law;
ghost use Rattle.ltl_formula.specs.SharedNodesView.{node_of};
ghost use Rattle.ltl_formula.specs.ChoiceView.{choice_of, IsInside};

use crate::row::Row;
use crate::shared_nodes::{BOTTOM, TOP};

/// What a rule chooses: a node of the graph, or one that may have to be added.
#[derive(Clone, Copy)]
pub enum Choice {
    Old(usize),
    New(Row),
}

/// Whether the node is `true U ..`.
fn is_eventually(node: Row) -> bool
    ensures { result ≡ law.is_eventually_node 0 (node_of node) }
{
    match node {
        Row::Until(left, _) => left == TOP,
        _ => false,
    }
}

/// Whether the node is `false V ..`.
fn is_always(node: Row) -> bool
    ensures { result ≡ law.is_always_node 1 (node_of node) }
{
    match node {
        Row::Release(left, _) => left == BOTTOM,
        _ => false,
    }
}

/// The node for `X i`. A constant stands for itself.
pub fn choose_next(rewrite: bool, i: usize) -> Choice
    ensures chosen { choice_of result ≡ (if rewrite then law.choose_next 0 1 i else law.New (nodes.NextNode i)) }
    ensures inside { (n : ℕ) → 1 < n → i < n → IsInside n result }
{
    if rewrite && (i == TOP || i == BOTTOM) {
        return Choice::Old(i);
    }
    Choice::New(Row::Next(i))
}

/// The node for `i && j`: units, zeros and equal operands are removed.
pub fn choose_and(rewrite: bool, i: usize, j: usize) -> Choice
    ensures chosen { choice_of result ≡ (if rewrite then law.choose_and 0 1 i j else law.New (nodes.AndNode i j)) }
    ensures inside { (n : ℕ) → 1 < n → i < n → j < n → IsInside n result }
{
    if !rewrite {
        return Choice::New(Row::And(i, j));
    }
    if i == TOP {
        return Choice::Old(j);
    }
    if j == TOP {
        return Choice::Old(i);
    }
    if i == BOTTOM || j == BOTTOM {
        return Choice::Old(BOTTOM);
    }
    if i == j {
        return Choice::Old(i);
    }
    Choice::New(Row::And(i, j))
}

/// The node for `i || j`: units, zeros and equal operands are removed.
pub fn choose_or(rewrite: bool, i: usize, j: usize) -> Choice
    ensures chosen { choice_of result ≡ (if rewrite then law.choose_or 0 1 i j else law.New (nodes.OrNode i j)) }
    ensures inside { (n : ℕ) → 1 < n → i < n → j < n → IsInside n result }
{
    if !rewrite {
        return Choice::New(Row::Or(i, j));
    }
    if i == BOTTOM {
        return Choice::Old(j);
    }
    if j == BOTTOM {
        return Choice::Old(i);
    }
    if i == TOP || j == TOP {
        return Choice::Old(TOP);
    }
    if i == j {
        return Choice::Old(i);
    }
    Choice::New(Row::Or(i, j))
}

/// The node for `i U j`, where `right` is node `j`. It is `j` if `j` is a constant, if `i` is `false`, if the operands are equal, or if the formula
/// is `true U (true U ..)`.
pub fn choose_until(rewrite: bool, i: usize, j: usize, right: Row) -> Choice
    ensures chosen { choice_of result ≡ (if rewrite then law.choose_until 0 1 i j (node_of right) else law.New (nodes.UntilNode i j)) }
    ensures inside { (n : ℕ) → 1 < n → i < n → j < n → IsInside n result }
{
    if !rewrite {
        return Choice::New(Row::Until(i, j));
    }
    if j == TOP || j == BOTTOM {
        return Choice::Old(j);
    }
    if i == BOTTOM || i == j {
        return Choice::Old(j);
    }
    if i == TOP && is_eventually(right) {
        return Choice::Old(j);
    }
    Choice::New(Row::Until(i, j))
}

/// The node for `i V j`, where `right` is node `j`. It is `j` in the cases dual to those of `choose_until`.
pub fn choose_release(rewrite: bool, i: usize, j: usize, right: Row) -> Choice
    ensures chosen { choice_of result ≡ (if rewrite then law.choose_release 0 1 i j (node_of right) else law.New (nodes.ReleaseNode i j)) }
    ensures inside { (n : ℕ) → 1 < n → i < n → j < n → IsInside n result }
{
    if !rewrite {
        return Choice::New(Row::Release(i, j));
    }
    if j == TOP || j == BOTTOM {
        return Choice::Old(j);
    }
    if i == TOP || i == j {
        return Choice::Old(j);
    }
    if i == BOTTOM && is_always(right) {
        return Choice::Old(j);
    }
    Choice::New(Row::Release(i, j))
}
