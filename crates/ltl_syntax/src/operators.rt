//! The operators of LTL, and the nodes of a formula.

/// A prefix operator.
#[derive(Clone, Copy, Debug, PartialEq, Eq)]
pub enum UnaryOperator {
    Not,
    Next,
    Always,
    Eventually,
}

/// An infix operator.
#[derive(Clone, Copy, Debug, PartialEq, Eq)]
pub enum BinaryOperator {
    And,
    Or,
    Implies,
    Iff,
    Until,
    Release,
}

/// A node of a formula: a constant, a proposition by its number, or an operator. An operator has the numbers of its operands, which are smaller than
/// the node's own.
#[derive(Clone, Copy, Debug, PartialEq, Eq)]
pub enum Node {
    Constant(bool),
    Proposition(usize),
    Unary(UnaryOperator, usize),
    Binary(BinaryOperator, usize, usize),
}
