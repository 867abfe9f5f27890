//! Rows: the nodes of formulas in negation normal form.

use ltl_sets::Literal;

/// A formula in negation normal form: a constant, a literal or an operator. An operator has the numbers of its operands, which are smaller than the
/// row's own.
#[derive(Clone, Copy, Debug, PartialEq, Eq, Hash)]
pub enum Row {
    True,
    False,
    Literal(Literal),
    Next(usize),
    And(usize, usize),
    Or(usize, usize),
    Until(usize, usize),
    Release(usize, usize),
}
