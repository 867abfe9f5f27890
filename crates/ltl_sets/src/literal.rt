//! Literals.

/// A proposition, or its negation.
#[derive(Clone, Copy, Debug, PartialEq, Eq, Hash)]
pub struct Literal {
    /// The number of the proposition.
    pub proposition: usize,
    /// Whether the literal is the proposition itself, not its negation.
    pub positive: bool,
}
