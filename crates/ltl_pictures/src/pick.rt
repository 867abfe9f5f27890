//! Edges of an automaton, by their indices.

/// An edge of an automaton: its source state, and its index among the edges of that state. Both are counted from 0.
#[derive(Clone, Copy, Debug, PartialEq, Eq)]
pub struct Pick {
    pub state: usize,
    pub place: usize,
}
