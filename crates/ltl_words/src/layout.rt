//! The formats of an automaton's text.

/// The format of an automaton's text.
#[derive(Clone, Copy, Debug, PartialEq, Eq)]
pub enum Layout {
    /// A never claim of Spin.
    Claim,
    /// A Büchi automaton in the Hanoi Omega-Automata format.
    Hoa,
    /// A generalized Büchi automaton in the Hanoi Omega-Automata format.
    Generalized,
}
