//! The elements of the caller's arrays.

use crate::refusal_code::RefusalCode;

/// A state: in C `struct ltl2ba_state`.
#[derive(Clone, Copy, Debug)]
#[repr(C)]
pub struct StateRow {
    /// The index of its first edge. Its edges end where those of the next state begin, or at the end of all edges.
    pub first_edge: usize,
    /// Whether it is accepting.
    pub accepting: bool,
}

/// An edge: in C `struct ltl2ba_edge`. A set has the number i if bit i % 64 of word i / 64 is set.
#[derive(Clone, Copy, Debug)]
#[repr(C)]
pub struct EdgeRow {
    /// The propositions that have to be true.
    pub asked_true: [u64; 4],
    /// The propositions that have to be false.
    pub asked_false: [u64; 4],
    /// The acceptance sets that the edge is in.
    pub sets: [u64; 4],
    /// The index of the state to which it leads.
    pub target: usize,
}

/// The first occurrence of a proposition's name in the formula's text: in C `struct ltl2ba_name`.
#[derive(Clone, Copy, Debug)]
#[repr(C)]
pub struct NameRow {
    /// The offset of its first byte, from 0.
    pub offset: usize,
    /// Its length in bytes.
    pub count: usize,
}

/// The number of rows of each kind: in C `struct ltl2ba_counts`.
#[derive(Clone, Copy, Debug)]
#[repr(C)]
pub struct Counts {
    pub states: usize,
    pub edges: usize,
    pub names: usize,
    /// The number of acceptance sets. It is 0 for a Büchi automaton.
    pub sets: usize,
    /// Why there is no automaton; the code of no refusal if there is one.
    pub refusal: RefusalCode,
}
