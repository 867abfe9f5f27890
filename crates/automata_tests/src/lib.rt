//! Tests of how automata are made: shared edge lists, the edges of a state with the same ones, pairs of rows, generalized automata with their texts, and
//! reductions.
//!
//! `ltl_tests` says why tests are crates of their own, divided by what they call, and where the others are.
//!
//! `rt try --test` in this folder runs them without a proof, `rt test` with one.
#![tactic(auto)]

#[cfg(test)]
mod automata;
#[cfg(test)]
mod generalized;
#[cfg(test)]
mod pairs;
#[cfg(test)]
mod reducing;
