//! Tests of the lowest libraries: sets of rows, cubes, minimal elements, and the allocator that refuses.
//!
//! `ltl_tests` says why tests are crates of their own, divided by what they call, and where the others are.
//!
//! `rt try --test` in this folder runs them without a proof, `rt test` with one.
#![tactic(auto)]

#[cfg(test)]
mod allocator;
mod items;
#[cfg(test)]
mod least_ones;
#[cfg(test)]
mod sets;
