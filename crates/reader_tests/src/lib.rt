//! Tests of readers: automata, their names, also in drawings, and the lines of their faults, claims, words with their least forms and texts, timelines, and
//! the number of calls on standard readers and writers; and of formulas made of two formulas.
//!
//! `ltl_tests` says why tests are crates of their own, divided by what they call, and where the others are.
//!
//! `rt try --test` in this folder runs them without a proof, `rt test` with one.
#![tactic(auto)]

#[cfg(test)]
mod claims;
#[cfg(test)]
mod combining;
#[cfg(test)]
mod drawn_names;
#[cfg(test)]
mod hoa;
#[cfg(test)]
mod names;
#[cfg(test)]
mod readers;
#[cfg(test)]
mod streams;
#[cfg(test)]
mod timeline;
#[cfg(test)]
mod word;
