//! Tests of lack of memory in the calls of the libraries, which no contract promises.
//!
//! Each allocation is refused in turn. The call has to answer that memory was refused, has to leave its input unchanged, and has to work when it is
//! made again. `program_tests` does the same with the programs. `ltl_tests` names the other tests of the libraries.
//!
//! `rt try --test` in this folder runs them without a proof, `rt test` with one.
#![tactic(auto)]

#[cfg(test)]
mod digest;
#[cfg(test)]
mod growths;
#[cfg(test)]
mod inputs;
