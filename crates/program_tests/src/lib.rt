//! Tests of the programs over memory: lack of memory and failing streams, which no contract promises, and the texts of some pictures.
//!
//! Each allocation is refused in turn. Each read and each write fails at each place, once or from there on. The program has to report lack of memory
//! or the failure, and nothing else, and what it has written has to be a prefix of its output. `runs` has the three programs of `ltl_cli`, `comparing`
//! has `ltlcompare`, and `drawing` has `ltldraw`. `growth_tests` refuses the allocations of the libraries' calls. `ltl_tests` names the other tests.
//!
//! `rt try --test` in this folder runs them without a proof, `rt test` with one.
#![tactic(auto)]

#[cfg(test)]
mod comparing;
#[cfg(test)]
mod drawing;
#[cfg(test)]
mod inputs;
#[cfg(test)]
mod pictures;
#[cfg(test)]
mod runs;
#[cfg(test)]
mod streams;
