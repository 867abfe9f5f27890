//! Tests of the upper libraries by their public calls: some runs of the three programs over memory; the number of looks of a search; the `Display`
//! texts of faults; and `ltl_host`.
//!
//! A contract that fixes a result leaves nothing to test, so there are few tests. The wanted values come from the definitions: by hand, or by a
//! reference implementation in another language. Tests are crates of their own, divided by what they call, so that none waits for the proof of more.
//! `sets_tests` has sets, minimal elements and the allocator that refuses. `reader_tests` has the reading of automata, words, streams and timelines.
//! `automata_tests` has edge lists, pairs of rows and generalized automata. `growth_tests` refuses each allocation of the calls in turn, and
//! `program_tests` each allocation, read and write of the programs; it has pictures, too. `tests/run.py` runs the programs as they are built. No
//! library has tests of its own, since it would have to be proved once more with them.
//!
//! `rt try --test` in this folder runs them without a proof, `rt test` with one.
#![tactic(auto)]

#[cfg(test)]
mod checks;
#[cfg(test)]
mod comparisons;
#[cfg(test)]
mod faults;
#[cfg(test)]
mod fixed;
#[cfg(test)]
mod host;
#[cfg(test)]
mod memory;
#[cfg(test)]
mod rows;
