//! Translation of a formula's table into its Büchi automaton, or into the generalized one as it is printed.
//!
//! In the field's words: the translation of linear temporal logic to Büchi automata by way of a very weak alternating automaton and a generalized Büchi
//! automaton, each simplified (`translate`); and the same without degeneralization (`generalized`).
//!
//! `ltl_alt` makes a `Gba` of a `Table`. The passes of `ltl_passes` merge it, degeneralize it, merge the result and renumber it: that is a `Ba`. A `Gen` is
//! the merged `Gba`, renumbered. The states of each automaton are dropped as soon as the next one is made, and the table of labels moves into the result.
//! This crate exports the types of `ltl_models` and the single passes as well.
//!
//! ```
//! let formula = ltl_formula::read(&alloc, b"[]<>p")?;
//! let table = Table::build(&alloc, &formula, false, true)?;
//! let options = Options { keep_implied: false, keep_equal: false };
//! let buchi = translate(&alloc, &table, &options)?;           // two states; state 1, which `p` leads to, accepts
//! let small = generalized(&alloc, &table, &options)?;         // one state; the edge with `p` is in set 0
//! ```
//!
//! Both automata accept exactly the words on which `p` holds infinitely often. Their contracts say so for every formula.
#![tactic(auto)]

pub mod translation;

pub use ltl_models::{Ba, BaFault, Edge, Gen, Options};
pub use ltl_passes::{levels, merge, merge_ba, renumber};
pub use translation::{generalized, translate};
