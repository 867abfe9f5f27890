//! Reduction of generalized Büchi automata: the same words, with fewer states and edges.
//!
//! In the field's words: removal of states that are unreachable or from which no accepting run starts, marks only in accepting strongly connected components, and
//! the quotient by direct simulation, without the edges that another one dominates ("little brothers").
//!
//! What flows: `reduce_marked` takes a `Marked`, as the reader of HOA makes it, and brings it into the form of a `Gba` whose state 0 is the start (`importing`).
//! `reduce` takes a `Gba` and returns a smaller one. Each step makes a new automaton (`build`), and checks that it simulates the old one and is
//! simulated by it (`checking`). A step whose check fails, or for which the budget of comparisons doesn't last, is left out. So the proof rests on the check
//! alone: nothing is proved of the searches for components (`components`), for the largest simulation (`simulation`) and for the states and edges to keep
//! (`trimming`, `folding`), except that they are safe and return. `reduce_to_buchi` makes a Büchi automaton with accepting states of what `reduce` returns:
//! of the same states where the edges of each agree (`state_based`), and else of copies of them, by the passes of `ltl_passes`.
#![tactic(auto)]

mod bit_table;
pub mod buchi;
mod build;
mod checking;
mod components;
mod folding;
mod frees;
mod importing;
pub mod marked;
mod matching;
mod places;
pub mod reducing;
mod relation;
mod shadow;
mod simulation;
mod state_based;
mod trimming;

pub use buchi::reduce_to_buchi;
pub use marked::reduce_marked;
pub use reducing::{SIMULATION_LIMIT, reduce};
