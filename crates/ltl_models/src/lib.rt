//! The automata that the translation makes, as values: generalized (`Gba`), Büchi (`Ba`), and generalized as printed (`Gen`).
//!
//! In the field's words: transition-based generalized Büchi automata (TGBA) and state-based Büchi automata, as explicit graphs. A `Gba` and a `Ba`
//! own a `CodedStates` of `ltl_automaton`, which is a table of labels, and states whose edges have numbers of that table. A `Gen` owns a `Gba`. Each
//! type adds an invariant. No limit is passed, every target exists, every number is in the table, and no label contradicts itself. All states of a
//! `Gba` are accepting, so that only its acceptance sets count. A `Ba` has no acceptance sets, the edges of each state are sorted without duplicates,
//! and every state is reachable.
//!
//! What flows: states that `ltl_alt` or `ltl_passes` made come in by `new`, which requires the invariant. Printers and checkers read an automaton
//! state by state (`edges`, `accepting`), or the edges of a state by their targets (`by_target`). So they depend on this crate alone, and not on those
//! that make automata. `edges` returns `Edges`, whose `get` returns an edge with its labels. The passes take the states and the table themselves
//! (`states`, `into_states`). `Options` says which simplifications are left out.
//!
//! The Büchi automaton of `[]<>p`, whose two states share an edge list:
//!
//! ```
//! state 0:             [t] to 0    [p] to 1
//! state 1, accepting:  [t] to 0    [p] to 1
//! ```
#![tactic(auto)]

pub mod automaton;
pub mod fault;
pub mod gba;
pub mod numbered;
pub mod options;
pub mod order;

pub use automaton::Ba;
pub use fault::BaFault;
pub use gba::{Gba, MOST_EDGES, MOST_STATES};
pub use ltl_automaton::{AutomatonFault as AltFault, CodedEdge, Edge, Edge as GbaEdge, Edges};
pub use numbered::Gen;
pub use options::Options;
