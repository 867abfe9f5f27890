//! Explicit automata with acceptance on states and on edges, and their breadth-first construction on the fly.
//!
//! In the field's words: one representation of every automaton that is made here, generalized or not. A state is accepting or not, and has outgoing
//! edges. An edge has a label (a cube), a target, and the acceptance sets that it belongs to (its marks). Many states of these automata have equal
//! edges, so states can share an edge list, and a state holds the number of its list (`SharedStates`).
//!
//! How an edge is stored is a parameter (`EdgeType`). An `Edge` of 104 bytes has its cube and its marks. A `CodedEdge` of 16 bytes has their numbers in
//! a `LabelTable`, which has two sorted lists: the different cubes, and the different sets of marks. So the order of the numbers is that of the labels.
//! `CodedStates` is an automaton with its table. Its `edges` returns the edges of a state as `Edges`: the coded edges, together with the `Labels` that
//! their numbers refer to. Contracts state the edges with their labels.
//!
//! What flows: `explore_from` takes a start, a type with the trait `Successors`, and a `Builder`, to which it appends the states. A state is known by
//! its *key*. In `ltl_alt` a key is a set of rows. In `ltl_passes` it is a copy of a state on a level, or the number of a state of an automaton that is
//! numbered anew. For a key, `Successors` returns whether the state is accepting, and lends its outgoing edges as steps (`Step`), whose targets are keys.
//! A `Worklist` numbers the keys as they are met. The builder gets the steps with the numbers of their targets, and makes edges of them. The result is
//! the builder with all states, or `TooLarge` if a limit is passed.
//!
//! There are two builders. `SharedStates` sorts the edges of a state. `CodedBuilder` takes steps with labels, and numbers the labels as they come; its
//! `finish` sorts the labels, renumbers the edges in place, and returns a `CodedStates`.
//!
//! Two devices save work. `same_successors_as` may return a state that was explored before and has the same edges; both states share one list then.
//! While many states wait in the worklist, `ahead` adds a lower bound on their edges to the edges so far. The construction ends early if the sum is
//! above the limit.
//!
//! The generalized automaton of `[]<>p` is explored from the state of the root row. Its edge under `p` leads back to it and belongs to acceptance set
//! 0. Its edge under every letter leads to the state of the root and `<>p`, which has the same edges:
//!
//! ```
//! cubes:    0 is [t], 1 is [p]
//! marks:    0 is no set, 1 is set 0
//! list 0:   cube 0, marks 0, to 1    cube 1, marks 1, to 0
//! states:   0 with list 0, 1 with list 0
//! ```
#![tactic(auto)]

mod ahead;
pub mod builder;
pub mod coded_builder;
pub mod coded_edge;
pub mod coded_states;
pub mod edge;
pub mod edge_list;
pub mod explore;
pub mod fault;
pub mod interner;
pub mod keys;
pub mod label_table;
pub mod labels;
pub mod level;
mod ranked;
mod ranks;
pub mod shared;
pub mod sorting;
pub mod step;
pub mod successors;
pub mod worklist;

pub use builder::Builder;
pub use coded_builder::CodedBuilder;
pub use coded_edge::CodedEdge;
pub use coded_states::CodedStates;
pub use edge::{Edge, EdgeType};
pub use edge_list::EdgeList;
pub use explore::{Limits, explore_from};
pub use fault::AutomatonFault;
pub use interner::Interner;
pub use label_table::LabelTable;
pub use labels::{Edges, Labels};
pub use level::next_level;
pub use shared::{SharedState, SharedStates};
pub use sorting::{ListOrder, sort_dedup, sort_runs_dedup};
pub use step::Step;
pub use successors::Successors;
pub use worklist::{Key, Worklist};
