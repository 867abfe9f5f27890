//! A streaming reader of automata in the Hanoi Omega-Automata format (HOA), version 1.
//!
//! In the field's words: it reads deterministic and nondeterministic automata with one initial state, with explicit labels on edges, and with Büchi
//! or generalized Büchi acceptance of up to 32 sets, on states or on edges. If a text has several faults, the leftmost one is answered, with its
//! line. The sets of a state are given to each of its edges, so a `Marked` has sets on edges alone.
//!
//! What flows: a source is read in pieces of 4,096 bytes. Bytes become tokens (`lexer`), of which only the current one is kept. A token moves the
//! parser from one place to the next; a place says which tokens may come (`place`, `parser`, `header`, `body`). A label becomes cubes while it is
//! read (the crate `ltl_label`), and each cube an edge. The result is a `Marked`. Whatever the length of the text, only the automaton, the current
//! token, the open label and the names are held.
//!
//! ```
//! HOA: v1
//! States: 1 Start: 0 AP: 2 "p" "q"
//! Acceptance: 1 Inf(0)
//! --BODY--
//! State: 0 [0|!1] 0 {0} [!0&1] 0
//! --END--
//! ```
//!
//! This is read as one state with three edges to itself: `p` and `!q`, which are in set 0, and `!p && q`, which is in none. It accepts the words on
//! which `q -> p` holds infinitely often.
#![tactic(auto)]

mod body;
mod bytes;
pub mod fault;
mod header;
pub mod laws;
mod lexer;
pub mod marked;
pub mod marks;
mod names;
mod names_reader;
pub mod naming;
mod number;
mod parser;
mod place;
mod read;
mod stream_reader;
mod token;

pub use fault::{HoaFault, HoaFaultKind};
pub use marked::{Marked, MarkedEdge};
pub use marks::Marks;
pub use names_reader::hoa_names;
pub use naming::HoaNames;
pub use read::{hoa_read, hoa_read_from};
pub use stream_reader::MOST_BYTES;
