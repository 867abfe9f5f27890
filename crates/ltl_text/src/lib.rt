//! Printers of automata: never claims of Spin, and the Hanoi Omega-Automata format.
//!
//! In the field's words: a Büchi automaton is printed as a never claim (`never_to`), or in version 1 of the Hanoi Omega-Automata format (HOA) with
//! accepting states (`hoa_to`). A generalized automaton is printed in HOA with acceptance sets on edges, with its formula (`gen_to`) or with names alone
//! (`put_named`); a never claim is printed with names alone by `put_named_claim`. The reader of HOA, `hoa_read` of `ltl_hoa`, is exported here too, so that users of texts need this crate alone.
//!
//! What flows: a printer takes an automaton and its formula, whose text and names go into the output. It looks up the labels of each edge as it prints
//! the edge (`Edges` of `ltl_models`). The printer of claims prepares the texts of all literals once, and copies them (`LiteralTexts`). Each printer
//! writes to a buffer of 16 KiB, and from there to a sink (`put_claim`, `put_hoa`, `put_generalized`) or to a standard writer. It allocates nothing. After
//! the first error of the sink it writes nothing more; a prefix of the text was written then.
//!
//! ```
//! let mut text = Vec::new(alloc);
//! hoa_to(&automaton, &formula, &mut text)?;
//! let same = hoa_read(&alloc, &mut text.as_slice())?;    // the automaton again, its set 0 on the edges that leave accepting states
//! ```
#![tactic(auto)]

mod claim;
pub mod digits;
mod generalized;
mod guard;
mod hoa;
mod label;
pub mod laws;
mod literal_texts;
mod named;
mod named_claim;
mod names;
mod options;
mod states;

pub use claim::{never_to, put_claim};
pub use digits::Digits;
pub use generalized::{gen_to, put_generalized};
pub use hoa::{hoa_to, put_hoa};
pub use ltl_hoa::{HoaFault, HoaFaultKind, Marked, MarkedEdge, hoa_read};
pub use named::put_named;
pub use named_claim::put_named_claim;
pub use states::{put_marks, put_number};
