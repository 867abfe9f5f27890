//! The printer of never claims in the Hanoi Omega-Automata format.
//!
//! In the field's words: the automaton of a claim that `ltl_claim` has read is printed in version 1 of the Hanoi Omega-Automata format (HOA), with accepting
//! states. Its states are the statements of the claim, and the closing brace if the start or a move leads there. A label has the form of its guard.
//!
//! What flows: `claim_hoa` makes the whole text in memory, line by line (`hoa`). A guard comes in postfix order. Its label is made from the end, by a stack of
//! what is still to be written (`label`), and copied in the order of the text.
//!
//! ```
//! let claim = claim_read(alloc, &mut "never { accept_init: do :: p -> goto accept_init od }".as_bytes())?;
//! let text = claim_hoa(alloc, &claim)?;    // the state 0, in the set 0, with the edge `[0] 0`
//! ```
#![tactic(auto)]

mod digits;
mod head;
mod hoa;
mod label;
mod moves;
mod sign;

pub use hoa::claim_hoa;
