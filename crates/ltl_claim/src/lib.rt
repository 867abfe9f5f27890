//! A reader of never claims, in a profile of Promela.
//!
//! In the field's words: it reads the body of a `never` claim with labels, `if`, `do`, `goto`, `break`, `else`, `assert`, and `atomic` around a guard and an
//! assertion. Guards are propositional. The result is a nondeterministic Büchi automaton with a state for each statement, and one for the closing brace.
//!
//! What flows: a source is read in pieces of 4,096 bytes. Bytes become tokens (`lexer`). A predictive parser with an explicit stack (`symbol`, `parser`)
//! takes them, and builds a list of statements with links (`program`). `claim` resolves the links, and makes the moves of each statement.
//!
//! ```
//! never { accept_init: do :: p -> goto accept_init od }
//! ```
//!
//! This is read as one statement, which accepts, with one move to itself under `p`. It accepts the words on which `p` always holds.
#![tactic(auto)]

mod bytes;
pub mod claim;
pub mod fault;
mod lexer;
mod parser;
mod place;
mod program;
mod read;
mod resolve;
mod symbol;
mod text;
mod token;
mod word;

pub use claim::{Claim, ClaimMove, GuardStep};
pub use fault::{ClaimFault, ClaimFaultKind};
pub use read::{MOST_BYTES, claim_read, claim_read_from};
