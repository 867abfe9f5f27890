//! The program `ltlclaim` over byte streams: a never claim as an automaton in the Hanoi Omega-Automata format.
//!
//! `claim_words` is the whole program, from the words of its command line to its exit status, over any files, output and message. `plan` parses a command line
//! into a `Plan`. `claim_over` reads the claim by `claim_read_from` of `ltl_claim`, makes the text of its automaton by `claim_hoa` of `ltl_claim_hoa`, and
//! writes it (`claims`). Each step returns a value, or a refusal (`refusal`). The message of a refusal (`message`) begins with the program's name. Nothing is
//! written before the text is complete in memory. `hoa_of_text` does the same for a claim in memory (`text`).
//!
//! ```
//! let words = ["ltlclaim", "-N", "claim.pml"];    // opens the file `claim.pml`; without `-N` the claim is read from the standard input
//! claim_words(alloc, Ok(&words), &mut files, &mut output, &mut message)    // returns the exit status
//! ```
#![tactic(auto)]

pub mod claims;
mod command;
mod finish;
mod message;
pub mod process;
pub mod program;
pub mod refusal;
pub mod request;
pub mod text;

pub use claims::claim_over;
pub use command::plan;
pub use process::run;
pub use program::claim_words;
pub use refusal::Refusal;
pub use request::Plan;
pub use text::hoa_of_text;
