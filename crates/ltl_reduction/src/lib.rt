//! The program `ltlreduce` over byte streams: a smaller automaton that accepts the same words, or a never claim that does.
//!
//! `reduce_words` is the whole program, from the words of its command line to its exit status, over any files, output and message. `plan` parses a command line
//! into a `Plan`. `reduce_over` reads the automaton as `ltlcheck` does, reduces it by `reduce_marked` of `ltl_reduce`, and writes the result by `put_named` of
//! `ltl_text`. With `-c` it makes a Büchi automaton with accepting states of the reduced one (`reduce_to_buchi`), and writes its claim by `put_named_claim`
//! (`claim`). Each step returns a value, or a refusal with the exit status that `ltlcheck` or `ltl2ba` has for it. The message of a refusal (`message`) begins with
//! the program's name. Nothing is written before the automaton is complete in memory.
//!
//! ```
//! let words = ["ltlreduce", "-A", "lock.hoa"];    // opens the file `lock.hoa`; without `-A` the automaton is read from the standard input
//! reduce_words(alloc, Ok(&words), &mut files, &mut output, &mut message)    // returns the exit status
//! ```
#![tactic(auto)]

mod claim;
mod command;
mod finish;
mod message;
pub mod process;
pub mod program;
pub mod reduction;
pub mod request;

pub use command::plan;
pub use process::run;
pub use program::reduce_words;
pub use reduction::reduce_over;
pub use request::Plan;
