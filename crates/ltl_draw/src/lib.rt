//! The program `ltldraw` over byte streams: an automaton as a drawing, or a word as a timeline.
//!
//! `draw_words` is the whole program, from the words of its command line to its exit status, over any files, output and message. `plan` parses a command line
//! into a `Plan`. For a drawing, `draw_over` reads the text of its source into memory (`input`), and from there an automaton and the names that the text has
//! for it and for its states. Then it writes the graph; with `-w`, an accepting run on a word is in red. For a timeline (`timeline`), the command line has
//! the text of a word and, with `-f`, that of a formula. Each step returns a value, or a refusal with the exit status that `ltlcheck` and `ltleval` have for
//! it. The message of a refusal (`message`) begins with the program's name. Nothing is written before the drawing is complete in memory, or before all memory
//! for the timeline has been allocated.
//!
//! ```
//! draw_over(&alloc, &plan(alloc, &["ltldraw"]), &mut source, &mut output, &mut message)    // returns the exit status
//! plan(alloc, &["ltldraw", "-t", "{p}; cycle {}", "-f", "<>p"])    // `Ok(Plan::Timeline("{p}; cycle {}", Some("<>p")))`
//! ```
#![tactic(auto)]

mod command;
pub mod draw;
mod finish;
mod input;
mod message;
mod named;
pub mod process;
pub mod program;
pub mod request;
mod run_picture;
mod timeline;

pub use command::plan;
pub use draw::draw_over;
pub use process::run;
pub use program::draw_words;
pub use request::Plan;
