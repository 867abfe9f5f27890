//! The program `ltlcompare` over byte streams: how two formulas compare, with words that tell them apart.
//!
//! `compare_words` is the whole program, from the words of its command line to its exit status, over any files, output and message. `comparer_plan` of
//! `ltl_words` parses a command line into a `ComparerPlan`. `compare_over` reads the first formula and then the second one, compares them by `compare` of
//! `ltl_compare`, and writes the answer (`answer`). Each step returns a value, or a refusal with its subject (`refusal`): the first formula, the second one, or
//! neither of them alone. The message of a refusal (`message`) begins with the program's name. Nothing is written before the comparison is complete.
//!
//! ```
//! let words = ["ltlcompare", "-f", "[]p", "-g", "<>p"];    // no file is named, so none is opened
//! compare_words(alloc, Ok(&words), &mut files, &mut output, &mut message)
//! // returns 1, and `output` has "first implies second\nsecond only: {p}; cycle {}\n"
//! ```
#![tactic(auto)]

mod answer;
pub mod comparing;
mod finish;
mod formulas;
mod message;
pub mod process;
pub mod program;
mod refusal;

pub use comparing::compare_over;
pub use process::run;
pub use program::compare_words;
