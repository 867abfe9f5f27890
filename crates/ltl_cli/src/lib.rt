//! The programs `ltl2ba`, `ltlcheck` and `ltleval` over byte streams.
//!
//! `run` is a whole program, from the words of its command line to its exit status, over any files, output and message. Its contract is what the three
//! programs promise; their `main`s call it through `ltl_host`. A caller that opens the files itself calls `plan`, and then `translate_over`, `check_over` or
//! `evaluate_over`. `run_translate`, `run_check` and `run_eval` are the same three over readers and writers of the standard library.
//!
//! `plan` (of `ltl_words`, exported here too) parses a command line into a `Plan`. The files that it names are opened as sources (`files`, `program`). The
//! formula is read from the plan or from a `Source` (`input`). The translator makes its automaton and writes that. The checker translates its negation, reads
//! an automaton and searches for a violating word. The evaluator reads a word and evaluates the formula on it. Each step returns a value or a `Refusal`; the
//! first refusal ends the run. `finish` returns the number of the exit `Status`, after it has written the message of a refusal (`message`). Nothing is
//! written to the output before all steps have succeeded.
//!
//! ```
//! let words = ["ltleval", "-f", "[]<>p", "-w", "cycle {p}; {}"];    // no file is named, so none is opened
//! run(alloc, Tool::Evaluator, Ok(&words), &mut files, &mut output, &mut message)
//! // returns 0, and `output` has "true\n"
//! ```
#![tactic(auto)]

mod automaton;
pub mod check;
pub mod evaluate;
pub mod files;
mod finish;
mod input;
pub mod message;
pub mod printable;
pub mod program;
pub mod refusal;
pub mod shown;
pub mod source;
pub mod standard;
pub mod text_source;
pub mod translate;

pub use automaton::{automaton_of, generalized_of};
pub use check::{check_over, read_automaton};
pub use evaluate::evaluate_over;
pub use files::Files;
pub use finish::flushed;
pub use input::{formula_from, formula_of, marked_of, read_text};
pub use ltl_words::{
    FormulaWord, Layout, Plan, PlanFault, Status, Tool, layout, plan, request, status, tool,
};
pub use message::{print_text, put_text};
pub use printable::{Printable, printable_of};
pub use program::run;
pub use refusal::Refusal;
pub use shown::Shown;
pub use source::{ClosableSource, Source};
pub use standard::{read_formula, run_check, run_eval, run_translate};
pub use text_source::TextSource;
pub use translate::translate_over;
