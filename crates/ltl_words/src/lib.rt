//! Command lines of `ltl2ba`, `ltlcheck`, `ltleval` and `ltlcompare`, and the exit statuses of the programs.
//!
//! What flows: `command` has the words of a command line parsed by `clap`, and `plan` makes a `Plan` of the result, or a `PlanFault`. Nothing is
//! opened or read here. `ltl_cli` carries out the plan, and exports the names of this crate too. `comparer_plan` does the same for `ltlcompare`, whose plan
//! is a `ComparerPlan`; `ltl_comparison` carries it out.
//!
//! ```
//! let words = ["ltleval", "-f", "[]<>p", "-w", "cycle {p}; {}"];
//! let plan = plan(alloc, Tool::Evaluator, &words)?;
//! plan.formula()    // `FormulaWord::Given("[]<>p")`
//! plan.word()       // `Some("cycle {p}; {}")`
//! ```
#![tactic(auto)]

mod command;
pub mod comparer;
pub mod layout;
pub mod request;
pub mod status;
pub mod tool;
mod words;

pub use comparer::{ComparerPlan, comparer_plan};
pub use layout::Layout;
pub use request::{FormulaWord, Plan, PlanFault};
pub use status::Status;
pub use tool::Tool;
pub use words::plan;
