//! Ultimately periodic words: their text, their shortest representation, and the evaluation of formulas on them.
//!
//! In the field's words: lassos u v^ω over letters that are sets of atomic propositions, and model checking of a path. The evaluation follows the
//! semantics of the formula itself, without an automaton. So it can judge the answers of a translator or a checker.
//!
//! What flows: a text is read byte by byte (`scan`) to its letters as they are written (`written`). These become a `Lasso`, whose names are sorted
//! once, and whose letters are sets of numbers of names. `holds` makes a bit vector, which is called a row, for each node of the formula, operands
//! first. A row has one bit for each written letter, and 64 bits are handled at a time: `&&` and `||` by machine words, `X` by a shift, `U` and `V`
//! from the last letter to the first (`going`). A row is dropped after its last use. `subformula_rows` makes the same rows and keeps all of them.
//!
//! ```
//! let formula = ltl_syntax::read(&alloc, b"[](p -> X q)")?;
//! let word = Lasso::read(&alloc, b"{p}; {q}; cycle {p}; {q}", &formula)?;
//! word.least(&alloc)?                       // its text is: cycle {p}; {q}
//! holds(&alloc, &formula, &word)?           // true
//! ```
#![tactic(auto)]

pub mod bits;
pub mod evaluation;
pub mod fault;
mod going;
pub mod lasso;
pub mod laws;
mod least;
pub mod limits;
mod machine_word;
mod making;
mod name;
mod name_list;
pub mod names;
mod numbered;
mod place;
mod printing;
mod reading;
mod scan;
pub mod subformulas;
mod uses;
mod written;

pub use bits::Bits;
pub use evaluation::holds;
pub use fault::WordFault;
pub use lasso::Lasso;
pub use limits::{NAME_LIMIT, TEXT_LIMIT};
pub use subformulas::subformula_rows;
