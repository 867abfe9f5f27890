//! The translator, the checker, the evaluator, the comparer, pictures, the reader of claims and reductions as a static library for C. Its header is `include/ltl2ba.h`.
//!
//! `ltl2ba_text`, `ltlcheck_verdict`, `ltleval_holds`, `ltlcompare_verdict`, `ltldraw_dot`, `ltlclaim_hoa` and `ltlreduce_hoa` each do what one run of a program does, over texts
//! in memory: the result is one that the program may show for these texts. `ltl2ba_automaton` gives the automaton that `ltl2ba_text` prints, in arrays.
//! `ltl2ba_names` gives the names of its propositions, and `ltl2ba_message` and `ltlclaim_message` the line that a program prints for a refusal. No call keeps
//! anything, prints anything, or holds memory after it returns.
//!
//! The calls are in `text`, `checking`, `evaluation`, `comparison`, `picture`, `claim`, `reduction`, `automaton`, `names`, `message` and `claim_message`. A text is copied to
//! the caller's buffer (`buffer`), an automaton to the caller's arrays (`arrays`, `places`). A `Refusal` is returned as numbers (`refusal_code`, `claim_code`).
//! A line is made in memory of its own (`line`).
#![tactic(auto)]

mod arrays;
pub mod automaton;
mod buffer;
pub mod checking;
pub mod claim;
pub mod claim_code;
pub mod claim_message;
pub mod comparison;
pub mod evaluation;
mod line;
mod made;
pub mod message;
pub mod names;
pub mod picture;
mod places;
pub mod reduction;
pub mod refusal_code;
pub mod rows;
mod subject;
#[cfg(test)]
mod tests;
pub mod text;
pub mod text_options;
