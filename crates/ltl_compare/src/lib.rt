//! Comparison of two formulas: does one imply the other?
//!
//! In the field's words: entailment and equivalence of LTL formulas, by emptiness of the intersection of the Büchi automaton of the one formula and
//! that of the negation of the other one.
//!
//! What flows: `compare` translates a formula and the negation of the other one (`ltl_buchi`), and searches their product for a word that both accept
//! (`common_word` of `ltl_check`). Such a word satisfies the one formula and violates the other. It does so in both directions.
//!
//! ```
//! let persistent = ltl_syntax::read(&alloc, b"<>[]p")?;
//! let recurrent = ltl_syntax::read(&alloc, b"[]<>p")?;
//! let comparison = compare(&alloc, &persistent, &recurrent)?;
//! comparison.first_only     // None: `<>[]p` implies `[]<>p`
//! comparison.second_only    // `cycle {}; {p}`: `p` holds infinitely often, but not from some step on
//! ```
#![tactic(auto)]

pub mod comparing;
pub mod comparison;
pub mod fault;

pub use comparing::compare;
pub use comparison::Comparison;
pub use fault::CompareFault;
