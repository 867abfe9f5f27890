//! The lexical rules that the texts of formulas, words and automata share: blanks, names of propositions, and the limit on propositions.
//!
//! A name is an ASCII lower-case letter, followed by such letters, digits and `_`. `true` and `false` are constants, and so no names.
//! Every name that is read anywhere may occur in a formula.
//!
//! ```
//! is_proposition(b"ready_1")    true
//! is_proposition(b"1ready")     false
//! is_proposition(b"true")       false
//! ```
#![tactic(auto)]

mod names;

pub use names::{PROPOSITION_LIMIT, is_blank, is_lower, is_name_byte, is_proposition};
