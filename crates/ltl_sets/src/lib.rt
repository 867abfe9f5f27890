//! Bit sets of fixed size: sets of numbers below `RowSet::LIMIT`, and cubes, which are conjunctions of literals.
//!
//! In the field's words: a `RowSet` is a state of a generalized automaton (the rows that have to hold), or the acceptance sets that an edge belongs to. A
//! `PropositionSet`, the same type by another name, is a letter of a word (the propositions that are true). A `Cube` is the label of an edge: the
//! propositions that have to be true, and those that have to be false. A set is one vector of four words of 64 bits, and a cube is two. Both are copied and
//! allocate nothing. Contracts see them as sorted lists: the members of the set, or the literals by proposition.
//!
//! ```
//! let now = Cube::literal(0, true);                 // p
//! let both = now.join(&Cube::literal(1, false));    // Some: p && !q
//! let none = now.join(&Cube::literal(0, false));    // None: p && !p
//! let fits = now.allows(&PropositionSet::single(0)); // true: p holds in the letter {p}
//! let less = now.implies_of(&both.unwrap());        // true: p && !q implies p
//! ```
#![tactic(auto)]

pub mod cube;
mod lanes;
pub mod literal;
pub mod row_set;
pub mod transposed;

pub use cube::{Cube, Literals};
pub use literal::Literal;
pub use row_set::{Members, PropositionSet, RowSet};
pub use transposed::{OCTET, octet};
