//! Model checking of automata: does an automaton that was read have a word in common with a Büchi automaton?
//!
//! In the field's words: emptiness of the product of two automata, on the fly, by nested depth-first search. If the Büchi automaton is that of a
//! negated formula, the check decides whether every word of the first automaton satisfies the formula, and finds a counterexample.
//!
//! What flows: `check` takes a `Marked` and a `Ba`, and unifies their propositions by name. Their `Product` stores no states and no edges. A look at
//! a pair of edges returns the step that both take together, if their labels don't contradict each other. `Levels` degeneralizes the product on the
//! fly. `Search` has a stack for each of the two depth-first searches, and a colour for each state on a level. It finds a `Walk`, which is a stem and
//! a cycle, which `shorten` replaces by a shorter one. In its word the positive literals of each step are true. `Shrinking` repeats letters, leaves letters
//! out and takes names out of letters as long as both automata accept the rest, which a search of the product with the word decides (`accepts`). What
//! remains is put into least form, and is the counterexample of the `Verdict`, unless the word of the walk that was found first is shorter.
//!
//! `find` searches any type with the trait `Graph`, whose laws say what a graph is. `check` does all of this:
//!
//! ```
//! let property = ltl_syntax::read(&alloc, b"[]<>p")?;
//! let table = Table::build(&alloc, &property, true, true)?;             // of the negation
//! let violations = translate(&alloc, &table, &options)?;
//! match check(&alloc, &automaton, &violations, &property)?.outcome() {
//!     Outcome::Contained => ..                                           // every word of `automaton` satisfies the property
//!     Outcome::Violated(word) => ..                                      // it accepts this one, which doesn't
//! }
//! ```
#![tactic(auto)]

pub mod accepting;
mod breadth;
pub mod checking;
mod draft;
pub mod fault;
pub mod finding;
pub mod graph;
pub mod levels;
mod names;
mod net;
pub mod operand;
mod path;
mod path_search;
mod place;
mod plain;
mod plan;
pub mod product;
mod search;
mod shortcut;
pub mod shortest;
mod shrinking;
pub mod verdict;
pub mod walk;
pub mod word_letters;
pub mod word_product;

pub use accepting::SHRINKING_LIMIT;
pub use checking::{PRODUCT_LIMIT, check, common_word, word_of};
pub use fault::CheckFault;
pub use finding::find;
pub use graph::{Graph, Step};
pub use levels::Levels;
pub use operand::{NamedBa, NamedGba, Operand};
pub use product::{Product, Steps};
pub use shortest::{ONE_BASE_LIMIT, SHORTENING_LIMIT, shorten};
pub use verdict::{Outcome, Verdict};
pub use walk::{Taken, Walk};
pub use word_letters::letters;
pub use word_product::{WordProduct, WordState};
