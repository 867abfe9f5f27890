//! Pictures: drawings of automata in Graphviz' DOT language (graphviz.org/doc/info/lang.html), with or without a run, and timelines of words.
//!
//! `ltl_hoa` reads an automaton, and the names that its text has. `Drawing` sorts the edges of each state by target, and writes the graph to a sink (`put_dot`)
//! or to a standard writer (`dot_to`) without allocation. States are circles. A state with a name is an ellipse with its number and its name, and the name of
//! the automaton is in the title. If acceptance is state-based, accepting states have a double line; else each edge has the numbers of its acceptance sets after
//! its label, as ` {0 1}`. Edges with the same source and target share an arrow, with `||` between their labels.
//!
//! `accepting_run` finds an accepting run of an automaton on an ultimately periodic word (a lasso), and `RunDrawing` draws it in red. The product of automaton and word
//! (`WordProduct` of `ltl_check`) is an implicit graph. `find` searches it for a path to a cycle with an edge of every acceptance set. The edges of that lasso are those of an accepting run; if there is none,
//! the automaton doesn't accept the word.
//!
//! A timeline is a table of characters that shows where propositions and subformulas are true on a word. In the field's words: the truth of all subformulas at
//! all positions of a lasso, as model checking of a path computes it. So it shows why a formula fails on a word. `propositions` and `subformulas` have a word
//! and a formula evaluated by `ltl_word`, which returns a bit vector for each of them; `lines` and `columns` write these. Everything is allocated before the
//! first byte is written.
//!
//! All of them write in pieces of up to 16 KiB (`Printer` of `ltl_streams`).
//!
//! ```
//! let automaton = hoa_read(&alloc, &mut text.as_slice())?;
//! let names = hoa_names(&alloc, text.as_slice(), automaton.len())?;
//! let drawing = Drawing::new(&alloc, automaton, names)?;
//! drawing.dot_to(&mut picture)?;    // `dot -Tsvg` makes a picture of it
//!
//! match accepting_run(&alloc, &automaton, &word)? {
//!     Some(run) => ..     // its edges, each by its state and its index there
//!     None => ..          // the automaton doesn't accept the word
//! }
//!
//! let formula = ltl_syntax::read(&alloc, b"p U q")?;
//! let word = Lasso::read(&alloc, b"{p}; cycle {q}; {}", &formula)?;
//! timeline_to(&alloc, &formula, &word, &mut sink)?;
//! //         0 | 1 2
//! // p       * | . .
//! // q       . | * .
//! // (p U q) * | * .
//! ```
#![tactic(auto)]

mod acceptance;
mod arrows;
mod columns;
pub mod drawing;
pub mod fault;
mod flags;
mod label;
pub mod laws;
mod lines;
mod name;
mod order;
pub mod pick;
mod picture;
mod propositions;
pub mod run;
pub mod run_drawing;
mod subformulas;
pub mod timeline;

pub use drawing::Drawing;
pub use fault::{RunFault, TimelineFault};
pub use pick::Pick;
pub use run::accepting_run;
pub use run_drawing::RunDrawing;
pub use timeline::{timeline_to, word_timeline_to};
