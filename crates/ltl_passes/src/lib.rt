//! Passes from automaton to automaton: merging, degeneralization and renumbering.
//!
//! In the field's words: merging of states with the same transitions, as in the construction of Gastin and Oddoux (`merge`, `merge_ba`); degeneralization,
//! with a copy of a state for each number of acceptance sets that were met in turn (`levels`); and numbering breadth first (`renumber`). No pass knows a
//! formula.
//!
//! Merging begins with each state as a class of its own. Each round puts the states into one class whose edges are equal up to the classes of their targets, if
//! both or neither is accepting. The last round changes nothing. These classes are the least fixpoint of that rule. Bisimilarity is its greatest fixpoint, so
//! bisimilar states may stay apart: two accepting states, each with a loop `[p]` as its only edge, aren't merged.
//!
//! The passes work on the edges as the automaton stores them, with numbers for their labels (`CodedEdge` of `ltl_automaton`). The order of the numbers is that
//! of the labels. So the passes sort, compare and hash numbers, and read a label only to find implied edges and levels. No pass makes a new label, so each
//! result has the table of its input: `buchi` and `generalized` move it, and the single passes copy it. A label stays in the table even if no edge has it any
//! more.
//!
//! The translation merges a `Gba`, degeneralizes it, merges the result and renumbers it: that is a `Ba` (`buchi`). A merged `Gba` that is renumbered is a `Gen`
//! (`generalized`). `merge`, `levels`, `merge_ba` and `renumber` are the same passes, one at a time.
//!
//! Each round compares all edge lists up to the classes of their targets. Between two rounds a worklist continues to merge (`worklist`). It
//! visits a state again only if the class of a target gets another name, and the smaller one of two classes gets the name of the other (`classes`). Mostly the
//! next round changes nothing then.
//!
//! The quotient and the numbering compute each edge list once, and states that shared a list share the result. Degeneralization computes one list for the
//! copies of a state on level 0 and on the last level.
//!
//! A list is searched for implied edges only if two of its edges with one target have different weights. Then the edges are sorted by target, and the minimal
//! ones of each target are kept (`implied`).
//!
//! The generalized automaton of `[]<>p` has one state after merging, with `[t]` in no set and `[p]` in set 0. Degeneralized, it has two copies with one edge
//! list:
//!
//! ```
//! (0, 0):             [t] to (0, 0)    [p] to (0, 1)
//! (0, 1), accepting:  [t] to (0, 0)    [p] to (0, 1)
//! ```
#![tactic(auto)]

mod classes;
mod degeneralize;
mod implied;
pub mod merging;
pub mod numbering;
mod owners;
mod partition;
pub mod passes;
mod queue;
mod quotient;
mod retargeting;
mod sources;
mod worklist;

pub use degeneralize::levels;
pub use merging::{merge, merge_ba};
pub use numbering::renumber;
pub use passes::{buchi, generalized, merged_buchi};
