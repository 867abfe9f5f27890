//! Translation of a formula into a transition-based generalized Büchi automaton (TGBA), by way of its very weak alternating automaton, after Gastin and
//! Oddoux.
//!
//! A *pair* is a transition of the alternating automaton: a label, and a set of rows that all have to hold next. A pair needs the literals of its label and
//! the rows of its set, which are its targets. A state of the generalized automaton is a set of rows. Its transitions are the joins of one pair of each row.
//!
//! A transition postpones an until row if it has the row as a target, and needs all of no pair that fulfils the row. It is in the acceptance sets of the
//! other until rows. A transition t implies a transition u if t needs no more than u, and is in each acceptance set that u is in. Implied transitions are
//! removed, unless the caller keeps them.
//!
//! `Gba::reach` (`of_table`) explores the sets of rows that are reachable from the root, breadth first (`reach`). The edges get numbers for their
//! labels as they are made (`CodedBuilder` of `ltl_automaton`). The data that all sets share is made before the first set, and doesn't change
//! (`basis`). It is read off a straight-line program, which has a step for the pairs of each row and one for its sets of rows (`program`). One part of it is
//! the tests of which until rows a pair fulfils: the steps that these need (`needs`), numbered anew (`subprogram`, `fulfilment`, `leaves`). The other part is
//! the conjuncts of each elementary row (`conjuncts`). Each conjunct is a step with a list of pairs (`conjunct_table`, `step_lists`). Two conjuncts are linked
//! if they share a proposition or a target, or if one may fulfil an until row that the other one postpones (`support`).
//!
//! The transitions of a set of rows are made in three steps:
//!
//! - The conjuncts of its rows are divided into connected components of the links.
//! - The pairs of a component's conjuncts are joined (`lists`), the two lists first whose join costs least (`components`). Each join but the
//!   last one is pruned: it loses pairs that would stay implied whatever is joined later (`prune`, `rule`, `roots`, `lacks`, `wanted`). Large joins
//!   are pruned while they grow (`pruned_join`). A memo table keeps the joins (`memo`). The pairs of the last join get their marks (`marks`), and implied
//!   transitions are removed (`implied`). Tests are evaluated for many pairs at once (`columns`). Another table keeps the result of each component
//!   (`finals`). Tables that are full are replaced by empty ones before the next set of rows (`reach`).
//! - The transitions of the set are the products of one transition of each component. They are counted first, then made and sorted (`factors`, `product`).
//!
//! A set shares the edges of an earlier set if the components of both have the same lists of transitions, in the same order (`keys`).
//!
//! Two points are subtle. First, a pair that needs less than another one may postpone an until row that the other one fulfils. So a pair doesn't replace
//! another one merely because it needs less. Second, implied transitions are sought within each component alone. This is enough because components are
//! independent: no two of them share a proposition or a target, and none needs what could fulfil an until row that another one postpones. Both rules, with
//! examples, are in docs/PRUNING.md.
//!
//! The formula `p U q` has the rows `p`, `q` and `p U q`. The last row has two pairs: `q` without a target, and `p` with the row itself as its target. So the
//! automaton of the formula is
//!
//! ```
//! state 0 = {p U q}:  [p] to 0, postponed  [q] to 1, in set 0
//! state 1 = {}:       [t] to 1, in set 0
//! ```
#![tactic(auto)]

mod basis;
mod columns;
mod components;
mod conjunct_table;
mod conjuncts;
mod context;
mod counted;
mod factors;
mod finals;
mod fulfilment;
mod implied;
mod keys;
mod lacks;
mod leaves;
mod lists;
mod marks;
mod memo;
mod needs;
pub mod of_table;
pub mod pair;
pub mod pair_set;
mod place;
mod product;
mod program;
mod prune;
mod pruned_join;
mod reach;
mod roots;
mod rule;
mod step_lists;
mod subprogram;
mod support;
mod transition;
mod transition_list;
mod wanted;

pub use ltl_models::{AltFault, Edges, Gba, GbaEdge, MOST_EDGES, MOST_STATES};
pub use of_table::Reach;
pub use pair::Pair;
pub use pair_set::{PairSet, pairs};
