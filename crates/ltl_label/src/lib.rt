//! Evaluation of edge labels: Boolean expressions over propositions are turned into cubes while they are read.
//!
//! In the field's words: a label of the Hanoi Omega-Automata format is a Boolean expression over the numbers of propositions, with `t`, `f`, `!`,
//! `&`, `|` and brackets. This crate computes a disjunctive normal form of it: a set of cubes, each of which becomes an edge. It builds no syntax
//! tree.
//!
//! What flows: the reader hands over the tokens of a label one by one (`label`). For each open bracket, the evaluator keeps the cubes of what was
//! read after it, and whether it is under an odd number of negations. Under an odd number, literals change their sign, and `&` and `|` change
//! places. A part that ends is joined or united with the part before it (`cubes`). Before a large conjunction is made, its sets are split by
//! literals, so that few contradictory or duplicate joins are made (`joins`, `parting`). A part of more than 4,096 cubes is refused as too large.
//!
//! ```
//! 0 | !1         {p0} {!p1}
//! !(0 | !1)      {!p0 p1}
//! (0|1) & !0     {!p0 p1}     since p0 with !p0 holds nowhere
//! t              {}           the one cube without a literal
//! f                           no cube
//! ```
#![tactic(auto)]

mod cubes;
mod joins;
mod label;
mod parting;

pub use cubes::{CubeList, Cubes, MOST_CUBES};
pub use label::Label;
