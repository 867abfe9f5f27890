//! The normal form of an LTL formula, as a table of its different subformulas, which are called rows. The names of `ltl_syntax` are exported here
//! too.
//!
//! In the field's words: negation normal form, rewriting by local equivalences, and a shared graph (a DAG) of subformulas. Nothing recurses, so
//! deeply nested formulas cost no more than flat ones.
//!
//! What flows: `Table::build` takes a `Formula`. Top down, it finds which normal forms are needed: of each node that of its formula, that of the
//! negation, or both. Bottom up, it makes them. They are nodes of a graph in which equal nodes are one; so the numbers of the operands decide which
//! rewriting rule applies. The rows of the table are what can be reached from the normal form of the whole formula.
//!
//! `[]<>p` is read as the nodes `p`, `<>p`, `[]<>p`. Its normal form is `false V (true U p)`, so its table has the rows
//!
//! ```
//! 0  false
//! 1  true
//! 2  p
//! 3  1 U 2      an until row: an eventuality, for which there is an acceptance set
//! 4  0 V 3      the root: the whole formula
//! ```
//!
//! Rows 2, 3 and 4 are elementary. Elementary rows are the literals, the temporal rows and the root; they are the states of the alternating
//! automaton.
#![tactic(auto)]

pub mod build_fault;
pub mod limits;
mod needs;
mod places;
mod polarity;
mod rewriting;
pub mod row;
mod shared_nodes;
pub mod table;
mod walk;

pub use build_fault::BuildFault;
pub use limits::{ELEMENTARY_ROW_LIMIT, ROW_LIMIT};
pub use ltl_syntax::{
    BinaryOperator, FaultKind, Formula, Node, OutputBuffer, PROPOSITION_LIMIT, ReadFault,
    TEXT_LIMIT, Token, TokenKind, Tokens, UnaryOperator, WriteFault, fault, formula, laws, lex,
    lexer, operators, output, put_text, read, reader, text_to, token,
};
pub use row::Row;
pub use table::Table;
