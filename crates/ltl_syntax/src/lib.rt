//! The syntax of LTL formulas: a lexer, a parser and a printer.
//!
//! In the field's words: the parser is an operator-precedence parser with one explicit stack, and the printer writes every bracket. Nothing recurses,
//! so deeply nested formulas cost no more than flat ones.
//!
//! What flows: `lex` turns bytes into tokens. `read` makes a `Formula` of them: nodes that come after their operands, and the names of the
//! propositions by number. `text_to` writes the text of a formula.
//!
//! ```
//! let formula = read(&alloc, b"[](p -> <> q)")?;
//! formula.len()                       // 5: the nodes `p`, `q`, `<>q`, `p -> <>q`, and the whole formula, which is the last one
//! text_to(&formula, &mut output)?;    // `[](p -> <>q)`
//! ```
#![tactic(auto)]

mod canonical;
mod combining;
pub mod fault;
pub mod formula;
pub mod laws;
pub mod lexer;
pub mod limits;
pub mod operators;
pub mod output;
mod parser;
pub mod reader;
mod sign;
pub mod token;
mod word;

pub use canonical::{binary_text, constant_text, unary_text};
pub use fault::{FaultKind, ReadFault};
pub use formula::Formula;
pub use lexer::{Tokens, lex};
pub use limits::{PROPOSITION_LIMIT, TEXT_LIMIT};
pub use ltl_streams::{OutputBuffer, WriteFault};
pub use operators::{BinaryOperator, Node, UnaryOperator};
pub use output::{put_text, text_to};
pub use reader::read;
pub use token::{Token, TokenKind};
