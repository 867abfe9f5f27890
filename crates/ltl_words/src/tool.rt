//! The programs whose command lines this crate parses.

/// A program, as far as its command line is parsed here. `ltlcompare` and `ltldraw` aren't among them.
#[derive(Clone, Copy, Debug, PartialEq, Eq)]
pub enum Tool {
    /// `ltl2ba`
    Translator,
    /// `ltlcheck`
    Checker,
    /// `ltleval`
    Evaluator,
}
