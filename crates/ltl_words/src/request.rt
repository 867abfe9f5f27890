//! The request that a command line makes.

ghost use Rattle.std.specs.Prelude.{◌≡◌, option_map};

use crate::layout::Layout;
use ltl_models::Options;
use std::alloc::{AllocError, AllocFailed};
use thiserror::Error;

/// Where the text of the formula comes from.
#[derive(Clone, Copy, Debug)]
pub enum FormulaWord<'a> {
    /// The text itself.
    Given(&'a str),
    /// The name of the file that holds the text.
    File(&'a str),
}

/// The request of a command line. If a program doesn't have an option, the plan has what it would have if the option weren't given.
#[derive(Clone, Copy, Debug)]
pub struct Plan<'a> {
    pub(crate) formula: FormulaWord<'a>,
    pub(crate) automaton: Option<&'a str>,
    pub(crate) word: Option<&'a str>,
    pub(crate) rewrite: bool,
    pub(crate) options: Options,
    pub(crate) layout: Layout,
}

impl<'a> Plan<'a> {
    ghost use Rattle.ltl_words.specs.Plans.{formula_word, is_generalized, is_hoa, layout_in};

    /// The formula, or the name of its file: `-f` or `-F`.
    pub fn formula(&self) -> FormulaWord<'a>
        ensures { result ≡ self.now.formula }
    {
        self.formula
    }

    /// The name of the automaton's file, if one was given: `-A`.
    pub fn automaton(&self) -> Option<&'a str>
        ensures { option_map (λ s. s.now) result ≡ option_map (λ s. s.now) self.now.automaton }
    {
        self.automaton
    }

    /// The text of the word, if one was given: `-w`.
    pub fn word(&self) -> Option<&'a str>
        ensures { option_map (λ s. s.now) result ≡ option_map (λ s. s.now) self.now.word }
    {
        self.word
    }

    /// Whether the normal form is rewritten: not with `-l`.
    pub fn rewrite(&self) -> bool
        ensures { result ≡ self.now.rewrite }
    {
        self.rewrite
    }

    /// The simplifications that are left out: `-o` and `-p`.
    pub fn options(&self) -> Options
        ensures { result ≡ self.now.options }
    {
        self.options
    }

    /// The format of the automaton's text.
    pub fn layout(&self) -> Layout
        ensures { result ≡ self.now.layout }
    {
        self.layout
    }

    /// Whether the format is that of `-H`: a Büchi automaton in the Hanoi Omega-Automata format.
    pub fn hoa(&self) -> bool
        ensures { result ≡ is_hoa (layout_in self.now.layout) }
    {
        matches!(self.layout, Layout::Hoa)
    }

    /// Whether the format is that of `-G`: a generalized Büchi automaton in the Hanoi Omega-Automata format.
    pub fn generalized(&self) -> bool
        ensures { result ≡ is_generalized (layout_in self.now.layout) }
    {
        matches!(self.layout, Layout::Generalized)
    }
}

/// Why there is no plan.
#[derive(Clone, Copy, Debug, PartialEq, Eq, Error)]
pub enum PlanFault {
    /// The command line is wrong, or requests help.
    #[error("usage")]
    Usage,
    /// The allocator refused an allocation.
    #[error("out of memory")]
    OutOfMemory,
}

impl From<AllocError> for PlanFault {
    ghost use Rattle.std.specs.Prelude.{◌≡◌};
    ghost use Rattle.ltl_words.specs.declared.request.PlanFault.TheVariants.{OutOfMemory};

    ghost from_gives = { λ _ fault. fault ≡ OutOfMemory };

    fn from(_: AllocError) -> PlanFault {
        PlanFault::OutOfMemory
    }
}

impl<T: Drop> From<AllocFailed<T>> for PlanFault {
    ghost use Rattle.std.specs.Prelude.{◌≡◌};
    ghost use Rattle.ltl_words.specs.declared.request.PlanFault.TheVariants.{OutOfMemory};

    ghost from_gives = { λ _ fault. fault ≡ OutOfMemory };

    fn from(_: AllocFailed<T>) -> PlanFault {
        PlanFault::OutOfMemory
    }
}
