//! An automaton together with the names that its text has.

use ltl_hoa::{HoaNames, Marked};
use std::alloc::Allocator;
use std::marker::Model;

/// An automaton, and the names of the same text for it and for its states.
#[derive(Drop)]
pub(crate) struct Named<'a, A: Allocator> {
    pub(crate) automaton: Marked<'a, A>,
    pub(crate) names: HoaNames<'a, A>,
}

impl<'a, A: Allocator> Model for Named<'a, A> {
    ghost use Rattle.ltl_pictures.specs.NamedAutomaton.{NamedAutomaton};

    ghost Value = { NamedAutomaton };

    ghost view = { λ n. record { automaton = n.automaton; names = n.names } };
}
