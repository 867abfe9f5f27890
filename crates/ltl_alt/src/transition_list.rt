//! Lists of transitions, as keys of an interner.

ghost use Rattle.std.specs.Prelude.{◌≡◌};

use crate::transition::Transition;
use std::alloc::Allocator;
use std::hash::{Hash, Hasher};
use std::marker::Model;

/// A list of transitions.
#[derive(Drop)]
pub(crate) struct TransitionList<'a, A: Allocator> {
    pub(crate) transitions: Vec<Transition, &'a A>,
}

impl<'a, A: Allocator> Model for TransitionList<'a, A> {
    ghost use Rattle.std.specs.Prelude.{List};
    ghost use Rattle.std.specs.Coded.{coded_list};
    ghost use Rattle.ltl_spec.specs.Transitions.RowTransitions as spec;
    ghost use Rattle.ltl_alt.specs.Codes.{transition_code};

    ghost Value = { List spec.Transition };

    ghost coded = { coded_list transition_code };

    ghost view = { λ l. l.transitions.items };
}

impl<'a, A: Allocator> PartialEq for TransitionList<'a, A> {
    ghost use Rattle.std.specs.Cmp.{partial_equiv_from_equiv};
    ghost use Rattle.ltl_alt.specs.ListHash.{same_transitions, same_transitions_equiv};

    ghost eq = { same_transitions };

    ghost laws = { partial_equiv_from_equiv same_transitions_equiv };

    fn eq(&self, other: &TransitionList<'a, A>) -> bool {
        self.transitions == other.transitions
    }
}

impl<'a, A: Allocator> Eq for TransitionList<'a, A> {
    ghost use Rattle.ltl_alt.specs.ListHash.{same_transitions_equiv};

    ghost laws = { same_transitions_equiv };
}

impl<'a, A: Allocator> Hash for TransitionList<'a, A> {
    ghost use Rattle.ltl_alt.specs.ListHash.{hash_of_transitions, hash_of_same_transitions};

    ghost hash_input = { hash_of_transitions };

    ghost respects_eq = { hash_of_same_transitions };

    fn hash<H: Hasher>(&self, state: &mut H) {
        self.transitions.hash(state);
    }
}

impl<'a, A: Allocator> TransitionList<'a, A> {
    /// The transitions in their order.
    pub(crate) fn as_slice(&self) -> &[Transition]
        ensures { result.now ≡ self.now }
    {
        self.transitions.as_slice()
    }
}
