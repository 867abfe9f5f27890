//! Breadth-first numbering of the states that are reachable from state 0.

ghost use Rattle.std.specs.Prelude.{◌≡◌, length, map, All, IfOk, IsErrOf};
ghost use Rattle.ltl_spec.specs.Collections.Sets.{IsRising};
ghost use Rattle.ltl_spec.specs.Automata.Automaton.{edge_cmp};
ghost use Rattle.ltl_spec.specs.Construction.Renumbered.{renumbered_automaton};
ghost use Rattle.ltl_automaton.specs.SharedView.{automaton_of};
ghost use Rattle.ltl_models.specs.BaView.{IsBa};
ghost use Rattle.ltl_passes.specs.Numbered.{IsNumberable, net_of, number_move};

use ltl_automaton::{
    AutomatonFault, CodedEdge, CodedStates, Limits, SharedStates, Successors, explore_from,
};
use ltl_models::{Ba, BaFault, MOST_EDGES, MOST_STATES};
use std::alloc::{AllocError, Allocator};

/// An automaton as an implicit graph whose nodes are state numbers.
#[derive(Drop)]
struct Numbers<'a, 'b, 's, A: Allocator> {
    states: &'b SharedStates<'s, CodedEdge, A>,
    /// The edges of the state that was prepared last.
    edges: &'b [CodedEdge],
    /// For each edge list the first state with it that `same_successors_as` was asked for, or `usize::MAX`.
    owners: Vec<usize, &'a A>,
}

impl<'a, 'b, 's, A: Allocator> Successors<usize, CodedEdge, CodedEdge> for Numbers<'a, 'b, 's, A> {
    ghost net = { λ n. net_of (automaton_of n.states.now) };

    ghost ready = { λ n. length n.owners.items ≡ length n.states.now.lists };

    ghost lent = { λ n. map number_move n.edges.now };

    #[tactic(auto, using(crate::proofs::RenumberLaws::accepts_past))]
    fn accepting(&self, key: &usize) -> bool {
        if *key < self.states.len() {
            self.states.accepting(*key)
        } else {
            true
        }
    }

    /// The owner of the key's edge list. A list without one gets the key as its owner.
    fn same_successors_as(&mut self, key: &usize) -> Result<Option<usize>, AllocError> {
        let states = self.states;
        if *key >= states.len() {
            return Ok(None);
        }
        let list = states.list(*key);
        let owner = self.owners[list];
        if owner < states.len() && states.list(owner) == list {
            return Ok(Some(owner));
        }
        self.owners[list] = *key;
        Ok(None)
    }

    fn edges_at_least(&mut self, _key: &usize) -> Result<usize, AllocError> {
        Ok(0)
    }

    #[tactic(auto, using(crate::proofs::RenumberLaws::no_successors_past))]
    fn prepare(&mut self, key: &usize, _most: usize) -> Result<(), AutomatonFault> {
        let states = self.states;
        if *key < states.len() {
            self.edges = states.edges(*key);
        } else {
            self.edges = &[];
        }
        Ok(())
    }

    fn steps(&self) -> &[CodedEdge] {
        self.edges
    }
}

/// The states, numbered breadth first. The initial state is 0. States are explored in the order of their new numbers, and the edges of each in the order of
/// literals, target and marks. A target without a number gets the next one.
pub(crate) fn renumbered<'a, A: Allocator>(
    alloc: &'a A,
    states: &SharedStates<'_, CodedEdge, A>,
) -> Result<SharedStates<'a, CodedEdge, A>, BaFault>
    requires { IsNumberable (automaton_of states.now) }
    ensures renumbered { IfOk result (λ s. automaton_of s ≡ renumbered_automaton (automaton_of states.now)) }
    ensures fits { ¬ IsErrOf result BaFault.TooLarge }
{
    let mut owners: Vec<usize, &'a A> = Vec::new(alloc);
    owners.resize(states.list_count(), usize::MAX)?;
    let mut numbers = Numbers {
        states,
        edges: &[],
        owners,
    };
    let limits = Limits {
        states: MOST_STATES,
        edges: MOST_EDGES,
    };
    let made = SharedStates::new(alloc, states.sets());
    explore_from(alloc, 0, made, &mut numbers, limits)
}

/// The same Büchi automaton with its states numbered breadth first. The only fault is `OutOfMemory`.
pub fn renumber<'a, A: Allocator>(alloc: &'a A, automaton: &Ba<'_, A>) -> Result<Ba<'a, A>, BaFault>
    ensures renumbered { IfOk result (λ b. b ≡ renumbered_automaton automaton.now) }
    ensures fits { ¬ IsErrOf result BaFault.TooLarge }
{
    automaton.invariant();
    let input = automaton.states();
    let numbered = renumbered(alloc, &input.states)?;
    let made = CodedStates {
        table: input.table.labels().table(alloc)?,
        states: numbered,
    };
    Ok(Ba::new(alloc, made)?)
}
