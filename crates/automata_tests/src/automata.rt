//! Tests of shared edge lists: a state that is appended like another has the same list, and a twin's edges aren't made again. No contract says so.

ghost use Rattle.std.specs.Prelude.{map, true, ⊤};
ghost use Rattle.ltl_automaton.specs.CodedEdges.{coded_edge_of};
ghost use Rattle.ltl_automaton.specs.Net.{successor_of};

use ltl_automaton::{
    AutomatonFault, CodedEdge, Edge, Limits, SharedStates, Successors, explore_from,
};
use ltl_sets::{Cube, RowSet};
use std::alloc::AllocError;
use std::test::Fail;

#[test]
fn states_like_others_share_lists(rt: HostRuntime) -> Result<(), Fail> {
    let alloc = rt.alloc();
    let mut automaton = SharedStates::new(&alloc, 0);
    let here = Edge {
        cube: Cube::empty(),
        target: 0,
        marks: RowSet::empty(),
    };
    let there = Edge {
        cube: Cube::empty(),
        target: 1,
        marks: RowSet::empty(),
    };
    automaton.push(true, Vec::from_slice(&alloc, &[here, there])?)?;
    automaton.push(false, Vec::from_slice(&alloc, &[there])?)?;
    automaton.push_like(false, 0)?;
    automaton.push_like(true, 1)?;
    automaton.push(true, Vec::from_slice(&alloc, &[there, here])?)?;
    assert_eq!(rt; automaton.len(), 5);
    assert_eq!(rt; automaton.list_count(), 3);
    Ok(())
}

/// Two states with the same edges. It records whether the edges were prepared, and whether they were prepared again.
#[derive(Drop)]
struct Two {
    edges: [CodedEdge; 2],
    made: bool,
    again: bool,
}

impl Successors<usize, CodedEdge, CodedEdge> for Two {
    ghost net = { λ t. record { successors = λ _. map (λ e. successor_of (coded_edge_of e)) t.edges; accepts = λ _. true } };

    ghost ready = { λ _. ⊤ };

    ghost lent = { λ t. map (λ e. successor_of (coded_edge_of e)) t.edges };

    fn accepting(&self, _key: &usize) -> bool {
        true
    }

    fn same_successors_as(&mut self, _key: &usize) -> Result<Option<usize>, AllocError> {
        Ok(Some(0))
    }

    fn edges_at_least(&mut self, _key: &usize) -> Result<usize, AllocError> {
        Ok(2)
    }

    fn prepare(&mut self, _key: &usize, _most: usize) -> Result<(), AutomatonFault> {
        self.again = self.made;
        self.made = true;
        Ok(())
    }

    fn steps(&self) -> &[CodedEdge] {
        &self.edges
    }
}

#[test]
fn edges_of_an_equal_state_are_not_made(rt: HostRuntime) -> Result<(), Fail> {
    let alloc = rt.alloc();
    let edge = CodedEdge {
        cube: 0,
        marks: 0,
        target: 0,
    };
    let mut two = Two {
        edges: [edge, CodedEdge { target: 1, ..edge }],
        made: false,
        again: false,
    };
    let limits = Limits {
        states: 2,
        edges: 4,
    };
    let automaton = explore_from(
        &alloc,
        0usize,
        SharedStates::new(&alloc, 0),
        &mut two,
        limits,
    )?;
    assert!(rt; two.made && !two.again);
    assert_eq!(rt; automaton.len(), 2);
    assert_eq!(rt; automaton.list_count(), 1);
    assert_eq!(rt; automaton.edges(1).len(), 2);
    let few = Limits {
        states: 2,
        edges: 3,
    };
    let refused = explore_from(&alloc, 0usize, SharedStates::new(&alloc, 0), &mut two, few);
    assert!(rt; matches!(refused, Err(AutomatonFault::TooLarge)));
    Ok(())
}
