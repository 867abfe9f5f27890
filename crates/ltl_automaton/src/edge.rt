//! Edges of explicit automata.

ghost use Rattle.std.specs.Prelude.{◌≡◌, ℕ, List};
ghost use Rattle.ltl_spec.specs.Automata.Automaton as spec;
ghost use Rattle.ltl_spec.specs.Automata.Automaton.{edge_cmp};
ghost use Rattle.ltl_spec.specs.Construction.Merging.{retargeted_edge};

use crate::sorting::ListOrder;
use ltl_sets::{Cube, RowSet};
use std::cmp::Ordering;
use std::hash::Hash;

/// The ways in which the edges of an automaton are stored: with their labels (`Edge`), or with numbers for them (`CodedEdge`).
pub trait EdgeType: ListOrder + Eq + Hash {
    ghost edge_of: { Self → spec.Edge };

    ghost fed: { spec.Edge → List (List ℕ) };

    /// The edge with another target.
    fn with_target(&self, target: usize) -> Self
        ensures { edge_of result ≡ retargeted_edge (λ _. target) (edge_of self.now) };

    ghost exact: { (e f : Self) → edge_of e ≡ edge_of f → e ≡ f };

    ghost ordered: { (e f : Self) → Self.ListOrder.order e f ≡ edge_cmp (edge_of e) (edge_of f) };

    ghost feeds: { (e : Self) → Self.Hash.hash_input e ≡ fed (edge_of e) };
}

/// An edge: its label as a cube, the number of its target, and the numbers of the acceptance sets that it belongs to. It has 104 bytes.
#[derive(Clone, Copy, Debug, PartialEq, Eq, Hash)]
pub struct Edge {
    pub cube: Cube,
    pub target: usize,
    pub marks: RowSet,
}

impl ListOrder for Edge {
    ghost use Rattle.ltl_automaton.specs.EdgeView.{edge_of};
    ghost use Rattle.ltl_automaton.specs.EdgeOrder.{edge_linear_by_view, edge_Decides};

    ghost order = { λ e f. edge_cmp (edge_of e) (edge_of f) };

    /// Compares the labels, then the targets, then the acceptance sets.
    #[inline(always)]
    fn cmp_list(&self, other: &Edge) -> Ordering {
        match self.cube.cmp_list(&other.cube) {
            Ordering::Equal => match self.target.cmp(&other.target) {
                Ordering::Equal => self.marks.cmp_list(&other.marks),
                unequal => unequal,
            },
            unequal => unequal,
        }
    }

    ghost linear = { edge_linear_by_view };

    ghost decides = { edge_Decides };
}

impl EdgeType for Edge {
    ghost use Rattle.std.proofs.Common.{refl};
    ghost use Rattle.ltl_automaton.specs.EdgeView.{hash_of_edge};
    ghost use Rattle.ltl_automaton.specs.EdgeView as view;
    ghost use Rattle.ltl_automaton.specs.EdgeOrder.{edge_exact};

    ghost edge_of = { view.edge_of };

    ghost fed = { hash_of_edge };

    #[inline(always)]
    fn with_target(&self, target: usize) -> Edge {
        Edge {
            cube: self.cube,
            target,
            marks: self.marks,
        }
    }

    ghost exact = { edge_exact };

    ghost ordered = { λ e f. refl };

    ghost feeds = { λ e. refl };
}
