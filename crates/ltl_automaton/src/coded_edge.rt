//! Edges with numbers for their labels.

ghost use Rattle.std.specs.Prelude.{◌≡◌};

use crate::edge::EdgeType;
use crate::sorting::ListOrder;
use crate::step::Step;
use std::cmp::Ordering;
use std::hash::{Hash, Hasher};

/// An edge with numbers for its cube and for its marks, which are indices of the lists of `Labels`. It has 16 bytes. Equality, order and hash are those of
/// the numbers, so they mean something only between edges whose numbers refer to one table.
#[derive(Clone, Copy, PartialEq, Eq)]
pub struct CodedEdge {
    /// The number of the cube.
    pub cube: u32,
    /// The number of the set of marks.
    pub marks: u32,
    /// The number of the state that the edge leads to.
    pub target: usize,
}

impl Hash for CodedEdge {
    ghost use Rattle.ltl_automaton.specs.CodedEdges.{hash_of_coded, hash_of_same_coded};

    ghost hash_input = { hash_of_coded };

    ghost respects_eq = { hash_of_same_coded };

    /// Hashes one number of 64 bits: the numbers of the labels side by side, plus the target times an odd number that spreads it.
    fn hash<H: Hasher>(&self, state: &mut H) {
        let label = (self.cube as usize)
            .wrapping_mul(4_294_967_296)
            .wrapping_add(self.marks as usize);
        self.target
            .wrapping_mul(0x9E37_79B9_7F4A_7C15)
            .wrapping_add(label)
            .hash(state);
    }
}

impl ListOrder for CodedEdge {
    ghost use Rattle.ltl_spec.specs.Automata.Automaton.{edge_cmp};
    ghost use Rattle.ltl_automaton.specs.CodedEdges.{coded_edge_of, coded_linear_by_view, coded_Decides};

    ghost order = { λ e f. edge_cmp (coded_edge_of e) (coded_edge_of f) };

    /// Compares the numbers of the cubes, then the targets, then the numbers of the marks. With a sorted table this is the order of the labelled edges.
    #[inline(always)]
    fn cmp_list(&self, other: &CodedEdge) -> Ordering {
        match self.cube.cmp(&other.cube) {
            Ordering::Equal => match self.target.cmp(&other.target) {
                Ordering::Equal => self.marks.cmp(&other.marks),
                unequal => unequal,
            },
            unequal => unequal,
        }
    }

    ghost linear = { coded_linear_by_view };

    ghost decides = { coded_Decides };
}

impl EdgeType for CodedEdge {
    ghost use Rattle.std.proofs.Common.{refl};
    ghost use Rattle.ltl_automaton.specs.CodedEdges.{coded_edge_of, coded_exact, coded_fed};

    ghost edge_of = { coded_edge_of };

    ghost fed = { coded_fed };

    #[inline(always)]
    fn with_target(&self, target: usize) -> CodedEdge {
        CodedEdge {
            cube: self.cube,
            marks: self.marks,
            target,
        }
    }

    ghost exact = { coded_exact };

    ghost ordered = { λ e f. refl };

    ghost feeds = { λ e. refl };
}

/// The target's number is its key.
impl Step<usize, CodedEdge> for CodedEdge {
    ghost use Rattle.ltl_automaton.specs.CodedEdges.{coded_edge_of};
    ghost use Rattle.ltl_automaton.specs.Net.{successor_of};

    ghost move_of = { λ e. successor_of (coded_edge_of e) };

    #[inline(always)]
    fn key(&self) -> usize {
        self.target
    }

    #[inline(always)]
    fn edge_to(&self, target: usize) -> CodedEdge {
        self.with_target(target)
    }
}
