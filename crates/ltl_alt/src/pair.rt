//! Pairs: the transitions of the very weak alternating automaton.

ghost use Rattle.std.specs.Prelude.{◌≡◌, ◌<◌, ◌+◌, [], ◌∷◌, length};
ghost use Rattle.ltl_sets.specs.Literals.{literal_of};
ghost use Rattle.ltl_spec.specs.Transitions.Pairs.{pair_cmp, join_pair, empty_pair};
ghost use Rattle.ltl_spec.specs.Transitions.Pruning.{is_within};

use ltl_automaton::ListOrder;
use ltl_sets::{Cube, Literal, RowSet};
use std::cmp::Ordering;
use std::hash::{Hash, Hasher};
use std::marker::Model;

/// The literals that have to be true now, and the rows that have to hold next. Rows are given by their places among the elementary rows.
#[derive(Clone, Copy, Debug)]
pub struct Pair {
    /// The literals, which don't contradict each other.
    pub cube: Cube,
    /// The places of the rows.
    pub targets: RowSet,
}

impl Model for Pair {
    ghost use Rattle.ltl_spec.specs.Transitions.Pairs as spec;
    ghost use Rattle.ltl_alt.specs.Codes.{pair_code};

    ghost Value = { spec.Pair };

    ghost coded = { pair_code };

    ghost view = { λ p. record { cube = p.cube; targets = p.targets } };

    ghost inverse = { λ p. record { cube = p.cube; targets = p.targets } };
}

impl Pair {
    /// The pair that needs nothing.
    pub fn empty() -> Pair
        ensures { result ≡ empty_pair }
    {
        Pair {
            cube: Cube::empty(),
            targets: RowSet::empty(),
        }
    }

    /// The pair that needs one literal now and has no targets.
    pub fn now(literal: Literal) -> Pair
        requires { literal.proposition < RowSet.LIMIT }
        ensures { result ≡ record { cube = literal_of literal ∷ []; targets = [] } }
    {
        Pair {
            cube: Cube::literal(literal.proposition, literal.positive),
            targets: RowSet::empty(),
        }
    }

    /// The pair that needs these rows next and no literal.
    pub fn later(targets: RowSet) -> Pair
        ensures { result ≡ record { cube = []; targets = targets } }
    {
        Pair {
            cube: Cube::empty(),
            targets,
        }
    }

    /// The union of both pairs' literals and targets, or `None` if their literals contradict each other.
    pub fn join(&self, other: &Pair) -> Option<Pair>
        ensures { result ≡ join_pair self.now other.now }
    {
        let cube = self.cube.join(&other.cube)?;
        Some(Pair {
            cube,
            targets: self.targets.union(&other.targets),
        })
    }

    /// Whether this pair's literals and targets are among the other's.
    #[inline(always)]
    pub(crate) fn is_within(&self, other: &Pair) -> bool
        ensures { result ≡ is_within self.now other.now }
    {
        self.cube.implies_of(&other.cube) && self.targets.is_subset(&other.targets)
    }

    /// The number of its literals and targets.
    #[inline(always)]
    pub(crate) fn size(&self) -> usize
        ensures { result ≡ length self.now.cube + length self.now.targets }
    {
        self.cube.invariant();
        self.targets.invariant();
        self.cube.count() + self.targets.count()
    }
}

impl ListOrder for Pair {
    ghost use Rattle.ltl_spec.specs.Transitions.Pairs.{pair_cmp};
    ghost use Rattle.ltl_spec.proofs.Collections.Orders.{pair_linear};
    ghost use Rattle.ltl_alt.specs.PairHash.{pair_Decides};

    ghost order = { pair_cmp };

    /// Compares by the literals, then by the targets, each as a sorted list.
    #[inline(always)]
    fn cmp_list(&self, other: &Pair) -> Ordering {
        match self.cube.cmp_list(&other.cube) {
            Ordering::Equal => self.targets.cmp_list(&other.targets),
            unequal => unequal,
        }
    }

    ghost linear = { pair_linear };

    ghost decides = { pair_Decides };
}

impl PartialEq for Pair {
    ghost use Rattle.std.specs.Cmp.{partial_equiv_from_equiv, eq_by_cmp_equiv};
    ghost use Rattle.std.specs.Ordering.{eq_by_cmp};
    ghost use Rattle.ltl_spec.specs.Transitions.Pairs.{pair_cmp};
    ghost use Rattle.ltl_spec.proofs.Collections.Orders.{pair_linear};

    ghost eq = { eq_by_cmp pair_cmp };

    ghost laws = { partial_equiv_from_equiv (eq_by_cmp_equiv pair_linear.total) };

    #[inline(always)]
    fn eq(&self, other: &Pair) -> bool {
        self.targets == other.targets && self.cube == other.cube
    }
}

impl Eq for Pair {
    ghost use Rattle.std.specs.Cmp.{eq_by_cmp_equiv};
    ghost use Rattle.ltl_spec.proofs.Collections.Orders.{pair_linear};

    ghost laws = { eq_by_cmp_equiv pair_linear.total };
}

impl Hash for Pair {
    ghost use Rattle.ltl_alt.specs.PairHash.{hash_of_pair, hash_of_same};

    ghost hash_input = { hash_of_pair };

    ghost respects_eq = { hash_of_same };

    #[inline(always)]
    fn hash<H: Hasher>(&self, state: &mut H) {
        self.cube.hash(state);
        self.targets.hash(state);
    }
}
