//! Cubes: conjunctions of literals that don't contradict each other.

ghost use Rattle.std.specs.Prelude.{◌≡◌, ◌<◌, ◌≤◌, false, [], ◌∷◌, length, bit_or, bit_xor};
ghost use Rattle.std.specs.List.{AllByRecursion, filter};
ghost use Rattle.std.specs.Ordering.{nat_cmp};
ghost use Rattle.std.specs.Iterator.{YieldsFirst, item_count};
ghost use Rattle.std.specs.Iterator.Runs.{YieldsInOrder};
ghost use Rattle.ltl_sets.specs.declared.literal.Literal as made;
ghost use Rattle.ltl_spec.specs.Collections.Sets as sets;
ghost use Rattle.ltl_spec.specs.Transitions.Cubes as cubes;
ghost use Rattle.ltl_sets.specs.Literals.{cube_of};
ghost use Rattle.std.specs.Simd.Lanes.{zip2};
ghost use Rattle.ltl_sets.specs.Words.{IsCubeWords, IsLowest, letter_of, forbidden_of, literals};

use crate::lanes;
use crate::literal::Literal;
use crate::row_set::{Members, PropositionSet, RowSet};
use std::alloc::AllocError;
use std::cmp::Ordering;
use std::fmt;
use std::hash::{Hash, Hasher};
use std::marker::Model;
use std::simd::prelude::*;
use std::simd::u64x4;

/// A conjunction of literals of propositions below [`RowSet::LIMIT`], as two bit sets. No proposition has both signs. Contracts see it as the list of
/// its literals by proposition.
pub struct Cube {
    positive: u64x4,
    negative: u64x4,
}

impl Model for Cube {
    ghost use Rattle.std.specs.Prelude.{List, true, false};
    ghost use Rattle.ltl_spec.specs.Transitions.Cubes as cubes;
    ghost use Rattle.ltl_sets.specs.Words.{IsCubeWords, literals, words_with_literals};

    ghost Value = { List cubes.Literal };

    ghost view = { λ a. literals a.positive a.negative };

    ghost invariant = { λ a. IsCubeWords a.positive a.negative };

    ghost inverse = { λ ls. record { positive = words_with_literals true ls; negative = words_with_literals false ls } };

    ghost use Rattle.ltl_sets.specs.Inverses.{cube_again};

    ghost inverse_ok = { cube_again };
}

/// The cube without literals, which is true.
impl Default for Cube {
    ghost is_default = { λ c. c ≡ [] };

    fn default() -> Cube {
        Cube::empty()
    }
}

/// Compares two cubes as the sorted lists of their literals, given the lowest proposition `p` at which they differ.
#[inline(always)]
fn cmp_at(
    positive: u64x4,
    negative: u64x4,
    other_positive: u64x4,
    other_negative: u64x4,
    p: usize,
) -> Ordering
    requires own { IsCubeWords positive negative }
    requires other { IsCubeWords other_positive other_negative }
    requires first { IsLowest (zip2 bit_or (zip2 bit_xor positive other_positive) (zip2 bit_xor negative other_negative)) p }
    ensures { result ≡ cubes.cube_cmp (literals positive negative) (literals other_positive other_negative) }
{
    let differing = positive ^ other_positive;
    let own = if lanes::has(&differing, p) {
        positive
    } else {
        negative
    };
    let is_mine = lanes::has(&own, p);
    let lacking = if is_mine {
        other_positive | other_negative
    } else {
        positive | negative
    };
    lanes::list_order(is_mine, lanes::reaches(lacking, p))
}

impl Cube {
    /// The cube without literals, which is true.
    pub fn empty() -> Cube
        ensures { result ≡ [] }
    {
        Cube {
            positive: u64x4::splat(0),
            negative: u64x4::splat(0),
        }
    }

    /// The cube of one literal: proposition `p`, or its negation if `sign` is `false`.
    pub fn literal(p: usize, sign: bool) -> Cube
        requires { p < RowSet.LIMIT }
        ensures { result ≡ record { proposition = p; positive = sign } ∷ [] }
    {
        let place = lanes::single(p);
        let none = u64x4::splat(0);
        if sign {
            Cube {
                positive: place,
                negative: none,
            }
        } else {
            Cube {
                positive: none,
                negative: place,
            }
        }
    }

    /// The conjunction of two cubes, or `None` if they contradict each other.
    #[inline(always)]
    pub fn join(&self, other: &Cube) -> Option<Cube>
        ensures { result ≡ cubes.join_cubes self.now other.now }
    {
        let positive = self.positive | other.positive;
        let negative = self.negative | other.negative;
        if lanes::is_zero(positive & negative) {
            Some(Cube { positive, negative })
        } else {
            None
        }
    }

    /// The literals that are in both cubes.
    #[inline(always)]
    pub fn common(&self, other: &Cube) -> Cube
        ensures { result ≡ filter (λ l. sets.has cubes.literal_cmp l other.now) self.now }
    {
        Cube {
            positive: self.positive & other.positive,
            negative: self.negative & other.negative,
        }
    }

    /// Whether the literals are among those of the other cube, so that the other cube implies this one.
    #[inline(always)]
    pub fn implies_of(&self, other: &Cube) -> bool
        ensures { result ≡ sets.is_subset cubes.literal_cmp self.now other.now }
    {
        let lacking = (self.positive & !other.positive) | (self.negative & !other.negative);
        lanes::is_zero(lacking)
    }

    /// Whether the cube is true at a letter, in which exactly these propositions are true.
    pub fn allows(&self, letter: &PropositionSet) -> bool
        ensures { result ≡ cubes.allows (λ i. sets.has nat_cmp i letter.now) self.now }
    {
        let failing = (self.positive & !letter.lanes) | (self.negative & letter.lanes);
        lanes::is_zero(failing)
    }

    /// The least letter at which the cube is true: the propositions of its positive literals.
    pub fn letter(&self) -> PropositionSet
        ensures { result ≡ letter_of self.now }
    {
        RowSet {
            lanes: self.positive,
        }
    }

    /// The propositions of the negative literals.
    pub fn forbidden(&self) -> RowSet
        ensures { result ≡ forbidden_of self.now }
    {
        RowSet {
            lanes: self.negative,
        }
    }

    /// The number of literals.
    #[inline(always)]
    pub fn count(&self) -> usize
        ensures { result ≡ length self.now }
    {
        self.invariant();
        self.letter().count() + self.forbidden().count()
    }

    /// Compares the cubes as the sorted lists of their literals.
    #[inline(always)]
    pub fn cmp_list(&self, other: &Cube) -> Ordering
        ensures { result ≡ cubes.cube_cmp self.now other.now }
    {
        let positive = self.positive ^ other.positive;
        let negative = self.negative ^ other.negative;
        let differing = positive | negative;
        match lanes::lowest_of_first(differing) {
            Some(p) => cmp_at(
                self.positive,
                self.negative,
                other.positive,
                other.negative,
                p,
            ),
            None => match lanes::lowest(differing) {
                Some(q) => cmp_at(
                    self.positive,
                    self.negative,
                    other.positive,
                    other.negative,
                    q,
                ),
                None => Ordering::Equal,
            },
        }
    }

    /// The literals by proposition.
    #[inline(always)]
    pub fn iter(&self) -> Literals
        ensures literals { cube_of result ≡ self.now }
        ensures few { length result ≤ RowSet.LIMIT }
        ensures runs { YieldsInOrder (YieldsFirst {A = made.Literal} (λ rest. rest)) (λ rest. rest) }
    {
        let places = RowSet {
            lanes: self.positive | self.negative,
        };
        Literals {
            places: places.iter(),
            positive: self.letter(),
        }
    }

    /// Gives a caller's proof the invariant: the literals are sorted, their propositions are below [`RowSet::LIMIT`], and they don't contradict each
    /// other. It does nothing when it runs.
    pub fn invariant(&self)
        ensures rising { sets.IsRising cubes.literal_cmp self.now }
        ensures below { AllByRecursion (λ l. l.proposition < RowSet.LIMIT) self.now }
        ensures few { length self.now ≤ RowSet.LIMIT }
        ensures consistent { cubes.is_contradictory self.now ≡ false }
    {
        let _ = &self.positive;
    }
}

impl Clone for Cube {
    ghost use Rattle.std.specs.Prelude.{◌≡◌, ⊤};

    ghost is_clone = { λ s r. r ≡ s };

    ghost is_infallible = { λ _. ⊤ };

    fn clone(&self) -> Result<Cube, AllocError> {
        Ok(*self)
    }
}

impl Copy for Cube {}

impl PartialEq for Cube {
    ghost use Rattle.ltl_sets.specs.CubeEq.{same_cube, same_partial};

    ghost eq = { same_cube };

    ghost laws = { same_partial };

    #[inline(always)]
    fn eq(&self, other: &Cube) -> bool {
        lanes::is_zero((self.positive ^ other.positive) | (self.negative ^ other.negative))
    }
}

impl Eq for Cube {
    ghost use Rattle.ltl_sets.specs.CubeEq.{same_equiv};

    ghost laws = { same_equiv };
}

impl Hash for Cube {
    ghost use Rattle.ltl_sets.specs.CubeEq.{hash_of_cube, hash_of_same};

    ghost hash_input = { hash_of_cube };

    ghost respects_eq = { hash_of_same };

    #[inline(always)]
    fn hash<H: Hasher>(&self, state: &mut H) {
        lanes::hash(&self.positive, state);
        lanes::hash(&self.negative, state);
    }
}

impl fmt::Debug for Cube {
    fn fmt<W: fmt::Write>(&self, f: &mut fmt::Formatter<W>) -> fmt::Result {
        f.debug_set().entries(self.iter()).finish()
    }
}

/// An iterator over the literals of a cube. Contracts see it as the list of those still to come.
#[derive(Clone, Debug, Drop)]
pub struct Literals {
    places: Members,
    positive: RowSet,
}

impl Model for Literals {
    ghost use Rattle.std.specs.Prelude.{◌<◌, List, map};
    ghost use Rattle.std.specs.List.{AllByRecursion};
    ghost use Rattle.ltl_sets.specs.declared.literal.Literal as made;
    ghost use Rattle.ltl_sets.specs.declared.row_set.TheConstants.RowSet.{LIMIT};
    ghost use Rattle.ltl_sets.specs.Literals.{signed_by};

    ghost Value = { List made.Literal };

    ghost view = { λ a. map (signed_by a.positive) a.places };

    ghost invariant = { λ a. AllByRecursion (λ p. p < LIMIT) a.places };
}

impl Iterator for Literals {
    type Item = Literal;

    ghost next_gives = { YieldsFirst (λ rest. rest) };

    ghost remaining = { item_count (λ rest. rest) };

    #[inline(always)]
    fn next(&mut self) -> Option<Literal> {
        let proposition = self.places.next()?;
        let positive = self.positive.contains(proposition);
        Some(Literal {
            proposition,
            positive,
        })
    }
}
