//! The product of two automata, on the fly.

ghost use Rattle.std.specs.Prelude.{◌≡◌, ℕ, ◌<◌, [], ◌∷◌, length, All};
ghost use Rattle.ltl_spec.specs.Collections.Sets.{Has};
ghost use Rattle.ltl_spec.specs.Transitions.Cubes as cubes;
ghost use Rattle.ltl_spec.specs.Automata.Automaton.{state_at};
ghost use Rattle.ltl_spec.specs.Checking.Product.{renamed_cube};
ghost use Rattle.ltl_spec.specs.Checking.Bounds.{HasNamesBelow};
ghost use Rattle.ltl_sets.specs.declared.row_set.TheConstants.RowSet.{LIMIT};
ghost use Rattle.ltl_check.specs.ProductView.{IsSearchable, number_in, pair_marks, first_edges, second_edges, pair_count, edge_pairs, IsPair, pair_place, pair_at, pair_step, start_pair};

use crate::graph::{Graph, Step};
use crate::operand::Operand;
use ltl_models::Ba;
use ltl_sets::{Cube, Literal, RowSet};
use std::alloc::Allocator;

/// A state of the product: the numbers of a state of each automaton.
#[derive(Clone, Copy, Debug)]
pub struct ProductState {
    pub first: usize,
    pub second: usize,
}

/// The number of pairs of edges that were looked at. It stays at its greatest value.
#[derive(Debug, Drop)]
pub struct Steps {
    pub(crate) count: u128,
}

impl Steps {
    /// No look was counted.
    pub fn new() -> Steps
        ensures { result.count ≡ 0 }
    {
        Steps { count: 0 }
    }
}

/// The literal as a cube, with its proposition renumbered.
fn numbered(literal: Literal, numbers: &[usize]) -> Cube
    requires named { literal.proposition < length numbers.now }
    requires within { All (λ n. n < RowSet.LIMIT) numbers.now }
    ensures { result ≡ record { proposition = number_in numbers.now literal.proposition; positive = literal.positive } ∷ [] }
{
    Cube::literal(numbers[literal.proposition], literal.positive)
}

/// The conjunction of both cubes, or `None` if they contradict each other. `numbers` has the new number for each proposition of `other`.
fn joined(mine: &Cube, other: &Cube, numbers: &[usize]) -> Option<Cube>
    requires named { (l : cubes.Literal) → Has other.now l → l.proposition < length numbers.now }
    requires within { All (λ n. n < RowSet.LIMIT) numbers.now }
    ensures { result ≡ cubes.join_cubes mine.now (renamed_cube (number_in numbers.now) other.now) }
{
    let mut cube = *mine;
    for literal in other.iter() {
        match cube.join(&numbered(literal, numbers)) {
            Some(more) => cube = more,
            None => return None,
        }
    }
    cube.invariant();
    Some(cube)
}

/// The product, over the names of both. It borrows both automata and the numbers that the second one's propositions have among all
/// names, and builds neither states nor edges.
#[derive(Drop)]
pub struct Product<'p, 'a, F: Operand, A: Allocator> {
    pub(crate) first: &'p F,
    pub(crate) second: &'p Ba<'a, A>,
    pub(crate) numbers: &'p [usize],
    ghost inside: { IsSearchable (F.automaton_of first.now) second.now },
    ghost named: { HasNamesBelow (length numbers.now) second.now },
    ghost within: { All (λ n. n < LIMIT) numbers.now },
}

impl<'p, 'a, F: Operand, A: Allocator> Product<'p, 'a, F, A> {
    /// The product of two automata. `numbers` has, for each proposition of the second one, its number in the product. The propositions of the first
    /// one keep their numbers.
    pub fn new(first: &'p F, second: &'p Ba<'a, A>, numbers: &'p [usize]) -> Product<'p, 'a, F, A>
        requires named { HasNamesBelow (length numbers.now) second.now }
        requires within { All (λ n. n < RowSet.LIMIT) numbers.now }
        ensures first { result.first.now ≡ first.now }
        ensures second { result.second.now ≡ second.now }
        ensures numbers { result.numbers.now ≡ numbers.now }
    {
        first.invariant();
        second.invariant();
        Product {
            first,
            second,
            numbers,
        }
    }

    /// The acceptance sets of an edge: those of the first automaton's edge, and one set more if the edge leaves an accepting state of the second
    /// automaton.
    fn marks(&self, marks: RowSet, second: usize) -> RowSet
        requires { second < length self.now.second.now.states }
        ensures { result ≡ pair_marks (F.automaton_of self.now.first.now).sets (state_at self.now.second.now second).accepting marks }
    {
        let mut all = marks;
        if self.second.accepting(second) {
            all.insert(self.first.sets());
        }
        all
    }
}

impl<'p, 'a, F: Operand, A: Allocator> Graph for Product<'p, 'a, F, A> {
    type State = ProductState;

    type Looks = Steps;

    ghost use Rattle.std.specs.Prelude.{◌+◌};
    ghost use Rattle.ltl_check.specs.PairLaws.{place_in_rows, pair_of_number, place_of_pair, pair_back, pair_target, pair_marks_below};

    ghost count_of = { λ p. pair_count (F.automaton_of p.first.now) p.second.now };

    ghost sets_of = { λ p. (F.automaton_of p.first.now).sets + 1 };

    ghost start_of = { λ p. start_pair (F.automaton_of p.first.now) p.second.now };

    ghost number_of = { λ p. pair_place (F.automaton_of p.first.now) p.second.now };

    ghost state_of = { λ p. pair_at (F.automaton_of p.first.now) p.second.now };

    ghost IsState = { λ p. IsPair (F.automaton_of p.first.now) p.second.now };

    ghost pairs_of = { λ p. edge_pairs (F.automaton_of p.first.now) p.second.now };

    ghost step_of = { λ p. pair_step (F.automaton_of p.first.now) p.second.now p.numbers.now };

    ghost looked_of = { λ c. c.count };

    fn count(&self) -> usize {
        self.first.len() * self.second.len()
    }

    fn sets(&self) -> usize {
        self.first.sets() + 1
    }

    fn start(&self) -> ProductState {
        ProductState {
            first: self.first.start(),
            second: 0,
        }
    }

    fn number(&self, s: ProductState) -> usize {
        s.first * self.second.len() + s.second
    }

    fn state(&self, n: usize) -> ProductState {
        let count = self.second.len();
        ProductState {
            first: n / count,
            second: n % count,
        }
    }

    fn pairs(&self, s: ProductState) -> usize {
        self.first.edge_count(s.first) * self.second.edges(s.second).len()
    }

    fn at(&self, s: ProductState, k: usize, looks: &mut Steps) -> Option<Step<ProductState>> {
        looks.count = looks.count.saturating_add(1);
        let others = self.second.edges(s.second);
        let place = k / others.len();
        let other = others.get(k % others.len());
        match joined(&self.first.cube(s.first, place), &other.cube, self.numbers) {
            Some(cube) => Some(Step {
                target: ProductState {
                    first: self.first.target(s.first, place),
                    second: other.target,
                },
                marks: self.marks(self.first.marks(s.first, place), s.second),
                letter: cube.letter(),
            }),
            None => None,
        }
    }

    fn looked(looks: &Steps) -> u128 {
        looks.count
    }

    ghost start_is = { λ p. (p.inside.begins, p.inside.some) };

    ghost state_is = { λ p n l. pair_of_number (F.automaton_of p.first.now) p.second.now n l };

    ghost target_is = { λ p s k t own inside e. pair_target (F.automaton_of p.first.now) p.second.now p.numbers.now p.inside s k t own inside e };

    ghost marks_below = { λ p s k t own inside e. pair_marks_below (F.automaton_of p.first.now) p.second.now p.numbers.now p.inside s k t own inside e };

    ghost below = { λ p s own. place_of_pair (F.automaton_of p.first.now) p.second.now s own };

    ghost back = { λ p s own. pair_back (F.automaton_of p.first.now) p.second.now s own };
}
