//! The automata that can be the first one of a product.

ghost use Rattle.std.specs.Prelude.{◌≡◌, ◌<◌, ◌≤◌, length, slice_index_or, []};
ghost use Rattle.ltl_spec.specs.Hoa.HoaReading.{MarkedAutomaton};
ghost use Rattle.ltl_spec.specs.Checking.Bounds.{HasNamesBelow};
ghost use Rattle.ltl_hoa.specs.MarkedView.{IsMarked};
ghost use Rattle.ltl_hoa.specs.Printed as printed;
ghost use Rattle.ltl_spec.specs.Hoa.HoaPrinted as generalized;
ghost use Rattle.ltl_hoa.specs.declared.marked.TheConstants.{MOST_SETS};
ghost use Rattle.ltl_check.specs.ProductView.{edge_from, edges_from};

use ltl_hoa::Marked;
use ltl_models::{Ba, Gba};
use ltl_sets::{Cube, RowSet};
use ltl_syntax::Formula;
use std::alloc::Allocator;

/// A generalized Büchi automaton with acceptance sets of edges, over named propositions. It has one initial state. Its edges are asked for one by one, and each
/// part by itself, so that nothing is computed that a caller doesn't use.
pub trait Operand {
    ghost automaton_of: { Self → MarkedAutomaton };

    /// The number of states, which is at least 1.
    fn len(&self) -> usize
        ensures { result ≡ (automaton_of self.now).states };

    /// The number of the initial state.
    fn start(&self) -> usize
        ensures { result ≡ (automaton_of self.now).start };

    /// The number of acceptance sets.
    fn sets(&self) -> usize
        ensures { result ≡ (automaton_of self.now).sets };

    /// The number of propositions.
    fn name_count(&self) -> usize
        ensures { result ≡ length (automaton_of self.now).names };

    /// The name of a proposition.
    fn name(&self, i: usize) -> &str
        requires { i < length (automaton_of self.now).names }
        ensures { result.now ≡ slice_index_or (automaton_of self.now).names i [] };

    /// The number of edges of a state.
    fn edge_count(&self, s: usize) -> usize
        requires { s < (automaton_of self.now).states }
        ensures { result ≡ length (edges_from (automaton_of self.now) s) };

    /// The label of the edge `k` of a state, as a cube over the automaton's propositions.
    fn cube(&self, s: usize, k: usize) -> Cube
        requires own { s < (automaton_of self.now).states }
        requires inside { k < length (edges_from (automaton_of self.now) s) }
        ensures { result ≡ (edge_from (automaton_of self.now) s k).cube };

    /// The target of the edge `k` of a state.
    fn target(&self, s: usize, k: usize) -> usize
        requires own { s < (automaton_of self.now).states }
        requires inside { k < length (edges_from (automaton_of self.now) s) }
        ensures { result ≡ (edge_from (automaton_of self.now) s k).target };

    /// The acceptance sets that the edge `k` of a state belongs to.
    fn marks(&self, s: usize, k: usize) -> RowSet
        requires own { s < (automaton_of self.now).states }
        requires inside { k < length (edges_from (automaton_of self.now) s) }
        ensures { result ≡ (edge_from (automaton_of self.now) s k).marks };

    /// Gives a caller's proof what holds of each such automaton. It does nothing when it runs.
    fn invariant(&self)
        ensures { IsMarked (automaton_of self.now) };
}

impl<'a, A: Allocator> Operand for Marked<'a, A> {
    ghost automaton_of = { λ m. m };

    fn len(&self) -> usize {
        self.len()
    }

    fn start(&self) -> usize {
        self.start()
    }

    fn sets(&self) -> usize {
        self.sets()
    }

    fn name_count(&self) -> usize {
        self.names().len()
    }

    fn name(&self, i: usize) -> &str {
        self.names()[i].as_str()
    }

    fn edge_count(&self, s: usize) -> usize {
        self.edges(s).len()
    }

    fn cube(&self, s: usize, k: usize) -> Cube {
        self.edges(s)[k].cube
    }

    fn target(&self, s: usize, k: usize) -> usize {
        self.edges(s)[k].target
    }

    fn marks(&self, s: usize, k: usize) -> RowSet {
        self.edges(s)[k].sets.to_row_set()
    }

    fn invariant(&self) {
        self.invariant()
    }
}

/// A Büchi automaton whose propositions are those of a formula, by number. Its one acceptance set has the edges that leave accepting states.
#[derive(Drop)]
pub struct NamedBa<'p, 'a, A: Allocator> {
    ba: &'p Ba<'a, A>,
    formula: &'p Formula<'a, A>,
    ghost named: { HasNamesBelow (length formula.now.names) ba.now },
}

impl<'p, 'a, A: Allocator> NamedBa<'p, 'a, A> {
    /// The automaton with the names of the formula.
    pub fn new(ba: &'p Ba<'a, A>, formula: &'p Formula<'a, A>) -> NamedBa<'p, 'a, A>
        requires { HasNamesBelow (length formula.now.names) ba.now }
        ensures ba { result.ba.now ≡ ba.now }
        ensures formula { result.formula.now ≡ formula.now }
    {
        NamedBa { ba, formula }
    }
}

impl<'p, 'a, A: Allocator> Operand for NamedBa<'p, 'a, A> {
    ghost automaton_of = { λ n. printed.marked_of n.ba.now n.formula.now.names };

    fn len(&self) -> usize {
        self.ba.len()
    }

    fn start(&self) -> usize {
        0
    }

    fn sets(&self) -> usize {
        1
    }

    fn name_count(&self) -> usize {
        self.formula.name_count()
    }

    fn name(&self, i: usize) -> &str {
        self.formula.name(i)
    }

    fn edge_count(&self, s: usize) -> usize {
        self.ba.edges(s).len()
    }

    fn cube(&self, s: usize, k: usize) -> Cube {
        self.ba.edges(s).get(k).cube
    }

    fn target(&self, s: usize, k: usize) -> usize {
        self.ba.edges(s).get(k).target
    }

    fn marks(&self, s: usize, _: usize) -> RowSet {
        if self.ba.accepting(s) {
            RowSet::single(0)
        } else {
            RowSet::empty()
        }
    }

    fn invariant(&self) {
        self.ba.invariant();
        self.formula.invariant();
    }
}

/// A generalized Büchi automaton whose propositions are those of a formula, by number. It has at most as many acceptance sets as an automaton that is read.
#[derive(Drop)]
pub struct NamedGba<'p, 'a, A: Allocator> {
    gba: &'p Gba<'a, A>,
    formula: &'p Formula<'a, A>,
    ghost named: { HasNamesBelow (length formula.now.names) gba.now },
    ghost few: { gba.now.sets ≤ MOST_SETS },
}

impl<'p, 'a, A: Allocator> NamedGba<'p, 'a, A> {
    /// The automaton with the names of the formula.
    pub fn new(gba: &'p Gba<'a, A>, formula: &'p Formula<'a, A>) -> NamedGba<'p, 'a, A>
        requires named { HasNamesBelow (length formula.now.names) gba.now }
        requires few { gba.now.sets ≤ MOST_SETS }
        ensures gba { result.gba.now ≡ gba.now }
        ensures formula { result.formula.now ≡ formula.now }
    {
        NamedGba { gba, formula }
    }
}

impl<'p, 'a, A: Allocator> Operand for NamedGba<'p, 'a, A> {
    ghost automaton_of = { λ n. generalized.marked_of n.gba.now n.formula.now.names };

    fn len(&self) -> usize {
        self.gba.len()
    }

    fn start(&self) -> usize {
        0
    }

    fn sets(&self) -> usize {
        self.gba.sets()
    }

    fn name_count(&self) -> usize {
        self.formula.name_count()
    }

    fn name(&self, i: usize) -> &str {
        self.formula.name(i)
    }

    fn edge_count(&self, s: usize) -> usize {
        self.gba.edges(s).len()
    }

    fn cube(&self, s: usize, k: usize) -> Cube {
        self.gba.edges(s).get(k).cube
    }

    fn target(&self, s: usize, k: usize) -> usize {
        self.gba.edges(s).get(k).target
    }

    fn marks(&self, s: usize, k: usize) -> RowSet {
        self.gba.edges(s).get(k).marks
    }

    fn invariant(&self) {
        self.gba.invariant();
        self.formula.invariant();
    }
}
