//! The transitions of a set of rows, as products over its independent components.

ghost use Rattle.std.specs.Prelude.{◌≡◌, ℕ, ◌<◌, ◌≤◌, [], length, OnOk, IfOk, IsErrOf};
ghost use Rattle.ltl_spec.specs.Collections.Sets.{Has};
ghost use Rattle.ltl_spec.specs.Transitions.RowTransitions as spec;
ghost use Rattle.ltl_alt.specs.BasisView.{IsBasis};
ghost use Rattle.ltl_alt.specs.FinalView.{AreFactorsOf, HasFinals, IsLonger};
ghost use Rattle.ltl_alt.specs.TransitionView.{table_at};

use crate::basis::Basis;
use crate::finals::Finals;
use crate::place::first;
use crate::product::{all_products, combinations, sort};
use crate::transition::Transition;
use ltl_automaton::AutomatonFault as AltFault;
use ltl_sets::RowSet;
use std::alloc::{AllocError, Allocator};

impl<'a, A: Allocator> Finals<'a, A> {
    /// The factors of these conjuncts: for each of their components the number of its transitions.
    pub(crate) fn factors(
        &mut self,
        basis: &Basis<'_, '_, '_, 'a, A>,
        all: &RowSet,
    ) -> Result<Vec<usize, &'a A>, AllocError>
        requires basis { IsBasis basis.now }
        requires finals { HasFinals basis.now self.old }
        requires inside { (k : ℕ) → Has all.now k → k < length basis.now.conjuncts.lists.items }
        ensures finals { OnOk result (HasFinals basis.now self.new) }
        ensures factors { IfOk result (λ v. AreFactorsOf basis.now self.new.lists.keys all.now v.items []) }
        ensures longer { OnOk result (IsLonger self.old.lists.keys self.new.lists.keys) }
    {
        let mut factors = Vec::new(basis.alloc);
        let mut rest = *all;
        'components: while let Some(conjunct) = first(&rest) {
            rest.invariant();
            let component = basis.conjuncts.component(conjunct, &rest);
            component.invariant();
            let factor = self.number(basis, &component)?;
            factors.push(factor)?;
            rest = rest.without(&component);
        }
        Ok(factors)
    }

    /// A lower bound on the number of transitions of a set of rows. It is their number, unless that exceeds `usize::MAX`.
    pub(crate) fn transitions_at_least(
        &mut self,
        basis: &Basis<'_, '_, '_, 'a, A>,
        state: &RowSet,
    ) -> Result<usize, AllocError>
        requires basis { IsBasis basis.now }
        requires finals { HasFinals basis.now self.old }
        ensures finals { OnOk result (HasFinals basis.now self.new) }
        ensures least { IfOk result (λ n. n ≤ length (spec.transitions (table_at basis.now.table.now) basis.now.keep_implied state.now)) }
        ensures longer { OnOk result (IsLonger self.old.lists.keys self.new.lists.keys) }
    {
        let Some(all) = basis.conjuncts.numbers(state) else {
            return Ok(0);
        };
        state.invariant();
        let factors = self.factors(basis, &all)?;
        Ok(combinations(self, factors.as_slice()))
    }

    /// The transitions of a set of rows, sorted by literals and then by targets. If there are more than `most`, the result is `TooLarge`. They are counted
    /// before any is made.
    pub(crate) fn set_transitions(
        &mut self,
        basis: &Basis<'_, '_, '_, 'a, A>,
        state: &RowSet,
        most: usize,
    ) -> Result<Vec<Transition, &'a A>, AltFault>
        requires basis { IsBasis basis.now }
        requires finals { HasFinals basis.now self.old }
        ensures finals { OnOk result (HasFinals basis.now self.new) }
        ensures transitions { IfOk result (λ v. v.items ≡ spec.transitions (table_at basis.now.table.now) basis.now.keep_implied state.now) }
        ensures large { IsErrOf result AltFault.TooLarge → most < length (spec.transitions (table_at basis.now.table.now) basis.now.keep_implied state.now) }
        ensures longer { OnOk result (IsLonger self.old.lists.keys self.new.lists.keys) }
    {
        let Some(all) = basis.conjuncts.numbers(state) else {
            return Ok(Vec::new(basis.alloc));
        };
        state.invariant();
        let factors = self.factors(basis, &all)?;
        if combinations(self, factors.as_slice()) > most {
            return Err(AltFault::TooLarge);
        }
        let mut products = all_products(basis, self, factors.as_slice())?;
        sort(&mut products)?;
        Ok(products)
    }
}
