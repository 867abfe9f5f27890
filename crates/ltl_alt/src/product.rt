//! The Cartesian product of the transitions of independent components.

ghost use Rattle.std.specs.Prelude.{◌≡◌, ℕ, ◌≤◌, ◌++◌, filter_map, length, map, take, drop, IfOk, OnOk};
ghost use Rattle.std.specs.List.Sorted.{IsPermutation, IsSorted};
ghost use Rattle.ltl_spec.specs.Transitions.RowTransitions as spec;
ghost use Rattle.ltl_spec.proofs.Transitions.FactorLaws.{all_products, product_size};
ghost use Rattle.ltl_spec.proofs.Transitions.IndependentMarks.{at_once};
ghost use Rattle.ltl_spec.proofs.Transitions.ProductTransitions.{product};
ghost use Rattle.ltl_alt.specs.BasisView.{IsBasis};
ghost use Rattle.ltl_alt.specs.FinalView.{made_of};
ghost use Rattle.ltl_alt.specs.ProductView.{AreConsistent, join_transitions};
ghost use Rattle.ltl_alt.specs.TransitionView.{table_at};

use crate::basis::Basis;
use crate::finals::Finals;
use crate::transition::Transition;
use std::alloc::{AllocError, Allocator};

/// Sorts transitions by literals and then by targets. The sort is stable, since products have long sorted runs.
pub(crate) fn sort<A: Allocator>(transitions: &mut Vec<Transition, &A>) -> Result<(), AllocError>
    ensures permutation { OnOk result (IsPermutation transitions.old.items transitions.new.items) }
    ensures sorted { OnOk result (IsSorted spec.transition_cmp transitions.new.items) }
{
    transitions.sort_by(|t, u| t.cmp_list(u))?;
    Ok(())
}

/// Replaces each transition by its union with another one, whose literals contradict none of theirs.
fn join_each(products: &mut [Transition], one: &Transition)
    requires consistent { AreConsistent (map (at_once one.now) products.old) }
    ensures { products.new ≡ map (at_once one.now) products.old }
{
    'products: for i in 0..products.len() {
        if let Some(joined) = one.at_once(&products[i]) {
            products[i] = joined;
        }
    }
}

/// Appends the unions of a transition with each of the first `count` products.
fn append_joined<A: Allocator>(
    products: &mut Vec<Transition, &A>,
    count: usize,
    one: &Transition,
) -> Result<(), AllocError>
    requires { count ≤ length products.old.items }
    ensures { OnOk result (products.new.items ≡ products.old.items ++ filter_map (join_transitions one.now) (take count products.old.items)) }
{
    'products: for i in 0..count {
        if let Some(joined) = one.at_once(&products[i]) {
            products.push(joined)?;
        }
    }
    Ok(())
}

/// Replaces the products by their unions with each transition of a list. The unions with the first one take their places.
fn multiply<A: Allocator>(
    products: &mut Vec<Transition, &A>,
    list: &[Transition],
) -> Result<(), AllocError>
    requires consistent { AreConsistent (product list.now products.old.items) }
    ensures { OnOk result (products.new.items ≡ product list.now products.old.items) }
{
    if list.is_empty() {
        products.clear();
        return Ok(());
    }
    let count = products.len();
    'rest: for k in 1..list.len() {
        append_joined(products, count, &list[k])?;
    }
    let (first, _) = products.as_mut_slice().split_at_mut(count);
    join_each(first, &list[0]);
    Ok(())
}

/// The product of these factors, in some order. Before a factor with several transitions is multiplied, the product of the later factors is sorted, so each
/// product has few sorted runs.
pub(crate) fn all_products<'a, A: Allocator>(
    basis: &Basis<'_, '_, '_, 'a, A>,
    finals: &Finals<'a, A>,
    factors: &[usize],
) -> Result<Vec<Transition, &'a A>, AllocError>
    requires basis { IsBasis basis.now }
    requires consistent { (k : ℕ) → AreConsistent (all_products (table_at basis.now.table.now) (drop k (map (made_of finals.now.lists.keys) factors.now))) }
    ensures { IfOk result (λ v. IsPermutation (all_products (table_at basis.now.table.now) (map (made_of finals.now.lists.keys) factors.now)) v.items) }
{
    let mut products = Vec::with_capacity(basis.alloc, combinations(finals, factors))?;
    products.extend_from_slice(basis.neutral.as_slice())?;
    let mut left = factors.len();
    'factors: while left > 0 {
        left -= 1;
        let list = finals.transitions(factors[left]);
        if list.len() > 1 {
            sort(&mut products)?;
        }
        multiply(&mut products, list)?;
    }
    Ok(products)
}

/// The number of combinations of one transition of each factor, or `usize::MAX` if it is larger than that.
pub(crate) fn combinations<'a, A: Allocator>(finals: &Finals<'a, A>, factors: &[usize]) -> usize
    ensures { result ≤ product_size (map (made_of finals.now.lists.keys) factors.now) }
{
    let mut count = 1usize;
    let mut left = factors.len();
    'factors: while left > 0 {
        left -= 1;
        let size = finals.transitions(factors[left]).len();
        count = count.saturating_mul(size);
    }
    count
}
