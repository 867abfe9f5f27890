//! The memo table of the transitions of components.

ghost use Rattle.std.specs.Prelude.{◌≡◌, ℕ, ◌<◌, [], map, length, IfOk, OnOk};
ghost use Rattle.ltl_spec.specs.Collections.Lists.{HasNoRepeats};
ghost use Rattle.ltl_spec.specs.Collections.Sets.{Has};
ghost use Rattle.ltl_spec.specs.Transitions.RowTransitions as spec;
ghost use Rattle.ltl_spec.proofs.Transitions.ProductTransitions.{transitions_of};
ghost use Rattle.ltl_spec.proofs.Transitions.SortedTransitions.{transitions_as_listed};
ghost use Rattle.ltl_alt.specs.BasisView.{IsBasis};
ghost use Rattle.ltl_alt.specs.FinalView.{HasFinals, IsFinal, IsListOf, IsLonger, made_of};
ghost use Rattle.ltl_alt.specs.MemoView.{last_list};
ghost use Rattle.ltl_alt.specs.TransitionView.{AllSets, table_at};

use crate::basis::Basis;
use crate::components::Components;
use crate::implied::unimplied;
use crate::marks::marked;
use crate::memo::JoinKey;
use crate::pair::Pair;
use crate::product::sort;
use crate::transition::Transition;
use crate::transition_list::TransitionList;
use indexmap::IndexMap;
use ltl_automaton::Interner;
use ltl_sets::RowSet;
use std::alloc::{AllocError, Allocator};
use std::hash::{BuildHasherDefault, FoldHasher};

/// A table that stores more pairs, joins, transitions and components than this in all is replaced by an empty one before the next set of rows.
const MOST_STORED: usize = 4_194_304;

/// The lists of transitions that components have, each stored once, with a number.
#[derive(Drop)]
pub(crate) struct Finals<'a, A: Allocator> {
    pub(crate) components: Components<'a, A>,
    pub(crate) lists: Interner<'a, TransitionList<'a, A>, A>,
    /// For each last join that was made the number of its transitions.
    pub(crate) of_joins: IndexMap<JoinKey, usize, BuildHasherDefault<FoldHasher>, &'a A>,
    /// For each component that was met the number of its transitions.
    pub(crate) of_components: IndexMap<RowSet, usize, BuildHasherDefault<FoldHasher>, &'a A>,
    /// The number of transitions and components that are stored.
    size: usize,
}

/// The transitions of pairs, in the order of the pairs: each with its marks, and without those that another one implies unless these are to be kept.
fn listed_transitions<'a, A: Allocator>(
    basis: &Basis<'_, '_, '_, 'a, A>,
    pairs: &[Pair],
) -> Result<Vec<Transition, &'a A>, AllocError>
    requires basis { IsBasis basis.now }
    requires sets { AllSets (map (spec.with_marks (table_at basis.now.table.now)) pairs.now) }
    ensures { IfOk result (λ v. v.items ≡ transitions_as_listed (table_at basis.now.table.now) basis.now.keep_implied pairs.now) }
{
    let all = marked(basis.alloc, basis.table, basis.pruning.fulfilment, pairs)?;
    if basis.keep_implied {
        return Ok(all);
    }
    let transitions = unimplied(basis.alloc, all)?;
    Ok(transitions)
}

/// The transitions of different pairs. They are sorted after implied ones are removed, since most of them are implied. The vector has room for those that
/// are left alone, since it is kept in memory.
fn pair_transitions<'a, A: Allocator>(
    basis: &Basis<'_, '_, '_, 'a, A>,
    pairs: &[Pair],
) -> Result<TransitionList<'a, A>, AllocError>
    requires basis { IsBasis basis.now }
    requires sets { AllSets (map (spec.with_marks (table_at basis.now.table.now)) pairs.now) }
    requires once { HasNoRepeats pairs.now }
    ensures { IfOk result (λ l. l ≡ transitions_of (table_at basis.now.table.now) basis.now.keep_implied pairs.now) }
{
    let mut left = listed_transitions(basis, pairs)?;
    sort(&mut left)?;
    let transitions = Vec::from_slice(basis.alloc, left.as_slice())?;
    Ok(TransitionList { transitions })
}

impl<'a, A: Allocator> Finals<'a, A> {
    /// A table without transitions. Its memo table of joins holds only the lists of the conjuncts.
    pub(crate) fn new(basis: &Basis<'_, '_, '_, 'a, A>) -> Result<Self, AllocError>
        ensures { IfOk result (HasFinals basis.now) }
    {
        let components = Components::new(basis.alloc, &basis.conjuncts)?;
        Ok(Finals {
            components,
            lists: Interner::new(basis.alloc),
            of_joins: IndexMap::new(basis.alloc),
            of_components: IndexMap::new(basis.alloc),
            size: 0,
        })
    }

    /// Whether so much is stored that the table is to be replaced by an empty one.
    pub(crate) fn is_full(&self) -> bool {
        self.size.saturating_add(self.components.memo.size) > MOST_STORED
    }

    /// The stored list with this number, or an empty one if there is none.
    pub(crate) fn transitions(&self, number: usize) -> &[Transition]
        ensures { result.now ≡ made_of self.now.lists.keys number }
    {
        if number < self.lists.len() {
            self.lists.get(number).as_slice()
        } else {
            &[]
        }
    }

    /// The number of the transitions of a last join. Its pairs aren't pruned before they get their marks.
    fn of_join(
        &mut self,
        basis: &Basis<'_, '_, '_, 'a, A>,
        key: JoinKey,
    ) -> Result<usize, AllocError>
        requires basis { IsBasis basis.now }
        requires finals { HasFinals basis.now self.old }
        requires within { key.left < length self.old.components.memo.lists.keys × key.right < length self.old.components.memo.lists.keys }
        requires sets { AllSets (map (spec.with_marks (table_at basis.now.table.now)) (last_list self.old.components.memo.lists.keys key)) }
        ensures finals { OnOk result (HasFinals basis.now self.new) }
        ensures number { IfOk result (IsListOf
            (table_at basis.now.table.now) basis.now.keep_implied self.old.components.memo.lists.keys self.new.lists.keys key) }
        ensures longer { OnOk result (IsLonger self.old.lists.keys self.new.lists.keys) }
    {
        if let Some(number) = self.of_joins.get(&key).copied() {
            return Ok(number);
        }
        let pairs = self.components.memo.joined(basis.alloc, &key)?;
        let transitions = pair_transitions(basis, pairs.as_slice())?;
        self.size = self.size.saturating_add(transitions.as_slice().len());
        let number = self.lists.number(transitions)?;
        self.of_joins.insert(key, number)?;
        Ok(number)
    }

    /// The number of the transitions of a component. The answer is remembered.
    #[inline(always)]
    pub(crate) fn number(
        &mut self,
        basis: &Basis<'_, '_, '_, 'a, A>,
        component: &RowSet,
    ) -> Result<usize, AllocError>
        requires basis { IsBasis basis.now }
        requires finals { HasFinals basis.now self.old }
        requires inside { (k : ℕ) → Has component.now k → k < length basis.now.conjuncts.lists.items }
        ensures finals { OnOk result (HasFinals basis.now self.new) }
        ensures number { IfOk result (IsFinal
            (table_at basis.now.table.now) basis.now.pruning.rule basis.now.keep_implied basis.now.conjuncts.lists.items self.new.lists.keys component.now) }
        ensures longer { OnOk result (IsLonger self.old.lists.keys self.new.lists.keys) }
    {
        if let Some(number) = self.of_components.get(component).copied() {
            return Ok(number);
        }
        let key = self.components.last(basis, component)?;
        let number = self.of_join(basis, key)?;
        self.of_components.insert(*component, number)?;
        self.size = self.size.saturating_add(1);
        Ok(number)
    }
}
