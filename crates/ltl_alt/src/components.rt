//! The pruned joins of a component's conjuncts, which the memo table keeps.

ghost use Rattle.std.specs.Prelude.{◌≡◌, ℕ, ◌<◌, ◌≤◌, false, length, true, map, slice_index_or, IfOk, OnOk};
ghost use Rattle.ltl_spec.specs.Collections.Sets.{Has};
ghost use Rattle.ltl_spec.specs.Transitions.RowTransitions as spec;
ghost use Rattle.ltl_alt.specs.declared.rule.Rule as made_rule;
ghost use Rattle.ltl_alt.specs.BasisView.{IsBasis};
ghost use Rattle.ltl_alt.specs.ComponentView.{AreComponents, AreStarts, HasComponents, IsLastOf, start_of};
ghost use Rattle.ltl_alt.specs.ConjunctTableView.{IsLonger};
ghost use Rattle.ltl_alt.specs.TransitionView.{table_at};

use crate::basis::Basis;
use crate::conjunct_table::ConjunctTable;
use crate::memo::{JoinKey, Memo};
use crate::pair::Pair;
use crate::pair_set::PairSet;
use ltl_sets::RowSet;
use std::alloc::{AllocError, Allocator};

/// A last join with more ways than these to choose a pair of each side is large.
const MOST_WAYS: usize = 1_048_576;

/// The memo table of joins, with the lists of all conjuncts in it.
#[derive(Drop)]
pub(crate) struct Components<'a, A: Allocator> {
    pub(crate) memo: Memo<'a, A>,
    /// The number of the list whose only pair needs nothing.
    pub(crate) nothing: usize,
    /// The list number of each conjunct.
    pub(crate) starts: Vec<usize, &'a A>,
}

/// Puts the list of each conjunct into the memo table. Returns the list number of each conjunct.
fn starts<'a, A: Allocator>(
    alloc: &'a A,
    conjuncts: &ConjunctTable<'a, A>,
    memo: &mut Memo<'a, A>,
) -> Result<Vec<usize, &'a A>, AllocError>
    ensures starts { IfOk result (λ v. AreStarts conjuncts.now.lists.items memo.new.lists.keys v.items) }
    ensures longer { OnOk result (IsLonger memo.old.lists.keys memo.new.lists.keys) }
    ensures joins { OnOk result (memo.new.joins.entries ≡ memo.old.joins.entries) }
{
    let mut starts = Vec::with_capacity(alloc, conjuncts.len())?;
    'conjuncts: for k in 0..conjuncts.len() {
        let pairs = Vec::from_slice(alloc, conjuncts.pairs(k))?;
        let number = memo.number(PairSet { pairs })?;
        starts.push(number)?;
    }
    Ok(starts)
}

/// The number at a place, or this one if there are fewer numbers.
fn number_at(numbers: &[usize], place: usize, otherwise: usize) -> usize
    ensures { result ≡ slice_index_or numbers.now place otherwise }
{
    if place < numbers.len() {
        numbers[place]
    } else {
        otherwise
    }
}

impl<'a, A: Allocator> Components<'a, A> {
    /// A memo table that holds only the lists of the conjuncts.
    pub(crate) fn new(alloc: &'a A, conjuncts: &ConjunctTable<'a, A>) -> Result<Self, AllocError>
        ensures { IfOk result (λ g. (T : spec.Table) → (r : made_rule.Rule)
            → AreComponents T r conjuncts.now.lists.items g.memo.lists.keys g.memo.joins.entries g.nothing g.starts.items) }
    {
        let mut memo = Memo::new(alloc);
        let pairs = Vec::from_slice(alloc, &[Pair::empty()])?;
        let nothing = memo.number(PairSet { pairs })?;
        let starts = starts(alloc, conjuncts, &mut memo)?;
        Ok(Components {
            memo,
            nothing,
            starts,
        })
    }

    /// The list numbers of these conjuncts.
    fn numbers(&self, alloc: &'a A, component: &RowSet) -> Result<Vec<usize, &'a A>, AllocError>
        requires inside { (k : ℕ) → Has component.now k → k < length self.now.starts.items }
        ensures { IfOk result (λ v. v.items ≡ map (start_of self.now.starts.items) component.now) }
    {
        let mut numbers = Vec::with_capacity(alloc, component.count())?;
        let mut rest = component.iter();
        'members: while let Some(conjunct) = rest.next() {
            numbers.push(self.starts[conjunct])?;
        }
        Ok(numbers)
    }

    /// The places of the two lists whose join costs least, the first such two.
    fn cheapest(&self, lists: &[usize]) -> (usize, usize)
        requires some { 1 < length lists.now }
        requires within { (k : ℕ) → Has lists.now k → k < length self.now.memo.lists.keys }
        ensures { result.0 < result.1 × result.1 < length lists.now }
    {
        let mut best = (0, 1);
        let mut least = (u32::MAX, usize::MAX);
        'second: for second in 1..lists.len() {
            let right = lists[second];
            let Some(extent) = self.memo.extent(right) else {
                continue;
            };
            'first: for first in 0..second {
                let left = lists[first];
                let added = self.memo.added(left, extent);
                if added > least.0 {
                    continue;
                }
                let cost = (added, self.memo.ways(&JoinKey { left, right }));
                if cost < least {
                    least = cost;
                    best = (first, second);
                }
            }
        }
        best
    }

    /// Whether two of these lists are joined before the last join: if there are more than two, or if the last join were large. A large join is pruned while it
    /// grows.
    fn has_more_joins(&self, lists: &[usize]) -> bool
        requires within { (k : ℕ) → Has lists.now k → k < length self.now.memo.lists.keys }
        ensures more { result ≡ true → 1 < length lists.now }
        ensures few { result ≡ false → length lists.now ≤ 2 }
    {
        if lists.len() != 2 {
            return lists.len() > 2;
        }
        let key = JoinKey {
            left: lists[0],
            right: lists[1],
        };
        self.memo.ways(&key) > MOST_WAYS
    }

    /// The operands of a component's last join, by their numbers. The lists of the conjuncts are joined two by two, the two whose join costs least first,
    /// until two lists are left. If their join were large, it is made, too, and the other operand is the list whose only pair needs nothing.
    pub(crate) fn last(
        &mut self,
        basis: &Basis<'_, '_, '_, 'a, A>,
        component: &RowSet,
    ) -> Result<JoinKey, AllocError>
        requires basis { IsBasis basis.now }
        requires components { HasComponents basis.now self.old }
        requires inside { (k : ℕ) → Has component.now k → k < length basis.now.conjuncts.lists.items }
        ensures components { OnOk result (HasComponents basis.now self.new) }
        ensures last { IfOk result (IsLastOf
            (table_at basis.now.table.now) basis.now.pruning.rule basis.now.conjuncts.lists.items self.new.memo.lists.keys component.now) }
        ensures longer { OnOk result (IsLonger self.old.memo.lists.keys self.new.memo.lists.keys) }
    {
        let mut lists = self.numbers(basis.alloc, component)?;
        'joins: while self.has_more_joins(lists.as_slice()) {
            let (first, second) = self.cheapest(lists.as_slice());
            let right = lists.remove(second);
            let left = lists.remove(first);
            let joined = self.memo.join(basis.alloc, &basis.pruning, left, right)?;
            lists.push(joined)?;
        }
        Ok(JoinKey {
            left: number_at(lists.as_slice(), 0, self.nothing),
            right: number_at(lists.as_slice(), 1, self.nothing),
        })
    }
}
