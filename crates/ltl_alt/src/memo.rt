//! A memo table of joins: lists of pairs have numbers, and a join is remembered by the numbers of both sides.

ghost use Rattle.std.specs.Prelude.{◌≡◌, ◌<◌, [], length, IfOk, IfSome, OnOk};
ghost use Rattle.ltl_spec.specs.Collections.Lists.{HasNoRepeats};
ghost use Rattle.ltl_spec.specs.Collections.Sets.{set_of};
ghost use Rattle.ltl_spec.specs.Transitions.Pairs.{join, pair_cmp};
ghost use Rattle.ltl_spec.specs.Transitions.RowTransitions as spec;
ghost use Rattle.ltl_alt.specs.declared.rule.Rule as made_rule;
ghost use Rattle.ltl_alt.specs.MemoView.{AreJoins, IsJoin, IsListAt, last_list};
ghost use Rattle.ltl_alt.specs.ConjunctTableView.{IsLonger, conjunct_of};
ghost use Rattle.ltl_alt.specs.StandIns.{IsFit, IsListed, StandsFor};

use crate::lists::join;
use crate::pair::Pair;
use crate::pair_set::PairSet;
use crate::pruned_join::pruned_join;
use crate::rule::Pruning;
use crate::support::Extent;
use indexmap::IndexMap;
use ltl_automaton::Interner;
use std::alloc::{AllocError, Allocator};
use std::hash::{BuildHasherDefault, FoldHasher};

/// The two sides of a join, by the numbers of their lists.
#[derive(Clone, Copy, PartialEq, Eq, Hash)]
pub(crate) struct JoinKey {
    pub(crate) left: usize,
    pub(crate) right: usize,
}

/// Lists of pairs, each stored once, and joins of these lists.
#[derive(Drop)]
pub(crate) struct Memo<'a, A: Allocator> {
    pub(crate) lists: Interner<'a, PairSet<'a, A>, A>,
    /// For each join that was made the number of the resulting list.
    pub(crate) joins: IndexMap<JoinKey, usize, BuildHasherDefault<FoldHasher>, &'a A>,
    /// The extent of each list.
    extents: Vec<Extent, &'a A>,
    /// The number of pairs and joins that are stored.
    pub(crate) size: usize,
}

impl<'a, A: Allocator> Memo<'a, A> {
    /// An empty memo table.
    pub(crate) fn new(alloc: &'a A) -> Self
        ensures lists { result.lists.keys ≡ [] }
        ensures joins { result.joins.entries ≡ [] }
    {
        Memo {
            lists: Interner::new(alloc),
            joins: IndexMap::new(alloc),
            extents: Vec::new(alloc),
            size: 0,
        }
    }

    /// The list with this number.
    pub(crate) fn pairs(&self, list: usize) -> &[Pair]
        requires { list < length self.now.lists.keys }
        ensures { result.now ≡ conjunct_of self.now.lists.keys list }
    {
        self.lists.get(list).as_slice()
    }

    /// The number of a list. A list that is new is stored.
    pub(crate) fn number(&mut self, pairs: PairSet<'a, A>) -> Result<usize, AllocError>
        ensures number { IfOk result (IsListAt self.new.lists.keys pairs.entry) }
        ensures longer { OnOk result (IsLonger self.old.lists.keys self.new.lists.keys) }
        ensures joins { OnOk result (self.new.joins.entries ≡ self.old.joins.entries) }
    {
        let count = self.lists.len();
        let size = pairs.as_slice().len();
        let extent = Extent::of(pairs.as_slice());
        let number = self.lists.number(pairs)?;
        if self.lists.len() > count {
            self.extents.push(extent)?;
            self.size = self.size.saturating_add(size);
        }
        Ok(number)
    }

    /// The list number of a join, if it was made before.
    fn known(&self, key: &JoinKey) -> Option<usize>
        ensures { (T : spec.Table) → (r : made_rule.Rule) → AreJoins T r self.now.lists.keys self.now.joins.entries
            → IfSome result (IsJoin T r self.now.lists.keys key.now) }
    {
        self.joins.get(key).copied()
    }

    /// The pruned join of two lists.
    fn kept(
        &self,
        alloc: &'a A,
        pruning: &Pruning<'_, 'a, A>,
        key: &JoinKey,
    ) -> Result<PairSet<'a, A>, AllocError>
        requires within { key.now.left < length self.now.lists.keys × key.now.right < length self.now.lists.keys }
        ensures { (T : spec.Table) → IsFit T pruning.now.rule pruning.now.fulfilment.now
            → IfOk result (IsListed (StandsFor T pruning.now.rule)
            (join (conjunct_of self.now.lists.keys key.now.left) (conjunct_of self.now.lists.keys key.now.right))) }
    {
        let pairs = pruned_join(alloc, pruning, self.pairs(key.left), self.pairs(key.right))?;
        Ok(PairSet { pairs })
    }

    /// The different joins of a pair of each of two lists, in some order. None of them is pruned.
    pub(crate) fn joined(&self, alloc: &'a A, key: &JoinKey) -> Result<Vec<Pair, &'a A>, AllocError>
        requires within { key.now.left < length self.now.lists.keys × key.now.right < length self.now.lists.keys }
        ensures set { IfOk result (λ v. set_of pair_cmp v.items ≡ last_list self.now.lists.keys key.now) }
        ensures once { IfOk result (λ v. HasNoRepeats v.items) }
    {
        let joined = join(alloc, self.pairs(key.left), self.pairs(key.right))?;
        Ok(joined)
    }

    /// The number of ways to choose a pair of each side.
    pub(crate) fn ways(&self, key: &JoinKey) -> usize
        requires within { key.now.left < length self.now.lists.keys × key.now.right < length self.now.lists.keys }
    {
        self.pairs(key.left)
            .len()
            .saturating_mul(self.pairs(key.right).len())
    }

    /// The extent of the list with this number.
    pub(crate) fn extent(&self, list: usize) -> Option<&Extent> {
        self.extents.get(list)
    }

    /// The number of literals and targets that a join of this list and one of the given extent has and the larger list hasn't.
    #[inline(always)]
    pub(crate) fn added(&self, list: usize, other: &Extent) -> u32 {
        match self.extents.get(list) {
            Some(extent) => extent.added(other),
            None => 0,
        }
    }

    /// The list number of the pruned join of two lists.
    pub(crate) fn join(
        &mut self,
        alloc: &'a A,
        pruning: &Pruning<'_, 'a, A>,
        left: usize,
        right: usize,
    ) -> Result<usize, AllocError>
        requires within { left < length self.old.lists.keys × right < length self.old.lists.keys }
        ensures joins { (T : spec.Table) → IsFit T pruning.now.rule pruning.now.fulfilment.now
            → AreJoins T pruning.now.rule self.old.lists.keys self.old.joins.entries
            → OnOk result (AreJoins T pruning.now.rule self.new.lists.keys self.new.joins.entries) }
        ensures joined { (T : spec.Table) → IsFit T pruning.now.rule pruning.now.fulfilment.now
            → AreJoins T pruning.now.rule self.old.lists.keys self.old.joins.entries
            → IfOk result (IsJoin T pruning.now.rule self.new.lists.keys (record { left = left; right = right })) }
        ensures longer { OnOk result (IsLonger self.old.lists.keys self.new.lists.keys) }
    {
        let key = JoinKey { left, right };
        if let Some(joined) = self.known(&key) {
            return Ok(joined);
        }
        let kept = self.kept(alloc, pruning, &key)?;
        let joined = self.number(kept)?;
        self.joins.insert(key, joined)?;
        self.size = self.size.saturating_add(1);
        Ok(joined)
    }
}
