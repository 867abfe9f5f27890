//! Recognition of sets of rows with equal transitions, by the list numbers of their components.

ghost use Rattle.std.specs.Prelude.{◌≡◌, List, [], Bool, IfOk, IfSome, OnOk};
ghost use Rattle.ltl_spec.specs.Transitions.RowTransitions as spec;
ghost use Rattle.ltl_alt.specs.BasisView.{IsBasis};
ghost use Rattle.ltl_alt.specs.FinalView.{HasFinals};
ghost use Rattle.ltl_alt.specs.KeyView.{AreKeys, IsKeyOf, HasSameTransitions};
ghost use Rattle.ltl_alt.specs.TransitionView.{table_at};

use crate::basis::Basis;
use crate::finals::Finals;
use indexmap::IndexMap;
use ltl_sets::RowSet;
use std::alloc::{AllocError, Allocator};
use std::hash::{BuildHasherDefault, FoldHasher};

/// The factors of a set of rows, by their list numbers. Sets with the same factors have the same transitions.
type Key<'a, A> = Vec<usize, &'a A>;

/// For each key the first set of rows that has it.
#[derive(Drop)]
pub(crate) struct Keys<'a, A: Allocator> {
    pub(crate) states: IndexMap<Key<'a, A>, RowSet, BuildHasherDefault<FoldHasher>, &'a A>,
}

impl<'a, A: Allocator> Keys<'a, A> {
    /// No key is known.
    pub(crate) fn new(alloc: &'a A) -> Self
        ensures { result.states.entries ≡ [] }
    {
        Keys {
            states: IndexMap::new(alloc),
        }
    }

    /// The first set of rows with this key. If there is none, the result is `None`, and this set becomes the first one.
    fn first(&mut self, key: Key<'a, A>, state: &RowSet) -> Result<Option<RowSet>, AllocError>
        ensures keys { (T : spec.Table) → (keep : Bool) → (lists : List (List spec.Transition)) → IsKeyOf T keep lists key.entry.items state.now
            → AreKeys T keep lists self.old.states.entries → OnOk result (AreKeys T keep lists self.new.states.entries) }
        ensures first { (T : spec.Table) → (keep : Bool) → (lists : List (List spec.Transition)) → AreKeys T keep lists self.old.states.entries
            → IfOk result (λ o. IfSome o (IsKeyOf T keep lists key.entry.items)) }
    {
        if let Some(first) = self.states.get(&key).copied() {
            return Ok(Some(first));
        }
        self.states.insert(key, *state)?;
        Ok(None)
    }

    /// A set of rows that was met before and has the transitions of this one. If none is known, the result is `None`, and this set is remembered.
    pub(crate) fn same_successors_as(
        &mut self,
        basis: &Basis<'_, '_, '_, 'a, A>,
        finals: &mut Finals<'a, A>,
        state: &RowSet,
    ) -> Result<Option<RowSet>, AllocError>
        requires basis { IsBasis basis.now }
        requires finals { HasFinals basis.now finals.old }
        requires keys { AreKeys (table_at basis.now.table.now) basis.now.keep_implied finals.old.lists.keys self.old.states.entries }
        ensures finals { OnOk result (HasFinals basis.now finals.new) }
        ensures keys { OnOk result (AreKeys (table_at basis.now.table.now) basis.now.keep_implied finals.new.lists.keys self.new.states.entries) }
        ensures same_successors_as { IfOk result (λ o. IfSome o (HasSameTransitions (table_at basis.now.table.now) basis.now.keep_implied state.now)) }
    {
        let Some(all) = basis.conjuncts.numbers(state) else {
            return Ok(None);
        };
        state.invariant();
        let key = finals.factors(basis, &all)?;
        self.first(key, state)
    }
}
