//! Breadth-first exploration of the sets of rows that are reachable from the root.

ghost use Rattle.std.specs.Prelude.{◌≡◌, map, IfOk, OnOk, IsErrOf};
ghost use Rattle.ltl_spec.specs.Automata.Generalized.{IsGeneralized, IsTooLarge};
ghost use Rattle.ltl_spec.specs.Tools.Limits.{stated_limits};
ghost use Rattle.ltl_formula.specs.TableView.{core_of};
ghost use Rattle.ltl_alt.specs.BasisView.{IsBasis};
ghost use Rattle.ltl_alt.specs.FinalView.{HasFinals};
ghost use Rattle.ltl_alt.specs.KeyView.{AreKeys};
ghost use Rattle.ltl_automaton.specs.LabelTables.{IsBuilt, built_of};
ghost use Rattle.ltl_models.specs.GbaView.{IsAcceptingGba};
ghost use Rattle.ltl_alt.specs.ReachView.{transition_move, net_of};
ghost use Rattle.ltl_alt.specs.TransitionView.{table_at};

use crate::basis::Basis;
use crate::conjunct_table::ConjunctTable;
use crate::context::Context;
use crate::finals::Finals;
use crate::fulfilment::Fulfilment;
use crate::keys::Keys;
use crate::marks::marked;
use crate::pair::Pair;
use crate::place::{place, until_count};
use crate::program::Program;
use crate::rule::{Pruning, Rule};
use crate::transition::Transition;
use ltl_automaton::{
    AutomatonFault as AltFault, CodedBuilder, Limits, Step, Successors, explore_from,
};
use ltl_formula::Table;
use ltl_models::{GbaEdge, MOST_EDGES, MOST_STATES};
use ltl_sets::RowSet;
use std::alloc::{AllocError, Allocator};

impl Step<RowSet, GbaEdge> for Transition {
    ghost use Rattle.ltl_alt.specs.ReachView.{transition_move};

    ghost move_of = { transition_move };

    #[inline(always)]
    fn key(&self) -> RowSet {
        self.targets
    }

    #[inline(always)]
    fn edge_to(&self, target: usize) -> GbaEdge {
        GbaEdge {
            cube: self.cube,
            target,
            marks: self.marks,
        }
    }
}

/// The implicit graph of sets of rows, with its memo tables.
#[derive(Drop)]
struct RowSets<'b, 't, 's, 'a, A: Allocator> {
    basis: Basis<'b, 't, 's, 'a, A>,
    finals: Finals<'a, A>,
    keys: Keys<'a, A>,
    /// The transitions of the set of rows that was prepared last.
    prepared: Vec<Transition, &'a A>,
}

impl<'b, 't, 's, 'a, A: Allocator> RowSets<'b, 't, 's, 'a, A> {
    /// Replaces tables that are full by empty ones, before a set of rows is looked up or counted. It affects speed and memory alone. `successors` doesn't call
    /// it, since the lists of its set were made just before.
    fn make_room(&mut self) -> Result<(), AllocError>
        requires basis { IsBasis self.old.basis }
        requires finals { HasFinals self.old.basis self.old.finals }
        requires keys { AreKeys (table_at self.old.basis.table.now) self.old.basis.keep_implied self.old.finals.lists.keys self.old.keys.states.entries }
        ensures basis { OnOk result (self.new.basis ≡ self.old.basis) }
        ensures finals { OnOk result (HasFinals self.new.basis self.new.finals) }
        ensures keys { OnOk result (AreKeys
            (table_at self.new.basis.table.now) self.new.basis.keep_implied self.new.finals.lists.keys self.new.keys.states.entries) }
    {
        if self.finals.is_full() {
            self.finals = Finals::new(&self.basis)?;
            self.keys = Keys::new(self.basis.alloc);
        }
        Ok(())
    }
}

impl<'b, 't, 's, 'a, A: Allocator> Successors<RowSet, GbaEdge, Transition>
    for RowSets<'b, 't, 's, 'a, A> {
    ghost net = { λ n. net_of (core_of n.basis.table.now) n.basis.keep_implied };

    ghost ready = { λ n. IsBasis n.basis × HasFinals n.basis n.finals
        × AreKeys (table_at n.basis.table.now) n.basis.keep_implied n.finals.lists.keys n.keys.states.entries };

    ghost lent = { λ n. map transition_move n.prepared.items };

    fn accepting(&self, _key: &RowSet) -> bool {
        true
    }

    fn same_successors_as(&mut self, key: &RowSet) -> Result<Option<RowSet>, AllocError> {
        self.make_room()?;
        self.keys
            .same_successors_as(&self.basis, &mut self.finals, key)
    }

    fn edges_at_least(&mut self, key: &RowSet) -> Result<usize, AllocError> {
        self.make_room()?;
        self.finals.transitions_at_least(&self.basis, key)
    }

    fn prepare(&mut self, key: &RowSet, most: usize) -> Result<(), AltFault> {
        self.prepared = self.finals.set_transitions(&self.basis, key, most)?;
        Ok(())
    }

    fn steps(&self) -> &[Transition] {
        self.prepared.as_slice()
    }
}

/// The builder with the automaton of a table's formula, or `TooLarge` if the automaton exceeds the limits of `Gba`.
pub(crate) fn explored<'a, A: Allocator>(
    alloc: &'a A,
    table: &Table<'_, A>,
    keep_implied: bool,
) -> Result<CodedBuilder<'a, A>, AltFault>
    ensures generalized { IfOk result (λ b. IsGeneralized (core_of table.now) keep_implied (built_of b)) }
    ensures inside { IfOk result (λ b. IsAcceptingGba (built_of b)) }
    ensures built { IfOk result (λ b. IsBuilt b) }
    ensures fits { IfOk result (λ _. ¬ (IsTooLarge (core_of table.now) keep_implied stated_limits.states stated_limits.edges)) }
    ensures large { IsErrOf result AltFault.TooLarge → IsTooLarge (core_of table.now) keep_implied stated_limits.states stated_limits.edges }
{
    table.invariant();
    let program = Program::of(alloc, table)?;
    let fulfilment = Fulfilment::of(alloc, table, &program)?;
    let rule = Rule::of(alloc, table, &program, &fulfilment, keep_implied)?;
    let context = Context {
        alloc,
        table,
        program: &program,
        pruning: Pruning {
            rule,
            fulfilment: &fulfilment,
        },
    };
    let conjuncts = ConjunctTable::of(&context)?;
    let neutral = marked(alloc, table, &fulfilment, &[Pair::empty()])?;
    let basis = Basis {
        alloc,
        table,
        pruning: context.pruning,
        conjuncts,
        keep_implied,
        neutral,
    };
    let finals = Finals::new(&basis)?;
    let mut row_sets = RowSets {
        basis,
        finals,
        keys: Keys::new(alloc),
        prepared: Vec::new(alloc),
    };
    let root = RowSet::single(place(table, table.root()));
    let limits = Limits {
        states: MOST_STATES,
        edges: MOST_EDGES,
    };
    let builder = CodedBuilder::new(alloc, until_count(table))?;
    let built = explore_from(alloc, root, builder, &mut row_sets, limits)?;
    Ok(built)
}
