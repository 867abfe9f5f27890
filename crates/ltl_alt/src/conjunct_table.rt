//! The conjuncts of all elementary rows, and the graph of their dependencies.

ghost use Rattle.std.specs.Prelude.{◌≡◌, slice_get, ℕ, ◌+◌, ◌<◌, ◌≤◌, ◌++◌, ◌∷◌, [], length, map, MatchOption, OnOk, IfOk};
ghost use Rattle.std.specs.Ordering.{nat_cmp};
ghost use Rattle.ltl_spec.specs.Collections.Sets.{Has, put};
ghost use Rattle.ltl_spec.specs.Transitions.Pairs as spec_pairs;
ghost use Rattle.ltl_spec.specs.Transitions.RowTransitions as spec;
ghost use Rattle.ltl_spec.proofs.Transitions.SameJoins.{AreSound};
ghost use Rattle.ltl_alt.specs.declared.rule.Rule as made_rule;
ghost use Rattle.ltl_alt.specs.ConjunctTableView.{AreAdded, AreLinked, AreMade, HasAllParts, HasConjuncts, IsComponent};
ghost use Rattle.ltl_alt.specs.ConjunctTableView.{HasEach, HasNoConjunct, IsLinked, IsRoom, links_of, numbers_in, conjunct_of};
ghost use Rattle.ltl_alt.specs.ConjunctView.{AreFew};
ghost use Rattle.ltl_alt.specs.ContextView.{IsContext};
ghost use Rattle.ltl_alt.specs.StepLists.{AreLists, IsListedStep};
ghost use Rattle.ltl_alt.specs.TestPairs.{step_pairs};
ghost use Rattle.ltl_alt.specs.Tests.{AreTests};
ghost use Rattle.ltl_alt.specs.TransitionView.{table_at};

use crate::conjuncts::conjuncts;
use crate::context::Context;
use crate::fulfilment::Fulfilment;
use crate::pair::Pair;
use crate::pair_set::PairSet;
use crate::place::{elementary_places, elementary_row, first, put_if};
use crate::step_lists::StepLists;
use crate::support::Dependencies;
use ltl_formula::Table;
use ltl_sets::RowSet;
use std::alloc::{AllocError, Allocator};

/// The conjuncts of elementary rows, numbered. The pairs of a row are the joins of one pair of each of its conjuncts.
#[derive(Drop)]
pub(crate) struct ConjunctTable<'a, A: Allocator> {
    /// For each conjunct, the place of its row.
    pub(crate) owners: Vec<usize, &'a A>,
    pub(crate) lists: Vec<PairSet<'a, A>, &'a A>,
    pub(crate) dependencies: Vec<Dependencies, &'a A>,
    /// For each conjunct, the conjuncts that may depend on it, itself among them.
    pub(crate) links: Vec<RowSet, &'a A>,
    /// The places of the rows that have been split into conjuncts.
    pub(crate) made: RowSet,
}

/// Links a new conjunct with itself, and with each earlier conjunct that it isn't independent of. Returns the links of the new one.
fn link<A: Allocator>(
    links: &mut Vec<RowSet, &A>,
    dependencies: &[Dependencies],
    dependency: &Dependencies,
) -> RowSet
    requires few { length links.old.items < RowSet.LIMIT }
    requires count { length dependencies.now ≡ length links.old.items }
    ensures { IsLinked dependencies.now dependency.now (length links.old.items) (length links.old.items) links.old.items links.new.items result }
{
    let number = links.len();
    let mut own = RowSet::single(number);
    'conjuncts: for k in 0..number {
        let is_linked = !dependency.is_independent(&dependencies[k]);
        put_if(&mut links[k], number, is_linked);
        put_if(&mut own, k, is_linked);
    }
    own
}

impl<'a, A: Allocator> ConjunctTable<'a, A> {
    /// An empty table.
    pub(crate) fn new(alloc: &'a A) -> Self
        ensures linked { (T : spec.Table) → AreLinked T result.lists.items result.dependencies.items result.links.items }
        ensures rows { (T : spec.Table) → (r : made_rule.Rule) → AreMade T r result.made result.owners.items result.lists.items }
        ensures lists { result.lists.items ≡ [] }
        ensures made { result.made ≡ [] }
    {
        ConjunctTable {
            owners: Vec::new(alloc),
            lists: Vec::new(alloc),
            dependencies: Vec::new(alloc),
            links: Vec::new(alloc),
            made: RowSet::empty(),
        }
    }

    /// The number of conjuncts.
    pub(crate) fn len(&self) -> usize
        ensures { result ≡ length self.now.lists.items }
    {
        self.lists.len()
    }

    /// Appends a conjunct of the row at a place, and links it.
    fn push(
        &mut self,
        table: &Table<'_, A>,
        fulfilment: &Fulfilment<'a, A>,
        place: usize,
        pairs: PairSet<'a, A>,
    ) -> Result<(), AllocError>
        requires tests { AreTests (table_at table.now) fulfilment.now }
        requires linked { AreLinked (table_at table.now) self.old.lists.items self.old.dependencies.items self.old.links.items }
        requires few { length self.old.lists.items < RowSet.LIMIT }
        requires sound { AreSound pairs }
        ensures linked { OnOk result (AreLinked (table_at table.now) self.new.lists.items self.new.dependencies.items self.new.links.items) }
        ensures owners { OnOk result (self.new.owners.items ≡ self.old.owners.items ++ place ∷ []) }
        ensures lists { OnOk result (self.new.lists.items ≡ self.old.lists.items ++ pairs.entry ∷ []) }
        ensures made { self.new.made ≡ self.old.made }
    {
        let dependency = Dependencies::of(table, fulfilment, pairs.as_slice());
        let links = link(&mut self.links, self.dependencies.as_slice(), &dependency);
        self.links.push(links)?;
        self.dependencies.push(dependency)?;
        self.owners.push(place)?;
        self.lists.push(pairs)?;
        Ok(())
    }

    /// Appends these conjuncts of the row at a place.
    fn push_conjuncts(
        &mut self,
        context: &Context<'_, '_, '_, 'a, A>,
        lists: &mut StepLists<'a, A>,
        place: usize,
        conjuncts: &[usize],
    ) -> Result<(), AllocError>
        requires context { IsContext context.now }
        requires lists { AreLists (table_at context.now.table.now) context.now.pruning.rule context.now.program.now.steps.keys lists.old.lists.items }
        requires linked { AreLinked (table_at context.now.table.now) self.old.lists.items self.old.dependencies.items self.old.links.items }
        requires conjuncts { AreFew context.now.program.now.steps.keys conjuncts.now (length self.old.lists.items) }
        ensures lists { OnOk result (AreLists
            (table_at context.now.table.now) context.now.pruning.rule context.now.program.now.steps.keys lists.new.lists.items) }
        ensures linked { OnOk result (AreLinked (table_at context.now.table.now) self.new.lists.items self.new.dependencies.items self.new.links.items) }
        ensures added { OnOk result (AreAdded (table_at context.now.table.now) context.now.pruning.rule place
            (map (step_pairs context.now.program.now.steps.keys) conjuncts.now)
            self.old.owners.items self.new.owners.items self.old.lists.items self.new.lists.items) }
        ensures made { OnOk result (self.new.made ≡ self.old.made) }
    {
        'conjuncts: for conjunct in conjuncts {
            let pairs = conjunct_pairs(context, lists, *conjunct)?;
            self.push(context.table, context.pruning.fulfilment, place, pairs)?;
        }
        Ok(())
    }

    /// Splits the row at a place into at most `most` conjuncts, and appends them.
    fn add(
        &mut self,
        context: &Context<'_, '_, '_, 'a, A>,
        lists: &mut StepLists<'a, A>,
        place: usize,
        most: usize,
    ) -> Result<(), AllocError>
        requires context { IsContext context.now }
        requires lists { AreLists (table_at context.now.table.now) context.now.pruning.rule context.now.program.now.steps.keys lists.old.lists.items }
        requires conjuncts { HasConjuncts (table_at context.now.table.now) context.now.pruning.rule self.old }
        requires room { (Has self.old.made place → ⊥) × IsRoom context.now.table.now place most self.old.lists.items }
        ensures lists { OnOk result (AreLists
            (table_at context.now.table.now) context.now.pruning.rule context.now.program.now.steps.keys lists.new.lists.items) }
        ensures conjuncts { OnOk result (HasConjuncts (table_at context.now.table.now) context.now.pruning.rule self.new) }
        ensures made { OnOk result (self.new.made ≡ put nat_cmp place self.old.made) }
        ensures few { OnOk result (length self.new.lists.items ≤ length self.old.lists.items + most) }
    {
        context.table.invariant();
        let step = context
            .program
            .pair_step(elementary_row(context.table, place));
        let conjuncts = conjuncts(context.alloc, context.program.steps(), step, most)?;
        self.push_conjuncts(context, lists, place, conjuncts.as_slice())?;
        self.made.insert(place);
        Ok(())
    }

    /// Splits all elementary rows of a table into conjuncts. A table has at most `RowSet::LIMIT` conjuncts. Each row gets at least
    /// one. A row takes as many more as it can use, as long as one is left for each later row.
    pub(crate) fn of(
        context: &Context<'_, '_, '_, 'a, A>,
    ) -> Result<ConjunctTable<'a, A>, AllocError>
        requires context { IsContext context.now }
        ensures conjuncts { IfOk result (HasAllParts context.now.table.now context.now.pruning.rule) }
    {
        context.table.invariant();
        let mut lists = StepLists::new(context.alloc, context.program)?;
        let mut conjuncts = ConjunctTable::new(context.alloc);
        let mut rest = elementary_places(context.table);
        'rows: while let Some(place) = first(&rest) {
            rest.invariant();
            rest = rest.without(&RowSet::single(place));
            let most = RowSet::LIMIT - conjuncts.len() - rest.count();
            conjuncts.add(context, &mut lists, place, most)?;
        }
        Ok(conjuncts)
    }

    /// The pairs of the conjunct with this number.
    pub(crate) fn pairs(&self, number: usize) -> &[Pair]
        requires { number < length self.now.lists.items }
        ensures { result.now ≡ conjunct_of self.now.lists.items number }
    {
        self.lists[number].as_slice()
    }

    /// The conjuncts of all rows of a set, or `None` if the set has a place without a row.
    pub(crate) fn numbers(&self, state: &RowSet) -> Option<RowSet>
        requires { length self.now.owners.items ≤ RowSet.LIMIT }
        ensures { MatchOption result (HasNoConjunct self.now.made state.now) (λ all. all ≡ numbers_in self.now.owners.items state.now
            × HasEach self.now.made state.now) }
    {
        if !state.is_subset(&self.made) {
            return None;
        }
        let mut numbers = RowSet::empty();
        'conjuncts: for k in 0..self.owners.len() {
            put_if(&mut numbers, k, state.holds(self.owners[k]));
        }
        Some(numbers)
    }

    /// The conjuncts that are linked with the one of this number.
    fn links(&self, number: usize) -> Option<RowSet>
        ensures { result ≡ slice_get self.now.links.items number }
    {
        self.links.get(number).copied()
    }

    /// The conjuncts that are linked with at least one of these.
    fn linked_with(&self, inside: &RowSet) -> RowSet
        ensures { (i j : ℕ) → Has inside.now i → Has (links_of self.now.links.items i) j → Has result j }
    {
        let mut linked = RowSet::empty();
        let mut rest = inside.iter();
        'members: while let Some(number) = rest.next() {
            if let Some(links) = self.links(number) {
                linked = linked.union(&links);
            }
        }
        linked
    }

    /// The connected component of the conjunct `first` within `rest`, by a fixpoint iteration over the links.
    pub(crate) fn component(&self, first: usize, rest: &RowSet) -> RowSet
        requires first { first < RowSet.LIMIT }
        requires there { Has rest.now first }
        ensures { IsComponent self.now.links.items first rest.now result }
    {
        let mut inside = RowSet::single(first);
        'rounds: for _round in 0..RowSet::LIMIT {
            let linked = self.linked_with(&inside);
            let more = inside.union(&rest.common(&linked));
            if more == inside {
                return inside;
            }
            inside = more;
        }
        *rest
    }
}

/// The pruned pairs of a conjunct, by the number of its step.
fn conjunct_pairs<'a, A: Allocator>(
    context: &Context<'_, '_, '_, 'a, A>,
    lists: &mut StepLists<'a, A>,
    step: usize,
) -> Result<PairSet<'a, A>, AllocError>
    requires context { IsContext context.now }
    requires lists { AreLists (table_at context.now.table.now) context.now.pruning.rule context.now.program.now.steps.keys lists.old.lists.items }
    requires within { step < length context.now.program.now.steps.keys }
    ensures lists { OnOk result (AreLists (table_at context.now.table.now) context.now.pruning.rule context.now.program.now.steps.keys lists.new.lists.items) }
    ensures pairs { IfOk result (IsListedStep (table_at context.now.table.now) context.now.pruning.rule context.now.program.now.steps.keys step) }
{
    lists.prepare(context, step)?;
    let pairs = Vec::from_slice(context.alloc, lists.pairs(step))?;
    Ok(PairSet { pairs })
}
