//! The pruned pairs of each step of a program, listed when they are first needed.

ghost use Rattle.std.specs.Prelude.{◌≡◌, ℕ, ◌<◌, length, IfOk, OnOk, true};
ghost use Rattle.ltl_spec.specs.Collections.Sets.{set_of};
ghost use Rattle.ltl_spec.specs.Transitions.Pairs.{pair_cmp};
ghost use Rattle.ltl_spec.specs.Transitions.RowTransitions as spec;
ghost use Rattle.ltl_alt.specs.declared.rule.Rule as made_rule;
ghost use Rattle.ltl_alt.specs.StandIns.{IsFit};
ghost use Rattle.ltl_alt.specs.StepLists.{AreLists, AreOperandsMade, IsListedStep, IsMore, is_made, list_at, pairs_of};
ghost use Rattle.ltl_alt.specs.Steps.{AreOrdered};
ghost use Rattle.ltl_alt.specs.Tests.{HasOperands, IsSmall, step_of};
ghost use Rattle.ltl_alt.specs.TransitionView.{table_at};

use crate::context::Context;
use crate::lists::{both, join};
use crate::needs::needed_steps;
use crate::pair::Pair;
use crate::pair_set::PairSet;
use crate::program::{Program, Step};
use crate::prune::prune;
use ltl_sets::RowSet;
use std::alloc::{AllocError, Allocator};

/// The lists of the steps of a program that have been made so far.
#[derive(Drop)]
pub(crate) struct StepLists<'a, A: Allocator> {
    lists: Vec<Option<PairSet<'a, A>>, &'a A>,
}

impl<'a, A: Allocator> StepLists<'a, A> {
    /// No list has been made.
    pub(crate) fn new(
        alloc: &'a A,
        program: &Program<'_, A>,
    ) -> Result<StepLists<'a, A>, AllocError>
        ensures { IfOk result (λ l. (T : spec.Table) (r : made_rule.Rule) → AreLists T r program.now.steps.keys l.lists.items) }
    {
        let count = program.steps().len();
        let mut lists = Vec::with_capacity(alloc, count)?;
        'lists: for _k in 0..count {
            lists.push(None)?;
        }
        Ok(StepLists { lists })
    }

    /// The pairs of a step; none if they haven't been listed.
    pub(crate) fn pairs(&self, step: usize) -> &[Pair]
        requires { step < length self.now.lists.items }
        ensures { result.now ≡ list_at self.now.lists.items step }
    {
        match &self.lists[step] {
            Some(pairs) => pairs.as_slice(),
            None => &[],
        }
    }

    /// Whether the pairs of a step have been listed.
    fn has_pairs(&self, step: usize) -> bool
        requires { step < length self.now.lists.items }
        ensures { result ≡ is_made self.now.lists.items step }
    {
        self.lists[step].is_some()
    }

    /// Lists the pairs of a step, and all lists of which they are made.
    pub(crate) fn prepare(
        &mut self,
        context: &Context<'_, '_, '_, 'a, A>,
        step: usize,
    ) -> Result<(), AllocError>
        requires ordered { AreOrdered context.now.program.now.steps.keys }
        requires lists { AreLists (table_at context.now.table.now) context.now.pruning.rule context.now.program.now.steps.keys self.old.lists.items }
        requires fit { IsFit (table_at context.now.table.now) context.now.pruning.rule context.now.pruning.fulfilment.now }
        requires within { step < length context.now.program.now.steps.keys }
        ensures lists { OnOk result (AreLists
            (table_at context.now.table.now) context.now.pruning.rule context.now.program.now.steps.keys self.new.lists.items) }
        ensures pairs { OnOk result (IsListedStep
            (table_at context.now.table.now) context.now.pruning.rule context.now.program.now.steps.keys step (list_at self.new.lists.items step)) }
    {
        if self.has_pairs(step) {
            return Ok(());
        }
        let needed = needed_steps(context.alloc, context.program.steps(), &[step])?;
        'below: for k in 0..step + 1 {
            self.list_if(context, k, needed[k])?;
        }
        Ok(())
    }

    /// Lists the pairs of a step if they are needed and haven't been listed.
    fn list_if(
        &mut self,
        context: &Context<'_, '_, '_, 'a, A>,
        step: usize,
        is_needed: bool,
    ) -> Result<(), AllocError>
        requires ordered { AreOrdered context.now.program.now.steps.keys }
        requires lists { AreLists (table_at context.now.table.now) context.now.pruning.rule context.now.program.now.steps.keys self.old.lists.items }
        requires fit { IsFit (table_at context.now.table.now) context.now.pruning.rule context.now.pruning.fulfilment.now }
        requires within { step < length context.now.program.now.steps.keys }
        requires operands { is_needed ≡ true → AreOperandsMade context.now.program.now.steps.keys self.old.lists.items step }
        ensures lists { OnOk result (AreLists
            (table_at context.now.table.now) context.now.pruning.rule context.now.program.now.steps.keys self.new.lists.items) }
        ensures more { OnOk result (IsMore self.old.lists.items self.new.lists.items) }
        ensures made { OnOk result (is_needed ≡ true → is_made self.new.lists.items step ≡ true) }
    {
        if !is_needed || self.has_pairs(step) {
            return Ok(());
        }
        let pairs = self.list(context, step)?;
        self.lists[step] = Some(pairs);
        Ok(())
    }

    /// The pruned pairs of a step, from the lists of its operands.
    fn list(
        &self,
        context: &Context<'_, '_, '_, 'a, A>,
        step: usize,
    ) -> Result<PairSet<'a, A>, AllocError>
        requires ordered { AreOrdered context.now.program.now.steps.keys }
        requires lists { AreLists (table_at context.now.table.now) context.now.pruning.rule context.now.program.now.steps.keys self.now.lists.items }
        requires fit { IsFit (table_at context.now.table.now) context.now.pruning.rule context.now.pruning.fulfilment.now }
        requires within { step < length context.now.program.now.steps.keys }
        requires operands { AreOperandsMade context.now.program.now.steps.keys self.now.lists.items step }
        ensures { IfOk result (IsListedStep (table_at context.now.table.now) context.now.pruning.rule context.now.program.now.steps.keys step) }
    {
        let all = self.pairs_of(context.alloc, context.program.steps()[step])?;
        let pairs = prune(context.alloc, &context.pruning, all)?;
        Ok(PairSet { pairs })
    }

    /// The pairs of a step, from the lists of its operands, with duplicates.
    fn pairs_of(&self, alloc: &'a A, step: Step) -> Result<Vec<Pair, &'a A>, AllocError>
        requires operands { HasOperands (length self.now.lists.items) (step_of step) }
        requires small { IsSmall step }
        ensures { IfOk result (λ v. set_of pair_cmp v.items ≡ set_of pair_cmp (pairs_of (list_at self.now.lists.items) (step_of step))) }
    {
        match step {
            Step::Always => Vec::from_slice(alloc, &[Pair::empty()]),
            Step::Never => Ok(Vec::new(alloc)),
            Step::Reads(literal) => Vec::from_slice(alloc, &[Pair::now(literal)]),
            Step::Leads(place) => Vec::from_slice(alloc, &[Pair::later(RowSet::single(place))]),
            Step::Both(i, j) => join(alloc, self.pairs(i), self.pairs(j)),
            Step::Either(i, j) => both(alloc, self.pairs(i), self.pairs(j)),
        }
    }
}
