//! The part of a program on which some of its steps depend.

ghost use Rattle.std.specs.Prelude.{◌≡◌, ◌+◌, ◌<◌, [], length, IfOk, OnOk, true, false};
ghost use Rattle.ltl_spec.proofs.Transitions.WantedSteps.{AreWantedFrom};
ghost use Rattle.ltl_alt.specs.Steps.{AreOrdered, IsGiven};
ghost use Rattle.ltl_alt.specs.Subprograms.{IsPart, number_at, renumbered};
ghost use Rattle.ltl_alt.specs.Tests.{steps_of};

use crate::program::{Step, number};
use ltl_automaton::Interner;
use std::alloc::{AllocError, Allocator};

/// Some steps of a program, numbered anew in their order.
#[derive(Drop)]
pub(crate) struct Subprogram<'a, A: Allocator> {
    pub(crate) steps: Interner<'a, Step, A>,
    /// For each step of the whole program its new number, or 0 if it isn't needed.
    pub(crate) numbers: Vec<usize, &'a A>,
}

/// The new number of a step, or 0 if it hasn't got one.
fn number_at(numbers: &[usize], step: usize) -> usize
    ensures { result ≡ number_at numbers.now step }
{
    if step < numbers.len() {
        numbers[step]
    } else {
        0
    }
}

/// A step with the new numbers of its operands.
fn renumbered(step: Step, numbers: &[usize]) -> Step
    ensures { result ≡ renumbered numbers.now step }
{
    match step {
        Step::Both(i, j) => Step::Both(number_at(numbers, i), number_at(numbers, j)),
        Step::Either(i, j) => Step::Either(number_at(numbers, i), number_at(numbers, j)),
        Step::Always | Step::Never | Step::Reads(_) | Step::Leads(_) => step,
    }
}

impl<'a, A: Allocator> Subprogram<'a, A> {
    /// The new number of a step, or 0 if it isn't needed.
    fn number_if(&mut self, step: Step, is_needed: bool) -> Result<usize, AllocError>
        ensures numbers { self.new.numbers.items ≡ self.old.numbers.items }
        ensures needed { IfOk result (λ k. is_needed ≡ true → IsGiven self.old.steps.keys self.new.steps.keys k (renumbered self.old.numbers.items step)) }
        ensures other { is_needed ≡ false → self.new.steps.keys ≡ self.old.steps.keys }
    {
        if is_needed {
            let moved = renumbered(step, self.numbers.as_slice());
            number(&mut self.steps, moved)
        } else {
            Ok(0)
        }
    }

    /// Appends the next step of the whole program, if it is needed.
    fn add(&mut self, steps: &[Step], needed: &[bool], k: usize) -> Result<(), AllocError>
        requires ordered { AreOrdered steps.now }
        requires needed { AreWantedFrom 0 [] (steps_of steps.now) needed.now }
        requires part { IsPart steps.now needed.now k self.old.steps.keys self.old.numbers.items }
        requires within { k < length steps.now }
        ensures { OnOk result (IsPart steps.now needed.now (k + 1) self.new.steps.keys self.new.numbers.items) }
    {
        let number = self.number_if(steps[k], needed[k])?;
        self.numbers.push(number)?;
        Ok(())
    }

    /// The needed steps of a program.
    pub(crate) fn of(
        alloc: &'a A,
        steps: &[Step],
        needed: &[bool],
    ) -> Result<Subprogram<'a, A>, AllocError>
        requires ordered { AreOrdered steps.now }
        requires needed { AreWantedFrom 0 [] (steps_of steps.now) needed.now }
        ensures { IfOk result (λ p. IsPart steps.now needed.now (length steps.now) p.steps.keys p.numbers.items) }
    {
        let mut part = Subprogram {
            steps: Interner::new(alloc),
            numbers: Vec::new(alloc),
        };
        'steps: for k in 0..steps.len() {
            part.add(steps, needed, k)?;
        }
        Ok(part)
    }

    /// The new number of a step of the whole program, or 0 if it hasn't got one.
    pub(crate) fn number(&self, step: usize) -> usize
        ensures { result ≡ number_at self.now.numbers.items step }
    {
        number_at(self.numbers.as_slice(), step)
    }
}
