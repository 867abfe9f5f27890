//! The evaluator of labels: it makes the cubes of a label from its tokens, without a syntax tree.

ghost use Rattle.std.specs.Prelude.{◌≡◌, ◌<◌, [], ◌∷◌, ◌++◌, IfOk, OnOk, option_map};
ghost use Rattle.ltl_label.specs.LabelView as view;

use crate::cubes::{Cubes, both, constant, literal};
use ltl_sets::RowSet;
use smallvec::SmallVec;
use std::alloc::{AllocError, Allocator};
use std::marker::Model;
use std::mem;

/// A label, or what follows an open bracket, as far as it was read. `sum` has the cubes of what precedes the last `|`, and `product` those of
/// the operands after it.
#[derive(Drop)]
pub(crate) struct LabelPart<'a, A: Allocator> {
    /// Whether the number of negations around the part is even. If it is odd, `&` and `|` change places.
    positive: bool,
    /// Whether the number of negations before the next operand is odd.
    negated: bool,
    sum: Option<Cubes<'a, A>>,
    product: Option<Cubes<'a, A>>,
}

impl<'a, A: Allocator> Model for LabelPart<'a, A> {
    ghost use Rattle.std.specs.Prelude.{option_map};
    ghost use Rattle.ltl_label.specs.LabelView.{PartView};

    ghost Value = { PartView };

    ghost view = { λ p. record {
      positive = p.positive;
      negated = p.negated;
      sum = option_map (option_map (λ v. v.items)) p.sum;
      product = option_map (option_map (λ v. v.items)) p.product;
    } };
}

/// An empty part, under no negation.
impl<'a, A: Allocator> Default for LabelPart<'a, A> {
    fn default() -> LabelPart<'a, A> {
        LabelPart::new(true)
    }
}

impl<'a, A: Allocator> LabelPart<'a, A> {
    fn new(positive: bool) -> LabelPart<'a, A>
        ensures { result ≡ view.new_part positive }
    {
        LabelPart {
            positive,
            negated: false,
            sum: None,
            product: None,
        }
    }

    /// Whether the number of all negations over the next operand is even.
    fn sign(&self) -> bool
        ensures { result ≡ view.sign_of self.now }
    {
        self.positive != self.negated
    }

    fn negate(&mut self)
        ensures { self.new ≡ view.negate self.old }
    {
        self.negated = !self.negated;
    }

    /// Adds an operand to the product.
    fn add(&mut self, alloc: &'a A, cubes: Cubes<'a, A>) -> Result<(), AllocError>
        ensures { OnOk result (self.new ≡ view.add self.old (option_map (λ v. v.items) cubes.entry)) }
    {
        let product = match self.product.take() {
            Some(before) => both(alloc, self.positive, before, cubes)?,
            None => cubes,
        };
        self.product = Some(product);
        self.negated = false;
        Ok(())
    }

    /// The cubes of the part, which ends here. An empty product counts as true.
    fn whole(&mut self, alloc: &'a A) -> Result<Cubes<'a, A>, AllocError>
        ensures cubes { IfOk result (λ r. option_map (λ v. v.items) r ≡ view.whole self.old) }
        ensures spent { OnOk result (self.new ≡ view.spent_part self.old) }
    {
        let product = match self.product.take() {
            Some(product) => product,
            None => constant(alloc, self.positive)?,
        };
        match self.sum.take() {
            Some(sum) => both(alloc, !self.positive, sum, product),
            None => Ok(product),
        }
    }

    /// Ends the product at a `|`, and adds it to the sum.
    fn alternative(&mut self, alloc: &'a A) -> Result<(), AllocError>
        ensures { OnOk result (self.new ≡ view.alternative self.old) }
    {
        let sum = self.whole(alloc)?;
        self.sum = Some(sum);
        self.product = None;
        self.negated = false;
        Ok(())
    }
}

/// The evaluator of one label: the innermost part that is open, and a stack of those around it. Up to 4 of these are stored without an allocation.
#[derive(Drop)]
pub struct Label<'a, A: Allocator> {
    alloc: &'a A,
    inner: LabelPart<'a, A>,
    around: SmallVec<LabelPart<'a, A>, 4, &'a A>,
}

impl<'a, A: Allocator> Model for Label<'a, A> {
    ghost use Rattle.ltl_label.specs.LabelView.{LabelView};

    ghost Value = { LabelView };

    ghost view = { λ x. record { inner = x.inner; around = x.around.items } };
}

impl<'a, A: Allocator> Label<'a, A> {
    /// An evaluator at the beginning of a label.
    pub fn new(alloc: &'a A) -> Label<'a, A>
        ensures { result ≡ view.new_label }
    {
        Label {
            alloc,
            inner: LabelPart::new(true),
            around: SmallVec::new(alloc),
        }
    }

    /// Begins a label, and forgets what was read before.
    pub fn begin(&mut self)
        ensures { self.new ≡ view.new_label }
    {
        self.inner = LabelPart::new(true);
        self.around.clear();
    }

    /// Takes `!`.
    pub fn negate(&mut self)
        ensures { self.new ≡ view.negate_inner self.old }
    {
        self.inner.negate();
    }

    /// Takes an opening bracket.
    pub fn open(&mut self) -> Result<(), AllocError>
        ensures { OnOk result (self.new ≡ view.open_bracket self.old) }
    {
        let part = LabelPart::new(self.inner.sign());
        let outer = mem::replace(&mut self.inner, part);
        self.around.push(outer)?;
        Ok(())
    }

    /// Takes `t` or `f`.
    pub fn constant(&mut self, value: bool) -> Result<(), AllocError>
        ensures { OnOk result (self.new ≡ view.take_constant self.old value) }
    {
        let cubes = constant(self.alloc, value == self.inner.sign())?;
        self.inner.add(self.alloc, cubes)
    }

    /// Takes the number of a proposition.
    pub fn proposition(&mut self, number: usize) -> Result<(), AllocError>
        requires { number < RowSet.LIMIT }
        ensures { OnOk result (self.new ≡ view.take_proposition self.old number) }
    {
        let cubes = literal(self.alloc, number, self.inner.sign())?;
        self.inner.add(self.alloc, cubes)
    }

    /// Takes `|`.
    pub fn alternative(&mut self) -> Result<(), AllocError>
        ensures { OnOk result (self.new ≡ view.take_alternative self.old) }
    {
        self.inner.alternative(self.alloc)
    }

    /// Whether no bracket is open.
    pub fn is_closed(&self) -> bool
        ensures { result ≡ view.is_closed self.now }
    {
        self.around.is_empty()
    }

    /// Takes a closing bracket. The answer is `false` if no bracket is open, and then nothing is taken.
    pub fn close(&mut self) -> Result<bool, AllocError>
        ensures { IfOk result (λ b. view.Closes self.old b self.new) }
    {
        let Some(outer) = self.around.pop() else {
            return Ok(false);
        };
        let cubes = self.inner.whole(self.alloc)?;
        self.inner = outer;
        self.inner.add(self.alloc, cubes)?;
        Ok(true)
    }

    /// The cubes of the label, which ends here. This call doesn't check that all brackets are closed, as `is_closed` does.
    pub fn whole(&mut self) -> Result<Cubes<'a, A>, AllocError>
        ensures cubes { IfOk result (λ r. option_map (λ v. v.items) r ≡ view.whole self.old.inner) }
        ensures spent { OnOk result (self.new ≡ view.spent self.old) }
    {
        self.inner.whole(self.alloc)
    }
}
