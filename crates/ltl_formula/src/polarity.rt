//! Negation normal form: the normal forms of a formula and of its negation that are needed, built from those of its operands.

ghost use Rattle.std.specs.Prelude.{◌≡◌, ◌<◌, ◌≤◌, ◌-◌, ℕ, Bool, true, false, if◌then◌else◌, length, not, IfOk};
ghost use Rattle.ltl_spec.specs.NormalForms.NormalForm.{core};
ghost use Rattle.ltl_spec.specs.Checking.Bounds.{HasLeavesBelow};
ghost use Rattle.ltl_spec.specs.Tools.Limits.{stated_limits};
ghost use Rattle.ltl_syntax.specs.FormulaView.{reading_of};
ghost use Rattle.ltl_formula.specs.SharedNodesView.{Makes};
ghost use Rattle.ltl_formula.specs.NeedsView.{AreClosed, IsNeeded, need_at};
ghost use Rattle.ltl_formula.specs.FormsView.{number_of};

use crate::needs::Need;
use crate::rewriting::{Choice, choose_and, choose_next, choose_or, choose_release, choose_until};
use crate::row::Row;
use crate::shared_nodes::SharedNodes;
use ltl_sets::Literal;
use ltl_syntax::{BinaryOperator, Formula, Node, UnaryOperator};
use smallvec::SmallVec;
use std::alloc::{AllocError, Allocator};

/// The normal form of a node's formula and that of its negation, by the numbers of their nodes. A form that isn't needed has the number 0.
#[derive(Clone, Copy, Default)]
pub struct Forms {
    pub positive: u32,
    pub negative: u32,
}

/// The forms of the nodes of a formula. Up to 64 are stored without an allocation.
type FormsList<'a, A> = SmallVec<Forms, 64, &'a A>;

impl Forms {
    /// The forms of the negation.
    fn negated(self) -> Forms
        ensures positive { result.positive ≡ self.negative }
        ensures negative { result.negative ≡ self.positive }
    {
        Forms {
            positive: self.negative,
            negative: self.positive,
        }
    }

    /// The form of the negation if `negate` is set, else that of the formula.
    fn chosen(self, negate: bool) -> usize
        ensures { result ≡ number_of negate self }
    {
        if negate {
            self.negative as usize
        } else {
            self.positive as usize
        }
    }
}

/// The number in 32 bits. A number that needs more bits is reported as lack of memory.
fn narrow(number: usize) -> Result<u32, AllocError>
    ensures { IfOk result (λ n. n ≡ number) }
{
    if number > 4_294_967_295 {
        return Err(AllocError);
    }
    Ok(number as u32)
}

impl<'a, A: Allocator> SharedNodes<'a, A> {
    ghost use Rattle.ltl_spec.specs.Formulas.Formula as spec;
    ghost use Rattle.ltl_spec.specs.NormalForms.NormalForm.{constant};
    ghost use Rattle.ltl_spec.specs.NormalForms.SharedNodes.{tree_at};
    ghost use Rattle.ltl_spec.specs.NormalForms.SharedRewriting.{StandsFor, choice_tree};
    ghost use Rattle.ltl_spec.specs.NormalForms.BothPolarities.{made_next, made_and, made_or, made_until, made_release, both_unary, both_binary, both_of};
    ghost use Rattle.ltl_formula.specs.ChoiceView.{choice_of, IsInside};
    ghost use Rattle.ltl_formula.specs.FormsView.{IsThere, IsThereAt, MakesIf, MakesNeeded, form_of, forms_at, forms_in, flat_of};
    ghost use Rattle.ltl_formula.specs.NeedsView.{HasOperandForm, HasLeftForms, HasRightForms, HasOperandForms};
    ghost use Rattle.ltl_syntax.specs.FormulaView.{unary_of, binary_of, StandsAt};
    ghost use Rattle.ltl_formula.specs.SharedNodesView.{Makes};

    /// The number of the node that a rewriting rule chose.
    fn take(&mut self, choice: Choice) -> Result<usize, AllocError>
        requires { IsInside (length self.old.nodes) choice }
        ensures { IfOk result (λ k. Makes self.old self.new k (choice_tree self.old.nodes (choice_of choice))) }
    {
        match choice {
            Choice::Old(k) => Ok(k),
            Choice::New(node) => self.intern(node),
        }
    }

    /// The number of the node that stands for `X i`.
    fn make_next(&mut self, i: usize) -> Result<usize, AllocError>
        requires { i < length self.old.nodes }
        ensures { IfOk result (λ k. Makes self.old self.new k (made_next self.old.rewrite (tree_at self.old.nodes i))) }
    {
        let rewrite = self.rewrites();
        self.take(choose_next(rewrite, i))
    }

    /// The number of the node that stands for `i && j`.
    fn make_and(&mut self, i: usize, j: usize) -> Result<usize, AllocError>
        requires left { i < length self.old.nodes }
        requires right { j < length self.old.nodes }
        ensures { IfOk result (λ k. Makes self.old self.new k (made_and self.old.rewrite (tree_at self.old.nodes i) (tree_at self.old.nodes j))) }
    {
        let rewrite = self.rewrites();
        self.take(choose_and(rewrite, i, j))
    }

    /// The number of the node that stands for `i || j`.
    fn make_or(&mut self, i: usize, j: usize) -> Result<usize, AllocError>
        requires left { i < length self.old.nodes }
        requires right { j < length self.old.nodes }
        ensures { IfOk result (λ k. Makes self.old self.new k (made_or self.old.rewrite (tree_at self.old.nodes i) (tree_at self.old.nodes j))) }
    {
        let rewrite = self.rewrites();
        self.take(choose_or(rewrite, i, j))
    }

    /// The number of the node that stands for `i U j`.
    fn make_until(&mut self, i: usize, j: usize) -> Result<usize, AllocError>
        requires left { i < length self.old.nodes }
        requires right { j < length self.old.nodes }
        ensures { IfOk result (λ k. Makes self.old self.new k (made_until self.old.rewrite (tree_at self.old.nodes i) (tree_at self.old.nodes j))) }
    {
        let rewrite = self.rewrites();
        let right = self.node(j);
        self.take(choose_until(rewrite, i, j, right))
    }

    /// The number of the node that stands for `i V j`.
    fn make_release(&mut self, i: usize, j: usize) -> Result<usize, AllocError>
        requires left { i < length self.old.nodes }
        requires right { j < length self.old.nodes }
        ensures { IfOk result (λ k. Makes self.old self.new k (made_release self.old.rewrite (tree_at self.old.nodes i) (tree_at self.old.nodes j))) }
    {
        let rewrite = self.rewrites();
        let right = self.node(j);
        self.take(choose_release(rewrite, i, j, right))
    }

    /// The number of the node that is a constant.
    fn constant_form(&self, value: bool) -> usize
        ensures { StandsFor self.now.nodes result (constant value) }
    {
        if value { self.top() } else { self.bottom() }
    }

    /// A form of `a && b`.
    fn and_form(&mut self, negate: bool, a: Forms, b: Forms) -> Result<usize, AllocError>
        requires left { IsThere self.old a negate }
        requires right { IsThere self.old b negate }
        ensures { IfOk result (λ k. Makes self.old self.new k
            (form_of negate (both_binary self.old.rewrite spec.And (forms_at self.old a) (forms_at self.old b)))) }
    {
        if negate {
            return self.make_or(a.chosen(true), b.chosen(true));
        }
        self.make_and(a.chosen(false), b.chosen(false))
    }

    /// A form of `a <-> b`, read as `(a && b) || (!a && !b)`.
    fn iff_form(&mut self, negate: bool, a: Forms, b: Forms) -> Result<usize, AllocError>
        requires left { IsThere self.old a true × IsThere self.old a false }
        requires right { IsThere self.old b true × IsThere self.old b false }
        ensures { IfOk result (λ k. Makes self.old self.new k
            (form_of negate (both_binary self.old.rewrite spec.Iff (forms_at self.old a) (forms_at self.old b)))) }
    {
        let both = self.and_form(negate, a, b)?;
        let neither = self.and_form(negate, a.negated(), b.negated())?;
        if negate {
            return self.make_and(both, neither);
        }
        self.make_or(both, neither)
    }

    /// A form of `left U right`, by the numbers of those forms of the operands that it is made of.
    fn until_form(&mut self, negate: bool, left: usize, right: usize) -> Result<usize, AllocError>
        requires left { left < length self.old.nodes }
        requires right { right < length self.old.nodes }
        ensures { IfOk result (λ k. Makes self.old self.new k (if negate
            then made_release self.old.rewrite (tree_at self.old.nodes left) (tree_at self.old.nodes right)
            else made_until self.old.rewrite (tree_at self.old.nodes left) (tree_at self.old.nodes right))) }
    {
        if negate {
            return self.make_release(left, right);
        }
        self.make_until(left, right)
    }

    /// A form of a prefix operator over `a`. `X` is its own dual, `[]a` is `false V a`, and `<>a` is `true U a`.
    fn unary_form(
        &mut self,
        operator: UnaryOperator,
        negate: bool,
        a: Forms,
    ) -> Result<usize, AllocError>
        requires { HasOperandForm (IsThere self.old a) operator negate }
        ensures { IfOk result (λ k. Makes self.old self.new k
            (form_of negate (both_unary self.old.rewrite (unary_of operator) (forms_at self.old a)))) }
    {
        match operator {
            UnaryOperator::Not => Ok(a.chosen(!negate)),
            UnaryOperator::Next => self.make_next(a.chosen(negate)),
            UnaryOperator::Always => {
                self.until_form(!negate, self.constant_form(negate), a.chosen(negate))
            }
            UnaryOperator::Eventually => {
                self.until_form(negate, self.constant_form(!negate), a.chosen(negate))
            }
        }
    }

    /// A form of an infix operator over `a` and `b`. `a || b` is the dual of `a && b`, `a -> b` is `!a || b`, and `a V b` is the dual of `a U b`.
    fn binary_form(
        &mut self,
        operator: BinaryOperator,
        negate: bool,
        a: Forms,
        b: Forms,
    ) -> Result<usize, AllocError>
        requires left { HasLeftForms (IsThere self.old a) operator negate }
        requires right { HasRightForms (IsThere self.old b) operator negate }
        ensures { IfOk result (λ k. Makes self.old self.new k
            (form_of negate (both_binary self.old.rewrite (binary_of operator) (forms_at self.old a) (forms_at self.old b)))) }
    {
        match operator {
            BinaryOperator::And => self.and_form(negate, a, b),
            BinaryOperator::Or => self.and_form(!negate, a.negated(), b.negated()),
            BinaryOperator::Implies => self.and_form(!negate, a, b.negated()),
            BinaryOperator::Iff => self.iff_form(negate, a, b),
            BinaryOperator::Until => self.until_form(negate, a.chosen(negate), b.chosen(negate)),
            BinaryOperator::Release => self.until_form(!negate, a.chosen(negate), b.chosen(negate)),
        }
    }

    /// The normal form of a node's formula, or of its negation if `negate` is set, from those of the nodes before it.
    fn form(&mut self, node: Node, negate: bool, done: &[Forms]) -> Result<usize, AllocError>
        requires before { (count : ℕ) × StandsAt count (length done.now) node }
        requires made { HasOperandForms (IsThereAt self.old done.now) node negate }
        ensures { IfOk result (λ k. Makes self.old self.new k (form_of negate (both_of self.old.rewrite (forms_in self.old done.now) (flat_of node)))) }
    {
        match node {
            Node::Constant(value) => Ok(self.constant_form(value != negate)),
            Node::Proposition(proposition) => self.intern(Row::Literal(Literal {
                proposition,
                positive: !negate,
            })),
            Node::Unary(operator, i) => self.unary_form(operator, negate, done[i]),
            Node::Binary(operator, i, j) => self.binary_form(operator, negate, done[i], done[j]),
        }
    }

    /// A form of a node in 32 bits if it's needed, else 0.
    fn form_if(
        &mut self,
        is_needed: bool,
        node: Node,
        negate: bool,
        done: &[Forms],
    ) -> Result<u32, AllocError>
        requires before { (count : ℕ) × StandsAt count (length done.now) node }
        requires made { is_needed ≡ true → HasOperandForms (IsThereAt self.old done.now) node negate }
        ensures { IfOk result (λ k. MakesIf is_needed self.old self.new k
            (form_of negate (both_of self.old.rewrite (forms_in self.old done.now) (flat_of node)))) }
    {
        if !is_needed {
            return Ok(0);
        }
        narrow(self.form(node, negate, done)?)
    }

    /// The forms of a node that are needed, from those of the nodes before it.
    fn node_forms(&mut self, node: Node, need: Need, done: &[Forms]) -> Result<Forms, AllocError>
        requires before { (count : ℕ) × StandsAt count (length done.now) node }
        requires made { (negate : Bool) → IsNeeded need negate → HasOperandForms (IsThereAt self.old done.now) node negate }
        ensures { IfOk result (λ p. MakesNeeded self.old self.new need p (both_of self.old.rewrite (forms_in self.old done.now) (flat_of node))) }
    {
        let positive = self.form_if(need.positive, node, false, done)?;
        let negative = self.form_if(need.negative, node, true, done)?;
        Ok(Forms { positive, negative })
    }
}

/// The number of the node that is the normal form of the formula, or of its negation if `negate` is set. `needs` has what that form needs of each node.
pub fn core_number<A: Allocator, B: Allocator>(
    alloc: &A,
    graph: &mut SharedNodes<'_, A>,
    formula: &Formula<'_, B>,
    negate: bool,
    needs: &[Need],
) -> Result<usize, AllocError>
    requires closed { AreClosed formula.now.nodes needs.now }
    requires root { IsNeeded (need_at needs.now (length formula.now.nodes - 1)) negate }
    ensures made { IfOk result (λ k. Makes graph.old graph.new k (core (reading_of formula.now).formula negate graph.old.rewrite)) }
    ensures few { IfOk result (λ _. length formula.now.names ≤ stated_limits.propositions) }
    ensures literals { IfOk result (λ _. HasLeavesBelow (length formula.now.names) (core (reading_of formula.now).formula negate graph.old.rewrite)) }
{
    let count = formula.len();
    let mut done: FormsList<'_, A> = SmallVec::with_capacity(alloc, count)?;
    'nodes: for i in 0..count {
        let forms = graph.node_forms(formula.node(i), needs[i], &done)?;
        done.push(forms)?;
    }
    Ok(done[count - 1].chosen(negate))
}
