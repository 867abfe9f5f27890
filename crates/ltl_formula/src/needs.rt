//! Which normal forms of the nodes of a formula are needed: that of the node's formula, that of its negation, or both.

ghost use Rattle.std.specs.Prelude.{◌≡◌, ◌<◌, ◌≤◌, ◌-◌, ◌+◌, ◌||◌, ℕ, Bool, length, IfOk};
ghost use Rattle.ltl_syntax.specs.FormulaView.{StandsAt};
ghost use Rattle.ltl_formula.specs.NeedsView.{AreClosed, AreMarked, HasLeftForms, HasRightForms, IsNeeded, IsWider, need_at};

use ltl_syntax::{BinaryOperator, Formula, Node, UnaryOperator};
use smallvec::SmallVec;
use std::alloc::{AllocError, Allocator};

/// Whether the normal form of a node's formula is needed, and whether that of its negation is.
#[derive(Clone, Copy, Default)]
pub(crate) struct Need {
    pub(crate) positive: bool,
    pub(crate) negative: bool,
}

/// What is needed of each node. Up to 64 nodes are stored without an allocation.
type Needs<'a, A> = SmallVec<Need, 64, &'a A>;

impl Need {
    /// The need of the negation.
    #[inline(always)]
    fn negated(self) -> Need
        ensures positive { result.positive ≡ self.negative }
        ensures negative { result.negative ≡ self.positive }
    {
        Need {
            positive: self.negative,
            negative: self.positive,
        }
    }

    /// The forms that at least one of the two needs.
    #[inline(always)]
    fn and(self, other: Need) -> Need
        ensures positive { result.positive ≡ (self.positive || other.positive) }
        ensures negative { result.negative ≡ (self.negative || other.negative) }
    {
        Need {
            positive: self.positive || other.positive,
            negative: self.negative || other.negative,
        }
    }

    /// The need of both forms if one of them is needed.
    #[inline(always)]
    fn both(self) -> Need
        ensures positive { result.positive ≡ (self.positive || self.negative) }
        ensures negative { result.negative ≡ (self.positive || self.negative) }
    {
        self.and(self.negated())
    }

    /// The number of forms that are needed.
    fn count(self) -> usize
        ensures { result ≤ 2 }
    {
        self.positive as usize + self.negative as usize
    }
}

/// Adds a need to that of a node.
#[inline(always)]
fn add(needs: &mut [Need], i: usize, need: Need)
    requires { i < length needs.old }
    ensures wider { IsWider (i + 1) needs.old needs.new }
    ensures added { (negate : Bool) → IsNeeded need negate → IsNeeded (need_at needs.new i) negate }
{
    needs[i] = needs[i].and(need);
}

/// What a form of a binary node needs of the left operand.
#[inline(always)]
fn of_left(operator: BinaryOperator, need: Need) -> Need
    ensures { (negate : Bool) → IsNeeded need negate → HasLeftForms (IsNeeded result) operator negate }
{
    match operator {
        BinaryOperator::Iff => need.both(),
        BinaryOperator::Implies => need.negated(),
        _ => need,
    }
}

/// What a form of a binary node needs of the right operand.
#[inline(always)]
fn of_right(operator: BinaryOperator, need: Need) -> Need
    ensures { (negate : Bool) → IsNeeded need negate → HasRightForms (IsNeeded result) operator negate }
{
    match operator {
        BinaryOperator::Iff => need.both(),
        _ => need,
    }
}

/// Adds what the needed forms of node i need of its operands.
#[inline(always)]
fn add_below(needs: &mut [Need], i: usize, node: Node)
    requires inside { i < length needs.old }
    requires before { (count : ℕ) × StandsAt count i node }
    ensures wider { IsWider i needs.old needs.new }
    ensures marked { AreMarked needs.new node (need_at needs.old i) }
{
    let need = needs[i];
    match node {
        Node::Constant(_) | Node::Proposition(_) => {}
        Node::Unary(UnaryOperator::Not, a) => add(needs, a, need.negated()),
        Node::Unary(_, a) => add(needs, a, need),
        Node::Binary(operator, a, b) => {
            add(needs, a, of_left(operator, need));
            add(needs, b, of_right(operator, need));
        }
    }
}

/// How many nodes of a graph are made for one form of a node.
#[inline(always)]
fn most_made(node: Node) -> usize
    ensures { result ≤ 3 }
{
    match node {
        Node::Constant(_) | Node::Unary(UnaryOperator::Not, _) => 0,
        Node::Binary(BinaryOperator::Iff, _, _) => 3,
        _ => 1,
    }
}

/// What is needed of the nodes of a formula.
#[derive(Drop)]
pub(crate) struct NeededForms<'a, A: Allocator> {
    pub(crate) needs: Needs<'a, A>,
    /// At most so many nodes are made for the forms that are needed.
    pub(crate) count: usize,
}

/// Adds what all nodes need, the last one first. Returns how many nodes are made at most.
fn add_all<B: Allocator>(needs: &mut [Need], formula: &Formula<'_, B>) -> usize
    requires { length needs.old ≡ length formula.now.nodes }
    ensures wider { IsWider (length formula.now.nodes) needs.old needs.new }
    ensures closed { AreClosed formula.now.nodes needs.new }
{
    let mut count = 0usize;
    let mut i = formula.len();
    'nodes: while i > 0 {
        i -= 1;
        let node = formula.node(i);
        add_below(needs, i, node);
        count = count.saturating_add(needs[i].count() * most_made(node));
    }
    count
}

/// What the normal form of a formula needs of its nodes, or that of its negation if `negate` is set.
pub(crate) fn needed_forms<'a, A: Allocator, B: Allocator>(
    alloc: &'a A,
    formula: &Formula<'_, B>,
    negate: bool,
) -> Result<NeededForms<'a, A>, AllocError>
    ensures closed { IfOk result (λ v. AreClosed formula.now.nodes v.needs.items) }
    ensures root { IfOk result (λ v. IsNeeded (need_at v.needs.items (length formula.now.nodes - 1)) negate) }
{
    let mut needs: Needs<'a, A> = SmallVec::new(alloc);
    needs.resize(formula.len(), Need::default())?;
    let all = needs.as_mut_slice();
    let whole = Need {
        positive: !negate,
        negative: negate,
    };
    add(all, formula.len() - 1, whole);
    let count = add_all(all, formula);
    Ok(NeededForms { needs, count })
}
