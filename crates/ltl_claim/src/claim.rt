//! The claims that the reader makes.

ghost use Rattle.std.specs.Prelude.{◌≡◌, ◌<◌, length, map, string_bytes, slice_index_or, false, []};
ghost use Rattle.ltl_claim.specs.ClaimView.{StateView};

use std::alloc::Allocator;
use std::marker::Model;

/// A step of a guard in postfix order: an operand, or an operator behind its operands. The last step is the guard's outermost operator.
#[derive(Clone, Copy, Debug, PartialEq, Eq)]
pub enum GuardStep {
    Constant(bool),
    /// The proposition with this number in the claim's list of names.
    Name(usize),
    Not,
    And,
    Or,
}

/// A move of a state: the condition on the letter, and the state that it leads to.
#[derive(Drop)]
pub struct ClaimMove<'a, A: Allocator> {
    pub(crate) guard: Vec<GuardStep, &'a A>,
    pub(crate) target: usize,
}

impl<'a, A: Allocator> Model for ClaimMove<'a, A> {
    ghost use Rattle.ltl_claim.specs.ClaimView.{MoveView};

    ghost Value = { MoveView };

    ghost view = { λ m. record { steps = m.guard.items; target = m.target } };
}

impl<'a, A: Allocator> ClaimMove<'a, A> {
    /// The guard, which has at least one step.
    pub fn guard(&self) -> &[GuardStep]
        ensures { result.now ≡ self.now.steps }
    {
        self.guard.as_slice()
    }

    /// The number of a state. That of the closing brace is the number of statements.
    pub fn target(&self) -> usize
        ensures { result ≡ self.now.target }
    {
        self.target
    }
}

/// A state: whether it accepts, and its moves.
#[derive(Drop)]
pub(crate) struct ClaimState<'a, A: Allocator> {
    pub accepting: bool,
    pub moves: Vec<ClaimMove<'a, A>, &'a A>,
}

impl<'a, A: Allocator> Model for ClaimState<'a, A> {
    ghost use Rattle.ltl_claim.specs.ClaimView.{StateView};

    ghost Value = { StateView };

    ghost view = { λ s. record { accepting = s.accepting; moves = s.moves.items } };
}

/// The automaton of a claim. Its states are the statements, numbered from 0 by their first token, and the closing brace, whose number is that of
/// statements. At the closing brace each word is accepted.
#[derive(Drop)]
pub struct Claim<'a, A: Allocator> {
    pub(crate) names: Vec<String<&'a A>, &'a A>,
    pub(crate) start: usize,
    pub(crate) states: Vec<ClaimState<'a, A>, &'a A>,
}

impl<'a, A: Allocator> Model for Claim<'a, A> {
    ghost use Rattle.std.specs.Prelude.{map, string_bytes};
    ghost use Rattle.ltl_claim.specs.ClaimView.{ClaimView};

    ghost Value = { ClaimView };

    ghost view = { λ c. record { names = map string_bytes c.names.items; start = c.start; states = c.states.items } };
}

impl<'a, A: Allocator> Claim<'a, A> {
    /// The names of the propositions, in the order in which each first stands in the text. Their positions are the numbers in guards. There are at most 256.
    pub fn names(&self) -> &[String<&'a A>]
        ensures { map string_bytes result.now ≡ self.now.names }
    {
        self.names.as_slice()
    }

    /// The number of statements, at most 65,536.
    pub fn len(&self) -> usize
        ensures count { result ≡ length self.now.states }
        ensures few { length self.now.states < 9_223_372_036_854_775_808 }
    {
        self.states.len()
    }

    /// The state that comes first. It may be the closing brace.
    pub fn start(&self) -> usize
        ensures { result ≡ self.now.start }
    {
        self.start
    }

    /// Whether the state accepts. `i` is the number of a statement.
    pub fn accepting(&self, i: usize) -> bool
        requires { i < length self.now.states }
        ensures { result ≡ (slice_index_or self.now.states i (record { accepting = false; moves = [] })).accepting }
    {
        self.states[i].accepting
    }

    /// The moves of a statement, in the order of the text.
    pub fn moves(&self, i: usize) -> &[ClaimMove<'a, A>]
        requires { i < length self.now.states }
        ensures { result.now ≡ (slice_index_or self.now.states i (record { accepting = false; moves = [] })).moves }
    {
        self.states[i].moves.as_slice()
    }
}
