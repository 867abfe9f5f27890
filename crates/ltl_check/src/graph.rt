//! Implicit graphs: a candidate edge is computed from its number. One such computation is called a look.

ghost use Rattle.std.specs.Prelude.{◌≡◌, ℕ, ◌+◌, ◌-◌, ◌<◌, ◌^◌, Option, Some, min};
ghost use Rattle.ltl_check.specs.declared.graph.Step.{Step};
ghost use Rattle.ltl_check.specs.Marks.{MarksBelow};

use ltl_sets::{PropositionSet, RowSet};

/// The edge that a look finds: its target, the numbers of the sets that it is in, and the propositions that are true in its letter.
#[derive(Clone, Copy, Debug)]
pub struct Step<S> {
    pub target: S,
    pub marks: RowSet,
    pub letter: PropositionSet,
}

/// A finite graph with sets of edges. The edges are computed one at a time. The states of the graph are the start, the targets of edges, and the states
/// of the numbers below `count()`. Different states have different numbers.
pub trait Graph {
    /// A state, passed by value.
    type State: Copy;

    /// The counter of looks. The trait has no way to make, copy or reset one.
    type Looks;

    ghost count_of: { Self → ℕ };

    ghost sets_of: { Self → ℕ };

    ghost start_of: { Self → Self.State };

    ghost number_of: { Self → Self.State → ℕ };

    ghost state_of: { Self → ℕ → Self.State };

    ghost IsState: { Self → Self.State → Type 0 };

    ghost pairs_of: { Self → Self.State → ℕ };

    ghost step_of: { Self → Self.State → ℕ → Option (Step Self.State) };

    ghost looked_of: { Self.Looks → ℕ };

    /// A bound above every number of a state.
    fn count(&self) -> usize
        ensures { result ≡ count_of self.now };

    /// The number of sets of edges.
    fn sets(&self) -> usize
        ensures { result ≡ sets_of self.now };

    /// The initial state.
    fn start(&self) -> Self::State
        ensures { result ≡ start_of self.now };

    /// The number of a state.
    fn number(&self, s: Self::State) -> usize
        requires { IsState self.now s }
        ensures { result ≡ number_of self.now s };

    /// The state with this number.
    fn state(&self, n: usize) -> Self::State
        requires { n < count_of self.now }
        ensures { result ≡ state_of self.now n };

    /// The number of candidate edges of a state.
    fn pairs(&self, s: Self::State) -> usize
        requires { IsState self.now s }
        ensures { result ≡ pairs_of self.now s };

    /// The candidate edge `k` of a state, or `None` if there is no such edge. The look is counted; the counter stays at its greatest value.
    fn at(&self, s: Self::State, k: usize, looks: &mut Self::Looks) -> Option<Step<Self::State>>
        requires own { IsState self.now s }
        requires inside { k < pairs_of self.now s }
        ensures found { result ≡ step_of self.now s k }
        ensures counted { looked_of looks.new ≡ min (looked_of looks.old + 1) (2 ^ 128 - 1) };

    /// The number of looks that were counted.
    fn looked(looks: &Self::Looks) -> u128
        ensures { result ≡ looked_of looks.now };

    ghost start_is: { (g : Self) → IsState g (start_of g) };

    ghost state_is: { (g : Self) (n : ℕ) → n < count_of g → IsState g (state_of g n) };

    ghost target_is: { (g : Self) (s : Self.State) (k : ℕ) (t : Step Self.State) → IsState g s → k < pairs_of g s → step_of g s k ≡ Some t
        → IsState g t.target };

    ghost marks_below: { (g : Self) (s : Self.State) (k : ℕ) (t : Step Self.State) → IsState g s → k < pairs_of g s → step_of g s k ≡ Some t
        → MarksBelow t.marks (sets_of g) };

    ghost below: { (g : Self) (s : Self.State) → IsState g s → number_of g s < count_of g };

    ghost back: { (g : Self) (s : Self.State) → IsState g s → state_of g (number_of g s) ≡ s };
}
