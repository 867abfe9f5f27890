//! Degeneralization on the fly: a graph with one set of edges, in place of one with several.

ghost use Rattle.std.specs.Prelude.{◌≡◌, ℕ, ◌+◌, ◌-◌, ◌*◌, ◌/◌, ◌%◌, ◌<◌, ◌≤◌, ◌==◌, cond, option_map};
ghost use Rattle.ltl_check.specs.declared.graph.Step.{Step};
ghost use Rattle.ltl_spec.specs.Tools.Limits.{stated_limits};
ghost use Rattle.ltl_check.specs.Levels.{placed_step, levels_net, net_of};

use crate::graph::{Graph, Step};
use crate::net::Numbered;
use ltl_automaton::next_level;
use ltl_sets::RowSet;

/// A copy of a state on a level.
#[derive(Clone, Copy, Debug)]
pub struct LevelState<S> {
    pub state: S,
    pub level: usize,
}

/// The degeneralized graph. Its levels are 0 to the number of sets of `graph`. From level `k`, an edge goes up one level if it is in set `k`, from
/// there one more if it is in set `k + 1`, and so on; the last level counts as level 0. Its one set has the edges that leave the last level. A look
/// is one look of `graph`.
#[derive(Drop)]
pub struct Levels<'a, G: Graph> {
    graph: &'a G,
    ghost fits: { G.count_of graph.now * (G.sets_of graph.now + 1) ≤ stated_limits.product },
}

impl<'a, G: Graph> Levels<'a, G> {
    /// The degeneralized graph. Nothing is computed and nothing allocated.
    pub fn of(graph: &'a G) -> Levels<'a, G>
        requires { G.count_of graph.now * (G.sets_of graph.now + 1) ≤ stated_limits.product }
        ensures { result.graph.now ≡ graph.now }
    {
        Levels { graph }
    }
}

impl<'a, G: Graph> Graph for Levels<'a, G> {
    type State = LevelState<G::State>;

    type Looks = G::Looks;

    ghost count_of = { λ l. G.count_of l.graph.now * (G.sets_of l.graph.now + 1) };

    ghost sets_of = { λ l. 1 };

    ghost start_of = { λ l. record { state = G.start_of l.graph.now; level = 0 } };

    ghost number_of = { λ l s. G.number_of l.graph.now s.state * (G.sets_of l.graph.now + 1) + s.level };

    ghost state_of = { λ l n. record { state = G.state_of l.graph.now (n / (G.sets_of l.graph.now + 1)); level = n % (G.sets_of l.graph.now + 1) } };

    ghost IsState = { λ l s. G.IsState l.graph.now s.state × (s.level ≤ G.sets_of l.graph.now) };

    ghost pairs_of = { λ l s. G.pairs_of l.graph.now s.state };

    ghost step_of = { λ l s k. option_map (placed_step (G.sets_of l.graph.now) s.level) (G.step_of l.graph.now s.state k) };

    ghost looked_of = { G.looked_of };

    fn count(&self) -> usize {
        self.graph.count() * (self.graph.sets() + 1)
    }

    fn sets(&self) -> usize {
        1
    }

    fn start(&self) -> Self::State {
        LevelState {
            state: self.graph.start(),
            level: 0,
        }
    }

    fn number(&self, s: Self::State) -> usize {
        self.graph.number(s.state) * (self.graph.sets() + 1) + s.level
    }

    fn state(&self, n: usize) -> Self::State {
        let height = self.graph.sets() + 1;
        LevelState {
            state: self.graph.state(n / height),
            level: n % height,
        }
    }

    fn pairs(&self, s: Self::State) -> usize {
        self.graph.pairs(s.state)
    }

    fn at(&self, s: Self::State, k: usize, looks: &mut Self::Looks) -> Option<Step<Self::State>> {
        let sets = self.graph.sets();
        match self.graph.at(s.state, k, looks) {
            Some(step) => Some(Step {
                target: LevelState {
                    state: step.target,
                    level: next_level(sets, &step.marks, s.level),
                },
                marks: if s.level == sets {
                    RowSet::single(0)
                } else {
                    RowSet::empty()
                },
                letter: step.letter,
            }),
            None => None,
        }
    }

    fn looked(looks: &Self::Looks) -> u128 {
        G::looked(looks)
    }

    ghost use Rattle.ltl_check.specs.LevelLaws.{none_below, place_within, place_level, place_below, placed_target, placed_marks, placed_back};

    ghost start_is = { λ g. (G.start_is g.graph.now, none_below (G.sets_of g.graph.now)) };

    ghost state_is = { λ g n h. (
      G.state_is g.graph.now (n / (G.sets_of g.graph.now + 1))
          (place_within n (G.count_of g.graph.now) (G.sets_of g.graph.now) h),
      place_level n (G.sets_of g.graph.now),
    ) };

    ghost target_is = { λ g s k t own inside e. placed_target (G.IsState g.graph.now) (G.sets_of g.graph.now) s.level
        (G.step_of g.graph.now s.state k) t own.1 e (λ a f. G.target_is g.graph.now s.state k a own.0 inside f) };

    ghost marks_below = { λ g s k t own inside e. placed_marks (G.sets_of g.graph.now) s.level (G.step_of g.graph.now s.state k) t e };

    ghost below = { λ g s own. place_below (G.number_of g.graph.now s.state) s.level (G.count_of g.graph.now) (G.sets_of g.graph.now)
        (G.below g.graph.now s.state own.0) own.1 };

    ghost back = { λ g s own. placed_back (G.state_of g.graph.now) (G.number_of g.graph.now s.state) (G.sets_of g.graph.now) s own.1
        (G.back g.graph.now s.state own.0) };
}

impl<'a, G: Graph> Numbered for Levels<'a, G> {
    type Looks = G::Looks;

    ghost net = { λ l. levels_net (G.sets_of l.graph.now) (net_of (G.count_of l.graph.now) (G.start_of l.graph.now) (G.number_of l.graph.now)
        (G.state_of l.graph.now) (G.pairs_of l.graph.now) (G.step_of l.graph.now)) };

    ghost looked_of = { G.looked_of };

    fn count(&self) -> usize {
        Graph::count(self)
    }

    fn start(&self) -> usize {
        self.number(Graph::start(self))
    }

    fn pairs_at(&self, n: usize) -> usize {
        self.pairs(self.state(n))
    }

    fn accepts(&self, n: usize) -> bool {
        n % (self.graph.sets() + 1) == self.graph.sets()
    }

    fn look(&self, n: usize, k: usize, looks: &mut Self::Looks) -> Option<Step<usize>> {
        match self.at(self.state(n), k, looks) {
            Some(step) => Some(Step {
                target: self.number(step.target),
                marks: step.marks,
                letter: step.letter,
            }),
            None => None,
        }
    }
}
