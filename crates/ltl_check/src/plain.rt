//! A graph by the numbers of its states.

ghost use Rattle.std.specs.Prelude.{◌≡◌, ℕ, ◌<◌};
ghost use Rattle.ltl_check.specs.Levels.{net_of};

use crate::graph::{Graph, Step};
use crate::net::Numbered;

/// A graph whose states are given by their numbers. Its edges and their sets are those of `graph`. A look is one look of `graph`.
#[derive(Drop)]
pub(crate) struct Plain<'a, G: Graph> {
    graph: &'a G,
}

impl<'a, G: Graph> Plain<'a, G> {
    /// The graph by its numbers. Nothing is computed and nothing allocated.
    pub(crate) fn of(graph: &'a G) -> Plain<'a, G>
        ensures { result.graph.now ≡ graph.now }
    {
        Plain { graph }
    }
}

impl<'a, G: Graph> Numbered for Plain<'a, G> {
    type Looks = G::Looks;

    ghost net = { λ p. net_of (G.count_of p.graph.now) (G.start_of p.graph.now) (G.number_of p.graph.now) (G.state_of p.graph.now)
        (G.pairs_of p.graph.now) (G.step_of p.graph.now) };

    ghost looked_of = { G.looked_of };

    fn count(&self) -> usize {
        self.graph.count()
    }

    fn start(&self) -> usize {
        self.graph.number(self.graph.start())
    }

    fn pairs_at(&self, n: usize) -> usize {
        self.graph.pairs(self.graph.state(n))
    }

    fn accepts(&self, _: usize) -> bool {
        false
    }

    fn look(&self, n: usize, k: usize, looks: &mut Self::Looks) -> Option<Step<usize>> {
        match self.graph.at(self.graph.state(n), k, looks) {
            Some(step) => Some(Step {
                target: self.graph.number(step.target),
                marks: step.marks,
                letter: step.letter,
            }),
            None => None,
        }
    }
}
