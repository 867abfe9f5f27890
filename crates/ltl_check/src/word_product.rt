//! The product of an automaton and a lasso word, on the fly.

ghost use Rattle.std.specs.Prelude.{◌≡◌, ◌<◌, ◌≤◌, length};
ghost use Rattle.ltl_spec.specs.Tools.Limits.{stated_limits};
ghost use Rattle.ltl_check.specs.WordView.{IsInside, IsWordState, position_after, step_along, word_count, word_edges, word_number, word_start, word_state, word_step};

use crate::graph::{Graph, Step};
use crate::operand::Operand;
use crate::product::Steps;
use ltl_sets::PropositionSet;

/// A state of the product: a state of the automaton and a position of the word.
#[derive(Clone, Copy, Debug)]
pub struct WordState {
    pub state: usize,
    pub position: usize,
}

/// The product of an automaton and a word, which is given by its letters: sets of the automaton's propositions. The first `stem` letters are the stem. An edge
/// exists at a position if the letter there satisfies its label; it leads to the next position.
#[derive(Drop)]
pub struct WordProduct<'p, F: Operand> {
    automaton: &'p F,
    letters: &'p [PropositionSet],
    stem: usize,
    ghost inside: { IsInside (F.automaton_of automaton.now) },
    ghost few: { length letters.now ≤ stated_limits.product },
    ghost turns: { stem < length letters.now },
}

impl<'p, F: Operand> WordProduct<'p, F> {
    /// The product with a word of these letters. Nothing is computed and nothing allocated.
    pub fn new(automaton: &'p F, letters: &'p [PropositionSet], stem: usize) -> WordProduct<'p, F>
        requires few { length letters.now ≤ stated_limits.product }
        requires turns { stem < length letters.now }
        ensures automaton { result.automaton.now ≡ automaton.now }
        ensures letters { result.letters.now ≡ letters.now }
        ensures stem { result.stem ≡ stem }
    {
        automaton.invariant();
        WordProduct {
            automaton,
            letters,
            stem,
        }
    }

    /// The next position. The position after the last one is the first of the cycle.
    fn after(&self, position: usize) -> usize
        requires { position < length self.now.letters.now }
        ensures { result ≡ position_after (F.automaton_of self.now.automaton.now) self.now.letters.now self.now.stem position }
    {
        if position + 1 < self.letters.len() {
            position + 1
        } else {
            self.stem
        }
    }
}

impl<'p, F: Operand> Graph for WordProduct<'p, F> {
    type State = WordState;

    type Looks = Steps;

    ghost use Rattle.ltl_check.specs.WordProductLaws.{number_below, some_position, state_back, state_of_number, step_marks, step_target};

    ghost count_of = { λ p. word_count (F.automaton_of p.automaton.now) p.letters.now p.stem };

    ghost sets_of = { λ p. (F.automaton_of p.automaton.now).sets };

    ghost start_of = { λ p. word_start (F.automaton_of p.automaton.now) p.letters.now p.stem };

    ghost number_of = { λ p. word_number (F.automaton_of p.automaton.now) p.letters.now p.stem };

    ghost state_of = { λ p. word_state (F.automaton_of p.automaton.now) p.letters.now p.stem };

    ghost IsState = { λ p. IsWordState (F.automaton_of p.automaton.now) p.letters.now p.stem };

    ghost pairs_of = { λ p. word_edges (F.automaton_of p.automaton.now) p.letters.now p.stem };

    ghost step_of = { λ p. word_step (F.automaton_of p.automaton.now) p.letters.now p.stem };

    ghost looked_of = { λ c. c.count };

    fn count(&self) -> usize {
        self.letters.len() * self.automaton.len()
    }

    fn sets(&self) -> usize {
        self.automaton.sets()
    }

    fn start(&self) -> WordState {
        WordState {
            state: self.automaton.start(),
            position: 0,
        }
    }

    fn number(&self, s: WordState) -> usize {
        s.position * self.automaton.len() + s.state
    }

    fn state(&self, n: usize) -> WordState {
        let states = self.automaton.len();
        WordState {
            state: n % states,
            position: n / states,
        }
    }

    fn pairs(&self, s: WordState) -> usize {
        self.automaton.edge_count(s.state)
    }

    fn at(&self, s: WordState, k: usize, looks: &mut Steps) -> Option<Step<WordState>> {
        looks.count = looks.count.saturating_add(1);
        let letter = self.letters[s.position];
        if !self.automaton.cube(s.state, k).allows(&letter) {
            return None;
        }
        Some(Step {
            target: WordState {
                state: self.automaton.target(s.state, k),
                position: self.after(s.position),
            },
            marks: self.automaton.marks(s.state, k),
            letter,
        })
    }

    fn looked(looks: &Steps) -> u128 {
        looks.count
    }

    ghost start_is = { λ p. (p.inside.begins, some_position p.stem p.letters.now p.turns) };

    ghost state_is = { λ p n l. state_of_number (F.automaton_of p.automaton.now) p.letters.now p.stem n l };

    ghost target_is = { λ p s k t own inside e. step_target (F.automaton_of p.automaton.now) p.letters.now p.stem p.inside p.turns s k t own inside e };

    ghost marks_below = { λ p s k t own inside e. step_marks (F.automaton_of p.automaton.now) p.letters.now p.stem p.inside s k t own inside e };

    ghost below = { λ p s own. number_below (F.automaton_of p.automaton.now) p.letters.now p.stem s own };

    ghost back = { λ p s own. state_back (F.automaton_of p.automaton.now) p.letters.now p.stem s own };
}
