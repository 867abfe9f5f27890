//! Degeneralization: a state has a copy for each level. The level is the number of acceptance sets that were met in turn. Acceptance sets of edges
//! become accepting states.

ghost use Rattle.std.specs.Prelude.{◌≡◌, ⊤, map, IfOk, OnOk, IsErrOf};
ghost use Rattle.ltl_spec.specs.Collections.Sets.{set_of};
ghost use Rattle.ltl_spec.specs.Construction.Levels as levels_of;
ghost use Rattle.ltl_spec.specs.Tools.Limits.{stated_limits};
ghost use Rattle.ltl_automaton.specs.SharedView.{automaton_of};
ghost use Rattle.ltl_models.specs.GbaView as gba;
ghost use Rattle.ltl_models.specs.BaView.{IsBa};
ghost use Rattle.ltl_automaton.specs.CodedEdges.{coded_edge_of, tables_of};
ghost use Rattle.ltl_passes.specs.Degeneralize.{coded_level_edge, coded_level_net, level_edge_of, level_move};
ghost use Rattle.ltl_automaton.specs.Labels.{AreCoded, AreTables, labelled};

use ltl_automaton::{
    AutomatonFault, CodedEdge, CodedStates, Key, Labels, Limits, ListOrder, SharedStates, Step,
    Successors, explore_from, next_level, sort_dedup,
};
use ltl_models::{Ba, BaFault, Gba, MOST_EDGES, MOST_STATES};
use std::alloc::{AllocError, Allocator};
use std::cmp::Ordering;
use std::hash::{Hash, Hasher};
use std::marker::Model;

/// A copy of a state: the state and its level.
#[derive(Clone, Copy, PartialEq, Eq)]
pub struct LevelState {
    /// The number of the state.
    pub state: usize,
    /// The level, from 0 to the number of acceptance sets.
    pub level: usize,
}

impl Model for LevelState {
    ghost use Rattle.ltl_spec.specs.Construction.Levels as spec;
    ghost use Rattle.ltl_passes.specs.LevelCodes.{level_state_code};

    ghost Value = { spec.LevelState };

    ghost coded = { level_state_code };

    ghost view = { λ p. record { state = p.state; level = p.level } };

    ghost inverse = { λ p. record { state = p.state; level = p.level } };
}

impl Hash for LevelState {
    ghost use Rattle.ltl_passes.specs.LevelCodes.{hash_of_level_state, hash_of_same};

    ghost hash_input = { hash_of_level_state };

    ghost respects_eq = { hash_of_same };

    fn hash<H: Hasher>(&self, state: &mut H) {
        self.state
            .wrapping_mul(256)
            .wrapping_add(self.level)
            .hash(state);
    }
}

impl Key for LevelState {
    ghost use Rattle.ltl_spec.proofs.Construction.LevelRuns.{same_level_state_Decides};

    ghost exact = { λ p q. (same_level_state_Decides p q).0 };
}

/// An edge to a copy, without marks. Its cube is a number in the table.
#[derive(Clone, Copy, PartialEq, Eq)]
pub(crate) struct LevelEdge {
    pub cube: u32,
    pub copy: LevelState,
}

impl ListOrder for LevelEdge {
    ghost use Rattle.ltl_passes.specs.LevelEdgeOrder.{level_edge_Decides, level_edge_linear_by_view};

    ghost order = { λ e f. levels_of.level_edge_cmp (level_edge_of e) (level_edge_of f) };

    /// Compares by the number of the cube, then by the state, then by the level.
    #[inline(always)]
    fn cmp_list(&self, other: &LevelEdge) -> Ordering {
        match self.cube.cmp(&other.cube) {
            Ordering::Equal => match self.copy.state.cmp(&other.copy.state) {
                Ordering::Equal => self.copy.level.cmp(&other.copy.level),
                unequal => unequal,
            },
            unequal => unequal,
        }
    }

    ghost linear = { level_edge_linear_by_view };

    ghost decides = { level_edge_Decides };
}

/// The edge of a copy on this level that an edge of the generalized automaton with `sets` acceptance sets becomes.
#[inline(always)]
fn level_edge(labels: &Labels<'_>, sets: usize, edge: &CodedEdge, level: usize) -> LevelEdge
    ensures lifted { level_edge_of result ≡ coded_level_edge (tables_of labels.now) sets level (coded_edge_of edge.now) }
{
    LevelEdge {
        cube: edge.cube,
        copy: LevelState {
            state: edge.target,
            level: next_level(sets, &labels.marks(edge.marks), level),
        },
    }
}

/// Replaces what `copied` has by the edges of a copy, sorted and without duplicates.
fn level_edges<A: Allocator>(
    copied: &mut Vec<LevelEdge, &A>,
    labels: &Labels<'_>,
    sets: usize,
    edges: &[CodedEdge],
    level: usize,
) -> Result<(), AllocError>
    ensures set { OnOk result (map level_edge_of copied.new.items
        ≡ set_of levels_of.level_edge_cmp (map (coded_level_edge (tables_of labels.now) sets level) (map coded_edge_of edges.now))) }
{
    copied.clear();
    copied.reserve(edges.len())?;
    for edge in edges {
        copied.push(level_edge(labels, sets, edge, level))?;
    }
    sort_dedup(copied);
    Ok(())
}

impl Step<LevelState, CodedEdge> for LevelEdge {
    ghost use Rattle.ltl_passes.specs.Degeneralize.{level_move};

    ghost move_of = { level_move };

    #[inline(always)]
    fn key(&self) -> LevelState {
        self.copy
    }

    /// The edge has no marks, which have number 0.
    #[inline(always)]
    fn edge_to(&self, target: usize) -> CodedEdge {
        CodedEdge {
            cube: self.cube,
            marks: 0,
            target,
        }
    }
}

/// The implicit graph of the copies of an automaton's states.
#[derive(Drop)]
struct LevelStates<'a, 'l, 'b, 'g, A: Allocator> {
    labels: Labels<'l>,
    states: &'b SharedStates<'g, CodedEdge, A>,
    /// The edges of the copy that was prepared last.
    edges: Vec<LevelEdge, &'a A>,
}

impl<'a, 'l, 'b, 'g, A: Allocator> Successors<LevelState, CodedEdge, LevelEdge>
    for LevelStates<'a, 'l, 'b, 'g, A> {
    ghost net = { λ n. coded_level_net (tables_of n.labels) (automaton_of n.states.now) };

    ghost ready = { λ _. ⊤ };

    ghost lent = { λ n. map level_move n.edges.items };

    fn accepting(&self, key: &LevelState) -> bool {
        key.level == self.states.sets()
    }

    /// The copy of the same state on the last level if the key is on level 0, and the other way round.
    fn same_successors_as(&mut self, key: &LevelState) -> Result<Option<LevelState>, AllocError> {
        let last = self.states.sets();
        if key.level == last {
            return Ok(Some(LevelState {
                state: key.state,
                level: 0,
            }));
        }
        if key.level == 0 {
            return Ok(Some(LevelState {
                state: key.state,
                level: last,
            }));
        }
        Ok(None)
    }

    fn edges_at_least(&mut self, _key: &LevelState) -> Result<usize, AllocError> {
        Ok(0)
    }

    #[tactic(auto, using(crate::proofs::LevelStateLaws::no_successors_past))]
    fn prepare(&mut self, key: &LevelState, _most: usize) -> Result<(), AutomatonFault> {
        let states = self.states;
        if key.state < states.len() {
            level_edges(
                &mut self.edges,
                &self.labels,
                states.sets(),
                states.edges(key.state),
                key.level,
            )?;
        } else {
            self.edges.clear();
        }
        Ok(())
    }

    fn steps(&self) -> &[LevelEdge] {
        self.edges.as_slice()
    }
}

/// Degeneralizes an automaton. The states of the result are the copies that are reachable from state 0 on level 0, and the copies on the last level are
/// accepting. The result is `TooLarge` if there are more than `MOST_STATES` copies or `MOST_EDGES` edges.
pub(crate) fn level_states<'a, A: Allocator>(
    alloc: &'a A,
    labels: &Labels<'_>,
    states: &SharedStates<'_, CodedEdge, A>,
) -> Result<SharedStates<'a, CodedEdge, A>, BaFault>
    requires tables { AreTables (tables_of labels.now) }
    requires coded { AreCoded (tables_of labels.now) (automaton_of states.now) }
    requires inside { gba.IsGba (labelled (tables_of labels.now) (automaton_of states.now)) }
    ensures copies { IfOk result (λ s. labelled (tables_of labels.now) (automaton_of s)
        ≡ levels_of.level_automaton (labelled (tables_of labels.now) (automaton_of states.now))) }
    ensures coded { IfOk result (λ s. AreCoded (tables_of labels.now) (automaton_of s)) }
    ensures inside { IfOk result (λ s. IsBa (labelled (tables_of labels.now) (automaton_of s))) }

    // The result is `TooLarge` only if a limit is exceeded, and is never `Ok` then. Memory may run out at any time.
    ensures few { OnOk result (¬ levels_of.HasTooManyLevelStates (labelled (tables_of labels.now) (automaton_of states.now))
        stated_limits.states stated_limits.edges) }
    ensures many { IsErrOf result BaFault.TooLarge → levels_of.HasTooManyLevelStates (labelled (tables_of labels.now) (automaton_of states.now))
        stated_limits.states stated_limits.edges }
{
    let start = LevelState { state: 0, level: 0 };
    let limits = Limits {
        states: MOST_STATES,
        edges: MOST_EDGES,
    };
    let mut copies = LevelStates {
        labels: *labels,
        states,
        edges: Vec::new(alloc),
    };
    let empty = SharedStates::new(alloc, 0);
    let made = explore_from(alloc, start, empty, &mut copies, limits)?;
    Ok(made)
}

/// Degeneralizes an automaton, as `level_states` does, into a Büchi automaton.
pub fn levels<'a, A: Allocator>(alloc: &'a A, automaton: &Gba<'_, A>) -> Result<Ba<'a, A>, BaFault>
    ensures copies { IfOk result (λ b. b ≡ levels_of.level_automaton automaton.now) }

    // The result is `TooLarge` only if a limit is exceeded, and is never `Ok` then. Memory may run out at any time.
    ensures few { OnOk result (¬ levels_of.HasTooManyLevelStates automaton.now stated_limits.states stated_limits.edges) }
    ensures many { IsErrOf result BaFault.TooLarge → levels_of.HasTooManyLevelStates automaton.now stated_limits.states stated_limits.edges }
{
    automaton.invariant();
    let input = automaton.states();
    let labels = input.table.labels();
    let copies = level_states(alloc, &labels, &input.states)?;
    let made = CodedStates {
        table: labels.table(alloc)?,
        states: copies,
    };
    Ok(Ba::new(alloc, made)?)
}
