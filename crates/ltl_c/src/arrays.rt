//! Writing of states and edges into the caller's arrays.

ghost use Rattle.std.specs.Prelude.{◌≡◌, ◌+◌, ◌≤◌, length, map};
ghost use Rattle.ltl_automaton.specs.CodedEdges.{edges_in};
ghost use Rattle.ltl_automaton.specs.EdgeView.{edge_of};
ghost use Rattle.ltl_cli.specs.Translations.{shown_in};
ghost use Rattle.ltl_c.specs.Arrays.{edge_row, edge_rows, put_at, put_over, state_rows};

use crate::rows::{EdgeRow, StateRow};
use ltl_automaton::{Edge, Edges};
use ltl_cli::Shown;
use std::alloc::Allocator;

/// The number of edges of an automaton.
pub(crate) fn edge_count<A: Allocator>(automaton: &Shown<'_, A>) -> usize
    ensures { result ≡ length (edge_rows (shown_in automaton.now).states) }
{
    automaton.invariant();
    let mut count = 0;
    for k in 0..automaton.len() {
        count += automaton.edges(k).len();
    }
    count
}

/// The row of an edge.
fn edge_row(edge: &Edge) -> EdgeRow
    ensures { result ≡ edge_row (edge_of edge.now) }
{
    EdgeRow {
        asked_true: edge.cube.letter().words(),
        asked_false: edge.cube.forbidden().words(),
        sets: edge.marks.words(),
        target: edge.target,
    }
}

/// Writes the rows of edges from index `at` on, and returns the index after the last one.
#[tactic(auto, using(crate::proofs::ArrayLaws::none_over))]
fn put_edges(list: Edges<'_>, rows: &mut [EdgeRow], at: usize) -> usize
    requires { at + length list.coded.now ≤ length rows.old }
    ensures end { result ≡ at + length list.entry.coded.now }
    ensures rows { rows.new ≡ put_at at (map edge_row (edges_in list.entry)) rows.old }
{
    for i in 0..list.len() {
        rows[at + i] = edge_row(&list.get(i));
    }
    at + list.len()
}

/// Writes the rows of all states, and those of all edges, state by state.
pub(crate) fn put_states<A: Allocator>(
    automaton: &Shown<'_, A>,
    states: &mut [StateRow],
    edges: &mut [EdgeRow],
)
    requires states_fit { length (shown_in automaton.now).states ≤ length states.old }
    requires edges_fit { length (edge_rows (shown_in automaton.now).states) ≤ length edges.old }
    ensures states { states.new ≡ put_over (state_rows (shown_in automaton.now).states) states.old }
    ensures edges { edges.new ≡ put_over (edge_rows (shown_in automaton.now).states) edges.old }
{
    let mut at = 0;
    for k in 0..automaton.len() {
        states[k] = StateRow {
            first_edge: at,
            accepting: automaton.accepting(k),
        };
        at = put_edges(automaton.edges(k), edges, at);
    }
}
