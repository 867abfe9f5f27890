//! The names of states in a never claim.

ghost use Rattle.std.specs.Prelude.{◌≡◌, ◌<◌, ◌++◌, [], ◌∷◌, length, All};
ghost use Rattle.std.specs.Fmt.{decimal};
ghost use Rattle.std.specs.Cmp.Lexicographic.{pointwise};
ghost use Rattle.ltl_spec.specs.Automata.ClaimText as claim;
ghost use Rattle.ltl_spec.specs.Construction.Merging.{same_edge};
ghost use Rattle.ltl_streams.specs.Printing.{Prints};
ghost use Rattle.ltl_automaton.specs.CodedEdges.{edges_in};
ghost use Rattle.ltl_text.specs.Options.{is_empty};

use crate::digits::Digits;
use ltl_models::{Ba, Edges};
use ltl_sets::Cube;
use ltl_streams::{ByteSink, Printer};
use std::alloc::Allocator;

fn has_no_literals(cube: &Cube) -> bool
    ensures { result ≡ is_empty cube.now }
{
    let mut literals = cube.iter();
    literals.next().is_none()
}

/// Whether the only edge is one to state `k` without literals.
fn is_free_loop(edges: Edges<'_>, k: usize) -> bool
    requires { All (λ e. e.marks ≡ []) (edges_in edges) }
    ensures { result ≡ pointwise same_edge (edges_in edges.entry) (record { cube = []; target = k; marks = [] } ∷ []) }
{
    match edges.coded {
        [edge] => edge.target == k && has_no_literals(&edges.labels.cube(edge.cube)),
        _ => false,
    }
}

/// Whether a state other than 0 is accepting, and its only edge is a loop without literals.
fn is_skip_state<A: Allocator>(automaton: &Ba<'_, A>, k: usize) -> bool
    requires { k < length automaton.now.states }
    ensures { result ≡ claim.is_skip_state automaton.now k }
{
    k != 0 && automaton.accepting(k) && is_free_loop(automaton.edges(k), k)
}

/// The least state for which `is_skip_state` is true, or the number of states if there is none. It is named `accept_all`.
pub fn skip_state<A: Allocator>(automaton: &Ba<'_, A>) -> usize
    ensures { result ≡ claim.skip_state automaton.now }
{
    for k in 0..automaton.len() {
        if is_skip_state(automaton, k) {
            return k;
        }
    }
    automaton.len()
}

#[inline(always)]
fn put_numbered<S: ByteSink>(beginning: &[u8], k: usize, output: &mut Printer<'_, S>)
    ensures { Prints S.state output.old output.new (beginning.now ++ decimal k) }
{
    output.put(beginning);
    output.put(Digits::of(k as u64).as_slice());
}

/// Writes the name of a state. `skip` is the state that is named `accept_all`.
pub fn put_label<A: Allocator, S: ByteSink>(
    automaton: &Ba<'_, A>,
    skip: usize,
    k: usize,
    output: &mut Printer<'_, S>,
)
    requires within { k < length automaton.now.states }
    requires least { skip ≡ claim.skip_state automaton.now }
    ensures { Prints S.state output.old output.new (claim.label_of automaton.now k) }
{
    let accepting = automaton.accepting(k);
    if k == 0 {
        if accepting {
            output.put(b"accept_init");
        } else {
            output.put(b"T0_init");
        }
    } else if k == skip {
        output.put(b"accept_all");
    } else if accepting {
        put_numbered(b"accept_S", k, output);
    } else {
        put_numbered(b"T0_S", k, output);
    }
}
