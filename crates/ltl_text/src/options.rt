//! The options of a state in a never claim: one for each target.

ghost use Rattle.std.specs.Prelude.{◌≡◌, ◌<◌, ◌≤◌, ◌==◌, length, All};
ghost use Rattle.std.specs.List.{prefix_len};
ghost use Rattle.ltl_spec.specs.Automata.Automaton.{state_at};
ghost use Rattle.ltl_spec.specs.Automata.ClaimText.{skip_state};
ghost use Rattle.ltl_spec.specs.Checking.Bounds.{HasNamesBelow};
ghost use Rattle.ltl_streams.specs.Printing.{Prints};
ghost use Rattle.ltl_automaton.specs.CodedEdges.{edges_in};
ghost use Rattle.ltl_models.specs.BaView.{target_at};
ghost use Rattle.ltl_text.specs.Names.{AllHaveNames};
ghost use Rattle.ltl_text.specs.Options.{guards_text, options_text};

use crate::guard::put_guard;
use crate::label::put_label;
use crate::literal_texts::LiteralTexts;
use ltl_models::{Ba, Edges};
use ltl_streams::{ByteSink, Printer};
use std::alloc::Allocator;

/// The number of positions at the beginning of the list whose edges lead to this target.
fn group_len(edges: &Edges<'_>, places: &[usize], target: usize) -> usize
    requires { All (λ p. p < length edges.now.coded.now) places.now }
    ensures within { result ≤ length places.now }
    ensures group { result ≡ prefix_len (λ p. target_at (edges_in edges.now) p == target) places.now }
{
    let mut len = 0;
    'group: while len < places.len() && edges.coded[places[len]].target == target {
        len += 1;
    }
    len
}

/// Writes the guards of the edges at these positions, with `||` between them.
fn put_guards<A: Allocator, S: ByteSink>(
    edges: &Edges<'_>,
    places: &[usize],
    texts: &LiteralTexts<'_, '_, A>,
    output: &mut Printer<'_, S>,
)
    requires within { All (λ p. p < length edges.now.coded.now) places.now }
    requires named { AllHaveNames (length texts.now) (edges_in edges.now) }
    ensures { Prints S.state output.old output.new (guards_text texts.now (edges_in edges.now) places.now) }
{
    let Some((first, others)) = places.split_first() else {
        return;
    };
    put_guard(&edges.get(*first).cube, texts, output);
    for place in others {
        output.put(b" || ");
        put_guard(&edges.get(*place).cube, texts, output);
    }
}

/// Writes the options of a state, ordered by target. `skip` is the state that is named `accept_all`.
pub fn put_options<A: Allocator, B: Allocator, S: ByteSink>(
    automaton: &Ba<'_, A>,
    texts: &LiteralTexts<'_, '_, B>,
    skip: usize,
    k: usize,
    output: &mut Printer<'_, S>,
)
    requires within { k < length automaton.now.states }
    requires named { HasNamesBelow (length texts.now) automaton.now }
    requires least { skip ≡ skip_state automaton.now }
    ensures { Prints S.state output.old output.new (options_text automaton.now texts.now (state_at automaton.now k)) }
{
    let edges = automaton.edges(k);
    let mut rest = automaton.by_target(k);
    'options: while let Some((place, _)) = rest.split_first() {
        let target = edges.coded[*place].target;
        let (group, others) = rest.split_at(group_len(&edges, rest, target));
        output.put(b"\t:: ");
        put_guards(&edges, group, texts, output);
        output.put(b" -> goto ");
        put_label(automaton, skip, target, output);
        output.put(b"\n");
        rest = others;
    }
}
