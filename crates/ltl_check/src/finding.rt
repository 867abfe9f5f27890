//! Emptiness of a graph with several sets of edges: a search for a lasso whose cycle meets every set.

ghost use Rattle.std.specs.Prelude.{◌≡◌, ℕ, ◌+◌, ◌*◌, ◌<◌, ◌≤◌, List, map, length, IfOk, IfErr, IfSome, Ok, None, ◌/◌, ◌^◌};
ghost use Rattle.ltl_spec.specs.Tools.Limits.{stated_limits};
ghost use Rattle.ltl_check.specs.declared.walk.Taken.{Taken};
ghost use Rattle.ltl_check.specs.Levels.{levels_net, without_level, IsFullWalk};
ghost use Rattle.ltl_check.specs.Explored.{sum_below};
ghost use Rattle.ltl_check.specs.Looks.{graph_net, LooksAtMost, LooksAtReached};

use crate::fault::CheckFault;
use crate::graph::Graph;
use crate::levels::Levels;
use crate::search::search_net;
use crate::walk::{Taken, Walk};
use std::alloc::{AllocError, Allocator};

/// The steps of `Levels` as steps of its graph: their levels are removed. The given list is dropped.
fn strip<'a, A: Allocator>(
    alloc: &'a A,
    steps: Vec<Taken, &'a A>,
    sets: usize,
) -> Result<Vec<Taken, &'a A>, AllocError>
    requires { sets + 1 < 2 ^ 64 }
    ensures { IfOk result (λ v. v.items ≡ map (without_level sets) steps.entry.items) }
{
    let mut stripped = Vec::with_capacity(alloc, steps.len())?;
    let mut i = 0usize;
    'steps: while i < steps.len() {
        let step = steps[i];
        let taken = Taken {
            state: step.state / (sets + 1),
            pick: step.pick,
            letter: step.letter,
        };
        stripped.push(taken)?;
        i += 1;
    }
    Ok(stripped)
}

/// A path from the start, and a cycle from its end that has an edge of every set; `None` if there is no such path and cycle.
///
/// # Errors
///
/// Memory is refused. There is no other error.
pub fn find<'a, G: Graph, A: Allocator>(
    alloc: &'a A,
    graph: &G,
    looks: &mut G::Looks,
) -> Result<Option<Walk<'a, A>>, CheckFault>
    requires { G.count_of graph.now * (G.sets_of graph.now + 1) ≤ stated_limits.product }
    ensures found { IfOk result (λ r. IfSome r (λ w. IsFullWalk (graph_net G.Graph graph.now) (G.sets_of graph.now) w.stem.items w.cycle.items)) }
    ensures none { result ≡ Ok None → (stem cycle : List Taken) → IsFullWalk (graph_net G.Graph graph.now) (G.sets_of graph.now) stem cycle → ⊥ }

    // Each edge is tried at most twice on each level. If there is no such cycle, each reachable edge is tried at least once.
    ensures most { LooksAtMost (G.looked_of looks.old) (G.looked_of looks.new)
        (2 * ((G.sets_of graph.now + 1) * sum_below (λ n. G.pairs_of graph.now (G.state_of graph.now n)) (G.count_of graph.now))) }
    ensures least { result ≡ Ok None → LooksAtReached (levels_net (G.sets_of graph.now) (graph_net G.Graph graph.now))
        (G.looked_of looks.old) (G.looked_of looks.new) }
    ensures memory { IfErr result (λ fault. fault ≡ CheckFault.OutOfMemory) }
{
    let levels = Levels::of(graph);
    match search_net(alloc, &levels, looks)? {
        Some(walk) => {
            let sets = graph.sets();
            let stem = strip(alloc, walk.stem, sets)?;
            let cycle = strip(alloc, walk.cycle, sets)?;
            Ok(Some(Walk { stem, cycle }))
        }
        None => Ok(None),
    }
}
