//! The shortest lasso in place of the one that a search has found.

ghost use Rattle.std.specs.Prelude.{◌≡◌, ℕ, ◌+◌, ◌*◌, ◌<◌, ◌≤◌, ◌^◌, List, length, IfOk, IfErr, Ok};
ghost use Rattle.ltl_spec.specs.Tools.Limits.{stated_limits};
ghost use Rattle.ltl_check.specs.Levels.{IsFullWalk};
ghost use Rattle.ltl_check.specs.Looks.{graph_net, LooksAtMost};
ghost use Rattle.ltl_check.specs.Shortened.{IsShorter, HasSearched, IsShortened};

use crate::breadth::{Breadth, Outcome, Task};
use crate::fault::CheckFault;
use crate::graph::Graph;
use crate::net::Numbered;
use crate::place::Bases;
use crate::plain::Plain;
use crate::shortcut::shorten_there;
use crate::walk::Walk;
use std::alloc::{AllocError, Allocator};

/// The number of looks that the search for the shortest lasso may make.
pub const SHORTENING_LIMIT: usize = 196_608;

/// The number of looks that may be made after that search, if it uses up its own: for a lasso that keeps edges of the given one, and then in a search among the
/// lassos whose cycle begins in one state. It meets each state of the graph at most once on a stem, and then once on a cycle for each set of acceptance sets.
pub const ONE_BASE_LIMIT: usize = 262_144;

/// What a search for a shorter lasso has found.
#[derive(Drop)]
pub(crate) enum Shorter<'a, A: Allocator> {
    Found(Walk<'a, A>),
    Nothing,
    Spent,
}

/// A lasso with fewer than `limit` edges, and with the fewest of those whose cycle begins in one of the bases, unless there is none or `most` looks were
/// made.
pub(crate) fn find_shorter<'a, N: Numbered, A: Allocator>(
    alloc: &'a A,
    net: &N,
    task: Task,
    limit: usize,
    most: usize,
    looks: &mut N::Looks,
) -> Result<Shorter<'a, A>, AllocError>
    requires { (N.net net.now).count < 2 ^ 63 }
    ensures found { IfOk result (λ r. IsShorter (N.net net.now) task limit r) }
    ensures looked { HasSearched (N.looked_of looks.old) (N.looked_of looks.new) most (result ≡ Ok Shorter.Spent) }
{
    let mut breadth = Breadth::new(alloc, net, most)?;
    match breadth.search(net, task, limit, looks)? {
        Outcome::Closed(number) => Ok(Shorter::Found(breadth.lasso(alloc, number)?)),
        Outcome::Nothing => Ok(Shorter::Nothing),
        Outcome::Spent => Ok(Shorter::Spent),
    }
}

/// The shortest lasso of the graph: a path from the start, and a cycle from its end that has an edge of every set, with the fewest edges together. The
/// given lasso is returned if it is a shortest one. If the search for it uses up its looks, the result may keep edges of the given lasso. Then no lasso that
/// begins its cycle where the given one does has fewer edges, unless the search among these uses up its looks, too.
///
/// # Errors
///
/// Memory is refused. There is no other error.
pub fn shorten<'a, G: Graph, A: Allocator>(
    alloc: &'a A,
    graph: &G,
    walk: Walk<'a, A>,
    looks: &mut G::Looks,
) -> Result<Walk<'a, A>, CheckFault>
    requires full { IsFullWalk (graph_net G.Graph graph.now) (G.sets_of graph.now) walk.stem.items walk.cycle.items }
    requires fits { G.count_of graph.now ≤ stated_limits.product }
    ensures lasso { IfOk result (λ w. IsShortened (graph_net G.Graph graph.now) (G.sets_of graph.now) walk.entry w
        SHORTENING_LIMIT ONE_BASE_LIMIT (G.looked_of looks.old) (G.looked_of looks.new)) }
    ensures most { LooksAtMost (G.looked_of looks.old) (G.looked_of looks.new) (SHORTENING_LIMIT + ONE_BASE_LIMIT) }
    ensures memory { IfErr result (λ fault. fault ≡ CheckFault.OutOfMemory) }
{
    let plain = Plain::of(graph);
    let sets = graph.sets();
    let limit = walk.stem.len() + walk.cycle.len();
    let every = Task {
        sets,
        bases: Bases::Every,
    };
    match find_shorter(alloc, &plain, every, limit, SHORTENING_LIMIT, looks)? {
        Shorter::Found(shortest) => return Ok(shortest),
        Shorter::Nothing => return Ok(walk),
        Shorter::Spent => {}
    }
    let short = shorten_there(alloc, &plain, sets, walk, looks)?;
    Ok(short)
}
