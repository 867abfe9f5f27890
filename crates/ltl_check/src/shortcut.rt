//! The lasso that isn't longer than a given one, for want of a shortest one.

ghost use Rattle.std.specs.Prelude.{◌≡◌, ℕ, ◌+◌, ◌<◌, ◌≤◌, ◌^◌, ◌⊎◌, length, Some, IfOk, IfSome};
ghost use Rattle.ltl_check.specs.Breadth.{IsPaid};
ghost use Rattle.ltl_check.specs.Levels.{IsFullWalk};
ghost use Rattle.ltl_check.specs.Looks.{LooksAtMost};
ghost use Rattle.ltl_check.specs.Shortened.{IsShortenedThere, edges_of};

use crate::breadth::Task;
use crate::net::Numbered;
use crate::path::follow;
use crate::place::{Bases, holds_all};
use crate::plan::{Known, Plan};
use crate::shortest::{ONE_BASE_LIMIT, Shorter, find_shorter};
use crate::walk::Walk;
use std::alloc::{AllocError, Allocator};

/// The number of looks that may be made to plan a lasso that keeps edges of the given one.
pub(crate) const PLANNING_LIMIT: usize = 196_608;

/// The lasso along the planned edges, if there is such a lasso.
#[tactic(auto, using(crate::proofs::ShortestLaws::paid_then, crate::proofs::PathLaws::paid_none))]
fn planned<'a, N: Numbered, A: Allocator>(
    alloc: &'a A,
    net: &N,
    sets: usize,
    plan: &Plan<'_, A>,
    left: &mut usize,
    looks: &mut N::Looks,
) -> Result<Option<Walk<'a, A>>, AllocError>
    ensures found { IfOk result (λ r. IfSome r (λ w. IsFullWalk (N.net net.now) sets w.stem.items w.cycle.items)) }
    ensures paid { IsPaid (N.looked_of looks.old) (N.looked_of looks.new) left.old left.new }
{
    let Some(stem) = follow(alloc, net, net.start(), plan.stem.as_slice(), left, looks)? else {
        return Ok(None);
    };
    let Some(cycle) = follow(alloc, net, stem.end, plan.cycle.as_slice(), left, looks)? else {
        return Ok(None);
    };
    if cycle.end != stem.end || cycle.steps.len() == 0 || !holds_all(&cycle.marks, sets) {
        return Ok(None);
    }
    Ok(Some(Walk {
        stem: stem.steps,
        cycle: cycle.steps,
    }))
}

/// The second lasso, if there is one and it has fewer edges, or else the first one.
fn shorter_walk<'a, A: Allocator>(first: Walk<'a, A>, second: Option<Walk<'a, A>>) -> Walk<'a, A>
    ensures one { (result ≡ first.entry) ⊎ (second.entry ≡ Some result) }
    ensures few { edges_of result ≤ edges_of first.entry }
{
    match second {
        Some(walk) => {
            if walk.stem.len() + walk.cycle.len() < first.stem.len() + first.cycle.len() {
                walk
            } else {
                first
            }
        }
        None => first,
    }
}

/// A lasso that isn't longer than the given one. Unless all looks are used up, it is a shortest one of those whose cycle begins where that of the given one
/// does, or it is shorter than all of these.
pub(crate) fn shorten_there<'a, N: Numbered, A: Allocator>(
    alloc: &'a A,
    net: &N,
    sets: usize,
    walk: Walk<'a, A>,
    looks: &mut N::Looks,
) -> Result<Walk<'a, A>, AllocError>
    requires full { IsFullWalk (N.net net.now) sets walk.stem.items walk.cycle.items }
    requires few { (N.net net.now).count < 2 ^ 63 }
    ensures lasso { IfOk result (λ w. IsShortenedThere (N.net net.now) sets walk.entry w ONE_BASE_LIMIT (N.looked_of looks.old) (N.looked_of looks.new)) }
    ensures most { LooksAtMost (N.looked_of looks.old) (N.looked_of looks.new) ONE_BASE_LIMIT }
{
    let one = Task {
        sets,
        bases: Bases::One(walk.cycle[0].state),
    };
    let known = Known {
        stem: walk.stem.as_slice(),
        cycle: walk.cycle.as_slice(),
        sets,
    };
    let mut planning = PLANNING_LIMIT;
    let plan = known.plan(alloc, net, &mut planning, looks)?;
    let mut left = ONE_BASE_LIMIT - PLANNING_LIMIT + planning;
    let found = planned(alloc, net, sets, &plan, &mut left, looks)?;
    let short = shorter_walk(walk, found);
    let limit = short.stem.len() + short.cycle.len();
    match find_shorter(alloc, net, one, limit, left, looks)? {
        Shorter::Found(shorter) => Ok(shorter),
        _ => Ok(short),
    }
}
