//! The lower bound on the edges still to come, by which `explore_from` finds early that the limit on edges will be passed.

ghost use Rattle.std.specs.Prelude.{◌≡◌, ◌<◌, ◌≤◌, ◌+◌, true, length, IfOk, OnOk};
ghost use Rattle.ltl_automaton.specs.Net.{edges_behind};

use crate::edge::EdgeType;
use crate::step::Step;
use crate::successors::Successors;
use crate::worklist::{Key, Worklist};
use std::alloc::{AllocError, Allocator};

/// The bound is computed only while at least this many states wait in the worklist.
const MANY: usize = 1024;

/// The bound is computed only if the explored states have at least this many edges on average: the average at which the limits of 65,536 states and
/// 1,048,576 edges are reached together.
const DENSE: usize = 16;

/// The bound is computed only if the number of edges is at least this multiple of the number of waiting states and of the number of edges at the last
/// computation. So its cost stays below that of the exploration.
const SELDOM: usize = 4;

/// Whether the bound is worth computing now. `count` is the number of edges so far, and `looked` their number when the bound was last computed.
fn is_time<'a, K: Key, A: Allocator>(
    listing: &Worklist<'a, K, A>,
    looked: usize,
    count: usize,
) -> bool {
    let explored = listing.explored();
    let waiting = listing.len().saturating_sub(explored);
    waiting >= MANY && count / DENSE >= explored && count / SELDOM >= waiting.max(looked)
}

/// Whether `count`, together with the lower bounds of `edges_at_least` for the waiting states, is more than `most`.
fn are_more_behind<'a, K: Key, E: EdgeType, T: Step<K, E>, S: Successors<K, E, T>, A: Allocator>(
    net: &mut S,
    listing: &Worklist<'a, K, A>,
    count: usize,
    most: usize,
) -> Result<bool, AllocError>
    requires ready { S.ready net.old }
    requires few { count ≤ most }
    ensures more { IfOk result (λ b. b ≡ true → most < count + edges_behind (S.net net.old) listing.now.keys listing.now.explored) }
    ensures same { OnOk result (S.net net.new ≡ S.net net.old) }
    ensures ready { OnOk result (S.ready net.new) }
{
    let mut sum = count;
    let mut place = listing.explored();
    'things: while place < listing.len() {
        let more = net.edges_at_least(listing.key(place))?;
        if more > most - sum {
            return Ok(true);
        }
        sum += more;
        place += 1;
    }
    Ok(false)
}

/// Whether more than `most` edges are certain. The answer is `false` without a computation where this wouldn't be worth it. `looked` is the number of
/// edges at the last computation, and is updated.
pub(crate) fn are_too_many_ahead<
    'a,
    K: Key,
    E: EdgeType,
    T: Step<K, E>,
    S: Successors<K, E, T>,
    A: Allocator,
>(
    net: &mut S,
    listing: &Worklist<'a, K, A>,
    looked: &mut usize,
    count: usize,
    most: usize,
) -> Result<bool, AllocError>
    requires ready { S.ready net.old }
    requires few { count ≤ most }
    ensures more { IfOk result (λ b. b ≡ true → most < count + edges_behind (S.net net.old) listing.now.keys listing.now.explored) }
    ensures same { OnOk result (S.net net.new ≡ S.net net.old) }
    ensures ready { OnOk result (S.ready net.new) }
{
    if !is_time(listing, *looked, count) {
        return Ok(false);
    }
    *looked = count;
    are_more_behind(net, listing, count, most)
}
