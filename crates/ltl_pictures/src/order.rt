//! The order of a state's edges by target.

ghost use Rattle.std.specs.Prelude.{map, IfOk};
ghost use Rattle.ltl_models.specs.BaView.{IsTargetOrder};
ghost use Rattle.ltl_hoa.specs.MarkedView.{edge_of};
ghost use Rattle.ltl_pictures.specs.Picked.{AreOrders};

use ltl_hoa::{Marked, MarkedEdge};
use ltl_models::order::{Places, key, places};
use smallvec::SmallVec;
use std::alloc::{AllocError, Allocator};

/// The indices of the edges, sorted by target and then by index. The sort key is one number made of both.
fn places_by_target<'a, A: Allocator>(
    alloc: &'a A,
    edges: &[MarkedEdge],
) -> Result<Places<'a, A>, AllocError>
    ensures order { IfOk result (λ ps. IsTargetOrder (map edge_of edges.now) ps.items) }
{
    let mut keys: SmallVec<u64, 4, &'a A> = SmallVec::with_capacity(alloc, edges.len())?;
    for (place, edge) in edges.iter().enumerate() {
        keys.push(key(edge.target, place)?)?;
    }
    keys.as_mut_slice().sort_unstable();
    let places = places(alloc, keys.as_slice())?;
    Ok(places)
}

/// For each state the order of its edges.
pub(crate) fn orders<'a, A: Allocator>(
    alloc: &'a A,
    automaton: &Marked<'_, A>,
) -> Result<Vec<Places<'a, A>, &'a A>, AllocError>
    ensures { IfOk result (λ v. AreOrders automaton.now (map (λ p. p.items) v.items)) }
{
    let mut orders = Vec::new(alloc);
    for k in 0..automaton.len() {
        orders.push(places_by_target(alloc, automaton.edges(k))?)?;
    }
    Ok(orders)
}
