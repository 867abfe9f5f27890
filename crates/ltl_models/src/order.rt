//! Edges by target: keys that are sorted as numbers.

ghost use Rattle.std.specs.Prelude.{◌≡◌, ◌+◌, ◌*◌, ◌%◌, ◌<◌, map, IfOk, OnOk};

use smallvec::SmallVec;
use std::alloc::{AllocError, Allocator};

/// Positions in an edge list. Up to 4 are stored without an allocation, since most states have few edges.
pub type Places<'a, A> = SmallVec<usize, 4, &'a A>;

/// 2^32, so above every state and every position in an edge list.
pub const PLACES: usize = 4_294_967_296;

/// A target and a position as one number. If one of them needs more than 32 bits, this is reported as lack of memory.
pub fn key(target: usize, place: usize) -> Result<u64, AllocError>
    ensures key { IfOk result (λ k. k ≡ target * PLACES + place) }
    ensures small { OnOk result (place < PLACES) }
{
    if target >= PLACES || place >= PLACES {
        return Err(AllocError);
    }
    Ok((target * PLACES + place) as u64)
}

/// The positions, which are the keys without the targets.
pub fn places<'a, A: Allocator>(alloc: &'a A, keys: &[u64]) -> Result<Places<'a, A>, AllocError>
    ensures { IfOk result (λ ps. ps.items ≡ map (λ k. k % PLACES) keys.now) }
{
    let mut places: Places<'a, A> = SmallVec::with_capacity(alloc, keys.len())?;
    for key in keys {
        places.push(*key as usize % PLACES)?;
    }
    Ok(places)
}
