//! Different values in their order, and the place of each value there.

ghost use Rattle.std.specs.Prelude.{◌≡◌, IfOk};
ghost use Rattle.ltl_spec.specs.Collections.Lists.{HasNoRepeats};
ghost use Rattle.ltl_spec.specs.Collections.Sets.{set_of};
ghost use Rattle.ltl_automaton.specs.LabelTables.{AreRanks};

use crate::interner::Interner;
use crate::sorting::{ListOrder, sort_runs_dedup};
use std::alloc::{AllocError, Allocator};
use std::hash::Hash;

/// The values of an interner, strictly sorted.
#[derive(Drop)]
pub(crate) struct Ranked<'a, T: ListOrder, A: Allocator> {
    pub(crate) sorted: Vec<T, &'a A>,
    /// For each value, by its number in the interner, its place in `sorted`.
    pub(crate) ranks: Vec<u32, &'a A>,
}

/// The number in 32 bits. A number that needs more bits is reported as lack of memory.
pub(crate) fn narrow(number: usize) -> Result<u32, AllocError>
    ensures { IfOk result (λ n. n ≡ number) }
{
    if number > 4_294_967_295 {
        return Err(AllocError);
    }
    Ok(number as u32)
}

/// The values of an interner, sorted.
fn sorted<'a, T: ListOrder + Eq + Hash, A: Allocator>(
    alloc: &'a A,
    values: &Interner<'_, T, A>,
) -> Result<Vec<T, &'a A>, AllocError>
    ensures { IfOk result (λ v. v.items ≡ set_of T.order values.now.keys) }
{
    let mut sorted = Vec::from_slice(alloc, values.as_slice())?;
    sort_runs_dedup(&mut sorted)?;
    Ok(sorted)
}

/// For each value of the interner its place among the sorted ones.
fn ranks<'a, T: ListOrder + Eq + Hash, A: Allocator>(
    alloc: &'a A,
    values: &Interner<'_, T, A>,
    sorted: &[T],
) -> Result<Vec<u32, &'a A>, AllocError>
    requires once { HasNoRepeats values.now.keys }
    requires sorted { sorted.now ≡ set_of T.order values.now.keys }
    ensures { IfOk result (λ v. AreRanks values.now.keys sorted.now v.items) }
{
    let mut ranks: Vec<u32, &'a A> = Vec::new(alloc);
    ranks.resize(values.len(), 0)?;
    for place in 0..sorted.len() {
        if let Some(number) = values.place(&sorted[place]) {
            ranks[number] = narrow(place)?;
        }
    }
    Ok(ranks)
}

impl<'a, T: ListOrder + Eq + Hash, A: Allocator> Ranked<'a, T, A> {
    /// The values of an interner in their order, and their places.
    pub(crate) fn of(alloc: &'a A, values: &Interner<'_, T, A>) -> Result<Self, AllocError>
        requires { HasNoRepeats values.now.keys }
        ensures sorted { IfOk result (λ r. r.sorted.items ≡ set_of T.order values.now.keys) }
        ensures ranks { IfOk result (λ r. AreRanks values.now.keys r.sorted.items r.ranks.items) }
    {
        let sorted = sorted(alloc, values)?;
        let ranks = ranks(alloc, values, sorted.as_slice())?;
        Ok(Ranked { sorted, ranks })
    }
}
