//! Partitions whose classes are merged: the smaller one of two classes is renamed.

ghost use Rattle.std.specs.Prelude.{◌≡◌, ℕ, ◌<◌, length, All, IfOk, OnOk};
ghost use Rattle.ltl_passes.specs.Worklist.{AreInside, AreWithin, LeadsInside, LeadsWithin};

use crate::partition::own_names;
use std::alloc::{AllocError, Allocator};

/// A partition of states. The name of a class is one of its states. `links` leads from a state to another one of its class, in a ring through the whole class.
#[derive(Drop)]
pub(crate) struct Classes<'a, A: Allocator> {
    pub(crate) names: Vec<usize, &'a A>,
    pub(crate) links: Vec<usize, &'a A>,
}

/// The links of a partition with these names.
fn rings<'a, A: Allocator>(alloc: &'a A, names: &[usize]) -> Result<Vec<usize, &'a A>, AllocError>
    requires { LeadsInside (length names.now) names.now }
    ensures { IfOk result (λ v. (coarse : ℕ → ℕ) → LeadsWithin coarse (length names.now) names.now → LeadsWithin coarse (length names.now) v.items) }
{
    let mut links = own_names(alloc, names.len())?;
    for state in 0..names.len() {
        links.swap(state, names[state]);
    }
    Ok(links)
}

/// Whether the ring of the first state is no longer than that of the other one. Both are followed until one of them is closed.
fn is_shorter(links: &[usize], first: usize, other: usize) -> bool
    requires links { LeadsInside (length links.now) links.now }
    requires first { first < length links.now }
    requires other { other < length links.now }
{
    let mut from_first = links[first];
    let mut from_other = links[other];
    'links: for _ in 0..links.len() {
        if from_first == first {
            return true;
        }
        if from_other == other {
            return false;
        }
        from_first = links[from_first];
        from_other = links[from_other];
    }
    true
}

/// Gives the states of the ring of `state` this name, and returns them.
fn rename<'a, A: Allocator>(
    alloc: &'a A,
    names: &mut [usize],
    links: &[usize],
    state: usize,
    name: usize,
) -> Result<Vec<usize, &'a A>, AllocError>
    requires links { LeadsInside (length names.old) links.now }
    requires state { state < length names.old }
    requires name { name < length names.old }
    ensures renamed { IfOk result (λ v. All (λ s. s < length names.old) v.items) }
    ensures within { OnOk result ((coarse : ℕ → ℕ) → LeadsWithin coarse (length names.old) links.now → coarse state ≡ coarse name
        → LeadsWithin coarse (length names.old) names.old → LeadsWithin coarse (length names.old) names.new) }
{
    let mut renamed = Vec::new(alloc);
    let mut member = state;
    'members: for _ in 0..links.len() {
        names[member] = name;
        renamed.push(member)?;
        member = links[member];
        if member == state {
            return Ok(renamed);
        }
    }
    Ok(renamed)
}

impl<'a, A: Allocator> Classes<'a, A> {
    /// The partition with these names, each of which names itself.
    pub(crate) fn of(alloc: &'a A, names: &[usize]) -> Result<Self, AllocError>
        requires { LeadsInside (length names.now) names.now }
        ensures names { IfOk result (λ c. c.names.items ≡ names.now) }
        ensures links { IfOk result (λ c. (coarse : ℕ → ℕ) → LeadsWithin coarse (length names.now) names.now
            → LeadsWithin coarse (length names.now) c.links.items) }
    {
        let links = rings(alloc, names)?;
        let mut own = Vec::new(alloc);
        own.extend_from_slice(names)?;
        Ok(Classes { names: own, links })
    }

    /// Renames the states of one class to another class, and returns them.
    fn join(
        &mut self,
        alloc: &'a A,
        from: usize,
        to: usize,
    ) -> Result<Vec<usize, &'a A>, AllocError>
        requires inside { AreInside self.old.names.items self.old.links.items }
        requires from { from < length self.old.names.items }
        requires to { to < length self.old.names.items }
        ensures renamed { IfOk result (λ v. All (λ s. s < length self.old.names.items) v.items) }
        ensures long { OnOk result (length self.new.names.items ≡ length self.old.names.items) }
        ensures within { OnOk result ((coarse : ℕ → ℕ) → coarse from ≡ coarse to
            → AreWithin coarse self.old.names.items self.old.links.items → AreWithin coarse self.new.names.items self.new.links.items) }
    {
        let links = self.links.as_slice();
        let renamed = rename(alloc, self.names.as_mut_slice(), links, from, to)?;
        self.links.swap(from, to);
        Ok(renamed)
    }

    /// Merges the classes of two states, and returns the states that have another name now.
    pub(crate) fn merge(
        &mut self,
        alloc: &'a A,
        first: usize,
        other: usize,
    ) -> Result<Vec<usize, &'a A>, AllocError>
        requires inside { AreInside self.old.names.items self.old.links.items }
        requires first { first < length self.old.names.items }
        requires other { other < length self.old.names.items }
        ensures renamed { IfOk result (λ v. All (λ s. s < length self.old.names.items) v.items) }
        ensures long { OnOk result (length self.new.names.items ≡ length self.old.names.items) }
        ensures within { OnOk result ((coarse : ℕ → ℕ) → coarse first ≡ coarse other
            → AreWithin coarse self.old.names.items self.old.links.items → AreWithin coarse self.new.names.items self.new.links.items) }
    {
        let first_name = self.names[first];
        let other_name = self.names[other];
        if first_name == other_name {
            return Ok(Vec::new(alloc));
        }
        if is_shorter(self.links.as_slice(), first_name, other_name) {
            return self.join(alloc, first_name, other_name);
        }
        self.join(alloc, other_name, first_name)
    }
}
