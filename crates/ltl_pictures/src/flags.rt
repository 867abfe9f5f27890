//! Flags that say which edges a run takes.

ghost use Rattle.std.specs.Prelude.{◌≡◌, ℕ, ◌<◌, true, false, length, All, IfOk, slice_index_or, slice_set};
ghost use Rattle.std.specs.List.{list_any};
ghost use Rattle.ltl_pictures.specs.Picked.{AreFlags, IsPick};
ghost use Rattle.ltl_pictures.specs.RunText.{is_picked};

use crate::pick::Pick;
use ltl_hoa::Marked;
use std::alloc::{AllocError, Allocator};
use std::marker::Model;

/// A flag for each edge of a state.
#[derive(Drop)]
pub(crate) struct Flags<'a, A: Allocator> {
    flags: Vec<bool, &'a A>,
}

impl<'a, A: Allocator> Model for Flags<'a, A> {
    ghost use Rattle.std.specs.Prelude.{Bool, List};

    ghost Value = { List Bool };

    ghost view = { λ f. f.flags.items };
}

impl<'a, A: Allocator> Flags<'a, A> {
    /// A list of `count` flags, none of them set.
    fn new(alloc: &'a A, count: usize) -> Result<Flags<'a, A>, AllocError>
        ensures long { IfOk result (λ fs. length fs ≡ count) }
        ensures none { IfOk result (λ fs. (p : ℕ) → slice_index_or fs p false ≡ false) }
    {
        let flags = vec![in alloc; false; count]?;
        Ok(Flags { flags })
    }

    /// Sets the flag of an edge.
    fn set(&mut self, place: usize)
        requires { place < length self.old }
        ensures { self.new ≡ slice_set self.old place true }
    {
        self.flags[place] = true;
    }

    /// The flags by the indices of the edges.
    pub(crate) fn as_slice(&self) -> &[bool]
        ensures { result.now ≡ self.now }
    {
        self.flags.as_slice()
    }

    /// Whether a flag is set.
    pub(crate) fn is_one_set(&self) -> bool
        ensures { result ≡ list_any (λ flag. flag) self.now }
    {
        self.flags.as_slice().iter().any(|flag| *flag)
    }
}

/// A flag for each edge of each state, none of them set.
fn all_unset<'a, A: Allocator>(
    alloc: &'a A,
    automaton: &Marked<'_, A>,
) -> Result<Vec<Flags<'a, A>, &'a A>, AllocError>
    ensures { IfOk result (λ fs. AreFlags automaton.now (λ _ _. false) fs.items) }
{
    let mut flags = Vec::new(alloc);
    for k in 0..automaton.len() {
        flags.push(Flags::new(alloc, automaton.edges(k).len())?)?;
    }
    Ok(flags)
}

/// A flag for each edge of each state. It is set if the edge is one of the picks.
pub(crate) fn set_flags<'a, A: Allocator>(
    alloc: &'a A,
    automaton: &Marked<'_, A>,
    picks: &[Pick],
) -> Result<Vec<Flags<'a, A>, &'a A>, AllocError>
    requires { All (IsPick automaton.now) picks.now }
    ensures { IfOk result (λ fs. AreFlags automaton.now (is_picked picks.now) fs.items) }
{
    let mut flags = all_unset(alloc, automaton)?;
    for i in 0..picks.len() {
        let pick = picks[i];
        flags[pick.state].set(pick.place);
    }
    Ok(flags)
}
