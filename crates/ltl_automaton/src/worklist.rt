//! The worklist of a breadth-first construction.

ghost use Rattle.std.specs.Prelude.{◌≡◌, ◌<◌, ◌+◌, ◌∷◌, [], length, slice_get, Some, true, if◌then◌else◌, is_some, IfOk, OnOk};
ghost use Rattle.std.specs.List.{position};
ghost use Rattle.ltl_spec.specs.Collections.Lists.{with_new, place_of};

use crate::interner::Interner;
use std::alloc::{AllocError, Allocator};
use std::hash::Hash;
use std::marker::Model;

/// The keys of states. Equal keys are the same value.
pub trait Key: Copy + Eq + Hash + Drop {
    ghost exact: { (x y : Self) → Self.eq x y ≡ true → x ≡ y };
}

/// A worklist that keeps what was taken: different keys, numbered in the order in which they came. The first `explored` of them were taken.
#[derive(Drop)]
pub struct Worklist<'a, K: Key, A: Allocator> {
    keys: Interner<'a, K, A>,
    explored: usize,
}

impl<'a, K: Key, A: Allocator> Model for Worklist<'a, K, A> {
    ghost use Rattle.std.specs.Prelude.{List, ◌≤◌, length};
    ghost use Rattle.ltl_automaton.specs.WorklistView.{WorklistView};

    ghost Value = { WorklistView K };

    ghost view = { λ l. record { keys = l.keys.keys; explored = l.explored } };

    ghost invariant = { λ l. l.explored ≤ length l.keys.keys };
}

impl<'a, K: Key, A: Allocator> Worklist<'a, K, A> {
    /// A listing of no keys.
    pub fn new(alloc: &'a A) -> Self
        ensures { result ≡ record { keys = []; explored = 0 } }
    {
        Worklist {
            keys: Interner::new(alloc),
            explored: 0,
        }
    }

    /// The number of keys, taken or not.
    pub fn len(&self) -> usize
        ensures { result ≡ length self.now.keys }
    {
        self.keys.len()
    }

    /// The number of keys that were taken.
    pub(crate) fn explored(&self) -> usize
        ensures { result ≡ self.now.explored }
    {
        self.explored
    }

    /// The key with this number.
    pub(crate) fn key(&self, place: usize) -> &K
        requires { place < length self.now.keys }
        ensures { slice_get self.now.keys place ≡ Some result.now }
    {
        self.keys.get(place)
    }

    /// Takes the first key that wasn't taken; `None` if every key was.
    pub fn next(&mut self) -> Option<K>
        ensures next { result ≡ slice_get self.old.keys self.old.explored }
        ensures keys { self.new.keys ≡ self.old.keys }
        ensures explored { self.new.explored ≡ (if is_some result then self.old.explored + 1 else self.old.explored) }
    {
        if self.explored < self.keys.len() {
            let key = *self.keys.get(self.explored);
            self.explored += 1;
            Some(key)
        } else {
            None
        }
    }

    /// Makes room for `count` more keys if there are fewer so far.
    pub(crate) fn make_room(&mut self, count: usize) -> Result<(), AllocError>
        ensures { self.new ≡ self.old }
    {
        self.keys.make_room(count)
    }

    /// The number of a key, if it is listed.
    pub fn place(&self, key: K) -> Option<usize>
        ensures { result ≡ position (K.eq key) self.now.keys }
    {
        self.keys.place(&key)
    }

    /// The number of a key. A key that isn't listed is appended.
    #[inline(always)]
    pub fn number(&mut self, key: K) -> Result<usize, AllocError>
        ensures keys { OnOk result (self.new.keys ≡ with_new K.eq self.old.keys key) }
        ensures number { IfOk result (λ i. i ≡ place_of K.eq key self.new.keys) }
        ensures explored { self.new.explored ≡ self.old.explored }
    {
        self.keys.number(key)
    }
}
