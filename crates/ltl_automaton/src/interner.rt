//! An interner: it numbers different values by first occurrence.

ghost use Rattle.std.specs.Prelude.{◌≡◌, ◌<◌, [], true, length, position, slice_get, Some, IfOk, OnOk, OnErr};
ghost use Rattle.ltl_spec.specs.Collections.Lists.{with_new, place_of};

use indexmap::IndexSet;
use std::alloc::{AllocError, Allocator};
use std::hash::{BuildHasherDefault, FoldHasher, Hash};
use std::marker::Model;

/// An interner. Equal values have one number; numbers begin at 0 and have no gaps.
#[derive(Drop)]
pub struct Interner<'a, K: Eq + Hash + Drop, A: Allocator> {
    things: IndexSet<K, BuildHasherDefault<FoldHasher>, &'a A>,
}

impl<'a, K: Eq + Hash + Drop, A: Allocator> Model for Interner<'a, K, A> {
    ghost use Rattle.ltl_automaton.specs.WorklistView.{InternerView};

    ghost Value = { InternerView K };

    ghost view = { λ d. record { keys = d.things.keys } };
}

impl<'a, K: Eq + Hash + Drop, A: Allocator> Interner<'a, K, A> {
    /// An interner without values.
    pub fn new(alloc: &'a A) -> Self
        ensures { result ≡ record { keys = [] } }
    {
        Interner {
            things: IndexSet::new(alloc),
        }
    }

    /// Makes room for `count` more values if there are fewer values so far. The table then grows once and not step by step. In the worst case half of its
    /// room isn't needed.
    pub fn make_room(&mut self, count: usize) -> Result<(), AllocError>
        ensures { self.new ≡ self.old }
    {
        if count > self.len() {
            self.things.reserve(count)?;
        }
        Ok(())
    }

    /// The number of different values.
    pub fn len(&self) -> usize
        ensures { result ≡ length self.now.keys }
    {
        self.things.len()
    }

    /// The values by their numbers.
    pub fn as_slice(&self) -> &[K]
        ensures { result.now ≡ self.now.keys }
    {
        self.things.as_slice()
    }

    /// The value with this number.
    pub fn get(&self, number: usize) -> &K
        requires { number < length self.now.keys }
        ensures { slice_get self.now.keys number ≡ Some result.now }
    {
        &self.things[number]
    }

    /// The number of a value, if it is there.
    pub fn place(&self, thing: &K) -> Option<usize>
        ensures { result ≡ position (K.eq thing.now) self.now.keys }
    {
        self.things.get_index_of(thing)
    }

    /// The number of a value. A value that isn't there is appended, and gets the next number.
    #[inline(always)]
    pub fn number(&mut self, thing: K) -> Result<usize, AllocError>
        ensures keys { OnOk result (self.new.keys ≡ with_new K.eq self.old.keys thing) }
        ensures index { IfOk result (λ i. i ≡ place_of K.eq thing self.old.keys) }
        ensures stored { IfOk result (λ i. (k : K) × (slice_get self.new.keys i ≡ Some k) × (K.eq thing k ≡ true)) }
        ensures same { OnErr result (self.new ≡ self.old) }
    {
        let (number, _) = self.things.insert_full(thing)?;
        Ok(number)
    }
}
