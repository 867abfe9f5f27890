//! The transition function of an automaton that is constructed on the fly.

ghost use Rattle.std.specs.Prelude.{◌≡◌, ◌<◌, ◌≤◌, List, length, map, IfOk, IfSome, OnOk, IsErrOf};
ghost use Rattle.ltl_automaton.specs.Net.{Move, Net};

use crate::edge::EdgeType;
use crate::fault::AutomatonFault;
use crate::step::Step;
use crate::worklist::Key;
use std::alloc::AllocError;

/// An automaton by its transition function: keys stand for states.
pub trait Successors<K: Key, E: EdgeType, T: Step<K, E>> {
    ghost net: { Self → Net K };

    // the invariant of what is remembered between two calls
    ghost ready: { Self → Type 0 };

    // the edges that `steps` lends
    ghost lent: { Self → List (Move K) };

    /// Whether the state of a key is accepting.
    fn accepting(&self, key: &K) -> bool
        ensures { result ≡ (net self.now).accepts key.now };

    /// A key that has the same edges, if one is known. `None` says nothing.
    fn same_successors_as(&mut self, key: &K) -> Result<Option<K>, AllocError>
        requires { ready self.old }
        ensures same_successors_as { IfOk result (λ t. IfSome t (λ k. (net self.old).successors k ≡ (net self.old).successors key.now)) }
        ensures same { OnOk result (net self.new ≡ net self.old) }
        ensures ready { OnOk result (ready self.new) };

    /// A lower bound on the number of a state's edges, which is found without making them. It is 0 if nothing is known.
    fn edges_at_least(&mut self, key: &K) -> Result<usize, AllocError>
        requires { ready self.old }
        ensures least { IfOk result (λ n. n ≤ length ((net self.old).successors key.now)) }
        ensures same { OnOk result (net self.new ≡ net self.old) }
        ensures ready { OnOk result (ready self.new) };

    /// Finds the outgoing edges of a state, which `steps` lends until the next call. If there are more than `most`, the result may be `TooLarge`; it
    /// needn't be.
    fn prepare(&mut self, key: &K, most: usize) -> Result<(), AutomatonFault>
        requires { ready self.old }
        ensures lent { OnOk result (lent self.new ≡ (net self.old).successors key.now) }
        ensures large { IsErrOf result AutomatonFault.TooLarge → most < length ((net self.old).successors key.now) }
        ensures same { OnOk result (net self.new ≡ net self.old) }
        ensures ready { OnOk result (ready self.new) };

    /// The edges of the last call of `prepare`.
    fn steps(&self) -> &[T]
        ensures { map T.move_of result.now ≡ lent self.now };
}
