//! Edges whose targets have no number yet.

ghost use Rattle.std.specs.Prelude.{◌≡◌};
ghost use Rattle.ltl_automaton.specs.Net.{Move, edge_to};

use crate::edge::EdgeType;
use crate::worklist::Key;

/// An outgoing edge that `Successors` lends. Its target is a key, which `explore_from` replaces by the number of a state.
pub trait Step<K: Key, E: EdgeType> {
    ghost move_of: { Self → Move K };

    /// The key of the target.
    fn key(&self) -> K
        ensures { result ≡ (move_of self.now).key };

    /// The edge to the state with this number.
    fn edge_to(&self, target: usize) -> E
        ensures { E.edge_of result ≡ edge_to (move_of self.now) target };
}
