//! The errors of a translation to a Büchi automaton, which are those of every construction.

pub use ltl_automaton::AutomatonFault as BaFault;
