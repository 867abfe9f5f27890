//! `Gba::reach`: the generalized automaton of a table's formula.

ghost use Rattle.std.specs.Prelude.{IfOk, IsErrOf};
ghost use Rattle.ltl_spec.specs.Automata.Generalized.{IsGeneralized, IsTooLarge};
ghost use Rattle.ltl_spec.specs.Tools.Limits.{stated_limits};
ghost use Rattle.ltl_formula.specs.TableView.{core_of};

use crate::reach::explored;
use ltl_formula::Table;
use ltl_models::{AltFault, Gba};
use std::alloc::Allocator;

/// The construction of the automaton from a table. It is a trait because the type `Gba` belongs to `ltl_models`, which doesn't know tables.
pub trait Reach<A: Allocator> {
    /// The automaton of a table's formula. Its states are the sets of rows that are reachable from the set of the root alone, numbered breadth first. With
    /// `keep_implied`, transitions that another one implies are kept. The result is `TooLarge` if there are more than `MOST_STATES` states or `MOST_EDGES`
    /// edges.
    fn reach<'a>(
        alloc: &'a A,
        table: &Table<'_, A>,
        keep_implied: bool,
    ) -> Result<Gba<'a, A>, AltFault>
        ensures generalized { IfOk result (IsGeneralized (core_of table.now) keep_implied) }
        ensures fits { IfOk result (λ _. ¬ (IsTooLarge (core_of table.now) keep_implied stated_limits.states stated_limits.edges)) }
        ensures large { IsErrOf result AltFault.TooLarge → IsTooLarge (core_of table.now) keep_implied stated_limits.states stated_limits.edges };
}

impl<'b, A: Allocator> Reach<A> for Gba<'b, A> {
    fn reach<'a>(
        alloc: &'a A,
        table: &Table<'_, A>,
        keep_implied: bool,
    ) -> Result<Gba<'a, A>, AltFault>
        ensures generalized { IfOk result (IsGeneralized (core_of table.now) keep_implied) }
        ensures fits { IfOk result (λ _. ¬ (IsTooLarge (core_of table.now) keep_implied stated_limits.states stated_limits.edges)) }
        ensures large { IsErrOf result AltFault.TooLarge → IsTooLarge (core_of table.now) keep_implied stated_limits.states stated_limits.edges }
    {
        let built = explored(alloc, table, keep_implied)?;
        Ok(Gba::new(built.finish()?))
    }
}
