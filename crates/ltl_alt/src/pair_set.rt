//! Sets of pairs as sorted lists.

ghost use Rattle.std.specs.Prelude.{◌≡◌, ◌<◌, length, IfOk};
ghost use Rattle.ltl_alt.specs.RowLists.{row_pairs};

use crate::context::Context;
use crate::fulfilment::Fulfilment;
use crate::pair::Pair;
use crate::program::Program;
use crate::rule::{Pruning, Rule};
use crate::step_lists::StepLists;
use ltl_formula::Table;
use std::alloc::{AllocError, Allocator};
use std::hash::{Hash, Hasher};
use std::marker::Model;

/// A set of pairs, sorted by literals and then by targets. It has no duplicates.
#[derive(Drop)]
pub struct PairSet<'a, A: Allocator> {
    pub(crate) pairs: Vec<Pair, &'a A>,
}

impl<'a, A: Allocator> Model for PairSet<'a, A> {
    ghost use Rattle.std.specs.Prelude.{List};
    ghost use Rattle.std.specs.Coded.{coded_list};
    ghost use Rattle.ltl_spec.specs.Transitions.Pairs as spec;
    ghost use Rattle.ltl_alt.specs.Codes.{pair_code};

    ghost Value = { List spec.Pair };

    ghost coded = { coded_list pair_code };

    ghost view = { λ s. s.pairs.items };
}

impl<'a, A: Allocator> PartialEq for PairSet<'a, A> {
    ghost use Rattle.std.specs.Cmp.{partial_equiv_from_equiv};
    ghost use Rattle.ltl_alt.specs.ListHash.{same_pairs, same_pairs_equiv};

    ghost eq = { same_pairs };

    ghost laws = { partial_equiv_from_equiv same_pairs_equiv };

    fn eq(&self, other: &PairSet<'a, A>) -> bool {
        self.pairs == other.pairs
    }
}

impl<'a, A: Allocator> Eq for PairSet<'a, A> {
    ghost use Rattle.ltl_alt.specs.ListHash.{same_pairs_equiv};

    ghost laws = { same_pairs_equiv };
}

impl<'a, A: Allocator> Hash for PairSet<'a, A> {
    ghost use Rattle.ltl_alt.specs.ListHash.{hash_of_pairs, hash_of_same_pairs};

    ghost hash_input = { hash_of_pairs };

    ghost respects_eq = { hash_of_same_pairs };

    fn hash<H: Hasher>(&self, state: &mut H) {
        self.pairs.hash(state);
    }
}

impl<'a, A: Allocator> PairSet<'a, A> {
    /// The pairs in their order.
    pub fn as_slice(&self) -> &[Pair]
        ensures { result.now ≡ self.now }
    {
        self.pairs.as_slice()
    }
}

/// All pairs of a row, none of them pruned. Their targets are places among the elementary rows.
pub fn pairs<'a, A: Allocator>(
    alloc: &'a A,
    table: &Table<'_, A>,
    row: usize,
) -> Result<PairSet<'a, A>, AllocError>
    requires { row < length table.now.rows }
    ensures { IfOk result (λ s. s ≡ row_pairs table.now row) }
{
    let program = Program::of(alloc, table)?;
    let none = Fulfilment::nothing(alloc);
    let context = Context {
        alloc,
        table,
        program: &program,
        pruning: Pruning {
            rule: Rule::Duplicate,
            fulfilment: &none,
        },
    };
    let step = program.pair_step(row);
    let mut lists = StepLists::new(alloc, &program)?;
    lists.prepare(&context, step)?;
    let pairs = Vec::from_slice(alloc, lists.pairs(step))?;
    Ok(PairSet { pairs })
}
