//! Small sets of acceptance sets.

ghost use Rattle.std.specs.Prelude.{◌≡◌, ◌<◌, []};
ghost use Rattle.std.specs.Ordering.{nat_cmp};
ghost use Rattle.ltl_spec.specs.Collections.Sets as sets;

use crate::marked::MOST_SETS;
use ltl_sets::RowSet;
use std::fmt;
use std::marker::Model;

/// The acceptance sets that an edge belongs to. Their numbers are below [`MOST_SETS`]. Contracts see the sorted list of these numbers. A value takes
/// 4 bytes, an eighth of a `RowSet`, since every edge of an automaton has one.
#[derive(Clone, Copy)]
pub struct Marks {
    bits: u32,
}

impl Model for Marks {
    ghost use Rattle.std.specs.Prelude.{ℕ, ◌<◌, ◌^◌, List};
    ghost use Rattle.std.specs.Coded.{coded_ℕ, coded_list};

    ghost Value = { List ℕ };

    ghost coded = { coded_list coded_ℕ };

    ghost use Rattle.ltl_hoa.specs.MarksView.{marks_of, bits_with};

    ghost view = { λ m. marks_of m.bits };

    ghost invariant = { λ m. m.bits < 2 ^ 32 };

    ghost inverse = { λ is. record { bits = bits_with is } };

    ghost use Rattle.ltl_hoa.specs.MarksAgain.{marks_again};

    ghost inverse_ok = { marks_again };
}

impl Marks {
    /// The empty set.
    pub(crate) fn empty() -> Marks
        ensures { result ≡ [] }
    {
        Marks { bits: 0 }
    }

    /// Adds the set with this number.
    pub(crate) fn insert(&mut self, i: usize)
        requires { i < MOST_SETS }
        ensures { self.new ≡ sets.put nat_cmp i self.old }
    {
        self.bits = self.bits | 1 << i;
    }

    /// The same numbers as a `RowSet`, which has the usual operations.
    pub fn to_row_set(&self) -> RowSet
        ensures { result ≡ self.now }
    {
        let mut numbers = RowSet::empty();
        let mut left = self.bits as u64;
        'sets: while left != 0 {
            let lowest = left.trailing_zeros();
            numbers.insert(lowest as usize);
            left = left & !(1 << lowest);
        }
        numbers
    }
}

impl PartialEq for Marks {
    ghost use Rattle.std.specs.Prelude.{nat_eq};
    ghost use Rattle.std.specs.Cmp.Lexicographic.{pointwise};
    ghost use Rattle.std.proofs.Common.{rules};

    ghost eq = { pointwise nat_eq };

    ghost laws = { Prim.search rules };

    fn eq(&self, other: &Marks) -> bool {
        self.bits == other.bits
    }
}

impl Eq for Marks {
    ghost use Rattle.std.proofs.Common.{rules};

    ghost laws = { Prim.search rules };
}

impl fmt::Debug for Marks {
    fn fmt<W: fmt::Write>(&self, f: &mut fmt::Formatter<W>) -> fmt::Result {
        self.to_row_set().fmt(f)
    }
}
