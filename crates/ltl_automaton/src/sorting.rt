//! Lists as sets: sorted by a linear order, without duplicates.

ghost use Rattle.std.specs.Prelude.{◌≡◌, true, OnOk};
ghost use Rattle.std.specs.Bool.{Decides};
ghost use Rattle.std.specs.declared.cmp.Ordering.{Ordering};
ghost use Rattle.ltl_spec.specs.Collections.Sets.{set_of, IsLinearOrder, IsRising};

use ltl_sets::{Cube, RowSet};
use std::alloc::{AllocError, Allocator};
use std::cmp::Ordering;

/// Values with a linear order: only equal values compare as `Equal`.
pub trait ListOrder: Copy + PartialEq + Drop {
    ghost order: { Self → Self → Ordering };

    /// Compares two values by that order.
    fn cmp_list(&self, other: &Self) -> Ordering
        ensures { result ≡ order self.now other.now };

    ghost linear: { IsLinearOrder order };

    ghost decides: { (x y : Self) → Decides (Self.eq x y) (x ≡ y) };
}

impl ListOrder for Cube {
    ghost use Rattle.ltl_spec.specs.Transitions.Cubes.{cube_cmp};
    ghost use Rattle.ltl_spec.proofs.Collections.Orders.{cube_linear};
    ghost use Rattle.ltl_sets.specs.CubeEq.{cube_Decides};

    ghost order = { cube_cmp };

    #[inline(always)]
    fn cmp_list(&self, other: &Cube) -> Ordering {
        self.cmp_list(other)
    }

    ghost linear = { cube_linear };

    ghost decides = { cube_Decides };
}

impl ListOrder for RowSet {
    ghost use Rattle.std.specs.Ordering.{nat_cmp};
    ghost use Rattle.std.specs.Cmp.Lexicographic.{slice_cmp, bytes_decides};
    ghost use Rattle.ltl_spec.proofs.Collections.Orders.{row_set_linear};

    ghost order = { slice_cmp nat_cmp };

    #[inline(always)]
    fn cmp_list(&self, other: &RowSet) -> Ordering {
        self.cmp_list(other)
    }

    ghost linear = { row_set_linear };

    ghost decides = { bytes_decides };
}

/// Whether each item is less than the next one.
fn is_rising<T: ListOrder>(items: &[T]) -> bool
    ensures { result ≡ true → IsRising T.order items.now }
{
    items.is_sorted_by(|x, y| x.cmp_list(y).is_lt())
}

/// Sorts the items by `cmp_list`, and removes duplicates. Items that are in order already are only compared.
pub fn sort_dedup<T: ListOrder, A: Allocator>(items: &mut Vec<T, &A>)
    ensures { items.new.items ≡ set_of T.order items.old.items }
{
    if is_rising(items.as_slice()) {
        return;
    }
    items.sort_unstable_by(|x, y| x.cmp_list(y));
    items.dedup();
}

/// The same for items that have long sorted runs. The sort finds them and merges them, and takes memory.
pub fn sort_runs_dedup<T: ListOrder, A: Allocator>(items: &mut Vec<T, &A>) -> Result<(), AllocError>
    ensures { OnOk result (items.new.items ≡ set_of T.order items.old.items) }
{
    items.sort_by(|x, y| x.cmp_list(y))?;
    items.dedup();
    Ok(())
}
