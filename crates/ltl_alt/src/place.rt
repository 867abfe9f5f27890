//! Lookup of elementary rows and until rows in a table.

ghost use Rattle.ltl_alt.specs.RowLists.{row_place};
ghost use Rattle.ltl_spec.specs.Tools.Limits.{stated_limits};
ghost use Rattle.ltl_formula.specs.TableView.{row_tree};
ghost use Rattle.ltl_spec.specs.Collections.Sets.{Has};
ghost use Rattle.ltl_spec.specs.Collections.Sets.{put};
ghost use Rattle.std.specs.Ordering.{nat_cmp};
ghost use Rattle.std.specs.Prelude.{position, ℕ, ◌==◌, ◌≡◌, ◌≤◌, ◌<◌, [], length, slice_get, Some, MatchOption, if◌then◌else◌};

use ltl_formula::Table;
use ltl_sets::RowSet;
use std::alloc::Allocator;

/// The index of the first occurrence of a number.
fn index_of(numbers: &[usize], number: usize) -> Option<usize>
    ensures { result ≡ position (λ k. k == number) numbers.now }
{
    numbers.iter().position(|k| *k == number)
}

/// The place of a row among the elementary rows, or the number of elementary rows if it is none of them.
pub(crate) fn place<A: Allocator>(table: &Table<'_, A>, row: usize) -> usize
    requires { row < length table.now.rows }
    ensures place { result ≡ row_place table.now (row_tree table.now row) }
    ensures small { Has table.now.elementary row → result < RowSet.LIMIT }
{
    table.invariant();
    let elementary = table.elementary();
    index_of(elementary, row).unwrap_or(elementary.len())
}

/// The number of until rows.
#[tactic(auto, using(crate::proofs::RowLaws::untils_few))]
pub(crate) fn until_count<A: Allocator>(table: &Table<'_, A>) -> usize
    ensures count { result ≡ length table.now.untils }
    ensures few { result ≤ stated_limits.elementary_rows }
{
    table.invariant();
    table.untils().len()
}

/// The row of the table that is the until row with this number.
#[tactic(auto, using(crate::proofs::RowLaws::until_below))]
pub(crate) fn until_row<A: Allocator>(table: &Table<'_, A>, number: usize) -> usize
    requires { number < length table.now.untils }
    ensures found { slice_get table.now.untils number ≡ Some result }
    ensures within { result < length table.now.rows }
    ensures elementary { Has table.now.elementary result }
{
    table.invariant();
    table.untils()[number]
}

/// The least member of a set.
pub(crate) fn first(rows: &RowSet) -> Option<usize>
    ensures { MatchOption result (rows.now ≡ []) (λ i. Has rows.now i) }
{
    let mut members = rows.iter();
    members.next()
}

/// The places of the elementary rows.
pub(crate) fn elementary_places<A: Allocator>(table: &Table<'_, A>) -> RowSet
    ensures all { (i : ℕ) → i < length table.now.elementary → Has result i }
    ensures inside { (i : ℕ) → Has result i → i < length table.now.elementary }
    ensures few { length result ≤ RowSet.LIMIT }
{
    table.invariant();
    let mut places = RowSet::empty();
    'places: for place in 0..table.elementary().len() {
        places.insert(place);
    }
    places.invariant();
    places
}

/// The elementary row at a place.
#[tactic(auto, using(crate::proofs::RowLaws::elementary_below))]
pub(crate) fn elementary_row<A: Allocator>(table: &Table<'_, A>, place: usize) -> usize
    requires { place < length table.now.elementary }
    ensures found { slice_get table.now.elementary place ≡ Some result }
    ensures within { result < length table.now.rows }
{
    table.invariant();
    table.elementary()[place]
}

/// Inserts a number into a set if `is_asked`.
pub(crate) fn put_if(numbers: &mut RowSet, number: usize, is_asked: bool)
    requires { number < RowSet.LIMIT }
    ensures { numbers.new ≡ (if is_asked then put nat_cmp number numbers.old else numbers.old) }
{
    if is_asked {
        numbers.insert(number);
    }
}
