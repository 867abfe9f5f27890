//! Lists of sets, stored by column: for each number, the indices of the sets that have it.

ghost use Rattle.std.specs.Prelude.{◌≡◌, ◌<◌, ◌≤◌, length, IfOk};
ghost use Rattle.ltl_sets.specs.Transposed.{AreMet};
ghost use Rattle.least.specs.Columns.{AreColumnsOf, AreFilled, IsWide, column_at};

use ltl_sets::{OCTET, RowSet, octet};
use std::alloc::{AllocError, Allocator};
use std::marker::Model;

/// A list of at most [`RowSet::LIMIT`] sets, stored by column.
#[derive(Drop)]
pub struct Columns<'a, A: Allocator> {
    /// Has each member of each set.
    met: RowSet,
    /// The columns of the numbers from 0 on. The columns of greater numbers are empty.
    columns: Vec<RowSet, &'a A>,
}

impl<'a, A: Allocator> Model for Columns<'a, A> {
    ghost use Rattle.least.specs.Columns.{ColumnTable};

    ghost Value = { ColumnTable };

    ghost view = { λ c. record { met = c.met; columns = c.columns.items } };
}

/// The union of the sets.
fn together(sets: &[RowSet]) -> RowSet
    ensures { AreMet sets.now result }
{
    let mut all = RowSet::empty();
    'sets: for set in sets {
        all = all.union(set);
    }
    all
}

/// A number above all members, which is at most the limit.
#[tactic(auto, using(crate::proofs::ColumnLaws::wide_step, crate::proofs::ColumnLaws::wide_fits, crate::proofs::ColumnLaws::wide_ends))]
fn width(met: &RowSet) -> usize
    ensures above { IsWide met.now result }
    ensures inside { result ≤ RowSet.LIMIT }
{
    met.invariant();
    let mut width = 0;
    let mut rest = met.iter();
    'members: while let Some(e) = rest.next() {
        width = width.max(e + 1);
    }
    width
}

/// The columns of the numbers below the width, and of the next ones up to a multiple of eight.
#[tactic(auto, using(crate::proofs::ColumnLaws::fill_step))]
fn filled<'a, A: Allocator>(
    alloc: &'a A,
    sets: &[RowSet],
    met: &RowSet,
    width: usize,
) -> Result<Vec<RowSet, &'a A>, AllocError>
    requires few { length sets.now ≤ RowSet.LIMIT }
    requires met { AreMet sets.now met.now }
    requires inside { width ≤ RowSet.LIMIT }
    ensures { IfOk result (λ v. AreFilled sets.now width v.items) }
{
    let octets = width.div_ceil(OCTET);
    let mut columns = Vec::with_capacity(alloc, octets * OCTET)?;
    'octets: for k in 0..octets {
        columns.extend_from_slice(&octet(sets, met, k))?;
    }
    Ok(columns)
}

impl<'a, A: Allocator> Columns<'a, A> {
    /// The columns of these sets.
    pub fn of(alloc: &'a A, sets: &[RowSet]) -> Result<Columns<'a, A>, AllocError>
        requires { length sets.now ≤ RowSet.LIMIT }
        ensures { IfOk result (AreColumnsOf sets.now) }
    {
        let met = together(sets);
        let columns = filled(alloc, sets, &met, width(&met))?;
        Ok(Columns { met, columns })
    }

    /// A set that has each number of the sets.
    #[inline(always)]
    pub fn met(&self) -> RowSet
        ensures { result ≡ self.now.met }
    {
        self.met
    }

    /// The indices of the sets that have this number.
    #[inline(always)]
    pub fn column(&self, number: usize) -> RowSet
        ensures { result ≡ column_at self.now number }
    {
        if number < self.columns.len() {
            self.columns[number]
        } else {
            RowSet::empty()
        }
    }
}
