//! The tests of the until rows that count.

ghost use Rattle.std.specs.Prelude.{IfOk};
ghost use Rattle.ltl_alt.specs.WantedView.{AreCountedSteps};

use crate::fulfilment::Fulfilment;
use ltl_sets::RowSet;
use std::alloc::{AllocError, Allocator};

/// The steps that are the tests of the until rows that count.
pub(crate) fn counted_steps<'a, A: Allocator>(
    alloc: &'a A,
    fulfilment: &Fulfilment<'_, A>,
    counted: &RowSet,
) -> Result<Vec<usize, &'a A>, AllocError>
    ensures { IfOk result (λ v. AreCountedSteps fulfilment.now.untils.items counted.now v.items) }
{
    let mut roots = Vec::new(alloc);
    'untils: for number in 0..fulfilment.untils.len() {
        let until = fulfilment.until(number);
        if counted.holds(until.place) {
            roots.push(until.step)?;
        }
    }
    Ok(roots)
}
