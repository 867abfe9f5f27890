//! What all items of a block need.

ghost use Rattle.std.specs.Prelude.{◌≡◌, All, length};
ghost use Rattle.least.specs.Blocks.{IsCommonOf, IsNeeded};

use crate::elements::{Elements, KINDS};
use ltl_sets::RowSet;

/// The elements of each kind that all items of a block need. As a value of its own it needs them, asks for none and lacks none.
#[derive(Clone, Copy)]
pub(crate) struct Common {
    kinds: [RowSet; KINDS],
}

impl Elements for Common {
    ghost use Rattle.std.specs.Prelude.{[]};
    ghost use Rattle.least.specs.Blocks.{lacks_common, needs_common};

    ghost needs = { needs_common };

    ghost asks = { λ _ _. [] };

    ghost lacking = { lacks_common };

    fn needs(&self, kind: usize) -> RowSet {
        if kind < KINDS {
            self.kinds[kind]
        } else {
            RowSet::empty()
        }
    }

    fn asks(&self, _kind: usize) -> RowSet {
        RowSet::empty()
    }

    fn lacks(&self, _kind: usize, _of: &RowSet) -> RowSet {
        RowSet::empty()
    }
}

/// The elements of a kind that all items need.
fn shared<T: Elements>(block: &[T], kind: usize) -> RowSet
    ensures { All (IsNeeded T.needs kind result) block.now }
{
    let mut common = RowSet::all();
    'items: for item in block {
        common = common.common(&item.needs(kind));
    }
    common
}

/// What all items of a block need.
pub(crate) fn common_of<T: Elements>(block: &[T]) -> Common
    ensures { IsCommonOf T.needs block.now result }
{
    Common {
        kinds: [shared(block, 0), shared(block, 1), shared(block, 2)],
    }
}
