//! Items of the tests of minimal elements: they need numbers and lack others.

use least::{Below, Counting, Elements};
use ltl_sets::RowSet;

/// An item that needs numbers and lacks others. It is below the items that need all that it needs, and nothing that it lacks.
#[derive(Clone, Copy)]
pub struct Item {
    pub needs: RowSet,
    pub lacks: RowSet,
}

impl Elements for Item {
    ghost use Rattle.sets_tests.specs.Items.{is_lacked, numbers_needed};

    ghost needs = { numbers_needed };

    ghost asks = { numbers_needed };

    ghost lacking = { is_lacked };

    fn needs(&self, kind: usize) -> RowSet {
        if kind == 0 {
            self.needs
        } else {
            RowSet::empty()
        }
    }

    fn asks(&self, kind: usize) -> RowSet {
        if kind == 0 {
            self.needs
        } else {
            RowSet::empty()
        }
    }

    #[tactic(auto, using(crate::proofs::ItemLaws::lacks_first, crate::proofs::ItemLaws::lacks_none))]
    fn lacks(&self, kind: usize, of: &RowSet) -> RowSet {
        if kind == 0 {
            of.common(&self.lacks)
        } else {
            RowSet::empty()
        }
    }
}

impl Below for Item {
    ghost use Rattle.sets_tests.specs.Items.{below_asked, below_needed, is_below};

    ghost below = { is_below };

    fn is_below(&self, other: &Item) -> bool {
        self.needs.is_subset(&other.needs) && !self.lacks.meets(&other.needs)
    }

    ghost needed = { below_needed };

    ghost lacked = { below_asked };
}

/// The relation that two items need different numbers.
pub struct Different;

impl Counting<Item> for Different {
    ghost use Rattle.std.specs.Prelude.{nat_eq, not};
    ghost use Rattle.std.specs.Cmp.Lexicographic.{pointwise};

    ghost counts = { λ _ a b. not (pointwise nat_eq a.needs b.needs) };

    fn counts(&self, other: &Item, item: &Item) -> bool {
        !(other.needs == item.needs)
    }
}
