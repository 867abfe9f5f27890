//! The table of the labels of an automaton.

ghost use Rattle.std.specs.Prelude.{◌≡◌, IfOk};
ghost use Rattle.ltl_automaton.specs.CodedEdges.{table_of, tables_of};

use crate::labels::Labels;
use ltl_sets::{Cube, RowSet};
use std::alloc::{AllocError, Allocator};

/// The labels of an automaton: its different cubes and its different sets of marks. The number of a label is its index in its list. In the tables of
/// automata both lists are strictly sorted, and the empty set of marks has number 0 (`AreTables`).
#[derive(Drop)]
pub struct LabelTable<'a, A: Allocator> {
    /// The cubes by number.
    pub cubes: Vec<Cube, &'a A>,
    /// The sets of marks by number. A set has the numbers of acceptance sets.
    pub marks: Vec<RowSet, &'a A>,
}

impl<'a, A: Allocator> LabelTable<'a, A> {
    /// The same labels, borrowed.
    #[inline(always)]
    pub fn labels(&self) -> Labels<'_>
        ensures { tables_of result ≡ table_of self.now }
    {
        Labels {
            cubes: self.cubes.as_slice(),
            marks: self.marks.as_slice(),
        }
    }
}

impl<'l> Labels<'l> {
    /// A table with a copy of these labels, with the same numbers.
    pub fn table<'a, A: Allocator>(&self, alloc: &'a A) -> Result<LabelTable<'a, A>, AllocError>
        ensures { IfOk result (λ t. table_of t ≡ tables_of self.now) }
    {
        let mut cubes = Vec::new(alloc);
        cubes.extend_from_slice(self.cubes)?;
        let mut marks = Vec::new(alloc);
        marks.extend_from_slice(self.marks)?;
        Ok(LabelTable { cubes, marks })
    }
}
