//! The construction of an automaton with a table of its labels. The labels are numbered as they come, and sorted at the end.

ghost use Rattle.std.specs.Prelude.{◌≡◌, [], false, length, map, IfOk, OnOk};
ghost use Rattle.ltl_spec.specs.Collections.Sets.{Has};
ghost use Rattle.ltl_automaton.specs.CodedEdges.{table_of};
ghost use Rattle.ltl_automaton.specs.LabelTables.{AreMade, AreOnce, Extends, HasLabels, HaveRanks, IsBuilt, built_of, labelled_of, met_of};
ghost use Rattle.ltl_automaton.specs.Labels.{AreTables};
ghost use Rattle.ltl_automaton.specs.Net.{edges_to};

use crate::builder::Builder;
use crate::coded_edge::CodedEdge;
use crate::coded_states::CodedStates;
use crate::edge::Edge;
use crate::interner::Interner;
use crate::label_table::LabelTable;
use crate::ranked::{Ranked, narrow};
use crate::ranks::Ranks;
use crate::shared::SharedStates;
use crate::step::Step;
use crate::worklist::Key;
use ltl_sets::{Cube, RowSet};
use std::alloc::{AllocError, Allocator};

/// An automaton under construction, with the different labels of its edges in the order in which they came. An edge has the numbers of its labels in this
/// order.
#[derive(Drop)]
pub struct CodedBuilder<'a, A: Allocator> {
    alloc: &'a A,
    cubes: Interner<'a, Cube, A>,
    marks: Interner<'a, RowSet, A>,
    states: SharedStates<'a, CodedEdge, A>,
}

impl<'a, A: Allocator> CodedBuilder<'a, A> {
    /// An automaton without states, with this number of acceptance sets. The empty set of marks gets a number at once, since each table has it.
    pub fn new(alloc: &'a A, sets: usize) -> Result<Self, AllocError>
        ensures empty { IfOk result (λ b. built_of b ≡ record { sets = sets; states = [] }) }
        ensures built { IfOk result (λ b. IsBuilt b) }
    {
        let mut marks: Interner<'a, RowSet, A> = Interner::new(alloc);
        marks.number(RowSet::empty())?;
        Ok(CodedBuilder {
            alloc,
            cubes: Interner::new(alloc),
            marks,
            states: SharedStates::new(alloc, sets),
        })
    }

    /// The edges of `steps` to the states with the numbers `targets`, with numbers for their labels. A label that didn't come before gets the next number
    /// of its kind.
    fn coded_edges<K: Key, T: Step<K, Edge>>(
        &mut self,
        steps: &[T],
        targets: &[usize],
    ) -> Result<Vec<CodedEdge, &'a A>, AllocError>
        requires { length steps.now ≡ length targets.now }
        ensures more { OnOk result (Extends (met_of self.old) (met_of self.new)) }
        ensures edges { IfOk result (λ es. AreMade (met_of self.new) es.items (edges_to (map T.move_of steps.now) targets.now)) }
        ensures states { OnOk result (self.new.states ≡ self.old.states) }
        ensures once { AreOnce (met_of self.old) → OnOk result (AreOnce (met_of self.new)) }
    {
        self.cubes.make_room(steps.len())?;
        let mut coded = Vec::with_capacity(self.alloc, steps.len())?;
        for i in 0..steps.len() {
            let edge = steps[i].edge_to(targets[i]);
            coded.push(CodedEdge {
                cube: narrow(self.cubes.number(edge.cube)?)?,
                marks: narrow(self.marks.number(edge.marks)?)?,
                target: edge.target,
            })?;
        }
        Ok(coded)
    }

    /// The table of the labels so far, and their places there.
    fn ranks(&self) -> Result<Ranks<'a, A>, AllocError>
        requires none { Has self.now.marks.keys [] }
        requires once { AreOnce (met_of self.now) }
        ensures tables { IfOk result (λ r. AreTables (table_of r.table)) }
        ensures ranks { IfOk result (λ r. HaveRanks (met_of self.now) r) }
    {
        let cubes = Ranked::of(self.alloc, &self.cubes)?;
        let marks = Ranked::of(self.alloc, &self.marks)?;
        Ok(Ranks {
            cubes: cubes.ranks,
            marks: marks.ranks,
            table: LabelTable {
                cubes: cubes.sorted,
                marks: marks.sorted,
            },
        })
    }

    /// The automaton. Its labels are sorted, and its edges have the places of their labels as numbers.
    pub fn finish(self) -> Result<CodedStates<'a, A>, AllocError>
        requires { IsBuilt self }
        ensures automaton { IfOk result (λ c. labelled_of c ≡ built_of self.entry) }
        ensures labels { IfOk result (λ c. HasLabels c) }
    {
        self.states.invariant();
        let ranks = self.ranks()?;
        let mut states = self.states;
        states.relabel(&ranks);
        Ok(CodedStates {
            table: ranks.table,
            states,
        })
    }
}

impl<'a, A: Allocator> Builder<Edge> for CodedBuilder<'a, A> {
    ghost built = { built_of };

    ghost sorts = { false };

    ghost ready = { λ b. IsBuilt b };

    fn len(&self) -> usize {
        self.states.len()
    }

    fn push_steps<K: Key, T: Step<K, Edge>>(
        &mut self,
        accepting: bool,
        steps: &[T],
        targets: &[usize],
    ) -> Result<(), AllocError> {
        let coded = self.coded_edges(steps, targets)?;
        self.states.push(accepting, coded)?;
        Ok(())
    }

    fn push_like(&mut self, accepting: bool, i: usize) -> Result<(), AllocError> {
        self.states.push_like(accepting, i)?;
        Ok(())
    }
}
