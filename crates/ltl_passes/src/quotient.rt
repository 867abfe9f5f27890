//! The quotient automaton of a partition.

ghost use Rattle.std.specs.Prelude.{◌≡◌, ◌+◌, ◌<◌, length, map, slice_index, All, IfOk, OnOk};
ghost use Rattle.ltl_spec.specs.Construction.Merging as merging;
ghost use Rattle.ltl_automaton.specs.CodedEdges.{HaveLabels, labelled_edge_of, tables_of};
ghost use Rattle.ltl_automaton.specs.Labels.{AreCoded, AreTables, labelled};
ghost use Rattle.ltl_automaton.specs.SharedView.{automaton_of};
ghost use Rattle.ltl_passes.specs.Partition.{AreNames, IsNumbering, IsWithinStates, retargeted_list, thinned};
ghost use Rattle.ltl_passes.specs.Partitioned.{AreClassesMade, IsPartitioned, quotient_of};

use crate::implied::unimplied;
use crate::retargeting::retargeted;
use ltl_automaton::{CodedEdge, Labels, SharedStates};
use smallvec::SmallVec;
use std::alloc::{AllocError, Allocator};

/// The names of the classes in ascending order, and for each state the number of its class.
#[derive(Drop)]
pub(crate) struct Numbering<'a, A: Allocator> {
    pub(crate) classes: Vec<usize, &'a A>,
    pub(crate) numbers: Vec<usize, &'a A>,
}

/// Numbers the classes in the order of their names. The name of a class is its least state.
fn number_classes<'a, A: Allocator>(
    alloc: &'a A,
    names: &[usize],
) -> Result<Numbering<'a, A>, AllocError>
    requires { AreNames names.now }
    ensures { IfOk result (λ w. IsNumbering names.now w.classes.items w.numbers.items) }
{
    let mut classes = Vec::new(alloc);
    let mut numbers: Vec<usize, &'a A> = Vec::new(alloc);
    for s in 0..names.len() {
        let name = names[s];
        if name == s {
            numbers.push(classes.len())?;
            classes.push(s)?;
        } else {
            let number = numbers[name];
            numbers.push(number)?;
        }
    }
    Ok(Numbering { classes, numbers })
}

/// For each class the index of an edge. Most automata are small.
type Places<'a, A> = SmallVec<usize, 8, &'a A>;

/// The edges of a class, which are those of its least state with classes as targets. `noted` has room for an index at each class.
fn class_edges<'a, A: Allocator>(
    alloc: &'a A,
    labels: &Labels<'_>,
    edges: &[CodedEdge],
    numbers: &[usize],
    keep_implied: bool,
    noted: &mut [usize],
) -> Result<Vec<CodedEdge, &'a A>, AllocError>
    requires tables { AreTables (tables_of labels.now) }
    requires coded { HaveLabels labels.now edges.now }
    requires within { All (λ e. e.target < length numbers.now) edges.now }
    requires noted { All (λ n. n < length noted.old) numbers.now }
    ensures wide { length noted.new ≡ length noted.old }
    ensures edges { IfOk result (λ es. map (labelled_edge_of labels.now) es.items
        ≡ thinned keep_implied (retargeted_list (slice_index numbers.now) (map (labelled_edge_of labels.now) edges.now))) }
    ensures coded { IfOk result (λ es. HaveLabels labels.now es.items) }
{
    let made = retargeted(alloc, edges, numbers)?;
    if keep_implied {
        return Ok(made);
    }
    unimplied(alloc, labels, made, noted)
}

/// An automaton with a partition of its states.
#[derive(Drop)]
struct Partitioned<'a, 'l, 'b, 's, A: Allocator> {
    alloc: &'a A,
    labels: Labels<'l>,
    states: &'b SharedStates<'s, CodedEdge, A>,
    /// For each state the name of its class.
    names: &'b [usize],
    numbering: Numbering<'a, A>,
    keep_implied: bool,
}

impl<'a, 'l, 'b, 's, A: Allocator> Partitioned<'a, 'l, 'b, 's, A> {
    /// Appends the class with the number `class`. If `last` is an earlier class and the least states of both have the same list, both classes share one list.
    fn push_class(
        &self,
        made: &mut SharedStates<'a, CodedEdge, A>,
        noted: &mut [usize],
        class: usize,
        last: usize,
    ) -> Result<(), AllocError>
        requires partitioned { IsPartitioned self.now }
        requires made { AreClassesMade self.now (automaton_of made.old) class }
        requires within { class < length self.now.numbering.classes.items }
        requires noted { length noted.old ≡ length self.now.names.now }
        ensures wide { length noted.new ≡ length noted.old }
        ensures made { OnOk result (AreClassesMade self.now (automaton_of made.new) (class + 1)) }
    {
        let classes = self.numbering.classes.as_slice();
        let state = classes[class];
        let accepting = self.states.accepting(state);
        if last < class && self.states.list(classes[last]) == self.states.list(state) {
            made.push_like(accepting, last)?;
        } else {
            let edges = class_edges(
                self.alloc,
                &self.labels,
                self.states.edges(state),
                self.numbering.numbers.as_slice(),
                self.keep_implied,
                noted,
            )?;
            made.push(accepting, edges)?;
        }
        Ok(())
    }

    /// The quotient automaton. The edges of classes whose least states have the same list are computed once.
    fn quotient(&self) -> Result<SharedStates<'a, CodedEdge, A>, AllocError>
        requires { IsPartitioned self.now }
        ensures merged { IfOk result (λ m. labelled (tables_of self.now.labels) (automaton_of m) ≡ quotient_of self.now) }
        ensures coded { IfOk result (λ m. AreCoded (tables_of self.now.labels) (automaton_of m)) }
    {
        let classes = self.numbering.classes.as_slice();
        let mut made = SharedStates::new(self.alloc, self.states.sets());
        let mut noted: Places<'a, A> = SmallVec::new(self.alloc);
        noted.resize(self.names.len(), 0)?;
        let mut lasts: Vec<usize, &'a A> = Vec::new(self.alloc);
        lasts.resize(self.states.list_count(), 0)?;
        for class in 0..classes.len() {
            let list = self.states.list(classes[class]);
            self.push_class(&mut made, noted.as_mut_slice(), class, lasts[list])?;
            lasts[list] = class;
        }
        Ok(made)
    }
}

/// The quotient automaton, with the classes in the order of their names.
pub(crate) fn quotient<'a, A: Allocator>(
    alloc: &'a A,
    labels: &Labels<'_>,
    states: &SharedStates<'_, CodedEdge, A>,
    names: &[usize],
    keep_implied: bool,
) -> Result<SharedStates<'a, CodedEdge, A>, AllocError>
    requires tables { AreTables (tables_of labels.now) }
    requires coded { AreCoded (tables_of labels.now) (automaton_of states.now) }
    requires within { IsWithinStates (automaton_of states.now).states }
    requires long { length names.now ≡ length (automaton_of states.now).states }
    requires names { AreNames names.now }
    ensures merged { IfOk result (λ m. labelled (tables_of labels.now) (automaton_of m)
        ≡ merging.quotient keep_implied names.now (labelled (tables_of labels.now) (automaton_of states.now))) }
    ensures coded { IfOk result (λ m. AreCoded (tables_of labels.now) (automaton_of m)) }
{
    let partitioned = Partitioned {
        alloc,
        labels: *labels,
        states,
        names,
        numbering: number_classes(alloc, names)?,
        keep_implied,
    };
    partitioned.quotient()
}
