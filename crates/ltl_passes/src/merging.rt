//! Merging of states with equal edges: the quotient of an automaton by the classes of the last round.

ghost use Rattle.std.specs.Prelude.{◌≡◌, if◌then◌else◌, length, IfOk, IfErr};
ghost use Rattle.ltl_spec.specs.Construction.Merging as merging;
ghost use Rattle.ltl_spec.specs.Construction.Merging.{merged_automaton};
ghost use Rattle.ltl_automaton.specs.LabelTables.{HasLabels, labelled_of};
ghost use Rattle.ltl_automaton.specs.SharedView.{automaton_of};
ghost use Rattle.ltl_models.specs.BaView.{IsBa};
ghost use Rattle.ltl_automaton.specs.CodedEdges.{tables_of};
ghost use Rattle.ltl_automaton.specs.Labels.{AreCoded, AreTables, labelled};
ghost use Rattle.ltl_passes.specs.Partition.{IsWithinStates};

use crate::partition::{class_names, own_names};
use crate::quotient::quotient;
use ltl_automaton::{CodedEdge, CodedStates, Labels, SharedStates};
use ltl_models::{Ba, BaFault, Gba, Options};
use std::alloc::{AllocError, Allocator};

/// The class name of each state. If equal states are kept, each state is a class.
fn names<'a, A: Allocator>(
    alloc: &'a A,
    states: &SharedStates<'_, CodedEdge, A>,
    keep_equal: bool,
) -> Result<Vec<usize, &'a A>, AllocError>
    requires within { IsWithinStates (automaton_of states.now).states }
    ensures { IfOk result (λ v. v.items ≡ merging.class_names (automaton_of states.now) (if keep_equal then 0 else length (automaton_of states.now).states)) }
{
    if keep_equal {
        return own_names(alloc, states.len());
    }
    class_names(alloc, states)
}

/// The quotient of an automaton of either kind.
pub(crate) fn merged<'a, A: Allocator>(
    alloc: &'a A,
    labels: &Labels<'_>,
    states: &SharedStates<'_, CodedEdge, A>,
    options: &Options,
) -> Result<SharedStates<'a, CodedEdge, A>, AllocError>
    requires tables { AreTables (tables_of labels.now) }
    requires coded { AreCoded (tables_of labels.now) (automaton_of states.now) }
    requires within { IsWithinStates (automaton_of states.now).states }
    ensures merged { IfOk result (λ m. labelled (tables_of labels.now) (automaton_of m)
        ≡ merged_automaton options.now.keep_implied options.now.keep_equal (labelled (tables_of labels.now) (automaton_of states.now))) }
    ensures coded { IfOk result (λ m. AreCoded (tables_of labels.now) (automaton_of m)) }
{
    let names = names(alloc, states, options.keep_equal)?;
    quotient(
        alloc,
        labels,
        states,
        names.as_slice(),
        options.keep_implied,
    )
}

/// The quotient, with a copy of the table of labels.
fn merged_states<'a, A: Allocator>(
    alloc: &'a A,
    input: &CodedStates<'_, A>,
    options: &Options,
) -> Result<CodedStates<'a, A>, AllocError>
    requires labels { HasLabels input.now }
    requires within { IsWithinStates (labelled_of input.now).states }
    ensures merged { IfOk result (λ m. labelled_of m ≡ merged_automaton options.now.keep_implied options.now.keep_equal (labelled_of input.now)) }
    ensures labels { IfOk result (λ m. HasLabels m) }
{
    let labels = input.table.labels();
    let small = merged(alloc, &labels, &input.states, options)?;
    Ok(CodedStates {
        table: labels.table(alloc)?,
        states: small,
    })
}

/// The generalized automaton with states of equal edges merged, round by round until nothing changes, and then without the transitions that another one with
/// the same target implies. Each option turns one of these two simplifications off. The only fault is `OutOfMemory`.
pub fn merge<'a, A: Allocator>(
    alloc: &'a A,
    gba: &Gba<'_, A>,
    options: &Options,
) -> Result<Gba<'a, A>, BaFault>
    ensures merged { IfOk result (λ m. m ≡ merged_automaton options.now.keep_implied options.now.keep_equal gba.now) }
    ensures fault { IfErr result (λ f. f ≡ BaFault.OutOfMemory) }
{
    gba.invariant();
    let small = merged_states(alloc, gba.states(), options)?;
    Ok(Gba::new(small))
}

/// The Büchi automaton with states of equal edges merged, round by round until nothing changes, and then without the edges that another one with the same
/// target implies. Each option turns one of these two simplifications off. The only fault is `OutOfMemory`.
pub fn merge_ba<'a, A: Allocator>(
    alloc: &'a A,
    ba: &Ba<'_, A>,
    options: &Options,
) -> Result<Ba<'a, A>, BaFault>
    ensures merged { IfOk result (λ m. m ≡ merged_automaton options.now.keep_implied options.now.keep_equal ba.now) }
    ensures fault { IfErr result (λ f. f ≡ BaFault.OutOfMemory) }
{
    ba.invariant();
    let small = merged_states(alloc, ba.states(), options)?;
    Ok(Ba::new(alloc, small)?)
}
