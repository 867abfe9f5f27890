//! The passes in a row: from a generalized automaton to the one that is printed.

ghost use Rattle.std.specs.Prelude.{◌≡◌, false, IfOk, IsErrOf, OnOk};
ghost use Rattle.ltl_spec.specs.Construction.Levels.{HasTooManyLevelStates};
ghost use Rattle.ltl_spec.specs.Construction.Merging.{merged_automaton};
ghost use Rattle.ltl_spec.specs.Construction.Renumbered.{renumbered_automaton};
ghost use Rattle.ltl_spec.specs.Tools.Limits.{stated_limits};
ghost use Rattle.ltl_automaton.specs.SharedView.{automaton_of};
ghost use Rattle.ltl_models.specs.GbaView as gba;
ghost use Rattle.ltl_models.specs.BaView.{IsBa, IsPlain};
ghost use Rattle.ltl_automaton.specs.CodedEdges.{tables_of};
ghost use Rattle.ltl_automaton.specs.Labels.{AreCoded, AreTables, labelled};
ghost use Rattle.ltl_automaton.specs.LabelTables.{HasLabels, labelled_of};
ghost use Rattle.ltl_passes.specs.Passes.{buchi_of, merged_of};

use crate::degeneralize::level_states;
use crate::merging::merged;
use crate::numbering::renumbered;
use ltl_automaton::{CodedEdge, CodedStates, Labels, SharedStates};
use ltl_models::{Ba, BaFault, Gba, Gen, Options};
use std::alloc::Allocator;

/// Merges, degeneralizes, merges again and renumbers states with numbers for the labels of their edges. Each intermediate automaton is dropped as soon as the
/// next one is made.
fn coded_buchi<'a, A: Allocator>(
    alloc: &'a A,
    labels: &Labels<'_>,
    states: SharedStates<'_, CodedEdge, A>,
    options: &Options,
) -> Result<SharedStates<'a, CodedEdge, A>, BaFault>
    requires tables { AreTables (tables_of labels.now) }
    requires coded { AreCoded (tables_of labels.now) (automaton_of states) }
    requires inside { gba.IsGba (labelled (tables_of labels.now) (automaton_of states)) }
    ensures states { IfOk result (λ s. labelled (tables_of labels.now) (automaton_of s)
        ≡ buchi_of options.now (labelled (tables_of labels.now) (automaton_of states.entry))) }
    ensures inside { IfOk result (λ s. IsBa (labelled (tables_of labels.now) (automaton_of s))) }
    ensures coded { IfOk result (λ s. AreCoded (tables_of labels.now) (automaton_of s)) }
    ensures few { OnOk result (¬ HasTooManyLevelStates (merged_of options.now (labelled (tables_of labels.now) (automaton_of states.entry)))
        stated_limits.states stated_limits.edges) }
    ensures many { IsErrOf result BaFault.TooLarge → HasTooManyLevelStates (merged_of options.now (labelled (tables_of labels.now) (automaton_of states.entry)))
        stated_limits.states stated_limits.edges }
{
    let small = merged(alloc, labels, &states, options)?;
    drop(states);
    let copies = level_states(alloc, labels, &small)?;
    drop(small);
    let smaller = merged(alloc, labels, &copies, options)?;
    drop(copies);
    renumbered(alloc, &smaller)
}

/// The Büchi automaton of a generalized one, which is merged, degeneralized, merged again and renumbered. The result owns the table of labels of the input.
pub fn buchi<'a, A: Allocator>(
    alloc: &'a A,
    automaton: Gba<'a, A>,
    options: &Options,
) -> Result<Ba<'a, A>, BaFault>
    ensures states { IfOk result (λ b. b ≡ buchi_of options.now automaton.entry) }

    // The result is `TooLarge` only if a limit is exceeded, and is never `Ok` then. Memory may run out at any time.
    ensures few { OnOk result (¬ HasTooManyLevelStates (merged_of options.now automaton.entry) stated_limits.states stated_limits.edges) }
    ensures many { IsErrOf result BaFault.TooLarge → HasTooManyLevelStates (merged_of options.now automaton.entry) stated_limits.states stated_limits.edges }
{
    automaton.invariant();
    let CodedStates { table, states } = automaton.into_states();
    let numbered = coded_buchi(alloc, &table.labels(), states, options)?;
    let made = CodedStates {
        table,
        states: numbered,
    };
    Ok(Ba::new(alloc, made)?)
}

/// The Büchi automaton of one without acceptance sets, by the states that accept: merged and renumbered. The only fault is `OutOfMemory`.
pub fn merged_buchi<'a, A: Allocator>(
    alloc: &'a A,
    automaton: CodedStates<'a, A>,
) -> Result<Ba<'a, A>, BaFault>
    requires inside { gba.IsGba (labelled_of automaton) }
    requires none { (labelled_of automaton).sets ≡ 0 }
    requires plain { IsPlain (labelled_of automaton) }
    requires labels { HasLabels automaton }
    ensures states { IfOk result (λ b. b ≡ renumbered_automaton (merged_automaton false false (labelled_of automaton.entry))) }
    ensures fits { ¬ IsErrOf result BaFault.TooLarge }
{
    let CodedStates { table, states } = automaton;
    let options = Options {
        keep_implied: false,
        keep_equal: false,
    };
    let small = merged(alloc, &table.labels(), &states, &options)?;
    drop(states);
    let numbered = renumbered(alloc, &small)?;
    let made = CodedStates {
        table,
        states: numbered,
    };
    Ok(Ba::new(alloc, made)?)
}

/// The generalized automaton as it is printed: merged and renumbered. The only fault is `OutOfMemory`.
pub fn generalized<'a, A: Allocator>(
    alloc: &'a A,
    automaton: Gba<'a, A>,
    options: &Options,
) -> Result<Gen<'a, A>, BaFault>
    ensures states { IfOk result (λ g. g ≡ renumbered_automaton (merged_of options.now automaton.entry)) }
    ensures fits { ¬ IsErrOf result BaFault.TooLarge }
{
    automaton.invariant();
    let CodedStates { table, states } = automaton.into_states();
    let small = merged(alloc, &table.labels(), &states, options)?;
    drop(states);
    let numbered = renumbered(alloc, &small)?;
    let made = CodedStates {
        table,
        states: numbered,
    };
    Ok(Gen::new(Gba::new(made)))
}
