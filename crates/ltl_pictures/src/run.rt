//! Search for an accepting run of an automaton on a word.

ghost use Rattle.std.specs.Prelude.{◌≡◌, ◌+◌, ◌*◌, ◌<◌, ◌≤◌, ◌++◌, true, false, List, length, map, option_map, Ok, None, IfOk, IfErr, IfSome, OnOk, IsErrOf};
ghost use Rattle.ltl_spec.specs.Tools.Limits.{stated_limits};
ghost use Rattle.ltl_check.specs.declared.walk.Taken.{Taken};
ghost use Rattle.ltl_pictures.specs.Picks.{IsFoundRun, IsFullRun, pick_of, picks_of};
ghost use Rattle.ltl_pictures.specs.Runs.{IsRunOf, run_size};

use crate::fault::RunFault;
use crate::pick::Pick;
use ltl_check::{PRODUCT_LIMIT, Steps, Taken, Walk, WordProduct, find, letters};
use ltl_hoa::Marked;
use ltl_sets::PropositionSet;
use ltl_word::Lasso;
use std::alloc::{AllocError, Allocator};

/// Appends the edges of these steps. An automaton with `states` states determines the state of a product number.
fn push_picks<A: Allocator>(
    steps: &[Taken],
    states: usize,
    picks: &mut Vec<Pick, &A>,
) -> Result<(), AllocError>
    requires { 0 < states }
    ensures { OnOk result (picks.new.items ≡ picks.old.items ++ map (pick_of states) steps.now) }
{
    for k in 0..steps.len() {
        let step = steps[k];
        picks.push(Pick {
            state: step.state % states,
            place: step.pick,
        })?;
    }
    Ok(())
}

/// The edges of a walk: first those of its stem, then those of its cycle.
fn picks<'a, A: Allocator>(
    alloc: &'a A,
    walk: &Walk<'_, A>,
    states: usize,
) -> Result<Vec<Pick, &'a A>, AllocError>
    requires { 0 < states }
    ensures { IfOk result (λ v. v.items ≡ picks_of states walk.now.stem.items walk.now.cycle.items) }
{
    let mut picks = Vec::new(alloc);
    push_picks(walk.stem.as_slice(), states, &mut picks)?;
    push_picks(walk.cycle.as_slice(), states, &mut picks)?;
    Ok(picks)
}

/// The edges of an accepting run on the word of these letters, of which the first `stem` are its stem, if there is one.
fn searched<'a, A: Allocator>(
    alloc: &'a A,
    automaton: &Marked<'_, A>,
    letters: &[PropositionSet],
    stem: usize,
) -> Result<Option<Vec<Pick, &'a A>>, RunFault>
    requires few { length letters.now ≤ stated_limits.product }
    requires turns { stem < length letters.now }
    requires fits { length letters.now * automaton.now.states * (automaton.now.sets + 1) ≤ stated_limits.product }
    ensures found { IfOk result (λ r. IfSome r (λ v. IsFoundRun automaton.now letters.now stem v.items)) }
    ensures none { result ≡ Ok None → (prefix cycle : List Taken) → IsFullRun automaton.now letters.now stem prefix cycle → ⊥ }
    ensures memory { IfErr result (λ e. e ≡ RunFault.OutOfMemory) }
{
    automaton.invariant();
    let product = WordProduct::new(automaton, letters, stem);
    let mut looks = Steps::new();
    let found = match find(alloc, &product, &mut looks) {
        Ok(found) => found,
        Err(_) => return Err(RunFault::OutOfMemory),
    };
    match found {
        Some(walk) => Ok(Some(picks(alloc, &walk, automaton.len())?)),
        None => Ok(None),
    }
}

/// Whether the product with a word of so many positions, on all levels, exceeds the limit of a search.
fn is_too_large<A: Allocator>(automaton: &Marked<'_, A>, positions: usize) -> bool
    ensures large { result ≡ true → stated_limits.product < automaton.now.states * positions * (automaton.now.sets + 1) }
    ensures few { result ≡ false → positions ≤ stated_limits.product }
    ensures fits { result ≡ false → automaton.now.states * positions * (automaton.now.sets + 1) ≤ stated_limits.product }
{
    automaton.invariant();
    positions > PRODUCT_LIMIT
        || automaton.len() * positions * (automaton.sets() + 1) > PRODUCT_LIMIT
}

/// The edges of an accepting run of the automaton on the word, or `None` if the automaton doesn't accept the word. The run begins at the initial state and
/// ends after one round of its cycle. The result doesn't say where the cycle begins.
///
/// # Errors
///
/// `TooLarge` if the number of states, times that of positions, times that of acceptance sets plus one exceeds [`PRODUCT_LIMIT`]; `OutOfMemory` if an
/// allocation fails.
pub fn accepting_run<'a, A: Allocator, B: Allocator>(
    alloc: &'a A,
    automaton: &Marked<'_, A>,
    word: &Lasso<'_, B>,
) -> Result<Option<Vec<Pick, &'a A>>, RunFault>
    ensures run { IfOk result (λ r. IsRunOf automaton.now word.now (option_map (λ v. v.items) r)) }
    ensures fits { OnOk result (run_size automaton.now word.now ≤ stated_limits.product) }
    ensures large { IsErrOf result RunFault.TooLarge → stated_limits.product < run_size automaton.now word.now }
{
    automaton.invariant();
    if is_too_large(automaton, word.len()) {
        return Err(RunFault::TooLarge);
    }
    let letters = letters(alloc, automaton, word)?;
    searched(alloc, automaton, letters.as_slice(), word.stem_len())
}
