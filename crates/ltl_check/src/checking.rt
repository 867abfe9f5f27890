//! The check: does an automaton accept a word that a Büchi automaton accepts too?

ghost use Rattle.std.specs.Prelude.{◌≡◌, ℕ, ◌+◌, ◌*◌, ◌<◌, ◌≤◌, ◌++◌, ◌⊎◌, length, map, All, IsTrue, IfOk, IfErr, OnOk, IfSome, Ok, IsErrOf, []};
ghost use Rattle.std.specs.List.{list_all};
ghost use Rattle.ltl_spec.specs.Collections.Lists.{HasNoRepeats};
ghost use Rattle.ltl_spec.specs.Formulas.Names.{is_proposition, unified};
ghost use Rattle.ltl_spec.specs.Words.LassoText.{IsLeastForm};
ghost use Rattle.ltl_spec.specs.Words.LeastForm.{least_form};
ghost use Rattle.ltl_spec.specs.Checking.Bounds.{HasNamesBelow};
ghost use Rattle.ltl_spec.specs.Checking.Check.{product_size};
ghost use Rattle.ltl_spec.specs.Tools.Limits.{stated_limits};
ghost use Rattle.ltl_spec.specs.Tools.Programs.{RefusesCheck};
ghost use Rattle.ltl_spec.specs.Tools.Refusal.{TooManyPropositions, LargeProduct};
ghost use Rattle.ltl_spec.specs.Checking.Check.{Violated};
ghost use Rattle.ltl_check.specs.Levels.{IsFullWalk};
ghost use Rattle.ltl_check.specs.Explored.{sum_below};
ghost use Rattle.ltl_check.specs.Looks.{CoversReached, LooksAtCopies, LooksAtMost};
ghost use Rattle.ltl_check.specs.ProductView.{AreAllNames, AreUnified, pair_count, pair_at, edge_pairs, product_net};
ghost use Rattle.ltl_check.specs.VerdictView.{IsVerdictOn, IsBriefOn, IsNoLongerOn, verdict_of, letters_in, letters_of, level_pairs};
ghost use Rattle.ltl_word.specs.LassoView.{word_with};
ghost use Rattle.ltl_check.specs.declared.verdict.Outcome.TheVariants.{Contained};

use crate::accepting::{FIRST_SHRINKABLE, SHRINKING_LIMIT};
use crate::draft::Draft;
use crate::fault::CheckFault;
use crate::finding::find;
use crate::graph::Graph;
use crate::names::{all_names, numbers};
use crate::operand::Operand;
use crate::product::{Product, Steps};
use crate::shortest::{ONE_BASE_LIMIT, SHORTENING_LIMIT, shorten};
use crate::shrinking::Shrinking;
use crate::verdict::{Outcome, Verdict};
use crate::walk::{Taken, Walk};
use ltl_hoa::Marked;
use ltl_models::Ba;
use ltl_sets::PropositionSet;
use ltl_syntax::{Formula, PROPOSITION_LIMIT};
use ltl_word::Lasso;
use std::alloc::{AllocError, Allocator};

/// The largest number of states in a search. Their number is the number of pairs of states times the number of levels. There are two more levels than
/// the given automaton has acceptance sets.
pub const PRODUCT_LIMIT: usize = 16_777_216;

/// The letters of the steps. The steps are dropped.
fn letters<'a, A: Allocator>(
    alloc: &'a A,
    steps: Vec<Taken, &'a A>,
) -> Result<Vec<PropositionSet, &'a A>, AllocError>
    ensures { IfOk result (λ ls. ls.items ≡ letters_of steps.entry.items) }
{
    let mut letters = Vec::with_capacity(alloc, steps.len())?;
    let mut i = 0usize;
    'steps: while i < steps.len() {
        let step = steps[i];
        letters.push(step.letter)?;
        i += 1;
    }
    Ok(letters)
}

/// The word along the walk, in least form: in each letter the propositions are true that a step's letter has, by their numbers among `names`. The
/// walk is given up before the word is made.
pub fn word_of<'a, A: Allocator>(
    alloc: &'a A,
    names: &[&str],
    walk: Walk<'a, A>,
) -> Result<Lasso<'a, A>, AllocError>
    requires distinct { HasNoRepeats (map (λ n. n.now) names.now) }
    requires propositions { IsTrue (list_all is_proposition (map (λ n. n.now) names.now)) }
    requires few { length names.now ≤ stated_limits.propositions }
    requires within { All (All (λ i. i < length names.now)) (letters_of walk.stem.items ++ letters_of walk.cycle.items) }
    requires cycles { 0 < length (letters_of walk.cycle.items) }
    ensures { IfOk result (IsLeastForm (word_with (map (λ n. n.now) names.now) (letters_of walk.entry.stem.items) (letters_of walk.entry.cycle.items))) }
{
    let stem = letters(alloc, walk.stem)?;
    let cycle = letters(alloc, walk.cycle)?;
    let word = Lasso::new(alloc, names, stem.as_slice(), cycle.as_slice())?;
    word.least(alloc)
}

/// The first word, unless the second one has fewer letters.
fn shorter<'a, A: Allocator>(first: Lasso<'a, A>, second: Lasso<'a, A>) -> Lasso<'a, A>
    ensures one { (result ≡ first.entry) ⊎ (result ≡ second.entry) }
    ensures first { letters_in result ≤ letters_in first.entry }
    ensures second { letters_in result ≤ letters_in second.entry }
{
    if first.len() <= second.len() {
        first
    } else {
        second
    }
}

/// The word along the walk, in least form.
fn word_along<'p, 'a, F: Operand, A: Allocator>(
    alloc: &'a A,
    product: &'p Product<'p, 'a, F, A>,
    formula: &'p Formula<'a, A>,
    names: &'p [&'p str],
    walk: &Walk<'_, A>,
) -> Result<Lasso<'a, A>, AllocError>
    requires full { IsFullWalk (product_net (F.automaton_of product.now.first.now) product.now.second.now product.now.numbers.now)
        ((F.automaton_of product.now.first.now).sets + 1) walk.now.stem.items walk.now.cycle.items }
    requires named { HasNamesBelow (length formula.now.names) product.now.second.now }
    requires names { AreAllNames (F.automaton_of product.now.first.now).names formula.now.names (map (λ n. n.now) names.now) }
    requires numbers { AreUnified product.now.numbers.now (F.automaton_of product.now.first.now).names formula.now.names }
    ensures verdict { IfOk result (λ w. IsVerdictOn (F.automaton_of product.now.first.now) formula.now.names product.now.second.now (Violated w)) }
    ensures form { IfOk result (λ w. letters_in w ≤ letters_in (least_form (word_with (map (λ n. n.now) names.now)
        (letters_of walk.now.stem.items) (letters_of walk.now.cycle.items)))) }
{
    product.first.invariant();
    product.second.invariant();
    formula.invariant();
    let draft = Draft::along(alloc, walk)?;
    let old = Vec::from_slice(alloc, draft.letters.as_slice())?;
    let shrinking = Shrinking {
        first: product.first,
        ba: product.second,
        formula,
        names,
        old,
    };
    shrinking.least(alloc, &draft)
}

/// What is left of the word along the walk by shrinking, or that word if it is shorter; in least form.
fn shrunk_word<'p, 'a, F: Operand, A: Allocator>(
    alloc: &'a A,
    product: &'p Product<'p, 'a, F, A>,
    formula: &'p Formula<'a, A>,
    names: &'p [&'p str],
    walk: &Walk<'_, A>,
    looks: &mut Steps,
) -> Result<Lasso<'a, A>, AllocError>
    requires full { IsFullWalk (product_net (F.automaton_of product.now.first.now) product.now.second.now product.now.numbers.now)
        ((F.automaton_of product.now.first.now).sets + 1) walk.now.stem.items walk.now.cycle.items }
    requires named { HasNamesBelow (length formula.now.names) product.now.second.now }
    requires names { AreAllNames (F.automaton_of product.now.first.now).names formula.now.names (map (λ n. n.now) names.now) }
    requires numbers { AreUnified product.now.numbers.now (F.automaton_of product.now.first.now).names formula.now.names }
    requires few { looks.old.count ≤ SHRINKING_LIMIT }
    ensures verdict { IfOk result (λ w. IsVerdictOn (F.automaton_of product.now.first.now) formula.now.names product.now.second.now (Violated w)) }
    ensures short { IfOk result (λ w. letters_in w ≤ length walk.now.stem.items + length walk.now.cycle.items) }
    ensures form { IfOk result (λ w. letters_in w ≤ letters_in (least_form (word_with (map (λ n. n.now) names.now)
        (letters_of walk.now.stem.items) (letters_of walk.now.cycle.items)))) }
    ensures most { looks.new.count ≤ SHRINKING_LIMIT }
{
    product.first.invariant();
    product.second.invariant();
    formula.invariant();
    let mut draft = Draft::along(alloc, walk)?;
    let old = Vec::from_slice(alloc, draft.letters.as_slice())?;
    let shrinking = Shrinking {
        first: product.first,
        ba: product.second,
        formula,
        names,
        old,
    };
    let whole = shrinking.least(alloc, &draft)?;
    shrinking.shrink(alloc, &mut draft, looks)?;
    let most = shrinking.least(alloc, &draft)?.len();
    shrinking.take_out_all(alloc, &mut draft, most, looks)?;
    let shrunk = shrinking.least(alloc, &draft)?;
    Ok(shorter(shrunk, whole))
}

/// What is left of the word along the walk that was found by shrinking, if it is a short one, or that word; in least form.
fn first_word<'p, 'a, F: Operand, A: Allocator>(
    alloc: &'a A,
    product: &'p Product<'p, 'a, F, A>,
    formula: &'p Formula<'a, A>,
    names: &'p [&'p str],
    walk: &Walk<'_, A>,
    looks: &mut Steps,
) -> Result<Lasso<'a, A>, AllocError>
    requires full { IsFullWalk (product_net (F.automaton_of product.now.first.now) product.now.second.now product.now.numbers.now)
        ((F.automaton_of product.now.first.now).sets + 1) walk.now.stem.items walk.now.cycle.items }
    requires named { HasNamesBelow (length formula.now.names) product.now.second.now }
    requires names { AreAllNames (F.automaton_of product.now.first.now).names formula.now.names (map (λ n. n.now) names.now) }
    requires numbers { AreUnified product.now.numbers.now (F.automaton_of product.now.first.now).names formula.now.names }
    requires few { looks.old.count ≤ SHRINKING_LIMIT }
    ensures verdict { IfOk result (λ w. IsVerdictOn (F.automaton_of product.now.first.now) formula.now.names product.now.second.now (Violated w)) }
    ensures form { IfOk result (λ w. letters_in w ≤ letters_in (least_form (word_with (map (λ n. n.now) names.now)
        (letters_of walk.now.stem.items) (letters_of walk.now.cycle.items)))) }
    ensures most { looks.new.count ≤ SHRINKING_LIMIT }
{
    if walk.stem.len() + walk.cycle.len() > FIRST_SHRINKABLE {
        return word_along(alloc, product, formula, names, walk);
    }
    shrunk_word(alloc, product, formula, names, walk, looks)
}

/// The verdict with a shorter word in place of the one along the walk that was found, and the numbers of looks that this took. It has no number of steps.
fn violated<'a, F: Operand, A: Allocator>(
    alloc: &'a A,
    product: &Product<'_, 'a, F, A>,
    formula: &Formula<'a, A>,
    names: &[&str],
    found: Walk<'a, A>,
) -> Result<Verdict<'a, A>, CheckFault>
    requires full { IsFullWalk (product_net (F.automaton_of product.now.first.now) product.now.second.now product.now.numbers.now)
        ((F.automaton_of product.now.first.now).sets + 1) found.stem.items found.cycle.items }
    requires named { HasNamesBelow (length formula.now.names) product.now.second.now }
    requires names { AreAllNames (F.automaton_of product.now.first.now).names formula.now.names (map (λ n. n.now) names.now) }
    requires numbers { AreUnified product.now.numbers.now (F.automaton_of product.now.first.now).names formula.now.names }
    requires fits { pair_count (F.automaton_of product.now.first.now) product.now.second.now ≤ stated_limits.product }
    ensures verdict { IfOk result (λ v. IsVerdictOn (F.automaton_of product.now.first.now) formula.now.names product.now.second.now (verdict_of v.outcome)) }
    ensures short { IfOk result (λ v. IsNoLongerOn (F.automaton_of product.now.first.now) formula.now.names product.now.second.now v.found
        (verdict_of v.outcome)) }
    ensures most { IfOk result (λ v. IsBriefOn (F.automaton_of product.now.first.now) formula.now.names product.now.second.now
        SHORTENING_LIMIT ONE_BASE_LIMIT v.shortening (verdict_of v.outcome)
        × (v.shrinking ≤ SHRINKING_LIMIT)) }
    ensures word { IfOk result (λ v. v.outcome ≡ Contained → ⊥) }
    ensures memory { IfErr result (λ fault. fault ≡ CheckFault.OutOfMemory) }
{
    product.first.invariant();
    product.second.invariant();
    formula.invariant();
    let edges = found.stem.len() + found.cycle.len();
    let mut looks = Steps::new();
    let mut shrinking = Steps::new();
    let first = first_word(alloc, product, formula, names, &found, &mut shrinking)?;
    let walk = shorten(alloc, product, found, &mut looks)?;
    let shrunk = shrunk_word(alloc, product, formula, names, &walk, &mut shrinking)?;
    Ok(Verdict {
        outcome: Outcome::Violated(shorter(shrunk, first)),
        steps: 0,
        found: edges,
        shortening: looks.count,
        shrinking: shrinking.count,
    })
}

/// Searches the product, and shortens the word that it finds. The verdict has no number of steps. `names` are the propositions of both automata.
fn search_product<'a, F: Operand, A: Allocator>(
    alloc: &'a A,
    product: &Product<'_, 'a, F, A>,
    formula: &Formula<'a, A>,
    names: &[&str],
    steps: &mut Steps,
) -> Result<Verdict<'a, A>, CheckFault>
    requires named { HasNamesBelow (length formula.now.names) product.now.second.now }
    requires names { AreAllNames (F.automaton_of product.now.first.now).names formula.now.names (map (λ n. n.now) names.now) }
    requires numbers { AreUnified product.now.numbers.now (F.automaton_of product.now.first.now).names formula.now.names }
    requires fits { pair_count (F.automaton_of product.now.first.now) product.now.second.now * ((F.automaton_of product.now.first.now).sets + 1 + 1)
        ≤ stated_limits.product }
    ensures verdict { IfOk result (λ v. IsVerdictOn (F.automaton_of product.now.first.now) formula.now.names product.now.second.now (verdict_of v.outcome)) }
    ensures short { IfOk result (λ v. IsNoLongerOn (F.automaton_of product.now.first.now) formula.now.names product.now.second.now v.found
        (verdict_of v.outcome)) }
    ensures brief { IfOk result (λ v. IsBriefOn (F.automaton_of product.now.first.now) formula.now.names product.now.second.now
        SHORTENING_LIMIT ONE_BASE_LIMIT v.shortening (verdict_of v.outcome)
        × (v.shrinking ≤ SHRINKING_LIMIT)) }
    ensures most { LooksAtMost steps.old.count steps.new.count (2 * (((F.automaton_of product.now.first.now).sets + 1 + 1)
        * sum_below (λ n. edge_pairs (F.automaton_of product.now.first.now) product.now.second.now
        (pair_at (F.automaton_of product.now.first.now) product.now.second.now n))
        (pair_count (F.automaton_of product.now.first.now) product.now.second.now))) }
    ensures least { IfOk result (λ v. v.outcome ≡ Contained
        → LooksAtCopies (F.automaton_of product.now.first.now) formula.now.names product.now.second.now steps.old.count steps.new.count) }
    ensures memory { IfErr result (λ fault. fault ≡ CheckFault.OutOfMemory) }
{
    product.first.invariant();
    product.second.invariant();
    formula.invariant();
    match find(alloc, product, steps)? {
        Some(found) => violated(alloc, product, formula, names, found),
        None => Ok(Verdict {
            outcome: Outcome::Contained,
            steps: 0,
            found: 0,
            shortening: 0,
            shrinking: 0,
        }),
    }
}

/// The number of states in a search of the product.
fn product_states<'a, F: Operand, A: Allocator>(automaton: &F, ba: &Ba<'a, A>) -> usize
    ensures { result ≡ product_size (F.automaton_of automaton.now) [] ba.now }
{
    automaton.invariant();
    ba.invariant();
    automaton.len() * ba.len() * (automaton.sets() + 2)
}

/// Whether there is a word that both automata accept. The propositions of `ba` are those of the formula, by number. Propositions of both automata
/// with one name are the same; a proposition that an automaton doesn't list is free in it.
///
/// # Errors
///
/// There are more than [`PROPOSITION_LIMIT`] propositions together, the search has more than [`PRODUCT_LIMIT`] states, or memory is refused.
pub fn common_word<'a, F: Operand, A: Allocator>(
    alloc: &'a A,
    automaton: &F,
    ba: &Ba<'a, A>,
    formula: &Formula<'a, A>,
) -> Result<Verdict<'a, A>, CheckFault>
    requires { HasNamesBelow (length formula.now.names) ba.now }
    ensures verdict { IfOk result (λ v. IsVerdictOn (F.automaton_of automaton.now) formula.now.names ba.now (verdict_of v.outcome)) }

    // Each pair of edges is tried at most twice on each level. If there is no common word, each reachable pair is tried at least once. If fewer looks for a
    // shorter word were made than its first search may make, the word is a shortest one. It is never longer than the walk that was found.
    ensures most { IfOk result (λ v. v.steps ≤ 2 * level_pairs (F.automaton_of automaton.now) ba.now
        × IsBriefOn (F.automaton_of automaton.now) formula.now.names ba.now SHORTENING_LIMIT ONE_BASE_LIMIT v.shortening (verdict_of v.outcome)
        × (v.shrinking ≤ SHRINKING_LIMIT)) }
    ensures short { IfOk result (λ v. IsNoLongerOn (F.automaton_of automaton.now) formula.now.names ba.now v.found (verdict_of v.outcome)) }
    ensures least { IfOk result (λ v. v.outcome ≡ Contained → CoversReached (F.automaton_of automaton.now) formula.now.names ba.now v.steps) }

    // An error of a limit comes if and only if the limit is passed, in this order. Memory may be refused at any time.
    ensures few { OnOk result (length (unified (F.automaton_of automaton.now).names formula.now.names) ≤ stated_limits.propositions) }
    ensures fits { OnOk result (product_size (F.automaton_of automaton.now) formula.now.names ba.now ≤ stated_limits.product) }
    ensures many { IsErrOf result CheckFault.TooManyPropositions
        → RefusesCheck stated_limits (F.automaton_of automaton.now) formula.now.names ba.now TooManyPropositions }
    ensures large { IsErrOf result CheckFault.ProductTooLarge
        → RefusesCheck stated_limits (F.automaton_of automaton.now) formula.now.names ba.now LargeProduct }
{
    let names = all_names(alloc, automaton, formula)?;
    if names.len() > PROPOSITION_LIMIT {
        return Err(CheckFault::TooManyPropositions);
    }
    if product_states(automaton, ba) > PRODUCT_LIMIT {
        return Err(CheckFault::ProductTooLarge);
    }
    let numbers = numbers(alloc, names.as_slice(), formula)?;
    let product = Product::new(automaton, ba, numbers.as_slice());
    let mut steps = Steps::new();
    let mut verdict = search_product(alloc, &product, formula, names.as_slice(), &mut steps)?;
    verdict.steps = Product::<F, A>::looked(&steps);
    Ok(verdict)
}

/// `common_word` for an automaton that was read.
///
/// # Errors
///
/// Those of `common_word`.
pub fn check<'a, A: Allocator>(
    alloc: &'a A,
    automaton: &Marked<'a, A>,
    ba: &Ba<'a, A>,
    formula: &Formula<'a, A>,
) -> Result<Verdict<'a, A>, CheckFault>
    requires { HasNamesBelow (length formula.now.names) ba.now }
    ensures verdict { IfOk result (λ v. IsVerdictOn automaton.now formula.now.names ba.now (verdict_of v.outcome)) }

    // Each pair of edges is tried at most twice on each level. If there is no common word, each reachable pair is tried at least once. If fewer looks for a
    // shorter word were made than its first search may make, the word is a shortest one. It is never longer than the walk that was found.
    ensures most { IfOk result (λ v. v.steps ≤ 2 * level_pairs automaton.now ba.now
        × IsBriefOn automaton.now formula.now.names ba.now SHORTENING_LIMIT ONE_BASE_LIMIT v.shortening (verdict_of v.outcome)
        × (v.shrinking ≤ SHRINKING_LIMIT)) }
    ensures short { IfOk result (λ v. IsNoLongerOn automaton.now formula.now.names ba.now v.found (verdict_of v.outcome)) }
    ensures least { IfOk result (λ v. v.outcome ≡ Contained → CoversReached automaton.now formula.now.names ba.now v.steps) }

    // An error of a limit comes if and only if the limit is passed, in this order. Memory may be refused at any time.
    ensures few { OnOk result (length (unified automaton.now.names formula.now.names) ≤ stated_limits.propositions) }
    ensures fits { OnOk result (product_size automaton.now formula.now.names ba.now ≤ stated_limits.product) }
    ensures many { IsErrOf result CheckFault.TooManyPropositions → RefusesCheck stated_limits automaton.now formula.now.names ba.now TooManyPropositions }
    ensures large { IsErrOf result CheckFault.ProductTooLarge → RefusesCheck stated_limits automaton.now formula.now.names ba.now LargeProduct }
{
    common_word(alloc, automaton, ba, formula)
}
