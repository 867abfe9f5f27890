//! Tests of the calls of the libraries with each allocation refused in turn.

ghost use Rattle.std.specs.Prelude.{◌<◌, length, IfSome};
ghost use Rattle.ltl_spec.specs.Checking.Bounds.{HasNamesBelow};

use crate::digest::{
    Digest, of_ba, of_claim, of_formula, of_gba, of_gen, of_marked, of_names, of_pairs, of_table,
    of_text, of_verdict, of_walk, of_word,
};
use crate::inputs::{CASES, Case};
use ltl_alt::{AltFault, Gba, Reach, pairs};
use ltl_buchi::{Ba, BaFault, Options, generalized, levels, merge, merge_ba, renumber, translate};
use ltl_check::{CheckFault, Graph, PRODUCT_LIMIT, Product, Steps, check, find};
use ltl_claim::{Claim, ClaimFault, claim_read};
use ltl_claim_hoa::claim_hoa;
use ltl_formula::{BuildFault, Table};
use ltl_hoa::{HoaFault, Marked, hoa_names, hoa_read};
use ltl_pictures::{TimelineFault, timeline_to};
use ltl_sets::RowSet;
use ltl_streams::WriterSink;
use ltl_syntax::{Formula, ReadFault, read};
use ltl_word::{Lasso, WordFault, holds};
use refusing::Refusing;
use std::alloc::Global;

/// More allocations than any case makes.
const MOST_GROWTHS: u64 = 100_000;

/// The value of a call. If an allocation of the call is refused, the call has to answer that memory was refused, and to leave its input unchanged;
/// then it is made again. If none is refused, the call has to answer a value.
macro_rules! made {
    ($alloc:ident, $input:expr, $memory:pat, $call:expr) => {{
        let was_refused = $alloc.has_refused();
        let before = $input;
        let first = $call;
        let is_refused = $alloc.has_refused() && !was_refused;
        match first {
            Ok(value) => {
                if is_refused {
                    return None;
                }
                value
            }
            Err(fault) => {
                if !is_refused || $input != before || !matches!(fault, $memory) {
                    return None;
                }
                let Ok(value) = $call else {
                    return None;
                };
                value
            }
        }
    }};
}

/// The digest of the value of a call.
macro_rules! digest {
    ($of:ident, $alloc:ident, $input:expr, $memory:pat, $call:expr) => {{
        let found = made!($alloc, $input, $memory, $call);
        Some($of(&found))
    }};
}

type Memory = Refusing<Global>;

const OPTIONS: Options = Options {
    keep_implied: false,
    keep_equal: false,
};

// A function holds at most one value of a call, since proofs of what is dropped on which path are expensive.

fn numbered<'a>(alloc: &'a Memory, ba: &Ba<'a, Memory>) -> Option<Digest> {
    digest!(
        of_ba,
        alloc,
        of_ba(ba),
        BaFault::OutOfMemory,
        renumber(alloc, ba)
    )
}

/// The digest of the quotient of a degeneralized automaton, and of what is made of it.
fn merged_again<'a>(alloc: &'a Memory, ba: &Ba<'a, Memory>) -> Option<Digest> {
    let merged = made!(
        alloc,
        of_ba(ba),
        BaFault::OutOfMemory,
        merge_ba(alloc, ba, &OPTIONS)
    );
    Some(of_ba(&merged).with(numbered(alloc, &merged)?))
}

/// The digest of the degeneralized automaton, and of what is made of it.
fn copied<'a>(alloc: &'a Memory, gba: &Gba<'a, Memory>) -> Option<Digest> {
    let ba = made!(alloc, of_gba(gba), BaFault::OutOfMemory, levels(alloc, gba));
    Some(of_ba(&ba).with(merged_again(alloc, &ba)?))
}

/// The digest of the quotient of a generalized automaton, and of what is made of it.
fn merged<'a>(alloc: &'a Memory, gba: &Gba<'a, Memory>) -> Option<Digest> {
    let merged = made!(
        alloc,
        of_gba(gba),
        BaFault::OutOfMemory,
        merge(alloc, gba, &OPTIONS)
    );
    Some(of_gba(&merged).with(copied(alloc, &merged)?))
}

/// The digest of the generalized automaton of a table, and of what is made of it.
fn reached<'a>(alloc: &'a Memory, table: &Table<'a, Memory>) -> Option<Digest> {
    let gba = made!(
        alloc,
        of_table(table),
        AltFault::OutOfMemory,
        Gba::reach(alloc, table, false)
    );
    Some(of_gba(&gba).with(merged(alloc, &gba)?))
}

fn translated(alloc: &Memory, table: &Table<'_, Memory>) -> Option<Digest> {
    digest!(
        of_ba,
        alloc,
        of_table(table),
        BaFault::OutOfMemory,
        translate(alloc, table, &OPTIONS)
    )
}

fn generalized_of(alloc: &Memory, table: &Table<'_, Memory>) -> Option<Digest> {
    digest!(
        of_gen,
        alloc,
        of_table(table),
        BaFault::OutOfMemory,
        generalized(alloc, table, &OPTIONS)
    )
}

fn pairs_of(alloc: &Memory, table: &Table<'_, Memory>, row: usize) -> Option<Digest>
    requires { row < length table.now.rows }
{
    digest!(
        of_pairs,
        alloc,
        of_table(table),
        _,
        pairs(alloc, table, row)
    )
}

/// The digest of a formula's table, or of that of its negation, and of what is made of it.
fn tabled<'a>(alloc: &'a Memory, formula: &Formula<'a, Memory>, negate: bool) -> Option<Digest> {
    let table = made!(
        alloc,
        of_formula(formula),
        BuildFault::OutOfMemory,
        Table::build(alloc, formula, negate, true)
    );
    let mut digest = of_table(&table);
    for row in 0..table.len() {
        digest = digest.with(pairs_of(alloc, &table, row)?);
    }
    digest = digest.with(reached(alloc, &table)?);
    digest = digest.with(translated(alloc, &table)?);
    Some(digest.with(generalized_of(alloc, &table)?))
}

fn least<'a>(alloc: &'a Memory, word: &Lasso<'a, Memory>) -> Option<Digest> {
    digest!(of_word, alloc, of_word(word), _, word.least(alloc))
}

fn truth<'a>(
    alloc: &'a Memory,
    formula: &Formula<'a, Memory>,
    word: &Lasso<'a, Memory>,
) -> Option<bool> {
    Some(made!(
        alloc,
        of_formula(formula).with(of_word(word)),
        _,
        holds(alloc, formula, word)
    ))
}

fn timeline<'a>(
    alloc: &'a Memory,
    formula: &Formula<'a, Memory>,
    word: &Lasso<'a, Memory>,
) -> Option<Digest> {
    let mut digest = Digest::new();
    made!(
        alloc,
        of_formula(formula).with(of_word(word)),
        TimelineFault::OutOfMemory,
        timeline_to(alloc, formula, word, &mut WriterSink::new(&mut digest))
    );
    Some(digest)
}

fn implication<'a>(alloc: &'a Memory, formula: &Formula<'a, Memory>) -> Option<Digest> {
    digest!(
        of_formula,
        alloc,
        of_formula(formula),
        ReadFault::OutOfMemory,
        formula.implies(alloc, formula)
    )
}

fn equivalence<'a>(alloc: &'a Memory, formula: &Formula<'a, Memory>) -> Option<Digest> {
    digest!(
        of_formula,
        alloc,
        of_formula(formula),
        ReadFault::OutOfMemory,
        formula.iff(alloc, formula)
    )
}

fn word_of_numbers(alloc: &Memory) -> Option<Digest> {
    let cycle = [RowSet::single(1), RowSet::empty()];
    digest!(
        of_word,
        alloc,
        Digest::new(),
        _,
        Lasso::new(alloc, &["q", "p"], &[], &cycle)
    )
}

/// The digest of the words, of the formula's truth on one of them, and of the truth of its subformulas at each position.
fn words<'a>(alloc: &'a Memory, formula: &Formula<'a, Memory>, text: &str) -> Option<Digest> {
    let word = made!(
        alloc,
        of_formula(formula),
        WordFault::OutOfMemory,
        Lasso::read(alloc, text.as_bytes(), formula)
    );
    let mut digest = of_word(&word).with(least(alloc, &word)?);
    digest.take(truth(alloc, formula, &word)? as usize);
    digest = digest.with(timeline(alloc, formula, &word)?);
    digest = digest.with(implication(alloc, formula)?);
    digest = digest.with(equivalence(alloc, formula)?);
    Some(digest.with(word_of_numbers(alloc)?))
}

/// A formula, and the automaton of the words that violate it.
fn violations<'a>(alloc: &'a Memory, text: &str) -> Option<(Formula<'a, Memory>, Ba<'a, Memory>)>
    ensures { IfSome result (λ r. HasNamesBelow (length r.0.names) r.1) }
{
    let Ok(formula) = read(alloc, text.as_bytes()) else {
        return None;
    };
    let Ok(table) = Table::build(alloc, &formula, true, true) else {
        return None;
    };
    let Ok(automaton) = translate(alloc, &table, &OPTIONS) else {
        return None;
    };
    Some((formula, automaton))
}

fn checked<'a>(
    alloc: &'a Memory,
    automaton: &Marked<'a, Memory>,
    ba: &Ba<'a, Memory>,
    formula: &Formula<'a, Memory>,
) -> Option<Digest>
    requires { HasNamesBelow (length formula.now.names) ba.now }
{
    digest!(
        of_verdict,
        alloc,
        of_marked(automaton)
            .with(of_ba(ba))
            .with(of_formula(formula)),
        CheckFault::OutOfMemory,
        check(alloc, automaton, ba, formula)
    )
}

/// The digest of a search of the product, in which each proposition of the formula has a number of its own.
fn walked<'a>(
    alloc: &'a Memory,
    automaton: &Marked<'a, Memory>,
    ba: &Ba<'a, Memory>,
    formula: &Formula<'a, Memory>,
) -> Option<Digest>
    requires { HasNamesBelow (length formula.now.names) ba.now }
{
    let numbers = [0usize, 1, 2, 3, 4, 5, 6, 7];
    if formula.name_count() > numbers.len() {
        return None;
    }
    let product = Product::new(automaton, ba, &numbers[..formula.name_count()]);
    let levels = product.sets().saturating_add(1);
    if product.count().saturating_mul(levels) > PRODUCT_LIMIT {
        return None;
    }
    let mut steps = Steps::new();
    digest!(
        of_walk,
        alloc,
        of_marked(automaton).with(of_ba(ba)),
        CheckFault::OutOfMemory,
        find(alloc, &product, &mut steps)
    )
}

/// The digest of a check, whose inputs use an allocator that refuses nothing.
fn checks<'a>(alloc: &'a Memory, calm: &'a Memory, case: &Case<'_>) -> Option<Digest> {
    let (formula, ba) = violations(calm, case.formula)?;
    let Ok(automaton) = hoa_read(calm, &mut case.automaton.as_bytes()) else {
        return None;
    };
    let digest = checked(alloc, &automaton, &ba, &formula)?;
    Some(digest.with(walked(alloc, &automaton, &ba, &formula)?))
}

/// The digest of the names in the text of an automaton.
fn names(alloc: &Memory, text: &str) -> Option<Digest> {
    if text.len() > 65_536 {
        return None;
    }
    digest!(
        of_names,
        alloc,
        Digest::new(),
        _,
        hoa_names(alloc, text.as_bytes(), 3)
    )
}

fn automaton(alloc: &Memory, text: &str) -> Option<Digest> {
    digest!(
        of_marked,
        alloc,
        Digest::new(),
        HoaFault::OutOfMemory,
        hoa_read(alloc, &mut text.as_bytes())
    )
}

fn claim_text(alloc: &Memory, claim: &Claim<'_, Memory>) -> Option<Digest> {
    digest!(of_text, alloc, of_claim(claim), _, claim_hoa(alloc, claim))
}

/// The digest of a claim that is read, and of the text of its automaton.
fn claimed<'a>(alloc: &'a Memory, text: &str) -> Option<Digest> {
    let claim = made!(
        alloc,
        Digest::new(),
        ClaimFault::OutOfMemory,
        claim_read(alloc, &mut text.as_bytes())
    );
    Some(of_claim(&claim).with(claim_text(alloc, &claim)?))
}

/// The digest of all that is made of a case, or `None` if a call answers wrongly. `calm` refuses no allocation.
fn all_of<'a>(alloc: &'a Memory, calm: &'a Memory, case: &Case<'_>) -> Option<Digest> {
    let formula = made!(
        alloc,
        Digest::new(),
        ReadFault::OutOfMemory,
        read(alloc, case.formula.as_bytes())
    );
    let mut digest = of_formula(&formula).with(words(alloc, &formula, case.word)?);
    for negate in [false, true] {
        digest = digest.with(tabled(alloc, &formula, negate)?);
    }
    digest = digest.with(automaton(alloc, case.automaton)?);
    digest = digest.with(names(alloc, case.automaton)?);
    digest = digest.with(claimed(alloc, case.claim)?);
    Some(digest.with(checks(alloc, calm, case)?))
}

/// The outcome of refusing each allocation of a case.
fn told(memory: Global, case: &Case<'_>) -> &'static str {
    let calm = Refusing::new(memory, u64::MAX);
    let Some(wanted) = all_of(&calm, &calm, case) else {
        return "a call fails with memory";
    };
    for n in 1..MOST_GROWTHS {
        let alloc = Refusing::new(memory, n);
        match all_of(&alloc, &calm, case) {
            None =>
                return "a refused growth is answered otherwise than by want of memory, or leaves something changed",
            Some(found) => {
                if found != wanted {
                    return "behind a refused growth something else is made";
                }
            }
        }
        if !alloc.has_refused() {
            return "each growth refused, each call made again";
        }
    }
    "more growths than were refused"
}

#[test]
fn each_growth_of_the_calls(rt: HostRuntime) {
    for case in CASES {
        let (formula, told) = (case.formula, told(rt.alloc(), &case));
        assert_eq!(rt;
            told,
            "each growth refused, each call made again",
            "{formula}"
        );
    }
}
