//! Tests of the number of looks in a check, and of the product of a generalized automaton.

ghost use Rattle.std.specs.Prelude.{length, IfOk};
ghost use Rattle.ltl_spec.specs.Checking.Bounds.{HasNamesBelow};

use ltl_alt::{Gba, Reach};
use ltl_buchi::{Ba, Options, translate};
use ltl_check::{NamedGba, Outcome, check, common_word};
use ltl_cli::Refusal;
use ltl_formula::Table;
use ltl_hoa::hoa_read;
use ltl_syntax::{Formula, read};
use ltl_word::holds;
use std::alloc::Global;

/// An automaton whose only word has `p` at each second position, from the first on.
const ALTERNATING: &str =
    "HOA: v1\nStates: 2\nStart: 0\nAP: 1 \"p\"\nAcceptance: 1 Inf(0)\n--BODY--\nState: 0 {0}\n[0] 1\nState: 1\n[!0] 0\n--END--\n";

/// A formula, and the automaton of its negation.
fn violations<'a>(
    alloc: &'a Global,
    text: &str,
) -> Result<(Formula<'a, Global>, Ba<'a, Global>), Refusal>
    ensures { IfOk result (λ r. HasNamesBelow (length r.0.names) r.1) }
{
    let formula = read(alloc, text.as_bytes())?;
    let table = Table::build(alloc, &formula, true, true)?;
    let options = Options {
        keep_implied: false,
        keep_equal: false,
    };
    let automaton = translate(alloc, &table, &options)?;
    Ok((formula, automaton))
}

/// There are two states and one acceptance set, and so three levels. Each pair of edges is looked at twice at most on each of them.
#[test]
fn looks_within_the_bound(rt: HostRuntime) {
    let alloc = rt.alloc();
    let (formula, automaton) = violations(&alloc, "[]p").expect(&rt, "an automaton");
    let given = hoa_read(&alloc, &mut ALTERNATING.as_bytes()).expect(&rt, "an automaton");
    let verdict = check(&alloc, &given, &automaton, &formula).expect(&rt, "a verdict");
    let mut edges = 0u128;
    for i in 0..automaton.len() {
        edges = edges.saturating_add(automaton.edges(i).len() as u128);
    }
    assert_eq!(rt; edges, 3);
    assert!(rt; 0 < verdict.steps() && verdict.steps() <= 2 * 2 * edges * 3);
    let is_violated = match verdict.outcome() {
        Outcome::Violated(_) => true,
        Outcome::Contained => false,
    };
    assert!(rt; is_violated);
}

/// A formula, and its generalized automaton.
fn generalized_models<'a>(
    alloc: &'a Global,
    text: &str,
) -> Result<(Formula<'a, Global>, Gba<'a, Global>), Refusal>
    ensures { IfOk result (λ r. HasNamesBelow (length r.0.names) r.1) }
{
    let formula = read(alloc, text.as_bytes())?;
    let table = Table::build(alloc, &formula, false, true)?;
    let automaton = Gba::reach(alloc, &table, false)?;
    Ok((formula, automaton))
}

/// An automaton with an acceptance set for each of two conjuncts accepts a word that fulfils both, but not at once; and none that fulfils only one.
#[test]
fn generalized_automata_in_products(rt: HostRuntime) {
    let alloc = rt.alloc();
    let (fair, automaton) = generalized_models(&alloc, "[]<>p && []<>q").expect(
        &rt,
        "an automaton",
    );
    assert_eq!(rt; automaton.sets(), 2);
    let named = NamedGba::new(&automaton, &fair);
    let (joint, apart) = violations(&alloc, "[]<>(q && p)").expect(&rt, "an automaton");
    let verdict = common_word(&alloc, &named, &apart, &joint).expect(&rt, "a verdict");
    let Outcome::Violated(word) = verdict.outcome() else {
        panic!(rt; "a word");
    };
    assert!(rt; holds(&alloc, &fair, word).expect(&rt, "memory"));
    assert!(rt; !holds(&alloc, &joint, word).expect(&rt, "memory"));
    let (single, never) = violations(&alloc, "[]<>q || r").expect(&rt, "an automaton");
    let verdict = common_word(&alloc, &named, &never, &single).expect(&rt, "a verdict");
    assert!(rt; matches!(verdict.outcome(), Outcome::Contained));
}
