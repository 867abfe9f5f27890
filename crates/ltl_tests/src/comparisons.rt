//! Tests of the comparison of two formulas: which of them imply each other, and words that `holds` judges.

use ltl_compare::{CompareFault, compare};
use ltl_syntax::{Formula, read};
use ltl_word::{Lasso, holds};
use std::alloc::Global;
use std::fmt::InlineText;

/// Whether there is a word, and each word there is satisfies the first formula and violates the second one.
fn separates(
    alloc: &Global,
    word: &Option<Lasso<'_, Global>>,
    first: &Formula<'_, Global>,
    second: &Formula<'_, Global>,
) -> Option<bool> {
    match word {
        None => Some(false),
        Some(word) => match (holds(alloc, first, word), holds(alloc, second, word)) {
            (Ok(true), Ok(false)) => Some(true),
            _ => None,
        },
    }
}

/// Whether the first formula alone is satisfied by some word, and whether the second one alone is. `None` stands for a refusal and for a wrong word.
fn apart(alloc: &Global, first: &str, second: &str) -> Option<(bool, bool)> {
    let Ok(first) = read(alloc, first.as_bytes()) else {
        return None;
    };
    let Ok(second) = read(alloc, second.as_bytes()) else {
        return None;
    };
    let Ok(comparison) = compare(alloc, &first, &second) else {
        return None;
    };
    let forth = separates(alloc, &comparison.first_only, &first, &second)?;
    let back = separates(alloc, &comparison.second_only, &second, &first)?;
    Some((forth, back))
}

#[test]
fn equivalent_formulas(rt: HostRuntime) {
    let alloc = rt.alloc();
    assert_eq!(rt;
        apart(&alloc, "<>(p || q)", "<>p || <>q"),
        Some((false, false))
    );
    assert_eq!(rt; apart(&alloc, "!(p U q)", "!p V !q"), Some((false, false)));
    assert_eq!(rt; apart(&alloc, "p && !p", "false"), Some((false, false)));
    assert_eq!(rt; apart(&alloc, "a || !a", "b || !b"), Some((false, false)));
}

#[test]
fn one_direction_alone(rt: HostRuntime) {
    let alloc = rt.alloc();
    assert_eq!(rt; apart(&alloc, "<>[]p", "[]<>p"), Some((false, true)));
    assert_eq!(rt; apart(&alloc, "[]<>p", "<>[]p"), Some((true, false)));
    assert_eq!(rt; apart(&alloc, "p U q", "<>q"), Some((false, true)));
    assert_eq!(rt; apart(&alloc, "true", "p"), Some((true, false)));
    assert_eq!(rt; apart(&alloc, "false", "p"), Some((false, true)));
}

/// The numbers of the names differ in both formulas.
#[test]
fn names_in_another_order(rt: HostRuntime) {
    let alloc = rt.alloc();
    assert_eq!(rt; apart(&alloc, "p && q", "q && p"), Some((false, false)));
    assert_eq!(rt; apart(&alloc, "p U q", "q U p"), Some((true, true)));
    assert_eq!(rt; apart(&alloc, "p", "q"), Some((true, true)));
    assert_eq!(rt; apart(&alloc, "p && q", "q"), Some((false, true)));
}

/// There are one state for `true` and one for the negation of `false`, and one edge of each. So the first search looks at one pair of edges, twice at
/// most on each of three levels; the second search has no pair.
#[test]
fn looks_are_counted(rt: HostRuntime) {
    let alloc = rt.alloc();
    let first = read(&alloc, b"true").expect(&rt, "a formula");
    let second = read(&alloc, b"false").expect(&rt, "a formula");
    let comparison = compare(&alloc, &first, &second).expect(&rt, "a comparison");
    assert!(rt; 0 < comparison.steps && comparison.steps <= 6);
}

/// The `Display` texts are those of the refusals with these meanings.
#[test]
fn texts_of_faults(rt: HostRuntime) {
    let texts = [
        (CompareFault::TooManyRows, "limit: more than 4096 rows"),
        (
            CompareFault::TooManyElementaryRows,
            "limit: more than 256 elementary rows",
        ),
        (CompareFault::TooLarge, "limit: automaton too large"),
        (
            CompareFault::TooManyPropositions,
            "limit: more than 256 propositions",
        ),
        (CompareFault::ProductTooLarge, "limit: product too large"),
        (CompareFault::OutOfMemory, "out of memory"),
    ];
    for (fault, text) in texts {
        let shown: InlineText<64> = InlineText::of(fault);
        assert_eq!(rt; shown.as_str(), text);
    }
}
