//! Tests of formulas made of two formulas: their texts, their names, and the limit on names.

use ltl_syntax::{Formula, ReadFault, read};
use std::alloc::Global;
use std::process::Abort;

/// Texts of two formulas, and those of the implication and of the equivalence.
const COMBINED: [(&str, &str, &str, &str); 5] = [
    ("p", "p", "(p -> p)", "(p <-> p)"),
    ("q", "p", "(q -> p)", "(q <-> p)"),
    (
        "p U q",
        "X q && []p",
        "((p U q) -> (X q && []p))",
        "((p U q) <-> (X q && []p))",
    ),
    (
        "!(b -> <>a)",
        "c || (a <-> b)",
        "(!(b -> <>a) -> (c || (a <-> b)))",
        "(!(b -> <>a) <-> (c || (a <-> b)))",
    ),
    (
        "true",
        "p V (r V false)",
        "(true -> (p V (r V false)))",
        "(true <-> (p V (r V false)))",
    ),
];

fn formula<'a, R: Abort>(rt: &R, alloc: &'a Global, text: &str) -> Formula<'a, Global> {
    read(alloc, text.as_bytes()).expect(rt, "a formula")
}

#[test]
fn texts(rt: HostRuntime) {
    let alloc = rt.alloc();
    for (first, second, implication, equivalence) in COMBINED {
        let first = formula(&rt, &alloc, first);
        let second = formula(&rt, &alloc, second);
        let implies = first.implies(&alloc, &second).expect(&rt, "memory");
        assert_eq!(rt; implies.text(), implication.as_bytes());
        let iff = first.iff(&alloc, &second).expect(&rt, "memory");
        assert_eq!(rt; iff.text(), equivalence.as_bytes());
    }
}

#[test]
fn names(rt: HostRuntime) {
    let alloc = rt.alloc();
    let first = formula(&rt, &alloc, "b U a");
    let second = formula(&rt, &alloc, "c && a && d");
    let implies = first.implies(&alloc, &second).expect(&rt, "memory");
    assert_eq!(rt; implies.name_count(), 4);
    for (number, name) in ["b", "a", "c", "d"].iter().enumerate() {
        assert!(rt; number < implies.name_count());
        assert_eq!(rt; implies.name(number), *name);
    }
}

/// So many propositions from this number on, with ` && ` before each.
fn conjunction(alloc: Global, begin: usize, count: usize) -> Vec<u8> {
    let mut text = Vec::new(alloc);
    for k in begin..begin.saturating_add(count) {
        let digits = [
            b'x',
            b'0' + (k / 100 % 10) as u8,
            b'0' + (k / 10 % 10) as u8,
            b'0' + (k % 10) as u8,
        ];
        if text.extend_from_slice(b" && ").is_err() || text.extend_from_slice(&digits).is_err() {
            return text;
        }
    }
    text
}

/// Both formulas may have 256 different propositions together.
#[test]
fn most_names(rt: HostRuntime) {
    let alloc = rt.alloc();
    let text = conjunction(alloc, 0, 200);
    assert!(rt; 4 <= text.len());
    let first = read(&alloc, &text[4..]).expect(&rt, "a formula");
    let text = conjunction(alloc, 150, 106);
    assert!(rt; 4 <= text.len());
    let second = read(&alloc, &text[4..]).expect(&rt, "a formula");
    let whole = first.iff(&alloc, &second).expect(&rt, "a formula");
    assert_eq!(rt; whole.name_count(), 256);
    let text = conjunction(alloc, 150, 107);
    assert!(rt; 4 <= text.len());
    let third = read(&alloc, &text[4..]).expect(&rt, "a formula");
    assert!(rt;
        matches!(
            first.implies(&alloc, &third),
            Err(ReadFault::TooManyPropositions)
        )
    );
    assert!(rt;
        matches!(
            third.iff(&alloc, &first),
            Err(ReadFault::TooManyPropositions)
        )
    );
}
