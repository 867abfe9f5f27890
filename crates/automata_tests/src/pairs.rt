//! Tests of the pairs of rows.

use ltl_alt::{Pair, pairs};
use ltl_formula::Table;
use ltl_sets::{Cube, RowSet};
use ltl_syntax::read;
use std::alloc::Global;
use std::process::Abort;

/// Whether these are the pairs of the root of a formula.
fn has_pairs(rt: &impl Abort, alloc: &Global, text: &str, wanted: &[Pair]) -> bool {
    let formula = read(alloc, text.as_bytes()).expect(rt, "a formula");
    let table = Table::build(alloc, &formula, false, false).expect(rt, "a table");
    let found = pairs(alloc, &table, table.root()).expect(rt, "memory");
    found.as_slice() == wanted
}

#[test]
fn pairs_of_a_contradiction(rt: HostRuntime) {
    let alloc = rt.alloc();
    assert!(rt; has_pairs(&rt, &alloc, "p && !p", &[]));
}

#[test]
fn pairs_of_a_release(rt: HostRuntime) {
    let alloc = rt.alloc();
    let left = Cube::literal(0, true);
    let right = Cube::literal(1, true);
    let released = Pair {
        cube: left.join(&right).expect(&rt, "no contradiction"),
        targets: RowSet::empty(),
    };
    let put_off = Pair {
        cube: right,
        targets: RowSet::single(2),
    };
    assert!(rt; has_pairs(&rt, &alloc, "p V q", &[released, put_off]));
    assert!(rt; !has_pairs(&rt, &alloc, "p V q", &[released]));
}
