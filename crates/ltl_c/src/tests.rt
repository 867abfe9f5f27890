//! Tests: each call from C at least once.

use crate::automaton::ltl2ba_automaton;
use crate::checking::{Found, ltlcheck_verdict};
use crate::claim::ltlclaim_hoa;
use crate::claim_code::no_claim_refusal;
use crate::claim_message::ltlclaim_message;
use crate::comparison::{Compared, ltlcompare_verdict};
use crate::evaluation::ltleval_holds;
use crate::message::ltl2ba_message;
use crate::names::ltl2ba_names;
use crate::picture::ltldraw_dot;
use crate::reduction::ltlreduce_hoa;
use crate::refusal_code::{RefusalCode, no_refusal};
use crate::rows::{Counts, EdgeRow, NameRow, StateRow};
use crate::text::ltl2ba_text;
use crate::text_options::TextOptions;
use std::alloc::Global;

fn options(layout: u32) -> TextOptions {
    TextOptions {
        no_rewrite: false,
        keep_implied: false,
        keep_equal: false,
        layout,
    }
}

const HOA: &str =
    "HOA: v1\nname: \"[]<>p\"\nStates: 2\nStart: 0\nAP: 1 \"p\"\nacc-name: Buchi\nAcceptance: 1 Inf(0)\nproperties: trans-labels explicit-labels state-acc\n--BODY--\nState: 0\n[t] 0\n[0] 1\nState: 1 {0}\n[t] 0\n[0] 1\n--END--\n";

#[test]
fn text_of_a_formula(rt: HostRuntime) {
    let mut buffer = [0u8; 1000];
    let mut count = 0;
    let mut refusal = no_refusal();
    let status = ltl2ba_text(
        rt.alloc(),
        b"[]<>p",
        &options(1),
        &mut buffer,
        &mut count,
        &mut refusal,
    );
    assert_eq!(rt; status, 0);
    assert!(rt; &buffer[..count] == HOA.as_bytes());
    let mut small = [0u8; 100];
    let short = ltl2ba_text(
        rt.alloc(),
        b"[]<>p",
        &options(1),
        &mut small,
        &mut count,
        &mut refusal,
    );
    assert_eq!(rt; short, 6);
    assert_eq!(rt; count, HOA.len());
}

#[test]
fn truth_of_a_formula(rt: HostRuntime) {
    let mut truth = false;
    let mut refusal = no_refusal();
    let status = ltleval_holds(
        rt.alloc(),
        b"[]<>p",
        b"cycle {p}; {}",
        &mut truth,
        &mut refusal,
    );
    assert_eq!(rt; (status, truth), (0, true));
    let refused = ltleval_holds(
        rt.alloc(),
        b"[]<>",
        b"cycle {p}; {}",
        &mut truth,
        &mut refusal,
    );
    assert_eq!(rt; (refused, truth), (3, false));
    let mut buffer = [0u8; 100];
    let mut count = 0;
    assert_eq!(rt; ltl2ba_message(2, &refusal, &mut buffer, &mut count), 0);
    assert!(rt; &buffer[..count] == b"ltleval: formula: byte 4: expected operand\n".as_slice());
}

#[test]
fn verdict_on_an_automaton(rt: HostRuntime) {
    let mut buffer = [0u8; 100];
    let mut found = Found {
        count: 0,
        contained: false,
    };
    let mut refusal = RefusalCode {
        kind: 9,
        fault: 9,
        place: 9,
    };
    let status = ltlcheck_verdict(
        rt.alloc(),
        b"<>[]p",
        HOA.as_bytes(),
        &mut buffer,
        &mut found,
        &mut refusal,
    );
    assert_eq!(rt; (status, found.contained), (1, false));
    let mut truth = false;
    let breaks = ltleval_holds(
        rt.alloc(),
        b"[]<>p && !<>[]p",
        &buffer[..found.count],
        &mut truth,
        &mut refusal,
    );
    assert_eq!(rt; (breaks, truth), (0, true));
    let contained = ltlcheck_verdict(
        rt.alloc(),
        b"<>p",
        HOA.as_bytes(),
        &mut buffer,
        &mut found,
        &mut refusal,
    );
    assert_eq!(rt; (contained, found.contained, found.count), (0, true, 0));
    assert_eq!(rt; (refusal.kind, refusal.fault, refusal.place), (0, 0, 0));
}

#[test]
fn names_of_a_formula(rt: HostRuntime) {
    let mut buffer = [0u8; 100];
    let mut count = 0;
    let mut refusal = no_refusal();
    let status = ltl2ba_names(
        rt.alloc(),
        b"q U (p && q)",
        &mut buffer,
        &mut count,
        &mut refusal,
    );
    assert_eq!(rt; status, 0);
    assert!(rt; &buffer[..count] == b"q\0p\0".as_slice());
}

#[test]
fn automaton_of_a_formula(rt: HostRuntime) {
    let mut states = [StateRow {
        first_edge: 9,
        accepting: true,
    }; 3];
    let mut edges = [EdgeRow {
        asked_true: [0; 4],
        asked_false: [0; 4],
        sets: [9; 4],
        target: 9,
    }; 5];
    let mut names = [NameRow {
        offset: 9,
        count: 9,
    }; 2];
    let mut counts = Counts {
        states: 9,
        edges: 9,
        names: 9,
        sets: 9,
        refusal: no_refusal(),
    };
    let status = ltl2ba_automaton(
        rt.alloc(),
        b"[]<>p",
        &options(1),
        &mut states,
        &mut edges,
        &mut names,
        &mut counts,
    );
    assert_eq!(rt; status, 0);
    assert_eq!(rt;
        (counts.states, counts.edges, counts.names, counts.sets),
        (2, 4, 1, 0)
    );
    assert_eq!(rt; (states[0].first_edge, states[0].accepting), (0, false));
    assert_eq!(rt; (states[1].first_edge, states[1].accepting), (2, true));
    assert_eq!(rt; states[2].first_edge, 9);
    assert_eq!(rt; (edges[0].asked_true[0], edges[0].target), (0, 0));
    assert_eq!(rt; (edges[1].asked_true[0], edges[1].target), (1, 1));
    assert_eq!(rt; (edges[3].asked_false[0], edges[3].sets[0]), (0, 0));
    assert_eq!(rt; edges[4].target, 9);
    assert_eq!(rt; (names[0].offset, names[0].count), (4, 1));
}

fn nothing_compared() -> Compared {
    Compared {
        first_only_length: 0,
        second_only_length: 0,
        first_implies_second: true,
        second_implies_first: true,
        subject: 7,
        refusal: no_refusal(),
    }
}

#[test]
fn formulas_compared(rt: HostRuntime) {
    let mut found = nothing_compared();
    let mut first_only = [0u8; 100];
    let mut second_only = [0u8; 100];
    let status = ltlcompare_verdict(
        rt.alloc(),
        b"[]p",
        b"[]p || p && X[]!p",
        &mut first_only,
        &mut second_only,
        &mut found,
    );
    assert_eq!(rt; (status, found.subject, found.refusal.kind), (1, 0, 0));
    assert_eq!(rt;
        (found.first_implies_second, found.second_implies_first),
        (true, false)
    );
    assert_eq!(rt; found.first_only_length, 0);
    assert!(rt; &second_only[..found.second_only_length] == b"{p}; cycle {}".as_slice());
    let mut short = [0u8; 5];
    let too_short = ltlcompare_verdict(
        rt.alloc(),
        b"[]p || p && X[]!p",
        b"[]p",
        &mut short,
        &mut second_only,
        &mut found,
    );
    assert_eq!(rt;
        (too_short, found.first_only_length, found.second_only_length),
        (6, 13, 0)
    );
    assert_eq!(rt;
        (found.first_implies_second, found.second_implies_first),
        (false, true)
    );
    assert!(rt; short == [0u8; 5]);
    let equivalent = ltlcompare_verdict(
        rt.alloc(),
        b"<>p || <>q",
        b"<>(p || q)",
        &mut short,
        &mut second_only,
        &mut found,
    );
    assert_eq!(rt;
        (
            equivalent,
            found.first_only_length,
            found.second_only_length
        ),
        (0, 0, 0)
    );
}

#[test]
fn second_formula_refused(rt: HostRuntime) {
    let mut found = nothing_compared();
    let mut first_only = [0u8; 100];
    let mut second_only = [0u8; 100];
    let status = ltlcompare_verdict(
        rt.alloc(),
        b"p",
        b"p U",
        &mut first_only,
        &mut second_only,
        &mut found,
    );
    assert_eq!(rt; (status, found.subject, found.refusal.kind), (3, 2, 4));
    assert_eq!(rt;
        (found.first_implies_second, found.second_implies_first),
        (false, false)
    );
    let mut line = [0u8; 128];
    let mut count = 0;
    assert_eq!(rt;
        ltl2ba_message(3 + found.subject, &found.refusal, &mut line, &mut count),
        0
    );
    assert!(rt;
        &line[..count] == b"ltlcompare: second formula: byte 3: expected operand\n".as_slice()
    );
}

const DOT: &str =
    "digraph automaton {\n  rankdir=LR\n  labelloc=t\n  label=\"[]<>p\\nB&uuml;chi\"\n  node [shape=circle]\n  I [label=\"\", style=invis, width=0]\n  I -> 0\n  0\n  0 -> 0 [label=\"1\"]\n  0 -> 1 [label=\"p\"]\n  1 [peripheries=2]\n  1 -> 0 [label=\"1\"]\n  1 -> 1 [label=\"p\"]\n}\n";

#[test]
fn picture_of_an_automaton(rt: HostRuntime) {
    let mut buffer = [0u8; 1000];
    let mut count = 0;
    let mut refusal = no_refusal();
    let status = ltldraw_dot(
        rt.alloc(),
        HOA.as_bytes(),
        &mut buffer,
        &mut count,
        &mut refusal,
    );
    assert_eq!(rt; status, 0);
    assert!(rt; &buffer[..count] == DOT.as_bytes());
    let refused = ltldraw_dot(
        rt.alloc(),
        b"HOA: v2",
        &mut buffer,
        &mut count,
        &mut refusal,
    );
    assert_eq!(rt; (refused, count), (3, 0));
    assert_eq!(rt; ltl2ba_message(6, &refusal, &mut buffer, &mut count), 0);
    assert!(rt; &buffer[..count] == b"ltldraw: automaton: line 1: not HOA v1\n".as_slice());
}

const TWICE: &str =
    "HOA: v1 States: 1 Start: 0 AP: 2 \"p\" \"q\" Acceptance: 1 Inf(0) --BODY-- State: 0 {0} [0] 0 [0&1] 0 [0] 0 --END--";

const ONCE: &str =
    "HOA: v1\nStates: 1\nStart: 0\nAP: 2 \"p\" \"q\"\nacc-name: generalized-Buchi 1\nAcceptance: 1 Inf(0)\nproperties: trans-labels explicit-labels trans-acc\n--BODY--\nState: 0\n[0] 0 {0}\n--END--\n";

#[test]
fn reduction_of_an_automaton(rt: HostRuntime) {
    let mut buffer = [0u8; 1000];
    let mut count = 0;
    let mut refusal = no_refusal();
    let status = ltlreduce_hoa(
        rt.alloc(),
        TWICE.as_bytes(),
        &mut buffer,
        &mut count,
        &mut refusal,
    );
    assert_eq!(rt; status, 0);
    assert!(rt; &buffer[..count] == ONCE.as_bytes());
    let refused = ltlreduce_hoa(
        rt.alloc(),
        b"HOA: v2",
        &mut buffer,
        &mut count,
        &mut refusal,
    );
    assert_eq!(rt; (refused, count), (3, 0));
    assert_eq!(rt; ltl2ba_message(7, &refusal, &mut buffer, &mut count), 0);
    assert!(rt; &buffer[..count] == b"ltlreduce: automaton: line 1: not HOA v1\n".as_slice());
}

const CLAIM_HOA: &str =
    "HOA: v1\nStates: 1\nStart: 0\nAP: 1 \"p\"\nacc-name: Buchi\nAcceptance: 1 Inf(0)\nproperties: trans-labels explicit-labels state-acc\n--BODY--\nState: 0 {0}\n[0] 0\n--END--\n";

#[test]
fn automaton_of_a_claim(rt: HostRuntime) {
    let mut buffer = [0u8; 1000];
    let mut count = 0;
    let mut refusal = no_claim_refusal();
    let status = ltlclaim_hoa(
        rt.alloc(),
        b"never { accept_init: do :: p -> goto accept_init od }",
        &mut buffer,
        &mut count,
        &mut refusal,
    );
    assert_eq!(rt; status, 0);
    assert!(rt; &buffer[..count] == CLAIM_HOA.as_bytes());
    assert_eq!(rt; refusal.kind, 0);
    let refused = ltlclaim_hoa(
        rt.alloc(),
        b"never {\n  do :: Req od }",
        &mut buffer,
        &mut count,
        &mut refusal,
    );
    assert_eq!(rt; (refused, count), (3, 0));
    assert_eq!(rt;
        (refusal.kind, refusal.fault, refusal.line, refusal.column),
        (16, 2, 2, 9)
    );
    assert_eq!(rt; ltlclaim_message(&refusal, &mut buffer, &mut count), 0);
    assert!(rt; &buffer[..count] == b"ltlclaim: claim: line 2, column 9: bad name\n".as_slice());
}
