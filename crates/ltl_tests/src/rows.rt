//! Runs that show what the programs are for, over memory. Output, message and status are compared byte by byte, and it is counted what is opened.
//! `tests/*.json` has more, and `tests/run.py` makes them with the programs as they are built.

use crate::memory::{LOOP, Memory};
use ltl_cli::run;
use ltl_streams::WriterSink;
use ltl_words::Tool;
use std::alloc::Global;
use std::process::Abort;

/// The words of a run; its input, which is also the text of the file `x`, the only one; the output, or with a status above 1 the message; the status;
/// and how many files and inputs are asked for.
type Row = (
    &'static [&'static str],
    &'static [u8],
    &'static str,
    u8,
    u64,
);

/// An automaton whose only word has `p` at each second position, from the first on.
const TURNS: &[u8] =
    b"HOA: v1\nStates: 2\nStart: 0\nAP: 1 \"p\"\nAcceptance: 1 Inf(0)\n--BODY--\nState: 0 {0}\n[0] 1\nState: 1\n[!0] 0\n--END--\n";

/// Automata in each layout and with each option, and what is refused.
const TRANSLATIONS: [Row; 8] = [
    (
        &["ltl2ba", "-f", "[]<>p"],
        b"",
        "never { /* []<>p */\n\
        T0_init:\n\
        \tif\n\
        \t:: (1) -> goto T0_init\n\
        \t:: (p) -> goto accept_S1\n\
        \tfi;\n\
        accept_S1:\n\
        \tif\n\
        \t:: (1) -> goto T0_init\n\
        \t:: (p) -> goto accept_S1\n\
        \tfi;\n\
        }\n",
        0,
        0,
    ),
    (
        &["ltl2ba", "-H", "-f", "!(p U q)"],
        b"",
        "HOA: v1\n\
        name: \"!(p U q)\"\n\
        States: 2\n\
        Start: 0\n\
        AP: 2 \"p\" \"q\"\n\
        acc-name: Buchi\n\
        Acceptance: 1 Inf(0)\n\
        properties: trans-labels explicit-labels state-acc\n\
        --BODY--\n\
        State: 0 {0}\n\
        [!0&!1] 1\n\
        [!1] 0\n\
        State: 1 {0}\n\
        [t] 1\n\
        --END--\n",
        0,
        0,
    ),
    (
        &["ltl2ba", "-G", "-f", "<>p && <>q"],
        b"",
        "HOA: v1\n\
        name: \"(<>p && <>q)\"\n\
        States: 4\n\
        Start: 0\n\
        AP: 2 \"p\" \"q\"\n\
        acc-name: generalized-Buchi 2\n\
        Acceptance: 2 Inf(0)&Inf(1)\n\
        properties: trans-labels explicit-labels trans-acc\n\
        --BODY--\n\
        State: 0\n\
        [t] 0\n\
        [0] 1 {0}\n\
        [0&1] 2 {0 1}\n\
        [1] 3 {1}\n\
        State: 1\n\
        [t] 1 {0}\n\
        [1] 2 {0 1}\n\
        State: 2\n\
        [t] 2 {0 1}\n\
        State: 3\n\
        [t] 3 {1}\n\
        [0] 2 {0 1}\n\
        --END--\n",
        0,
        0,
    ),
    (
        &["ltl2ba", "-l", "-o", "-p", "-f", "[]<>p"],
        b"",
        "never { /* []<>p */\n\
        T0_init:\n\
        \tif\n\
        \t:: (1) -> goto T0_S1\n\
        \t:: (p) -> goto accept_S2\n\
        \tfi;\n\
        T0_S1:\n\
        \tif\n\
        \t:: (1) -> goto T0_S1\n\
        \t:: (p) -> goto accept_S2\n\
        \t:: (p) -> goto accept_S3\n\
        \tfi;\n\
        accept_S2:\n\
        \tif\n\
        \t:: (1) -> goto T0_S1\n\
        \t:: (p) -> goto accept_S2\n\
        \tfi;\n\
        accept_S3:\n\
        \tif\n\
        \t:: (1) -> goto T0_S1\n\
        \t:: (p) -> goto accept_S2\n\
        \t:: (p) -> goto accept_S3\n\
        \tfi;\n\
        }\n",
        0,
        0,
    ),
    (
        &["ltl2ba", "-F", "x"],
        b"true\n",
        "never { /* true */\n\
        accept_init:\n\
        \tif\n\
        \t:: (1) -> goto accept_init\n\
        \tfi;\n\
        }\n",
        0,
        1,
    ),
    (
        &["ltl2ba", "-F", "x"],
        b"p U",
        "ltl2ba: formula: byte 3: expected operand\n",
        3,
        1,
    ),
    (&["ltl2ba", "-F", "y"], b"p", "ltl2ba: cannot open\n", 5, 1),
    (
        &["ltl2ba", "-f", "p", "-F", "x"],
        b"p",
        "ltl2ba: usage: ltl2ba [-l] [-o] [-p] [-H | -G] (-f formula | -F file)\n",
        2,
        0,
    ),
];

/// Automata that satisfy a formula or violate it, and what is refused.
const CHECKS: [Row; 7] = [
    (&["ltlcheck", "-f", "[]!p"], LOOP, "contained\n", 0, 1),
    (
        &["ltlcheck", "-f", "[]p"],
        TURNS,
        "violated\ncycle {p}; {}\n",
        1,
        1,
    ),
    (
        &["ltlcheck", "-f", "<>p", "-A", "x"],
        LOOP,
        "violated\ncycle {}\n",
        1,
        1,
    ),
    (
        &["ltlcheck", "-f", "<>p"],
        b"HOA: v2",
        "ltlcheck: automaton: line 1: not HOA v1\n",
        3,
        1,
    ),
    (
        &["ltlcheck", "-f", "p U", "-A", "y"],
        LOOP,
        "ltlcheck: formula: byte 3: expected operand\n",
        3,
        1,
    ),
    (
        &["ltlcheck", "-F", "x", "-A", "y"],
        b"p && !p",
        "ltlcheck: cannot open\n",
        5,
        2,
    ),
    (
        &["ltlcheck"],
        LOOP,
        "ltlcheck: usage: ltlcheck (-f formula | -F file) [-A file]\n",
        2,
        0,
    ),
];

/// Formulas on words, and what is refused.
const TRUTHS: [Row; 5] = [
    (
        &["ltleval", "-f", "p && X[]!p", "-w", "{p}; cycle {}"],
        b"",
        "true\n",
        0,
        0,
    ),
    (
        &["ltleval", "-f", "p && X[]!p", "-w", "cycle {p}; {}"],
        b"",
        "false\n",
        1,
        0,
    ),
    (
        &["ltleval", "-F", "x", "-w", "cycle {p}; {}"],
        b"[]<>p",
        "true\n",
        0,
        1,
    ),
    (
        &["ltleval", "-f", "p", "-w", "{p}"],
        b"",
        "ltleval: word: byte 3: bad word\n",
        3,
        0,
    ),
    (
        &["ltleval", "-f", "p"],
        b"",
        "ltleval: usage: ltleval (-f formula | -F file) -w lasso\n",
        2,
        0,
    ),
];

/// Makes the runs of a program.
fn make<R: Abort>(rt: &R, alloc: Global, tool: Tool, rows: &[Row]) {
    for i in 0..rows.len() {
        let (words, input, text, status, opened) = rows[i];
        let mut memory = Memory {
            name: "x",
            file: input,
            input,
            count: 0,
        };
        let mut output = Vec::new(alloc);
        let mut message = Vec::new(alloc);
        let found = run(
            alloc,
            tool,
            Ok(words),
            &mut memory,
            &mut WriterSink::new(&mut output),
            &mut WriterSink::new(&mut message),
        );
        let (printed, told) = if status <= 1 { (text, "") } else { ("", text) };
        assert_eq!(rt; found, status, "{text}");
        assert_eq!(rt; output.as_slice(), printed.as_bytes());
        assert_eq!(rt; message.as_slice(), told.as_bytes());
        assert_eq!(rt; memory.count, opened, "{text}");
    }
}

#[test]
fn translations(rt: HostRuntime) {
    make(&rt, rt.alloc(), Tool::Translator, &TRANSLATIONS);
}

#[test]
fn checks(rt: HostRuntime) {
    make(&rt, rt.alloc(), Tool::Checker, &CHECKS);
}

#[test]
fn truths(rt: HostRuntime) {
    make(&rt, rt.alloc(), Tool::Evaluator, &TRUTHS);
}
