//! Tests of runs of `ltldraw`.

use ltl_cli::Source;
use ltl_draw::{draw_over, plan};
use ltl_streams::{ReaderSource, WriterSink};
use refusing::{Given, Outcome, Refusing, Taken};
use std::alloc::{Allocator, Global};
use std::process::Abort;

const AUTOMATON: &str =
    "HOA: v1\nStates: 2\nStart: 0\nAP: 1 \"p\"\nAcceptance: 1 Inf(0)\n--BODY--\nState: 0\n[t] 0\n[0] 1\n[0] 0\n[!0] 1\n[0] 1\n[0] 1\nState: 1 {0}\n[0] 1\n--END--\n";

const PICTURE: &str =
    "digraph automaton {\n  rankdir=LR\n  labelloc=t\n  label=\"B&uuml;chi\"\n  node [shape=circle]\n  I [label=\"\", style=invis, width=0]\n  I -> 0\n  0\n  0 -> 0 [label=\"1 || p\"]\n  0 -> 1 [label=\"p || !p || p || p\"]\n  1 [peripheries=2]\n  1 -> 1 [label=\"p\"]\n}\n";

/// The same with names for the automaton and for the second state.
const NAMED: &str =
    "HOA: v1\nname: \"hold\"\nStates: 2\nStart: 0\nAP: 1 \"p\"\nAcceptance: 1 Inf(0)\n--BODY--\nState: 0\n[t] 0\n[0] 1\n[0] 0\n[!0] 1\n[0] 1\n[0] 1\nState: 1 \"held\" {0}\n[0] 1\n--END--\n";

const NAMED_PICTURE: &str =
    "digraph automaton {\n  rankdir=LR\n  labelloc=t\n  label=\"hold\\nB&uuml;chi\"\n  node [shape=circle]\n  I [label=\"\", style=invis, width=0]\n  I -> 0\n  0\n  0 -> 0 [label=\"1 || p\"]\n  0 -> 1 [label=\"p || !p || p || p\"]\n  1 [label=\"1\\nheld\", shape=ellipse, peripheries=2]\n  1 -> 1 [label=\"p\"]\n}\n";

/// More allocations than a run makes.
const MOST_GROWTHS: u64 = 1_000;

/// Runs the program with this command line, and returns its exit status.
fn drawn<A: Allocator>(
    memory: Global,
    alloc: &A,
    words: &[&str],
    input: Given<'_>,
    output: &mut Taken,
    message: &mut Taken,
) -> u8 {
    draw_over(
        alloc,
        &plan(memory, words),
        &mut Source::Input(ReaderSource::new(input)),
        &mut WriterSink::new(output),
        &mut WriterSink::new(message),
    )
}

/// Runs the program with this command line. Its output fails after this number of bytes.
fn ended<A: Allocator>(
    memory: Global,
    alloc: &A,
    words: &[&str],
    input: Given<'_>,
    room: usize,
) -> Outcome {
    let mut output = Taken::new(memory, room);
    let mut message = Taken::new(memory, usize::MAX);
    let status = drawn(memory, alloc, words, input, &mut output, &mut message);
    Outcome {
        status,
        output,
        message,
    }
}

/// Compares what a run left with what is wanted. The output is flushed once if the status is 0, and never if not.
fn expect<R: Abort>(rt: &R, outcome: &Outcome, status: u8, output: &[u8], told: &str) {
    assert!(rt; outcome.is(status, output, told, status == 0), "{told}");
}

fn whole(text: &str) -> Given<'_> {
    Given {
        rest: text.as_bytes(),
        left: usize::MAX,
    }
}

/// Command lines and inputs, and the output, message and exit status of each.
const RUNS: [(&[&str], &str, &str, &str, u8); 21] = [
    (&["ltldraw"], AUTOMATON, PICTURE, "", 0),
    (&["x"], AUTOMATON, PICTURE, "", 0),
    (
        &["ltldraw", "-h"],
        AUTOMATON,
        "",
        "ltldraw: usage: ltldraw [-A file] [-w lasso] | -t lasso [-f formula]\n",
        2,
    ),
    (
        &["ltldraw", "x"],
        AUTOMATON,
        "",
        "ltldraw: usage: ltldraw [-A file] [-w lasso] | -t lasso [-f formula]\n",
        2,
    ),
    (&[], AUTOMATON, PICTURE, "", 0),
    (
        &["ltldraw"],
        "",
        "",
        "ltldraw: automaton: line 1: not HOA v1\n",
        3,
    ),
    (
        &["ltldraw"],
        "HOA: v1\nStates: 1 Start: 0 AP: 0 Acceptance: 1 Inf(0)\n--BODY--\nState: 0 [t] 1 --END--",
        "",
        "ltldraw: automaton: line 4: number out of range\n",
        3,
    ),
    (
        &["ltldraw", "-t", "{b,a}; cycle {}; {c}"],
        "",
        "  0 | 1 2\na * | . .\nb * | . .\nc . | . *\n",
        "",
        0,
    ),
    (
        &["ltldraw", "-f", "p U q", "-t", "{p}; cycle {q}; {}"],
        "",
        TABLE,
        "",
        0,
    ),
    (
        &["ltldraw", "-f", "p"],
        AUTOMATON,
        "",
        "ltldraw: usage: ltldraw [-A file] [-w lasso] | -t lasso [-f formula]\n",
        2,
    ),
    (
        &["ltldraw", "-t", "cycle {p}", "-t", "cycle {}"],
        "",
        "",
        "ltldraw: usage: ltldraw [-A file] [-w lasso] | -t lasso [-f formula]\n",
        2,
    ),
    (
        &["ltldraw", "-t", "{p}; {", "-f", "p &"],
        "",
        "",
        "ltldraw: formula: byte 2: unexpected byte\n",
        3,
    ),
    (
        &["ltldraw", "-t", "{p}; {", "-f", "p"],
        "",
        "",
        "ltldraw: word: byte 6: bad word\n",
        3,
    ),
    (
        &["ltldraw", "-t", ""],
        "",
        "",
        "ltldraw: word: byte 0: bad word\n",
        3,
    ),
    (&["ltldraw"], NAMED, NAMED_PICTURE, "", 0),
    (&RUN, AUTOMATON, RUN_PICTURE, "", 0),
    (&RUN, NAMED, NAMED_RUN_PICTURE, "", 0),
    (
        &["ltldraw", "-w", "{p}; cycle {}"],
        NAMED,
        "digraph automaton {\n  rankdir=LR\n  labelloc=t\n  label=\"hold\\nB&uuml;chi\\nno run on this word is accepting\"\n  node [shape=circle]\n  I [label=\"\", style=invis, width=0]\n  I -> 0\n  0\n  0 -> 0 [label=\"1 || p\"]\n  0 -> 1 [label=\"p || !p || p || p\"]\n  1 [label=\"1\\nheld\", shape=ellipse, peripheries=2]\n  1 -> 1 [label=\"p\"]\n}\n",
        "",
        0,
    ),
    (
        &["ltldraw", "-w", "{p}; cycle {}"],
        AUTOMATON,
        "digraph automaton {\n  rankdir=LR\n  labelloc=t\n  label=\"B&uuml;chi\\nno run on this word is accepting\"\n  node [shape=circle]\n  I [label=\"\", style=invis, width=0]\n  I -> 0\n  0\n  0 -> 0 [label=\"1 || p\"]\n  0 -> 1 [label=\"p || !p || p || p\"]\n  1 [peripheries=2]\n  1 -> 1 [label=\"p\"]\n}\n",
        "",
        0,
    ),
    (
        &["ltldraw", "-w", "{p"],
        AUTOMATON,
        "",
        "ltldraw: word: byte 2: bad word\n",
        3,
    ),
    (
        &["ltldraw", "-w", "cycle {}", "-t", "cycle {}"],
        AUTOMATON,
        "",
        "ltldraw: usage: ltldraw [-A file] [-w lasso] | -t lasso [-f formula]\n",
        2,
    ),
];

/// An accepting run on this word takes one of several edges that have the same label and the same target.
const RUN: [&str; 3] = ["ltldraw", "-w", "cycle {p}"];

const RUN_PICTURE: &str =
    "digraph automaton {\n  rankdir=LR\n  labelloc=t\n  label=\"B&uuml;chi\"\n  node [shape=circle]\n  I [label=\"\", style=invis, width=0]\n  I -> 0\n  0 [color=red, penwidth=2]\n  0 -> 0 [label=\"1 || p\"]\n  0 -> 1 [label=<<font color=\"red\">p</font> || !p || p || p>, color=red, penwidth=2]\n  1 [peripheries=2, color=red, penwidth=2]\n  1 -> 1 [label=<<font color=\"red\">p</font>>, color=red, penwidth=2]\n}\n";

const NAMED_RUN_PICTURE: &str =
    "digraph automaton {\n  rankdir=LR\n  labelloc=t\n  label=\"hold\\nB&uuml;chi\"\n  node [shape=circle]\n  I [label=\"\", style=invis, width=0]\n  I -> 0\n  0 [color=red, penwidth=2]\n  0 -> 0 [label=\"1 || p\"]\n  0 -> 1 [label=<<font color=\"red\">p</font> || !p || p || p>, color=red, penwidth=2]\n  1 [label=\"1\\nheld\", shape=ellipse, peripheries=2, color=red, penwidth=2]\n  1 -> 1 [label=<<font color=\"red\">p</font>>, color=red, penwidth=2]\n}\n";

const TABLE: &str = "        0 | 1 2\np       * | . .\nq       . | * .\n(p U q) * | * .\n";

const TIMELINE: [&str; 5] = ["ltldraw", "-t", "{p}; cycle {q}; {}", "-f", "p U q"];

#[test]
fn runs(rt: HostRuntime) {
    for (words, input, wanted, told, status) in RUNS {
        let outcome = ended(rt.alloc(), &rt.alloc(), words, whole(input), usize::MAX);
        expect(&rt, &outcome, status, wanted.as_bytes(), told);
    }
}

/// Command lines that end with status 0, with the input, the number of bytes after which it fails, and the output, and a number of allocations that the run
/// exceeds. A timeline reads no input.
const WHOLE: [(&[&str], &str, usize, &str, u64); 3] = [
    (&["ltldraw"], NAMED, usize::MAX, NAMED_PICTURE, 10),
    (&RUN, NAMED, usize::MAX, NAMED_RUN_PICTURE, 20),
    (&TIMELINE, "", 0, TABLE, 5),
];

/// Each allocation is refused in turn.
#[test]
fn each_growth(rt: HostRuntime) {
    for (words, text, left, wanted, least) in WHOLE {
        let mut growths = 0;
        for n in 1..MOST_GROWTHS {
            let alloc = Refusing::new(rt.alloc(), n);
            let rest = text.as_bytes();
            let outcome = ended(rt.alloc(), &alloc, words, Given { rest, left }, usize::MAX);
            if !alloc.has_refused() {
                expect(&rt, &outcome, 0, wanted.as_bytes(), "");
                growths = n;
                break;
            }
            expect(&rt, &outcome, 4, b"", "ltldraw: out of memory\n");
        }
        assert!(rt; growths > least);
    }
}

/// The output fails after each number of bytes.
#[test]
fn each_byte_of_output(rt: HostRuntime) {
    for (words, text, left, wanted, _) in WHOLE {
        for room in 0..wanted.len() {
            let rest = text.as_bytes();
            let outcome = ended(rt.alloc(), &rt.alloc(), words, Given { rest, left }, room);
            expect(
                &rt,
                &outcome,
                5,
                &wanted.as_bytes()[..room],
                "ltldraw: cannot write\n",
            );
        }
    }
}

/// The flush of the output fails, and then the message after three bytes.
#[test]
fn flush_and_message(rt: HostRuntime) {
    let mut output = Taken::new(rt.alloc(), usize::MAX);
    output.stays = false;
    let mut message = Taken::new(rt.alloc(), 3);
    let input = whole(AUTOMATON);
    let status = drawn(
        rt.alloc(),
        &rt.alloc(),
        &["ltldraw"],
        input,
        &mut output,
        &mut message,
    );
    assert_eq!(rt; status, 5);
    assert_eq!(rt; output.held.as_slice(), PICTURE.as_bytes());
    assert_eq!(rt; message.held.as_slice(), "ltl".as_bytes());
}

/// The input fails behind a fault of its text.
#[test]
fn fault_before_failed_read(rt: HostRuntime) {
    let input = Given {
        rest: b"HOA: v2\nStates: 1\n",
        left: 12,
    };
    let outcome = ended(rt.alloc(), &rt.alloc(), &["ltldraw"], input, usize::MAX);
    expect(&rt, &outcome, 5, b"", "ltldraw: cannot read\n");
}

/// The input fails after each number of bytes.
#[test]
fn each_byte_of_input(rt: HostRuntime) {
    for left in 0..AUTOMATON.len() {
        let rest = AUTOMATON.as_bytes();
        let outcome = ended(
            rt.alloc(),
            &rt.alloc(),
            &["ltldraw"],
            Given { rest, left },
            usize::MAX,
        );
        expect(&rt, &outcome, 5, b"", "ltldraw: cannot read\n");
    }
}
