//! Tests of the DOT texts of drawings.

use ltl_hoa::{hoa_names, hoa_read};
use ltl_pictures::Drawing;
use std::alloc::Global;
use std::process::Abort;

/// Automata and the DOT texts of their drawings.
const PICTURES: [(&str, &str); 8] = [
    // Acceptance is state-based. Two edges have the same target but different labels, and one edge occurs twice.
    (
        "HOA: v1\nStates: 3\nStart: 1\nAP: 2 \"p\" \"q_1\"\nAcceptance: 1 Inf(0)\n--BODY--\nState: 0 {0}\n[0&!1] 0\nState: 1\n[t] 2\n[0] 0\n[!0] 2\n[0] 0\n[0&1] 1\nState: 2\n--END--\n",
        "digraph automaton {\n  rankdir=LR\n  labelloc=t\n  label=\"B&uuml;chi\"\n  node [shape=circle]\n  I [label=\"\", style=invis, width=0]\n  I -> 1\n  0 [peripheries=2]\n  0 -> 0 [label=\"p && !q_1\"]\n  1\n  1 -> 0 [label=\"p || p\"]\n  1 -> 1 [label=\"p && q_1\"]\n  1 -> 2 [label=\"1 || !p\"]\n  2\n}\n",
    ),
    // Acceptance isn't state-based if one edge of a state is in the set and another one isn't.
    (
        "HOA: v1\nStates: 2\nStart: 0\nAP: 1 \"p\"\nAcceptance: 1 Inf(0)\n--BODY--\nState: 0 {0}\n[0] 1\nState: 1\n[!0] 0 {0}\n[0] 1\n--END--\n",
        "digraph automaton {\n  rankdir=LR\n  labelloc=t\n  label=\"B&uuml;chi\"\n  node [shape=circle]\n  I [label=\"\", style=invis, width=0]\n  I -> 0\n  0\n  0 -> 1 [label=\"p {0}\"]\n  1\n  1 -> 0 [label=\"!p {0}\"]\n  1 -> 1 [label=\"p\"]\n}\n",
    ),
    // Acceptance isn't state-based if there are two sets.
    (
        "HOA: v1\nStates: 2\nStart: 0\nAP: 1 \"p\"\nAcceptance: 2 Inf(0)&Inf(1)\n--BODY--\nState: 0 {1 0}\n[0] 1\nState: 1 {1}\n[!0] 0 {0}\n[t] 1\n--END--\n",
        "digraph automaton {\n  rankdir=LR\n  labelloc=t\n  label=\"generalized-B&uuml;chi 2\"\n  node [shape=circle]\n  I [label=\"\", style=invis, width=0]\n  I -> 0\n  0\n  0 -> 1 [label=\"p {0 1}\"]\n  1\n  1 -> 0 [label=\"!p {0 1}\"]\n  1 -> 1 [label=\"1 {1}\"]\n}\n",
    ),
    (
        "HOA: v1\nStates: 1\nStart: 0\nAP: 1 \"p\"\nAcceptance: 0 t\n--BODY--\nState: 0\n[!0] 0\n--END--\n",
        "digraph automaton {\n  rankdir=LR\n  labelloc=t\n  label=\"all\"\n  node [shape=circle]\n  I [label=\"\", style=invis, width=0]\n  I -> 0\n  0\n  0 -> 0 [label=\"!p\"]\n}\n",
    ),
    // Numbers of one digit and of two.
    (
        "HOA: v1\nStates: 1\nStart: 0\nAP: 0\nAcceptance: 32 Inf(0)&Inf(1)&Inf(2)&Inf(3)&Inf(4)&Inf(5)&Inf(6)&Inf(7)&Inf(8)&Inf(9)&Inf(10)&Inf(11)&Inf(12)&Inf(13)&Inf(14)&Inf(15)&Inf(16)&Inf(17)&Inf(18)&Inf(19)&Inf(20)&Inf(21)&Inf(22)&Inf(23)&Inf(24)&Inf(25)&Inf(26)&Inf(27)&Inf(28)&Inf(29)&Inf(30)&Inf(31)\n--BODY--\nState: 0\n[t] 0 {31 1 9 10 11 20 21}\n--END--\n",
        "digraph automaton {\n  rankdir=LR\n  labelloc=t\n  label=\"generalized-B&uuml;chi 32\"\n  node [shape=circle]\n  I [label=\"\", style=invis, width=0]\n  I -> 0\n  0\n  0 -> 0 [label=\"1 {1 9 10 11 20 21 31}\"]\n}\n",
    ),
    // An edge with two literals shares an arrow, so each edge of this arrow has a line of its own.
    (
        "HOA: v1\nStates: 1\nStart: 0\nAP: 2 \"p\" \"q\"\nAcceptance: 1 Inf(0)\n--BODY--\nState: 0\n[0&!1] 0 {0}\n[1] 0\n[t] 0 {0}\n--END--\n",
        "digraph automaton {\n  rankdir=LR\n  labelloc=t\n  label=\"B&uuml;chi\"\n  node [shape=circle]\n  I [label=\"\", style=invis, width=0]\n  I -> 0\n  0\n  0 -> 0 [label=\"p && !q {0} ||\\nq ||\\n1 {0}\"]\n}\n",
    ),
    // There is no edge.
    (
        "HOA: v1\nStates: 1\nStart: 0\nAP: 1 \"p\"\nAcceptance: 1 Inf(0)\n--BODY--\n--END--\n",
        "digraph automaton {\n  rankdir=LR\n  labelloc=t\n  label=\"B&uuml;chi\"\n  node [shape=circle]\n  I [label=\"\", style=invis, width=0]\n  I -> 0\n  0\n}\n",
    ),
    // The automaton and two of three states have names, with a quote, a backslash and `&`.
    (
        "HOA: v1\nname: \"say \\\"no\\\"\"\nStates: 3\nStart: 0\nAP: 1 \"p\"\nAcceptance: 1 Inf(0)\n--BODY--\nState: 0 \"idle\"\n[0] 1\nState: 1\n[t] 2\nState: 2 \"a\\\\b & c\" {0}\n[0] 2\n--END--\n",
        "digraph automaton {\n  rankdir=LR\n  labelloc=t\n  label=\"say \\\"no\\\"\\nB&uuml;chi\"\n  node [shape=circle]\n  I [label=\"\", style=invis, width=0]\n  I -> 0\n  0 [label=\"0\\nidle\", shape=ellipse]\n  0 -> 1 [label=\"p\"]\n  1\n  1 -> 2 [label=\"1\"]\n  2 [label=\"2\\na\\\\b &amp; c\", shape=ellipse, peripheries=2]\n  2 -> 2 [label=\"p\"]\n}\n",
    ),
];

/// The DOT text for the automaton and its names that this text gives.
fn picture<R: Abort>(rt: &R, alloc: &Global, text: &str) -> Vec<u8> {
    let automaton = hoa_read(alloc, &mut text.as_bytes()).expect(rt, "an automaton");
    let states = automaton.len();
    assert!(rt; text.len() < 4_294_967_296 && states < 4_294_967_296);
    let names = hoa_names(alloc, text.as_bytes(), states).expect(rt, "memory");
    let drawing = Drawing::new(alloc, automaton, names).expect(rt, "memory");
    let mut picture = Vec::new(*alloc);
    drawing.dot_to(&mut picture).expect(rt, "a writer");
    picture
}

#[test]
fn pictures(rt: HostRuntime) {
    let alloc = rt.alloc();
    for (text, wanted) in PICTURES {
        assert_eq!(rt;
            picture(&rt, &alloc, text).as_slice(),
            wanted.as_bytes(),
            "{text}"
        );
    }
}
