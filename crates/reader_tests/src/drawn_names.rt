//! Tests of the names in drawings. The DOT texts were made by hand.

use ltl_hoa::{HoaNames, Marked, hoa_names, hoa_read};
use ltl_pictures::{Drawing, RunDrawing};
use std::alloc::Global;
use std::process::Abort;

/// The automaton of a short text, and its names.
fn read<'a, R: Abort>(
    rt: &R,
    alloc: &'a Global,
    text: &str,
) -> (Marked<'a, Global>, HoaNames<'a, Global>) {
    let automaton = hoa_read(alloc, &mut text.as_bytes()).expect(rt, "an automaton");
    let states = automaton.len();
    let names = if text.len() < 4_294_967_296 && states < 4_294_967_296 {
        hoa_names(alloc, text.as_bytes(), states).ok()
    } else {
        None
    };
    (automaton, names.expect(rt, "names"))
}

/// The DOT text for the automaton of this text.
fn drawn<R: Abort>(rt: &R, alloc: &Global, text: &str) -> Vec<u8> {
    let (automaton, names) = read(rt, alloc, text);
    let drawing = Drawing::new(alloc, automaton, names).expect(rt, "memory");
    let mut picture = Vec::new(*alloc);
    drawing.dot_to(&mut picture).expect(rt, "a writer");
    picture
}

/// Automata with names, and the DOT texts of their drawings.
const DRAWN: [(&str, &str); 5] = [
    // A name of the automaton, and a state without a name between others, of which one is accepting.
    (
        "HOA: v1\nname: \"G F p\"\nStates: 3\nStart: 0\nAP: 1 \"p\"\nAcceptance: 1 Inf(0)\n--BODY--\nState: 0 \"idle\"\n[0] 1\nState: 1 {0}\n[0] 2\nState: 2 \"busy\" {0}\n[0] 0\n--END--\n",
        "digraph automaton {\n  rankdir=LR\n  labelloc=t\n  label=\"G F p\\nB&uuml;chi\"\n  node [shape=circle]\n  I [label=\"\", style=invis, width=0]\n  I -> 0\n  0 [label=\"0\\nidle\", shape=ellipse]\n  0 -> 1 [label=\"p\"]\n  1 [peripheries=2]\n  1 -> 2 [label=\"p\"]\n  2 [label=\"2\\nbusy\", shape=ellipse, peripheries=2]\n  2 -> 0 [label=\"p\"]\n}\n",
    ),
    // Names of states alone, and an empty name.
    (
        "HOA: v1\nStates: 1\nStart: 0\nAP: 1 \"p\"\nAcceptance: 1 Inf(0)\n--BODY--\nState: 0 \"\"\n[0] 0\n--END--\n",
        "digraph automaton {\n  rankdir=LR\n  labelloc=t\n  label=\"B&uuml;chi\"\n  node [shape=circle]\n  I [label=\"\", style=invis, width=0]\n  I -> 0\n  0 [label=\"0\\n\", shape=ellipse]\n  0 -> 0 [label=\"p\"]\n}\n",
    ),
    // A name of the automaton alone, with a quote, a backslash, an entity, and characters that aren't shown.
    (
        "HOA: v1\nname: \"say \\\"p\\\" \\\\ n &lt; <b>\t|\n|\x7f|\u{1}ü\"\nStates: 1\nStart: 0\nAP: 1 \"p\"\nAcceptance: 0 t\n--BODY--\nState: 0\n[0] 0\n--END--\n",
        "digraph automaton {\n  rankdir=LR\n  labelloc=t\n  label=\"say \\\"p\\\" \\\\ n &amp;lt; <b> | | | ü\\nall\"\n  node [shape=circle]\n  I [label=\"\", style=invis, width=0]\n  I -> 0\n  0\n  0 -> 0 [label=\"p\"]\n}\n",
    ),
    // A name of 80 bytes is shown, and a longer one is cut between two characters: at byte 77, before a character of two bytes at byte 76, and before one of
    // four bytes at byte 74.
    (
        "HOA: v1\nname: \"01234567890123456789012345678901234567890123456789012345678901234567890123456üab\"\nStates: 4\nStart: 0\nAP: 1 \"p\"\nAcceptance: 1 Inf(0)\n--BODY--\nState: 0 \"01234567890123456789012345678901234567890123456789012345678901234567890123456789\"\n[0] 1\nState: 1 \"012345678901234567890123456789012345678901234567890123456789012345678901234567890\"\n[0] 2\nState: 2 \"0123456789012345678901234567890123456789012345678901234567890123456789012345üabc\"\n[0] 3\nState: 3 \"01234567890123456789012345678901234567890123456789012345678901234567890123😀abc\"\n[0] 0\n--END--\n",
        "digraph automaton {\n  rankdir=LR\n  labelloc=t\n  label=\"01234567890123456789012345678901234567890123456789012345678901234567890123456...\\nB&uuml;chi\"\n  node [shape=circle]\n  I [label=\"\", style=invis, width=0]\n  I -> 0\n  0 [label=\"0\\n01234567890123456789012345678901234567890123456789012345678901234567890123456789\", shape=ellipse]\n  0 -> 1 [label=\"p\"]\n  1 [label=\"1\\n01234567890123456789012345678901234567890123456789012345678901234567890123456...\", shape=ellipse]\n  1 -> 2 [label=\"p\"]\n  2 [label=\"2\\n0123456789012345678901234567890123456789012345678901234567890123456789012345...\", shape=ellipse]\n  2 -> 3 [label=\"p\"]\n  3 [label=\"3\\n01234567890123456789012345678901234567890123456789012345678901234567890123...\", shape=ellipse]\n  3 -> 0 [label=\"p\"]\n}\n",
    ),
    // Escapes don't count for the length.
    (
        "HOA: v1\nStates: 2\nStart: 0\nAP: 1 \"p\"\nAcceptance: 1 Inf(0)\n--BODY--\nState: 0 \"&&&&&&&&&&&&&&&&&&&&&&&&&&&&&&&&&&&&&&&&&&&&&&&&&&&&&&&&&&&&&&&&&&&&&&&&&&&&&&&&\"\n[0] 1\nState: 1 \"&&&&&&&&&&&&&&&&&&&&&&&&&&&&&&&&&&&&&&&&&&&&&&&&&&&&&&&&&&&&&&&&&&&&&&&&&&&&&&&&&\"\n[0] 0\n--END--\n",
        "digraph automaton {\n  rankdir=LR\n  labelloc=t\n  label=\"B&uuml;chi\"\n  node [shape=circle]\n  I [label=\"\", style=invis, width=0]\n  I -> 0\n  0 [label=\"0\\n&amp;&amp;&amp;&amp;&amp;&amp;&amp;&amp;&amp;&amp;&amp;&amp;&amp;&amp;&amp;&amp;&amp;&amp;&amp;&amp;&amp;&amp;&amp;&amp;&amp;&amp;&amp;&amp;&amp;&amp;&amp;&amp;&amp;&amp;&amp;&amp;&amp;&amp;&amp;&amp;&amp;&amp;&amp;&amp;&amp;&amp;&amp;&amp;&amp;&amp;&amp;&amp;&amp;&amp;&amp;&amp;&amp;&amp;&amp;&amp;&amp;&amp;&amp;&amp;&amp;&amp;&amp;&amp;&amp;&amp;&amp;&amp;&amp;&amp;&amp;&amp;&amp;&amp;&amp;&amp;\", shape=ellipse]\n  0 -> 1 [label=\"p\"]\n  1 [label=\"1\\n&amp;&amp;&amp;&amp;&amp;&amp;&amp;&amp;&amp;&amp;&amp;&amp;&amp;&amp;&amp;&amp;&amp;&amp;&amp;&amp;&amp;&amp;&amp;&amp;&amp;&amp;&amp;&amp;&amp;&amp;&amp;&amp;&amp;&amp;&amp;&amp;&amp;&amp;&amp;&amp;&amp;&amp;&amp;&amp;&amp;&amp;&amp;&amp;&amp;&amp;&amp;&amp;&amp;&amp;&amp;&amp;&amp;&amp;&amp;&amp;&amp;&amp;&amp;&amp;&amp;&amp;&amp;&amp;&amp;&amp;&amp;&amp;&amp;&amp;&amp;&amp;&amp;...\", shape=ellipse]\n  1 -> 0 [label=\"p\"]\n}\n",
    ),
];

#[test]
fn names_are_shown(rt: HostRuntime) {
    let alloc = rt.alloc();
    for (text, wanted) in DRAWN {
        assert_eq!(rt;
            drawn(&rt, &alloc, text).as_slice(),
            wanted.as_bytes(),
            "{text}"
        );
    }
}

#[test]
fn note_below_a_name(rt: HostRuntime) {
    let alloc = rt.alloc();
    let text =
        "HOA: v1\nname: \"G p\"\nStates: 1\nStart: 0\nAP: 1 \"p\"\nAcceptance: 1 Inf(0)\n--BODY--\nState: 0 \"busy\" {0}\n[0] 0\n--END--\n";
    let wanted =
        "digraph automaton {\n  rankdir=LR\n  labelloc=t\n  label=\"G p\\nB&uuml;chi\\nno run on this word is accepting\"\n  node [shape=circle]\n  I [label=\"\", style=invis, width=0]\n  I -> 0\n  0 [label=\"0\\nbusy\", shape=ellipse, peripheries=2]\n  0 -> 0 [label=\"p\"]\n}\n";
    let (automaton, names) = read(&rt, &alloc, text);
    let drawing = RunDrawing::new(&alloc, automaton, names, None).expect(&rt, "memory");
    let mut picture = Vec::new(alloc);
    drawing.dot_to(&mut picture).expect(&rt, "a writer");
    assert_eq!(rt; picture.as_slice(), wanted.as_bytes());
}
