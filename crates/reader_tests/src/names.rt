//! Tests of the names of an automaton and of its states.

use ltl_hoa::{HoaNames, hoa_names};
use std::alloc::Allocator;

/// A text, and the names of its automaton and of its states 0 to 2.
type Named = (
    &'static str,
    Option<&'static str>,
    [Option<&'static str>; 3],
);

const NAMED: [Named; 18] = [
    ("", None, [None, None, None]),
    // no names
    (
        "HOA: v1\nStates: 1\nStart: 0\nAP: 1 \"p\"\nAcceptance: 1 Inf(0)\n--BODY--\nState: 0 {0}\n[!0] 0\n--END--\n",
        None,
        [None, None, None],
    ),
    // a state without a name between others, and acceptance sets behind names
    (
        "HOA: v1\nname: \"[]<>p\"\nStates: 3\nStart: 0\nAP: 1 \"p\"\nAcceptance: 1 Inf(0)\n--BODY--\nState: 0 \"idle\" {0}\n[t] 1\nState: 1\n[t] 2\nState: 2 \"busy\"\n[t] 0 {0}\n--END--\n",
        Some("[]<>p"),
        [Some("idle"), None, Some("busy")],
    ),
    // in another order
    (
        "HOA: v1 States: 3 Start: 0 AP: 0 Acceptance: 0 t name: \"last\" --BODY-- State: 2 \"c\" State: 0 \"a\" State: 1 \"b\" --END--",
        Some("last"),
        [Some("a"), Some("b"), Some("c")],
    ),
    // escaped quotes and backslashes, and another escaped byte
    (
        "name: \"say \\\"p\\\" \\\\ q\" State: 0 \"\\\\\" State: 1 \"\\\"\" State: 2 \"\\n\"",
        Some("say \"p\" \\ q"),
        [Some("\\"), Some("\""), Some("n")],
    ),
    // comments between tokens, which nest, and what looks like one in a string
    (
        "name: /* \"no\" /* name: */ */ \"yes\"\nState:/* 1 */0/**/\"zero\"\nState: 1 \"/* one\" State: 2 \"two */\"",
        Some("yes"),
        [Some("zero"), Some("/* one"), Some("two */")],
    ),
    // no blanks
    (
        "name:\"a\"State:0\"b\"State:1\"c\"{0}[0]0",
        Some("a"),
        [Some("b"), Some("c"), None],
    ),
    // empty names, and line ends in a name
    (
        "name: \"\" State: 0 \"\" State: 1 \"a\nb\"",
        Some(""),
        [Some(""), Some("a\nb"), None],
    ),
    // the first name counts
    (
        "name: \"a\" name: \"b\" State: 1 \"c\" State: 1 \"d\" State: 1",
        Some("a"),
        [None, Some("c"), None],
    ),
    (
        "name: x name: \"b\" State: 1 State: 1 \"d\"",
        Some("b"),
        [None, Some("d"), None],
    ),
    // strings that stand elsewhere
    (
        "acc-name: \"a\" name \"b\" name: c \"d\" State \"e\" State: \"f\" 0 \"g\" State: 0 {0} \"h\" state: 1 \"i\" State: 2 2 \"j\"",
        None,
        [None, None, None],
    ),
    // one string alone is a name
    (
        "name: \"a\" \"b\" State: 0 \"c\" \"d\"",
        Some("a"),
        [Some("c"), None, None],
    ),
    // numbers: leading zeros are numbers of their own, and no number wraps around
    (
        "State: 00 \"a\" State: 01 \"b\" State: 3 \"c\" State: 4294967295 \"d\" State: 4294967297 \"e\"",
        None,
        [None, None, None],
    ),
    (
        "State: 18446744073709551616 \"a\" State: 18446744073709551617 \"b\" State: 2 \"c\"",
        None,
        [None, None, Some("c")],
    ),
    (
        "State: 10000000000000000000000000000000000000000000000000000000000000000000000000000000000000000000000000 \"a\" State: 1 \"b\"",
        None,
        [None, Some("b"), None],
    ),
    // an unknown byte, a string and a comment without an end
    (
        "name: \"a\" State: 0 \"b\" ? State: 1 \"c\"",
        Some("a"),
        [Some("b"), None, None],
    ),
    ("State: 0 \"b\" name: \"a", None, [Some("b"), None, None]),
    (
        "State: 0 \"b\" /* State: 1 \"c\" /* */ State: 2 \"d\"",
        None,
        [Some("b"), None, None],
    ),
];

/// The names of a short text, or `None` if memory is refused.
fn names_in<'a, A: Allocator>(alloc: &'a A, text: &[u8], states: usize) -> Option<HoaNames<'a, A>> {
    if text.len() < 4_294_967_296 && states < 4_294_967_296 {
        hoa_names(alloc, text, states).ok()
    } else {
        None
    }
}

/// Whether the name is the wanted one, or there should be none and there is none.
fn is_name(name: Option<&[u8]>, wanted: Option<&str>) -> bool {
    match (name, wanted) {
        (Some(name), Some(wanted)) => name == wanted.as_bytes(),
        (None, None) => true,
        _ => false,
    }
}

#[test]
fn named(rt: HostRuntime) {
    let alloc = rt.alloc();
    for i in 0..NAMED.len() {
        let (text, automaton, states) = NAMED[i];
        let names = names_in(&alloc, text.as_bytes(), 3);
        assert!(rt;
            names.is_some_and(|names| {
                is_name(names.automaton(), automaton)
                    && is_name(names.state(0), states[0])
                    && is_name(names.state(1), states[1])
                    && is_name(names.state(2), states[2])
                    && names.state(3).is_none()
                    && names.state(usize::MAX).is_none()
            }),
            "{text}"
        );
    }
}

#[test]
fn states_that_are_asked_for(rt: HostRuntime) {
    let alloc = rt.alloc();
    let text = b"State: 1 \"b\" State: 0 \"a\" name: \"\xff\xfe\"";
    let none = names_in(&alloc, text, 0);
    assert!(rt;
        none.is_some_and(|names| {
            names.state(0).is_none() && names.automaton() == Some(b"\xff\xfe".as_slice())
        })
    );
    let one = names_in(&alloc, text, 1);
    assert!(rt;
        one.is_some_and(|names| is_name(names.state(0), Some("a")) && names.state(1).is_none())
    );
}
