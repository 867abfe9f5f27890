//! The inputs of the calls.

/// A formula, a word, an automaton and a claim, for the calls of the libraries.
#[derive(Clone, Copy, Drop)]
pub(crate) struct Case<'a> {
    pub(crate) formula: &'a str,
    pub(crate) word: &'a str,
    pub(crate) automaton: &'a str,
    pub(crate) claim: &'a str,
}

const LOOP: &str =
    "HOA: v1\nStates: 1\nStart: 0\nAP: 1 \"p\"\nAcceptance: 1 Inf(0)\n--BODY--\nState: 0 {0}\n[!0] 0\n--END--\n";

const TURNS: &str =
    "HOA: v1\nStates: 2\nStart: 0\nAP: 1 \"p\"\nAcceptance: 1 Inf(0)\n--BODY--\nState: 0 {0}\n[0] 1\nState: 1\n[!0] 0\n--END--\n";

const LABELS: &str =
    "HOA: v1\nname: \"x\"\nStates: 2\nStart: 1\nAP: 6 \"a\" \"b\" \"c\" \"d\" \"e\" \"f\"\nAcceptance: 2 Inf(0)&Inf(1)\n--BODY--\nState: 1 \"one\" {0}\n[(t|0)&(t|1)&(t|2)&(t|3)&!(4&5)&((t|0)&(t|1)&(t|2)&(t|3)&(t|4))] 0 {1}\nState: 0 \"\\\"0\\\"\"\n[((((!(0|((1))))))) | 2&3 | 2&3] 1\n--END--\n";

const PRINTED: &str =
    "never { /* []p */\naccept_init:\n  do\n  :: (p) -> goto accept_init\n  :: atomic { (!p) -> assert(!(!p)) }\n  od;\naccept_all:\n  skip\n}\n";

const CHOICES: &str =
    "never n { goto M; p; M: do :: q -> break :: else -> goto T :: p; if :: goto T :: assert(r) fi od; T: accept_1: atomic { p -> assert(q && !r) } }";

const GUARDS: &str =
    "never { if :: a && (b || !(c && d)) || e || 1 :: else -> do :: !(((((((f))))))) && skip -> if :: a; break :: true fi; g; h :: goto L; i od fi; L: (false) }";

pub(crate) const CASES: [Case<'static>; 6] = [
    Case {
        formula: "[]<>p",
        word: "{p}; cycle {}; {p}",
        automaton: LOOP,
        claim: PRINTED,
    },
    Case {
        formula: "<>p && <>q",
        word: "cycle {p}; {q}; {p,q}",
        automaton: TURNS,
        claim: CHOICES,
    },
    Case {
        formula: "!(p U q)",
        word: "{b,a,b}; cycle {}; {}",
        automaton: LABELS,
        claim: GUARDS,
    },
    Case {
        formula: "<>p || X[]true",
        word: "cycle {}",
        automaton: LOOP,
        claim: PRINTED,
    },
    Case {
        formula: "p <-> (q V X r)",
        word: "{p}; {q}; cycle {r}; {r}",
        automaton: TURNS,
        claim: GUARDS,
    },
    Case {
        formula: "(p || (p && q)) && X <>q",
        word: "{p,q}; cycle {q}",
        automaton: LOOP,
        claim: CHOICES,
    },
];
