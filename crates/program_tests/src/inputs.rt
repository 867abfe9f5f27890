//! The inputs of the programs.

use ltl_words::Tool;

/// The words of a program, and the content of its formula file, or of its automaton if it has no such file.
#[derive(Clone, Copy, Drop)]
pub(crate) struct Run<'a> {
    pub(crate) name: &'a str,
    pub(crate) tool: Tool,
    pub(crate) words: &'a [&'a str],
    pub(crate) input: &'a str,
}

pub(crate) const LOOP: &str =
    "HOA: v1\nStates: 1\nStart: 0\nAP: 1 \"p\"\nAcceptance: 1 Inf(0)\n--BODY--\nState: 0 {0}\n[!0] 0\n--END--\n";

const TURNS: &str =
    "HOA: v1\nStates: 2\nStart: 0\nAP: 1 \"p\"\nAcceptance: 1 Inf(0)\n--BODY--\nState: 0 {0}\n[0] 1\nState: 1\n[!0] 0\n--END--\n";

/// An automaton with more states than are allowed.
pub(crate) const MANY: &str =
    "HOA: v1\nStates: 4294967295\nStart: 0\nAP: 1 \"p\"\nAcceptance: 1 Inf(0)\n--BODY--\nState: 0 {0}\n[!0] 0\n--END--\n";

pub(crate) const RUNS: [Run<'static>; 11] = [
    Run {
        name: "claim",
        tool: Tool::Translator,
        words: &["ltl2ba", "-f", "[]<>p"],
        input: "",
    },
    Run {
        name: "claim of an unrewritten formula",
        tool: Tool::Translator,
        words: &["ltl2ba", "-l", "-p", "-f", "<>p || X[]true"],
        input: "",
    },
    Run {
        name: "two levels in one step",
        tool: Tool::Translator,
        words: &["ltl2ba", "-f", "<>p && <>q"],
        input: "",
    },
    Run {
        name: "HOA",
        tool: Tool::Translator,
        words: &["ltl2ba", "-H", "-f", "!(p U q)"],
        input: "",
    },
    Run {
        name: "violated",
        tool: Tool::Checker,
        words: &["ltlcheck", "-f", "<>p"],
        input: LOOP,
    },
    Run {
        name: "contained",
        tool: Tool::Checker,
        words: &["ltlcheck", "-f", "[]!p"],
        input: LOOP,
    },
    Run {
        name: "violated in turns",
        tool: Tool::Checker,
        words: &["ltlcheck", "-f", "[]p"],
        input: TURNS,
    },
    Run {
        name: "truth",
        tool: Tool::Evaluator,
        words: &["ltleval", "-f", "p && X[]!p", "-w", "{p}; cycle {}"],
        input: "",
    },
    Run {
        name: "claim of a file's formula",
        tool: Tool::Translator,
        words: &["ltl2ba", "-F", "x"],
        input: "(p V q) && X !q",
    },
    Run {
        name: "check of a file's formula",
        tool: Tool::Checker,
        words: &["ltlcheck", "-F", "x"],
        input: "<>p",
    },
    Run {
        name: "truth of a file's formula",
        tool: Tool::Evaluator,
        words: &["ltleval", "-F", "x", "-w", "cycle {p}; {}"],
        input: "[]p",
    },
];
