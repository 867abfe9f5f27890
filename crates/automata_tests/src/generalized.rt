//! Tests of generalized automata of formulas, and of their texts.

use ltl_buchi::{BaFault, Options, generalized};
use ltl_formula::Table;
use ltl_syntax::read;
use ltl_text::gen_to;
use refusing::Refusing;
use std::alloc::Global;
use std::io::{self, Write};
use std::process::Abort;

/// A writer that takes one byte in each call, and fails when `room` is used up.
#[derive(Drop)]
struct Narrow {
    held: Vec<u8>,
    room: usize,
}

impl Write for Narrow {
    fn write(&mut self, buf: &[u8]) -> io::Result<usize> {
        if self.room == 0 {
            return Err(io::Error::from(io::ErrorKind::Other));
        }
        let n = buf.len().min(1);
        self.held.extend_from_slice(&buf[..n])?;
        self.room -= n;
        Ok(n)
    }

    fn flush(&mut self) -> io::Result<()> {
        Ok(())
    }
}

/// Formulas, and the texts of their automata after merging. In the last one, states 1 and 2 are bisimilar; merging leaves them apart.
const MERGED: [(&str, &str); 6] = [
    (
        "[]<>p",
        "HOA: v1\nname: \"[]<>p\"\nStates: 1\nStart: 0\nAP: 1 \"p\"\nacc-name: generalized-Buchi 1\nAcceptance: 1 Inf(0)\nproperties: trans-labels explicit-labels trans-acc\n--BODY--\nState: 0\n[t] 0\n[0] 0 {0}\n--END--\n",
    ),
    (
        "<>p && <>q",
        "HOA: v1\nname: \"(<>p && <>q)\"\nStates: 4\nStart: 0\nAP: 2 \"p\" \"q\"\nacc-name: generalized-Buchi 2\nAcceptance: 2 Inf(0)&Inf(1)\nproperties: trans-labels explicit-labels trans-acc\n--BODY--\nState: 0\n[t] 0\n[0] 1 {0}\n[0&1] 2 {0 1}\n[1] 3 {1}\nState: 1\n[t] 1 {0}\n[1] 2 {0 1}\nState: 2\n[t] 2 {0 1}\nState: 3\n[t] 3 {1}\n[0] 2 {0 1}\n--END--\n",
    ),
    (
        "true",
        "HOA: v1\nname: \"true\"\nStates: 1\nStart: 0\nAP: 0\nacc-name: all\nAcceptance: 0 t\nproperties: trans-labels explicit-labels trans-acc\n--BODY--\nState: 0\n[t] 0\n--END--\n",
    ),
    (
        "false",
        "HOA: v1\nname: \"false\"\nStates: 1\nStart: 0\nAP: 0\nacc-name: all\nAcceptance: 0 t\nproperties: trans-labels explicit-labels trans-acc\n--BODY--\nState: 0\n--END--\n",
    ),
    (
        "!(<>p -> q U r)",
        "HOA: v1\nname: \"!(<>p -> (q U r))\"\nStates: 4\nStart: 0\nAP: 3 \"p\" \"q\" \"r\"\nacc-name: generalized-Buchi 1\nAcceptance: 1 Inf(0)\nproperties: trans-labels explicit-labels trans-acc\n--BODY--\nState: 0\n[0&!1&!2] 1 {0}\n[0&!2] 2 {0}\n[!1&!2] 3\n[!2] 0\nState: 1\n[t] 1 {0}\nState: 2\n[!1&!2] 1 {0}\n[!2] 2 {0}\nState: 3\n[t] 3\n[0] 1 {0}\n--END--\n",
    ),
    (
        "[](p && q) || []p && []q",
        "HOA: v1\nname: \"([](p && q) || ([]p && []q))\"\nStates: 3\nStart: 0\nAP: 2 \"p\" \"q\"\nacc-name: all\nAcceptance: 0 t\nproperties: trans-labels explicit-labels trans-acc\n--BODY--\nState: 0\n[0&1] 1\n[0&1] 2\nState: 1\n[0&1] 1\nState: 2\n[0&1] 2\n--END--\n",
    ),
];

/// The automaton of `[]<>p` if states with equal edges are kept, and if subsumed edges are kept.
const KEPT: [(bool, bool, &str); 2] = [
    (
        false,
        true,
        "HOA: v1\nname: \"[]<>p\"\nStates: 2\nStart: 0\nAP: 1 \"p\"\nacc-name: generalized-Buchi 1\nAcceptance: 1 Inf(0)\nproperties: trans-labels explicit-labels trans-acc\n--BODY--\nState: 0\n[t] 1\n[0] 0 {0}\nState: 1\n[t] 1\n[0] 0 {0}\n--END--\n",
    ),
    (
        true,
        false,
        "HOA: v1\nname: \"[]<>p\"\nStates: 2\nStart: 0\nAP: 1 \"p\"\nacc-name: generalized-Buchi 1\nAcceptance: 1 Inf(0)\nproperties: trans-labels explicit-labels trans-acc\n--BODY--\nState: 0\n[t] 1\n[0] 0 {0}\nState: 1\n[t] 1\n[0] 0 {0}\n[0] 1 {0}\n--END--\n",
    ),
];

const NOTHING_KEPT: Options = Options {
    keep_implied: false,
    keep_equal: false,
};

/// What a writer with this room takes of the automaton's text, and whether that was all.
fn printed(
    rt: &impl Abort,
    alloc: &Global,
    formula: &str,
    options: &Options,
    room: usize,
) -> (Vec<u8>, bool) {
    let formula = read(alloc, formula.as_bytes()).ok().expect(rt, "a formula");
    let table = Table::build(alloc, &formula, false, true)
        .ok()
        .expect(rt, "a table");
    let automaton = generalized(alloc, &table, options)
        .ok()
        .expect(rt, "an automaton");
    let mut writer = Narrow {
        held: Vec::new(*alloc),
        room,
    };
    let is_whole = gen_to(&automaton, &formula, &mut writer).is_ok();
    let Narrow { held, room: _ } = writer;
    (held, is_whole)
}

#[test]
fn merged_automata(rt: HostRuntime) {
    let alloc = rt.alloc();
    for (formula, text) in MERGED {
        let (held, is_whole) = printed(&rt, &alloc, formula, &NOTHING_KEPT, 4096);
        assert!(rt; is_whole, "{formula}");
        assert_eq!(rt; held.as_slice(), text.as_bytes(), "{formula}");
    }
}

#[test]
fn automata_by_options(rt: HostRuntime) {
    let alloc = rt.alloc();
    for (keep_implied, keep_equal, text) in KEPT {
        let options = Options {
            keep_implied,
            keep_equal,
        };
        let (held, _) = printed(&rt, &alloc, "[]<>p", &options, 4096);
        assert_eq!(rt; held.as_slice(), text.as_bytes());
    }
}

/// If the writer fails, what it took is a prefix of the text.
#[test]
fn each_byte_refused(rt: HostRuntime) {
    let alloc = rt.alloc();
    let (formula, text) = MERGED[1];
    let whole = text.as_bytes();
    for room in 0..400 {
        let (held, is_whole) = printed(&rt, &alloc, formula, &NOTHING_KEPT, room);
        assert_eq!(rt; is_whole, room >= whole.len());
        assert_eq!(rt; held.as_slice(), &whole[..room.min(whole.len())]);
    }
}

#[test]
fn each_growth_refused(rt: HostRuntime) {
    let plain = rt.alloc();
    let (formula, _) = MERGED[1];
    let formula = read(&plain, formula.as_bytes())
        .ok()
        .expect(&rt, "a formula");
    for n in 1..200 {
        let alloc = Refusing::new(rt.alloc(), n);
        let Ok(table) = Table::build(&alloc, &formula, false, true) else {
            assert!(rt; alloc.has_refused());
            continue;
        };
        let fault = generalized(&alloc, &table, &NOTHING_KEPT).err();
        let wanted = if alloc.has_refused() {
            Some(BaFault::OutOfMemory)
        } else {
            None
        };
        assert_eq!(rt; fault, wanted);
    }
}
