//! Tests of the reduction of generalized automata: how small the result is, and refused allocations. No clause says that a step of `reduce` succeeds.

use ltl_alt::{Gba, Reach};
use ltl_formula::Table;
use ltl_reduce::reduce;
use ltl_syntax::read;
use refusing::Refusing;
use std::alloc::Allocator;

/// The numbers of states and edges of an automaton.
type Size = (usize, usize);

/// The sizes of a formula's automaton and of its reduction.
type Sizes = (Size, Size);

/// Formulas that no word satisfies, and the sizes of their automata. The reduction has the initial state alone, and no edge.
const UNSATISFIABLE: [(&str, Size); 4] = [
    ("p && X !p && []p", (2, 1)),
    ("(p U q) && []!q", (2, 2)),
    ("<>p && []!p", (2, 2)),
    ("[]<>p && <>[]!p", (4, 10)),
];

/// Formulas, and the sizes of their automata before and after reduction. The sizes come from another program that makes the automata by their definition and
/// reduces them by simulation, and that compares labels letter by letter.
const REDUCED: [(&str, Sizes); 16] = [
    ("true", ((2, 2), (1, 1))),
    ("[]<>p", ((2, 4), (1, 2))),
    ("<>p && <>q", ((5, 13), (4, 9))),
    ("[]<>p && []<>q", ((5, 20), (2, 5))),
    ("!([]<>p -> []<>q)", ((5, 16), (2, 4))),
    ("[]<>p || []<>q", ((5, 12), (3, 6))),
    ("<>p && [](p -> q)", ((3, 8), (2, 5))),
    ("<>(p U q)", ((3, 6), (2, 3))),
    ("[](p U q)", ((2, 4), (1, 2))),
    ("[](p U (q U r))", ((3, 8), (2, 5))),
    ("[](p && q) || []p && []q", ((3, 4), (1, 1))),
    ("(p V q) || []q", ((4, 7), (2, 3))),
    ("!(<>p -> q U r)", ((5, 13), (4, 9))),
    ("<>p && <>q && <>r", ((9, 35), (8, 27))),
    ("[](p -> <>q)", ((2, 5), (2, 5))),
    ("<>[]p || <>[]q", ((5, 10), (5, 10))),
];

/// More allocations than a reduction here makes.
const MOST_GROWTHS: u64 = 10_000;

fn size<A: Allocator>(automaton: &Gba<'_, A>) -> Size {
    let mut edges = 0usize;
    for s in 0..automaton.len() {
        edges = edges.saturating_add(automaton.edges(s).len());
    }
    (automaton.len(), edges)
}

/// The automaton of a formula, as it is before states are merged.
fn made<'a, A: Allocator>(alloc: &'a A, text: &str) -> Option<Gba<'a, A>> {
    let formula = read(alloc, text.as_bytes()).ok()?;
    let table = Table::build(alloc, &formula, false, true).ok()?;
    Gba::reach(alloc, &table, false).ok()
}

/// The sizes of the automaton of a formula and of its reduction.
fn sizes<A: Allocator>(alloc: &A, text: &str) -> Option<Sizes> {
    let automaton = made(alloc, text)?;
    let before = size(&automaton);
    let smaller = reduce(alloc, automaton).ok()?;
    Some((before, size(&smaller)))
}

#[test]
fn reductions_of_unsatisfiable_formulas(rt: HostRuntime) {
    let alloc = rt.alloc();
    for (text, before) in UNSATISFIABLE {
        assert_eq!(rt; sizes(&alloc, text), Some((before, (1, 0))), "{text}");
    }
}

#[test]
fn sizes_of_reductions(rt: HostRuntime) {
    let alloc = rt.alloc();
    for (text, wanted) in REDUCED {
        assert_eq!(rt; sizes(&alloc, text), Some(wanted), "{text}");
    }
}

/// A reduction that is reduced again keeps its size.
#[test]
fn reductions_of_reductions(rt: HostRuntime) {
    let alloc = rt.alloc();
    for (text, (_, wanted)) in REDUCED {
        let automaton = made(&alloc, text).expect(&rt, "an automaton");
        let once = reduce(&alloc, automaton).ok().expect(&rt, "memory");
        let twice = reduce(&alloc, once).ok().expect(&rt, "memory");
        assert_eq!(rt; size(&twice), wanted, "{text}");
    }
}

/// If an allocation of a reduction is refused, lack of memory is the answer, and a reduction of the same automaton, made anew, has its size.
#[test]
fn each_growth_of_a_reduction_refused(rt: HostRuntime) {
    for (text, wanted) in [REDUCED[3], REDUCED[12]] {
        let mut refused = false;
        let mut whole = false;
        for n in 1..MOST_GROWTHS {
            let alloc = Refusing::new(rt.alloc(), n);
            let Some(automaton) = made(&alloc, text) else {
                assert!(rt; alloc.has_refused());
                continue;
            };
            assert!(rt; !alloc.has_refused());
            let answer = reduce(&alloc, automaton);
            if !alloc.has_refused() {
                whole = answer.is_ok();
                break;
            }
            assert!(rt; answer.is_err());
            assert_eq!(rt; sizes(&alloc, text), Some(wanted));
            refused = true;
        }
        assert!(rt; refused && whole, "{text}");
    }
}
