//! Tests of reading automata over readers of which no contract speaks: those that give a text in pieces, fail, or count what is taken; and of the memory that
//! this takes. What a text reads as, and which fault it has, is proved. `tests/ltlcheck.json` and `tests/ltldraw.json` have examples.

use crate::readers::{Pieces, Spaces};
use ltl_hoa::{HoaFault, HoaFaultKind, Marked, hoa_read};
use refusing::Refusing;
use std::alloc::Allocator;

/// The number of texts without a fault.
const AUTOMATA: usize = 5;

/// Texts of automata, and then some with a fault in the first line, within, at the end and behind it.
const TEXTS: [&str; 9] = [
    "HOA: v1\nStates: 2\nStart: 0\nAP: 1 \"p\"\nAcceptance: 1 Inf(0)\n--BODY--\nState: 0 {0}\n[0] 1\nState: 1\n[!0] 0\n--END--\n",
    "HOA: v1\nStates: 1\nStart: 0\nAP: 1 \"p\"\nAcceptance: 0 t\n--BODY--\nState: 0\n[!0] 0\n--END--\n",
    // sets on a state, on an edge, and on both
    "HOA: v1\nStates: 2\nStart: 1\nAP: 1 \"p\"\nAcceptance: 2 Inf(0) & /* both */ Inf(1)\n--BODY--\nState: 0 {1 0}\n[0] 1\nState: 1 {1}\n[!0] 0 {0}\n[t] 1\n--END--\n",
    // as many sets as are allowed
    "HOA: v1\nStates: 1\nStart: 0\nAP: 1 \"p\"\nAcceptance: 32 Inf(0)&Inf(1)&Inf(2)&Inf(3)&Inf(4)&Inf(5)&Inf(6)&Inf(7)&Inf(8)&Inf(9)&Inf(10)&Inf(11)&Inf(12)&Inf(13)&Inf(14)&Inf(15)&Inf(16)&Inf(17)&Inf(18)&Inf(19)&Inf(20)&Inf(21)&Inf(22)&Inf(23)&Inf(24)&Inf(25)&Inf(26)&Inf(27)&Inf(28)&Inf(29)&Inf(30)&Inf(31)\n--BODY--\nState: 0 {31}\n[!0] 0\n--END--\n",
    // a name, and labels of four cubes, of two, of one and of none
    "HOA: v1\nname: \"say \\\"p\\\"\" States: 1\nStart: 0\nAP: 4 \"p0\" \"p1\" \"p2\" \"p3\"\nAcceptance: 1 Inf(0)\n--BODY--\nState: 0 {0}\n[(0|1)&(2|3)] 0 [!(0&1)] 0 [!f] 0 [0&!0] 0\n--END--\n",
    "HOA: v2\nStates: 1\nStart: 0\nAP: 1 \"p\"\nAcceptance: 1 Inf(0)\n--BODY--\nState: 0 {0}\n[!0] 0\n--END--\n",
    "HOA: v1\nStates: 1\nStart: 0\nAP: 1 \"p\"\nAcceptance: 1 Inf(0)\n--BODY--\nState: 0 {0}\n[!0] 0&0\n--END--\n",
    "HOA: v1\nStates: 1\nStart: 0\nAP: 1 \"p\"\nAcceptance: 1 Inf(0)\n--BODY--\nState: 0 {0}\n",
    "HOA: v1\nStates: 1\nStart: 0\nAP: 1 \"p\"\nAcceptance: 1 Inf(0)\n--BODY--\nState: 0 {0}\n[!0] 0\n--END--\nx\n",
];

/// A number that depends on the names of the propositions.
fn names_sum<A: Allocator>(automaton: &Marked<'_, A>) -> u64 {
    let mut sum = 0u64;
    for name in automaton.names() {
        for byte in name.as_bytes() {
            sum = sum.wrapping_mul(257).wrapping_add(*byte as u64);
        }
        sum = sum.wrapping_mul(257);
    }
    sum
}

/// Whether two automata have the same parts.
fn is_same<A: Allocator>(one: &Marked<'_, A>, two: &Marked<'_, A>) -> bool {
    if one.len() != two.len() || one.start() != two.start() || one.sets() != two.sets() {
        return false;
    }
    for state in 0..one.len() {
        if one.edges(state) != two.edges(state) {
            return false;
        }
    }
    names_sum(one) == names_sum(two)
}

/// Whether both are the same automaton or the same fault.
fn agree<A: Allocator>(
    one: &Result<Marked<'_, A>, HoaFault>,
    two: &Result<Marked<'_, A>, HoaFault>,
) -> bool {
    match (one, two) {
        (Ok(one), Ok(two)) => is_same(one, two),
        (Err(one), Err(two)) => one == two,
        _ => false,
    }
}

/// Whatever the pieces, the answer is that for a slice, of which the contract speaks, and the text is read to its end, even if it has a fault.
#[test]
fn in_pieces(rt: HostRuntime) {
    let alloc = rt.alloc();
    for i in 0..TEXTS.len() {
        let text = TEXTS[i];
        let wanted = hoa_read(&alloc, &mut text.as_bytes());
        assert_eq!(rt; wanted.is_ok(), i < AUTOMATA, "{text}");
        for size in [1usize, 2, 3, 7, 4_096] {
            let mut reader = Pieces {
                rest: text.as_bytes(),
                size,
                left: usize::MAX,
            };
            let read = hoa_read(&alloc, &mut reader);
            assert!(rt; agree(&read, &wanted), "{text}");
            assert!(rt; reader.rest.is_empty());
        }
    }
}

/// A read that fails is reported, whatever was read before.
#[test]
fn each_read_fails(rt: HostRuntime) {
    let alloc = rt.alloc();
    for left in 0..3 {
        for text in TEXTS {
            let mut reader = Pieces {
                rest: text.as_bytes(),
                size: 40,
                left,
            };
            let fault = hoa_read(&alloc, &mut reader).err();
            if left * 40 < text.len() {
                assert_eq!(rt; fault, Some(HoaFault::CannotRead));
            }
        }
    }
}

/// One byte past the limit is read, and no more.
#[test]
fn spaces_to_the_limit(rt: HostRuntime) {
    let alloc = rt.alloc();
    let mut within = Spaces {
        text: b"",
        left: 16_777_216,
    };
    let read = hoa_read(&alloc, &mut within);
    assert_eq!(rt;
        read.err(),
        Some(HoaFault::AtLine(1, HoaFaultKind::NotHoaVersion1))
    );
    let mut past = Spaces {
        text: b"",
        left: 16_777_218,
    };
    let read = hoa_read(&alloc, &mut past);
    assert_eq!(rt;
        read.err(),
        Some(HoaFault::AtLine(1, HoaFaultKind::LimitPassed))
    );
    assert_eq!(rt; past.left, 1);
}

/// Nothing is allocated, so nothing is refused.
#[test]
fn spaces_without_memory(rt: HostRuntime) {
    let alloc = Refusing::new(rt.alloc(), 1);
    let read = hoa_read(
        &alloc,
        &mut Spaces {
            text: b"",
            left: 10_000_000,
        },
    );
    assert_eq!(rt;
        read.err(),
        Some(HoaFault::AtLine(1, HoaFaultKind::NotHoaVersion1))
    );
    assert!(rt; !alloc.has_refused());
}
