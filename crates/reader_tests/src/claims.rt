//! Tests of reading claims over readers of which no contract speaks: those that give a text in pieces, fail, or count what is taken; at the limits, and at
//! depths that no stack of calls would bear. Which claim a text is, and which fault it has, is proved. `tests/ltlclaim.json` has examples.

use crate::readers::{Pieces, Spaces};
use ltl_claim::{Claim, ClaimFault, ClaimFaultKind, claim_read};
use std::alloc::{Allocator, Global};
use std::process::Abort;

/// Texts of claims: jumps, each kind of option and of head, labels at one place, comments, brackets, and claims that begin at their end.
const CLAIMS: [&str; 8] = [
    "never { /* []p */\naccept_init:\n  do\n  :: (p) -> goto accept_init\n  :: atomic { (!p) -> assert(!(!p)) }\n  od;\naccept_all:\n  skip\n}\n",
    "never named { p; do :: q -> break :: else -> goto L0 :: break :: goto L1 od; L0: accept_1: assert(r); L1: skip }",
    "never{if::!!p&&(q||1)||0->;;if::else::true->r fi::false;s fi}",
    "never { do :: p; do :: q; if :: p -> break :: q fi; break :: else od :: break od ; x_1 }",
    "never { atomic { p -> assert(q && p); } -> M: if :: goto M :: assert(m_1) fi; M_1: p }",
    "never { goto L; p; L: q }",
    "never { if :: p -> goto B fi; q; A: B: if :: goto A fi }",
    "never { p && q && p || r && (q || p) || !(r && !q) }",
];

/// Texts with a fault, and its line, its column and its kind.
const REFUSED: [(&str, usize, usize, ClaimFaultKind); 36] = [
    // the beginning
    ("", 1, 1, ClaimFaultKind::NotANeverClaim),
    ("never", 1, 6, ClaimFaultKind::NotANeverClaim),
    ("never n n {", 1, 9, ClaimFaultKind::NotANeverClaim),
    ("/* never { p }", 1, 1, ClaimFaultKind::NotANeverClaim),
    // what Promela has and the profile doesn't
    (
        "never {\n  p;\n  x == y\n}",
        3,
        5,
        ClaimFaultKind::Unsupported,
    ),
    ("never { p ->\n { q } }", 2, 2, ClaimFaultKind::Unsupported),
    (
        "never { do :: if :: p fi od }",
        1,
        15,
        ClaimFaultKind::Unsupported,
    ),
    (
        "never { do ::\n\n  L: p od }",
        3,
        3,
        ClaimFaultKind::Unsupported,
    ),
    ("never { (p -> q) }", 1, 12, ClaimFaultKind::Unsupported),
    (
        "never { atomic { p; q } }",
        1,
        21,
        ClaimFaultKind::Unsupported,
    ),
    (
        "never { atomic { p; assert(q); r } }",
        1,
        32,
        ClaimFaultKind::Unsupported,
    ),
    ("never { endless: p }", 1, 9, ClaimFaultKind::Unsupported),
    (
        "never { if :: p; L: fi }",
        1,
        21,
        ClaimFaultKind::Unsupported,
    ),
    ("never { p != q }", 1, 11, ClaimFaultKind::Unsupported),
    // names, labels, `else` and `break`
    ("never { p && q_ && _r }", 1, 20, ClaimFaultKind::BadName),
    (
        "never { L: p;\nM: q;\nL: r }",
        3,
        1,
        ClaimFaultKind::LabelTwice,
    ),
    (
        "never { if :: else -> do :: else :: p\n:: else od fi }",
        2,
        4,
        ClaimFaultKind::ElseTwice,
    ),
    (
        "never { p; break }",
        1,
        12,
        ClaimFaultKind::BreakOutsideOfDo,
    ),
    (
        "never { do :: p od;\nif :: break fi }",
        2,
        7,
        ClaimFaultKind::BreakOutsideOfDo,
    ),
    (
        "never { M: do :: goto M\n:: goto L\n:: goto K od }",
        2,
        9,
        ClaimFaultKind::UndefinedLabel,
    ),
    // bad tokens
    ("never { }", 1, 9, ClaimFaultKind::BadToken),
    ("never { p p }", 1, 11, ClaimFaultKind::BadToken),
    ("never { p; ; q ) }", 1, 16, ClaimFaultKind::BadToken),
    ("never { p && }", 1, 14, ClaimFaultKind::BadToken),
    ("never { do p od }", 1, 12, ClaimFaultKind::BadToken),
    ("never { if fi }", 1, 12, ClaimFaultKind::BadToken),
    ("never { else }", 1, 9, ClaimFaultKind::BadToken),
    ("never { p $ }", 1, 11, ClaimFaultKind::BadToken),
    // the end
    ("never { p", 1, 10, ClaimFaultKind::BadToken),
    ("never { p\n/* no end", 2, 1, ClaimFaultKind::BadToken),
    (
        "never { p } never { q }",
        1,
        13,
        ClaimFaultKind::TextAfterEnd,
    ),
    ("never { p } /* ", 1, 13, ClaimFaultKind::TextAfterEnd),
    // of two faults the first token that doesn't fit, and then the first label that is missing
    ("never { goto L; P }", 1, 17, ClaimFaultKind::BadName),
    (
        "never { goto L; goto K; p q }",
        1,
        27,
        ClaimFaultKind::BadToken,
    ),
    ("never { P; L: p; L: q }", 1, 9, ClaimFaultKind::BadName),
    (
        "never { end: p; end: q }",
        1,
        9,
        ClaimFaultKind::Unsupported,
    ),
];

/// Whether two claims have the same names.
fn are_names_same<A: Allocator>(one: &Claim<'_, A>, two: &Claim<'_, A>) -> bool {
    if one.names().len() != two.names().len() {
        return false;
    }
    for (name, other) in one.names().iter().zip(two.names()) {
        if name.as_bytes() != other.as_bytes() {
            return false;
        }
    }
    true
}

/// Whether two claims have the same parts.
fn is_same<A: Allocator>(one: &Claim<'_, A>, two: &Claim<'_, A>) -> bool {
    if one.len() != two.len() || one.start() != two.start() {
        return false;
    }
    for state in 0..one.len() {
        if one.accepting(state) != two.accepting(state) {
            return false;
        }
        let (moves, others) = (one.moves(state), two.moves(state));
        if moves.len() != others.len() {
            return false;
        }
        for (one_move, other) in moves.iter().zip(others) {
            if one_move.guard() != other.guard() || one_move.target() != other.target() {
                return false;
            }
        }
    }
    are_names_same(one, two)
}

/// Parts of a text, each as often as stands beside it, one behind the other.
fn text_of(alloc: Global, parts: &[(&str, usize)]) -> Vec<u8> {
    let mut text = Vec::new(alloc);
    for part in parts {
        for _ in 0..part.1 {
            if text.extend_from_slice(part.0.as_bytes()).is_err() {
                return text;
            }
        }
    }
    text
}

/// The first line of a claim, and so many lines, each with another name.
fn lines_of_names(alloc: Global, count: usize) -> Vec<u8> {
    let mut text = Vec::new(alloc);
    if text.extend_from_slice(b"never {\n").is_err() {
        return text;
    }
    for k in 0..count {
        let line = [
            b'x',
            b'0' + (k / 100 % 10) as u8,
            b'0' + (k / 10 % 10) as u8,
            b'0' + (k % 10) as u8,
            b';',
            b'\n',
        ];
        if text.extend_from_slice(&line).is_err() {
            return text;
        }
    }
    text
}

fn claim<'a, R: Abort>(rt: &R, alloc: &'a Global, text: &[u8]) -> Claim<'a, Global> {
    let mut reader = text;
    claim_read(alloc, &mut reader).expect(rt, "a claim")
}

fn fault(alloc: &Global, text: &[u8]) -> Option<ClaimFault> {
    let mut reader = text;
    claim_read(alloc, &mut reader).err()
}

/// Whatever the pieces, the claim is that for a slice, of which the contract speaks, and the text is read to its end.
#[test]
fn in_pieces(rt: HostRuntime) {
    let alloc = rt.alloc();
    for text in CLAIMS {
        let wanted = claim(&rt, &alloc, text.as_bytes());
        for size in [1usize, 2, 3, 7, 4_096] {
            let mut reader = Pieces {
                rest: text.as_bytes(),
                size,
                left: usize::MAX,
            };
            let read = claim_read(&alloc, &mut reader).expect(&rt, "a claim");
            assert!(rt; is_same(&read, &wanted), "{text}");
            assert!(rt; reader.rest.is_empty());
        }
    }
}

/// Each fault is told with its line and its column, and the text is read to its end.
#[test]
fn refused(rt: HostRuntime) {
    let alloc = rt.alloc();
    for (text, line, column, kind) in REFUSED {
        for size in [1usize, 5, 4_096] {
            let mut reader = Pieces {
                rest: text.as_bytes(),
                size,
                left: usize::MAX,
            };
            let fault = claim_read(&alloc, &mut reader).err();
            assert_eq!(rt; fault, Some(ClaimFault::At(line, column, kind)), "{text}");
            assert!(rt; reader.rest.is_empty());
        }
    }
}

/// A read that fails is reported, whatever was read before.
#[test]
fn each_read_fails(rt: HostRuntime) {
    let alloc = rt.alloc();
    for left in 0..3 {
        for text in CLAIMS {
            let mut reader = Pieces {
                rest: text.as_bytes(),
                size: 20,
                left,
            };
            let fault = claim_read(&alloc, &mut reader).err();
            if left * 20 < text.len() {
                assert_eq!(rt; fault, Some(ClaimFault::CannotRead));
            }
        }
    }
}

/// A text of 16,777,216 bytes is read. In a longer one the first byte that is too many comes before all other faults, and no byte behind it is read.
#[test]
fn most_bytes(rt: HostRuntime) {
    let alloc = rt.alloc();
    let mut within = Spaces {
        text: b"never { p }",
        left: 16_777_205,
    };
    let read = claim_read(&alloc, &mut within).expect(&rt, "a claim");
    assert_eq!(rt; read.len(), 1);
    let mut past = Spaces {
        text: b"never {\n$",
        left: 16_777_209,
    };
    assert_eq!(rt;
        claim_read(&alloc, &mut past).err(),
        Some(ClaimFault::At(2, 16_777_209, ClaimFaultKind::LimitPassed))
    );
    assert_eq!(rt; past.left, 1);
}

/// At most 65,536 statements. What an option begins with and a jump aren't counted.
#[test]
fn most_statements(rt: HostRuntime) {
    let alloc = rt.alloc();
    let lines = [
        ("never {\n", 1),
        ("p;\n", 65_535),
        ("L: if :: q :: r fi; goto L }", 1),
    ];
    let text = text_of(alloc, &lines);
    assert_eq!(rt; claim(&rt, &alloc, &text).len(), 65_536);
    let lines = [("never {\n", 1), ("p;\n", 65_536), ("L: q }", 1)];
    let text = text_of(alloc, &lines);
    assert_eq!(rt;
        fault(&alloc, &text),
        Some(ClaimFault::At(65_538, 4, ClaimFaultKind::LimitPassed))
    );
}

/// At most 256 names. One that was there before isn't counted.
#[test]
fn most_names(rt: HostRuntime) {
    let alloc = rt.alloc();
    let mut text = lines_of_names(alloc, 256);
    text.extend_from_slice(b"x000 && x255 }")
        .expect(&rt, "memory");
    let read = claim(&rt, &alloc, &text);
    assert_eq!(rt; (read.names().len(), read.len()), (256, 257));
    let mut text = lines_of_names(alloc, 257);
    text.extend_from_slice(b"p }").expect(&rt, "memory");
    assert_eq!(rt;
        fault(&alloc, &text),
        Some(ClaimFault::At(258, 1, ClaimFaultKind::LimitPassed))
    );
}

/// 200,000 brackets.
#[test]
fn brackets(rt: HostRuntime) {
    let alloc = rt.alloc();
    let parts = [
        ("never { ", 1),
        ("(", 200_000),
        ("p", 1),
        (")", 200_000),
        (" }", 1),
    ];
    let text = text_of(alloc, &parts);
    assert_eq!(rt; claim(&rt, &alloc, &text).len(), 1);
    let parts = [
        ("never { ", 1),
        ("(", 200_000),
        ("p", 1),
        (")", 199_999),
        (" }", 1),
    ];
    let text = text_of(alloc, &parts);
    assert_eq!(rt;
        fault(&alloc, &text),
        Some(ClaimFault::At(1, 400_010, ClaimFaultKind::BadToken))
    );
}

/// 60,000 selections in one another. A `break` in them takes no time for those around it.
#[test]
fn selections(rt: HostRuntime) {
    let alloc = rt.alloc();
    let parts = [
        ("never { ", 1),
        ("if :: p -> ", 60_000),
        ("do", 1),
        (" :: break", 100_000),
        (" od", 1),
        (" fi", 60_000),
        (" }", 1),
    ];
    let text = text_of(alloc, &parts);
    assert_eq!(rt; claim(&rt, &alloc, &text).len(), 60_001);
    let parts = [
        ("never { ", 1),
        ("if :: p -> ", 60_000),
        ("break", 1),
        (" fi", 60_000),
        (" }", 1),
    ];
    let text = text_of(alloc, &parts);
    assert_eq!(rt;
        fault(&alloc, &text),
        Some(ClaimFault::At(1, 660_009, ClaimFaultKind::BreakOutsideOfDo))
    );
}

/// The brackets and the selections that are open have to be closed by their own words.
#[test]
fn closed_by_another_word(rt: HostRuntime) {
    let alloc = rt.alloc();
    let parts = [
        ("never { ", 1),
        ("do :: p -> ", 60_000),
        ("q", 1),
        (" od", 59_999),
        (" fi }", 1),
    ];
    let text = text_of(alloc, &parts);
    assert_eq!(rt;
        fault(&alloc, &text),
        Some(ClaimFault::At(1, 840_008, ClaimFaultKind::BadToken))
    );
}
