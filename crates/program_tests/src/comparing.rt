//! Tests of runs of `ltlcompare`, whose formulas are in files.

use ltl_cli::Source;
use ltl_comparison::compare_over;
use ltl_streams::{ReaderSource, WriterSink};
use ltl_words::comparer_plan;
use refusing::{Given, Outcome, Refusing, Taken};
use std::alloc::{Allocator, Global};
use std::process::Abort;

/// More allocations than a run makes.
const MOST_GROWTHS: u64 = 10_000;

/// Both formulas are in files.
const FILES: [&str; 5] = ["ltlcompare", "-F", "first", "-G", "second"];

/// The files of the formulas.
#[derive(Drop)]
struct Files<'t> {
    first: Given<'t>,
    second: Given<'t>,
}

fn whole<'t>(first: &'t str, second: &'t str) -> Files<'t> {
    Files {
        first: Given {
            rest: first.as_bytes(),
            left: usize::MAX,
        },
        second: Given {
            rest: second.as_bytes(),
            left: usize::MAX,
        },
    }
}

/// Runs the program with this command line, which is right, over these writers, and returns its exit status.
fn compared<A: Allocator>(
    memory: Global,
    alloc: &A,
    words: &[&str],
    files: Files<'_>,
    output: &mut Taken,
    message: &mut Taken,
) -> u8 {
    match comparer_plan(memory, words) {
        Ok(plan) => compare_over(
            alloc,
            &plan,
            &mut Source::Input(ReaderSource::new(files.first)),
            &mut Source::Input(ReaderSource::new(files.second)),
            &mut WriterSink::new(output),
            &mut WriterSink::new(message),
        ),
        Err(_) => 99,
    }
}

/// The same, with an output that fails after this number of bytes.
fn ended<A: Allocator>(
    memory: Global,
    alloc: &A,
    words: &[&str],
    files: Files<'_>,
    room: usize,
) -> Outcome {
    let mut output = Taken::new(memory, room);
    let mut message = Taken::new(memory, usize::MAX);
    let status = compared(memory, alloc, words, files, &mut output, &mut message);
    Outcome {
        status,
        output,
        message,
    }
}

/// Compares what a run left with what is wanted. The output is flushed once if the status is 0 or 1, and never if not.
fn expect<R: Abort>(rt: &R, outcome: &Outcome, status: u8, output: &[u8], told: &str) {
    assert!(rt; outcome.is(status, output, told, status < 2), "{told}");
}

/// Texts of two formulas, the output, and the exit status. Each of these formulas has one word over its names, or all of their words satisfy both.
const ANSWERS: [(&str, &str, &str, u8); 6] = [
    ("<>(p || q)", "<>p || <>q", "equivalent\n", 0),
    ("p && <>q", "<>q && p", "equivalent\n", 0),
    (
        "false",
        "[]p",
        "first implies second\nsecond only: cycle {p}\n",
        1,
    ),
    (
        "[]p",
        "false",
        "second implies first\nfirst only: cycle {p}\n",
        1,
    ),
    (
        "[]p",
        "[]!p",
        "incomparable\nfirst only: cycle {p}\nsecond only: cycle {}\n",
        1,
    ),
    (
        "p && !q && X[](!p && !q)",
        "q && !p && X[](!p && !q)",
        "incomparable\nfirst only: {p}; cycle {}\nsecond only: {q}; cycle {}\n",
        1,
    ),
];

#[test]
fn answers(rt: HostRuntime) {
    for (first, second, wanted, status) in ANSWERS {
        let memory = rt.alloc();
        let words = ["ltlcompare", "-f", first, "-g", second];
        let given = ended(memory, &memory, &words, whole("", ""), usize::MAX);
        expect(&rt, &given, status, wanted.as_bytes(), "");
        let read = ended(memory, &memory, &FILES, whole(first, second), usize::MAX);
        expect(&rt, &read, status, wanted.as_bytes(), "");
    }
}

/// Texts of two formulas, and the message.
const REFUSED: [(&str, &str, &str); 4] = [
    (
        "p U",
        "p",
        "ltlcompare: first formula: byte 3: expected operand\n",
    ),
    (
        "p",
        "p U",
        "ltlcompare: second formula: byte 3: expected operand\n",
    ),
    (
        "p q",
        "p U",
        "ltlcompare: first formula: byte 2: expected operator or end\n",
    ),
    (
        "p",
        "",
        "ltlcompare: second formula: byte 0: expected operand\n",
    ),
];

#[test]
fn refusals(rt: HostRuntime) {
    for (first, second, told) in REFUSED {
        let memory = rt.alloc();
        let outcome = ended(memory, &memory, &FILES, whole(first, second), usize::MAX);
        expect(&rt, &outcome, 3, b"", told);
    }
}

/// Each allocation is refused in turn.
#[test]
fn each_growth(rt: HostRuntime) {
    for (first, second, wanted, status) in ANSWERS {
        let mut growths = 0;
        for n in 1..MOST_GROWTHS {
            let alloc = Refusing::new(rt.alloc(), n);
            let files = whole(first, second);
            let outcome = ended(rt.alloc(), &alloc, &FILES, files, usize::MAX);
            if !alloc.has_refused() {
                expect(&rt, &outcome, status, wanted.as_bytes(), "");
                growths = n;
                break;
            }
            expect(&rt, &outcome, 4, b"", "ltlcompare: out of memory\n");
        }
        assert!(rt; growths > 20);
    }
}

/// The output fails after each number of bytes.
#[test]
fn each_byte_of_output(rt: HostRuntime) {
    for (first, second, wanted, _) in ANSWERS {
        for room in 0..wanted.len() {
            let files = whole(first, second);
            let outcome = ended(rt.alloc(), &rt.alloc(), &FILES, files, room);
            expect(
                &rt,
                &outcome,
                5,
                &wanted.as_bytes()[..room],
                "ltlcompare: cannot write\n",
            );
        }
    }
}

/// The flush of the output fails, and then the message after three bytes.
#[test]
fn flush_and_message(rt: HostRuntime) {
    let mut output = Taken::new(rt.alloc(), usize::MAX);
    output.stays = false;
    let mut message = Taken::new(rt.alloc(), 3);
    let status = compared(
        rt.alloc(),
        &rt.alloc(),
        &FILES,
        whole("p", "p"),
        &mut output,
        &mut message,
    );
    assert_eq!(rt; status, 5);
    assert_eq!(rt; output.held.as_slice(), "equivalent\n".as_bytes());
    assert_eq!(rt; message.held.as_slice(), "ltl".as_bytes());
}

/// Each file fails after each number of bytes. If the first one has a syntax error, the second one isn't read.
#[test]
fn each_byte_of_input(rt: HostRuntime) {
    let memory = rt.alloc();
    for left in 0..3 {
        let mut files = whole("p U q", "p U q");
        files.first.left = left;
        let outcome = ended(memory, &memory, &FILES, files, usize::MAX);
        expect(&rt, &outcome, 5, b"", "ltlcompare: cannot read\n");
        let mut files = whole("p U q", "p U q");
        files.second.left = left;
        let outcome = ended(memory, &memory, &FILES, files, usize::MAX);
        expect(&rt, &outcome, 5, b"", "ltlcompare: cannot read\n");
        let mut files = whole("p U", "p U q");
        files.second.left = left;
        let outcome = ended(memory, &memory, &FILES, files, usize::MAX);
        let told = "ltlcompare: first formula: byte 3: expected operand\n";
        expect(&rt, &outcome, 3, b"", told);
    }
}
