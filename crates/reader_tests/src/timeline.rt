//! Tests of timelines. The tables were made by hand.

use ltl_pictures::{timeline_to, word_timeline_to};
use ltl_streams::WriterSink;
use ltl_syntax::read;
use ltl_word::Lasso;
use refusing::Refusing;
use std::alloc::{Allocator, Global};
use std::process::Abort;

/// Writes the timeline of a word and a formula, which are read with the allocator `known`.
fn write_table<A: Allocator>(
    rt: &impl Abort,
    known: &Global,
    alloc: &A,
    texts: (&str, &str),
    text: &mut Vec<u8>,
) -> bool {
    let formula = read(known, texts.1.as_bytes()).ok().expect(rt, "a formula");
    let word = Lasso::read(known, texts.0.as_bytes(), &formula)
        .ok()
        .expect(rt, "a word");
    timeline_to(alloc, &formula, &word, &mut WriterSink::new(text)).is_ok()
}

#[test]
fn tables_of_formulas(rt: HostRuntime) {
    let alloc = rt.alloc();
    let rows = [
        (
            "{p}; {q}; cycle {p}; {}",
            "[](p -> <>q)",
            "             0 1 | 2 3\n\
             p            * . | * .\n\
             q            . * | . .\n\
             <>q          * * | . .\n\
             (p -> <>q)   * * | . *\n\
             [](p -> <>q) . . | . .\n",
        ),
        (
            "cycle {z}; {p}",
            "X true && r",
            "              | 0 1\n\
             r             | . .\n\
             z             | * .\n\
             p             | . *\n\
             true          | * *\n\
             X true        | * *\n\
             (X true && r) | . .\n",
        ),
        (
            "{p}; {p}; {}; {}; {}; {}; {}; {}; {}; {}; cycle {p}; {}",
            "p U !p",
            "                             | 1 1\n         0 1 2 3 4 5 6 7 8 9 | 0 1\n\
             p        * * . . . . . . . . | * .\n\
             !p       . . * * * * * * * * | . *\n\
             (p U !p) * * * * * * * * * * | * *\n",
        ),
        // `X p` stands three times, and `true` twice.
        (
            "cycle {p}; {}",
            "(X p && true) || (X p -> (true U X p))",
            "                                         | 0 1\n\
             p                                        | * .\n\
             X p                                      | . *\n\
             true                                     | * *\n\
             (X p && true)                            | . *\n\
             (true U X p)                             | * *\n\
             (X p -> (true U X p))                    | * *\n\
             ((X p && true) || (X p -> (true U X p))) | * *\n",
        ),
    ];
    for (word, formula, wanted) in rows {
        let mut text = Vec::new(alloc);
        assert!(rt; write_table(&rt, &alloc, &alloc, (word, formula), &mut text));
        assert_eq!(rt; text.as_slice(), wanted.as_bytes(), "{word}");
    }
}

#[test]
fn tables_of_words(rt: HostRuntime) {
    let alloc = rt.alloc();
    let rows = [
        (
            "{b,a}; cycle {}; {c}",
            "  0 | 1 2\n\
             a * | . .\n\
             b * | . .\n\
             c . | . *\n",
        ),
        ("cycle {}", " | 0\n"),
    ];
    let formula = read(&alloc, b"other").expect(&rt, "a formula");
    for (word, wanted) in rows {
        let mut text = Vec::new(alloc);
        let lasso = Lasso::read(&alloc, word.as_bytes(), &formula).expect(&rt, "a word");
        let written = word_timeline_to(&alloc, &lasso, &mut WriterSink::new(&mut text));
        assert!(rt; written.is_ok());
        assert_eq!(rt; text.as_slice(), wanted.as_bytes(), "{word}");
    }
}

/// Memory is refused before anything is written.
#[test]
fn growths_refused(rt: HostRuntime) {
    let known = rt.alloc();
    for n in 1..40 {
        let alloc = Refusing::new(rt.alloc(), n);
        let mut text = Vec::new(known);
        let written = write_table(&rt, &known, &alloc, ("{p}; cycle {q}", "p U q"), &mut text);
        assert_eq!(rt; written, !alloc.has_refused());
        assert_eq!(rt; text.is_empty(), alloc.has_refused());
    }
}
