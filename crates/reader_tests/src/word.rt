//! Tests of words: their least forms, and their texts.

use ltl_sets::RowSet;
use ltl_syntax::read;
use ltl_word::Lasso;
use std::alloc::Global;
use std::process::Abort;
use std::test::Fail;

/// The text of the word's least form.
fn least_text<'a>(rt: &impl Abort, alloc: &'a Global, word: &Lasso<'a, Global>) -> Vec<u8> {
    let mut text: Vec<u8> = Vec::new(*alloc);
    let least = word.least(alloc).expect(rt, "memory");
    least.text_to(&mut text).ok().expect(rt, "memory");
    text
}

#[test]
fn least_forms(rt: HostRuntime) {
    let alloc = rt.alloc();
    let rows = [
        ("{p}; cycle {p}; {p}", "cycle {p}"),
        ("{p}; cycle {}; {p}", "cycle {p}; {}"),
        ("{}; cycle {p}; {p}", "{}; cycle {p}"),
        ("{b,a,b}; cycle {}", "{a,b}; cycle {}"),
        (
            "{p}; {}; cycle {}; {c,b}; {}; {b,c}",
            "{p}; {}; cycle {}; {b,c}",
        ),
    ];
    let formula = read(&alloc, b"true").expect(&rt, "a formula");
    for (text, wanted) in rows {
        let word = Lasso::read(&alloc, text.as_bytes(), &formula).expect(&rt, "a word");
        assert_eq!(rt;
            least_text(&rt, &alloc, &word).as_slice(),
            wanted.as_bytes(),
            "{text}"
        );
    }
}

#[test]
fn words_of_numbers(rt: HostRuntime) -> Result<(), Fail> {
    let alloc = rt.alloc();
    let one = RowSet::single(1);
    let stem = [RowSet::single(0).union(&one)];
    let cycle = [RowSet::empty(), one];
    let word = Lasso::new(&alloc, &["q", "p"], &stem, &cycle)?;
    let wanted = b"{p,q}; cycle {}; {p}".as_slice();
    assert_eq!(rt; least_text(&rt, &alloc, &word).as_slice(), wanted);
    Ok(())
}
