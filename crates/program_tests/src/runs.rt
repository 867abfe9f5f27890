//! Tests of the programs with each allocation refused, and with each stream failing at each place.

use crate::inputs::{LOOP, MANY, RUNS, Run};
use crate::streams::{Failing, Given, Taken};
use ltl_cli::{Source, run_check, run_eval, run_translate};
use ltl_words::{Tool, plan};
use refusing::Refusing;
use std::alloc::{Allocator, Global};
use std::test::Fail;

/// More allocations than any run makes.
const MOST_GROWTHS: u64 = 100_000;

/// The largest number of bytes that are read of a formula: one more than it may have.
const PAST_THE_LIMIT: usize = 65_537;

/// The numbers of bytes that a reader gives in a call.
const SIZES: [usize; 5] = [1, 2, 3, 7, 4_096];

const WAYS: [Failing; 3] = [Failing::Always, Failing::Once, Failing::TakesNone];

/// Whether the formula is read from a file.
fn reads_a_file(run: &Run<'_>) -> bool {
    match run.words.get(1) {
        Some(word) => *word == "-F",
        None => false,
    }
}

/// Runs the program with these words, and answers its status. `input` is its formula file, or its automaton if it has no such file.
fn ended<A: Allocator>(
    memory: Global,
    alloc: &A,
    run: &Run<'_>,
    input: Given<'_>,
    output: &mut Taken,
    message: &mut Taken,
) -> u8 {
    let plan = plan(memory, run.tool, run.words);
    let (formula, automaton) = if reads_a_file(run) {
        (Source::Input(input), Source::Input(Given::of(LOOP)))
    } else {
        (Source::Text, Source::Input(input))
    };
    match run.tool {
        Tool::Translator => run_translate(alloc, &plan, formula, output, message),
        Tool::Checker => run_check(alloc, &plan, formula, automaton, output, message),
        Tool::Evaluator => run_eval(alloc, &plan, formula, output, message),
    }
}

/// Whether the message is this one line of the run's program.
fn tells(run: &Run<'_>, message: &Taken, text: &str) -> bool {
    let Some(name) = run.words.first() else {
        return false;
    };
    let Some(rest) = message.bytes().strip_prefix(name.as_bytes()) else {
        return false;
    };
    rest == text.as_bytes()
}

/// The result of a run with all its memory and input.
#[derive(Drop)]
struct Wanted {
    output: Taken,
    message: Taken,
    status: u8,
}

/// Makes the run with all its memory and input, over these writers.
fn calm(memory: Global, run: &Run<'_>, output: &mut Taken, message: &mut Taken) -> u8 {
    ended(memory, &memory, run, Given::of(run.input), output, message)
}

/// The outcome of a run with this allocation refused, or `None` if it reports lack of memory. If no allocation is refused, the result has to be the
/// usual one.
fn refused(memory: Global, run: &Run<'_>, n: u64, wanted: &Wanted) -> Option<&'static str> {
    let alloc = Refusing::new(memory, n);
    let (mut output, mut message) = (Taken::new(), Taken::new());
    let found = ended(
        memory,
        &alloc,
        run,
        Given::of(run.input),
        &mut output,
        &mut message,
    );
    if !alloc.has_refused() {
        let is_same = found == wanted.status
            && output.bytes() == wanted.output.bytes()
            && message.bytes() == wanted.message.bytes();
        return Some(if is_same {
            "each growth refused, and the run without one is as ever"
        } else {
            "another run"
        });
    }
    let is_silent = output.bytes().is_empty() && output.flushes() == 0;
    if found == 4 && is_silent && tells(run, &message, ": out of memory\n") {
        None
    } else {
        Some("a refused growth is answered otherwise than by want of memory")
    }
}

/// The outcome of refusing each allocation of a run.
fn told(memory: Global, run: &Run<'_>) -> &'static str {
    let (mut output, mut message) = (Taken::new(), Taken::new());
    let status = calm(memory, run, &mut output, &mut message);
    let wanted = Wanted {
        output,
        message,
        status,
    };
    for n in 1..MOST_GROWTHS {
        if let Some(told) = refused(memory, run, n, &wanted) {
            return told;
        }
    }
    "more growths than were refused"
}

/// Whether a writer that fails after `k` bytes gets just a prefix of the output, and the error is reported.
fn cut(memory: Global, run: &Run<'_>, k: usize, way: Failing, wanted: &Taken) -> bool {
    let mut output = Taken::with_room(k, way);
    let mut message = Taken::new();
    let found = calm(memory, run, &mut output, &mut message);
    let is_beginning = wanted.bytes().starts_with(output.bytes()) && output.bytes().len() == k;
    let is_still = !output.is_late() && output.flushes() == 0;
    found == 5 && is_beginning && is_still && tells(run, &message, ": cannot write\n")
}

/// Whether the same is true if the writer of messages fails too.
fn cut_twice(memory: Global, run: &Run<'_>, k: usize, way: Failing, wanted: &Taken) -> bool {
    let mut output = Taken::with_room(k, way);
    let mut full = Taken::with_room(k % 5, way);
    let found = calm(memory, run, &mut output, &mut full);
    let is_beginning = wanted.bytes().starts_with(output.bytes()) && output.bytes().len() == k;
    found == 5 && is_beginning
}

/// Whether a flush that fails comes once, after the last byte, and is reported.
fn unflushed(memory: Global, run: &Run<'_>, wanted: &Taken) -> bool {
    let mut output = Taken::unflushed();
    let mut message = Taken::new();
    let found = calm(memory, run, &mut output, &mut message);
    let is_whole = output.bytes() == wanted.bytes() && output.flushes() == 1;
    found == 5 && is_whole && tells(run, &message, ": cannot write\n")
}

/// The outcome of writers that fail.
fn told_of_output(memory: Global, run: &Run<'_>) -> &'static str {
    let mut wanted = Taken::new();
    let status = calm(memory, run, &mut wanted, &mut Taken::new());
    if wanted.flushes() != 1 || wanted.is_late() {
        return "not flushed once, behind the last byte";
    }
    for k in 0..wanted.bytes().len() {
        for way in WAYS {
            if !cut(memory, run, k, way, &wanted) {
                return "a failed write is answered otherwise, or something is written behind it";
            }
            if !cut_twice(memory, run, k, way, &wanted) {
                return "a writer of messages that fails changes the run";
            }
        }
    }
    if !unflushed(memory, run, &wanted) {
        return "a failed flush is answered otherwise";
    }
    if status > 1 {
        "refused"
    } else {
        "cut at each place, and flushed once"
    }
}

/// Whether the result is the usual one with a reader that gives `size` bytes in a call.
fn in_pieces(memory: Global, run: &Run<'_>, size: usize, status: u8, wanted: &Taken) -> bool {
    let mut output = Taken::new();
    let found = ended(
        memory,
        &memory,
        run,
        Given::in_pieces(run.input, size),
        &mut output,
        &mut Taken::new(),
    );
    found == status && output.bytes() == wanted.bytes()
}

/// Whether a reader's failure after `k` bytes is reported and nothing is written. A reader that gives all bytes of the input fails where the run
/// looks for their end.
fn unread(memory: Global, run: &Run<'_>, k: usize, way: Failing) -> bool {
    let (mut output, mut message) = (Taken::new(), Taken::new());
    let found = ended(
        memory,
        &memory,
        run,
        Given::failing(run.input, k, way),
        &mut output,
        &mut message,
    );
    let is_silent = output.bytes().is_empty() && output.flushes() == 0;
    found == 5 && is_silent && tells(run, &message, ": cannot read\n")
}

/// The outcome of readers that fail, and of those that give few bytes in a call.
fn told_of_input(memory: Global, run: &Run<'_>) -> &'static str {
    let mut wanted = Taken::new();
    let status = calm(memory, run, &mut wanted, &mut Taken::new());
    for size in SIZES {
        if !in_pieces(memory, run, size, status, &wanted) {
            return "another run where the input is given otherwise";
        }
    }
    if run.input.is_empty() {
        return "none";
    }
    for k in 0..=run.input.len() {
        for way in [Failing::Always, Failing::Once] {
            if !unread(memory, run, k, way) {
                return "a failed read is answered otherwise";
            }
        }
    }
    "cut at each place"
}

/// Whether a formula that is too long is reported, although its reader fails behind the first byte past the limit.
fn stops_at_the_limit(memory: Global, run: &Run<'_>) -> bool {
    let (mut output, mut message) = (Taken::new(), Taken::new());
    let input = Given::failing(run.input, PAST_THE_LIMIT, Failing::Always);
    let status = ended(memory, &memory, run, input, &mut output, &mut message);
    let text = ": limit: formula longer than 65536 bytes\n";
    status == 3 && output.bytes().is_empty() && tells(run, &message, text)
}

#[test]
fn each_growth_of_the_programs(rt: HostRuntime) {
    for run in RUNS {
        let (name, told) = (run.name, told(rt.alloc(), &run));
        let wanted = "each growth refused, and the run without one is as ever";
        assert_eq!(rt; told, wanted, "{name}");
    }
}

/// A run that is refused gives its message. A number of states that is too large is refused before memory for states is allocated.
#[test]
fn each_growth_of_a_refused_run(rt: HostRuntime) {
    let run = Run {
        name: "more states than the limit",
        tool: Tool::Checker,
        words: &["ltlcheck", "-f", "p"],
        input: MANY,
    };
    let wanted = "each growth refused, and the run without one is as ever";
    assert_eq!(rt; told(rt.alloc(), &run), wanted);
    let (mut output, mut message) = (Taken::new(), Taken::new());
    assert_eq!(rt; calm(rt.alloc(), &run, &mut output, &mut message), 3);
    assert!(rt; output.bytes().is_empty());
    assert!(rt; tells(&run, &message, ": automaton: line 2: limit passed\n"));
}

#[test]
fn no_read_past_the_limit(rt: HostRuntime) -> Result<(), Fail> {
    let mut text = String::new(rt.alloc());
    for _ in 0..=PAST_THE_LIMIT {
        text.push('!')?;
    }
    for run in RUNS {
        if reads_a_file(&run) {
            let long = Run {
                input: text.as_str(),
                ..run
            };
            assert!(rt; stops_at_the_limit(rt.alloc(), &long), "{}", run.name);
        }
    }
    Ok(())
}

#[test]
fn each_cut_of_the_output(rt: HostRuntime) {
    for run in RUNS {
        let (name, told) = (run.name, told_of_output(rt.alloc(), &run));
        assert_eq!(rt; told, "cut at each place, and flushed once", "{name}");
    }
}

#[test]
fn each_cut_of_the_input(rt: HostRuntime) {
    for run in RUNS {
        let wanted = if run.input.is_empty() {
            "none"
        } else {
            "cut at each place"
        };
        let (name, told) = (run.name, told_of_input(rt.alloc(), &run));
        assert_eq!(rt; told, wanted, "{name}");
    }
}
