//! The layer between a process and `ltl_cli`, which the `main` functions share: command line, files, allocator and standard streams.
//!
//! All of these come from a runtime: from `HostRuntime` in the programs, and in tests from any type with the traits `Env`, `Files` and `Alloc`. So
//! this layer can be tested without a process.
//!
//! What flows: the runtime's words become strings (`words`), and then texts (`texts`), which `ltl_cli::run` takes. The name of a file becomes its
//! source, or "not opened" (`HostFiles`). Readers and writers become sources and sinks (`run`). An error of the words is handed on to `ltl_cli::run`,
//! which reports it as it reports wrong usage and lack of memory.
//!
//! ```
//! run(&rt, Tool::Translator, rt.stdin(), &mut io::writer(&rt), &mut rt.stderr())
//! ```
#![tactic(auto)]

mod files;

ghost use Rattle.std.specs.Prelude.{◌≡◌, List, ℕ, map, string_bytes, IfOk, IfErr, Result};
ghost use Rattle.std.specs.IoError.{error_kind};
ghost use Rattle.std.specs.Vec.Iter.{into_iter_items};
ghost use Rattle.ltl_spec.specs.Tools.Stage.{Open};
ghost use Rattle.ltl_words.specs.declared.request.PlanFault as cli;
ghost use Rattle.ltl_words.specs.Tools.{tool_of};
ghost use Rattle.ltl_cli.specs.Runs.{Shows, ShowsBytes, StaysAt};
ghost use Rattle.ltl_cli.specs.Headline.{WordsMayShow};
ghost use Rattle.ltl_host.specs.Given.{HandsOver, fault_for};
ghost use Rattle.ltl_cli.specs.Inputs.{IsStream};
ghost use Rattle.ltl_host.specs.Sources.{AnythingBehind};

pub use files::{HostFiles, opened};
use ltl_streams::{ByteSink, WriterSink};
use ltl_words::{PlanFault, Tool};
use std::alloc::{AllocError, Allocator, Global};
use std::env::Args;
use std::io::{Read, Write};
use std::rt::{Env, Files};
use std::{env, io};

/// A little less than 32 MiB, which is the largest block that makes the C library of Linux raise its thresholds when the block is freed.
const ROOM: usize = 33_488_896;

/// Allocates a large block and frees it unused, so that the allocator keeps freed memory later. The C library of Linux returns memory to the system
/// as soon as 128 KiB at the end of its heap are free, and each page that is used again costs a page fault. When a block of this size is freed, it
/// raises that threshold to twice the block's size. If the block is refused, nothing is lost.
pub fn keep_freed<A: Allocator>(alloc: A) {
    let room: Result<Vec<u8, A>, AllocError> = Vec::with_capacity(alloc, ROOM);
    let _ = room.is_ok();
}

/// The words of the process, with the program's name as the first one. If the runtime has none, or if a word isn't UTF-8, the error is
/// `Usage`, unless memory was refused.
pub fn words<A: Allocator, B: Allocator>(
    alloc: A,
    given: io::Result<Args<B>>,
) -> Result<Vec<String<B>, A>, PlanFault>
    ensures { HandsOver given result }
{
    match given {
        Ok(given) => listed(alloc, given),
        Err(error) => Err(fault_of(&error)),
    }
}

/// The words that the iterator still has.
fn listed<A: Allocator, B: Allocator>(
    alloc: A,
    given: Args<B>,
) -> Result<Vec<String<B>, A>, PlanFault>
    ensures words { IfOk result (λ words. words.items ≡ into_iter_items given) }
    ensures memory { IfErr result (λ fault. fault ≡ PlanFault.OutOfMemory) }
{
    let mut given = given;
    let mut words = Vec::new(alloc);
    'words: while let Some(word) = given.next() {
        words.push(word)?;
    }
    Ok(words)
}

/// The error if the runtime fails to pass the words.
fn fault_of(error: &io::Error) -> PlanFault
    ensures { result ≡ fault_for (error_kind error.now) }
{
    match error.kind() {
        io::ErrorKind::OutOfMemory => PlanFault::OutOfMemory,
        _ => PlanFault::Usage,
    }
}

/// The words as string slices.
pub fn texts<'a, A: Allocator, B: Allocator>(
    alloc: A,
    words: &'a [String<B>],
) -> Result<Vec<&'a str, A>, PlanFault>
    ensures texts { IfOk result (λ texts. map (λ t. t.now) texts.items ≡ map string_bytes words.entry.now) }
    ensures memory { IfErr result (λ fault. fault ≡ PlanFault.OutOfMemory) }
{
    let mut texts = Vec::new(alloc);
    for word in words {
        texts.push(word.as_str())?;
    }
    Ok(texts)
}

/// Runs the program on the words and the files of the runtime, with this standard input, and returns the exit status. Neither sink may have been
/// called before. First it makes the allocator keep freed memory, so a `main` function calls it first.
pub fn run_over<R, I, S, M>(rt: &R, tool: Tool, input: I, output: &mut S, message: &mut M) -> u8
where
    R: Env + Files + Alloc<A = Global>,
    I: Read + Copy + Drop,
    S: ByteSink,
    M: ByteSink,
    requires output { (S.state output.old).stage ≡ Open }
    requires message { (M.state message.old).stage ≡ Open }
    ensures shown { (words : Result (List (List ℕ)) cli.PlanFault) × Shows (WordsMayShow AnythingBehind (IsStream (I.remaining input)) (tool_of tool) words)
        (S.state output.old) (S.state output.new) (M.state message.old) (M.state message.new) result }
    ensures same_output { StaysAt (S.state output.old) (S.state output.new) }
    ensures same_message { StaysAt (M.state message.old) (M.state message.new) }
{
    keep_freed(rt.alloc());
    let mut files = HostFiles::new(rt, input);
    let words = match words(rt.alloc(), env::args(rt)) {
        Ok(words) => words,
        Err(fault) => return ltl_cli::run(
            rt.alloc(),
            tool,
            Err(fault),
            &mut files,
            output,
            message,
        ),
    };
    let texts = match texts(rt.alloc(), words.as_slice()) {
        Ok(texts) => texts,
        Err(fault) => return ltl_cli::run(
            rt.alloc(),
            tool,
            Err(fault),
            &mut files,
            output,
            message,
        ),
    };
    ltl_cli::run(
        rt.alloc(),
        tool,
        Ok(texts.as_slice()),
        &mut files,
        output,
        message,
    )
}

/// The same as `run_over` with writers of the standard library.
pub fn run<R, I, W, E>(rt: &R, tool: Tool, input: I, output: &mut W, message: &mut E) -> u8
where
    R: Env + Files + Alloc<A = Global>,
    I: Read + Copy + Drop,
    W: Write,
    E: Write,
    ensures { (words : Result (List (List ℕ)) cli.PlanFault) × ShowsBytes (WordsMayShow AnythingBehind (IsStream (I.remaining input)) (tool_of tool) words)
        (W.contents output.old) (W.contents output.new) (E.contents message.old) (E.contents message.new) result }
{
    run_over(
        rt,
        tool,
        input,
        &mut WriterSink::new(output),
        &mut WriterSink::new(message),
    )
}
