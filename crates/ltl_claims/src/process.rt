//! The program as a process: its command line, its files and its standard streams.

ghost use Rattle.std.specs.Prelude.{◌≡◌, List, ℕ, Result};
ghost use Rattle.ltl_spec.specs.Tools.Stage.{Open};
ghost use Rattle.ltl_words.specs.declared.request.PlanFault as fault;
ghost use Rattle.ltl_cli.specs.Inputs.{IsStream};
ghost use Rattle.ltl_cli.specs.Runs.{Shows, ShowsBytes, StaysAt};
ghost use Rattle.ltl_host.specs.Sources.{AnythingBehind};
ghost use Rattle.ltl_claims.specs.Runs.{WordsMayClaim};

use crate::program::claim_words;
use ltl_host::{HostFiles, texts, words};
use ltl_streams::{ByteSink, WriterSink};
use std::alloc::Global;
use std::env;
use std::io::{Read, Write};
use std::rt::{Env, Files};

/// Runs the program with the words and the files of the runtime and this standard input, over these sinks.
fn run_over<R, I, S, M>(rt: &R, input: I, output: &mut S, message: &mut M) -> u8
where
    R: Env + Files + Alloc<A = Global>,
    I: Read + Copy + Drop,
    S: ByteSink,
    M: ByteSink,
    requires output { (S.state output.old).stage ≡ Open }
    requires message { (M.state message.old).stage ≡ Open }
    ensures shown { (words : Result (List (List ℕ)) fault.PlanFault) × Shows (WordsMayClaim AnythingBehind (IsStream (I.remaining input)) words)
        (S.state output.old) (S.state output.new) (M.state message.old) (M.state message.new) result }
    ensures same_output { StaysAt (S.state output.old) (S.state output.new) }
    ensures same_message { StaysAt (M.state message.old) (M.state message.new) }
{
    let mut files = HostFiles::new(rt, input);
    let words = match words(rt.alloc(), env::args(rt)) {
        Ok(words) => words,
        Err(fault) => return claim_words(rt.alloc(), Err(fault), &mut files, output, message),
    };
    let texts = match texts(rt.alloc(), words.as_slice()) {
        Ok(texts) => texts,
        Err(fault) => return claim_words(rt.alloc(), Err(fault), &mut files, output, message),
    };
    claim_words(
        rt.alloc(),
        Ok(texts.as_slice()),
        &mut files,
        output,
        message,
    )
}

/// Runs the program with the command line of the process and these standard streams, and returns the exit status.
pub fn run<R, I, W, E>(rt: &R, input: I, output: &mut W, message: &mut E) -> u8
where
    R: Env + Files + Alloc<A = Global>,
    I: Read + Copy + Drop,
    W: Write,
    E: Write,
    ensures { (words : Result (List (List ℕ)) fault.PlanFault) × ShowsBytes (WordsMayClaim AnythingBehind (IsStream (I.remaining input)) words)
        (W.contents output.old) (W.contents output.new) (E.contents message.old) (E.contents message.new) result }
{
    run_over(
        rt,
        input,
        &mut WriterSink::new(output),
        &mut WriterSink::new(message),
    )
}
