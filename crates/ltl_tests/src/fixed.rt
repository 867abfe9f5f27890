//! A run over a file and a standard input whose bytes are known, so that the contract of `run` says what it answers.

ghost use Rattle.std.specs.Prelude.{◌≡◌, ◌≤◌, ◌⊎◌};
ghost use Rattle.ltl_spec.specs.Tools.Stage.{Open};
ghost use Rattle.ltl_spec.specs.Tools.Run.{PrintsViolation};
ghost use Rattle.ltl_spec.proofs.Examples.CheckTexts.{eventually};
ghost use Rattle.ltl_spec.proofs.Examples.InputTexts.{automaton_e};
ghost use Rattle.ltl_cli.specs.Runs.{Shows};

use crate::memory::{LOOP, Memory};
use ltl_cli::run;
use ltl_streams::{ByteSink, WriterSink};
use ltl_words::Tool;
use std::alloc::Global;

/// The run of `ltlcheck -F formula` on `LOOP`, where the file has `<>p`. If it isn't refused, it reports a word that the automaton accepts and that
/// violates the formula. Returns the status, and how often something was opened: the file and the standard input once each, if memory sufficed.
fn checked<S: ByteSink, M: ByteSink>(alloc: Global, output: &mut S, message: &mut M) -> (u8, u64)
    requires output { (S.state output.old).stage ≡ Open }
    requires message { (M.state message.old).stage ≡ Open }
    ensures shown { Shows (λ seen. seen.status ≤ 1 → (seen.status ≡ 1) × PrintsViolation automaton_e eventually seen.output)
        (S.state output.old) (S.state output.new) (M.state message.old) (M.state message.new) result.0 }
    ensures opened { (result.1 ≡ 2) ⊎ (result.0 ≡ 4) }
{
    let words = ["ltlcheck", "-F", "formula"];
    let mut memory = Memory {
        name: "formula",
        file: b"<>p",
        input: LOOP,
        count: 0,
    };
    let status = run(
        alloc,
        Tool::Checker,
        Ok(words.as_slice()),
        &mut memory,
        output,
        message,
    );
    (status, memory.count)
}

#[test]
fn a_run_over_known_bytes(rt: HostRuntime) {
    let mut output = Vec::new(rt.alloc());
    let mut message = Vec::new(rt.alloc());
    let (status, count) = checked(
        rt.alloc(),
        &mut WriterSink::new(&mut output),
        &mut WriterSink::new(&mut message),
    );
    assert_eq!(rt; status, 1);
    assert_eq!(rt; count, 2);
    assert!(rt; output.as_slice() == b"violated\ncycle {}\n".as_slice());
    assert!(rt; message.is_empty());
}
