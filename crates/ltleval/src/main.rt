//! `ltleval`: runs the evaluator on the words and streams of the process.
#![tactic(auto)]

use ltl_host::run;
use ltl_words::Tool;
use std::io;
use std::process::ExitCode;

fn main(rt: HostRuntime) -> ExitCode {
    ExitCode::from(run(
        &rt,
        Tool::Evaluator,
        rt.stdin(),
        &mut io::writer(&rt),
        &mut rt.stderr(),
    ))
}
