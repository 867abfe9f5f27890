//! `ltlclaim`: runs the reader of claims on the words and streams of the process.
#![tactic(auto)]

use ltl_claims::run;
use std::io;
use std::process::ExitCode;

fn main(rt: HostRuntime) -> ExitCode {
    ExitCode::from(run(&rt, rt.stdin(), &mut io::writer(&rt), &mut rt.stderr()))
}
