//! `ltlcompare`: runs the comparer on the words and streams of the process.
#![tactic(auto)]

use ltl_comparison::run;
use std::io;
use std::process::ExitCode;

fn main(rt: HostRuntime) -> ExitCode {
    ExitCode::from(run(&rt, rt.stdin(), &mut io::writer(&rt), &mut rt.stderr()))
}
