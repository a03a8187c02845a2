//! A program that reads a script of calls on one array from the standard input, and writes the replies to the standard
//! output.
#![tactic(auto)]

use nd_run::Watched;
use nd_run::program::drive;
use std::process::ExitCode;

fn main(rt: HostRuntime) -> ExitCode {
    let mut input = Watched::new(rt.stdin());
    let mut output = Watched::new(rt.stdout());
    ExitCode::from(drive(rt.alloc(), &mut input, &mut output))
}
