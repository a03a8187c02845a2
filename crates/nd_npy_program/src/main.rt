//! A program that reads a `.npy` file from the standard input, takes its array through the steps that its arguments
//! write, and writes the file of the array after them to the standard output, or a text that the first argument asks
//! for.
#![tactic(auto)]

use nd_npy_run::program::drive;
use nd_npy_run::usage_and_argument_errors::{asks_for_help, decline, help};
use nd_npy_run::wanted_outputs::wanted_in;
use nd_npy_run::{ArgumentsError, Watched};
use std::io::ErrorKind;
use std::process::ExitCode;
use std::{env, io};

/// Returns the arguments after the program's name as one line, with a space before each.
fn words(rt: &HostRuntime) -> io::Result<Vec<u8>> {
    let mut line = Vec::new(rt.alloc());
    for word in env::args(rt)?.skip(1) {
        line.extend_from_slice(b" ")?;
        line.extend_from_slice(word.as_bytes())?;
    }
    Ok(line)
}

/// Returns why the arguments can't be taken: memory was refused, or else an argument isn't UTF-8.
fn arguments_error(error: io::Error) -> ArgumentsError {
    match error.kind() {
        ErrorKind::OutOfMemory => ArgumentsError::Memory,
        _ => ArgumentsError::NotText,
    }
}

fn main(rt: HostRuntime) -> ExitCode {
    let mut input = Watched::new(rt.stdin());
    let mut output = Watched::new(rt.stdout());
    let mut errors = Watched::new(rt.stderr());
    ExitCode::from(match words(&rt) {
        Ok(line) if asks_for_help(&line) => help(&mut output, &mut errors),
        Ok(line) => {
            let (wanted, steps) = wanted_in(&line);
            drive(
                rt.alloc(),
                wanted,
                steps,
                &mut input,
                &mut output,
                &mut errors,
            )
        }
        Err(error) => decline(&mut errors, arguments_error(error)),
    })
}
