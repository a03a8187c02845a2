//! Readers and writers that fail, the usage, and arguments that can't be taken.

use crate::npy::program::output_checks::{ends, is_told};
use crate::npy::readers_and_writers::{Full, Trickle, has_written};
use nd_npy_run::usage_and_argument_errors::{asks_for_help, decline, help};
use nd_npy_run::{ArgumentsError, Watched};
use std::alloc::Global;

// numpy.array([1, 2, 3], "|u1")
const FILE: &[u8] =
    b"\x93NUMPY\x01\x00v\x00{'descr': '|u1', 'fortran_order': False, 'shape': (3,), }                                                            \n\x01\x02\x03";

/// Returns whether the program, whose input gives one byte of the file at a time and fails at the byte `cut`, ends with
/// this status, writes this line to the errors, and writes nothing else.
fn stops(alloc: Global, words: &[u8], file: &[u8], cut: usize, status: u8, line: &[u8]) -> bool {
    let input = Trickle {
        rest: file,
        most: 1,
        cut,
    };
    is_told(alloc, words, input, status, line)
}

/// Returns whether a read that fails at any byte of the file, or at its end, is told.
fn failing_reads_are_told(alloc: Global, file: &[u8]) -> bool {
    for cut in 0..132 {
        if !stops(
            alloc,
            b"invert 0",
            file,
            cut,
            3,
            b"nd_npy_program: a read failed\n",
        ) {
            return false;
        }
    }
    true
}

#[test]
fn a_read_that_fails(rt: HostRuntime) {
    assert!(rt; failing_reads_are_told(rt.alloc(), FILE));
}

#[test]
fn words_that_are_no_steps(rt: HostRuntime) {
    let line = b"nd_npy_program: step 1 'turn': no such step; --help lists the steps\n";
    assert!(rt; stops(rt.alloc(), b"turn", FILE, 0, 1, line));
}

/// Returns whether a write to the output that fails is told.
fn a_failing_write_is_told(alloc: Global, file: &[u8]) -> bool {
    let mut output = Watched::new(Full);
    let mut errors = Watched::new(Vec::new(alloc));
    let ended = ends(alloc, b"", file, &mut output, &mut errors);
    has_written(errors, b"nd_npy_program: a write failed\n") && ended == 3
}

#[test]
fn a_write_that_fails(rt: HostRuntime) {
    assert!(rt; a_failing_write_is_told(rt.alloc(), FILE));
}

/// Returns whether the program ends with status 3 and writes nothing to the output, when words are no steps and the
/// line that tells so can't be written.
fn a_failing_line_ends(alloc: Global, file: &[u8]) -> bool {
    let mut output = Watched::new(Vec::new(alloc));
    let mut errors = Watched::new(Full);
    let ended = ends(alloc, b"turn", file, &mut output, &mut errors);
    has_written(output, b"") && ended == 3
}

#[test]
fn a_line_that_fails(rt: HostRuntime) {
    assert!(rt; a_failing_line_ends(rt.alloc(), FILE));
}

/// Returns whether the help is written to the output, beginning with this line, and nothing to the errors.
fn help_begins(alloc: Global, line: &[u8]) -> bool {
    let mut output = Watched::new(Vec::new(alloc));
    let mut errors = Watched::new(Vec::new(alloc));
    let ended = help(&mut output, &mut errors);
    let is_silent = has_written(errors, b"");
    output.into_inner().starts_with(line) && is_silent && ended == 0
}

#[test]
fn help_that_is_asked_for(rt: HostRuntime) {
    assert!(rt; asks_for_help(b" --help reverse"));
    assert!(rt; !asks_for_help(b"reverse --help"));
    let line =
        b"Usage: nd_npy_program [describe | shape | print | sum A | mean A | min A | max A] [STEP]..\n";
    assert!(rt; help_begins(rt.alloc(), line));
}

/// Returns whether arguments that can't be taken end the program with status 1, and this line tells so.
fn arguments_are_declined(alloc: Global, error: ArgumentsError, line: &[u8]) -> bool {
    let mut errors = Watched::new(Vec::new(alloc));
    let ended = decline(&mut errors, error);
    has_written(errors, line) && ended == 1
}

#[test]
fn arguments_that_can_not_be_taken(rt: HostRuntime) {
    let line = b"nd_npy_program: an argument isn't UTF-8\n";
    assert!(rt; arguments_are_declined(rt.alloc(), ArgumentsError::NotText, line));
}
