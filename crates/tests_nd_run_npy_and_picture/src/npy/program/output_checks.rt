//! Comparing what the program writes with what is expected.

use crate::npy::readers_and_writers::has_written;
use nd_npy_run::Watched;
use nd_npy_run::program::drive;
use nd_npy_run::wanted_outputs::wanted_in;
use std::alloc::Global;
use std::io::{Read, Write};

/// Returns the status with which the program ends that the words ask for, when it reads from `input` and writes to the
/// two streams.
pub(crate) fn ends<R: Read + Drop, W: Write, E: Write>(
    alloc: Global,
    words: &[u8],
    input: R,
    output: &mut Watched<W>,
    errors: &mut Watched<E>,
) -> u8 {
    let mut input = Watched::new(input);
    let (wanted, steps) = wanted_in(words);
    drive(alloc, wanted, steps, &mut input, output, errors)
}

/// Returns whether the program ends with this status, and writes `expected` and nothing else: to the output if the status
/// is 0, and otherwise to the errors.
pub(crate) fn is_told<R: Read + Drop>(
    alloc: Global,
    words: &[u8],
    input: R,
    status: u8,
    expected: &[u8],
) -> bool {
    let mut output = Watched::new(Vec::new(alloc));
    let mut errors = Watched::new(Vec::new(alloc));
    let ended = ends(alloc, words, input, &mut output, &mut errors);
    let (told, silent) = if status == 0 {
        (output, errors)
    } else {
        (errors, output)
    };
    let is_silent = has_written(silent, b"");
    has_written(told, expected) && is_silent && ended == status
}

/// Returns what stands in front of the first `mark` in `bytes`, and what stands behind it.
fn around<'a>(bytes: &'a [u8], mark: &[u8]) -> Option<(&'a [u8], &'a [u8])> {
    for at in 0..bytes.len() {
        let (front, rest) = bytes.split_at(at);
        if let Some(behind) = rest.strip_prefix(mark) {
            return Some((front, behind));
        }
    }
    None
}

/// Returns whether the program ends with this status for each row, and writes what the row expects and nothing else. A row
/// has the words, a line feed, the file that is read, a line feed, `=> `, and what is written: to the output if the status
/// is 0, and otherwise to the errors.
pub(crate) fn are_told(alloc: Global, status: u8, table: &[&[u8]]) -> bool {
    for row in table {
        let Some((asked, expected)) = around(row, b"\n=> ") else {
            return false;
        };
        let Some((words, file)) = around(asked, b"\n") else {
            return false;
        };
        if !is_told(alloc, words, file, status, expected) {
            return false;
        }
    }
    true
}
