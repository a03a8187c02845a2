//! Running a script, and comparing what the program writes with what is expected.

use nd_run::Watched;
use nd_run::program::drive;
use std::alloc::Global;
use std::io::{Read, Write};

/// Calls `drive`. No test needs its contract, and a test that calls this function, whose types are fixed there, needn't
/// prove it again.
pub fn status<R: Read, W: Write>(
    alloc: Global,
    input: &mut Watched<R>,
    output: &mut Watched<W>,
) -> u8 {
    drive(alloc, input, output)
}

/// Returns what the program writes for this input, and its status.
pub fn run_text(alloc: Global, text: &[u8]) -> (Vec<u8>, u8) {
    let mut input = Watched::new(text);
    let mut output = Watched::new(Vec::new(alloc));
    let ended = status(alloc, &mut input, &mut output);
    (output.into_inner(), ended)
}

/// Returns whether `written` is `before` followed by `after`, and `ended` is the expected status.
pub fn is_told(written: &[u8], ended: u8, before: &[u8], after: &[u8], status: u8) -> bool {
    match written.strip_prefix(before) {
        Some(rest) => rest == after && ended == status,
        None => false,
    }
}

/// Returns whether the script writes `before` followed by `after`, and ends with this status.
pub fn tells(alloc: Global, text: &[u8], before: &[u8], after: &[u8], status: u8) -> bool {
    let (written, ended) = run_text(alloc, text);
    is_told(&written, ended, before, after, status)
}

/// Returns whether each script of the table writes the text beside it, and ends with status 0.
pub fn written(alloc: Global, table: &[(&[u8], &[u8])]) -> bool {
    for (text, wanted) in table {
        if !tells(alloc, text, &[], wanted, 0) {
            return false;
        }
    }
    true
}

/// Returns whether the script whose text is these parts, one after another, writes `before` followed by `after`, and ends
/// with this status. Returns false if memory is refused.
pub fn parts_tell(alloc: Global, parts: &[&[u8]], before: &[u8], after: &[u8], status: u8) -> bool {
    let mut text = Vec::new(alloc);
    for part in parts {
        if text.extend_from_slice(part).is_err() {
            return false;
        }
    }
    tells(alloc, &text, before, after, status)
}
