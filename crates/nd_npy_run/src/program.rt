//! The whole program, as a function over any streams.

ghost use Rattle.std.specs.Prelude.{◌≡◌, ◌<◌, ◌≤◌, ◌||◌, ◌==◌, IsTrue};
ghost use Rattle.nd_text.specs.BufferedPrinting.{TakesText};
ghost use Rattle.nd_text.specs.LinesAndWords.{words_of};
ghost use Rattle.nd_text.specs.WatchedReadersAndWriters.{watched_failed, watched_retried, GetsFlushed};
ghost use Rattle.nd_npy_run.specs.OutputAndStatus.{npy_fault_status, AreNoNpySteps, FlushesErrorsIf, BeginsFileOrLine, PutsFileOrLine, WritesFileOrLine};
ghost use Rattle.nd_npy_run.specs.ErrorTexts.{npy_line_text, npy_fault_text, npy_write_failure_text};

use crate::fault_messages::put_fault;
use crate::output_or_fault::{Fault, produce};
use crate::wanted_outputs::Wanted;
use nd_text::buffered_printing::{finish, put};
use nd_text::{Page, Watched};
use std::alloc::Global;
use std::io::{Read, Write};

/// Writes the bytes of a file to `output`, and flushes `output` once.
fn show<W: Write>(output: &mut Watched<W>, file: &[u8])
    ensures text { TakesText W.contents output.old output.new file.now }
    ensures flushed { GetsFlushed output.old output.new }
{
    let mut page = Page::new();
    put(output, &mut page, file);
    finish(output, &page);
}

/// The text with which each line on the error stream begins.
const NAME: &[u8] = b"nd_npy_program: ";

/// Writes a line that tells `fault` to the error stream, and flushes the stream once.
fn report<W: Write>(errors: &mut Watched<W>, fault: Fault<'_>)
    ensures text { TakesText W.contents errors.old errors.new (npy_line_text (npy_fault_text fault.entry)) }
    ensures flushed { GetsFlushed errors.old errors.new }
{
    let mut page = Page::new();
    put(errors, &mut page, NAME);
    put_fault(errors, &mut page, fault);
    put(errors, &mut page, b"\n");
    finish(errors, &page);
}

/// Writes a line with `text` to the error stream, and flushes the stream once.
pub(crate) fn report_text<W: Write>(errors: &mut Watched<W>, text: &[u8])
    ensures text { TakesText W.contents errors.old errors.new (npy_line_text text.now) }
    ensures flushed { GetsFlushed errors.old errors.new }
{
    let mut page = Page::new();
    put(errors, &mut page, NAME);
    put(errors, &mut page, text);
    put(errors, &mut page, b"\n");
    finish(errors, &page);
}

/// If a write to `output` failed, writes a line that says so to the error stream, and flushes that stream once.
pub(crate) fn report_write<W: Write, E: Write>(output: &Watched<W>, errors: &mut Watched<E>)
    ensures told { TakesText E.contents errors.old errors.new (npy_write_failure_text (watched_failed output.now)) }
    ensures flushed { FlushesErrorsIf (watched_failed output.now) errors.old errors.new }
{
    if output.failed() {
        report_text(errors, b"a write failed");
    }
}

/// Returns the exit status for `fault` if no call of a stream failed otherwise.
fn fault_status(fault: Fault<'_>) -> u8
    ensures { result ≡ npy_fault_status fault.entry }
{
    match fault {
        Fault::BadStep { .. } => 1,
        Fault::BadHead(_) => 1,
        Fault::WrongSize { .. } => 1,
        Fault::Refused(_) => 1,
        Fault::NoText(_) => 1,
        Fault::NotReduced(_) => 1,
        Fault::Memory => 2,
        Fault::ReadFailed => 3,
    }
}

/// Does what `drive` does, and returns the exit status, but without a test for failed calls of the streams.
fn drive_on<R: Read, W: Write, E: Write>(
    alloc: Global,
    wanted: Wanted,
    line: &[u8],
    input: &mut Watched<R>,
    output: &mut Watched<W>,
    errors: &mut Watched<E>,
) -> u8
    ensures driven { PutsFileOrLine R.remaining W.contents E.contents wanted (words_of line.now)
        input.old input.new output.old output.new errors.old errors.new result }
    ensures stops_reading { watched_retried input.new ≡ watched_retried input.old }
    ensures stops_writing { watched_retried output.new ≡ watched_retried output.old }
    ensures stops_telling { watched_retried errors.new ≡ watched_retried errors.old }
    ensures flushed { result ≡ 0 → GetsFlushed output.old output.new }
    ensures read { result ≡ 3 → IsTrue (watched_failed input.new) }
    ensures unread { AreNoNpySteps (words_of line.now) → input.new ≡ input.old }
{
    match produce(alloc, wanted, line, input) {
        Ok(file) => {
            show(output, &file);
            report_write(output, errors);
            0
        }
        Err(fault) => {
            report(errors, fault);
            fault_status(fault)
        }
    }
}

/// Returns whether a call of one of the three streams failed.
fn any_failed<R, W, E>(input: &Watched<R>, output: &Watched<W>, errors: &Watched<E>) -> bool
    ensures { result ≡ (watched_failed input.now || watched_failed output.now || watched_failed errors.now) }
{
    input.failed() || output.failed() || errors.failed()
}

/// Reads a `.npy` file to the end of `input`, takes its array through the steps that the words of `line` write, and
/// writes what is wanted of the array after them to `output`: its file, in row-major order and with the same type of
/// elements; a line that describes it; a line with its shape; its text, whose elements must be integers or truth
/// values; or the file of the sums, the means, or the least or greatest elements along an axis. If a step or the file is
/// bad, a step is refused, the elements have no text, or there is no such sum or the like, writes a line to `errors`
/// instead, which tells the first cause. If the words are no steps, no byte is read. Returns the exit status: 0; 1 for
/// such a cause; 2 if memory was refused; 3 if a call of a stream failed. With status 3 only a beginning of what was due
/// may be written: nothing of a file if it was a read that failed. A line on `errors` then tells a failed read or write.
pub fn drive<R: Read, W: Write, E: Write>(
    alloc: Global,
    wanted: Wanted,
    line: &[u8],
    input: &mut Watched<R>,
    output: &mut Watched<W>,
    errors: &mut Watched<E>,
) -> u8
    ensures told { result < 3 → WritesFileOrLine R.remaining W.contents E.contents wanted (words_of line.now)
        input.old output.old output.new errors.old errors.new result }
    ensures beginning { BeginsFileOrLine R.remaining W.contents E.contents wanted (words_of line.now)
        input.old input.new output.old output.new errors.old errors.new }
    ensures unread { AreNoNpySteps (words_of line.now) → input.new ≡ input.old }
    ensures failed { (result == 3) ≡ (watched_failed input.new || watched_failed output.new || watched_failed errors.new) }
    ensures statuses { result ≤ 3 }
    ensures stops_reading { watched_retried input.new ≡ watched_retried input.old }
    ensures stops_writing { watched_retried output.new ≡ watched_retried output.old }
    ensures stops_telling { watched_retried errors.new ≡ watched_retried errors.old }
    ensures flushed { result ≡ 0 → GetsFlushed output.old output.new }
    ensures flushed_errors { 0 < result → GetsFlushed errors.old errors.new }
{
    let status = drive_on(alloc, wanted, line, input, output, errors);
    if any_failed(input, output, errors) {
        return 3;
    }
    status
}
