//! The whole program, as a function over any streams.
#![tactic(auto)]

ghost use Rattle.std.specs.Prelude.{◌≡◌, ◌<◌, ◌≤◌, ◌||◌, ◌==◌, IsTrue};
ghost use Rattle.nd_text.specs.BufferedPrinting.{Puts, TakesText};
ghost use Rattle.nd_text.specs.LinesAndWords.{words_of};
ghost use Rattle.nd_text.specs.WatchedReadersAndWriters.{watched_failed, watched_retried, GetsFlushed};
ghost use Rattle.nd_picture.specs.OutputAndStatus.{fault_status, AreNoSteps, FlushesIf, BeginsWhatComes, PutsWhatComes, WritesWhatComes};
ghost use Rattle.nd_picture.specs.ErrorTexts.{line_text, step_line, byte_line, fault_text, write_failure_text};

use crate::image_steps_applied::refusal;
use crate::read_change_and_write::{Fault, write_outcome};
use itoa::Buffer;
use nd_picture_text::quoted_steps::put_step;
use nd_text::buffered_printing::{finish, put, put_number};
use nd_text::{Page, Watched};
use std::alloc::Global;
use std::io::{Read, Write};

/// The text with which each line on the error stream begins.
const NAME: &[u8] = b"nd_picture_program: ";

/// Writes a step's number and its words in `line`, and then `cause`, which says what is wrong with it. All is buffered
/// in `page`.
fn put_step_fault<W: Write>(
    output: &mut Watched<W>,
    page: &mut Page,
    line: &[u8],
    number: usize,
    cause: &str,
)
    ensures { Puts W.contents output.old page.old output.new page.new (step_line (words_of line.now) number cause.now) }
{
    put(output, page, b"step ");
    put_number(output, page, &mut Buffer::new(), &number);
    put(output, page, b": '");
    put_step(output, page, line, number);
    put(output, page, b"': ");
    put(output, page, cause.as_bytes());
}

/// Writes the position of a byte, and then `cause`, which says what is wrong there. All is buffered in `page`.
fn put_byte_fault<W: Write>(output: &mut Watched<W>, page: &mut Page, byte: usize, cause: &str)
    ensures { Puts W.contents output.old page.old output.new page.new (byte_line byte cause.now) }
{
    put(output, page, b"byte ");
    put_number(output, page, &mut Buffer::new(), &byte);
    put(output, page, b": ");
    put(output, page, cause.as_bytes());
}

/// Writes what `fault` tells about the steps in `line` or about the image. All is buffered in `page`.
fn put_fault<W: Write>(output: &mut Watched<W>, page: &mut Page, line: &[u8], fault: Fault)
    ensures { Puts W.contents output.old page.old output.new page.new (fault_text (words_of line.now) fault) }
{
    match fault {
        Fault::BadStep { number, flaw } => {
            put_step_fault(output, page, line, number, flaw.text())
        }
        Fault::BadByte { byte, flaw } => put_byte_fault(output, page, byte, flaw.text()),
        Fault::Refused { number, step } => {
            put_step_fault(output, page, line, number, refusal(step))
        }
        Fault::Memory => put(output, page, b"out of memory"),
        Fault::ReadFailed => put(output, page, b"a read failed"),
    }
}

/// Writes a line that tells `fault` to the error stream, and flushes the stream once.
fn report<W: Write>(errors: &mut Watched<W>, line: &[u8], fault: Fault)
    ensures text { TakesText W.contents errors.old errors.new (line_text (fault_text (words_of line.now) fault)) }
    ensures flushed { GetsFlushed errors.old errors.new }
{
    let mut page = Page::new();
    put(errors, &mut page, NAME);
    put_fault(errors, &mut page, line, fault);
    put(errors, &mut page, b"\n");
    finish(errors, &page);
}

/// Writes a line with `text` to the error stream, and flushes the stream once.
pub(crate) fn report_text<W: Write>(errors: &mut Watched<W>, text: &[u8])
    ensures text { TakesText W.contents errors.old errors.new (line_text text.now) }
    ensures flushed { GetsFlushed errors.old errors.new }
{
    let mut page = Page::new();
    put(errors, &mut page, NAME);
    put(errors, &mut page, text);
    put(errors, &mut page, b"\n");
    finish(errors, &page);
}

/// If a write to `output` failed, writes a line that says so to the error stream, and flushes that stream once.
pub(crate) fn report_write<W: Write, E: Write>(output: &Watched<W>, errors: &mut Watched<E>)
    ensures told { TakesText E.contents errors.old errors.new (write_failure_text (watched_failed output.now)) }
    ensures flushed { FlushesIf (watched_failed output.now) errors.old errors.new }
{
    if output.failed() {
        report_text(errors, b"a write failed");
    }
}

/// Returns the exit status for `fault` if no call of a stream failed otherwise.
fn fault_status(fault: Fault) -> u8
    ensures { result ≡ fault_status fault }
{
    match fault {
        Fault::BadStep { .. } => 1,
        Fault::BadByte { .. } => 1,
        Fault::Refused { .. } => 1,
        Fault::Memory => 2,
        Fault::ReadFailed => 3,
    }
}

/// Does what `drive` does, and returns the exit status, but without a test for failed calls of the streams.
#[tactic(auto, using(crate::proofs::ErrorLinesFlushed::read_fault))]
fn drive_on<R: Read, W: Write, E: Write>(
    alloc: Global,
    line: &[u8],
    input: &mut Watched<R>,
    output: &mut Watched<W>,
    errors: &mut Watched<E>,
) -> u8
    ensures driven { PutsWhatComes R.remaining W.contents E.contents (words_of line.now)
        input.old input.new output.old output.new errors.old errors.new result }
    ensures stops_reading { watched_retried input.new ≡ watched_retried input.old }
    ensures stops_writing { watched_retried output.new ≡ watched_retried output.old }
    ensures stops_telling { watched_retried errors.new ≡ watched_retried errors.old }
    ensures flushed { result ≡ 0 → GetsFlushed output.old output.new }
    ensures read { result ≡ 3 → IsTrue (watched_failed input.new) }
    ensures unread { AreNoSteps (words_of line.now) → input.new ≡ input.old }
{
    match write_outcome(alloc, line, input, output) {
        Ok(()) => {
            report_write(output, errors);
            0
        }
        Err(fault) => {
            report(errors, line, fault);
            fault_status(fault)
        }
    }
}

/// Reads an image from `input`, applies the steps that the words of `line` write, and writes the image in its own format
/// to `output`. If a step or a byte is bad, writes a line to `errors`, which tells the first bad one and what is wrong
/// with it. If the words are no steps, no byte is read. Returns the exit status: 0; 1 for a bad step or byte; 2 if memory
/// was refused; 3 if a call of a stream failed.
///
/// An image is read, changed and written a few rows at a time, if all steps make each row from one row and can be taken.
/// If a byte after the header is bad, memory is refused or a read fails, the header and the rows that the steps make of some
/// of the first rows have then been written. With other steps the image is read to the end of `input`, and nothing of it is
/// written before the whole of it is known to be good.
///
/// With status 3 only a beginning of what was due may be written. A line on `errors` then tells a failed read or write.
#[tactic(auto, using(crate::proofs::ErrorLinesFlushed::line_flushed, crate::proofs::ErrorLinesFlushed::line_flushed_failing, crate::proofs::ErrorLinesFlushed::written_whole))]
pub fn drive<R: Read, W: Write, E: Write>(
    alloc: Global,
    line: &[u8],
    input: &mut Watched<R>,
    output: &mut Watched<W>,
    errors: &mut Watched<E>,
) -> u8
    ensures told { result < 3 → WritesWhatComes R.remaining W.contents E.contents (words_of line.now)
        input.old output.old output.new errors.old errors.new result }
    ensures beginning { BeginsWhatComes R.remaining W.contents E.contents (words_of line.now)
        input.old input.new output.old output.new errors.old errors.new }
    ensures unread { AreNoSteps (words_of line.now) → input.new ≡ input.old }
    ensures failed { (result == 3) ≡ (watched_failed input.new || watched_failed output.new || watched_failed errors.new) }
    ensures statuses { result ≤ 3 }
    ensures stops_reading { watched_retried input.new ≡ watched_retried input.old }
    ensures stops_writing { watched_retried output.new ≡ watched_retried output.old }
    ensures stops_telling { watched_retried errors.new ≡ watched_retried errors.old }
    ensures flushed { result ≡ 0 → GetsFlushed output.old output.new }
    ensures flushed_errors { 0 < result → GetsFlushed errors.old errors.new }
{
    let status = drive_on(alloc, line, input, output, errors);
    if input.failed() || output.failed() || errors.failed() {
        return 3;
    }
    status
}
