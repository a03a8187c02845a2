//! The program's usage text, and the errors of its arguments.

ghost use Rattle.std.specs.Prelude.{◌≡◌, ◌||◌, ◌==◌, Some, if◌then◌else◌};
ghost use Rattle.nd_text.specs.BufferedPrinting.{TakesText};
ghost use Rattle.nd_text.specs.LinesAndWords.{words_of};
ghost use Rattle.nd_text.specs.WatchedReadersAndWriters.{watched_failed, GetsFlushed};
ghost use Rattle.nd_picture.specs.OutputAndStatus.{FlushesIf};
ghost use Rattle.nd_picture.specs.ErrorTexts.{line_text, write_failure_text, arguments_error_text};
ghost use Rattle.nd_picture.specs.UsageAndArguments.{usage_text, asks_for_help, arguments_status};

use crate::program::{report_text, report_write};
use nd_text::buffered_printing::{finish, put};
use nd_text::lines_and_words::split_word;
use nd_text::{Page, Watched};
use std::error::Error;
use std::fmt;
use std::io::Write;

const HELP: &[u8] = b"--help";

/// Returns whether the first word of a line is `--help`.
pub fn asks_for_help(line: &[u8]) -> bool
    ensures { result ≡ asks_for_help (words_of line.now) }
{
    match split_word(line) {
        Some((word, _rest)) => word == HELP,
        None => false,
    }
}

/// The usage text, which says what arguments the program takes.
const USAGE: &[u8] = b"Usage: nd_picture_program [STEP]..
Reads an image (P1 to P6 of Netpbm), takes the steps in order, and writes the image.

crop T L H W   keep H rows from row T on, and W columns from column L on
flip           turn the image upside down
flop           mirror the image, left to right
rotate A       turn the image clockwise by A degrees: 90, 180 or 270
transpose      exchange rows and columns
scale-down K   keep the first of every K rows, and of every K columns
threshold N    set samples above N to the maxval, and all others to 0
invert         set each sample to the maxval less the sample
blur           set each sample to the mean of the nine samples around it
gray           set each pixel of a coloured image to its lightness
border N V     put N rows and columns of samples V on each side of the image
shrink K       set each block of K rows and columns to the mean of its samples
plain          write the samples in digits (P1, P2, P3)
raw            write the samples in bytes (P4, P5, P6)

Exit status: 0 done, 1 bad arguments or image, 2 out of memory, 3 a read or a write failed.
";

/// Writes the usage text to `output`, and flushes `output` once.
fn show_usage<W: Write>(output: &mut Watched<W>)
    ensures text { TakesText W.contents output.old output.new usage_text }
    ensures flushed { GetsFlushed output.old output.new }
{
    let mut page = Page::new();
    put(output, &mut page, USAGE);
    finish(output, &page);
}

/// Writes the usage text to `output`, and if a write of it failed, a line that says so to `errors`. Returns the exit
/// status: 0, or 3 if a call of a stream failed.
pub fn help<W: Write, E: Write>(output: &mut Watched<W>, errors: &mut Watched<E>) -> u8
    ensures text { TakesText W.contents output.old output.new usage_text }
    ensures told { TakesText E.contents errors.old errors.new (write_failure_text (watched_failed output.new)) }
    ensures flushed { GetsFlushed output.old output.new }
    ensures flushed_errors { FlushesIf (watched_failed output.new) errors.old errors.new }
    ensures status { result ≡ if (watched_failed output.new || watched_failed errors.new) then 3 else 0 }
{
    show_usage(output);
    report_write(output, errors);
    if output.failed() || errors.failed() {
        3
    } else {
        0
    }
}

/// Why a program's arguments can't be taken.
#[derive(Clone, Copy, Debug, PartialEq, Eq)]
pub enum ArgumentsError {
    /// An argument isn't UTF-8.
    NotText,
    /// Memory was refused.
    Memory,
}

impl ArgumentsError {
    /// Returns a sentence that says what is wrong.
    fn text(self) -> &'static str
        ensures { result.now ≡ arguments_error_text self }
    {
        match self {
            ArgumentsError::NotText => "an argument isn't UTF-8",
            ArgumentsError::Memory => "out of memory",
        }
    }

    /// Returns the exit status for this error.
    fn status(self) -> u8
        ensures { result ≡ arguments_status self }
    {
        match self {
            ArgumentsError::NotText => 1,
            ArgumentsError::Memory => 2,
        }
    }
}

/// Writes `an argument isn't UTF-8`, or `out of memory`.
impl fmt::Display for ArgumentsError {
    ghost output = { λ error. Some (arguments_error_text error) };

    fn fmt<W: fmt::Write>(&self, f: &mut fmt::Formatter<W>) -> fmt::Result {
        write!(f, "{}", self.text())
    }
}

impl Error for ArgumentsError {}

/// Writes a line to `errors` that tells why the arguments can't be taken. Returns the exit status: 1 for an argument
/// that isn't UTF-8, 2 if memory was refused, 3 if a call of `errors` failed.
pub fn decline<E: Write>(errors: &mut Watched<E>, error: ArgumentsError) -> u8
    ensures told { TakesText E.contents errors.old errors.new (line_text (arguments_error_text error)) }
    ensures flushed { GetsFlushed errors.old errors.new }
    ensures status { result ≡ if watched_failed errors.new then 3 else arguments_status error }
{
    report_text(errors, error.text().as_bytes());
    if errors.failed() { 3 } else { error.status() }
}
