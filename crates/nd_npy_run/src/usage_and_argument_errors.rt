//! The program's usage text, and the errors of its arguments.

ghost use Rattle.std.specs.Prelude.{◌≡◌, ◌||◌, ◌==◌, Some, if◌then◌else◌};
ghost use Rattle.nd_text.specs.BufferedPrinting.{TakesText};
ghost use Rattle.nd_text.specs.LinesAndWords.{words_of};
ghost use Rattle.nd_text.specs.WatchedReadersAndWriters.{watched_failed, GetsFlushed};
ghost use Rattle.nd_npy_run.specs.OutputAndStatus.{FlushesErrorsIf};
ghost use Rattle.nd_npy_run.specs.ErrorTexts.{npy_line_text, npy_write_failure_text, npy_arguments_error_text};
ghost use Rattle.nd_npy_run.specs.UsageAndArguments.{npy_usage_text, asks_for_npy_help, npy_arguments_status};

use crate::program::{report_text, report_write};
use nd_text::buffered_printing::{finish, put};
use nd_text::lines_and_words::split_word;
use nd_text::{Page, Watched};
use std::error::Error;
use std::fmt;
use std::io::Write;

const HELP: &[u8] = b"--help";

/// Returns whether the first word of a line is `--help`.
pub fn asks_for_help(line: &[u8]) -> bool
    ensures { result ≡ asks_for_npy_help (words_of line.now) }
{
    match split_word(line) {
        Some((word, _rest)) => word == HELP,
        None => false,
    }
}

/// The usage text, which says what arguments the program takes.
const USAGE: &[u8] =
    b"Usage: nd_npy_program [describe | shape | print | sum A | mean A | min A | max A] [STEP]..
Reads an array in numpy's format .npy, takes the steps in order, and writes the array; or
with the word describe a line that tells its type of elements and its shape, with shape its
shape, and with print its elements, which must be integers or truth values; or with sum,
mean, min or max the array of the sums, the means, or the least or greatest elements along
its axis A.

cut A START END STEP   slice axis A; END is _ for the end of the axis
slice N ELEM..         slice all axes by N of: s START END STEP, i INDEX, n (a new axis)
collapse A I           keep index I of axis A, which then has length 1
index A I              keep index I of axis A, and take the axis out
permute N AXIS..       put the N axes in this order
reverse                put the axes in the opposite order
swapaxes A B           exchange two axes
invert A               run axis A backwards
insert A               put in an axis of length 1 at A
remove A               keep index 0 of axis A, and take the axis out
squeeze                take out the axes of length 1
diag                   keep the elements whose coordinates are all the same
broadcast N LENGTH..   repeat the elements to these N lengths
select A N INDEX..     keep these N indexes of axis A, in this order
reshape N LENGTH..     put the elements, in their row-major order, under these N lengths

Exit status: 0 done, 1 bad arguments or file, 2 out of memory, 3 a read or a write failed.
";

/// Writes the usage text to `output`, and flushes `output` once.
fn show_usage<W: Write>(output: &mut Watched<W>)
    ensures text { TakesText W.contents output.old output.new npy_usage_text }
    ensures flushed { GetsFlushed output.old output.new }
{
    let mut page = Page::new();
    put(output, &mut page, USAGE);
    finish(output, &page);
}

/// Writes the usage text to `output`, and if a write of it failed, a line that says so to `errors`. Returns the exit
/// status: 0, or 3 if a call of a stream failed.
pub fn help<W: Write, E: Write>(output: &mut Watched<W>, errors: &mut Watched<E>) -> u8
    ensures text { TakesText W.contents output.old output.new npy_usage_text }
    ensures told { TakesText E.contents errors.old errors.new (npy_write_failure_text (watched_failed output.new)) }
    ensures flushed { GetsFlushed output.old output.new }
    ensures flushed_errors { FlushesErrorsIf (watched_failed output.new) errors.old errors.new }
    ensures status { result ≡ if (watched_failed output.new || watched_failed errors.new) then 3 else 0 }
{
    show_usage(output);
    report_write(output, errors);
    if output.failed() || errors.failed() {
        3
    } else {
        0
    }
}

/// Why a program's arguments can't be taken.
#[derive(Clone, Copy, Debug, PartialEq, Eq)]
pub enum ArgumentsError {
    /// An argument isn't UTF-8.
    NotText,
    /// Memory was refused.
    Memory,
}

impl ArgumentsError {
    /// Returns a sentence that says what is wrong.
    fn text(self) -> &'static str
        ensures { result.now ≡ npy_arguments_error_text self }
    {
        match self {
            ArgumentsError::NotText => "an argument isn't UTF-8",
            ArgumentsError::Memory => "out of memory",
        }
    }

    /// Returns the exit status for this error.
    fn status(self) -> u8
        ensures { result ≡ npy_arguments_status self }
    {
        match self {
            ArgumentsError::NotText => 1,
            ArgumentsError::Memory => 2,
        }
    }
}

/// Writes `an argument isn't UTF-8`, or `out of memory`.
impl fmt::Display for ArgumentsError {
    ghost output = { λ error. Some (npy_arguments_error_text error) };

    fn fmt<W: fmt::Write>(&self, f: &mut fmt::Formatter<W>) -> fmt::Result {
        f.write_str(self.text())
    }
}

impl Error for ArgumentsError {}

/// Writes a line to `errors` that tells why the arguments can't be taken. Returns the exit status: 1 for an argument
/// that isn't UTF-8, 2 if memory was refused, 3 if a call of `errors` failed.
pub fn decline<E: Write>(errors: &mut Watched<E>, error: ArgumentsError) -> u8
    ensures told { TakesText E.contents errors.old errors.new (npy_line_text (npy_arguments_error_text error)) }
    ensures flushed { GetsFlushed errors.old errors.new }
    ensures status { result ≡ if watched_failed errors.new then 3 else npy_arguments_status error }
{
    report_text(errors, error.text().as_bytes());
    if errors.failed() { 3 } else { error.status() }
}
