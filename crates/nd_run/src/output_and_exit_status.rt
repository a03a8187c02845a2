//! The ways in which a script ends, and what is written at the end.

ghost use Rattle.std.specs.Prelude.{◌≡◌, IfSome, if◌then◌else◌};
ghost use Rattle.nd_array_core.specs.ArrayMeaning.{meaning_of};
ghost use Rattle.nd_run.specs.CallsOnArrays.{whole_ending};
ghost use Rattle.nd_read.specs.ScriptReading.{asked_script};
ghost use Rattle.nd_run.specs.ReplyTexts.{elements_text};
ghost use Rattle.nd_run.specs.ScriptEndings.{ending, ending_text, status_of, is_load_failure, Loads};
ghost use Rattle.nd_text.specs.BufferedPrinting.{TakesText, Puts};
ghost use Rattle.nd_text.specs.WatchedReadersAndWriters.{watched_inner, watched_failed, watched_retried, GetsFlushed};

use crate::printer::put_replies;
use crate::replies::Reply;
use itoa::Buffer;
use nd_array_core::Array;
use nd_read::{Script, ScriptError, ScriptReader, read_script};
use nd_shape_and_slice::{IxDyn, MAX_AXES, index_of_rank};
use nd_text::buffered_printing::{finish, put, put_list, put_number, put_numbers};
use nd_text::read_input::{InputError, read_input};
use nd_text::{Page, Watched};
use std::alloc::Global;
use std::io::{Read, Write};

/// The way in which a script ended before its last call.
#[derive(Debug, Drop)]
pub enum Outcome {
    /// A line is bad; this is the number of the first one.
    BadLine(usize),
    /// Memory was refused; these are the replies to the calls before that.
    Memory(Vec<Reply<i64>>),
    /// The input could not be read.
    ReadFailed,
}

/// Returns the script that the whole input writes, or the way in which it ends if there is none.
pub fn load<R: Read>(alloc: Global, input: &mut Watched<R>) -> Result<Script, Outcome>
    ensures script { IfSome (R.remaining (watched_inner input.old)) (λ xs. Loads asked_script xs result) }
    ensures failed { watched_failed input.new ≡ is_load_failure result }
    ensures stops { watched_retried input.new ≡ watched_retried input.old }
{
    let text = match read_input(alloc, input) {
        Ok(text) => text,
        Err(InputError::Failed) => return Err(Outcome::ReadFailed),
        Err(InputError::Memory) => return Err(Outcome::Memory(Vec::new(alloc))),
    };
    match read_script(&mut ScriptReader::new(alloc), &text) {
        Ok(script) => Ok(script),
        Err(ScriptError::BadLine(number)) => Err(Outcome::BadLine(number)),
        Err(ScriptError::Memory) => Err(Outcome::Memory(Vec::new(alloc))),
    }
}

fn put_end<W: Write>(output: &mut Watched<W>, page: &mut Page, outcome: &Outcome)
    ensures { Puts W.contents output.old page.old output.new page.new (ending_text (ending outcome.now)) }
{
    match outcome {
        Outcome::BadLine(number) => {
            put(output, page, b"bad line ");
            put_number(output, page, &mut Buffer::new(), number);
            put(output, page, b"\n");
        }
        Outcome::Memory(replies) => {
            put_replies(output, page, replies);
            put(output, page, b"out of memory\n");
        }
        Outcome::ReadFailed => put(output, page, b"read failed\n"),
    }
}

fn status(outcome: &Outcome, failed: bool) -> u8
    ensures { result ≡ status_of failed (ending outcome.now) }
{
    if failed {
        return 3;
    }
    match outcome {
        Outcome::BadLine(_) => 1,
        Outcome::Memory(_) => 2,
        Outcome::ReadFailed => 3,
    }
}

/// Writes the text for this outcome, flushes the output if no call of it has failed, and returns the program's status.
pub fn conclude<W: Write>(output: &mut Watched<W>, outcome: &Outcome) -> u8
    ensures text { TakesText W.contents output.old output.new (ending_text (ending outcome.now)) }
    ensures flushed { GetsFlushed output.old output.new }
    ensures status { result ≡ status_of (watched_failed output.new) (ending outcome.now) }
{
    let mut page = Page::new();
    put_end(output, &mut page, outcome);
    finish(output, &page);
    status(outcome, output.failed())
}

/// Writes a space and then the element, for each element of an array in row-major order. It takes no memory.
fn put_elements<W: Write>(output: &mut Watched<W>, page: &mut Page, array: &Array<i64, IxDyn>)
    ensures { Puts W.contents output.old page.old output.new page.new (elements_text (meaning_of array.now)) }
{
    let mut coordinates = [0; MAX_AXES];
    let index = &mut coordinates[..array.ndim()];
    let mut buffer = Buffer::new();
    for rank in 0..array.len() {
        index_of_rank(array.shape(), rank, index);
        if let Some(value) = array.get(&*index) {
            put(output, page, b" ");
            put_number(output, page, &mut buffer, value);
        }
    }
}

/// Writes a space and then the element, for each element of an array in row-major order. It goes over one slice if the
/// elements are contiguous in that order. It takes no memory.
fn put_values<W: Write>(output: &mut Watched<W>, page: &mut Page, array: &Array<i64, IxDyn>)
    ensures { Puts W.contents output.old page.old output.new page.new (elements_text (meaning_of array.now)) }
{
    match array.as_slice() {
        Some(values) => put_numbers(output, page, values),
        None => put_elements(output, page, array),
    }
}

fn put_whole<W: Write>(
    output: &mut Watched<W>,
    page: &mut Page,
    replies: &[Reply<i64>],
    array: &Array<i64, IxDyn>,
)
    ensures { Puts W.contents output.old page.old output.new page.new (ending_text (whole_ending replies.now array.now)) }
{
    put_replies(output, page, replies);
    put(output, page, b"end ");
    put_list(output, page, array.shape());
    put_values(output, page, array);
    put(output, page, b"\n");
}

/// Writes the replies and the array that the last call left, flushes the output if no call of it has failed, and
/// returns the program's status. It takes no memory.
pub fn conclude_whole<W: Write>(
    output: &mut Watched<W>,
    replies: &[Reply<i64>],
    array: &Array<i64, IxDyn>,
) -> u8
    ensures text { TakesText W.contents output.old output.new (ending_text (whole_ending replies.now array.now)) }
    ensures flushed { GetsFlushed output.old output.new }
    ensures status { result ≡ (if watched_failed output.new then 3 else 0) }
{
    let mut page = Page::new();
    put_whole(output, &mut page, replies, array);
    finish(output, &page);
    if output.failed() { 3 } else { 0 }
}
