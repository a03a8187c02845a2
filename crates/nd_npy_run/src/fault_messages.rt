//! What the program writes of a fault.

ghost use Rattle.std.specs.Prelude.{◌≡◌, ◌++◌};
ghost use Rattle.std.specs.Fmt.{decimal};
ghost use Rattle.nd_npy_text.specs.ErrorTexts.{header_error_text};
ghost use Rattle.nd_npy_text.specs.declared.errors.HeaderError.TheVariants.{BadByte, UnknownVersion};
ghost use Rattle.nd_npy_run.specs.StepErrorTexts.{step_refusal_text};
ghost use Rattle.nd_npy_run.specs.ErrorTexts.{bad_step_line, size_line, no_text_line, npy_fault_text, reduction_line, word_needs_text};
ghost use Rattle.nd_text.specs.BufferedPrinting.{Puts};

use crate::output_or_fault::Fault;
use crate::reduction::{ReductionError, reduction_named};
use crate::steps::{Refusal, cause_told, step_needs};
use itoa::Buffer;
use nd_npy_text::{HeaderError, HeaderFlaw, Kind};
use nd_text::buffered_printing::{put, put_number};
use nd_text::{Page, Watched};
use std::io::Write;

/// Writes a number, buffered in `page`.
fn put_count<W: Write>(output: &mut Watched<W>, page: &mut Page, number: usize)
    ensures { Puts W.contents output.old page.old output.new page.new (decimal number) }
{
    put_number(output, page, &mut Buffer::new(), &number);
}

/// Writes a number between two texts. All is buffered in `page`.
fn put_counted<W: Write>(
    output: &mut Watched<W>,
    page: &mut Page,
    before: &[u8],
    number: usize,
    after: &[u8],
)
    ensures { Puts W.contents output.old page.old output.new page.new (before.now ++ (decimal number ++ after.now)) }
{
    put(output, page, before);
    put_count(output, page, number);
    put(output, page, after);
}

/// Writes a word between two texts. All is buffered in `page`.
fn put_between<W: Write>(
    output: &mut Watched<W>,
    page: &mut Page,
    before: &[u8],
    word: &[u8],
    after: &[u8],
)
    ensures { Puts W.contents output.old page.old output.new page.new (before.now ++ (word.now ++ after.now)) }
{
    put(output, page, before);
    put(output, page, word);
    put(output, page, after);
}

/// Returns what has to follow a word that begins a step, that none begins so, or where the name of a reduction stands.
fn word_needs(word: &[u8]) -> &'static str
    ensures { result.now ≡ word_needs_text word.now }
{
    match reduction_named(word) {
        Some(_) => "it stands in front of the steps, with an axis after it",
        None => step_needs(word),
    }
}

/// Writes the number of a step that can't be read, its first word, and what has to follow that. All is buffered in
/// `page`.
fn put_step<W: Write>(output: &mut Watched<W>, page: &mut Page, number: usize, word: &[u8])
    ensures { Puts W.contents output.old page.old output.new page.new (bad_step_line number word.now) }
{
    put_counted(output, page, b"step ", number, b" '");
    put_between(output, page, word, b"': ", word_needs(word).as_bytes());
}

/// Writes that a version of the format isn't known, buffered in `page`.
fn put_version<W: Write>(output: &mut Watched<W>, page: &mut Page, major: u8, minor: u8)
    ensures { Puts W.contents output.old page.old output.new page.new (header_error_text (UnknownVersion major minor)) }
{
    put_counted(output, page, b"the version ", usize::from(major), b".");
    put_counted(output, page, b"", usize::from(minor), b" isn't known");
}

/// Writes which byte of a head is wrong, and why. All is buffered in `page`.
fn put_bad_byte<W: Write>(output: &mut Watched<W>, page: &mut Page, byte: usize, flaw: HeaderFlaw)
    ensures { Puts W.contents output.old page.old output.new page.new (header_error_text (BadByte byte flaw)) }
{
    put_counted(output, page, b"byte ", byte, b": ");
    put(output, page, flaw.text().as_bytes());
}

/// Writes why a head can't be read, buffered in `page`.
fn put_head_error<W: Write>(output: &mut Watched<W>, page: &mut Page, error: HeaderError)
    ensures { Puts W.contents output.old page.old output.new page.new (header_error_text error) }
{
    match error {
        HeaderError::NoMagic => put(output, page, b"this is no .npy file"),
        HeaderError::UnknownVersion { major, minor } => put_version(output, page, major, minor),
        HeaderError::TooShort => put(output, page, b"the head ends too early"),
        HeaderError::BadByte { byte, flaw } => put_bad_byte(output, page, byte, flaw),
        HeaderError::TooLarge => put(output, page, b"the shape is too large"),
        HeaderError::Memory => put(output, page, b"out of memory"),
    }
}

/// Writes that the number of bytes behind a head is wrong, buffered in `page`.
fn put_size<W: Write>(output: &mut Watched<W>, page: &mut Page, expected: usize, found: usize)
    ensures { Puts W.contents output.old page.old output.new page.new (size_line expected found) }
{
    put_counted(
        output,
        page,
        b"the elements take ",
        expected,
        b" bytes, but ",
    );
    put_counted(output, page, b"", found, b" bytes follow the head");
}

/// Writes which step is refused, and why. All is buffered in `page`.
fn put_refusal<W: Write>(output: &mut Watched<W>, page: &mut Page, refusal: Refusal)
    ensures { Puts W.contents output.old page.old output.new page.new (step_refusal_text refusal) }
{
    put_counted(output, page, b"step ", refusal.number, b": ");
    put(output, page, cause_told(refusal.cause).as_bytes());
}

/// Writes that elements of this kind can't be printed. All is buffered in `page`.
fn put_no_text<W: Write>(output: &mut Watched<W>, page: &mut Page, kind: Kind)
    ensures { Puts W.contents output.old page.old output.new page.new (no_text_line kind) }
{
    put_between(
        output,
        page,
        b"elements of the kind ",
        kind.code(),
        b" can't be printed",
    );
}

/// Writes why an array can't be reduced along an axis. All is buffered in `page`.
fn put_reduction<W: Write>(output: &mut Watched<W>, page: &mut Page, error: ReductionError)
    ensures { Puts W.contents output.old page.old output.new page.new (reduction_line error) }
{
    match error {
        ReductionError::NoAxis { axis, axes } => {
            put_counted(
                output,
                page,
                b"there is no axis ",
                axis,
                b", because the number of axes is ",
            );
            put_count(output, page, axes);
        }
        ReductionError::NoElements { axis } => {
            put(output, page, b"there are no elements along axis ");
            put_count(output, page, axis);
        }
        ReductionError::NoNumbers(kind) => {
            put_between(
                output,
                page,
                b"elements of the kind ",
                kind.code(),
                b" can't be reduced",
            );
        }
    }
}

/// Writes what `fault` tells. All is buffered in `page`.
pub(crate) fn put_fault<W: Write>(output: &mut Watched<W>, page: &mut Page, fault: Fault<'_>)
    ensures { Puts W.contents output.old page.old output.new page.new (npy_fault_text fault.entry) }
{
    match fault {
        Fault::BadStep { number, word } => put_step(output, page, number, word),
        Fault::BadHead(error) => put_head_error(output, page, error),
        Fault::WrongSize { expected, found } => put_size(output, page, expected, found),
        Fault::Refused(refusal) => put_refusal(output, page, refusal),
        Fault::NoText(kind) => put_no_text(output, page, kind),
        Fault::NotReduced(error) => put_reduction(output, page, error),
        Fault::Memory => put(output, page, b"out of memory"),
        Fault::ReadFailed => put(output, page, b"a read failed"),
    }
}
