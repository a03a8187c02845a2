//! The errors of reading a file and of writing one.

ghost use Rattle.std.specs.Prelude.{◌≡◌, ◌++◌, Some, codes};
ghost use Rattle.std.specs.Fmt.{WritesOnOk, decimal};
ghost use Rattle.nd_npy.specs.ErrorTexts.{kind_name, read_npy_error_text, read_npy_from_error_text, write_npy_error_text};

use nd_npy_text::{HeaderError, Kind};
use std::error::Error;
use std::fmt;

/// Returns numpy's name of a kind, for example `float64`.
pub(crate) fn kind_name(kind: Kind) -> &'static str
    ensures { result.now ≡ kind_name kind }
{
    match kind {
        Kind::Bool => "bool",
        Kind::Int8 => "int8",
        Kind::Int16 => "int16",
        Kind::Int32 => "int32",
        Kind::Int64 => "int64",
        Kind::UInt8 => "uint8",
        Kind::UInt16 => "uint16",
        Kind::UInt32 => "uint32",
        Kind::UInt64 => "uint64",
        Kind::Float16 => "float16",
        Kind::Float32 => "float32",
        Kind::Float64 => "float64",
        Kind::Complex64 => "complex64",
        Kind::Complex128 => "complex128",
    }
}

/// Why no array can be read from the bytes of a file.
#[derive(Clone, Copy, Debug, PartialEq, Eq)]
pub enum ReadNpyError {
    /// The head can't be read. The error of the head is never `Memory` here.
    Header(HeaderError),
    /// The elements are of this kind, which isn't read as the type of elements that was asked for.
    OtherKind(Kind),
    /// The bytes after the head aren't as many as the elements take.
    WrongSize {
        /// How many bytes the elements take.
        expected: usize,
        /// How many bytes follow the head.
        found: usize,
    },
    /// Memory was refused.
    Memory,
}

/// Writes that `found` bytes follow the head, and how many the elements take.
fn write_sizes<W: fmt::Write>(
    f: &mut fmt::Formatter<W>,
    expected: usize,
    found: usize,
) -> fmt::Result
    ensures { WritesOnOk W.write_str_gives f.old result (decimal found ++ (codes " bytes follow the head, and the elements take " ++ decimal expected)) f.new }
{
    write!(
        f,
        "{found} bytes follow the head, and the elements take {expected}"
    )
}

/// Writes the cause, for example `23 bytes follow the head, and the elements take 24`.
impl fmt::Display for ReadNpyError {
    ghost output = { λ error. Some (read_npy_error_text error) };

    fn fmt<W: fmt::Write>(&self, f: &mut fmt::Formatter<W>) -> fmt::Result {
        match self {
            ReadNpyError::Header(error) => fmt::Display::fmt(error, f),
            ReadNpyError::OtherKind(kind) => write!(
                f,
                "the elements are of the kind {}, which isn't the kind asked for",
                kind_name(*kind)
            ),
            ReadNpyError::WrongSize { expected, found } => write_sizes(f, *expected, *found),
            ReadNpyError::Memory => f.write_str("out of memory"),
        }
    }
}

impl Error for ReadNpyError {}

/// Why no array can be read from a stream.
#[derive(Clone, Copy, Debug, PartialEq, Eq)]
pub enum ReadNpyFromError {
    /// A read failed.
    ReadFailed,
    /// The bytes that were read are refused for this cause, or memory was refused.
    File(ReadNpyError),
}

/// Writes the cause, for example `a read failed`.
impl fmt::Display for ReadNpyFromError {
    ghost output = { λ error. Some (read_npy_from_error_text error) };

    fn fmt<W: fmt::Write>(&self, f: &mut fmt::Formatter<W>) -> fmt::Result {
        match self {
            ReadNpyFromError::ReadFailed => f.write_str("a read failed"),
            ReadNpyFromError::File(error) => fmt::Display::fmt(error, f),
        }
    }
}

impl Error for ReadNpyFromError {}

/// Why the file of an array isn't written to a stream.
#[derive(Clone, Copy, Debug, PartialEq, Eq)]
pub enum WriteNpyError {
    /// A write or the flush at the end failed. Only a beginning of the file may be written.
    WriteFailed,
    /// Memory was refused. Nothing is written.
    Memory,
}

/// Writes the cause, for example `a write failed`.
impl fmt::Display for WriteNpyError {
    ghost output = { λ error. Some (write_npy_error_text error) };

    fn fmt<W: fmt::Write>(&self, f: &mut fmt::Formatter<W>) -> fmt::Result {
        match self {
            WriteNpyError::WriteFailed => f.write_str("a write failed"),
            WriteNpyError::Memory => f.write_str("out of memory"),
        }
    }
}

impl Error for WriteNpyError {}
