//! Callers that read an array and write another, whose contracts need no proof file.

ghost use Rattle.std.specs.Prelude.{◌≡◌, false, IfOk, IsOk, IsTrue};
ghost use Rattle.nd_text.specs.WatchedReadersAndWriters.{watched_failed};
ghost use Rattle.nd_npy.specs.FileBytesAndArrays.{npy_in};

use crate::npy::readers_and_writers::has_written;
use nd_npy::reader::read_npy;
use nd_npy::streams::{read_npy_from, write_npy};
use nd_npy::writer::npy_bytes;
use nd_npy::{NpyItem, ReadNpyError, Watched};
use std::alloc::Global;
use std::io::{Read, Write};

/// Reads an array of numbers from the bytes of a file, and returns the bytes of the file of its transpose.
pub fn transposed(alloc: Global, bytes: &[u8]) -> Result<Vec<u8>, ReadNpyError>
    ensures { IfOk result (λ _. IsOk (npy_in ⟦<f64 as NpyItem>⟧ bytes.now)) }
{
    let array = read_npy::<f64>(alloc, bytes)?;
    match npy_bytes(alloc, &array.t()) {
        Ok(written) => Ok(written),
        Err(_) => Err(ReadNpyError::Memory),
    }
}

/// Reads an array of numbers from a stream, and writes the file of its transpose to another. Returns whether both could
/// be done.
pub fn transposed_through<R: Read, W: Write>(
    alloc: Global,
    input: &mut Watched<R>,
    output: &mut Watched<W>,
) -> bool
    ensures read { IsTrue result → watched_failed input.new ≡ false }
    ensures written { IsTrue result → watched_failed output.new ≡ false }
{
    match read_npy_from::<f64, R>(alloc, input) {
        Ok(array) => match write_npy(alloc, output, &array.t()) {
            Ok(()) => true,
            Err(_) => false,
        },
        Err(_) => false,
    }
}

/// A file of two rows and one column.
const COLUMN: &[u8] =
    b"\x93NUMPY\x01\x00v\x00{'descr': '>f8', 'fortran_order': False, 'shape': (2, 1), }                                                          \n?\xf8\x00\x00\x00\x00\x00\x00@\x04\x00\x00\x00\x00\x00\x00";

/// The file of the transpose of the array of `COLUMN`, as numpy writes it.
const ROW: &[u8] =
    b"\x93NUMPY\x01\x00v\x00{'descr': '<f8', 'fortran_order': False, 'shape': (1, 2), }                                                          \n\x00\x00\x00\x00\x00\x00\xf8?\x00\x00\x00\x00\x00\x00\x04@";

/// Returns whether the file of the transpose has these bytes.
fn is_transposed(alloc: Global, bytes: &[u8], expected: &[u8]) -> bool {
    match transposed(alloc, bytes) {
        Ok(written) => written.as_slice() == expected,
        Err(_) => false,
    }
}

/// Returns whether the file of the transpose, through streams, has these bytes.
fn is_transposed_through(alloc: Global, bytes: &[u8], expected: &[u8]) -> bool {
    let mut input = Watched::new(bytes);
    let mut output = Watched::new(Vec::new(alloc));
    let could_be_done = transposed_through(alloc, &mut input, &mut output);
    has_written(output, expected) && could_be_done
}

#[test]
fn the_transpose_of_a_file(rt: HostRuntime) {
    let (column, row) = (COLUMN, ROW);
    assert!(rt; is_transposed(rt.alloc(), column, row));
    assert!(rt; is_transposed_through(rt.alloc(), column, row));
}
