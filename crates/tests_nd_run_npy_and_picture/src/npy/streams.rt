//! Arrays that are read from streams which give a few bytes at a time, and written to streams; and streams that fail.

ghost use Rattle.nd_array_core.specs.Prelude.{EachCloneIsEqual};

use crate::npy::numpy_file_checks::shows;
use crate::npy::readers_and_writers::{Full, Trickle, has_written};
use nd_array_core::ArrayD;
use nd_npy::streams::{read_npy_from, write_npy, write_npy_in};
use nd_npy::{NpyItem, NpyNumber, ReadNpyError, ReadNpyFromError, Watched, WriteNpyError};
use nd_npy_text::{ByteOrder, HeaderError, ItemType, Kind};
use std::alloc::Global;

/// The numbers 1 to 6 in two rows, in row-major order, as numpy writes them.
const ROWS: &[u8] =
    b"\x93NUMPY\x01\x00v\x00{'descr': '<i4', 'fortran_order': False, 'shape': (2, 3), }                                                          \n\x01\x00\x00\x00\x02\x00\x00\x00\x03\x00\x00\x00\x04\x00\x00\x00\x05\x00\x00\x00\x06\x00\x00\x00";

/// The numbers 1 to 6 in two rows, in column-major order, as numpy writes them.
const COLUMNS: &[u8] =
    b"\x93NUMPY\x01\x00v\x00{'descr': '<i4', 'fortran_order': True, 'shape': (2, 3), }                                                           \n\x01\x00\x00\x00\x04\x00\x00\x00\x02\x00\x00\x00\x05\x00\x00\x00\x03\x00\x00\x00\x06\x00\x00\x00";

/// Returns what is read of the bytes, so many at a time.
fn read<A: NpyItem>(
    alloc: Global,
    bytes: &[u8],
    most: usize,
) -> Result<ArrayD<A>, ReadNpyFromError> {
    let mut input = Watched::new(Trickle::of(bytes, most));
    read_npy_from(alloc, &mut input)
}

/// Returns whether the array is written to a stream as these bytes.
fn is_written<A: NpyNumber>(alloc: Global, array: &ArrayD<A>, bytes: &[u8]) -> bool {
    let mut output = Watched::new(Vec::new(alloc));
    let is_ok = write_npy(alloc, &mut output, array).is_ok();
    has_written(output, bytes) && is_ok
}

/// Returns whether the array is written to a stream as these bytes, in Fortran's order if `fortran_order` is true, and
/// otherwise in row-major order.
fn is_written_in<A: NpyNumber>(
    alloc: Global,
    array: &ArrayD<A>,
    fortran_order: bool,
    bytes: &[u8],
) -> bool {
    let item_type = ItemType {
        kind: A::kind(),
        order: ByteOrder::Little,
    };
    let mut output = Watched::new(Vec::new(alloc));
    let is_ok = write_npy_in(alloc, &mut output, item_type, fortran_order, array).is_ok();
    has_written(output, bytes) && is_ok
}

/// Returns whether a file is read as these elements in two rows and three columns, at most `most` bytes at a time, and is
/// written again as it was, and in the other order as the file `other`.
fn is_kept<A: NpyNumber + PartialEq>(
    alloc: Global,
    file: &[u8],
    most: usize,
    values: &[A],
    fortran_order: bool,
    other: &[u8],
) -> bool
    requires { EachCloneIsEqual A.is_clone }
{
    match read(alloc, file, most) {
        Ok(array) => {
            shows(alloc, &array, &[2, 3], values)
                && is_written(alloc, &array, file)
                && is_written_in(alloc, &array, !fortran_order, other)
        }
        Err(_) => false,
    }
}

/// Returns whether each of two files, in row-major and in column-major order, is read as these elements in two rows and
/// three columns, whatever so many bytes at a time, and is written again as it was, and in the other order as the other.
fn are_kept<A: NpyNumber + PartialEq>(
    alloc: Global,
    values: &[A],
    rows: &[u8],
    columns: &[u8],
) -> bool
    requires { EachCloneIsEqual A.is_clone }
{
    for most in 1..20 {
        if !is_kept(alloc, rows, most, values, false, columns)
            || !is_kept(alloc, columns, most, values, true, rows)
        {
            return false;
        }
    }
    true
}

#[test]
fn both_orders(rt: HostRuntime) {
    const VALUES: [i32; 6] = [1, 2, 3, 4, 5, 6];
    assert!(rt; are_kept(rt.alloc(), &VALUES, ROWS, COLUMNS));
}

/// Returns whether no array of `A` is read from a reader, for this cause.
fn fails_with<A: NpyItem>(alloc: Global, input: Trickle<'_>, error: ReadNpyFromError) -> bool {
    let mut input = Watched::new(input);
    match read_npy_from::<A, Trickle<'_>>(alloc, &mut input) {
        Ok(_) => false,
        Err(cause) => cause == error,
    }
}

/// Returns whether a read that fails at any byte of the file, or at its end, is told.
fn failing_reads_are_told<A: NpyItem>(alloc: Global, file: &[u8]) -> bool {
    for cut in 0..153 {
        let input = Trickle {
            rest: file,
            most: 50,
            cut,
        };
        if !fails_with::<A>(alloc, input, ReadNpyFromError::ReadFailed) {
            return false;
        }
    }
    true
}

#[test]
fn a_read_that_fails(rt: HostRuntime) {
    assert!(rt; failing_reads_are_told::<i32>(rt.alloc(), ROWS));
}

/// Returns whether the bytes are refused with this error when they are read as `A`.
fn are_refused<A: NpyItem>(alloc: Global, bytes: &[u8], error: ReadNpyError) -> bool {
    for most in [1, 7, 1000].as_slice() {
        if !fails_with::<A>(
            alloc,
            Trickle::of(bytes, *most),
            ReadNpyFromError::File(error),
        ) {
            return false;
        }
    }
    true
}

/// Returns the first bytes, as many as there are up to this number.
fn front(bytes: &[u8], len: usize) -> &[u8] {
    &bytes[..bytes.len().min(len)]
}

/// How many bytes of the file of two rows are there, in its head or in its elements, and why they are refused.
const BEGINNINGS: [(usize, ReadNpyError); 12] = [
    (6, ReadNpyError::Header(HeaderError::TooShort)),
    (8, ReadNpyError::Header(HeaderError::TooShort)),
    (9, ReadNpyError::Header(HeaderError::TooShort)),
    (10, ReadNpyError::Header(HeaderError::TooShort)),
    (11, ReadNpyError::Header(HeaderError::TooShort)),
    (127, ReadNpyError::Header(HeaderError::TooShort)),
    (0, ReadNpyError::Header(HeaderError::NoMagic)),
    (5, ReadNpyError::Header(HeaderError::NoMagic)),
    (
        128,
        ReadNpyError::WrongSize {
            expected: 24,
            found: 0,
        },
    ),
    (
        129,
        ReadNpyError::WrongSize {
            expected: 24,
            found: 1,
        },
    ),
    (
        132,
        ReadNpyError::WrongSize {
            expected: 24,
            found: 4,
        },
    ),
    (
        151,
        ReadNpyError::WrongSize {
            expected: 24,
            found: 23,
        },
    ),
];

/// Returns whether each beginning of the file is refused with the error beside its length.
fn beginnings_are_refused<A: NpyItem>(
    alloc: Global,
    file: &[u8],
    table: &[(usize, ReadNpyError)],
) -> bool {
    for (len, error) in table {
        if !are_refused::<A>(alloc, front(file, *len), *error) {
            return false;
        }
    }
    true
}

#[test]
fn bytes_that_are_refused(rt: HostRuntime) {
    // The file of two rows, and one byte more.
    const LONGER: &[u8] =
        b"\x93NUMPY\x01\x00v\x00{'descr': '<i4', 'fortran_order': False, 'shape': (2, 3), }                                                          \n\x01\x00\x00\x00\x02\x00\x00\x00\x03\x00\x00\x00\x04\x00\x00\x00\x05\x00\x00\x00\x06\x00\x00\x00\x07";
    assert!(rt; beginnings_are_refused::<i32>(rt.alloc(), ROWS, &BEGINNINGS));
    let longer = LONGER;
    let error = ReadNpyError::WrongSize {
        expected: 24,
        found: 25,
    };
    assert!(rt; are_refused::<i32>(rt.alloc(), longer, error));
    assert!(rt; are_refused::<f32>(rt.alloc(), longer, ReadNpyError::OtherKind(Kind::Int32)));
}

/// Returns whether a file is read, and a write of its array to a writer that takes no byte fails.
fn write_fails<A: NpyNumber>(alloc: Global, file: &[u8]) -> bool {
    match read::<A>(alloc, file, 40) {
        Ok(array) => {
            let mut output = Watched::new(Full);
            matches!(
                write_npy(alloc, &mut output, &array),
                Err(WriteNpyError::WriteFailed)
            )
        }
        Err(_) => false,
    }
}

#[test]
fn a_write_that_fails(rt: HostRuntime) {
    assert!(rt; write_fails::<i32>(rt.alloc(), ROWS));
}
