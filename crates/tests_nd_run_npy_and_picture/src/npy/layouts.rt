//! Arrays that lie otherwise than in row-major order, written as numpy writes them in C order.

use crate::npy::numpy_file_checks::writes;
use nd_array_core::{Axis, Slice};
use nd_npy::NpyNumber;
use nd_npy::reader::read_npy;
use std::alloc::Global;

/// The numbers 1 to 6 in two rows.
const TWO_ROWS: &[u8] =
    b"\x93NUMPY\x01\x00v\x00{'descr': '<i4', 'fortran_order': False, 'shape': (2, 3), }                                                          \n\x01\x00\x00\x00\x02\x00\x00\x00\x03\x00\x00\x00\x04\x00\x00\x00\x05\x00\x00\x00\x06\x00\x00\x00";

/// Returns whether a file is read, and its array with the axes reversed is written as the file `saved`.
fn is_written_with_axes_reversed<A: NpyNumber>(alloc: Global, file: &[u8], saved: &[u8]) -> bool {
    match read_npy::<A>(alloc, file) {
        Ok(array) => writes(alloc, &array.reversed_axes(), saved),
        Err(_) => false,
    }
}

#[test]
fn axes_reversed(rt: HostRuntime) {
    const TRANSPOSED: &[u8] =
        b"\x93NUMPY\x01\x00v\x00{'descr': '<i4', 'fortran_order': False, 'shape': (3, 2), }                                                          \n\x01\x00\x00\x00\x04\x00\x00\x00\x02\x00\x00\x00\x05\x00\x00\x00\x03\x00\x00\x00\x06\x00\x00\x00";
    assert!(rt; is_written_with_axes_reversed::<i32>(rt.alloc(), TWO_ROWS, TRANSPOSED));
}

/// Returns whether a file is read as an array of two rows and three columns, and the array from the second column on is
/// written as the file `saved`.
fn is_written_from_second_column<A: NpyNumber>(alloc: Global, file: &[u8], saved: &[u8]) -> bool {
    match read_npy::<A>(alloc, file) {
        Ok(mut array) => {
            if array.shape() != [2, 3].as_slice() {
                return false;
            }
            array.slice_axis_inplace(Axis(1), Slice::new(1, None, 1));
            writes(alloc, &array, saved)
        }
        Err(_) => false,
    }
}

#[test]
fn a_part_of_each_row(rt: HostRuntime) {
    const LAST_COLUMNS: &[u8] =
        b"\x93NUMPY\x01\x00v\x00{'descr': '<i4', 'fortran_order': False, 'shape': (2, 2), }                                                          \n\x02\x00\x00\x00\x03\x00\x00\x00\x05\x00\x00\x00\x06\x00\x00\x00";
    assert!(rt; is_written_from_second_column::<i32>(rt.alloc(), TWO_ROWS, LAST_COLUMNS));
}

/// Returns whether a file is read as an array of two axes, and the array with its rows backwards is written as the file
/// `saved`.
fn is_written_with_rows_backwards<A: NpyNumber>(alloc: Global, file: &[u8], saved: &[u8]) -> bool {
    match read_npy::<A>(alloc, file) {
        Ok(mut array) => {
            if array.ndim() != 2 {
                return false;
            }
            array.invert_axis(Axis(0));
            writes(alloc, &array, saved)
        }
        Err(_) => false,
    }
}

#[test]
fn rows_backwards(rt: HostRuntime) {
    const ROWS_EXCHANGED: &[u8] =
        b"\x93NUMPY\x01\x00v\x00{'descr': '<i4', 'fortran_order': False, 'shape': (2, 3), }                                                          \n\x04\x00\x00\x00\x05\x00\x00\x00\x06\x00\x00\x00\x01\x00\x00\x00\x02\x00\x00\x00\x03\x00\x00\x00";
    assert!(rt; is_written_with_rows_backwards::<i32>(rt.alloc(), TWO_ROWS, ROWS_EXCHANGED));
}
