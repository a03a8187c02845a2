//! Files of arrays with 0 to 3 axes, with and without elements, in both orders of elements.

use crate::npy::numpy_file_checks::is_kept;
use std::alloc::Global;

/// The shape of an array, how many elements it has, its file in row-major order, and its file in column-major order, or no
/// bytes if this is the same file. The elements in row-major order are the numbers from 1 on.
type Row = (&'static [usize], usize, &'static [u8], &'static [u8]);

/// Arrays of each shape, and the files that numpy writes for them.
const SHAPES: [Row; 8] = [
    (
        &[],
        1,
        b"\x93NUMPY\x01\x00v\x00{'descr': '<i4', 'fortran_order': False, 'shape': (), }                                                              \n\x01\x00\x00\x00",
        b"",
    ),
    (
        &[3],
        3,
        b"\x93NUMPY\x01\x00v\x00{'descr': '<i4', 'fortran_order': False, 'shape': (3,), }                                                            \n\x01\x00\x00\x00\x02\x00\x00\x00\x03\x00\x00\x00",
        b"",
    ),
    (
        &[0],
        0,
        b"\x93NUMPY\x01\x00v\x00{'descr': '<i4', 'fortran_order': False, 'shape': (0,), }                                                            \n",
        b"",
    ),
    (
        &[2, 3],
        6,
        b"\x93NUMPY\x01\x00v\x00{'descr': '<i4', 'fortran_order': False, 'shape': (2, 3), }                                                          \n\x01\x00\x00\x00\x02\x00\x00\x00\x03\x00\x00\x00\x04\x00\x00\x00\x05\x00\x00\x00\x06\x00\x00\x00",
        b"\x93NUMPY\x01\x00v\x00{'descr': '<i4', 'fortran_order': True, 'shape': (2, 3), }                                                           \n\x01\x00\x00\x00\x04\x00\x00\x00\x02\x00\x00\x00\x05\x00\x00\x00\x03\x00\x00\x00\x06\x00\x00\x00",
    ),
    (
        &[0, 3],
        0,
        b"\x93NUMPY\x01\x00v\x00{'descr': '<i4', 'fortran_order': False, 'shape': (0, 3), }                                                          \n",
        b"",
    ),
    (
        &[3, 0],
        0,
        b"\x93NUMPY\x01\x00v\x00{'descr': '<i4', 'fortran_order': False, 'shape': (3, 0), }                                                          \n",
        b"",
    ),
    (
        &[2, 3, 2],
        12,
        b"\x93NUMPY\x01\x00v\x00{'descr': '<i4', 'fortran_order': False, 'shape': (2, 3, 2), }                                                       \n\x01\x00\x00\x00\x02\x00\x00\x00\x03\x00\x00\x00\x04\x00\x00\x00\x05\x00\x00\x00\x06\x00\x00\x00\x07\x00\x00\x00\x08\x00\x00\x00\x09\x00\x00\x00\n\x00\x00\x00\x0b\x00\x00\x00\x0c\x00\x00\x00",
        b"\x93NUMPY\x01\x00v\x00{'descr': '<i4', 'fortran_order': True, 'shape': (2, 3, 2), }                                                        \n\x01\x00\x00\x00\x07\x00\x00\x00\x03\x00\x00\x00\x09\x00\x00\x00\x05\x00\x00\x00\x0b\x00\x00\x00\x02\x00\x00\x00\x08\x00\x00\x00\x04\x00\x00\x00\n\x00\x00\x00\x06\x00\x00\x00\x0c\x00\x00\x00",
    ),
    (
        &[1, 2, 3],
        6,
        b"\x93NUMPY\x01\x00v\x00{'descr': '<i4', 'fortran_order': False, 'shape': (1, 2, 3), }                                                       \n\x01\x00\x00\x00\x02\x00\x00\x00\x03\x00\x00\x00\x04\x00\x00\x00\x05\x00\x00\x00\x06\x00\x00\x00",
        b"\x93NUMPY\x01\x00v\x00{'descr': '<i4', 'fortran_order': True, 'shape': (1, 2, 3), }                                                        \n\x01\x00\x00\x00\x04\x00\x00\x00\x02\x00\x00\x00\x05\x00\x00\x00\x03\x00\x00\x00\x06\x00\x00\x00",
    ),
];

/// The elements of the arrays, in row-major order.
const NUMBERS: [i32; 12] = [1, 2, 3, 4, 5, 6, 7, 8, 9, 10, 11, 12];

/// Returns whether each file of a row is read as the row's array, and the array is written as its file in row-major order.
fn is_row_kept(alloc: Global, row: &Row) -> bool {
    let (shape, count, saved, other) = *row;
    match NUMBERS.get(..count) {
        Some(values) => {
            is_kept(alloc, saved, shape, values, saved)
                && (other.is_empty() || is_kept(alloc, other, shape, values, saved))
        }
        None => false,
    }
}

/// Returns whether each file of each row is read as the row's array, and the array is written as its file in row-major
/// order.
fn are_kept(alloc: Global, table: &[Row]) -> bool {
    for row in table {
        if !is_row_kept(alloc, row) {
            return false;
        }
    }
    true
}

#[test]
fn zero_to_three_axes(rt: HostRuntime) {
    assert!(rt; are_kept(rt.alloc(), &SHAPES));
}
