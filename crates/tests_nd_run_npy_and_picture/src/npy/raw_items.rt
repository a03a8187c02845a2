//! Elements of kinds that have no type here, read and written as their bytes.

use nd_array_core::{Array, ArrayView};
use nd_npy::NpyItem;
use nd_npy::reader::{read_npy, view_npy};
use nd_npy::writer::npy_bytes_as;
use nd_npy_text::ItemType;
use nd_npy_text::reader::read_header;
use nd_shape_and_slice::Dimension;
use std::alloc::Global;

/// Returns the type of the elements that the head of a file tells, or nothing if the head isn't read.
fn item_type_of(alloc: Global, file: &[u8]) -> Option<ItemType> {
    match read_header(alloc, file) {
        Ok((header, _start)) => Some(header.item_type),
        Err(_) => None,
    }
}

/// Returns whether an array is written as the file `saved`, as items of this type.
fn is_written<A: NpyItem, D: Dimension>(
    alloc: Global,
    item_type: ItemType,
    array: &Array<A, D>,
    saved: &[u8],
) -> bool {
    if !A::accepts(item_type.kind) {
        return false;
    }
    match npy_bytes_as(alloc, item_type, array) {
        Ok(written) => written.as_slice() == saved,
        Err(_) => false,
    }
}

/// Returns whether a file is read as an array of this shape and of items of this type, and the array is written as the
/// file `saved`.
fn is_kept<A: NpyItem>(alloc: Global, file: &[u8], shape: &[usize], saved: &[u8]) -> bool {
    let Some(item_type) = item_type_of(alloc, file) else {
        return false;
    };
    match read_npy::<A>(alloc, file) {
        Ok(array) => array.shape() == shape && is_written(alloc, item_type, &array, saved),
        Err(_) => false,
    }
}

/// Two halves, which are the same in both orders of elements.
const HALVES: &[u8] =
    b"\x93NUMPY\x01\x00v\x00{'descr': '<f2', 'fortran_order': False, 'shape': (2,), }                                                            \n\x00<\x00\xc0";

#[test]
fn items_of_two_bytes(rt: HostRuntime) {
    let halves = HALVES;
    assert!(rt; is_kept::<[u8; 2]>(rt.alloc(), halves, &[2], halves));
}

#[test]
fn items_of_eight_bytes(rt: HostRuntime) {
    const COMPLEX: &[u8] =
        b"\x93NUMPY\x01\x00v\x00{'descr': '>c8', 'fortran_order': False, 'shape': (1,), }                                                            \n?\x80\x00\x00@\x00\x00\x00";
    const COLUMNS: &[u8] =
        b"\x93NUMPY\x01\x00v\x00{'descr': '>f8', 'fortran_order': True, 'shape': (2, 2), }                                                           \n?\xf8\x00\x00\x00\x00\x00\x00\xbf\xf0\x00\x00\x00\x00\x00\x00@\x04\x00\x00\x00\x00\x00\x00@\x10\x00\x00\x00\x00\x00\x00";
    const ROWS: &[u8] =
        b"\x93NUMPY\x01\x00v\x00{'descr': '>f8', 'fortran_order': False, 'shape': (2, 2), }                                                          \n?\xf8\x00\x00\x00\x00\x00\x00@\x04\x00\x00\x00\x00\x00\x00\xbf\xf0\x00\x00\x00\x00\x00\x00@\x10\x00\x00\x00\x00\x00\x00";
    let complex = COMPLEX;
    assert!(rt; is_kept::<[u8; 8]>(rt.alloc(), complex, &[1], complex));
    assert!(rt; is_kept::<[u8; 8]>(rt.alloc(), COLUMNS, &[2, 2], ROWS));
}

#[test]
fn items_of_sixteen_bytes(rt: HostRuntime) {
    const COMPLEX: &[u8] =
        b"\x93NUMPY\x01\x00v\x00{'descr': '<c16', 'fortran_order': False, 'shape': (1,), }                                                           \n\x00\x00\x00\x00\x00\x00\xf0?\x00\x00\x00\x00\x00\x00\x00@";
    let complex = COMPLEX;
    assert!(rt; is_kept::<[u8; 16]>(rt.alloc(), complex, &[1], complex));
}

#[test]
fn items_of_one_byte(rt: HostRuntime) {
    const TRUTH: &[u8] =
        b"\x93NUMPY\x01\x00v\x00{'descr': '|b1', 'fortran_order': False, 'shape': (1,), }                                                            \n\x01";
    let truth = TRUTH;
    assert!(rt; is_kept::<[u8; 1]>(rt.alloc(), truth, &[1], truth));
}

/// Returns whether the array is the one that the view shows.
fn is_viewed<'a, A: PartialEq, D: Dimension>(
    view: ArrayView<'a, A, D>,
    array: &'a Array<A, D>,
) -> bool {
    view == array.view()
}

/// Returns whether a file is viewed as an array of this shape, of items of two bytes, which is equal to the array that is
/// read.
fn is_viewed_as_read(alloc: Global, file: &[u8], shape: &[usize]) -> bool {
    let Ok(view) = view_npy::<2>(alloc, file) else {
        return false;
    };
    match read_npy::<[u8; 2]>(alloc, file) {
        Ok(array) => view.shape() == shape && is_viewed(view, &array),
        Err(_) => false,
    }
}

#[test]
fn a_view_of_items_of_two_bytes(rt: HostRuntime) {
    assert!(rt; is_viewed_as_read(rt.alloc(), HALVES, &[2]));
}
