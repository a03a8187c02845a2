//! The axes of an array, one after another, with their numbers, lengths and strides.

use crate::arrays_by_strides::box_by_columns;
use nd_array_core::Array3;
use nd_shape_and_slice::{Axis, AxisDescription};
use std::alloc::Global;

// Returns whether the axes of an array, in order, have these numbers, lengths and strides.
fn are_axes(array: &Array3<u64>, wanted: &[(usize, usize, isize)]) -> bool {
    let mut axes = array.axes();
    for (axis, len, stride) in wanted {
        let wanted = AxisDescription {
            axis: Axis(*axis),
            len: *len,
            stride: *stride,
        };
        if axes.next() != Some(wanted) {
            return false;
        }
    }
    axes.next() == None
}

const COUNTED: [u64; 24] = [
    0, 1, 2, 3, 4, 5, 6, 7, 8, 9, 10, 11, 12, 13, 14, 15, 16, 17, 18, 19, 20, 21, 22, 23,
];

// Indexes of an array of three axes in column-major order, and the number at each.
const AT: [([usize; 3], u64); 3] = [([1, 0, 0], 1), ([0, 1, 0], 3), ([0, 0, 1], 6)];

// Returns whether an array has the listed number at each index.
fn has_numbers(array: &Array3<u64>) -> bool {
    for (index, number) in &AT {
        if array.get(*index).copied() != Some(*number) {
            return false;
        }
    }
    true
}

fn axes_one_after_another(alloc: Global) -> bool {
    match box_by_columns(alloc, &COUNTED) {
        Some(array) => {
            are_axes(&array, &[(0, 3, 1), (1, 2, 3), (2, 4, 6)]) && has_numbers(&array)
        }
        None => false,
    }
}

#[test]
fn axes_in_order(rt: HostRuntime) {
    assert!(rt; axes_one_after_another(rt.alloc()));
}
