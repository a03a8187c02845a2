//! Elements written by index: replaced, exchanged, and through references to them; and the first element and the last.

use crate::arrays_by_memory_order::{inverted, is_two_by_three};
use nd_array_core::{Array2, ArrayBase, ArrayViewMut, DataMut, GetMut};
use nd_shape_and_slice::{Axis, Dimension, Ix2, ShapeBuilder};
use nd_test_arrays::{is_table, made, table};
use std::alloc::Global;

fn writes_and_swaps(alloc: Global) -> bool {
    // [[2, 1, 0], [5, 4, 3]]
    let Some(mut array) = inverted(alloc, (2, 3), Axis(1), &[0, 1, 2, 3, 4, 5]) else {
        return false;
    };
    let old = array.replace([0, 0], 9);
    array.swap([0, 0], [1, 2]);
    old == 2 && is_table(&array, [2, 3], &[3, 1, 0, 5, 4, 9])
}

/// Writes a number at an index, and returns the old one. Returns `None` if the index is outside.
pub fn put<A: GetMut<Elem = u64, Dim = Ix2>>(
    array: &mut A,
    index: [usize; 2],
    value: u64,
) -> Option<u64> {
    match array.get_mut(index) {
        Some(element) => {
            let old = *element;
            *element = value;
            Some(old)
        }
        None => None,
    }
}

// Writes to a table with two rows and three columns: 40 at the last place, 7 below the first, and the two elements of
// the middle column exchanged. Returns false for a table of another shape.
fn written_within(array: &mut Array2<u64>) -> bool {
    if !is_two_by_three(array) {
        return false;
    }
    array[[1, 2]] = 40;
    *array.uget_mut([1, 0]) = 7;
    array.uswap([0, 1], [1, 1]);
    true
}

fn writes_to_an_owned_array(alloc: Global) -> bool {
    // [[3, 2, 1], [6, 5, 4]]
    let Some(mut array) = inverted(alloc, (2, 3), Axis(1), &[1, 2, 3, 4, 5, 6]) else {
        return false;
    };
    put(&mut array, [0, 0], 30) == Some(3)
        && put(&mut array, [2, 0], 0).is_none()
        && written_within(&mut array)
        && is_table(&array, [2, 3], &[30, 5, 1, 7, 2, 40])
}

// Replaces the first element by a number. Returns what it was, whether there was one to write, and what it is then.
fn put_first<S: DataMut<Elem = u64>, D: Dimension>(
    array: &mut ArrayBase<S, D>,
    value: u64,
) -> (Option<u64>, bool, Option<u64>) {
    let old = array.first().copied();
    let written = match array.first_mut() {
        Some(first) => {
            *first = value;
            true
        }
        None => false,
    };
    (old, written, array.first().copied())
}

// Replaces the first element of a view by 10. Returns whether it was 1 before.
fn ten_put_first(view: Option<ArrayViewMut<'_, u64, Ix2>>) -> bool {
    match view {
        Some(view) => {
            let mut view = view;
            put_first(&mut view, 10) == (Some(1), true, Some(10))
        }
        None => false,
    }
}

fn writes_the_first_element(alloc: Global) -> bool {
    // [[3, 2, 1], [6, 5, 4]]
    let Some(mut array) = inverted(alloc, (2, 3), Axis(1), &[1, 2, 3, 4, 5, 6]) else {
        return false;
    };
    let Some(mut none) = table(alloc, (2, 0), &[]) else {
        return false;
    };
    let Some(mut point) = made(alloc, (), &[7]) else {
        return false;
    };
    let mut items = [1, 2, 3, 4];
    let seen = ten_put_first(strided(&mut items, (2, 2), &[2, 1]));
    seen && items == [10, 2, 3, 4]
        && put_first(&mut array, 30) == (Some(3), true, Some(30))
        && is_table(&array, [2, 3], &[30, 2, 1, 6, 5, 4])
        && put_first(&mut none, 30) == (None, false, None)
        && put_first(&mut point, 8) == (Some(7), true, Some(8))
}

/// Replaces the last element by a number. Returns whether there was one.
fn put_last(array: &mut Array2<u64>, value: u64) -> bool {
    match array.last_mut() {
        Some(last) => {
            *last = value;
            true
        }
        None => false,
    }
}

fn the_last_element_written(alloc: Global) -> bool {
    let Some(mut array) = inverted(alloc, (2, 2), Axis(0), &[1, 2, 3, 4]) else {
        return false;
    };
    let Some(mut none) = table(alloc, (2, 0), &[]) else {
        return false;
    };
    put_last(&mut array, 9) && !put_last(&mut none, 9) && is_table(&array, [2, 2], &[3, 4, 1, 9])
}

/// Returns the first element of a table and the last one.
fn ends(array: &Array2<u64>) -> (Option<u64>, Option<u64>) {
    (array.first().copied(), array.last().copied())
}

fn first_and_last(alloc: Global) -> bool {
    let Some(array) = inverted(alloc, (2, 2), Axis(0), &[1, 2, 3, 4]) else {
        return false;
    };
    let Some(none) = table(alloc, (2, 0), &[]) else {
        return false;
    };
    ends(&array) == (Some(3), Some(2)) && ends(&none) == (None, None)
}

// Returns the view of this shape with strides.
fn strided<'a>(
    items: &'a mut [u64],
    shape: (usize, usize),
    strides: &[isize; 2],
) -> Option<ArrayViewMut<'a, u64, Ix2>> {
    match ArrayViewMut::from_shape(shape.strides(strides), items) {
        Ok(view) => Some(view),
        Err(_) => None,
    }
}

// Writes at an index of a view. Returns false if the index is outside.
fn index_written(view: &mut ArrayViewMut<'_, u64, Ix2>, index: [usize; 2], value: u64) -> bool {
    if view.get(index).is_none() {
        return false;
    }
    view[index] = value;
    true
}

// Writes at an index of a view, through a reference with the lifetime of the elements, by one of two calls. Returns
// false if the index is outside.
fn written_longer(
    view: ArrayViewMut<'_, u64, Ix2>,
    checked: bool,
    index: [usize; 2],
    value: u64,
) -> bool {
    if checked {
        match nd_array_core::IndexLonger::get(view, index) {
            Some(element) => {
                *element = value;
                true
            }
            None => false,
        }
    } else if view.get(index).is_some() {
        *nd_array_core::IndexLonger::index(view, index) = value;
        true
    } else {
        false
    }
}

// Writes to the view 2 1 / 6 5 by each call. Returns whether each ended as it should.
fn view_written(view: Option<ArrayViewMut<'_, u64, Ix2>>) -> bool {
    match view {
        Some(view) => {
            let mut view = view;
            put(&mut view, [1, 0], 60) == Some(6)
                && put(&mut view, [0, 2], 0).is_none()
                && index_written(&mut view, [0, 1], 10)
                && written_longer(view, true, [0, 0], 20)
        }
        None => false,
    }
}

// Whether the index is tested by the call, the index, and whether it is inside.
const WRITTEN_LONGER: [(bool, [usize; 2], bool); 2] = [
    (false, [1, 1], true),
    (true, [2, 0], false),
];

fn writes_to_a_view() -> bool {
    let mut items = [1, 2, 3, 4, 5, 6, 7, 8];
    if !view_written(strided(&mut items, (2, 2), &[4, -1]))
        || items != [10, 20, 3, 4, 5, 60, 7, 8]
    {
        return false;
    }
    for (checked, index, written) in &WRITTEN_LONGER {
        let done = match strided(&mut items, (2, 2), &[1, 4]) {
            Some(view) => written_longer(view, *checked, *index, 61),
            None => return false,
        };
        if done != *written {
            return false;
        }
    }
    items == [10, 20, 3, 4, 5, 61, 7, 8]
}

#[test]
fn elements_written(rt: HostRuntime) {
    assert!(rt; writes_and_swaps(rt.alloc()));
    assert!(rt; writes_to_an_owned_array(rt.alloc()));
    assert!(rt; writes_the_first_element(rt.alloc()));
    assert!(rt; writes_to_a_view());
}

#[test]
fn ends_read_and_written(rt: HostRuntime) {
    assert!(rt; first_and_last(rt.alloc()));
    assert!(rt; the_last_element_written(rt.alloc()));
}
