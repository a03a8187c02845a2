//! Lists of slices, and a slice for each axis.

use nd_array_core::{Array1, Array3, ArrayD, ArrayView0, ArrayView2};
use nd_shape_and_slice::{Ix0, Ix1, Ix2, Ix3, IxDyn, Slice, SliceArg, SliceInfo, SliceInfoElem};
use nd_test_arrays::{any_axes, is_table_seen, list, made, table};
use std::alloc::Global;

// Returns the page of the elements that the list names, or `None` if the list doesn't fit.
fn page<'a>(array: &'a Array3<u64>, list: &[SliceInfoElem]) -> Option<ArrayView2<'a, u64>> {
    match SliceInfo::<Ix3, Ix2>::new(list) {
        Ok(info) => {
            if info.fits(array.shape()) {
                Some(array.slice(info))
            } else {
                None
            }
        }
        Err(_) => None,
    }
}

// Returns the single element that a list of one index names of a line, or `None` if the index doesn't fit.
fn scalar<'a>(line: &'a Array1<u64>, index: isize) -> Option<ArrayView0<'a, u64>> {
    match SliceInfo::<Ix1, Ix0>::new(&[SliceInfoElem::Index(index)]) {
        Ok(info) => {
            if info.fits(line.shape()) {
                Some(line.slice(info))
            } else {
                None
            }
        }
        Err(_) => None,
    }
}

fn an_index_leaves_a_scalar(alloc: Global) -> bool {
    let Some(line) = list(alloc, &[1, 2, 3, 4]) else {
        return false;
    };
    match scalar(&line, 2) {
        Some(scalar) => scalar.get([]).copied() == Some(3),
        None => false,
    }
}

// Returns the array of the elements that the list names, where the axes stay. Returns `None` if the list doesn't fit or
// adds an axis.
fn collapsed(array: Array3<u64>, list: &[SliceInfoElem]) -> Option<Array3<u64>> {
    let mut array = array;
    match SliceInfo::<Ix3, IxDyn>::new(list) {
        Ok(info) => {
            if info.fits(array.shape()) && list.len() == array.ndim() {
                array.slice_collapse(info);
                Some(array)
            } else {
                None
            }
        }
        Err(_) => None,
    }
}

const ALL: SliceInfoElem = SliceInfoElem::Slice {
    start: 0,
    end: None,
    step: 1,
};

const ROWS: [SliceInfoElem; 3] = [
    ALL,
    SliceInfoElem::Index(1),
    SliceInfoElem::Slice {
        start: 0,
        end: Some(2),
        step: 1,
    },
];

// Lists for an array of two blocks of two rows and three columns, and the pages that they name.
const PAGES: [([SliceInfoElem; 3], [usize; 2], &[u64]); 3] = [
    (
        [SliceInfoElem::Index(1), ALL, ALL],
        [2, 3],
        &[100, 101, 102, 110, 112, 113],
    ),
    (
        [ALL, ALL, SliceInfoElem::Index(-1)],
        [2, 2],
        &[2, 13, 102, 113],
    ),
    (ROWS, [2, 2], &[10, 12, 110, 112]),
];

// Returns whether each list of `PAGES` names its page.
fn pages_show(array: &Array3<u64>) -> bool {
    for (list, shape, wanted) in &PAGES {
        let right = match page(array, list) {
            Some(page) => is_table_seen(&page, *shape, *wanted),
            None => false,
        };
        if !right {
            return false;
        }
    }
    true
}

fn parts_of_three_axes(alloc: Global) -> bool {
    let items = [0, 1, 2, 10, 12, 13, 100, 101, 102, 110, 112, 113];
    let array: Option<Array3<u64>> = made(alloc, (2, 2, 3), &items);
    let Some(array) = array else {
        return false;
    };
    if !pages_show(&array) {
        return false;
    }
    match collapsed(array, &ROWS) {
        Some(kept) => {
            kept.shape() == [2, 1, 2].as_slice()
                && kept.get([0, 0, 1]).copied() == Some(12)
                && kept.get([1, 0, 0]).copied() == Some(110)
        }
        None => false,
    }
}

// Returns the array of the elements that a list names of an array. Returns `None` if the list doesn't fit.
fn moved(array: ArrayD<u64>, list: &[SliceInfoElem]) -> Option<ArrayD<u64>> {
    if list.fits(array.shape()) {
        Some(array.slice_move(list))
    } else {
        None
    }
}

// Lists for the line 1 2 3, the lengths and the strides of what each leaves, and the last element then: an index, and a
// new axis.
const MOVED: [(&[SliceInfoElem], &[usize], &[isize], u64); 2] = [
    (&[SliceInfoElem::Index(1)], &[], &[], 2),
    (&[SliceInfoElem::NewAxis, ALL], &[1, 3], &[0, 1], 3),
];

fn a_new_axis(alloc: Global) -> bool {
    for (list, lengths, strides, last) in &MOVED {
        let Some(line) = any_axes(alloc, &[3], &[1, 2, 3]) else {
            return false;
        };
        let right = match moved(line, *list) {
            Some(moved) => {
                moved.shape() == *lengths
                    && moved.strides() == *strides
                    && moved.last().copied() == Some(*last)
            }
            None => false,
        };
        if !right {
            return false;
        }
    }
    true
}

fn a_slice_for_each_axis(alloc: Global) -> bool {
    let Some(array) = table(alloc, (2, 3), &[1, 2, 3, 4, 5, 6]) else {
        return false;
    };
    let turned = array.slice_each_axis(|_axis| Slice::new(0, None, -1));
    is_table_seen(&turned, [2, 3], &[6, 5, 4, 3, 2, 1])
}

#[test]
fn sliced(rt: HostRuntime) {
    assert!(rt; an_index_leaves_a_scalar(rt.alloc()) && parts_of_three_axes(rt.alloc()));
    assert!(rt; a_new_axis(rt.alloc()) && a_slice_for_each_axis(rt.alloc()));
}
