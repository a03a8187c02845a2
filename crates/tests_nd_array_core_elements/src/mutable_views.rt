//! Writes through mutable views of small arrays.

use nd_array_core::{Array, ArrayViewMut};
use nd_shape_and_slice::{Axis, Ix1, Ix2, SliceArg, SliceInfo, SliceInfoElem};
use nd_test_arrays::{is_list, is_list_seen, is_table, list, part, table};
use std::alloc::Global;

// Writes 9 at each index.
fn put_nines(view: &mut ArrayViewMut<'_, u64, Ix1>) {
    for i in 0..view.len() {
        if view.get(i).is_some() {
            view.replace(i, 9);
        }
    }
}

// Writes 9s through the view of the elements from 2 on, and then returns the first elements of the view of the others.
fn second_half_written(array: &mut Array<u64, Ix1>) -> [Option<u64>; 3] {
    let view = array.view_mut();
    if view.ndim() != 1 || view.len_of(Axis(0)) < 2 {
        return [None; 3];
    }
    let (lower, mut upper) = view.split_at(Axis(0), 2);
    put_nines(&mut upper);
    [
        lower.get(0).copied(),
        lower.get(1).copied(),
        lower.get(2).copied(),
    ]
}

fn the_first_part_stays_while_the_second_is_written(alloc: Global) -> bool {
    let Some(mut array) = list(alloc, &[1, 2, 3, 4]) else {
        return false;
    };
    second_half_written(&mut array) == [Some(1), Some(2), None] && is_list(&array, &[1, 2, 9, 9])
}

fn the_diagonal_is_written(alloc: Global) -> bool {
    let Some(mut array) = table(alloc, (2, 3), &[1, 2, 3, 4, 5, 6]) else {
        return false;
    };
    put_nines(&mut array.diag_mut());
    is_table(&array, [2, 3], &[9, 2, 3, 4, 9, 6])
}

fn a_column_is_written(alloc: Global) -> bool {
    let Some(mut array) = table(alloc, (2, 3), &[1, 2, 3, 4, 5, 6]) else {
        return false;
    };
    if array.ndim() == 2 && array.len_of(Axis(1)) > 1 {
        put_nines(&mut array.column_mut(1));
    }
    is_table(&array, [2, 3], &[1, 9, 3, 4, 9, 6])
}

// Fills the elements that the list names, through a mutable view. Returns false if the list doesn't fit.
fn fills(array: &mut Array<u64, Ix2>, list: &[SliceInfoElem], value: u64) -> bool {
    match SliceInfo::<Ix2, Ix2>::new(list) {
        Ok(info) => {
            if info.fits(array.shape()) {
                array.slice_mut(info).fill(value).is_ok()
            } else {
                false
            }
        }
        Err(_) => false,
    }
}

fn every_second_column_is_filled(alloc: Global) -> bool {
    let Some(mut array) = table(alloc, (2, 5), &[1, 2, 3, 4, 5, 6, 7, 8, 9, 10]) else {
        return false;
    };
    fills(&mut array, &[part(0, None, 1), part(0, None, 2)], 0)
        && is_table(&array, [2, 5], &[0, 2, 0, 4, 0, 0, 7, 0, 9, 0])
}

fn a_view_is_written_for_a_shorter_time(alloc: Global) -> bool {
    let Some(mut array) = list(alloc, &[1, 2, 3]) else {
        return false;
    };
    put_nines(&mut array.view_mut().reborrow());
    is_list(&array, &[9, 9, 9]) && is_list_seen(&array.view().reborrow(), &[9, 9, 9])
}

// Fills a row of a mutable view through another view of it. Returns false if there is no such row.
fn fills_row(view: &mut ArrayViewMut<'_, u64, Ix2>, row: usize, value: u64) -> bool {
    if view.ndim() == 2 && row < view.len_of(Axis(0)) {
        view.row_mut(row).fill(value).is_ok()
    } else {
        false
    }
}

// Fills two rows of an array one after another, each through a view of one mutable view.
fn fills_two_rows(array: &mut Array<u64, Ix2>) -> bool {
    let mut view = array.view_mut();
    fills_row(&mut view, 1, 8) && fills_row(&mut view, 0, 7)
}

fn rows_of_a_view_are_filled(alloc: Global) -> bool {
    let Some(mut array) = table(alloc, (3, 2), &[1, 2, 3, 4, 5, 6]) else {
        return false;
    };
    fills_two_rows(&mut array) && is_table(&array, [3, 2], &[7, 7, 8, 8, 5, 6])
}

#[test]
fn views_written(rt: HostRuntime) {
    assert!(rt; the_diagonal_is_written(rt.alloc()) && a_column_is_written(rt.alloc()));
    assert!(rt; every_second_column_is_filled(rt.alloc()));
    assert!(rt; a_view_is_written_for_a_shorter_time(rt.alloc()));
    assert!(rt; rows_of_a_view_are_filled(rt.alloc()));
    assert!(rt; the_first_part_stays_while_the_second_is_written(rt.alloc()));
}
