//! Clones of owned arrays, copies of views, views that `From` makes, the vector that an array is stored in, and an
//! array of another's dimension.

use crate::arrays_by_memory_order::{by_columns, inverted, lies_in, list_lies_in};
use nd_array_core::{Array, Array2, ArrayD, ArrayView, ArrayView2, ArrayViewMut};
use nd_shape_and_slice::{Axis, IxDyn, Slice};
use nd_test_arrays::{goes_by, is_table, list_by, made, table};
use std::alloc::Global;

#[tactic(auto, using(nd_array_core::proofs::AxesOfDimensionTypes::known_axes))]
fn a_clone_lies_as_its_original_does(alloc: Global) -> bool {
    let Some(mut array) = by_columns(alloc, (2, 3), &[1, 2, 3, 4, 5, 6]) else {
        return false;
    };
    array.invert_axis(Axis(0));
    match array.clone() {
        Ok(copy) => {
            copy.strides() == array.strides()
                && is_table(&copy, [2, 3], &[2, 4, 6, 1, 3, 5])
                && lies_in(copy, &[1, 2, 3, 4, 5, 6], Some(1))
        }
        Err(_) => false,
    }
}

fn an_array_made_a_clone_of_another(alloc: Global) -> bool {
    let Some(source) = table(alloc, (1, 3), &[7, 8, 9]) else {
        return false;
    };
    let Some(mut array) = table(alloc, (2, 1), &[1, 2]) else {
        return false;
    };
    array.clone_from(&source).is_ok() && is_table(&array, [1, 3], &[7, 8, 9])
}

fn views_of_arrays(alloc: Global) -> bool {
    let Some(mut array) = table(alloc, (2, 2), &[1, 2, 3, 4]) else {
        return false;
    };
    let seen = ArrayView::from(&array).get([1, 0]).copied();
    seen == Some(3)
        && ArrayViewMut::from(&mut array).fill(5).is_ok()
        && is_table(&array, [2, 2], &[5, 5, 5, 5])
}

fn vectors_of_arrays(alloc: Global) -> bool {
    let Some(turned) = list_by(alloc, 3, -1, &[1, 2, 3]) else {
        return false;
    };
    let Ok(none) = Array2::zeros(alloc, (2, 0)) else {
        return false;
    };
    list_lies_in(turned, &[1, 2, 3], Some(2)) && lies_in(none, &[], None)
}

fn dimensions_of_arrays(alloc: Global) -> bool {
    let array: Option<ArrayD<u64>> = made(alloc, IxDyn::new(&[2, 3]), &[0, 1, 2, 3, 4, 5]);
    let Some(array) = array else {
        return false;
    };
    match Array::<u64, _>::from_elem(alloc, array.raw_dim(), 0) {
        Ok(zeros) => zeros.shape() == [2, 3].as_slice(),
        Err(_) => false,
    }
}

fn a_copy_of_a_run_keeps_its_strides(alloc: Global) -> bool {
    let Some(image) = inverted(alloc, (2, 3), Axis(0), &[1, 2, 3, 4, 5, 6]) else {
        return false;
    };
    match image.t().to_owned(alloc) {
        Ok(copy) => {
            goes_by(&copy, [1, -3])
                && copy.view() == image.t()
                && lies_in(copy, &[1, 2, 3, 4, 5, 6], Some(3))
        }
        Err(_) => false,
    }
}

/// Returns a copy of the first two columns. Returns `None` if there is only one column, or memory is refused.
fn columns_copied(alloc: Global, image: &ArrayView2<'_, u64>) -> Option<Array2<u64>> {
    let (_rows, columns) = image.dim();
    if columns < 2 {
        return None;
    }
    match image
        .slice_axis(Axis(1), Slice::new(0, Some(2), 1))
        .to_owned(alloc)
    {
        Ok(copy) => Some(copy),
        Err(_) => None,
    }
}

/// Returns a copy of the first two columns with the rows in the opposite order. Returns `None` if there is only one
/// column, or memory is refused.
fn part_copied(alloc: Global, image: &Array2<u64>) -> Option<Array2<u64>> {
    let (_rows, _columns) = image.dim();
    columns_copied(alloc, &image.slice_axis(Axis(0), Slice::new(0, None, -1)))
}

fn a_copy_of_a_part_is_in_row_major_order(alloc: Global) -> bool {
    let Some(image) = table(alloc, (3, 3), &[1, 2, 3, 4, 5, 6, 7, 8, 9]) else {
        return false;
    };
    match part_copied(alloc, &image) {
        Some(copy) => goes_by(&copy, [2, 1]) && is_table(&copy, [3, 2], &[7, 8, 4, 5, 1, 2]),
        None => false,
    }
}

#[test]
fn copies_and_views(rt: HostRuntime) {
    assert!(rt; a_clone_lies_as_its_original_does(rt.alloc()));
    assert!(rt; an_array_made_a_clone_of_another(rt.alloc()) && views_of_arrays(rt.alloc()));
    assert!(rt; vectors_of_arrays(rt.alloc()));
    assert!(rt; dimensions_of_arrays(rt.alloc()));
}

#[test]
fn copied_from_views(rt: HostRuntime) {
    assert!(rt; a_copy_of_a_run_keeps_its_strides(rt.alloc()));
    assert!(rt; a_copy_of_a_part_is_in_row_major_order(rt.alloc()));
}
