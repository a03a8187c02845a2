//! Layout calls on small arrays, with the results that ndarray's documentation shows.

use crate::arrays_by_strides::{lies, one_to_six};
use nd_array_core::{Array3, ArrayD, ArrayView, ArrayView1};
use nd_shape_and_slice::{Axis, ErrorKind, Ix2, Ix3, IxDyn};
use nd_test_arrays::{any_axes, is_list, is_list_seen, is_table, is_table_seen, table};
use std::alloc::Global;

fn axes_are_turned_and_exchanged(alloc: Global) -> bool {
    let Some(mut array) = one_to_six(alloc) else {
        return false;
    };
    array.invert_axis(Axis(0));
    let inverted = lies(&array, [-3, 1], [2, 3], &[4, 5, 6, 1, 2, 3]);
    array.invert_axis(Axis(0));
    array.swap_axes(0, 1);
    let swapped = lies(&array, [1, 3], [3, 2], &[1, 4, 2, 5, 3, 6])
        && is_table_seen(&array.t(), [2, 3], &[1, 2, 3, 4, 5, 6]);
    array.reverse_axes();
    let reversed = is_table(&array, [2, 3], &[1, 2, 3, 4, 5, 6]);
    inverted && swapped && reversed
}

fn axes_permuted(alloc: Global) -> bool {
    let Some(mut array) = one_to_six(alloc) else {
        return false;
    };
    array.permute_axes([1, 0]);
    let permuted = lies(&array, [1, 3], [3, 2], &[1, 4, 2, 5, 3, 6])
        && array.ndim() == 2
        && array.stride_of(Axis(0)) == 1
        && array.stride_of(Axis(1)) == 3;
    permuted && lies(&array.reversed_axes(), [3, 1], [2, 3], &[1, 2, 3, 4, 5, 6])
}

// Returns whether a view has this stride, and these numbers and no others.
fn listed(view: ArrayView1<'_, u64>, stride: isize, wanted: &[u64]) -> bool {
    view.strides() == [stride].as_slice() && is_list_seen(&view, wanted)
}

fn one_coordinate_kept(alloc: Global) -> bool {
    let Some(array) = table(alloc, (3, 2), &[1, 2, 3, 4, 5, 6]) else {
        return false;
    };
    let mut kept = array.view();
    kept.collapse_axis(Axis(0), 1);
    array.len_of(Axis(0)) == 3
        && listed(array.index_axis(Axis(1), 1), 2, &[2, 4, 6])
        && listed(array.row(2), 1, &[5, 6])
        && listed(array.column(0), 2, &[1, 3, 5])
        && is_table_seen(&kept, [1, 2], &[3, 4])
        && is_list(&array.remove_axis(Axis(0)), &[1, 2])
}

fn parts_of_an_axis(alloc: Global) -> bool {
    let Some(array) = one_to_six(alloc) else {
        return false;
    };
    let (left, right) = array.view().split_at(Axis(1), 1);
    let (whole, none) = array.view().split_at(Axis(1), 3);
    is_table_seen(&left, [2, 1], &[1, 4])
        && is_table_seen(&right, [2, 2], &[2, 3, 5, 6])
        && is_table_seen(&whole, [2, 3], &[1, 2, 3, 4, 5, 6])
        && is_table_seen(&none, [2, 0], &[])
}

// Returns whether an array has these strides, and its diagonal the stride 0, since it has one element.
fn has_strides(array: &Array3<u64>, strides: [isize; 3]) -> bool {
    array.strides() == strides.as_slice() && array.diag().strides() == [0].as_slice()
}

// Returns whether an array has three axes and ends with 6.
fn is_three(any: ArrayD<u64>) -> bool {
    match any.into_dimensionality::<Ix3>() {
        Ok(three) => three.get([0, 2, 0]).copied() == Some(6),
        Err(_) => false,
    }
}

// Returns whether an array can't become one of two axes.
fn is_no_table(any: ArrayD<u64>) -> bool {
    match any.into_dimensionality::<Ix2>() {
        Ok(_) => false,
        Err(error) => error.kind() == ErrorKind::IncompatibleShape,
    }
}

fn three_axes_are_not_two(alloc: Global) -> bool {
    match any_axes(alloc, &[1, 1, 1], &[4]) {
        Some(any) => is_no_table(any),
        None => false,
    }
}

fn axes_put_in_and_counted(alloc: Global) -> bool {
    let Some(six) = one_to_six(alloc) else {
        return false;
    };
    let wide = six.insert_axis(Axis(1));
    let put_in = has_strides(&wide, [3, 1, 1]);
    let mut any = wide.into_dyn();
    if !put_in
        || any.shape() != [2, 1, 3].as_slice()
        || any.ndim() != 3
        || any.len_of(Axis(0)) != 2
    {
        return false;
    }
    any.insert_axis_inplace(Axis(3));
    let after = any.shape() == [2, 1, 3, 1].as_slice();
    if !after || any.ndim() != 4 || any.len_of(Axis(0)) != 2 {
        return false;
    }
    any.index_axis_inplace(Axis(0), 1);
    any.shape() == [1, 3, 1].as_slice() && is_three(any)
}

// Returns whether a view without axes is its own diagonal.
fn is_its_diagonal() -> bool {
    match ArrayView::from_shape(IxDyn::new(&[]), &[7]) {
        Ok(scalar) => listed(scalar.into_diag(), 0, &[7]),
        Err(_) => false,
    }
}

fn diagonals(alloc: Global) -> bool {
    match one_to_six(alloc) {
        Some(array) => listed(array.diag(), 4, &[1, 5]) && is_its_diagonal(),
        None => false,
    }
}

#[test]
fn layouts(rt: HostRuntime) {
    assert!(rt; axes_are_turned_and_exchanged(rt.alloc()) && axes_permuted(rt.alloc()));
    assert!(rt; one_coordinate_kept(rt.alloc()) && parts_of_an_axis(rt.alloc()));
    assert!(rt; axes_put_in_and_counted(rt.alloc()) && three_axes_are_not_two(rt.alloc()));
    assert!(rt; diagonals(rt.alloc()));
}
