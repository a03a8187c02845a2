//! Elements by their index, in arrays of two axes and of any number of axes; and a reference that outlives its view.

use crate::arrays_by_strides::one_to_six;
use nd_array_core::{Array2, ArrayView, IndexLonger};
use nd_test_arrays::any_axes;
use std::alloc::Global;

// Returns whether a table has this number at an index, or no element there if it is `None`.
fn is_at(table: &Array2<u64>, index: [usize; 2], wanted: Option<u64>) -> bool {
    table.get(index).copied() == wanted
}

fn indexes_and_axes(alloc: Global) -> bool {
    let Some(array) = one_to_six(alloc) else {
        return false;
    };
    let fresh = array.ndim() == 2
        && array.len() == 6
        && is_at(&array, [1, 2], Some(6))
        && is_at(&array, [2, 0], None);
    let turned = array.permuted_axes((1, 0));
    fresh && is_at(&turned, [2, 1], Some(6)) && is_at(&turned, [0, 2], None)
}

fn any_number_of_indexes(alloc: Global) -> bool {
    let Some(any) = any_axes(alloc, &[2, 2], &[0, 1, 2, 3]) else {
        return false;
    };
    any.get([0].as_slice()).copied() == None
        && any.get([1, 0]).copied() == Some(2)
        && any.get([1, 0, 0]).copied() == None
}

fn elements_by_index(alloc: Global) -> bool {
    let Some(array) = one_to_six(alloc) else {
        return false;
    };
    array.get([1, 2]).is_some()
        && array.get([0, 1]).is_some()
        && *array.uget([1, 2]) == 6
        && array[[0, 1]] == 2
}

// Returns a reference to the first element with the lifetime of the slice, which is longer than that of the view.
fn first_of<'a>(items: &'a [u64]) -> Option<&'a u64> {
    match ArrayView::from_shape(items.len(), items) {
        Ok(view) => IndexLonger::get(&view, 0),
        Err(_) => None,
    }
}

#[test]
fn elements(rt: HostRuntime) {
    assert!(rt; indexes_and_axes(rt.alloc()));
    assert!(rt; any_number_of_indexes(rt.alloc()) && elements_by_index(rt.alloc()));
    assert!(rt; first_of(&[7, 8]).copied() == Some(7) && first_of(&[]).copied() == None);
}
