//! Arrays that are converted to owned ones, with and without a copy.

use nd_shape_and_slice::Axis;
use nd_test_arrays::{Tally, counted_table, is_counted, is_table, is_table_seen, table};
use std::alloc::Global;

fn an_owned_array_is_kept_as_it_is(alloc: Global) -> bool {
    let tally = Tally::allowing(0);
    let Some(mut source) = counted_table(alloc, (2, 2), [2, 1], &[1, 2, 3, 4], &tally) else {
        return false;
    };
    source.invert_axis(Axis(0));
    let Ok(array) = source.into_owned(alloc) else {
        return false;
    };
    let right = array.strides() == [-2, 1].as_slice() && is_counted(&array, [2, 2], &[3, 4, 1, 2]);
    let stored = array.into_raw_vec();
    right
        && match stored.first() {
            Some(first) => first.number == 1,
            None => false,
        }
}

fn a_view_is_copied(alloc: Global) -> bool {
    let Some(image) = table(alloc, (2, 3), &[1, 2, 3, 4, 5, 6]) else {
        return false;
    };
    match image.t().into_owned(alloc) {
        Ok(copy) => is_table(&copy, [3, 2], &[1, 4, 2, 5, 3, 6]),
        Err(_) => false,
    }
}

fn only_an_owned_array_is_owned_without_a_copy(alloc: Global) -> bool {
    let Some(image) = table(alloc, (2, 3), &[1, 2, 3, 4, 5, 6]) else {
        return false;
    };
    let seen = match image.t().try_into_owned_nocopy() {
        Ok(_) => false,
        Err(view) => is_table_seen(&view, [3, 2], &[1, 4, 2, 5, 3, 6]),
    };
    seen && match image.try_into_owned_nocopy() {
        Ok(array) => is_table(&array, [2, 3], &[1, 2, 3, 4, 5, 6]),
        Err(_) => false,
    }
}

#[test]
fn owned_with_and_without_a_copy(rt: HostRuntime) {
    assert!(rt; an_owned_array_is_kept_as_it_is(rt.alloc()));
    assert!(rt; a_view_is_copied(rt.alloc()));
    assert!(rt; only_an_owned_array_is_owned_without_a_copy(rt.alloc()));
}
