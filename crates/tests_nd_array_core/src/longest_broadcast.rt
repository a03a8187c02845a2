//! The longest broadcast. That broadcasts have the elements that they should, and where there is none, is shown by
//! `squeezed_and_inserted` of `tests_nd_run_npy_and_picture`.

use nd_array_core::{Array1, ArrayView1};
use nd_shape_and_slice::{Axis, Slice, slice_fits};
use nd_test_arrays::list;
use std::alloc::Global;

// Returns the broadcast of a list to `count` elements.
fn repeated(list: &Array1<u64>, count: usize) -> Option<ArrayView1<'_, u64>> {
    list.broadcast(count)
}

// Returns whether a slice leaves `count` of a view's elements, all of which are the same element.
fn leaves(view: ArrayView1<'_, u64>, slice: Slice, count: usize) -> bool {
    let _count = view.dim();
    if slice_fits(view.len_of(Axis(0)), slice) {
        let part = view.slice_axis_move(Axis(0), slice);
        part.shape() == [count].as_slice() && part.strides() == [0].as_slice()
    } else {
        false
    }
}

// Returns whether the longest broadcast, and what slices leave of it, are right. Nothing goes over the elements.
fn is_longest(five: &Array1<u64>) -> bool {
    match repeated(five, 9223372036854775807) {
        Some(view) => {
            view.get(9223372036854775806).copied() == Some(5)
                && leaves(view, Slice::new(0, None, 2), 4611686018427387904)
                && leaves(view, Slice::new(0, None, isize::MIN), 1)
        }
        None => false,
    }
}

fn longest_broadcast(alloc: Global) -> bool {
    match list(alloc, &[5]) {
        Some(five) => repeated(&five, 9223372036854775808).is_none() && is_longest(&five),
        None => false,
    }
}

#[test]
fn broadcast(rt: HostRuntime) {
    assert!(rt; longest_broadcast(rt.alloc()));
}
