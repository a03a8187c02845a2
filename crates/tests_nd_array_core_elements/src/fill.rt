//! Filling an array with one value.

use nd_shape_and_slice::{Axis, Slice};
use nd_test_arrays::{is_list, list};
use std::alloc::Global;

#[tactic(auto, using(nd_array_core::proofs::AxesOfDimensionTypes::known_axes))]
fn fills_what_a_slice_names(alloc: Global) -> bool {
    let Some(array) = list(alloc, &[0, 1, 8, 27, 64, 125, 216, 343, 512, 729]) else {
        return false;
    };
    if array.dim() != 10 {
        return false;
    }
    let mut part = array.slice_axis_move(Axis(0), Slice::new(0, Some(6), 2));
    part.fill(1000).is_ok() && is_list(&part, &[1000, 1000, 1000])
}

#[test]
fn fills(rt: HostRuntime) {
    assert!(rt; fills_what_a_slice_names(rt.alloc()));
}
