//! Each caller of the iterators is called once, on small tables.

ghost use Rattle.std.specs.Prelude.{◌<◌, length};
ghost use Rattle.nd_array_core.specs.ArrayMeaning.{shape_of};

use crate::counts_sums_and_maxima::{agree, count_above, greatest, listed, listed_back};
use crate::small_tables_as_digits::{nothing, table};
use nd_array_core::{ArrayBase, Data};
use nd_shape_and_slice::{Axis, Dimension, RemoveAxis};
use std::alloc::{AllocError, Global};
use uses_nd_iter_stacking_and_numeric::sums_and_maxima_by_iterators::{
    greatest_lane_sum, greatest_outer_sum, outer_sums, sum_of_all,
};

/// Returns whether a list could be made, and has these numbers.
fn lists(items: Result<Vec<u64>, AllocError>, wanted: &[u64]) -> bool {
    match items {
        Ok(items) => items.as_slice() == wanted,
        Err(_) => false,
    }
}

fn has_answers<S: Data<Elem = u64>, D: Dimension>(array: &ArrayBase<S, D>) -> bool {
    count_above(array, 4) == 3
        && greatest(array) == Some(8)
        && agree(array, array)
        && !agree(array, &array.t())
}

fn is_listed<S: Data<Elem = u64>, D: Dimension>(alloc: Global, array: &ArrayBase<S, D>) -> bool {
    let turned = array.t();
    lists(listed(alloc, &turned), &[3, 5, 7, 2, 8, 4])
        && lists(listed_back(alloc, &turned), &[4, 8, 2, 7, 5, 3])
}

fn has_no_answers<S: Data<Elem = u64>, D: Dimension>(array: &ArrayBase<S, D>) -> bool {
    greatest(array) == None && count_above(array, 0) == 0
}

/// Returns whether the parts along the first axis have these sums, this is the greatest of them, this is the greatest sum
/// of a lane of the first axis, and all elements have this sum.
fn has_sums<S: Data<Elem = u64>, D: RemoveAxis>(
    alloc: Global,
    array: &ArrayBase<S, D>,
    sums: &[u64],
    greatest: u64,
    greatest_lane: u64,
    sum: u64,
) -> bool
    requires { 0 < length (shape_of array.now) }
{
    lists(outer_sums(alloc, array), sums)
        && greatest_outer_sum(array) == greatest
        && greatest_lane_sum(array, Axis(0)) == greatest_lane
        && sum_of_all(array) == sum
}

fn of_a_table_and_its_transpose(alloc: Global) -> bool {
    let Some(table) = table(alloc) else {
        return false;
    };
    let Some(none) = nothing(alloc) else {
        return false;
    };
    has_answers(&table) && is_listed(alloc, &table) && has_no_answers(&none)
}

#[tactic(auto, using(nd_array_core::proofs::AxesOfDimensionTypes::known_axes))]
fn sums_along_the_first_axis(alloc: Global) -> bool {
    let Some(table) = table(alloc) else {
        return false;
    };
    let Some(none) = nothing(alloc) else {
        return false;
    };
    has_sums(alloc, &table, &[18, 11], 18, 12, 29) && has_sums(alloc, &none, &[0, 0], 0, 0, 0)
}

#[test]
fn callers_of_iterators(rt: HostRuntime) {
    assert!(rt; of_a_table_and_its_transpose(rt.alloc()));
    assert!(rt; sums_along_the_first_axis(rt.alloc()));
}
