//! Elements, rows and columns of a small table, with what ndarray's iterators return for it. The functions here are
//! generic over the storage, since a call with a known type takes longer to prove.

ghost use Rattle.std.specs.Prelude.{◌<◌, length};
ghost use Rattle.nd_array_core.specs.ArrayMeaning.{shape_of};

use crate::small_tables_as_digits::{digits, is, joined, nothing, table};
use nd_array_core::{ArrayBase, Data};
use nd_iter::{axis_iter, iter, rows};
use nd_shape_and_slice::{Axis, Dimension, Ix2, RemoveAxis};
use nd_test_arrays::table as table_of;
use std::alloc::Global;

/// Returns whether these are the first and the last element, and `between` elements are left between them.
fn has_ends<S: Data<Elem = u64>, D: Dimension>(
    array: &ArrayBase<S, D>,
    first: u64,
    last: u64,
    between: usize,
) -> bool {
    let mut left = iter(array);
    is(left.next(), first)
        && is(left.next_back(), last)
        && left.len() == between
        && left.size_hint() == (between, Some(between))
}

/// Returns whether there is no element.
fn has_none<S: Data<Elem = u64>, D: Dimension>(array: &ArrayBase<S, D>) -> bool {
    iter(array).next().is_none()
}

/// Returns the rows, each as three digits.
fn joined_rows<S: Data<Elem = u64>>(table: &ArrayBase<S, Ix2>) -> u64 {
    joined(rows(table), 1_000)
}

/// Returns the views along the second axis, each as three digits.
fn joined_columns<S: Data<Elem = u64>, D: RemoveAxis>(array: &ArrayBase<S, D>) -> u64
    requires { 1 < length (shape_of array.now) }
{
    joined(axis_iter(array, Axis(1)), 1_000)
}

fn has_elements<S: Data<Elem = u64>, D: Dimension>(array: &ArrayBase<S, D>) -> bool {
    digits(array) == 378524 && digits(&array.t()) == 357284 && has_ends(array, 3, 4, 4)
}

fn elements_of_a_table_and_its_transpose(alloc: Global) -> bool {
    let Some(table) = table(alloc) else {
        return false;
    };
    let Some(none) = nothing(alloc) else {
        return false;
    };
    has_elements(&table) && has_none(&none)
}

#[tactic(auto, using(nd_array_core::proofs::AxesOfDimensionTypes::known_axes))]
fn rows_and_columns_of_a_table(alloc: Global) -> bool {
    match table_of(alloc, (3, 2), &[3, 7, 8, 5, 2, 4]) {
        Some(high) => joined_rows(&high) == 37085024 && joined_columns(&high) == 382754,
        None => false,
    }
}

#[test]
fn elements_rows_and_columns(rt: HostRuntime) {
    assert!(rt; elements_of_a_table_and_its_transpose(rt.alloc()));
    assert!(rt; rows_and_columns_of_a_table(rt.alloc()));
}
