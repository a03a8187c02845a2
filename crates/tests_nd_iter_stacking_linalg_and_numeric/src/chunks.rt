//! Chunks of an axis of small tables. The functions here are generic over the storage, since a call with a known type
//! takes longer to prove.

ghost use Rattle.std.specs.Prelude.{◌<◌, length};
ghost use Rattle.nd_array_core.specs.ArrayMeaning.{shape_of};

use crate::small_tables_as_digits::{has_digits, joined, nothing, table};
use nd_array_core::{ArrayBase, Data};
use nd_iter::axis_chunks_iter;
use nd_shape_and_slice::{Axis, Dimension};
use std::alloc::{AllocError, Global};

/// Returns whether the chunks of two columns of 3 7 8 / 5 2 4 are right, from either end.
fn has_columns<S: Data<Elem = u64>, D: Dimension>(array: &ArrayBase<S, D>) -> bool
    requires { 1 < length (shape_of array.now) }
{
    let mut left = axis_chunks_iter(array, Axis(1), 2);
    left.len() == 2
        && left.size_hint() == (2, Some(2))
        && has_digits(left.next_back(), 84)
        && has_digits(left.next(), 3752)
        && left.next().is_none()
}

/// Returns whether the chunks of rows are right that are longer than the axis, of one coordinate each, and as long as
/// the axis.
fn has_rows<S: Data<Elem = u64>, D: Dimension>(array: &ArrayBase<S, D>) -> bool
    requires { 1 < length (shape_of array.now) }
{
    let mut whole = axis_chunks_iter(array, Axis(0), usize::MAX);
    joined(axis_chunks_iter(array, Axis(0), 1), 1000) == 378524
        && joined(axis_chunks_iter(array, Axis(1), 3), 1) == 378524
        && whole.len() == 1
        && has_digits(whole.next(), 378524)
}

/// Returns whether a clone of the chunks, made after the first one was taken, has the same chunks left as the iterator
/// itself.
fn has_clone<S: Data<Elem = u64>, D: Dimension>(array: &ArrayBase<S, D>) -> Result<bool, AllocError>
    requires { 1 < length (shape_of array.now) }
{
    let mut left = axis_chunks_iter(array, Axis(1), 2);
    let _first = left.next();
    let mut clone = left.clone()?;
    Ok(has_digits(left.next(), 84) && left.len() == 0 && has_digits(clone.next_back(), 84))
}

/// Returns how many chunks of two columns there are.
fn count<S: Data<Elem = u64>, D: Dimension>(array: &ArrayBase<S, D>) -> usize
    requires { 1 < length (shape_of array.now) }
{
    axis_chunks_iter(array, Axis(1), 2).len()
}

/// Returns whether all chunks of a table are right.
fn are_right<S: Data<Elem = u64>, D: Dimension>(array: &ArrayBase<S, D>) -> bool
    requires { 1 < length (shape_of array.now) }
{
    let clone = match has_clone(array) {
        Ok(right) => right,
        Err(_) => false,
    };
    clone && has_columns(array) && has_rows(array)
}

#[tactic(auto, using(nd_array_core::proofs::AxesOfDimensionTypes::known_axes))]
fn chunks_of_a_table_and_of_nothing(alloc: Global) -> bool {
    let Some(table) = table(alloc) else {
        return false;
    };
    let Some(none) = nothing(alloc) else {
        return false;
    };
    are_right(&table) && count(&none) == 0
}

#[test]
fn chunks(rt: HostRuntime) {
    assert!(rt; chunks_of_a_table_and_of_nothing(rt.alloc()));
}
