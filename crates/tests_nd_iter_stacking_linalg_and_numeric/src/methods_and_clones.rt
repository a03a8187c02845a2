//! The iterators as methods of small tables, what their clones have left, and the views along the first axis. The
//! functions here are generic over the storage, since a call with a known type takes longer to prove.

ghost use Rattle.std.specs.Prelude.{◌<◌, length};
ghost use Rattle.nd_array_core.specs.ArrayMeaning.{shape_of};

use crate::small_tables_as_digits::{has_digits, is, joined, nothing, table};
use nd_array_core::{ArrayBase, Data};
use nd_iter::{AxisIterExt, IndexedIterExt, IterExt, outer_iter, rows, windows};
use nd_shape_and_slice::{Axis, Dimension, Ix2, RemoveAxis};
use std::alloc::{AllocError, Global};

fn has_elements<S: Data<Elem = u64>, D: Dimension>(array: &ArrayBase<S, D>) -> bool {
    let mut left = array.iter();
    is(left.next(), 3) && is(left.next_back(), 4) && left.len() == 4
}

fn has_indexed<S: Data<Elem = u64>>(table: &ArrayBase<S, Ix2>) -> Result<bool, AllocError> {
    let mut left = table.indexed_iter();
    let _first = left.next();
    let mut clone = left.clone()?;
    Ok(is_seven(left.next()) && left.len() == 4 && clone.len() == 5 && is_seven(clone.next()))
}

/// Returns whether there is an element, the number 7 in row 0 and column 1.
fn is_seven(element: Option<((usize, usize), &u64)>) -> bool {
    match element {
        Some((at, x)) => at == (0, 1) && *x == 7,
        None => false,
    }
}

/// Returns whether the elements that are left, of a clone of the iterator and of the iterator itself, are these.
fn has_twice<S: Data<Elem = u64>, D: Dimension>(array: &ArrayBase<S, D>, wanted: u64) -> bool {
    match twice(array) {
        Ok(digits) => digits == wanted,
        Err(_) => false,
    }
}

/// Returns the views along the first axis, then those along the second, each as three digits.
fn along_both<S: Data<Elem = u64>, D: RemoveAxis>(array: &ArrayBase<S, D>) -> u64
    requires { 1 < length (shape_of array.now) }
{
    joined(array.outer_iter(), 1_000)
        .wrapping_mul(1_000_000_000)
        .wrapping_add(joined(array.axis_iter(Axis(1)), 1_000))
}

/// Returns whether there are `count` views along the first axis, the last of which has these digits.
fn has_outer<S: Data<Elem = u64>, D: RemoveAxis>(
    array: &ArrayBase<S, D>,
    count: usize,
    last: u64,
) -> bool
    requires { 0 < length (shape_of array.now) }
{
    let mut left = outer_iter(array);
    left.len() == count && has_digits(left.next_back(), last)
}

/// Takes the first and the last element, and returns the elements that are left as digits: those of a clone of the
/// iterator, and then those of the iterator itself.
fn twice<S: Data<Elem = u64>, D: Dimension>(array: &ArrayBase<S, D>) -> Result<u64, AllocError> {
    let mut left = array.iter();
    let _first = left.next();
    let _last = left.next_back();
    let mut digits: u64 = 0;
    for x in left.clone()? {
        digits = digits.wrapping_mul(10).wrapping_add(*x);
    }
    for x in left {
        digits = digits.wrapping_mul(10).wrapping_add(*x);
    }
    Ok(digits)
}

/// Returns whether, after the first row was taken, the rows that are left are right in a clone of the iterator and in
/// the iterator itself.
fn has_rows_twice<S: Data<Elem = u64>>(table: &ArrayBase<S, Ix2>) -> Result<bool, AllocError> {
    let mut left = rows(table);
    let _first = left.next();
    let clone = left.clone()?;
    Ok(joined(clone, 1_000) == 524 && joined(left, 1_000) == 524)
}

/// Returns whether a clone of the windows of two columns, made after the first window was taken, has the same windows
/// left as the iterator itself.
fn has_windows_twice<S: Data<Elem = u64>>(table: &ArrayBase<S, Ix2>) -> Result<bool, AllocError> {
    let mut left = windows(table, 1, 2);
    let _first = left.next();
    let clone = left.clone()?;
    Ok(joined(clone, 100) == 785224 && joined(left, 100) == 785224)
}

/// Returns whether a result is true.
fn is_true(outcome: &Result<bool, AllocError>) -> bool {
    match outcome {
        Ok(right) => *right,
        Err(_) => false,
    }
}

/// Returns whether the iterators of a table, and their clones, are right.
fn are_right<S: Data<Elem = u64>>(table: &ArrayBase<S, Ix2>) -> bool {
    is_true(&has_indexed(table))
        && is_true(&has_rows_twice(table))
        && is_true(&has_windows_twice(table))
        && has_elements(table)
        && has_twice(table, 78527852)
        && has_twice(&table.t(), 57285728)
}

fn elements_by_methods_and_clones(alloc: Global) -> bool {
    match table(alloc) {
        Some(table) => are_right(&table),
        None => false,
    }
}

#[tactic(auto, using(nd_array_core::proofs::AxesOfDimensionTypes::known_axes))]
fn views_along_an_axis(alloc: Global) -> bool {
    let Some(table) = table(alloc) else {
        return false;
    };
    let Some(none) = nothing(alloc) else {
        return false;
    };
    along_both(&table) == 378524035072084 && has_outer(&table, 2, 524) && has_outer(&none, 2, 0)
}

#[test]
fn methods_and_clones(rt: HostRuntime) {
    assert!(rt; elements_by_methods_and_clones(rt.alloc()));
    assert!(rt; views_along_an_axis(rt.alloc()));
}
