//! Windows, blocks, and elements with their indexes, of small tables. The functions here are generic over the storage,
//! since a call with a known type takes longer to prove.

ghost use Rattle.std.specs.Prelude.{◌<◌, ◌≡◌, ◌∷◌, [], IfSome, length};
ghost use Rattle.nd_array_core.specs.ArrayMeaning.{shape_of};

use crate::small_tables_as_digits::{digits, digits_back, has_digits, joined};
use nd_array_core::{Array2, ArrayBase, Data};
use nd_iter::{axis_iter, exact_chunks, indexed_iter, rows, windows, windows_with_stride};
use nd_shape_and_slice::{Axis, Dimension, Ix2, RemoveAxis, Slice};
use std::alloc::Global;

/// A table of 3 rows and 4 columns:
///
/// ```text
/// 1 2 3 4
/// 5 6 7 8
/// 9 1 2 3
/// ```
fn table(alloc: Global) -> Option<Array2<u64>>
    ensures { IfSome result (λ table. shape_of table ≡ 3 ∷ 4 ∷ []) }
{
    nd_test_arrays::table(alloc, (3, 4), &[1, 2, 3, 4, 5, 6, 7, 8, 9, 1, 2, 3])
}

/// Returns whether there is an element, with this row, column and value.
fn is_at(element: Option<((usize, usize), &u64)>, row: usize, column: usize, value: u64) -> bool {
    match element {
        Some((at, x)) => at.0 == row && at.1 == column && *x == value,
        None => false,
    }
}

fn has_windows<S: Data<Elem = u64>>(table: &ArrayBase<S, Ix2>) -> bool {
    let mut left = windows(table, 2, 3);
    left.len() == 4
        && left.size_hint() == (4, Some(4))
        && has_digits(left.next(), 123567)
        && has_digits(left.next_back(), 678123)
        && joined(left, 1_000_000) == 234678567912
}

fn has_blocks<S: Data<Elem = u64>>(table: &ArrayBase<S, Ix2>) -> bool {
    let left = exact_chunks(table, 2, 2);
    left.len() == 2 && joined(left, 10_000) == 12563478
}

fn has_windows_apart<S: Data<Elem = u64>>(table: &ArrayBase<S, Ix2>) -> bool {
    let mut left = windows_with_stride(table, 1, 2, 1, 2);
    left.len() == 6 && has_digits(left.next_back(), 23) && joined(left, 100) == 1234567891
}

fn has_indexed<S: Data<Elem = u64>>(table: &ArrayBase<S, Ix2>) -> bool {
    let mut left = indexed_iter(table);
    is_at(left.next(), 0, 0, 1)
        && is_at(left.next(), 0, 1, 2)
        && is_at(left.next_back(), 2, 3, 3)
        && left.len() == 9
        && left.size_hint() == (9, Some(9))
}

fn has_turned_indexed<S: Data<Elem = u64>>(turned: &ArrayBase<S, Ix2>) -> bool {
    let mut left = indexed_iter(turned);
    let _first = left.next();
    is_at(left.next(), 0, 1, 5) && is_at(left.next_back(), 3, 2, 3)
}

/// Returns the elements of the transpose as digits, from the last one back.
fn turned_back<S: Data<Elem = u64>, D: Dimension>(array: &ArrayBase<S, D>) -> u64 {
    digits_back(&array.t())
}

fn has_rows_from_the_last<S: Data<Elem = u64>>(table: &ArrayBase<S, Ix2>) -> bool {
    let mut left = rows(table);
    has_digits(left.next_back(), 9123)
        && left.size_hint() == (2, Some(2))
        && has_digits(left.next(), 1234)
        && has_digits(left.next_back(), 5678)
        && left.next_back().is_none()
}

fn has_last_column<S: Data<Elem = u64>, D: RemoveAxis>(array: &ArrayBase<S, D>) -> bool
    requires { 1 < length (shape_of array.now) }
{
    let mut columns = axis_iter(array, Axis(1));
    has_digits(columns.next_back(), 483)
}

/// Returns whether a window that is too high and a window of the whole are none and one.
fn has_large_windows<S: Data<Elem = u64>>(table: &ArrayBase<S, Ix2>) -> bool {
    windows(table, 4, 1).next().is_none() && windows(table, 3, 4).len() == 1
}

/// Returns whether the windows, blocks, indexes and rows of a table are right.
fn are_right<S: Data<Elem = u64>>(table: &ArrayBase<S, Ix2>) -> bool {
    has_windows(table)
        && has_large_windows(table)
        && has_blocks(table)
        && has_windows_apart(table)
        && has_indexed(table)
        && has_turned_indexed(&table.t())
        && has_rows_from_the_last(table)
        && turned_back(table) == 384273162951
}

fn parts_of_a_table(alloc: Global) -> bool {
    match table(alloc) {
        Some(table) => are_right(&table),
        None => false,
    }
}

#[tactic(auto, using(std::proofs::lemmas::Bool::Decides::nat_tests, nd_array_core::proofs::AxesOfDimensionTypes::known_axes))]
fn every_second_column_backwards(alloc: Global) -> bool {
    let Some(table) = table(alloc) else {
        return false;
    };
    let part = table.slice_axis(Axis(1), Slice::new(0, None, -2));
    digits(&part) == 428631 && digits_back(&part) == 136824 && has_last_column(&table)
}

#[test]
fn parts_and_indexes(rt: HostRuntime) {
    assert!(rt; parts_of_a_table(rt.alloc()) && every_second_column_backwards(rt.alloc()));
}
