//! Computes sums and maxima by `fold` and `fold_axis`, with contracts in coordinates. After the call, a law of
//! `nd_array_core` states what the fold is.
#![tactic(auto, using(std::proofs::lemmas::Bool::Decides::nat_tests, nd_array_core::proofs::AxesOfDimensionTypes::known_axes))]

ghost use Rattle.std.specs.Prelude.{◌≡◌, ◌<◌, IfOk, Some, slice_index};
ghost use Rattle.nd_array_core.specs.Prelude.{meaning_of, shape_of};
ghost use Rattle.uses_nd_array_core_numbers.specs.RowAndColumnReductions.{IsByColumn, IsByRow, column_total, column_maximum, signed_row_sum, signed_sum, table_sum, wrapped_total};

use nd_array_core::laws::{
    elements_are_summed, lanes_are_summed, lanes_have_greatest, signed_elements_are_summed,
    signed_lanes_are_summed,
};
use nd_array_core::prelude::*;
use std::alloc::Global;

/// Returns the sum of each column, modulo 2 to the 64th.
pub fn column_sums<S: Data<Elem = u64>>(
    alloc: Global,
    table: &ArrayBase<S, Ix2>,
) -> Result<Array1<u64>, NoMemory>
    ensures { IfOk result (λ a. IsByColumn column_total (meaning_of table.now) (meaning_of a)) }
{
    let sums = table.fold_axis(alloc, Axis(0), 0, |sum: &u64, x: &u64| sum.wrapping_add(*x))?;
    lanes_are_summed(table, Axis(0), &sums);
    Ok(sums)
}

/// Returns the sum of one column, modulo 2 to the 64th, by computing the sums of all columns. `column` must be below
/// the number of columns.
pub fn sum_of_column<S: Data<Elem = u64>>(
    alloc: Global,
    table: &ArrayBase<S, Ix2>,
    column: usize,
) -> Result<Option<u64>, NoMemory>
    requires { column < slice_index (shape_of table.now) 1 }
    ensures { IfOk result (λ sum. sum ≡ Some (column_total (meaning_of table.now) column)) }
{
    let sums = column_sums(alloc, table)?;
    Ok(sums.get(column).copied())
}

/// Returns the sum of each row of signed numbers, wrapping on overflow.
pub fn signed_row_sums<S: Data<Elem = i64>>(
    alloc: Global,
    table: &ArrayBase<S, Ix2>,
) -> Result<Array1<i64>, NoMemory>
    ensures { IfOk result (λ a. IsByRow signed_row_sum (meaning_of table.now) (meaning_of a)) }
{
    let sums = table.fold_axis(alloc, Axis(1), 0, |sum: &i64, x: &i64| sum.wrapping_add(*x))?;
    signed_lanes_are_summed(table, Axis(1), &sums);
    Ok(sums)
}

/// Returns the greatest number of each column, or 0 for each column of a table without rows.
pub fn column_maxima<S: Data<Elem = u64>>(
    alloc: Global,
    table: &ArrayBase<S, Ix2>,
) -> Result<Array1<u64>, NoMemory>
    ensures { IfOk result (λ a. IsByColumn column_maximum (meaning_of table.now) (meaning_of a)) }
{
    let greatest = table.fold_axis(alloc, Axis(0), 0, |most: &u64, x: &u64| (*most).max(*x))?;
    lanes_have_greatest(table, Axis(0), 0, &greatest);
    Ok(greatest)
}

/// Returns the sum of all elements, modulo 2 to the 64th.
pub fn total<S: Data<Elem = u64>, D: Dimension>(array: &ArrayBase<S, D>) -> u64
    ensures { result ≡ wrapped_total (meaning_of array.now) }
{
    let sum = array.fold(0, |sum: u64, x| sum.wrapping_add(*x));
    elements_are_summed(array, sum);
    sum
}

/// Returns the sum of all numbers of a table, modulo 2 to the 64th. The contract states it by rows and columns.
pub fn table_total<S: Data<Elem = u64>>(table: &ArrayBase<S, Ix2>) -> u64
    ensures { result ≡ table_sum (meaning_of table.now) }
{
    total(table)
}

/// Returns the sum of all elements of an array of signed numbers, wrapping on overflow.
#[tactic(auto, using(nd_array_core::proofs::SumsOfFolds::known_sums))]
pub fn signed_total<S: Data<Elem = i64>, D: Dimension>(array: &ArrayBase<S, D>) -> i64
    ensures { result ≡ signed_sum (meaning_of array.now) }
{
    let sum = array.fold(0, |sum: i64, x| sum.wrapping_add(*x));
    signed_elements_are_summed(array, sum);
    sum
}
