//! Divides the columns of a table of floats by their sums, subtracts from the columns their means, and standardises them.
#![tactic(auto, using(std::proofs::lemmas::Bool::Decides::nat_tests, nd_array_core::proofs::AxesOfDimensionTypes::known_axes))]

ghost use Rattle.std.specs.Prelude.{◌≡◌, ◌<◌, IfOk, OnErr, OnOk};
ghost use Rattle.std.specs.Float.{binary64};
ghost use Rattle.std.specs.Float.Ieee.{div, sub};
ghost use Rattle.nd_array_core.specs.Prelude.{meaning_of, columns_of, rows_of, line_of, table_of, HasLength, ShowsLine, ShowsTable};
ghost use Rattle.uses_nd_iter_stacking_and_numeric.specs.StandardisedColumns.{centred, column_deviations, column_means, column_sums, normalised, standardised, with_numbers};

use nd_array_core::prelude::*;
use nd_numeric::laws::lanes_broadcast;
use nd_numeric::{mean_axis, std_axis, sum_axis};
use std::alloc::Global;

/// Returns the sum of each column.
fn sums_of_columns<S: Data<Elem = f64>>(
    alloc: Global,
    table: &ArrayBase<S, Ix2>,
) -> Result<Array1<f64>, NoMemory>
    ensures { IfOk result (λ sums. ShowsLine sums (column_sums (table_of table.now))) }
{
    let sums = sum_axis(alloc, table, Axis(0))?;
    Ok(sums)
}

/// Divides each cell of `table` by the element of `divisors` for its column.
fn divide_columns<S: DataMut<Elem = f64>, Z: Data<Elem = f64>>(
    table: &mut ArrayBase<S, Ix2>,
    divisors: &ArrayBase<Z, Ix1>,
)
    requires { HasLength divisors.now (columns_of table.old) }
    ensures { ShowsTable table.new (with_numbers (div binary64) (line_of divisors.now) (table_of table.old)) }
{
    lanes_broadcast(table, divisors);
    *table /= divisors;
}

/// Divides each column of `table` by its sum. If the memory for the sums can't be allocated, the table stays as it is.
pub fn normalise_columns<S: DataMut<Elem = f64>>(
    alloc: Global,
    table: &mut ArrayBase<S, Ix2>,
) -> Result<(), NoMemory>
    ensures shares { OnOk result (ShowsTable table.new (normalised (table_of table.old))) }
    ensures kept { OnErr result (meaning_of table.new ≡ meaning_of table.old) }
{
    let sums = sums_of_columns(alloc, table)?;
    divide_columns(table, &sums);
    Ok(())
}

/// Returns the mean of each column of a table that has rows.
fn means_of_columns<S: Data<Elem = f64>>(
    alloc: Global,
    table: &ArrayBase<S, Ix2>,
) -> Result<Array1<f64>, NoMemory>
    requires { 0 < rows_of table.now }
    ensures { IfOk result (λ means. ShowsLine means (column_means (table_of table.now))) }
{
    match mean_axis(alloc, table, Axis(0)) {
        Some(means) => means,
        None => unreachable!(),
    }
}

/// Subtracts from each cell of `table` the element of `numbers` for its column.
fn move_columns<S: DataMut<Elem = f64>, Z: Data<Elem = f64>>(
    table: &mut ArrayBase<S, Ix2>,
    numbers: &ArrayBase<Z, Ix1>,
)
    requires { HasLength numbers.now (columns_of table.old) }
    ensures { ShowsTable table.new (with_numbers (sub binary64) (line_of numbers.now) (table_of table.old)) }
{
    lanes_broadcast(table, numbers);
    *table -= numbers;
}

/// Subtracts from each column of `table` its mean. A table without rows doesn't change. If the memory for the means
/// can't be allocated, the table stays as it is.
pub fn centre_columns<S: DataMut<Elem = f64>>(
    alloc: Global,
    table: &mut ArrayBase<S, Ix2>,
) -> Result<(), NoMemory>
    ensures centred { OnOk result (ShowsTable table.new (centred (table_of table.old))) }
    ensures kept { OnErr result (meaning_of table.new ≡ meaning_of table.old) }
{
    if table.nrows() == 0 {
        return Ok(());
    }
    let means = means_of_columns(alloc, table)?;
    move_columns(table, &means);
    Ok(())
}

/// Returns the standard deviation of each column of a table that has rows.
fn deviations_of_columns<S: Data<Elem = f64>>(
    alloc: Global,
    table: &ArrayBase<S, Ix2>,
) -> Result<Array1<f64>, NoMemory>
    requires { 0 < rows_of table.now }
    ensures { IfOk result (λ roots. ShowsLine roots (column_deviations (table_of table.now))) }
{
    match std_axis(alloc, table, Axis(0), 0) {
        Some(deviations) => deviations,
        None => unreachable!(),
    }
}

/// Subtracts from each column of `table` its mean, and divides what is left by the column's standard deviation. A table
/// without rows doesn't change. If memory can't be allocated, the table stays as it is.
pub fn standardise_columns<S: DataMut<Elem = f64>>(
    alloc: Global,
    table: &mut ArrayBase<S, Ix2>,
) -> Result<(), NoMemory>
    ensures standardised { OnOk result (ShowsTable table.new (standardised (table_of table.old))) }
    ensures kept { OnErr result (meaning_of table.new ≡ meaning_of table.old) }
{
    if table.nrows() == 0 {
        return Ok(());
    }
    let means = means_of_columns(alloc, table)?;
    let deviations = deviations_of_columns(alloc, table)?;
    move_columns(table, &means);
    divide_columns(table, &deviations);
    Ok(())
}
