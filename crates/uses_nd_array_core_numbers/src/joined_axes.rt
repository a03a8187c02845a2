//! Joins all axes but the last one into one, with a contract on the row-major order, and returns refusals as an error
//! type of the caller.
#![tactic(auto, using(nd_array_core::proofs::AxesOfDimensionTypes::known_axes))]

ghost use Rattle.std.specs.Prelude.{◌≡◌, ◌*◌, IfOk, OnOk};
ghost use Rattle.nd_array_core.specs.Prelude.{meaning_of, shape_of, rows_of, columns_of, size_of, HasRowsAndColumns};
ghost use Rattle.uses_nd_array_core_numbers.specs.WindowMaximaAndPlanes.{last_length, ListsTheSame};

use nd_array_core::laws::reshaped_keeps_order;
use nd_array_core::prelude::*;

/// Says why an array can't be seen as a table.
#[derive(Debug, Drop, thiserror::Error)]
pub enum TableError {
    /// The array has no axis.
    #[error("an array without axes has no rows")]
    NoAxis,
    /// The array can't be reshaped to the shape of the table.
    #[error(transparent)]
    Shape(#[from] ShapeError),
}

/// Reshapes an array to `rows` rows and `columns` columns, with the same elements in row-major order.
pub fn in_rows<A: Drop>(
    array: ArrayD<A>,
    rows: usize,
    columns: usize,
) -> Result<Array2<A>, ShapeError>
    ensures shape { IfOk result (λ table. HasRowsAndColumns table rows columns) }
    ensures count { OnOk result (rows * columns ≡ size_of (shape_of array)) }
    ensures order { IfOk result (λ table. ListsTheSame (meaning_of array) (meaning_of table)) }
{
    reshaped_keeps_order::<A>();
    let table = array.into_shape_with_order((rows, columns))?;
    Ok(table)
}

/// Returns the number of rows and the number of columns of the table that an array becomes if all its axes but the last
/// one are joined. Fails with `NoAxis` if there is no axis.
fn joined_sides<S: Data, D: Dimension>(
    array: &ArrayBase<S, D>,
) -> Result<(usize, usize), TableError>
    ensures { IfOk result (λ sides. sides.1 ≡ last_length (shape_of array.now)) }
{
    if array.ndim() == 0 {
        return Err(TableError::NoAxis);
    }
    let columns = array.len_of(Axis(array.ndim() - 1));
    if columns == 0 {
        return Ok((0, 0));
    }
    Ok((array.len() / columns, columns))
}

/// Joins all axes of an array but the last one into one. The result is a table whose number of columns is the length of
/// the last axis, with the same elements in row-major order.
pub fn leading_axes_joined<A: Drop>(array: ArrayD<A>) -> Result<Array2<A>, TableError>
    ensures columns { IfOk result (λ table. columns_of table ≡ last_length (shape_of array)) }
    ensures count { IfOk result (λ table. rows_of table * columns_of table ≡ size_of (shape_of array)) }
    ensures order { IfOk result (λ table. ListsTheSame (meaning_of array) (meaning_of table)) }
{
    let (rows, columns) = joined_sides(&array)?;
    let table = in_rows(array, rows, columns)?;
    Ok(table)
}
