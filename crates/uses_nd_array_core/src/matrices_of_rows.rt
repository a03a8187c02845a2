//! Builds new matrices from the rows of other matrices.
#![tactic(auto, using(nd_array_core::proofs::AxesOfDimensionTypes::known_axes))]

ghost use Rattle.std.specs.Prelude.{IfOk};
ghost use Rattle.nd_array_core.specs.Prelude.{table_of, flipped, ShowsTable};

use nd_array_core::prelude::*;
use std::alloc::{AllocError, Global};

/// Returns a copy of `matrix` with its rows in the opposite order, by pushing the elements one by one to a vector.
pub fn push_rows_reversed<A: Copy + Drop, S: Data<Elem = A>>(
    alloc: Global,
    matrix: &ArrayBase<S, Ix2>,
) -> Result<Array2<A>, AllocError>
    ensures { IfOk result (λ built. ShowsTable built (flipped (table_of matrix.now))) }
{
    let (rows, columns) = matrix.dim();
    let mut cells = Vec::with_capacity(alloc, matrix.len())?;
    for row in 0..rows {
        for column in 0..columns {
            cells.push(matrix[[rows - 1 - row, column]])?;
        }
    }
    match Array2::from_shape_vec((rows, columns), cells) {
        Ok(built) => Ok(built),
        Err(_) => unreachable!(),
    }
}
