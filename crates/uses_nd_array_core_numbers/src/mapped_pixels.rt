//! New images of what a closure returns for each pixel.
#![tactic(auto, using(nd_array_core::proofs::AxesOfDimensionTypes::rows_and_columns))]

ghost use Rattle.std.specs.Prelude.{◌-◌, IfOk};
ghost use Rattle.nd_array_core.specs.Prelude.{table_of, ShowsTable, mapped, transposed};

use nd_array_core::prelude::*;
use std::alloc::Global;

/// Returns a copy of a grey image with dark and light exchanged: each pixel `x` becomes `255 - x`.
pub fn inverted<S: Data<Elem = u8>>(
    alloc: Global,
    image: &ArrayBase<S, Ix2>,
) -> Result<Array2<u8>, NoMemory>
    ensures { IfOk result (λ a. ShowsTable a (mapped (λ x. 255 - x) (table_of image.now))) }
{
    let inverted = image.mapv(alloc, |x| 255 - x)?;
    Ok(inverted)
}

/// Returns a transposed copy of a grey image with dark and light exchanged: each pixel `x` becomes `255 - x`.
pub fn inverted_and_transposed<S: Data<Elem = u8>>(
    alloc: Global,
    image: &ArrayBase<S, Ix2>,
) -> Result<Array2<u8>, NoMemory>
    ensures { IfOk result (λ a. ShowsTable a (mapped (λ x. 255 - x) (transposed (table_of image.now)))) }
{
    let turned = image.t();
    let inverted = inverted(alloc, &turned)?;
    Ok(inverted)
}
