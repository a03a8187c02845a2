//! Functions over the columns of a table of floats.
#![tactic(auto, using(nd_array_core::proofs::AxesOfDimensionTypes::known_axes))]

ghost use Rattle.std.specs.Prelude.{IfOk};
ghost use Rattle.std.specs.Float.{binary64, float_zero};
ghost use Rattle.std.specs.Float.Ieee.{add};
ghost use Rattle.nd_array_core.specs.Prelude.{element_at};
ghost use Rattle.nd_numeric.specs.SumsProductsAndMeans.{AreLaneFolds};

use nd_array_core::prelude::*;
use nd_numeric::sum_axis;
use std::alloc::Global;

/// Returns the sum of each column of a table.
pub fn column_sums<S: Data<Elem = f64>>(
    alloc: Global,
    table: &ArrayBase<S, Ix2>,
) -> Result<Array1<f64>, NoMemory>
    ensures { IfOk result (λ sums. AreLaneFolds (add binary64) float_zero table.now 0 (element_at sums)) }
{
    let sums = sum_axis(alloc, table, Axis(0))?;
    Ok(sums)
}
