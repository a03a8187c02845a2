//! The outer product of two lists of floats.

ghost use Rattle.std.specs.Prelude.{◌≡◌, IfOk};
ghost use Rattle.std.specs.Float.{binary64, float_zero};
ghost use Rattle.std.specs.Float.Ieee.{mul};
ghost use Rattle.nd_array_core.specs.Prelude.{shape_of, HasCheckedSize};
ghost use Rattle.nd_numeric.specs.SumsProductsAndMeans.{outer_shape, HasOuterProducts};

use nd_array_core::prelude::*;
use nd_numeric::outer;
use std::alloc::Global;

/// Returns each price at each rate: a table with a row for each price and a column for each rate. The size of the table
/// must not overflow.
pub fn priced<S: Data<Elem = f64>, Z: Data<Elem = f64>>(
    alloc: Global,
    prices: &ArrayBase<S, Ix1>,
    rates: &ArrayBase<Z, Ix1>,
) -> Result<Array2<f64>, NoMemory>
    requires { HasCheckedSize (outer_shape (shape_of prices.now) (shape_of rates.now)) }
    ensures shape { IfOk result (λ table. shape_of table ≡ outer_shape (shape_of prices.now) (shape_of rates.now)) }
    ensures products { IfOk result (HasOuterProducts (mul binary64) float_zero prices.now rates.now) }
{
    outer(alloc, prices, rates)
}
