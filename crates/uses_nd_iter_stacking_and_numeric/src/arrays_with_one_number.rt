//! Functions over an array of floats and one number.

ghost use Rattle.std.specs.Prelude.{◌≡◌, IfOk};
ghost use Rattle.std.specs.Float.{binary64};
ghost use Rattle.std.specs.Float.Ieee.{mul};
ghost use Rattle.nd_array_core.specs.Prelude.{meaning_of, shape_of, element_at, IsMappedBy};
ghost use Rattle.uses_nd_iter_stacking_and_numeric.specs.ElementwiseFloatArithmetic.{HasShares};

use nd_array_core::prelude::*;
use nd_numeric::{div_scalar, sum};
use std::alloc::Global;

/// Returns an array of each element divided by the sum of all elements.
pub fn shares<S: Data<Elem = f64>, D: Dimension>(
    alloc: Global,
    array: &ArrayBase<S, D>,
) -> Result<Array<f64, D>, NoMemory>
    ensures shape { IfOk result (λ shares. shape_of shares ≡ shape_of array.now) }
    ensures elements { IfOk result (λ shares. HasShares (meaning_of array.now) (element_at shares)) }
{
    let total = sum(array);
    let shares = div_scalar(alloc, array, total)?;
    Ok(shares)
}

/// Multiplies each price by `rate`.
pub fn raise<S: DataMut<Elem = f64>, D: Dimension>(prices: &mut ArrayBase<S, D>, rate: f64)
    ensures shape { shape_of prices.new ≡ shape_of prices.old }
    ensures elements { IsMappedBy (λ x. mul binary64 x rate) (element_at prices.old) (element_at prices.new) }
{
    *prices *= rate;
}
