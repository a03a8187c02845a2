//! Operators between arrays, and between an array and a number.

ghost use Rattle.std.specs.Prelude.{◌≡◌, ◌<◌, ℕ, List, IfOk, IfSome, IsTrue};
ghost use Rattle.std.specs.Option.{option_map};
ghost use Rattle.std.specs.Int.{w64, int_wrapping_sub};
ghost use Rattle.std.specs.Float.Ieee.{neg};
ghost use Rattle.nd_numeric.specs.Quotients.{quotient_or_zero};
ghost use Rattle.nd_array_core.specs.Prelude.{shape_of, element_at, broadcasts};
ghost use Rattle.nd_array_core.specs.elements.BroadcastPairs.{ShowsBoth};
ghost use Rattle.uses_nd_iter_stacking_and_numeric.specs.ElementwiseFloatArithmetic.{HasCellsOfBoth, HasElementsOfBoth, scaled_plus, moved_by, sum_divided_by};

use nd_array_core::laws::broadcast_to_itself;
use nd_array_core::prelude::*;

/// Multiplies each element of `array` by `factor`, and adds `other`, broadcast to the shape of `array`. No memory is
/// allocated.
pub fn scaled_sum<S: DataMut<Elem = f64>, D: Dimension, Z: Data<Elem = f64>, E: Dimension>(
    factor: f64,
    array: ArrayBase<S, D>,
    other: &ArrayBase<Z, E>,
) -> ArrayBase<S, D>
    requires { IsTrue (broadcasts (shape_of other.now) (shape_of array)) }
    ensures shape { shape_of result ≡ shape_of array }
    ensures elements { ShowsBoth (scaled_plus factor) array other.now result }
{
    array * factor + other
}

/// Subtracts `other` from `table`, cell by cell, wrapping on overflow. The shapes must be the same.
pub fn difference<S: DataMut<Elem = i64>, Z: Data<Elem = i64>>(
    table: ArrayBase<S, Ix2>,
    other: &ArrayBase<Z, Ix2>,
) -> ArrayBase<S, Ix2>
    requires { shape_of other.now ≡ shape_of table }
    ensures shape { shape_of result ≡ shape_of table }
    ensures cells { HasCellsOfBoth (int_wrapping_sub w64) table other.now result }
{
    broadcast_to_itself(other);
    table - other
}

/// Returns `array` with the sign of each element changed.
pub fn negated<S: DataMut<Elem = f64>, D: Dimension>(array: ArrayBase<S, D>) -> ArrayBase<S, D>
    ensures shape { shape_of result ≡ shape_of array }
    ensures elements { (i : List ℕ) → element_at result i ≡ option_map neg (element_at array i) }
{
    -array
}

/// Adds `other`, broadcast to the shape of `array`, to `array`, and divides each sum by `number`. Returns the quotients
/// as a new array.
pub fn sum_over<D: Dimension, Z: Data<Elem = f64>, E: Dimension>(
    array: &Array<f64, D>,
    other: &ArrayBase<Z, E>,
    number: f64,
) -> Result<Array<f64, D>, NoMemory>
    requires { IsTrue (broadcasts (shape_of other.now) (shape_of array.now)) }
    ensures shape { IfOk result (λ sums. shape_of sums ≡ shape_of array.now) }
    ensures elements { IfOk result (ShowsBoth (sum_divided_by number) array.now other.now) }
{
    let sums = (array + other)?;
    Ok(sums / number)
}

/// Adds `rate` times `gradient` to `weights`, element by element. `gradient` must have the shape of `weights`, and is
/// dropped.
pub fn descend<S: DataMut<Elem = f64>, D: Dimension>(
    weights: &mut ArrayBase<S, D>,
    rate: f64,
    gradient: Array<f64, D>,
)
    requires { shape_of gradient ≡ shape_of weights.old }
    ensures shape { shape_of weights.new ≡ shape_of weights.old }
    ensures elements { HasElementsOfBoth (moved_by rate) weights.old gradient weights.new }
{
    let step = gradient * rate;
    broadcast_to_itself(&step);
    *weights += &step;
}

/// Divides each of `counts` by the element of `others` at the same index. The shapes must be the same, and no divisor
/// may be 0.
pub fn divide<S: DataMut<Elem = u64>, D: Dimension, Z: Data<Elem = u64>>(
    counts: &mut ArrayBase<S, D>,
    others: &ArrayBase<Z, D>,
)
    requires same { shape_of others.now ≡ shape_of counts.old }
    requires divisors { (i : List ℕ) → IfSome (element_at others.now i) (λ y. 0 < y) }
    ensures shape { shape_of counts.new ≡ shape_of counts.old }
    ensures elements { HasElementsOfBoth quotient_or_zero counts.old others.now counts.new }
{
    broadcast_to_itself(others);
    *counts /= others;
}
