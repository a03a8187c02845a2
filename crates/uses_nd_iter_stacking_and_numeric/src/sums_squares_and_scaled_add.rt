//! Functions over arrays of any number of axes.

ghost use Rattle.std.specs.Prelude.{◌≡◌, ◌+◌, ◌%◌, ◌^◌, IfOk, IsTrue};
ghost use Rattle.std.specs.List.{fold};
ghost use Rattle.std.specs.Float.{binary64};
ghost use Rattle.std.specs.Float.Ieee.{mul};
ghost use Rattle.nd_array_core.specs.Prelude.{meaning_of, shape_of, row_major_elements, broadcasts};
ghost use Rattle.nd_array_core.specs.arithmetic.ElementwiseArithmetic.{IsOfBoth};
ghost use Rattle.nd_array_core.specs.elements.BroadcastPairs.{ShowsBoth};
ghost use Rattle.uses_nd_iter_stacking_and_numeric.specs.ElementwiseFloatArithmetic.{moved_along};

use nd_array_core::laws::broadcast_to_itself;
use nd_array_core::prelude::*;
use nd_numbers::{Arithmetic, Plus};
use nd_numeric::{fold_in_order, mul, scaled_add, sum};
use std::alloc::Global;

/// Returns the sum of all elements, modulo 2 to the 64th.
pub fn total<S: Data<Elem = u64>, D: Dimension>(array: &ArrayBase<S, D>) -> u64
    ensures { result ≡ fold (λ x y. (x + y) % 2 ^ 64) 0 (row_major_elements (meaning_of array.now)) }
{
    sum(array)
}

/// Returns the sum of all elements of which only their arithmetic is known, added to 0 one after another in row-major
/// order.
pub fn total_in_order<A: Arithmetic, S: Data<Elem = A>, D: Dimension>(array: &ArrayBase<S, D>) -> A
    ensures { result ≡ fold A.plus A.zero (row_major_elements (meaning_of array.now)) }
{
    fold_in_order(array, Plus, A::zero())
}

/// Returns an array of the squares of all elements.
pub fn squares<S: Data<Elem = f64>, D: Dimension>(
    alloc: Global,
    array: &ArrayBase<S, D>,
) -> Result<Array<f64, D>, NoMemory>
    ensures { IfOk result (IsOfBoth (mul binary64) array.now array.now) }
{
    broadcast_to_itself(array);
    let squares = mul(alloc, array, array)?;
    Ok(squares)
}

/// Adds to each weight `rate` times the element of `gradient` at the same index. `gradient` is broadcast to the shape
/// of `weights`.
pub fn step_along<S: DataMut<Elem = f64>, D: Dimension, Z: Data<Elem = f64>>(
    weights: &mut ArrayBase<S, D>,
    rate: f64,
    gradient: &ArrayBase<Z, D>,
)
    requires { IsTrue (broadcasts (shape_of gradient.now) (shape_of weights.old)) }
    ensures shape { shape_of weights.new ≡ shape_of weights.old }
    ensures elements { ShowsBoth (moved_along rate) weights.old gradient.now weights.new }
{
    scaled_add(weights, rate, gradient);
}
