//! New arrays of what arithmetic gives for each element of an array and a single number on the right.

ghost use Rattle.std.specs.Prelude.{◌≡◌, ◌<◌, IfOk, IsTrue, OnErr};
ghost use Rattle.nd_shape_and_slice.specs.ShapesAndIndexOrders.{size_of};
ghost use Rattle.nd_array_core.specs.ArrayMeaning.{shape_of};
ghost use Rattle.nd_numeric.specs.ElementwiseArithmetic.{IsOfEach};

use nd_array_core::arithmetic::combined_with_scalar;
use nd_array_core::{Array, ArrayBase, Data};
use nd_numbers::{Arithmetic, Minus, Over, Plus, Times};
use nd_shape_and_slice::{Dimension, NoMemory};
use std::alloc::Global;

/// Returns a new array with, at each index, the sum of the element and the number. Fails with `NoMemory` if the storage
/// is refused. This is ndarray's `&array + number`.
pub fn add_scalar<A: Arithmetic, S: Data<Elem = A>, D: Dimension>(
    alloc: Global,
    array: &ArrayBase<S, D>,
    number: A,
) -> Result<Array<A, D>, NoMemory>
    ensures sums { IfOk result (IsOfEach (λ x. A.plus x number) array.now) }
    ensures refused { OnErr result (0 < size_of (shape_of array.now)) }
{
    combined_with_scalar(alloc, array, number, Plus)
}

/// Returns a new array with, at each index, the element minus the number. Fails with `NoMemory` if the storage is
/// refused. This is ndarray's `&array - number`.
pub fn sub_scalar<A: Arithmetic, S: Data<Elem = A>, D: Dimension>(
    alloc: Global,
    array: &ArrayBase<S, D>,
    number: A,
) -> Result<Array<A, D>, NoMemory>
    ensures differences { IfOk result (IsOfEach (λ x. A.minus x number) array.now) }
    ensures refused { OnErr result (0 < size_of (shape_of array.now)) }
{
    combined_with_scalar(alloc, array, number, Minus)
}

/// Returns a new array with, at each index, the product of the element and the number. Fails with `NoMemory` if the
/// storage is refused. This is ndarray's `&array * number`.
pub fn mul_scalar<A: Arithmetic, S: Data<Elem = A>, D: Dimension>(
    alloc: Global,
    array: &ArrayBase<S, D>,
    number: A,
) -> Result<Array<A, D>, NoMemory>
    ensures products { IfOk result (IsOfEach (λ x. A.times x number) array.now) }
    ensures refused { OnErr result (0 < size_of (shape_of array.now)) }
{
    combined_with_scalar(alloc, array, number, Times)
}

/// Returns a new array with, at each index, the element divided by the number, which must not be the integer 0. Fails
/// with `NoMemory` if the storage is refused. This is ndarray's `&array / number`.
pub fn div_scalar<A: Arithmetic, S: Data<Elem = A>, D: Dimension>(
    alloc: Global,
    array: &ArrayBase<S, D>,
    number: A,
) -> Result<Array<A, D>, NoMemory>
    requires divisor { IsTrue (A.is_divisor number) }
    ensures quotients { IfOk result (IsOfEach (λ x. A.over x number) array.now) }
    ensures refused { OnErr result (0 < size_of (shape_of array.now)) }
{
    combined_with_scalar(alloc, array, number, Over)
}
