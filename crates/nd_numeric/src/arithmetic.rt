//! Arithmetic on arrays, element by element.

ghost use Rattle.std.specs.Prelude.{◌≡◌, ◌<◌, IfOk, OnErr};
ghost use Rattle.nd_shape_and_slice.specs.ShapesAndIndexOrders.{size_of};
ghost use Rattle.nd_array_core.specs.ArrayMeaning.{shape_of, element_at};
ghost use Rattle.nd_numeric.specs.ElementwiseArithmetic.{BecomesBoth, CanMeet, EachIsDivisor, IsOfBoth};

use nd_array_core::arithmetic::{combine_with, combined};
use nd_array_core::{Array, ArrayBase, Data, DataMut};
use nd_numbers::{Arithmetic, Minus, Over, Plus, PlusMultiple, Times};
use nd_shape_and_slice::{Dimension, NoMemory};
use std::alloc::Global;

/// Returns a new array with, at each index, the sum of the elements of both arrays. `other` is broadcast to the shape
/// of `array`, which must be possible. Fails with `NoMemory` if storage is refused. This is ndarray's `&array +
/// &other`.
pub fn add<A: Arithmetic, S: Data<Elem = A>, D: Dimension, Z: Data<Elem = A>, E: Dimension>(
    alloc: Global,
    array: &ArrayBase<S, D>,
    other: &ArrayBase<Z, E>,
) -> Result<Array<A, D>, NoMemory>
    requires broadcasts { CanMeet array.now other.now }
    ensures sums { IfOk result (IsOfBoth A.plus array.now other.now) }
    ensures refused { OnErr result (0 < size_of (shape_of array.now)) }
{
    combined(alloc, array, other, Plus)
}

/// Returns a new array with, at each index, the element of `array` minus the element of `other`. `other` is broadcast
/// to the shape of `array`, which must be possible. Fails with `NoMemory` if storage is refused. This is ndarray's
/// `&array - &other`.
pub fn sub<A: Arithmetic, S: Data<Elem = A>, D: Dimension, Z: Data<Elem = A>, E: Dimension>(
    alloc: Global,
    array: &ArrayBase<S, D>,
    other: &ArrayBase<Z, E>,
) -> Result<Array<A, D>, NoMemory>
    requires broadcasts { CanMeet array.now other.now }
    ensures differences { IfOk result (IsOfBoth A.minus array.now other.now) }
    ensures refused { OnErr result (0 < size_of (shape_of array.now)) }
{
    combined(alloc, array, other, Minus)
}

/// Returns a new array with, at each index, the product of the elements of both arrays. `other` is broadcast to the
/// shape of `array`, which must be possible. Fails with `NoMemory` if storage is refused. This is ndarray's `&array *
/// &other`.
pub fn mul<A: Arithmetic, S: Data<Elem = A>, D: Dimension, Z: Data<Elem = A>, E: Dimension>(
    alloc: Global,
    array: &ArrayBase<S, D>,
    other: &ArrayBase<Z, E>,
) -> Result<Array<A, D>, NoMemory>
    requires broadcasts { CanMeet array.now other.now }
    ensures products { IfOk result (IsOfBoth A.times array.now other.now) }
    ensures refused { OnErr result (0 < size_of (shape_of array.now)) }
{
    combined(alloc, array, other, Times)
}

/// Returns a new array with, at each index, the element of `array` divided by the element of `other`. `other` is
/// broadcast to the shape of `array`, which must be possible. No divisor may be the integer 0. Fails with `NoMemory` if
/// storage is refused. This is ndarray's `&array / &other`.
pub fn div<A: Arithmetic, S: Data<Elem = A>, D: Dimension, Z: Data<Elem = A>, E: Dimension>(
    alloc: Global,
    array: &ArrayBase<S, D>,
    other: &ArrayBase<Z, E>,
) -> Result<Array<A, D>, NoMemory>
    requires broadcasts { CanMeet array.now other.now }
    requires divisors { EachIsDivisor A.is_divisor (element_at other.now) }
    ensures quotients { IfOk result (IsOfBoth A.over array.now other.now) }
    ensures refused { OnErr result (0 < size_of (shape_of array.now)) }
{
    combined(alloc, array, other, Over)
}

/// Adds to each element of `array` the factor times the element of `other` at the same index. `other` is broadcast to
/// the shape of `array`, which must be possible. Floats are rounded after the product and again after the sum. It asks
/// for no memory. This is ndarray's `scaled_add`.
pub fn scaled_add<
    A: Arithmetic,
    S: DataMut<Elem = A>,
    D: Dimension,
    Z: Data<Elem = A>,
    E: Dimension,
>(array: &mut ArrayBase<S, D>, factor: A, other: &ArrayBase<Z, E>)
    requires broadcasts { CanMeet array.old other.now }
    ensures sums { BecomesBoth S.frame (λ x y. A.plus x (A.times factor y)) array.old other.now array.new }
{
    combine_with(array, other, PlusMultiple { factor });
}
