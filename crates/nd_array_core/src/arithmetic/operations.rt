//! Functions that apply an operation to each element of an array. All operators call them.

ghost use Rattle.std.specs.Prelude.{◌≡◌, ◌<◌, IfOk, OnErr};
ghost use Rattle.nd_shape_and_slice.specs.ShapesAndIndexOrders.{size_of};
ghost use Rattle.nd_array_core.specs.ArrayMeaning.{shape_of};
ghost use Rattle.nd_array_core.specs.arithmetic.ElementwiseArithmetic.{BecomesBoth, BecomesEach, CanMeet, IsOfBoth, IsOfEach};

use crate::base::array::{Array, ArrayBase};
use nd_elements::storage::{Data, DataMut};
use nd_numbers::{Arithmetic, Operation};
use nd_shape_and_slice::{Dimension, NoMemory};
use std::alloc::Global;

/// Replaces each element of `array` by what `operation` returns for it and the element of `other` at the same index.
/// `other` is broadcast to the shape of `array`, which must be possible. It takes no memory. ndarray has one operator
/// for each operation instead, such as `array += &other`.
pub fn combine_with<
    A: Drop,
    B,
    O: Operation<A, B>,
    S: DataMut<Elem = A>,
    D: Dimension,
    Z: Data<Elem = B>,
    E: Dimension,
>(array: &mut ArrayBase<S, D>, other: &ArrayBase<Z, E>, operation: O)
    requires { CanMeet array.old other.now }
    ensures { BecomesBoth S.frame (O.gives operation) array.old other.now array.new }
{
    array.zip_mut_with(other, |x, y| *x = operation.apply(x, y));
}

/// Replaces each element of `array` by what `operation` returns for it and `number`. It takes no memory. ndarray has
/// one operator for each operation instead, such as `array += number`.
pub fn combine_with_scalar<
    A: Drop,
    B: Drop,
    O: Operation<A, B>,
    S: DataMut<Elem = A>,
    D: Dimension,
>(array: &mut ArrayBase<S, D>, number: B, operation: O)
    ensures { BecomesEach S.frame (λ x. O.gives operation x number) array.old array.new }
{
    array.map_inplace(|x| *x = operation.apply(x, &number));
}

/// Returns `array` with each element replaced by what `operation` returns for it and the element of `other` at the same
/// index. `other` is broadcast to the shape of `array`, which must be possible.
pub(crate) fn with_each<
    A: Drop,
    B,
    O: Operation<A, B>,
    S: DataMut<Elem = A>,
    D: Dimension,
    Z: Data<Elem = B>,
    E: Dimension,
>(array: ArrayBase<S, D>, other: &ArrayBase<Z, E>, operation: O) -> ArrayBase<S, D>
    requires { CanMeet array other.now }
    ensures { BecomesBoth S.frame (O.gives operation) array other.now result }
{
    let mut array = array;
    combine_with(&mut array, other, operation);
    array
}

/// Returns `array` with each element replaced by what `operation` returns for it and `number`.
pub(crate) fn with_scalar<A: Drop, B: Drop, O: Operation<A, B>, S: DataMut<Elem = A>, D: Dimension>(
    array: ArrayBase<S, D>,
    number: B,
    operation: O,
) -> ArrayBase<S, D>
    ensures { BecomesEach S.frame (λ x. O.gives operation x number) array result }
{
    let mut array = array;
    combine_with_scalar(&mut array, number, operation);
    array
}

/// Returns a new array of what `operation` returns for each element of `array` and the element of `other` at the same
/// index. `other` is broadcast to the shape of `array`, which must be possible. How the result lies in memory is
/// unspecified. Fails with `NoMemory` if the storage is refused. It goes over the elements once. ndarray has one operator
/// for each operation instead, such as `&array + &other`.
pub fn combined<
    A: Drop,
    B,
    O: Operation<A, B>,
    S: Data<Elem = A>,
    D: Dimension,
    Z: Data<Elem = B>,
    E: Dimension,
>(
    alloc: Global,
    array: &ArrayBase<S, D>,
    other: &ArrayBase<Z, E>,
    operation: O,
) -> Result<Array<A, D>, NoMemory>
    requires { CanMeet array.now other.now }
    ensures combined { IfOk result (IsOfBoth (O.gives operation) array.now other.now) }
    ensures refused { OnErr result (0 < size_of (shape_of array.now)) }
{
    let made = array.zip_map(alloc, other, |x, y| operation.apply(x, y))?;
    Ok(made)
}

/// Returns a new array of what `operation` returns for each element of `array` and `number`. How the result lies in
/// memory is unspecified. Fails with `NoMemory` if the storage is refused. It goes over the elements once. ndarray has one
/// operator for each operation instead, such as `&array + number`.
pub fn combined_with_scalar<A: Drop, B: Drop, O: Operation<A, B>, S: Data<Elem = A>, D: Dimension>(
    alloc: Global,
    array: &ArrayBase<S, D>,
    number: B,
    operation: O,
) -> Result<Array<A, D>, NoMemory>
    ensures combined { IfOk result (IsOfEach (λ x. O.gives operation x number) array.now) }
    ensures refused { OnErr result (0 < size_of (shape_of array.now)) }
{
    let made = array.map(alloc, |x| operation.apply(x, &number))?;
    Ok(made)
}

/// Changes the sign of each element; unsigned integers wrap. It takes no memory. This is ndarray's `-array`.
pub fn negate<A: Arithmetic, S: DataMut<Elem = A>, D: Dimension>(array: &mut ArrayBase<S, D>)
    ensures negated { BecomesEach S.frame A.negated array.old array.new }
{
    array.map_inplace(|x| *x = x.negated());
}
