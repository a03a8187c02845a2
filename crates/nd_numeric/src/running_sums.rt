//! Running sums.

ghost use Rattle.std.specs.Prelude.{◌≡◌, ◌<◌, IfOk, OnErr, length};
ghost use Rattle.nd_shape_and_slice.specs.ShapesAndIndexOrders.{size_of};
ghost use Rattle.nd_array_core.specs.ArrayMeaning.{shape_of, element_at};
ghost use Rattle.nd_array_core.specs.Prelude.{AreAccumulatedBy};
ghost use Rattle.nd_numeric.specs.SumsProductsAndMeans.{BeginsAsIn};

use nd_array_core::{Array, ArrayBase, Data};
use nd_numbers::Arithmetic;
use nd_shape_and_slice::{Axis, Dimension, NoMemory};
use std::alloc::Global;

/// Returns the running sums of each lane of an axis: the first element as it is, and each next element added to the sum
/// before it. `axis` must be below `ndim`. Fails with `NoMemory` if storage is refused. With ndarray it is written with
/// `accumulate_axis_inplace`.
pub fn cumsum<A: Arithmetic, S: Data<Elem = A>, D: Dimension>(
    alloc: Global,
    array: &ArrayBase<S, D>,
    axis: Axis,
) -> Result<Array<A, D>, NoMemory>
    requires axis { axis.0 < length (shape_of array.now) }
    ensures shape { IfOk result (λ sums. shape_of sums ≡ shape_of array.now) }
    ensures first { IfOk result (BeginsAsIn array.now axis.0) }
    ensures sums { IfOk result (λ sums. AreAccumulatedBy A.plus axis.0 (element_at array.now) (element_at sums)) }
    ensures refused { OnErr result (0 < size_of (shape_of array.now)) }
{
    let mut sums = array.to_owned(alloc)?;
    sums.accumulate_axis_inplace(axis, |sum, x| *x = sum.plus(*x));
    Ok(sums)
}
