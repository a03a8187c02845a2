//! Calls that make one number of each lane of an axis: sums, products and means.

ghost use Rattle.std.specs.Prelude.{◌≡◌, ◌<◌, ◌↔◌, IfOk, OnErr, IfSome, IsNone, length, slice_index};
ghost use Rattle.nd_shape_and_slice.specs.ShapesAndIndexOrders.{size_of};
ghost use Rattle.nd_shape_and_slice.specs.LayoutIndexMaps.{indexed_shape};
ghost use Rattle.nd_array_core.specs.ArrayMeaning.{shape_of, element_at};
ghost use Rattle.nd_array_core.specs.base.NewArrays.{ClonesAreEqual};
ghost use Rattle.nd_numeric.specs.SumsProductsAndMeans.{AreLaneFolds, HasMeans, IfMade};

use crate::lanes_folded_together::{fold_by_coordinates, lie_across};
use nd_array_core::arithmetic::combine_with_scalar;
use nd_array_core::{Array, ArrayBase, Data};
use nd_numbers::{Arithmetic, Operation, Over, Plus, Times};
use nd_shape_and_slice::{Axis, NoMemory, RemoveAxis};
use std::alloc::Global;

/// Returns the array that has, for each lane of an axis, the lane's elements folded by `operation`.
pub(crate) fn fold_lanes<
    O: Operation<B, A> + Copy,
    B: Clone + Drop,
    A,
    S: Data<Elem = A>,
    D: RemoveAxis,
>(
    alloc: Global,
    array: &ArrayBase<S, D>,
    axis: Axis,
    operation: O,
    init: B,
) -> Result<Array<B, D::Smaller>, NoMemory>
    requires axis { axis.0 < length (shape_of array.now) }
    requires clones { ClonesAreEqual B.is_clone init }
    ensures shape { IfOk result (λ a. shape_of a ≡ indexed_shape (shape_of array.now) axis.0) }
    ensures folded { IfOk result (λ a. AreLaneFolds (O.gives operation) init array.now axis.0 (element_at a)) }
    ensures refused { OnErr result (0 < size_of (indexed_shape (shape_of array.now) axis.0)) }
{
    if lie_across(array, axis) {
        return fold_by_coordinates(alloc, array, axis, operation, init);
    }
    array.fold_axis(alloc, axis, init, |total, x| operation.apply(total, x))
}

/// Returns the sum of each lane of an axis: its elements are added to 0 one after another, from coordinate 0 on. The
/// result doesn't have this axis, and `axis` must be below `ndim`. Fails with `NoMemory` if storage is refused; a
/// result without elements asks for none. This is ndarray's `sum_axis`.
pub fn sum_axis<A: Arithmetic, S: Data<Elem = A>, D: RemoveAxis>(
    alloc: Global,
    array: &ArrayBase<S, D>,
    axis: Axis,
) -> Result<Array<A, D::Smaller>, NoMemory>
    requires axis { axis.0 < length (shape_of array.now) }
    ensures shape { IfOk result (λ a. shape_of a ≡ indexed_shape (shape_of array.now) axis.0) }
    ensures sums { IfOk result (λ a. AreLaneFolds A.plus A.zero array.now axis.0 (element_at a)) }
    ensures refused { OnErr result (0 < size_of (indexed_shape (shape_of array.now) axis.0)) }
{
    fold_lanes(alloc, array, axis, Plus, A::zero())
}

/// Returns the product of each lane of an axis: 1 is multiplied by its elements one after another, from coordinate 0
/// on. The result doesn't have this axis, and `axis` must be below `ndim`. Fails with `NoMemory` if storage is refused;
/// a result without elements asks for none. This is ndarray's `product_axis`.
pub fn product_axis<A: Arithmetic, S: Data<Elem = A>, D: RemoveAxis>(
    alloc: Global,
    array: &ArrayBase<S, D>,
    axis: Axis,
) -> Result<Array<A, D::Smaller>, NoMemory>
    requires axis { axis.0 < length (shape_of array.now) }
    ensures shape { IfOk result (λ a. shape_of a ≡ indexed_shape (shape_of array.now) axis.0) }
    ensures products { IfOk result (λ a. AreLaneFolds A.times A.one array.now axis.0 (element_at a)) }
    ensures refused { OnErr result (0 < size_of (indexed_shape (shape_of array.now) axis.0)) }
{
    fold_lanes(alloc, array, axis, Times, A::one())
}

/// Returns the sum of each lane of an axis divided by `count`, which is the length of the axis.
fn means_of<A: Arithmetic, S: Data<Elem = A>, D: RemoveAxis>(
    alloc: Global,
    array: &ArrayBase<S, D>,
    axis: Axis,
    count: usize,
) -> Result<Array<A, D::Smaller>, NoMemory>
    requires axis { axis.0 < length (shape_of array.now) }
    requires count { count ≡ slice_index (shape_of array.now) axis.0 }
    ensures shape { IfOk result (λ a. shape_of a ≡ indexed_shape (shape_of array.now) axis.0) }
    ensures means { IfOk result (HasMeans A.plus A.over A.zero A.of_count array.now axis.0) }
    ensures refused { OnErr result (0 < size_of (indexed_shape (shape_of array.now) axis.0)) }
{
    match sum_axis(alloc, array, axis) {
        Ok(sums) => {
            let mut means = sums;
            combine_with_scalar(&mut means, A::of_count(count), Over);
            Ok(means)
        }
        Err(refusal) => Err(refusal),
    }
}

/// Returns the mean of each lane of an axis: its sum, as `sum_axis` returns it, divided by the lane's length. Returns
/// `None` if the axis has length 0. The result doesn't have this axis, and `axis` must be below `ndim`. Fails with
/// `NoMemory` if storage is refused; a result without elements asks for none. This is ndarray's `mean_axis`.
pub fn mean_axis<A: Arithmetic, S: Data<Elem = A>, D: RemoveAxis>(
    alloc: Global,
    array: &ArrayBase<S, D>,
    axis: Axis,
) -> Option<Result<Array<A, D::Smaller>, NoMemory>>
    requires axis { axis.0 < length (shape_of array.now) }
    ensures none { IsNone result ↔ (slice_index (shape_of array.now) axis.0 ≡ 0) }
    ensures shape { IfMade result (λ a. shape_of a ≡ indexed_shape (shape_of array.now) axis.0) }
    ensures means { IfMade result (HasMeans A.plus A.over A.zero A.of_count array.now axis.0) }
    ensures refused { IfSome result (λ made. OnErr made (0 < size_of (indexed_shape (shape_of array.now) axis.0))) }
{
    let count = array.len_of(axis);
    if count == 0 {
        return None;
    }
    Some(means_of(alloc, array, axis, count))
}
