//! How far the elements of an array, or of each lane of an axis, lie from their mean: variances and standard deviations.

ghost use Rattle.std.specs.Prelude.{◌≡◌, ◌↔◌, ◌<◌, ◌≤◌, IsNone, IfSome, IfOk, OnErr, length, slice_index};
ghost use Rattle.nd_shape_and_slice.specs.ShapesAndIndexOrders.{size_of};
ghost use Rattle.nd_shape_and_slice.specs.LayoutIndexMaps.{indexed_shape};
ghost use Rattle.nd_array_core.specs.ArrayMeaning.{shape_of, element_at};
ghost use Rattle.nd_array_core.specs.along.AxisMaps.{lane_seen};
ghost use Rattle.nd_numeric.specs.SumsProductsAndMeans.{folded_in_order, IfMade};
ghost use Rattle.nd_numeric.specs.Variances.{root_if, variance_in, variance_of_all, with_square, AreOfVariances, HasRoots, HasVariances, IsRootOfVariance, IsVarianceOf};

use crate::float_square_roots::Real;
use crate::folds_in_order::fold_in_order;
use crate::sums_of_all_elements::sum;
use nd_array_core::{Array, ArrayBase, Data, LaneView};
use nd_numbers::{Arithmetic, Operation};
use nd_shape_and_slice::{Axis, Dimension, NoMemory, RemoveAxis};
use std::alloc::Global;

/// The operation that adds the square of the distance of the right number from `mean` to the left number.
#[derive(Drop)]
struct PlusSquare<A> {
    mean: A,
}

impl<A: Arithmetic> Operation<A, A> for PlusSquare<A> {
    ghost gives = { λ operation total x. with_square A.plus A.minus A.times operation.mean total x };

    #[inline]
    fn apply(&self, total: &A, x: &A) -> A {
        let distance = x.minus(self.mean);
        total.plus(distance.times(distance))
    }
}

/// Returns the squares of the distances of all elements from `mean`, added to 0 one after another in row-major order.
fn squares_from<A: Real, S: Data<Elem = A>, D: Dimension>(array: &ArrayBase<S, D>, mean: A) -> A
    ensures { result ≡ folded_in_order (with_square A.plus A.minus A.times mean) A.zero array.now }
{
    fold_in_order(array, PlusSquare { mean }, A::zero())
}

/// Returns the variance of all elements, of which there must be more than `ddof`.
fn variance<A: Real, S: Data<Elem = A>, D: Dimension>(array: &ArrayBase<S, D>, ddof: usize) -> A
    requires { ddof < size_of (shape_of array.now) }
    ensures { result ≡ variance_of_all A.plus A.minus A.times A.over A.zero A.of_count ddof array.now }
{
    let count = array.len();
    let mean = sum(array).over(A::of_count(count));
    squares_from(array, mean).over(A::of_count(count - ddof))
}

/// Returns the variance of all elements, or `None` if there are no more than `ddof` of them. It is the sum of the
/// squares of their distances from their mean, divided by their number less `ddof`; both sums go in row-major order,
/// whatever the layout. `ddof`, the delta degrees of freedom, is 0 for the variance of a population and 1 for that of a
/// sample. This is ndarray's `var`, which takes `ddof` as a float and computes in one pass.
pub fn var<A: Real, S: Data<Elem = A>, D: Dimension>(
    array: &ArrayBase<S, D>,
    ddof: usize,
) -> Option<A>
    ensures none { IsNone result ↔ (size_of (shape_of array.now) ≤ ddof) }
    ensures variance { IfSome result (IsVarianceOf A.plus A.minus A.times A.over A.zero A.of_count ddof array.now) }
{
    if array.len() <= ddof {
        return None;
    }
    Some(variance(array, ddof))
}

/// Returns the standard deviation of all elements, which is the square root of their variance as `var` returns it, or
/// `None` if there are no more than `ddof` of them. This is ndarray's `std`.
pub fn std<A: Real, S: Data<Elem = A>, D: Dimension>(
    array: &ArrayBase<S, D>,
    ddof: usize,
) -> Option<A>
    ensures none { IsNone result ↔ (size_of (shape_of array.now) ≤ ddof) }
    ensures root { IfSome result (IsRootOfVariance A.plus A.minus A.times A.over A.zero A.of_count A.root ddof array.now) }
{
    if array.len() <= ddof {
        return None;
    }
    Some(variance(array, ddof).root())
}

/// Returns the variance of a lane if `is_root` is false, and otherwise its square root.
fn spread_of_lane<A: Real>(lane: LaneView<'_, A>, ddof: usize, is_root: bool) -> A
    requires { ddof < size_of (lane_seen lane).shape }
    ensures { result ≡ root_if A.root is_root (variance_in A.plus A.minus A.times A.over A.zero A.of_count ddof (lane_seen lane.entry)) }
{
    let variance = variance(&lane.into_view(), ddof);
    if is_root { variance.root() } else { variance }
}

/// Returns the variance of each lane of an axis if `is_root` is false, and otherwise its square root. The axis must be
/// longer than `ddof`.
fn spreads_of<A: Real, S: Data<Elem = A>, D: RemoveAxis>(
    alloc: Global,
    array: &ArrayBase<S, D>,
    axis: Axis,
    ddof: usize,
    is_root: bool,
) -> Result<Array<A, D::Smaller>, NoMemory>
    requires axis { axis.0 < length (shape_of array.now) }
    requires enough { ddof < slice_index (shape_of array.now) axis.0 }
    ensures shape { IfOk result (λ a. shape_of a ≡ indexed_shape (shape_of array.now) axis.0) }
    ensures spreads { IfOk result (λ a. AreOfVariances A.plus A.minus A.times A.over A.zero A.of_count (root_if A.root is_root) ddof array.now axis.0 (element_at a)) }
    ensures refused { OnErr result (0 < size_of (indexed_shape (shape_of array.now) axis.0)) }
{
    array.map_axis(alloc, axis, |lane| spread_of_lane(lane, ddof, is_root))
}

/// Returns the variance of each lane of an axis: that of its elements, as `var` returns it. Returns `None` if the axis
/// is no longer than `ddof`. The result doesn't have this axis, and `axis` must be below `ndim`. Fails with `NoMemory`
/// if storage is refused; a result without elements asks for none. This is ndarray's `var_axis`.
pub fn var_axis<A: Real, S: Data<Elem = A>, D: RemoveAxis>(
    alloc: Global,
    array: &ArrayBase<S, D>,
    axis: Axis,
    ddof: usize,
) -> Option<Result<Array<A, D::Smaller>, NoMemory>>
    requires axis { axis.0 < length (shape_of array.now) }
    ensures none { IsNone result ↔ (slice_index (shape_of array.now) axis.0 ≤ ddof) }
    ensures shape { IfMade result (λ a. shape_of a ≡ indexed_shape (shape_of array.now) axis.0) }
    ensures variances { IfMade result (HasVariances A.plus A.minus A.times A.over A.zero A.of_count ddof array.now axis.0) }
    ensures refused { IfSome result (λ made. OnErr made (0 < size_of (indexed_shape (shape_of array.now) axis.0))) }
{
    if array.len_of(axis) <= ddof {
        return None;
    }
    Some(spreads_of(alloc, array, axis, ddof, false))
}

/// Returns the standard deviation of each lane of an axis: that of its elements, as `std` returns it. Returns `None` if
/// the axis is no longer than `ddof`. The result doesn't have this axis, and `axis` must be below `ndim`. Fails with
/// `NoMemory` if storage is refused; a result without elements asks for none. This is ndarray's `std_axis`.
pub fn std_axis<A: Real, S: Data<Elem = A>, D: RemoveAxis>(
    alloc: Global,
    array: &ArrayBase<S, D>,
    axis: Axis,
    ddof: usize,
) -> Option<Result<Array<A, D::Smaller>, NoMemory>>
    requires axis { axis.0 < length (shape_of array.now) }
    ensures none { IsNone result ↔ (slice_index (shape_of array.now) axis.0 ≤ ddof) }
    ensures shape { IfMade result (λ a. shape_of a ≡ indexed_shape (shape_of array.now) axis.0) }
    ensures roots { IfMade result (HasRoots A.plus A.minus A.times A.over A.zero A.of_count A.root ddof array.now axis.0) }
    ensures refused { IfSome result (λ made. OnErr made (0 < size_of (indexed_shape (shape_of array.now) axis.0))) }
{
    if array.len_of(axis) <= ddof {
        return None;
    }
    Some(spreads_of(alloc, array, axis, ddof, true))
}
