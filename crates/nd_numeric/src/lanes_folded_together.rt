//! Folds of all lanes of an axis together: the elements at one coordinate are taken before those at the next.

ghost use Rattle.std.specs.Prelude.{◌≡◌, ◌+◌, ◌<◌, IfOk, OnErr, length, slice_index};
ghost use Rattle.nd_shape_and_slice.specs.ShapesAndIndexOrders.{size_of};
ghost use Rattle.nd_shape_and_slice.specs.LayoutIndexMaps.{indexed_shape};
ghost use Rattle.nd_array_core.specs.ArrayMeaning.{shape_of, element_at};
ghost use Rattle.nd_array_core.specs.base.NewArrays.{ClonesAreEqual};
ghost use Rattle.nd_numeric.specs.SumsProductsAndMeans.{AreLaneFolds, AreFoldsBelow, CombinesWithPart};

use nd_array_core::arithmetic::combine_with;
use nd_array_core::laws::{broadcast_to_itself, elements_by_rank, shape_is_checked};
use nd_array_core::{Array, ArrayBase, Data};
use nd_numbers::Operation;
use nd_shape_and_slice::{Axis, Dimension, NoMemory, RemoveAxis};
use std::alloc::Global;

/// The fewest lanes for which it pays to fold them together, since that takes a call over arrays for each coordinate.
/// Not measured by itself.
const FEWEST_LANES_FOLDED_TOGETHER: usize = 128;

/// Returns whether one of `strides` has a smaller magnitude than `stride`.
fn has_shorter(strides: &[isize], stride: isize) -> bool {
    for other in strides {
        if other.unsigned_abs() < stride.unsigned_abs() {
            return true;
        }
    }
    false
}

/// Returns whether `first`, the part of an array at one coordinate of an axis, has many elements, which aren't contiguous
/// and lie nearer to each other than `stride`, the stride of the axis.
fn begin_across<S: Data, D: Dimension>(first: &ArrayBase<S, D>, stride: isize) -> bool {
    first.len() >= FEWEST_LANES_FOLDED_TOGETHER
        && !first.is_standard_layout()
        && has_shorter(first.strides(), stride)
}

/// Returns whether the lanes of an axis are many, lie nearer to each other than the elements of a lane do, and don't
/// begin at contiguous places. Where they do, `fold_axis` takes them together itself.
pub(crate) fn lie_across<S: Data, D: RemoveAxis>(array: &ArrayBase<S, D>, axis: Axis) -> bool
    requires { axis.0 < length (shape_of array.now) }
{
    if array.len_of(axis) == 0 {
        return false;
    }
    begin_across(&array.index_axis(axis, 0), array.stride_of(axis))
}

/// Returns an array with a clone of `init` for each lane of an axis.
fn starts<B: Clone + Drop, A, S: Data<Elem = A>, D: RemoveAxis>(
    alloc: Global,
    array: &ArrayBase<S, D>,
    axis: Axis,
    init: B,
) -> Result<Array<B, D::Smaller>, NoMemory>
    requires axis { axis.0 < length (shape_of array.now) }
    requires clones { ClonesAreEqual B.is_clone init }
    ensures shape { IfOk result (λ a. shape_of a ≡ indexed_shape (shape_of array.now) axis.0) }
    ensures folded { IfOk result (λ a. (h : B → A → B) → AreFoldsBelow h init array.now axis.0 0 (element_at a)) }
    ensures refused { OnErr result (0 < size_of (indexed_shape (shape_of array.now) axis.0)) }
{
    shape_is_checked(array);
    Array::from_elem(alloc, array.raw_dim().remove_axis(axis), init)
}

/// Applies `operation` to each total and the element of `part` at the same index, and writes the result over the total.
fn take_part<O: Operation<B, A>, B: Drop, A, S: Data<Elem = A>, E: Dimension>(
    totals: &mut Array<B, E>,
    part: &ArrayBase<S, E>,
    operation: O,
)
    requires { shape_of totals.old ≡ shape_of part.now }
    ensures shape { shape_of totals.new ≡ shape_of totals.old }
    ensures taken { CombinesWithPart (O.gives operation) totals.old part.now totals.new }
{
    broadcast_to_itself(part);
    combine_with(totals, part, operation);
}

/// Applies `operation` to the total of each lane of an axis and the lane's element at `coordinate`, and writes the result
/// over the total.
fn take_coordinate<O: Operation<B, A>, B: Drop, A, S: Data<Elem = A>, D: RemoveAxis>(
    totals: &mut Array<B, D::Smaller>,
    array: &ArrayBase<S, D>,
    axis: Axis,
    coordinate: usize,
    operation: O,
)
    requires axis { axis.0 < length (shape_of array.now) }
    requires within { coordinate < slice_index (shape_of array.now) axis.0 }
    requires shape { shape_of totals.old ≡ indexed_shape (shape_of array.now) axis.0 }
    ensures shape { shape_of totals.new ≡ shape_of totals.old }
    ensures folded { (first : B) → AreFoldsBelow (O.gives operation) first array.now axis.0 coordinate (element_at totals.old) → AreFoldsBelow (O.gives operation) first array.now axis.0 (coordinate + 1) (element_at totals.new) }
{
    let part = array.index_axis(axis, coordinate);
    elements_by_rank(&part);
    take_part(totals, &part, operation);
}

/// Returns the array that has, for each lane of an axis, the lane's elements folded by `operation`.
pub(crate) fn fold_by_coordinates<
    O: Operation<B, A> + Copy,
    B: Clone + Drop,
    A,
    S: Data<Elem = A>,
    D: RemoveAxis,
>(
    alloc: Global,
    array: &ArrayBase<S, D>,
    axis: Axis,
    operation: O,
    init: B,
) -> Result<Array<B, D::Smaller>, NoMemory>
    requires axis { axis.0 < length (shape_of array.now) }
    requires clones { ClonesAreEqual B.is_clone init }
    ensures shape { IfOk result (λ a. shape_of a ≡ indexed_shape (shape_of array.now) axis.0) }
    ensures folded { IfOk result (λ a. AreLaneFolds (O.gives operation) init array.now axis.0 (element_at a)) }
    ensures refused { OnErr result (0 < size_of (indexed_shape (shape_of array.now) axis.0)) }
{
    match starts(alloc, array, axis, init) {
        Ok(starts) => {
            let mut totals = starts;
            for coordinate in 0..array.len_of(axis) {
                take_coordinate(&mut totals, array, axis, coordinate, operation);
            }
            Ok(totals)
        }
        Err(refusal) => Err(refusal),
    }
}
