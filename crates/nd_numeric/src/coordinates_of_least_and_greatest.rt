//! The coordinates of the least and the greatest element of each lane of an axis.

ghost use Rattle.std.specs.Prelude.{◌≡◌, ◌<◌, IfOk, OnErr, length};
ghost use Rattle.nd_shape_and_slice.specs.ShapesAndIndexOrders.{size_of};
ghost use Rattle.nd_shape_and_slice.specs.LayoutIndexMaps.{indexed_shape};
ghost use Rattle.nd_array_core.specs.ConcatenationAndSplit.{row_major_elements};
ghost use Rattle.nd_array_core.specs.ArrayMeaning.{shape_of, element_at};
ghost use Rattle.nd_array_core.specs.along.AxisMaps.{lane_seen};
ghost use Rattle.nd_numeric.specs.IndexOfLeastAndGreatest.{beats_by, rank_of_best, AreBestPositions, AreFirstGreatest, AreFirstLeast};

use crate::index_of_least_and_greatest::best_rank;
use crate::types_identical_when_equal::Distinct;
use nd_array_core::{Array, ArrayBase, Data, LaneView};
use nd_shape_and_slice::{Axis, NoMemory, RemoveAxis};
use std::alloc::Global;

/// Returns the coordinate of the first greatest element of a lane if `greatest` is true, and otherwise that of the first
/// least element.
fn best_of_lane<A: Distinct>(lane: LaneView<'_, A>, greatest: bool) -> Option<usize>
    ensures { result ≡ rank_of_best (beats_by A.order greatest) (row_major_elements (lane_seen lane.entry)) }
{
    best_rank(&lane.into_view(), greatest)
}

/// Returns, for each lane of an axis, the coordinate of the first greatest element if `greatest` is true, and otherwise
/// that of the first least element.
fn best_of_lanes<A: Distinct, S: Data<Elem = A>, D: RemoveAxis>(
    alloc: Global,
    array: &ArrayBase<S, D>,
    axis: Axis,
    greatest: bool,
) -> Result<Array<Option<usize>, D::Smaller>, NoMemory>
    requires axis { axis.0 < length (shape_of array.now) }
    ensures shape { IfOk result (λ a. shape_of a ≡ indexed_shape (shape_of array.now) axis.0) }
    ensures best { IfOk result (λ a. AreBestPositions (beats_by A.order greatest) array.now axis.0 (element_at a)) }
    ensures refused { OnErr result (0 < size_of (indexed_shape (shape_of array.now) axis.0)) }
{
    array.map_axis(alloc, axis, |lane| best_of_lane(lane, greatest))
}

/// Returns, for each lane of an axis, the coordinate of its least element, or `None` for an empty lane. Of equal elements
/// it is the first. In the order of floats a NaN comes after all numbers, and -0 equals 0. The result doesn't have this
/// axis, and `axis` must be below `ndim`. Fails with `NoMemory` if storage is refused; a result without elements asks for
/// none. This is numpy's `argmin` with an axis; with ndarray-stats it is written with `map_axis`.
pub fn argmin_axis<A: Distinct, S: Data<Elem = A>, D: RemoveAxis>(
    alloc: Global,
    array: &ArrayBase<S, D>,
    axis: Axis,
) -> Result<Array<Option<usize>, D::Smaller>, NoMemory>
    requires axis { axis.0 < length (shape_of array.now) }
    ensures shape { IfOk result (λ a. shape_of a ≡ indexed_shape (shape_of array.now) axis.0) }
    ensures least { IfOk result (λ a. AreFirstLeast A.order array.now axis.0 (element_at a)) }
    ensures refused { OnErr result (0 < size_of (indexed_shape (shape_of array.now) axis.0)) }
{
    best_of_lanes(alloc, array, axis, false)
}

/// Returns, for each lane of an axis, the coordinate of its greatest element, or `None` for an empty lane. Of equal
/// elements it is the first. In the order of floats a NaN comes after all numbers, and -0 equals 0. The result doesn't
/// have this axis, and `axis` must be below `ndim`. Fails with `NoMemory` if storage is refused; a result without elements
/// asks for none. This is numpy's `argmax` with an axis; with ndarray-stats it is written with `map_axis`.
pub fn argmax_axis<A: Distinct, S: Data<Elem = A>, D: RemoveAxis>(
    alloc: Global,
    array: &ArrayBase<S, D>,
    axis: Axis,
) -> Result<Array<Option<usize>, D::Smaller>, NoMemory>
    requires axis { axis.0 < length (shape_of array.now) }
    ensures shape { IfOk result (λ a. shape_of a ≡ indexed_shape (shape_of array.now) axis.0) }
    ensures greatest { IfOk result (λ a. AreFirstGreatest A.order array.now axis.0 (element_at a)) }
    ensures refused { OnErr result (0 < size_of (indexed_shape (shape_of array.now) axis.0)) }
{
    best_of_lanes(alloc, array, axis, true)
}
