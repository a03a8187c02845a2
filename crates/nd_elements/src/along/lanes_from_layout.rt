//! The lanes of an axis of a layout, given a second layout of the places where they begin.

ghost use Rattle.std.specs.Prelude.{◌≡◌, ◌<◌, length, slice_index, IsTrue};
ghost use Rattle.nd_shape_and_slice.specs.ShapesAndIndexOrders.{in_box, size_of};
ghost use Rattle.nd_shape_and_slice.specs.LayoutIndexMaps.{indexed_shape, collapsed_shape, collapsed_index};
ghost use Rattle.nd_layout.specs.LayoutStepsOfCalls.{placement_of, IsStepOf, KeepsApart};
ghost use Rattle.nd_elements.specs.along.AxisLanes.{IsFirstOfLanes, AreChecked, LanesDiffer, LieAlong, LieThrough, IsLaneThrough};
ghost use Rattle.nd_elements.specs.along.PlacesOfAxisLanes.{lanes_in};

use crate::along::axis_lanes::AxisLanes;
use crate::along::lane_starts::{first_places, lane_from};
use nd_layout::{Lane, Layout, stride_at};
use nd_shape_and_slice::{Axis, Dimension, RemoveAxis, StrideList};

/// Returns the lanes of `layout` along `axis`. `firsts` is a layout without that axis, of the places where they begin.
pub fn lanes_along<'a, D: Dimension, T: StrideList, E: Dimension, U: StrideList>(
    layout: &Layout<D, T>,
    axis: Axis,
    firsts: &'a Layout<E, U>,
) -> AxisLanes<'a>
    requires axis { axis.0 < length (D.lengths layout.now.dim) }
    requires lengths { E.lengths firsts.now.dim ≡ indexed_shape (D.lengths layout.now.dim) axis.0 }
    requires step { IsFirstOfLanes axis.0 (placement_of layout.now) (placement_of firsts.now) }
    ensures along { LieAlong axis.0 (placement_of layout.now) (lanes_in result) }
    ensures apart { KeepsApart (placement_of layout.now) → LanesDiffer (lanes_in result) }
    ensures lanes { result.lanes ≡ size_of (E.lengths firsts.now.dim) }
{
    let stride = stride_at(layout.strides.slice(), axis.0);
    AxisLanes::new(firsts, layout.dim.length(axis.0), stride)
}

/// Returns the lane of `layout` along `axis` through `index`, which has a coordinate for each other axis.
pub fn lane_at<D: RemoveAxis, T: StrideList>(
    layout: &Layout<D, T>,
    axis: Axis,
    index: &[usize],
) -> Lane
    requires axis { axis.0 < length (D.lengths layout.now.dim) }
    requires within { IsTrue (in_box (indexed_shape (D.lengths layout.now.dim) axis.0) index.now) }
    ensures lane { IsLaneThrough axis.0 (placement_of layout.now) index.now result }
{
    let firsts = first_places(layout, axis);
    let place = firsts.place_in_box(index);
    let count = layout.dim.length(axis.0);
    let stride = stride_at(layout.strides.slice(), axis.0);
    lane_from(place, count, stride)
}

/// Returns a layout of the places where the lanes along `axis` begin. It keeps the axis, with length 1.
pub fn first_of_each<D: Dimension, T: StrideList>(layout: &Layout<D, T>, axis: Axis) -> Layout<D, T>
    requires axis { axis.0 < length (D.lengths layout.now.dim) }
    requires some { 0 < slice_index (D.lengths layout.now.dim) axis.0 }
    ensures lengths { D.lengths result.dim ≡ collapsed_shape (D.lengths layout.now.dim) axis.0 }
    ensures step { IsStepOf (placement_of layout.now) (placement_of result) (collapsed_index axis.0 0) }
{
    let mut firsts = layout.copied();
    firsts.collapse_axis(axis.0, 0);
    firsts
}

/// Returns the lanes of `layout` along `axis`. `firsts` is a layout of the places where they begin, which keeps the
/// axis, with length 1.
pub fn lanes_through<'a, D: Dimension, T: StrideList>(
    layout: &Layout<D, T>,
    axis: Axis,
    firsts: &'a Layout<D, T>,
) -> AxisLanes<'a>
    requires axis { axis.0 < length (D.lengths layout.now.dim) }
    requires lengths { D.lengths firsts.now.dim ≡ collapsed_shape (D.lengths layout.now.dim) axis.0 }
    requires step { IsStepOf (placement_of layout.now) (placement_of firsts.now) (collapsed_index axis.0 0) }
    ensures through { LieThrough axis.0 (placement_of layout.now) (lanes_in result) }
    ensures apart { KeepsApart (placement_of layout.now) → LanesDiffer (lanes_in result) }
    ensures checked { AreChecked (lanes_in result) }
{
    let stride = stride_at(layout.strides.slice(), axis.0);
    AxisLanes::new(firsts, layout.dim.length(axis.0), stride)
}
