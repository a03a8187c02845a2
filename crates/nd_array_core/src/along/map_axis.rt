//! New arrays of what a closure returns for each lane of an axis.
#![tactic(auto, unfolding(crate::specs::ArrayMeaning::meaning_of, crate::specs::ArrayMeaning::memory_layout_of))]

ghost use Rattle.std.specs.Prelude.{◌≡◌, ◌<◌, ◌≤◌, [], IfOk, OnErr, length, slice_index, vec_len, vec_capacity};
ghost use Rattle.nd_shape_and_slice.specs.ShapesAndIndexOrders.{size_of};
ghost use Rattle.nd_shape_and_slice.specs.LayoutIndexMaps.{indexed_shape};
ghost use Rattle.nd_layout.specs.LayoutStepsOfCalls.{placement_of};
ghost use Rattle.nd_array_core.specs.ArrayMeaning.{meaning_of, shape_of, element_at};
ghost use Rattle.nd_elements.specs.along.AxisLanes.{LieAlong};
ghost use Rattle.nd_elements.specs.along.PlacesOfAxisLanes.{lanes_in};
ghost use Rattle.nd_array_core.specs.along.AxisMaps.{AskableOfLanes, HasAnswersOfLanes, ListsAnswersOfLanes, MapsLanesAlike};

use crate::along::lane_view::LaneView;
use crate::base::array::{Array, ArrayBase};
use crate::base::constructors::of_items;
use nd_elements::along::axis_lanes::AxisLanes;
use nd_elements::along::lane_starts::first_places;
use nd_elements::along::lanes_from_layout::lanes_along;
use nd_elements::elements::to_vec::room_of;
use nd_elements::storage::Data;
use nd_shape_and_slice::{Axis, Dimension, NoMemory, Order, RemoveAxis, StrideList};
use std::alloc::Global;

/// Calls `f` with each lane of `axis`, and returns a vector of what it returned, in row-major order of the indexes of
/// the other axes. `lanes` are the lanes of `axis`, and `room` must be empty and have capacity for all results.
fn map_lanes<S: Data, D: RemoveAxis, B, F: FnMut(LaneView<'_, S::Elem>) -> B>(
    room: Vec<B>,
    array: &ArrayBase<S, D>,
    axis: Axis,
    lanes: AxisLanes<'_>,
    mut f: F,
) -> Vec<B>
    requires axis { axis.0 < length (shape_of array.now) }
    requires along { LieAlong axis.0 (placement_of array.now.layout) (lanes_in lanes) }
    requires empty { (room.items ≡ []) × (vec_len room ≡ 0) }
    requires room { size_of (indexed_shape (shape_of array.now) axis.0) ≤ vec_capacity room }
    requires callable { AskableOfLanes F.FnMut (meaning_of array.now) axis.0 f }
    ensures count { vec_len result ≡ size_of (indexed_shape (shape_of array.now) axis.0) }
    ensures visits { ListsAnswersOfLanes F.FnMut (meaning_of array.now) axis.0 f result.items }
{
    let mut turns = lanes.in_turn();
    let mut items = room;
    while let Some(lane) = turns.next() {
        let shown = LaneView::over(array.storage.borrowed(), lane);
        items.push_reserved(f(shown));
    }
    items
}

impl<S: Data, D: RemoveAxis> ArrayBase<S, D> {
    /// Calls the function with each lane of an axis, and returns an array of what it returned, which has the shape
    /// without the axis. The function is called once for each lane, in an unspecified order; `into_view` makes the lane
    /// a view with one axis. Where the axis has length 0, each lane is empty. The axis must be below `ndim`, and the
    /// function's own condition must hold at each of these calls. How the result lies in memory is unspecified. Fails
    /// with `NoMemory` if the storage is refused; the function then wasn't called. This is ndarray's `map_axis`.
    pub fn map_axis<B, F: FnMut(LaneView<'_, S::Elem>) -> B>(
        &self,
        alloc: Global,
        axis: Axis,
        f: F,
    ) -> Result<Array<B, D::Smaller>, NoMemory>
        requires axis { axis.0 < length (shape_of self.now) }
        requires callable { AskableOfLanes F.FnMut (meaning_of self.now) axis.0 f }
        ensures shape { IfOk result (λ a. shape_of a ≡ indexed_shape (shape_of self.now) axis.0) }
        ensures visits { IfOk result (λ a. HasAnswersOfLanes F.FnMut (meaning_of self.now) axis.0 f (element_at a)) }
        ensures alike { IfOk result (λ a. MapsLanesAlike F.FnMut (meaning_of self.now) axis.0 f (element_at a)) }
        ensures refused { OnErr result (0 < size_of (indexed_shape (shape_of self.now) axis.0)) }
    {
        let firsts = first_places(&self.layout, axis);
        let lanes = lanes_along(&self.layout, axis, &firsts);
        let room = room_of(alloc, lanes.lanes)?;
        let items = map_lanes(room, self, axis, lanes, f);
        Ok(of_items(items, firsts.dim, Order::RowMajor))
    }
}
