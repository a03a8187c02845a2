//! New arrays of what a closure returns for each lane of an axis, which it may write.
#![tactic(auto, unfolding(crate::specs::ArrayMeaning::meaning_of, crate::specs::ArrayMeaning::memory_layout_of))]

ghost use Rattle.std.specs.Prelude.{◌≡◌, ◌<◌, ℕ, IfOk, IfErr, length, List, OnOk, OnErr, Some};
ghost use Rattle.nd_shape_and_slice.specs.ShapesAndIndexOrders.{size_of};
ghost use Rattle.nd_shape_and_slice.specs.LayoutIndexMaps.{indexed_shape};
ghost use Rattle.nd_array_core.specs.along.LanesOfArrayWritten.{KeepsLanes, HandableLanes, HandsOutLanes, LeavesLanesAlike, AnswersLanesAlike};

use crate::base::array::{Array, ArrayBase};
use crate::base::constructors::of_items;
use nd_elements::along::lane_mut::LaneMut;
use nd_elements::along::lane_starts::first_places;
use nd_elements::along::lanes_from_layout::lanes_along;
use nd_elements::along::map_axis_mut::{answer_lanes, hand_lanes};
use nd_elements::elements::to_vec::room_of;
use nd_elements::storage::DataMut;
use nd_shape_and_slice::{Axis, Dimension, NoMemory, Order, RemoveAxis, StrideList};
use std::alloc::Global;

impl<S: DataMut, D: RemoveAxis> ArrayBase<S, D> {
    ghost use Rattle.nd_array_core.specs.ArrayMeaning.{meaning_of, shape_of, element_at};
    ghost use Rattle.nd_array_core.specs.base.ArrayWrites.{KeepsFrame};

    /// Calls the function with each lane of an axis, which it may write, and returns an array of what it returned,
    /// which has the shape without the axis. The function is called once for each lane, in an unspecified order. Where
    /// the axis has length 0, each lane is empty. The axis must be below `ndim`. The function must not put another lane
    /// in the place of the one that it is called with, and its own condition must hold at each of these calls. How the
    /// result lies in memory is unspecified. Fails with `NoMemory` if the storage is refused; the function then wasn't
    /// called. This is ndarray's `map_axis_mut`.
    pub fn map_axis_mut<B, F: FnMut(&mut LaneMut<'_, S::Elem>) -> B>(
        &mut self,
        alloc: Global,
        axis: Axis,
        f: F,
    ) -> Result<Array<B, D::Smaller>, NoMemory>
        requires axis { axis.0 < length (shape_of self.old) }
        requires keeps { KeepsLanes F.FnMut }
        requires callable { HandableLanes F.FnMut (meaning_of self.old) axis.0 f }
        ensures shape { IfOk result (λ a. shape_of a ≡ indexed_shape (shape_of self.old) axis.0) }
        ensures visits { IfOk result (λ a. HandsOutLanes F.FnMut axis.0 f self.old self.new (element_at a)) }
        ensures alike { OnOk result (LeavesLanesAlike F.FnMut axis.0 f (meaning_of self.old) (element_at self.new)) }
        ensures answered { IfOk result (λ a. AnswersLanesAlike F.FnMut axis.0 f (meaning_of self.old) (element_at a)) }
        ensures refused { OnErr result (0 < size_of (indexed_shape (shape_of self.old) axis.0)) }
        ensures kept { IfErr result (λ _. (i : List ℕ) → element_at self.new i ≡ element_at self.old i) }
        ensures frame { KeepsFrame S.frame self.old self.new }
    {
        let firsts = first_places(&self.layout, axis);
        let lanes = lanes_along(&self.layout, axis, &firsts);
        let room = room_of(alloc, lanes.lanes)?;
        let (_f, items) = answer_lanes(room, &mut self.storage, lanes, f);
        Ok(of_items(items, firsts.dim, Order::RowMajor))
    }
    /// Calls the function with each lane of an axis, which it may write. It is called once for each lane, in an
    /// unspecified order. Where the axis has length 0, each lane is empty. The axis must be below `ndim`. The function
    /// must not put another lane in the place of the one that it is called with, and its own condition must hold at
    /// each of these calls. It takes no memory. ndarray has `lanes_mut(axis)` with `for_each`.
    pub fn for_each_lane_mut<F: FnMut(&mut LaneMut<'_, S::Elem>)>(&mut self, axis: Axis, f: F)
        requires axis { axis.0 < length (shape_of self.old) }
        requires keeps { KeepsLanes F.FnMut }
        requires callable { HandableLanes F.FnMut (meaning_of self.old) axis.0 f }
        ensures visits { HandsOutLanes F.FnMut axis.0 f self.old self.new (λ _. Some tt) }
        ensures alike { LeavesLanesAlike F.FnMut axis.0 f (meaning_of self.old) (element_at self.new) }
        ensures frame { KeepsFrame S.frame self.old self.new }
    {
        let firsts = first_places(&self.layout, axis);
        let lanes = lanes_along(&self.layout, axis, &firsts);
        hand_lanes(&mut self.storage, lanes, f);
    }
}
