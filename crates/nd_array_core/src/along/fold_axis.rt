//! Folds of each lane of an axis into a value.
#![tactic(auto, unfolding(crate::specs::ArrayMeaning::meaning_of, crate::specs::ArrayMeaning::memory_layout_of))]

ghost use Rattle.std.specs.Prelude.{◌≡◌, ◌<◌, IfOk, OnErr, length};
ghost use Rattle.nd_shape_and_slice.specs.ShapesAndIndexOrders.{size_of};
ghost use Rattle.nd_shape_and_slice.specs.LayoutIndexMaps.{indexed_shape};
ghost use Rattle.nd_array_core.specs.ArrayMeaning.{shape_of, element_at};
ghost use Rattle.nd_elements.specs.EqualClones.{ClonesAreEqual};
ghost use Rattle.nd_array_core.specs.along.AxisFolds.{AxisFoldable, FoldsLanes, FoldsLanesAlike};

use crate::base::array::{Array, ArrayBase};
use crate::base::constructors::of_items;
use nd_elements::along::fold_axis::fold_lanes;
use nd_elements::along::lane_starts::first_places;
use nd_elements::along::lanes_from_layout::lanes_along;
use nd_elements::elements::to_vec::room_of;
use nd_elements::storage::Data;
use nd_shape_and_slice::{Axis, Dimension, NoMemory, Order, RemoveAxis, StrideList};
use std::alloc::Global;

impl<S: Data, D: RemoveAxis> ArrayBase<S, D> {
    /// Folds each lane of an axis into one value, and returns an array of these values, which has the shape without the
    /// axis. In each lane the total begins as a clone of `init`; the function is called with the total so far and each
    /// element, from coordinate 0 upwards. The order between lanes is unspecified, and calls for several lanes may
    /// alternate. Where the axis has length 0, each value is a clone of `init`. The axis must be below `ndim`, a clone
    /// must equal its original, and the function's own condition must hold at each of these calls. How the result lies
    /// in memory is unspecified. Fails with `NoMemory` if the storage or a clone is refused; if it is the storage, the
    /// function wasn't called. This is ndarray's `fold_axis`.
    pub fn fold_axis<B: Clone + Drop, F: FnMut(&B, &S::Elem) -> B>(
        &self,
        alloc: Global,
        axis: Axis,
        init: B,
        f: F,
    ) -> Result<Array<B, D::Smaller>, NoMemory>
        requires axis { axis.0 < length (shape_of self.now) }
        requires clones { ClonesAreEqual B.is_clone init }
        requires callable { AxisFoldable F.FnMut (shape_of self.now) (element_at self.now) axis.0 init f }
        ensures shape { IfOk result (λ a. shape_of a ≡ indexed_shape (shape_of self.now) axis.0) }
        ensures visits { IfOk result (λ a. FoldsLanes F.FnMut self.now axis.0 init f (element_at a)) }
        ensures alike { IfOk result (λ a. FoldsLanesAlike F.FnMut self.now axis.0 init f (element_at a)) }
        ensures refused { OnErr result (0 < size_of (indexed_shape (shape_of self.now) axis.0)) }
    {
        let firsts = first_places(&self.layout, axis);
        let lanes = lanes_along(&self.layout, axis, &firsts);
        let room = room_of(alloc, lanes.lanes)?;
        let items = fold_lanes(room, &self.storage, lanes, &init, f)?;
        Ok(of_items(items, firsts.dim, Order::RowMajor))
    }
}
