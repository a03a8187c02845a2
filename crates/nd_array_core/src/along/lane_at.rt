//! One lane of an axis.
#![tactic(auto, unfolding(crate::specs::ArrayMeaning::meaning_of, crate::specs::ArrayMeaning::memory_layout_of, crate::specs::along::AxisMaps::lane_seen))]

ghost use Rattle.std.specs.Prelude.{◌≡◌, ◌<◌, length, IsTrue};
ghost use Rattle.nd_shape_and_slice.specs.LayoutIndexMaps.{indexed_shape};
ghost use Rattle.nd_shape_and_slice.specs.ShapesAndIndexOrders.{in_box};
ghost use Rattle.nd_array_core.specs.ArrayMeaning.{meaning_of, shape_of};
ghost use Rattle.nd_array_core.specs.along.AxisMaps.{lane_of, lane_seen};

use crate::along::lane_view::LaneView;
use crate::base::array::ArrayBase;
use nd_elements::along::lanes_from_layout;
use nd_elements::storage::Data;
use nd_shape_and_slice::{Axis, Dimension, NdIndex, RemoveAxis};

impl<S: Data, D: RemoveAxis> ArrayBase<S, D> {
    /// Returns one lane of an axis: the elements whose coordinates on all other axes are those of the index.
    /// `LaneView::element` reads it by number, and `into_view` makes it a view with one axis. Nothing is copied. The
    /// axis must be below `ndim`, and the index must lie in the shape without the axis. It is what ndarray's
    /// `lanes(axis)` has at that index.
    pub fn lane_at<I: NdIndex<D::Smaller>>(&self, axis: Axis, index: I) -> LaneView<'_, S::Elem>
        requires axis { axis.0 < length (shape_of self.now) }
        requires within { IsTrue (in_box (indexed_shape (shape_of self.now) axis.0) (I.coordinates_of index)) }
        ensures lane { lane_seen result ≡ lane_of (meaning_of self.now) axis.0 (I.coordinates_of index) }
    {
        let lane = lanes_from_layout::lane_at(&self.layout, axis, index.coordinates().slice());
        LaneView::over(self.storage.borrowed(), lane)
    }
}
