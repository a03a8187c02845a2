//! Layouts of fresh storage that can grow along an axis, and the order in which elements are moved there.

ghost use Rattle.std.specs.Prelude.{◌≡◌, ◌<◌, ◌-◌, false, length, pos};
ghost use Rattle.nd_shape_and_slice.specs.ShapesAndIndexOrders.{size_of, HasCheckedSize};
ghost use Rattle.nd_shape_and_slice.specs.PlacesAndOverlaps.{IsSeparated};
ghost use Rattle.nd_layout.specs.GrowthAlongAxis.{growing_strides, must_move, with_axis_first};
ghost use Rattle.nd_layout.specs.LayoutStepsOfCalls.{placement_of, IsGrowingOrderOf};

use crate::growing::grown_layout::size_of_others;
use crate::growing::memory_order_for_growth::growing_order;
use crate::layout::Layout;
use crate::layout::given_strides::strides_in;
use nd_shape_and_slice::{Dimension, StrideList};

impl<D: Dimension, T: StrideList> Layout<D, T> {
    /// Moves `axis` to the front; the other axes keep their order.
    fn move_to_front(&mut self, axis: usize)
        requires { axis < length (D.lengths self.old.dim) }
        ensures lengths { D.lengths self.new.dim ≡ with_axis_first 0 (D.lengths self.old.dim) axis }
        ensures strides { T.strides_of self.new.strides ≡ with_axis_first (pos 0) (T.strides_of self.old.strides) axis }
        ensures offset { self.new.offset ≡ self.old.offset }
    {
        let mut at = axis;
        while at > 0 {
            self.swap_axes(at - 1, at);
            at -= 1;
        }
    }

    /// Returns a layout of the same places, each once, with its axes permuted so that its row-major order is the order
    /// of the elements in fresh storage that can grow along `axis`.
    pub fn growing_order(&self, axis: usize) -> Self
        requires { axis < length (D.lengths self.now.dim) }
        ensures order { IsGrowingOrderOf axis (placement_of self.now) (placement_of result) }
    {
        let mut order = self.copied();
        let count = order.dim.ndim();
        if axis + 1 == count {
            order.reverse_axes();
            return order;
        }
        order.move_to_front(axis);
        order
    }
}

impl<D: Dimension> Layout<D, D::Strides> {
    /// Returns the layout of shape `dim` in fresh storage that can grow along `axis`.
    pub fn growing(dim: D, axis: usize) -> Self
        requires axis { axis < length (D.lengths dim) }
        requires checked { HasCheckedSize (D.lengths dim) }
        requires some { 0 < size_of (D.lengths dim) }
        ensures offset { result.offset ≡ 0 }
        ensures lengths { D.lengths result.dim ≡ D.lengths dim }
        ensures strides { D.Strides.strides_of result.strides ≡ growing_strides axis (D.lengths dim) }
        ensures separated { IsSeparated (D.lengths dim) (growing_strides axis (D.lengths dim)) }
        ensures ready { must_move (D.lengths dim) (growing_strides axis (D.lengths dim)) axis ≡ false }
    {
        let mut others = dim;
        others.set_length(axis, 1);
        let mut strides = strides_in(&others, growing_order(axis, dim.ndim()));
        strides.set(axis, size_of_others(&dim, axis) as isize);
        Layout::strided(0, dim, strides)
    }
}
