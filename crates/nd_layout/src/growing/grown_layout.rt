//! Layouts that fill their storage, and grow along an axis by elements appended to the storage.

ghost use Rattle.std.specs.Prelude.{◌≡◌, ◌<◌, ◌^◌, false, length, replicate, pos};
ghost use Rattle.std.specs.List.{remove};
ghost use Rattle.nd_shape_and_slice.specs.ShapesAndIndexOrders.{HasCheckedSize, size_of};
ghost use Rattle.nd_layout.specs.GrowthAlongAxis.{grown_shape, must_move};
ghost use Rattle.nd_layout.specs.LayoutStepsOfCalls.{placement_of};
ghost use Rattle.nd_layout.specs.OrderOfAppendedPlaces.{FillsStorage, IsGrown};

use crate::growing::memory_order_for_growth::moves;
use crate::layout::Layout;
use nd_shape_and_slice::{Dimension, StrideList};

/// Returns `dim` with `added` added to the length of `axis`.
fn longer<D: Dimension>(dim: D, axis: usize, added: usize) -> D
    requires on { axis < length (D.lengths dim) }
    requires checked { HasCheckedSize (grown_shape (D.lengths dim) axis added) }
    ensures { D.lengths result ≡ grown_shape (D.lengths dim) axis added }
{
    let mut longer = dim;
    longer.set_length(axis, dim.length(axis) + added);
    longer
}

/// Returns the number of indexes that share one coordinate of `axis`.
pub(crate) fn size_of_others<D: Dimension>(dim: &D, axis: usize) -> usize
    requires on { axis < length (D.lengths dim.now) }
    requires some { 0 < size_of (D.lengths dim.now) }
    requires checked { HasCheckedSize (D.lengths dim.now) }
    ensures value { result ≡ size_of (remove (D.lengths dim.now) axis) }
    ensures small { result < 2 ^ 63 }
{
    dim.size() / dim.length(axis)
}

impl<D: Dimension> Layout<D, D::Strides> {
    /// Returns the layout after the length of `axis` has grown by `added`, where the new elements come after the old
    /// ones in the storage. The layout must fill its storage; its elements keep their places.
    pub fn grown(&self, axis: usize, added: usize) -> Self
        requires on { axis < length (D.lengths self.now.dim) }
        requires some { 0 < size_of (D.lengths self.now.dim) }
        requires more { 0 < added }
        requires checked { HasCheckedSize (grown_shape (D.lengths self.now.dim) axis added) }
        requires full { FillsStorage (placement_of self.now) }
        requires stays { must_move (D.lengths self.now.dim) (D.Strides.strides_of self.now.strides) axis ≡ false }
        ensures { IsGrown (placement_of self.now) axis added (placement_of result) }
    {
        let dim = longer(self.dim, axis, added);
        let mut strides = self.strides;
        strides.set(axis, size_of_others(&self.dim, axis) as isize);
        Layout::strided(self.offset, dim, strides)
    }

    /// Returns whether the elements must move before `axis` can grow at the end of the storage. They must if `axis` is
    /// longer than 1, and its stride is either negative, or smaller than the magnitude of the stride of another axis
    /// longer than 1.
    pub fn must_move(&self, axis: usize) -> bool
        requires { axis < length (D.lengths self.now.dim) }
        ensures { result ≡ must_move (D.lengths self.now.dim) (D.Strides.strides_of self.now.strides) axis }
    {
        moves(self.dim.slice(), self.strides.slice(), axis)
    }

    /// Returns a layout of a shape without elements, with all strides 0.
    pub fn without_elements(offset: usize, dim: D) -> Self
        requires none { size_of (D.lengths dim) ≡ 0 }
        requires checked { HasCheckedSize (D.lengths dim) }
        ensures offset { result.offset ≡ offset }
        ensures lengths { D.lengths result.dim ≡ D.lengths dim }
        ensures strides { D.Strides.strides_of result.strides ≡ replicate (length (D.lengths dim)) (pos 0) }
    {
        Layout::strided(offset, dim, dim.zero_strides())
    }
}
