//! The layout of consecutive places as one axis of stride 1.

ghost use Rattle.std.specs.Prelude.{◌↔◌, ◌≡◌, ◌-◌, ◌<◌, ◌^◌, length, IsTrue};
ghost use Rattle.nd_shape_and_slice.specs.ShapesAndIndexOrders.{size_of};
ghost use Rattle.nd_layout.specs.RanksAndReshapeStrides.{IsRun};
ghost use Rattle.nd_layout.specs.StridesAfterLayoutCalls.{reach_down};
ghost use Rattle.nd_layout.specs.RowMajorWalk.{IsOneLane};
ghost use Rattle.nd_layout.specs.LayoutStepsOfCalls.{placement_of, HasRunOfPlaces, IsRearrangedOf};

use crate::layout::Layout;
use crate::layout::given_strides::reach_below;
use crate::reshape::standard_layouts_and_runs::is_run;
use nd_shape_and_slice::{Dimension, StrideList, is_empty_shape};

/// Gives the last axis the length `count` and the stride 1, and every other axis the length 1 and the stride `count`.
fn stretch_last<D: Dimension, T: StrideList>(dim: &mut D, strides: &mut T, count: usize)
    requires as_many { length (T.strides_of strides.old) ≡ length (D.lengths dim.old) }
    requires some { 0 < length (D.lengths dim.old) }
    requires fits { count < 2 ^ 63 }
    ensures lane { IsOneLane count (D.lengths dim.new) (T.strides_of strides.new) }
    ensures as_many { length (T.strides_of strides.new) ≡ length (D.lengths dim.new) }
    ensures as_long { length (D.lengths dim.new) ≡ length (D.lengths dim.old) }
{
    let last = dim.ndim() - 1;
    for axis in 0..last {
        dim.set_length(axis, 1);
        strides.set(axis, count as isize);
    }
    dim.set_length(last, count);
    strides.set(last, 1);
}

impl<D: Dimension, T: StrideList> Layout<D, T> {
    /// Returns the lowest place of an index, if the layout has an index.
    pub fn lowest_place(&self) -> usize
        ensures { result ≡ self.now.offset - reach_down (D.lengths self.now.dim) (T.strides_of self.now.strides) }
    {
        let below = reach_below(self.dim.slice(), self.strides.slice());
        self.offset.saturating_sub(below)
    }

    /// Returns whether the layout has places, and they are consecutive, each named once.
    pub(crate) fn has_run(&self) -> bool
        ensures { IsTrue result ↔ HasRunOfPlaces (placement_of self.now) }
    {
        if is_empty_shape(self.dim.slice()) {
            false
        } else {
            is_run(self.dim.slice(), self.strides.slice())
        }
    }

    /// Returns a layout of the same places in rising order. They must be consecutive, each named once. The layout
    /// begins at the lowest place, and its last axis has all places, with stride 1.
    pub(crate) fn in_line(&self) -> Self
        requires axes { 0 < length (D.lengths self.now.dim) }
        requires some { 0 < size_of (D.lengths self.now.dim) }
        requires run { IsRun (D.lengths self.now.dim) (T.strides_of self.now.strides) }
        ensures offset { result.offset ≡ self.now.offset - reach_down (D.lengths self.now.dim) (T.strides_of self.now.strides) }
        ensures lane { IsOneLane (size_of (D.lengths self.now.dim)) (D.lengths result.dim) (T.strides_of result.strides) }
        ensures order { IsRearrangedOf (placement_of self.now) (placement_of result) }
    {
        let mut dim = self.dim;
        let mut strides = self.strides;
        stretch_last(&mut dim, &mut strides, self.dim.size());
        Layout {
            offset: self.lowest_place(),
            dim,
            strides,
        }
    }
}
