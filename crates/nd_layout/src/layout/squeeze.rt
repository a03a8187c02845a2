//! Layouts without their axes of length 1.

ghost use Rattle.std.specs.Prelude.{◌≡◌, ◌<◌, length};
ghost use Rattle.nd_layout.specs.LayoutStepsOfCalls.{placement_of, HasLengthsSqueezedAt, HasStridesSqueezedAt, IsStepSqueezedAt, HasSqueezedLengths, HasSqueezedStrides, IsSqueezedStep};

use super::Layout;
use super::invert_split_and_permute_axes::length_at;
use nd_shape_and_slice::{Dimension, DynStrides, IxDyn, StrideList};

impl Layout<IxDyn, DynStrides> {
    /// Returns the layout without `axis` if that has length 1 and isn't the only axis, and otherwise the same layout.
    fn squeezed_at(&self, axis: usize) -> Self
        requires { axis < length (⟦<IxDyn as Dimension>⟧.lengths self.now.dim) }
        ensures lengths { HasLengthsSqueezedAt (placement_of self.now) (placement_of result) axis }
        ensures step { IsStepSqueezedAt (placement_of self.now) (placement_of result) axis }
        ensures strides { HasStridesSqueezedAt (placement_of self.now) (placement_of result) axis }
        ensures offset { result.offset ≡ self.now.offset }
    {
        if length_at(self.dim.slice(), axis) == 1 && self.dim.ndim() > 1 {
            self.index_axis(axis, 0)
        } else {
            self.copied()
        }
    }

    /// Returns the layout without its axes of length 1. They are removed from the last axis on, and one axis always
    /// stays.
    pub fn squeezed(&self) -> Self
        ensures lengths { HasSqueezedLengths (placement_of self.now) (placement_of result) }
        ensures step { IsSqueezedStep (placement_of self.now) (placement_of result) }
        ensures strides { HasSqueezedStrides (placement_of self.now) (placement_of result) }
        ensures offset { result.offset ≡ self.now.offset }
    {
        let mut layout = self.copied();
        let mut axis = self.dim.ndim();
        while axis > 0 {
            axis -= 1;
            layout = layout.squeezed_at(axis);
        }
        layout
    }
}
