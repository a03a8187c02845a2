//! Calls that ask how an array's elements lie in memory: its strides, its longest stride, and whether it is in the
//! standard layout.
#![tactic(auto, unfolding(crate::specs::ArrayMeaning::meaning_of, crate::specs::ArrayMeaning::memory_layout_of))]

ghost use Rattle.std.specs.Prelude.{◌↔◌, ◌≡◌, ◌<◌, IsTrue, length, pos, slice_index_or};
ghost use Rattle.nd_layout.specs.MergedAxes.{StepsFurthest};
ghost use Rattle.nd_array_core.specs.ArrayMeaning.{shape_of, layout_strides};
ghost use Rattle.nd_array_core.specs.reshape.ElementsAsSlice.{IsStandardArray};

use crate::base::array::ArrayBase;
use nd_elements::storage::Data;
use nd_layout::{furthest_axis, is_standard, stride_at};
use nd_shape_and_slice::{Axis, Dimension, StrideList};

impl<S: Data, D: Dimension> ArrayBase<S, D> {
    /// Returns the stride of each axis. This is ndarray's `strides`.
    pub fn strides(&self) -> &[isize]
        ensures value { result.now ≡ layout_strides self.now }
        ensures as_many { length result.now ≡ length (shape_of self.now) }
    {
        self.layout.strides.slice()
    }

    /// Returns the stride of an axis below `ndim`. This is ndarray's `stride_of`.
    pub fn stride_of(&self, axis: Axis) -> isize
        requires { axis.0 < length (shape_of self.now) }
        ensures { result ≡ slice_index_or (layout_strides self.now) axis.0 (pos 0) }
    {
        stride_at(self.layout.strides.slice(), axis.0)
    }

    /// Returns whether the elements are contiguous in row-major order, as those of a new array are. The strides of axes
    /// of length 1 don't count, and an array without elements is in the standard layout. This is ndarray's
    /// `is_standard_layout`.
    pub fn is_standard_layout(&self) -> bool
        ensures { IsTrue result ↔ IsStandardArray self.now }
    {
        is_standard(self.layout.dim.slice(), self.layout.strides.slice())
    }

    /// Returns, of the axes longer than 1, one whose stride has the greatest magnitude, and axis 0 where no axis is
    /// longer than 1. The array must have an axis. This is ndarray's `max_stride_axis`.
    pub fn max_stride_axis(&self) -> Axis
        requires { 0 < length (shape_of self.now) }
        ensures { StepsFurthest (shape_of self.now) (layout_strides self.now) result.0 }
    {
        Axis(furthest_axis(self.layout.dim.slice(), self.layout.strides.slice()))
    }
}
