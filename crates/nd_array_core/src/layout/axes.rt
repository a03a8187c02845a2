//! Calls that reorder, invert, shorten, insert or remove axes. They take arrays and views by value, change them in place,
//! or return views to be read or written.
#![tactic(auto, unfolding(crate::specs::ArrayMeaning::meaning_of, crate::specs::ArrayMeaning::memory_layout_of))]

ghost use Rattle.std.specs.Prelude.{◌↔◌, ◌≡◌, ◌<◌, ◌≤◌, ◌+◌, ℕ, false, length, slice_index, IsTrue};
ghost use Rattle.std.specs.Borrow.{sem};
ghost use Rattle.nd_layout.specs.MergedAxes.{CanMerge};
ghost use Rattle.nd_shape_and_slice.specs.AxisPermutations.{HasEachAxis};
ghost use Rattle.nd_shape_and_slice.specs.AxisDescriptions.{axes_from};
ghost use Rattle.nd_shape_and_slice.specs.RemainingAxesOfIterator.{axes_left};
ghost use Rattle.nd_array_core.specs.ArrayMeaning.{shape_of, place_at, layout_strides, layout_offset};
ghost use Rattle.nd_array_core.specs.ElementsByCoordinates.{element_of_2};
ghost use Rattle.nd_array_core.specs.PartsOfArrays.{permuted_part, inverted_part, collapsed_part, swapped_part, merged_part, reversed_part, coordinate_part, inserted_part, squeezed_part, ShowsPart, BecomesPart, BecomesWhole};

use crate::base::array::{ArrayBase, ArrayView, ArrayViewMut};
use nd_elements::storage::{Data, DataMut};
use nd_shape_and_slice::{
    Axes, Axis, AxisCount, Dimension, InsertAxis, IntoDimension, IxDyn, MAX_AXES, RemoveAxis,
    StrideList,
};

impl<S: Data, D: Dimension> ArrayBase<S, D> {
    /// Returns an iterator over the axes from axis 0 on, which gives each axis's number, length and stride. This is
    /// ndarray's `axes`.
    pub fn axes(&self) -> Axes<'_, D>
        ensures { axes_left result ≡ axes_from 0 (shape_of self.now) (layout_strides self.now) }
    {
        Axes::new(&self.layout.dim, &self.layout.strides)
    }

    /// Puts the axes in another order: axis k becomes what axis `axes[k]` was. The list must name each axis once
    /// (`axes_fit`). This is ndarray's `permute_axes`.
    #[inline]
    pub fn permute_axes<I: IntoDimension<Dim = D>>(&mut self, axes: I)
        requires { HasEachAxis (I.lengths_given axes) (length (shape_of self.old)) }
        ensures part { BecomesPart self.old (permuted_part self.old (I.lengths_given axes)) self.new }
    {
        let order = axes.into_dimension();
        self.layout.permute_axes(order.slice());
    }

    /// Returns the array with its axes in another order: axis k is what axis `axes[k]` was. The list must name each
    /// axis once (`axes_fit`). This is ndarray's `permuted_axes`.
    #[inline]
    pub fn permuted_axes<I: IntoDimension<Dim = D>>(self, axes: I) -> Self
        requires { HasEachAxis (I.lengths_given axes) (length (shape_of self)) }
        ensures part { BecomesPart self (permuted_part self (I.lengths_given axes)) result }
    {
        let mut array = self;
        array.permute_axes(axes);
        array
    }

    /// Inverts an axis below `ndim`: its coordinates count from the other end. This is ndarray's `invert_axis`.
    #[inline]
    pub fn invert_axis(&mut self, axis: Axis)
        requires { axis.0 < length (shape_of self.old) }
        ensures part { BecomesPart self.old (inverted_part self.old axis.0) self.new }
    {
        self.layout.invert_axis(axis.0);
    }

    /// Keeps one coordinate of an axis, which then has length 1. The axis must be below `ndim`, and the coordinate
    /// below its length. This is ndarray's `collapse_axis`.
    #[inline]
    pub fn collapse_axis(&mut self, axis: Axis, index: usize)
        requires axis { axis.0 < length (shape_of self.old) }
        requires within { index < slice_index (shape_of self.old) axis.0 }
        ensures part { BecomesPart self.old (collapsed_part self.old axis.0 index) self.new }
    {
        self.layout.collapse_axis(axis.0, index);
    }

    /// Exchanges two axes below `ndim`. This is ndarray's `swap_axes`.
    #[inline]
    pub fn swap_axes(&mut self, a: usize, b: usize)
        requires a { a < length (shape_of self.old) }
        requires b { b < length (shape_of self.old) }
        ensures part { BecomesPart self.old (swapped_part self.old a b) self.new }
    {
        self.layout.swap_axes(a, b);
    }

    /// Merges axis `take` into axis `into` and returns true, if one of them has at most length 1, or if a step along
    /// `take` is as long as all of `into`. Axis `into` then has the product of both lengths, and `take` has length 1,
    /// or 0 where the product is 0. Otherwise it returns false and changes nothing. Both axes must be below `ndim`. No
    /// element is moved or copied. This is ndarray's `merge_axes`.
    pub fn merge_axes(&mut self, take: Axis, into: Axis) -> bool
        requires take { take.0 < length (shape_of self.old) }
        requires into { into.0 < length (shape_of self.old) }
        ensures merges { IsTrue result ↔ CanMerge (shape_of self.old) (layout_strides self.old) take.0 into.0 }
        ensures part { IsTrue result → BecomesPart self.old (merged_part self.old take.0 into.0) self.new }
        ensures kept { result ≡ false → BecomesWhole self.old self.new }
        ensures offset { layout_offset self.new ≡ layout_offset self.old }
    {
        self.layout.merge_axes(take.0, into.0)
    }

    /// Puts the axes in the opposite order. This is ndarray's `reverse_axes`.
    #[inline]
    pub fn reverse_axes(&mut self)
        ensures part { BecomesPart self.old (reversed_part self.old) self.new }
    {
        self.layout.reverse_axes();
    }

    /// Returns the array with its axes in the opposite order. This is ndarray's `reversed_axes`.
    #[inline]
    pub fn reversed_axes(self) -> Self
        ensures part { BecomesPart self (reversed_part self) result }
    {
        let mut array = self;
        array.reverse_axes();
        array
    }

    /// Returns the view with the axes in the opposite order. This is ndarray's `t`.
    #[inline]
    pub fn t(&self) -> ArrayView<'_, S::Elem, D>
        ensures part { ShowsPart self.now (reversed_part self.now) result }
        ensures elements { (row column : ℕ) → element_of_2 result row column ≡ element_of_2 self.now column row }
    {
        self.view().reversed_axes()
    }
}

impl<S: Data, D: RemoveAxis> ArrayBase<S, D> {
    /// Returns the array at one coordinate of an axis, without the axis. The axis must be below `ndim`, and the
    /// coordinate below its length. This is ndarray's `index_axis_move`.
    pub fn index_axis_move(self, axis: Axis, index: usize) -> ArrayBase<S, D::Smaller>
        requires axis { axis.0 < length (shape_of self) }
        requires within { index < slice_index (shape_of self) axis.0 }
        ensures part { BecomesPart self (coordinate_part self axis.0 index) result }
    {
        let layout = self.layout.index_axis(axis.0, index);
        ArrayBase {
            storage: self.storage,
            layout,
        }
    }

    /// Returns the view at one coordinate of an axis, without the axis. The axis must be below `ndim`, and the
    /// coordinate below its length. This is ndarray's `index_axis`.
    pub fn index_axis(&self, axis: Axis, index: usize) -> ArrayView<'_, S::Elem, D::Smaller>
        requires axis { axis.0 < length (shape_of self.now) }
        requires within { index < slice_index (shape_of self.now) axis.0 }
        ensures part { ShowsPart self.now (coordinate_part self.now axis.0 index) result }
    {
        self.view().index_axis_move(axis, index)
    }

    /// Returns the array at coordinate 0 of an axis, without the axis. The axis must be below `ndim` and has a length
    /// of at least 1. This is ndarray's `remove_axis`.
    pub fn remove_axis(self, axis: Axis) -> ArrayBase<S, D::Smaller>
        requires axis { axis.0 < length (shape_of self) }
        requires within { 0 < slice_index (shape_of self) axis.0 }
        ensures part { BecomesPart self (coordinate_part self axis.0 0) result }
    {
        self.index_axis_move(axis, 0)
    }
}

impl<S: DataMut, D: RemoveAxis> ArrayBase<S, D> {
    ghost use Rattle.nd_array_core.specs.layout.ArrayAfterMutableView.{array_follows_part, left_by, lent_places, tie_of, LeavesBut, LeavesPlacesBut, LeavesRefilled};

    /// Returns the view at one coordinate of an axis, without the axis, to be read and written. The axis must be below
    /// `ndim`, and the coordinate below its length. Once the view has ended, a caller knows of the array what it knows
    /// after `view_mut`, and that each index which the view doesn't name shows what it showed before (`kept`). This is
    /// ndarray's `index_axis_mut`.
    pub fn index_axis_mut(
        &mut self,
        axis: Axis,
        index: usize,
    ) -> ArrayViewMut<'_, S::Elem, D::Smaller>
        requires axis { axis.0 < length (shape_of self.old) }
        requires within { index < slice_index (shape_of self.old) axis.0 }
        ensures* writes_back { sem 𝓛 (array_follows_part S.row S.Elem.row D.row D.Strides.row S.Data D.Dimension D.AxisCount D.Strides.StrideList self.entry (tie_of result) (lent_places result)) }
        ensures part { ShowsPart self.old (coordinate_part self.old axis.0 index) result }
        ensures refilled { LeavesRefilled S.frame self.old (left_by self.old result) }
        ensures others { LeavesPlacesBut (place_at result) self.old (left_by self.old result) }
        ensures kept { LeavesBut self.old (left_by self.old result) (coordinate_part self.old axis.0 index) }
    {
        let part = self.layout.index_axis(axis.0, index);
        self.lent_as(part)
    }
}

impl<S: Data, D: InsertAxis> ArrayBase<S, D> {
    /// Returns the array with an axis of length 1 inserted. The axis must be at most `ndim`, and an `IxDyn` array must
    /// have fewer than 32 axes. This is ndarray's `insert_axis`.
    pub fn insert_axis(self, axis: Axis) -> ArrayBase<S, D::Larger>
        requires place { axis.0 ≤ length (shape_of self) }
        requires axes_fit { IsTrue (D.Larger.has_axes (length (shape_of self) + 1)) }
        ensures part { BecomesPart self (inserted_part self axis.0) result }
    {
        let layout = self.layout.insert_axis(axis.0);
        ArrayBase {
            storage: self.storage,
            layout,
        }
    }
}

impl<S: Data> ArrayBase<S, IxDyn> {
    /// Keeps one coordinate of an axis, and removes the axis. The axis must be below `ndim`, and the coordinate below
    /// its length. This is ndarray's `index_axis_inplace`.
    pub fn index_axis_inplace(&mut self, axis: Axis, index: usize)
        requires axis { axis.0 < length (shape_of self.old) }
        requires within { index < slice_index (shape_of self.old) axis.0 }
        ensures part { BecomesPart self.old (coordinate_part self.old axis.0 index) self.new }
    {
        let layout = self.layout.index_axis(axis.0, index);
        self.layout = layout;
    }

    /// Inserts an axis of length 1. The axis must be at most `ndim`, and there must be fewer than 32 axes. This is
    /// ndarray's `insert_axis_inplace`.
    pub fn insert_axis_inplace(&mut self, axis: Axis)
        requires place { axis.0 ≤ length (shape_of self.old) }
        requires axes_fit { length (shape_of self.old) < MAX_AXES }
        ensures part { BecomesPart self.old (inserted_part self.old axis.0) self.new }
    {
        let layout = self.layout.insert_axis(axis.0);
        self.layout = layout;
    }

    /// Returns the array without its axes of length 1. Where all axes have length 1, the first stays. This is ndarray's
    /// `squeeze`.
    pub fn squeeze(self) -> Self
        ensures part { BecomesPart self (squeezed_part self) result }
    {
        let layout = self.layout.squeezed();
        ArrayBase {
            storage: self.storage,
            layout,
        }
    }
}
