//! Slices by a list of slices, of one axis, and of each axis as a closure returns it. The calls take arrays and views
//! by value, change them in place, or return views to be read or written.
#![tactic(auto, unfolding(crate::specs::ArrayMeaning::meaning_of, crate::specs::ArrayMeaning::memory_layout_of))]

ghost use Rattle.std.specs.Prelude.{◌≡◌, ◌<◌, length, slice_index, IsTrue};
ghost use Rattle.std.specs.Borrow.{sem};
ghost use Rattle.nd_shape_and_slice.specs.declared.slice.Slice.{Slice};
ghost use Rattle.nd_shape_and_slice.specs.AxisDescriptions.{axes_from};
ghost use Rattle.nd_shape_and_slice.specs.SliceEachAxis.{AnswersGive, AnswersFit};
ghost use Rattle.nd_shape_and_slice.specs.ShapesAndIndexOrders.{size_of};
ghost use Rattle.nd_shape_and_slice.specs.Slice.{fits_axis};
ghost use Rattle.nd_shape_and_slice.specs.SliceInfo.{fits_shape};
ghost use Rattle.nd_layout.specs.LayoutStepsOfCalls.{placement_of, IsEachSliced};
ghost use Rattle.nd_array_core.specs.ArrayMeaning.{shape_of, place_at};
ghost use Rattle.nd_array_core.specs.PartsOfArrays.{axes_of, axis_part, sliced_part, collapsed_by_part, ShowsPart, BecomesPart};
ghost use Rattle.nd_array_core.specs.layout.ViewsOfStorageParts.{IsListed};
ghost use Rattle.nd_array_core.specs.layout.ArraySlicedOnEachAxis.{ShowsEachSliced, BecomesEachSliced, LendsEachSliced};

use crate::base::array::{ArrayBase, ArrayView, ArrayViewMut};
use nd_elements::storage::{Data, DataMut};
use nd_layout::Layout;
use nd_shape_and_slice::{
    Axis, AxisCount, AxisDescription, Dimension, Slice, SliceArg, StrideList,
};

/// Returns the layout of the part of `layout` that a list of slices names. The list must fit the shape.
pub(crate) fn sliced_by<D: Dimension, I: SliceArg<D>>(
    layout: &Layout<D, D::Strides>,
    list: I,
) -> Layout<I::OutDim, <I::OutDim as Dimension>::Strides>
    requires { IsTrue (fits_shape (D.lengths layout.now.dim) (I.elements_of list)) }
    ensures { IsListed (placement_of layout.now) (I.elements_of list) (placement_of result) }
{
    layout.sliced::<I::OutDim>(list.elements())
}

/// Returns the layout with each axis sliced by what `f` returns for it. The closure is called for axis 0 first, and
/// each slice must fit its axis.
fn each_axis_sliced<D: Dimension, F: FnMut(AxisDescription) -> Slice>(
    layout: &Layout<D, D::Strides>,
    f: F,
) -> Layout<D, D::Strides>
    requires fit { AnswersFit F.pre F.step f
        (axes_from 0 (D.lengths layout.now.dim) (D.Strides.strides_of layout.now.strides)) }
    ensures sliced { IsEachSliced F.step f (placement_of layout.now) (placement_of result) }
    ensures empty { size_of (D.lengths layout.now.dim) ≡ 0 → result.offset ≡ layout.now.offset }
{
    let mut left = layout.copied();
    left.slice_each_axis(f);
    left
}

impl<S: Data, D: Dimension> ArrayBase<S, D> {
    /// Returns the array of what the list names: a slice keeps its axis, an index takes its axis away, and a new axis
    /// has length 1. The list must fit the shape (`SliceArg::fits`). This is ndarray's `slice_move`.
    #[inline]
    pub fn slice_move<I: SliceArg<D>>(self, info: I) -> ArrayBase<S, I::OutDim>
        requires { IsTrue (fits_shape (shape_of self) (I.elements_of info)) }
        ensures part { BecomesPart self (sliced_part self (I.elements_of info)) result }
    {
        let layout = sliced_by(&self.layout, info);
        ArrayBase {
            storage: self.storage,
            layout,
        }
    }

    /// Returns the view of what the list names: a slice keeps its axis, an index takes its axis away, and a new axis
    /// has length 1. The list must fit the shape (`SliceArg::fits`). This is ndarray's `slice`.
    #[inline]
    pub fn slice<I: SliceArg<D>>(&self, info: I) -> ArrayView<'_, S::Elem, I::OutDim>
        requires { IsTrue (fits_shape (shape_of self.now) (I.elements_of info)) }
        ensures part { ShowsPart self.now (sliced_part self.now (I.elements_of info)) result }
    {
        ArrayBase {
            storage: self.storage.borrowed(),
            layout: self.layout.sliced::<I::OutDim>(info.elements()),
        }
    }

    /// Keeps of each axis what the list names; an axis that is indexed keeps length 1. The list must fit the shape
    /// (`SliceArg::fits`) and add no axis, so it has as many elements as there are axes. This is ndarray's
    /// `slice_collapse`.
    pub fn slice_collapse<I: SliceArg<D>>(&mut self, info: I)
        requires fits { IsTrue (fits_shape (shape_of self.old) (I.elements_of info)) }
        requires no_new_axis { length (I.elements_of info) ≡ length (shape_of self.old) }
        ensures part { BecomesPart self.old (collapsed_by_part self.old (I.elements_of info)) self.new }
    {
        self.layout.slice_axes(info.elements());
    }

    /// Keeps of one axis what the slice names. The axis must be below `ndim`, and the slice must fit it (`slice_fits`).
    /// This is ndarray's `slice_axis_inplace`.
    #[inline]
    pub fn slice_axis_inplace(&mut self, axis: Axis, slice: Slice)
        requires axis { axis.0 < length (shape_of self.old) }
        requires fits { IsTrue (fits_axis (slice_index (shape_of self.old) axis.0) slice) }
        ensures part { BecomesPart self.old (axis_part self.old axis.0 slice) self.new }
    {
        self.layout.slice_axis(axis.0, slice);
    }

    /// Returns the view of what the slice names of one axis. The axis must be below `ndim`, and the slice fits it
    /// (`slice_fits`). This is ndarray's `slice_axis`.
    #[inline]
    pub fn slice_axis(&self, axis: Axis, slice: Slice) -> ArrayView<'_, S::Elem, D>
        requires axis { axis.0 < length (shape_of self.now) }
        requires fits { IsTrue (fits_axis (slice_index (shape_of self.now) axis.0) slice) }
        ensures part { ShowsPart self.now (axis_part self.now axis.0 slice) result }
    {
        let mut view = self.view();
        view.slice_axis_inplace(axis, slice);
        view
    }

    /// Returns the array of what the slice names of one axis. The axis must be below `ndim`, and the slice must fit it
    /// (`slice_fits`). This is ndarray's `slice_axis_move`.
    #[inline]
    pub fn slice_axis_move(self, axis: Axis, slice: Slice) -> Self
        requires axis { axis.0 < length (shape_of self) }
        requires fits { IsTrue (fits_axis (slice_index (shape_of self) axis.0) slice) }
        ensures part { BecomesPart self (axis_part self axis.0 slice) result }
    {
        let mut array = self;
        array.slice_axis_inplace(axis, slice);
        array
    }

    /// Keeps of each axis the slice that the closure returns for it. The closure is called for axis 0 first, and each
    /// slice must fit its axis (`slice_fits`). This is ndarray's `slice_each_axis_inplace`.
    pub fn slice_each_axis_inplace<F: FnMut(AxisDescription) -> Slice>(&mut self, f: F)
        requires { AnswersFit F.pre F.step f (axes_of self.old) }
        ensures sliced { AnswersGive F.step f (axes_of self.old) (BecomesEachSliced self.old self.new) }
    {
        self.layout.slice_each_axis(f);
    }

    /// Returns the view of the slices that the closure returns for the axes. The closure is called for axis 0 first,
    /// and each slice must fit its axis (`slice_fits`). This is ndarray's `slice_each_axis`.
    pub fn slice_each_axis<F: FnMut(AxisDescription) -> Slice>(
        &self,
        f: F,
    ) -> ArrayView<'_, S::Elem, D>
        requires { AnswersFit F.pre F.step f (axes_of self.now) }
        ensures { AnswersGive F.step f (axes_of self.now) (ShowsEachSliced self.now result) }
    {
        let layout = each_axis_sliced(&self.layout, f);
        ArrayBase {
            storage: self.storage.borrowed(),
            layout,
        }
    }
}

impl<S: DataMut, D: Dimension> ArrayBase<S, D> {
    ghost use Rattle.nd_array_core.specs.layout.ArrayAfterMutableView.{array_follows_part, left_by, lent_places, tie_of, LeavesBut, LeavesPlacesBut, LeavesRefilled};

    /// Returns the view of what the list names, to be read and written: a slice keeps its axis, an index takes its axis
    /// away, and a new axis has length 1. The list must fit the shape (`SliceArg::fits`). Once the view has ended, a
    /// caller knows of the array what it knows after `view_mut`, and that each index which the view doesn't name shows
    /// what it showed before (`kept`). This is ndarray's `slice_mut`.
    pub fn slice_mut<I: SliceArg<D>>(&mut self, info: I) -> ArrayViewMut<'_, S::Elem, I::OutDim>
        requires { IsTrue (fits_shape (shape_of self.old) (I.elements_of info)) }
        ensures* writes_back { sem 𝓛 (array_follows_part S.row S.Elem.row D.row D.Strides.row S.Data D.Dimension D.AxisCount D.Strides.StrideList self.entry (tie_of result) (lent_places result)) }
        ensures part { ShowsPart self.old (sliced_part self.old (I.elements_of info)) result }
        ensures refilled { LeavesRefilled S.frame self.old (left_by self.old result) }
        ensures others { LeavesPlacesBut (place_at result) self.old (left_by self.old result) }
        ensures kept { LeavesBut self.old (left_by self.old result) (sliced_part self.old (I.elements_of info)) }
    {
        let named = sliced_by(&self.layout, info);
        self.lent_as(named)
    }

    /// Returns the view of what the slice names of one axis, to be read and written. The axis must be below `ndim`, and
    /// the slice must fit it (`slice_fits`). Once the view has ended, a caller knows of the array what it knows after
    /// `view_mut`, and that each index which the view doesn't name shows what it showed before (`kept`). This is
    /// ndarray's `slice_axis_mut`.
    pub fn slice_axis_mut(&mut self, axis: Axis, slice: Slice) -> ArrayViewMut<'_, S::Elem, D>
        requires axis { axis.0 < length (shape_of self.old) }
        requires fits { IsTrue (fits_axis (slice_index (shape_of self.old) axis.0) slice) }
        ensures* writes_back { sem 𝓛 (array_follows_part S.row S.Elem.row D.row D.Strides.row S.Data D.Dimension D.AxisCount D.Strides.StrideList self.entry (tie_of result) (lent_places result)) }
        ensures part { ShowsPart self.old (axis_part self.old axis.0 slice) result }
        ensures refilled { LeavesRefilled S.frame self.old (left_by self.old result) }
        ensures others { LeavesPlacesBut (place_at result) self.old (left_by self.old result) }
        ensures kept { LeavesBut self.old (left_by self.old result) (axis_part self.old axis.0 slice) }
    {
        let mut part = self.layout.copied();
        part.slice_axis(axis.0, slice);
        self.lent_as(part)
    }

    /// Returns the view of the slices that the closure returns for the axes, to be read and written. The closure is
    /// called for axis 0 first, and each slice must fit its axis (`slice_fits`). Once the view has ended, a caller
    /// knows of the array what it knows after `view_mut`, and that each index which the view doesn't name shows what it
    /// showed before. This is ndarray's `slice_each_axis_mut`.
    pub fn slice_each_axis_mut<F: FnMut(AxisDescription) -> Slice>(
        &mut self,
        f: F,
    ) -> ArrayViewMut<'_, S::Elem, D>
        requires { AnswersFit F.pre F.step f (axes_of self.old) }
        ensures* writes_back { sem 𝓛 (array_follows_part S.row S.Elem.row D.row D.Strides.row S.Data D.Dimension D.AxisCount D.Strides.StrideList self.entry (tie_of result) (lent_places result)) }
        ensures refilled { LeavesRefilled S.frame self.old (left_by self.old result) }
        ensures others { LeavesPlacesBut (place_at result) self.old (left_by self.old result) }
        ensures sliced { AnswersGive F.step f (axes_of self.old) (LendsEachSliced self.old (left_by self.old result) result) }
    {
        let layout = each_axis_sliced(&self.layout, f);
        self.lent_as(layout)
    }
}
