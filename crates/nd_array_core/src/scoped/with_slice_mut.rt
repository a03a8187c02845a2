//! Calls that lend a task a mutable view of a part of an array while they run.
#![tactic(auto, unfolding(crate::specs::ArrayMeaning::meaning_of, crate::specs::ArrayMeaning::memory_layout_of))]

ghost use Rattle.std.specs.Prelude.{◌≡◌, ◌<◌, length, slice_index, IsTrue};
ghost use Rattle.nd_shape_and_slice.specs.Slice.{fits_axis, sliced_shape};
ghost use Rattle.nd_layout.specs.LayoutStepsOfCalls.{placement_of, IsSlicedStep};
ghost use Rattle.nd_shape_and_slice.specs.SliceInfo.{fits_shape};
ghost use Rattle.nd_array_core.specs.scoped.TasksOnParts.{AsksOfPart, IsDoneOnPart, KeepsBut};
ghost use Rattle.nd_array_core.specs.base.ArrayWrites.{KeepsFrame};
ghost use Rattle.nd_array_core.specs.PartsOfArrays.{axis_part, diagonal_part, coordinate_part, sliced_part};

use super::with_view_mut::{ViewTask, with_placement};
use crate::base::array::ArrayBase;
use crate::layout::slices::sliced_by;
use nd_elements::storage::DataMut;
use nd_layout::Layout;
use nd_shape_and_slice::{Axis, Dimension, Ix1, RemoveAxis, Slice, SliceArg, StrideList};

/// Returns the layout with axis `axis` sliced by `slice`, which must fit the axis.
fn sliced_on<D: Dimension, T: StrideList>(
    layout: &Layout<D, T>,
    axis: usize,
    slice: Slice,
) -> Layout<D, T>
    requires on { axis < length (D.lengths layout.now.dim) }
    requires fits { IsTrue (fits_axis (slice_index (D.lengths layout.now.dim) axis) slice) }
    ensures lengths { D.lengths result.dim ≡ sliced_shape (D.lengths layout.now.dim) axis slice }
    ensures step { IsSlicedStep (placement_of layout.now) (placement_of result) axis slice }
{
    let mut layout = layout.copied();
    layout.slice_axis(axis, slice);
    layout
}

impl<S: DataMut, D: Dimension> ArrayBase<S, D> {
    ghost use Rattle.nd_array_core.specs.ArrayMeaning.{shape_of};

    /// Lends the task a mutable view of what the list of slices names, for the length of the call. Afterwards the array
    /// has there the elements that the view was left with, and elsewhere those that it had. The list must fit the shape
    /// (`SliceArg::fits`). ndarray has no such call; the nearest is its `slice_mut`.
    pub fn with_slice_mut<I: SliceArg<D>, K: ViewTask<S::Elem, I::OutDim>>(
        &mut self,
        info: I,
        task: K,
    ) -> K::Answer
        requires fits { IsTrue (fits_shape (shape_of self.old) (I.elements_of info)) }
        requires callable { AsksOfPart (K.pre task) self.old (sliced_part self.old (I.elements_of info)) }
        ensures frame { KeepsFrame S.frame self.old self.new }
        ensures kept { KeepsBut self.old self.new (sliced_part self.old (I.elements_of info)) }
        ensures done { IsDoneOnPart (K.post task) result self.old self.new (sliced_part self.old (I.elements_of info)) }
    {
        let layout = sliced_by(&self.layout, info);
        with_placement(&mut self.storage, &layout, task)
    }

    /// Lends the task a mutable view of what the slice names of one axis, for the length of the call. Afterwards the
    /// array has there the elements that the view was left with, and elsewhere those that it had. The axis must be
    /// below `ndim`, and the slice must fit it (`slice_fits`). ndarray has no such call; the nearest is its
    /// `slice_axis_mut`.
    pub fn with_slice_axis_mut<K: ViewTask<S::Elem, D>>(
        &mut self,
        axis: Axis,
        slice: Slice,
        task: K,
    ) -> K::Answer
        requires axis { axis.0 < length (shape_of self.old) }
        requires fits { IsTrue (fits_axis (slice_index (shape_of self.old) axis.0) slice) }
        requires callable { AsksOfPart (K.pre task) self.old (axis_part self.old axis.0 slice) }
        ensures frame { KeepsFrame S.frame self.old self.new }
        ensures kept { KeepsBut self.old self.new (axis_part self.old axis.0 slice) }
        ensures done { IsDoneOnPart (K.post task) result self.old self.new (axis_part self.old axis.0 slice) }
    {
        let layout = sliced_on(&self.layout, axis.0, slice);
        with_placement(&mut self.storage, &layout, task)
    }

    /// Lends the task a mutable view of the elements whose coordinates are all the same, for the length of the call.
    /// For an array without axes the view shows that array's one element. Afterwards the array has there the elements
    /// that the view was left with, and elsewhere those that it had. ndarray has no such call; the nearest is its
    /// `diag_mut`.
    pub fn with_diag_mut<K: ViewTask<S::Elem, Ix1>>(&mut self, task: K) -> K::Answer
        requires callable { AsksOfPart (K.pre task) self.old (diagonal_part self.old) }
        ensures frame { KeepsFrame S.frame self.old self.new }
        ensures kept { KeepsBut self.old self.new (diagonal_part self.old) }
        ensures done { IsDoneOnPart (K.post task) result self.old self.new (diagonal_part self.old) }
    {
        let layout = self.layout.diagonal();
        with_placement(&mut self.storage, &layout, task)
    }
}

impl<S: DataMut, D: RemoveAxis> ArrayBase<S, D> {
    ghost use Rattle.nd_array_core.specs.ArrayMeaning.{shape_of};

    /// Lends the task a mutable view at one coordinate of an axis, without the axis, for the length of the call.
    /// Afterwards the array has there the elements that the view was left with, and elsewhere those that it had. The
    /// axis must be below `ndim`, and the coordinate below its length. ndarray has no such call; the nearest is its
    /// `index_axis_mut`.
    pub fn with_index_axis_mut<K: ViewTask<S::Elem, D::Smaller>>(
        &mut self,
        axis: Axis,
        index: usize,
        task: K,
    ) -> K::Answer
        requires axis { axis.0 < length (shape_of self.old) }
        requires within { index < slice_index (shape_of self.old) axis.0 }
        requires callable { AsksOfPart (K.pre task) self.old (coordinate_part self.old axis.0 index) }
        ensures frame { KeepsFrame S.frame self.old self.new }
        ensures kept { KeepsBut self.old self.new (coordinate_part self.old axis.0 index) }
        ensures done { IsDoneOnPart (K.post task) result self.old self.new (coordinate_part self.old axis.0 index) }
    {
        let layout = self.layout.index_axis(axis.0, index);
        with_placement(&mut self.storage, &layout, task)
    }
}
