//! Slicing one axis of a layout, several axes by a list of slices and indexes, and every axis by a closure.

ghost use Rattle.std.specs.Prelude.{◌≡◌, ◌<◌, ℤ, false, is_some, nat_eq, ◌||◌, length, slice_index, slice_get, ◌*ℤ◌, IsTrue};
ghost use Rattle.nd_shape_and_slice.specs.declared.slice.Slice.{Slice};
ghost use Rattle.nd_shape_and_slice.specs.declared.slice_info.SliceInfoElem.TheVariants.{Index};
ghost use Rattle.nd_shape_and_slice.specs.AxisDescriptions.{axes_from};
ghost use Rattle.nd_shape_and_slice.specs.Slice.{fits_axis, sliced_length, sliced_shape};
ghost use Rattle.nd_shape_and_slice.specs.SliceInfo.{coordinate_on, reads_axis, axes_kept, each_fits, fits_next, fits_shape, shape_after};
ghost use Rattle.nd_shape_and_slice.specs.ShapesAndIndexOrders.{size_of};
ghost use Rattle.nd_layout.specs.StridesAfterLayoutCalls.{stepped_stride, FitsStride};
ghost use Rattle.nd_shape_and_slice.specs.SliceEachAxis.{AnswersFit};
ghost use Rattle.nd_shape_and_slice.specs.SlicingInTwoPasses.{collapsed_after, shape_with};
ghost use Rattle.nd_layout.specs.SliceElementOnAxis.{length_by, stride_by};
ghost use Rattle.nd_layout.specs.OneAxisSteps.{length_on, stride_on, AxisLeads, StartsBy, StartsSliced};
ghost use Rattle.nd_layout.specs.LayoutStepsOfCalls.{placement_of, HasSlicedStrides, HasListStrides, HasCollapsedStrides, HasElementStrides, IsSlicedStep, IsListStep, IsCollapsedStep, IsElementStep, IsEachSliced};

use super::Layout;
use super::invert_split_and_permute_axes::{length_at, stride_at};
use super::place_at::moved_unless;
use nd_shape_and_slice::{
    Axis, AxisDescription, Dimension, Slice, SliceInfoElem, StrideList, axes_kept, axis_after,
    coordinate_on_axis, is_empty_shape,
};

/// What a slice of one axis makes of a layout: its new offset, and the new length and stride of the axis.
#[derive(Clone, Copy)]
struct AxisChange {
    offset: usize,
    len: usize,
    stride: isize,
}

/// Returns the stride of an axis after a slice with step `step`, which leaves it the length `len`. It is 0 if `len` is
/// at most 1.
fn stepped_by(stride: isize, len: usize, step: isize) -> isize
    requires { 1 < len → FitsStride (stride *ℤ step) }
    ensures { result ≡ stepped_stride len stride step }
{
    if len <= 1 { 0 } else { stride * step }
}

/// Returns whether a layout has no element after an axis gets the length `len`. `is_empty` says whether it had none
/// before.
#[inline]
fn none_left(is_empty: bool, len: usize) -> bool
    ensures { result ≡ (is_empty || nat_eq len 0) }
{
    is_empty || len == 0
}

impl<D: Dimension, T: StrideList> Layout<D, T> {
    /// Returns what `slice` makes of `axis`. `offset` is the offset that the slices of the axes before left. It stays
    /// if no element is left.
    #[inline]
    fn part_of_axis(&self, axis: usize, slice: Slice, offset: usize, is_empty: bool) -> AxisChange
        requires on { axis < length (D.lengths self.now.dim) }
        requires fits { IsTrue (fits_axis (length_on self.now axis) slice) }
        requires leads { is_empty ≡ false → AxisLeads self.now axis offset }
        ensures len { result.len ≡ sliced_length (length_on self.now axis) slice }
        ensures stride { result.stride ≡ stepped_stride result.len (stride_on self.now axis) slice.step }
        ensures offset { is_empty ≡ false → 0 < result.len → StartsSliced self.now axis slice offset result.offset }
        ensures empty { IsTrue is_empty → result.offset ≡ offset }
    {
        let sliced = slice.on_axis(self.dim.length(axis));
        let stride = self.strides.stride(axis);
        let stays = none_left(is_empty, sliced.len);
        AxisChange {
            offset: moved_unless(stays, offset, sliced.first, stride),
            len: sliced.len,
            stride: stepped_by(stride, sliced.len, slice.step),
        }
    }

    /// Returns the offset after the index `coordinate` of `axis`. `offset` is the offset that the slices of the axes
    /// before left. It stays if `is_empty` is true.
    #[inline]
    fn offset_at(&self, axis: usize, coordinate: isize, offset: usize, is_empty: bool) -> usize
        requires on { axis < length (D.lengths self.now.dim) }
        requires fits { IsTrue (is_some (coordinate_on (length_on self.now axis) coordinate)) }
        requires leads { is_empty ≡ false → AxisLeads self.now axis offset }
        ensures moved { is_empty ≡ false → StartsBy self.now axis (Index coordinate) offset result }
        ensures empty { IsTrue is_empty → result ≡ offset }
    {
        let index = coordinate_on_axis(self.dim.length(axis), coordinate).unwrap_or(0);
        moved_unless(is_empty, offset, index, self.strides.stride(axis))
    }

    /// Returns what `element` of a list of slices and indexes makes of `axis`. `offset` is the offset that the elements
    /// before it left. It stays if no element of the array is left.
    #[inline]
    fn axis_by(
        &self,
        axis: usize,
        element: SliceInfoElem,
        offset: usize,
        is_empty: bool,
    ) -> AxisChange
        requires fits { IsTrue (fits_next (slice_get (D.lengths self.now.dim) axis) element) }
        requires leads { is_empty ≡ false → AxisLeads self.now axis offset }
        ensures len { result.len ≡ length_by (length_on self.now axis) element }
        ensures stride { result.stride ≡ stride_by (length_on self.now axis) (stride_on self.now axis) element }
        ensures offset { is_empty ≡ false → 0 < result.len → StartsBy self.now axis element offset result.offset }
        ensures new { reads_axis element ≡ false → result.offset ≡ offset }
        ensures empty { IsTrue is_empty → result.offset ≡ offset }
    {
        match element {
            SliceInfoElem::Slice { start, end, step } => {
                self.part_of_axis(axis, Slice { start, end, step }, offset, is_empty)
            }
            SliceInfoElem::Index(coordinate) => AxisChange {
                offset: self.offset_at(axis, coordinate, offset, is_empty),
                len: 1,
                stride: self.strides.stride(axis),
            },
            SliceInfoElem::NewAxis => AxisChange {
                offset,
                len: 1,
                stride: 0,
            },
        }
    }
}

impl<D: Dimension, T: StrideList> Layout<D, T> {
    /// Keeps of `axis` what `slice` names.
    #[inline]
    pub fn slice_axis(&mut self, axis: usize, slice: Slice)
        requires on { axis < length (D.lengths self.old.dim) }
        requires fits { IsTrue (fits_axis (slice_index (D.lengths self.old.dim) axis) slice) }
        ensures lengths { D.lengths self.new.dim ≡ sliced_shape (D.lengths self.old.dim) axis slice }
        ensures strides { HasSlicedStrides (placement_of self.old) (placement_of self.new) axis slice }
        ensures step { IsSlicedStep (placement_of self.old) (placement_of self.new) axis slice }
        ensures empty { size_of (D.lengths self.old.dim) ≡ 0 → self.new.offset ≡ self.old.offset }
    {
        let is_empty = is_empty_shape(self.dim.slice());
        let after = self.part_of_axis(axis, slice, self.offset, is_empty);
        self.offset = after.offset;
        self.dim.set_length(axis, after.len);
        self.strides.set(axis, after.stride);
    }
}

impl<D: Dimension, T: StrideList> Layout<D, T> {
    /// Returns the layout after a list of slices and indexes: a slice keeps its axis, an index removes its axis, and a
    /// new axis has length 1. The function is inlined, so that the caller's result is written in place.
    #[inline(always)]
    pub fn sliced<E: Dimension>(&self, elements: &[SliceInfoElem]) -> Layout<E, E::Strides>
        requires fits { IsTrue (fits_shape (D.lengths self.now.dim) elements.now) }
        requires axes_fit { IsTrue (E.has_axes (axes_kept elements.now)) }
        ensures lengths { E.lengths result.dim ≡ shape_after (D.lengths self.now.dim) elements.now }
        ensures step { IsListStep (placement_of self.now) (placement_of result) elements.now }
        ensures strides { HasListStrides (placement_of self.now) (placement_of result) elements.now }
        ensures empty { size_of (D.lengths self.now.dim) ≡ 0 → result.offset ≡ self.now.offset }
    {
        let mut dim = E::zeros(axes_kept(elements));
        let mut strides = dim.zero_strides();
        let mut offset = self.offset;
        let mut is_empty = is_empty_shape(self.dim.slice());
        let mut axis = 0;
        let mut kept = 0;
        for element in elements {
            let after = self.axis_by(axis, *element, offset, is_empty);
            offset = after.offset;
            is_empty = none_left(is_empty, after.len);
            axis = axis_after(axis, *element);
            if element.keeps_axis() {
                dim.set_length(kept, after.len);
                strides.set(kept, after.stride);
                kept += 1;
            }
        }
        Layout {
            offset,
            dim,
            strides,
        }
    }

    /// Changes the layout by one element of a list of slices and indexes: a slice keeps of `axis` what it names, an
    /// index keeps one coordinate, and a new axis changes nothing.
    fn slice_element(&mut self, axis: usize, element: SliceInfoElem)
        requires { IsTrue (fits_next (slice_get (D.lengths self.old.dim) axis) element) }
        ensures lengths { D.lengths self.new.dim ≡ shape_with (D.lengths self.old.dim) axis element }
        ensures step { IsElementStep (placement_of self.old) (placement_of self.new) axis element }
        ensures strides { HasElementStrides (placement_of self.old) (placement_of self.new) axis element }
        ensures empty { size_of (D.lengths self.old.dim) ≡ 0 → self.new.offset ≡ self.old.offset }
    {
        match element {
            SliceInfoElem::Slice { start, end, step } => {
                self.slice_axis(axis, Slice { start, end, step })
            }
            SliceInfoElem::Index(coordinate) => {
                let index = coordinate_on_axis(self.dim.length(axis), coordinate).unwrap_or(0);
                self.collapse_axis(axis, index)
            }
            SliceInfoElem::NewAxis => {}
        }
    }

    /// Changes the layout by a list of slices and indexes. The axis of an index stays, with length 1.
    pub fn slice_axes(&mut self, elements: &[SliceInfoElem])
        requires { IsTrue (each_fits (D.lengths self.old.dim) elements.now) }
        ensures lengths { D.lengths self.new.dim ≡ collapsed_after (D.lengths self.old.dim) elements.now }
        ensures step { IsCollapsedStep (placement_of self.old) (placement_of self.new) elements.now }
        ensures strides { HasCollapsedStrides (placement_of self.old) (placement_of self.new) elements.now }
        ensures empty { size_of (D.lengths self.old.dim) ≡ 0 → self.new.offset ≡ self.old.offset }
    {
        let mut axis = 0;
        for element in elements {
            self.slice_element(axis, *element);
            axis = axis_after(axis, *element);
        }
    }
}

impl<D: Dimension, T: StrideList> Layout<D, T> {
    /// Calls `f` with a description of each axis, from axis 0 on, and keeps of the axis what the slice names that `f`
    /// returns.
    pub fn slice_each_axis<F: FnMut(AxisDescription) -> Slice>(&mut self, mut f: F)
        requires { AnswersFit F.pre F.step f (axes_from 0 (D.lengths self.old.dim) (T.strides_of self.old.strides)) }
        ensures sliced { IsEachSliced F.step f (placement_of self.old) (placement_of self.new) }
        ensures empty { size_of (D.lengths self.old.dim) ≡ 0 → self.new.offset ≡ self.old.offset }
    {
        let before = self.copied();
        for axis in 0..before.dim.ndim() {
            let slice = f(AxisDescription {
                axis: Axis(axis),
                len: length_at(before.dim.slice(), axis),
                stride: stride_at(before.strides.slice(), axis),
            });
            self.slice_axis(axis, slice);
        }
    }
}
