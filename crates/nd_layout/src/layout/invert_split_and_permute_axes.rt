//! Changes of one axis of a layout, and permutations of its axes. The cost of each depends only on the number of axes.

ghost use Rattle.std.specs.Prelude.{◌↔◌, ◌≡◌, ◌<◌, ◌≤◌, ◌-◌, IsTrue, length, reverse, slice_index, slice_index_or, slice_set, swap, pos, ◌+ℤ◌, ◌*ℤ◌};
ghost use Rattle.nd_shape_and_slice.specs.ShapesAndIndexOrders.{size_of};
ghost use Rattle.nd_shape_and_slice.specs.AxisPermutations.{HasEachAxis, permuted_list, unpermuted_list};
ghost use Rattle.nd_layout.specs.StridesAfterLayoutCalls.{permuted_strides as permuted_ints, inverted_strides, opposite_stride};
ghost use Rattle.nd_shape_and_slice.specs.LayoutIndexMaps.{inverted_index, collapsed_shape, collapsed_index, lower_shape, upper_shape, upper_index};
ghost use Rattle.nd_layout.specs.LayoutStepsOfCalls.{placement_of, IsStepOf};
ghost use Rattle.nd_layout.specs.OneAxisSteps.{IsMovedAlong, IsOffsetCollapsed, IsOffsetInverted, IsOffsetUpper, LeavesSome};

use super::Layout;
use super::place_at::moved_by;
use nd_shape_and_slice::{Dimension, StrideList, is_empty_shape};

/// Returns the length of `axis`.
pub(crate) fn length_at(lengths: &[usize], axis: usize) -> usize
    requires { axis < length lengths.now }
    ensures { result ≡ slice_index lengths.now axis }
{
    lengths[axis]
}

/// Returns the stride of `axis`.
pub fn stride_at(strides: &[isize], axis: usize) -> isize
    requires { axis < length strides.now }
    ensures { result ≡ slice_index_or strides.now axis (pos 0) }
{
    strides[axis]
}

/// Returns the negated stride, or 0 if that overflows.
fn opposite(stride: isize) -> isize
    ensures { result ≡ opposite_stride stride }
{
    stride.checked_neg().unwrap_or(0)
}

impl<D: Dimension, T: StrideList> Layout<D, T> {
    /// Returns whether the layout has no element after the length of `axis` is reduced to `len`.
    #[inline]
    pub(crate) fn leaves_none(&self, axis: usize, len: usize) -> bool
        requires on { axis < length (D.lengths self.now.dim) }
        requires shorter { len ≤ slice_index (D.lengths self.now.dim) axis }
        ensures { IsTrue result ↔ (size_of (slice_set (D.lengths self.now.dim) axis len) ≡ 0) }
    {
        len == 0 || is_empty_shape(self.dim.slice())
    }

    /// Returns the offset after `axis` was shortened to `len` so that its old coordinate `steps` is its new coordinate
    /// 0. If no element is left, the offset stays.
    #[inline]
    fn offset_after(&self, axis: usize, len: usize, steps: usize) -> usize
        requires on { axis < length (D.lengths self.now.dim) }
        requires shorter { len ≤ slice_index (D.lengths self.now.dim) axis }
        requires within { 0 < len → steps < slice_index (D.lengths self.now.dim) axis }
        ensures moved { LeavesSome self.now axis len → IsMovedAlong self.now axis steps self.now.offset result }
        ensures empty { size_of (D.lengths self.now.dim) ≡ 0 → result ≡ self.now.offset }
    {
        if self.leaves_none(axis, len) {
            self.offset
        } else {
            moved_by(self.offset, steps, self.strides.stride(axis))
        }
    }

    /// Returns the offset after `axis` is inverted.
    #[inline]
    fn offset_inverted(&self, axis: usize) -> usize
        requires { axis < length (D.lengths self.now.dim) }
        ensures step { IsOffsetInverted (placement_of self.now) axis result }
        ensures empty { size_of (D.lengths self.now.dim) ≡ 0 → result ≡ self.now.offset }
    {
        let len = self.dim.length(axis);
        self.offset_after(axis, len, len.saturating_sub(1))
    }

    /// Returns the offset after only the coordinate `index` of `axis` is kept.
    #[inline]
    pub(crate) fn offset_collapsed(&self, axis: usize, index: usize) -> usize
        requires on { axis < length (D.lengths self.now.dim) }
        requires within { index < slice_index (D.lengths self.now.dim) axis }
        ensures step { IsOffsetCollapsed (placement_of self.now) axis index result }
        ensures empty { size_of (D.lengths self.now.dim) ≡ 0 → result ≡ self.now.offset }
    {
        self.offset_after(axis, 1, index)
    }

    /// Returns the offset after only the coordinates of `axis` from `index` on are kept.
    #[inline]
    fn offset_upper(&self, axis: usize, index: usize) -> usize
        requires on { axis < length (D.lengths self.now.dim) }
        requires within { index ≤ slice_index (D.lengths self.now.dim) axis }
        ensures step { IsOffsetUpper (placement_of self.now) axis index result }
        ensures empty { size_of (D.lengths self.now.dim) ≡ 0 → result ≡ self.now.offset }
    {
        self.offset_after(axis, self.dim.length(axis) - index, index)
    }

    /// Inverts `axis`: its last coordinate becomes its first.
    #[inline]
    pub fn invert_axis(&mut self, axis: usize)
        requires { axis < length (D.lengths self.old.dim) }
        ensures lengths { D.lengths self.new.dim ≡ D.lengths self.old.dim }
        ensures strides { T.strides_of self.new.strides ≡ inverted_strides (T.strides_of self.old.strides) axis }
        ensures step { IsStepOf (placement_of self.old) (placement_of self.new) (inverted_index (D.lengths self.old.dim) axis) }
        ensures empty { size_of (D.lengths self.old.dim) ≡ 0 → self.new.offset ≡ self.old.offset }
    {
        let offset = self.offset_inverted(axis);
        let stride = opposite(self.strides.stride(axis));
        self.offset = offset;
        self.strides.set(axis, stride);
    }

    /// Keeps only the coordinate `index` of `axis`, whose length becomes 1.
    #[inline]
    pub fn collapse_axis(&mut self, axis: usize, index: usize)
        requires on { axis < length (D.lengths self.old.dim) }
        requires within { index < slice_index (D.lengths self.old.dim) axis }
        ensures lengths { D.lengths self.new.dim ≡ collapsed_shape (D.lengths self.old.dim) axis }
        ensures strides { T.strides_of self.new.strides ≡ T.strides_of self.old.strides }
        ensures step { IsStepOf (placement_of self.old) (placement_of self.new) (collapsed_index axis index) }
        ensures empty { size_of (D.lengths self.old.dim) ≡ 0 → self.new.offset ≡ self.old.offset }
    {
        let offset = self.offset_collapsed(axis, index);
        self.offset = offset;
        self.dim.set_length(axis, 1);
    }

    /// Keeps only the coordinates of `axis` below `index`.
    #[inline]
    pub fn keep_lower(&mut self, axis: usize, index: usize)
        requires on { axis < length (D.lengths self.old.dim) }
        requires within { index ≤ slice_index (D.lengths self.old.dim) axis }
        ensures lengths { D.lengths self.new.dim ≡ lower_shape (D.lengths self.old.dim) axis index }
        ensures strides { T.strides_of self.new.strides ≡ T.strides_of self.old.strides }
        ensures step { IsStepOf (placement_of self.old) (placement_of self.new) (λ i. i) }
        ensures offset { self.new.offset ≡ self.old.offset }
    {
        self.dim.set_length(axis, index);
    }

    /// Keeps only the coordinates of `axis` from `index` on.
    #[inline]
    pub fn keep_upper(&mut self, axis: usize, index: usize)
        requires on { axis < length (D.lengths self.old.dim) }
        requires within { index ≤ slice_index (D.lengths self.old.dim) axis }
        ensures lengths { D.lengths self.new.dim ≡ upper_shape (D.lengths self.old.dim) axis index }
        ensures strides { T.strides_of self.new.strides ≡ T.strides_of self.old.strides }
        ensures step { IsStepOf (placement_of self.old) (placement_of self.new) (upper_index axis index) }
        ensures empty { size_of (D.lengths self.old.dim) ≡ 0 → self.new.offset ≡ self.old.offset }
    {
        let offset = self.offset_upper(axis, index);
        let len = self.dim.length(axis);
        self.offset = offset;
        self.dim.set_length(axis, len - index);
    }

    /// Splits the layout in two at `axis`: the first layout has the coordinates below `index`, the second those from
    /// `index` on.
    #[inline]
    pub fn halves(&self, axis: usize, index: usize) -> (Self, Self)
        requires on { axis < length (D.lengths self.now.dim) }
        requires within { index ≤ slice_index (D.lengths self.now.dim) axis }
        ensures lower_lengths { D.lengths result.0.dim ≡ lower_shape (D.lengths self.now.dim) axis index }
        ensures lower_strides { T.strides_of result.0.strides ≡ T.strides_of self.now.strides }
        ensures lower { IsStepOf (placement_of self.now) (placement_of result.0) (λ i. i) }
        ensures upper_lengths { D.lengths result.1.dim ≡ upper_shape (D.lengths self.now.dim) axis index }
        ensures upper_strides { T.strides_of result.1.strides ≡ T.strides_of self.now.strides }
        ensures upper { IsStepOf (placement_of self.now) (placement_of result.1) (upper_index axis index) }
        ensures lower_offset { result.0.offset ≡ self.now.offset }
        ensures upper_empty { size_of (D.lengths self.now.dim) ≡ 0 → result.1.offset ≡ self.now.offset }
    {
        let mut lower = self.copied();
        let mut upper = self.copied();
        lower.keep_lower(axis, index);
        upper.keep_upper(axis, index);
        (lower, upper)
    }
}

/// Exchanges the lengths and strides of the axes `a` and `b`.
#[inline]
fn exchange<D: Dimension, T: StrideList>(dim: &mut D, strides: &mut T, a: usize, b: usize)
    requires as_many { length (T.strides_of strides.old) ≡ length (D.lengths dim.old) }
    requires a { a < length (D.lengths dim.old) }
    requires b { b < length (D.lengths dim.old) }
    ensures lengths { D.lengths dim.new ≡ swap (D.lengths dim.old) a b }
    ensures strides { T.strides_of strides.new ≡ swap (T.strides_of strides.old) a b }
{
    let (len, stride) = (dim.length(a), strides.stride(a));
    let (other_len, other_stride) = (dim.length(b), strides.stride(b));
    dim.set_length(a, other_len);
    strides.set(a, other_stride);
    dim.set_length(b, len);
    strides.set(b, stride);
}

/// Reverses the order of the axes in `dim` and `strides`.
#[inline]
fn reverse<D: Dimension, T: StrideList>(dim: &mut D, strides: &mut T)
    requires { length (T.strides_of strides.old) ≡ length (D.lengths dim.old) }
    ensures lengths { D.lengths dim.new ≡ reverse (D.lengths dim.old) }
    ensures strides { T.strides_of strides.new ≡ reverse (T.strides_of strides.old) }
{
    let count = dim.ndim();
    for k in 0..count / 2 {
        exchange(dim, strides, k, count - 1 - k);
    }
}

/// Permutes two axes in `dim` and `strides`: the new axis `k` is the old axis `axes[k]`.
#[inline]
fn permute_two<D: Dimension, T: StrideList>(dim: &mut D, strides: &mut T, axes: &[usize])
    requires as_many { length (T.strides_of strides.old) ≡ length (D.lengths dim.old) }
    requires each { HasEachAxis axes.now (length (D.lengths dim.old)) }
    requires two { length axes.now ≡ 2 }
    ensures lengths { D.lengths dim.new ≡ permuted_list axes.now (D.lengths dim.old) }
    ensures strides { T.strides_of strides.new ≡ permuted_ints axes.now (T.strides_of strides.old) }
{
    exchange(dim, strides, 0, axes[0]);
}

/// Permutes any number of axes in `dim` and `strides`: the new axis `k` is the old axis `axes[k]`.
#[inline]
#[tactic(auto, using(crate::proofs::PermutedAxes::axis_below))]
fn permute_each<D: Dimension, T: StrideList>(dim: &mut D, strides: &mut T, axes: &[usize])
    requires as_many { length (T.strides_of strides.old) ≡ length (D.lengths dim.old) }
    requires each { HasEachAxis axes.now (length (D.lengths dim.old)) }
    ensures lengths { D.lengths dim.new ≡ permuted_list axes.now (D.lengths dim.old) }
    ensures strides { T.strides_of strides.new ≡ permuted_ints axes.now (T.strides_of strides.old) }
{
    let (old_dim, old_strides) = (*dim, *strides);
    for k in 0..axes.len() {
        dim.set_length(k, old_dim.length(axes[k]));
        strides.set(k, old_strides.stride(axes[k]));
    }
}

/// Permutes the axes in `dim` and `strides`: the new axis `k` is the old axis `axes[k]`. Two axes are exchanged in
/// place, without a copy of `dim` and `strides`.
#[inline]
fn permute<D: Dimension, T: StrideList>(dim: &mut D, strides: &mut T, axes: &[usize])
    requires as_many { length (T.strides_of strides.old) ≡ length (D.lengths dim.old) }
    requires each { HasEachAxis axes.now (length (D.lengths dim.old)) }
    ensures lengths { D.lengths dim.new ≡ permuted_list axes.now (D.lengths dim.old) }
    ensures strides { T.strides_of strides.new ≡ permuted_ints axes.now (T.strides_of strides.old) }
{
    if axes.len() == 2 {
        permute_two(dim, strides, axes);
    } else {
        permute_each(dim, strides, axes);
    }
}

impl<D: Dimension, T: StrideList> Layout<D, T> {
    /// Exchanges the axes `a` and `b`.
    #[inline]
    pub fn swap_axes(&mut self, a: usize, b: usize)
        requires a { a < length (D.lengths self.old.dim) }
        requires b { b < length (D.lengths self.old.dim) }
        ensures lengths { D.lengths self.new.dim ≡ swap (D.lengths self.old.dim) a b }
        ensures strides { T.strides_of self.new.strides ≡ swap (T.strides_of self.old.strides) a b }
        ensures step { IsStepOf (placement_of self.old) (placement_of self.new) (λ i. swap i a b) }
        ensures offset { self.new.offset ≡ self.old.offset }
    {
        exchange(&mut self.dim, &mut self.strides, a, b);
    }

    /// Reverses the order of the axes.
    #[inline]
    pub fn reverse_axes(&mut self)
        ensures lengths { D.lengths self.new.dim ≡ reverse (D.lengths self.old.dim) }
        ensures strides { T.strides_of self.new.strides ≡ reverse (T.strides_of self.old.strides) }
        ensures step { IsStepOf (placement_of self.old) (placement_of self.new) reverse }
        ensures offset { self.new.offset ≡ self.old.offset }
    {
        reverse(&mut self.dim, &mut self.strides);
    }

    /// Permutes the axes: the new axis `k` is the old axis `axes[k]`.
    #[inline]
    pub fn permute_axes(&mut self, axes: &[usize])
        requires { HasEachAxis axes.now (length (D.lengths self.old.dim)) }
        ensures lengths { D.lengths self.new.dim ≡ permuted_list axes.now (D.lengths self.old.dim) }
        ensures strides { T.strides_of self.new.strides ≡ permuted_ints axes.now (T.strides_of self.old.strides) }
        ensures step { IsStepOf (placement_of self.old) (placement_of self.new) (unpermuted_list axes.now) }
        ensures offset { self.new.offset ≡ self.old.offset }
    {
        permute(&mut self.dim, &mut self.strides, axes);
    }
}
