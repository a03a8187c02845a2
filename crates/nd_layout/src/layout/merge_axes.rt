//! Finding the axis with the greatest stride, and merging one axis into another. The cost of each depends only on the
//! number of axes.

ghost use Rattle.std.specs.Prelude.{◌↔◌, ◌≡◌, ◌<◌, ◌*◌, ◌^◌, IsTrue, false, min, swap, length, slice_index};
ghost use Rattle.nd_shape_and_slice.specs.ShapesAndIndexOrders.{HasCheckedSize};
ghost use Rattle.nd_layout.specs.MergedAxes.{StepsFurthest, StepsNoLess, CanMerge, merged_shape, merged_strides, strides_merged_by};
ghost use Rattle.nd_layout.specs.LayoutStepsOfCalls.{placement_of, HasMergedStrides, IsMergedStep};

use super::Layout;
use crate::order::joined_axes::continues;
use nd_shape_and_slice::{Dimension, StrideList};

/// Returns whether `axis` is longer than 1, and either `best` isn't longer than 1, or the stride of `best` has no
/// greater magnitude than that of `axis`.
fn steps_no_less(lengths: &[usize], strides: &[isize], axis: usize, best: usize) -> bool
    requires as_many { length strides.now ≡ length lengths.now }
    requires axis { axis < length lengths.now }
    requires best { best < length lengths.now }
    ensures { IsTrue result ↔ StepsNoLess lengths.now strides.now axis best }
{
    if lengths[axis] <= 1 {
        return false;
    }
    lengths[best] <= 1 || strides[best].unsigned_abs() <= strides[axis].unsigned_abs()
}

/// Returns the axis whose stride has the greatest magnitude, of the axes longer than 1; of several such axes the last
/// one. Returns 0 if no axis is longer than 1.
pub fn furthest_axis(lengths: &[usize], strides: &[isize]) -> usize
    requires as_many { length strides.now ≡ length lengths.now }
    requires some { 0 < length lengths.now }
    ensures { StepsFurthest lengths.now strides.now result }
{
    let mut best = 0;
    for axis in 0..lengths.len() {
        if steps_no_less(lengths, strides, axis, best) {
            best = axis;
        }
    }
    best
}

/// Returns whether the axis `take` can be merged into the axis `into`.
fn can_merge(lengths: &[usize], strides: &[isize], take: usize, into: usize) -> bool
    requires as_many { length strides.now ≡ length lengths.now }
    requires checked { HasCheckedSize lengths.now }
    requires take { take < length lengths.now }
    requires into { into < length lengths.now }
    ensures { IsTrue result ↔ CanMerge lengths.now strides.now take into }
{
    let len = lengths[into];
    if lengths[take] <= 1 || len <= 1 {
        return true;
    }
    take != into && continues(strides[take], len, strides[into])
}

/// Returns the smaller of `number` and 1.
fn at_most_one(number: usize) -> usize
    ensures { result ≡ min 1 number }
{
    if number == 0 { 0 } else { 1 }
}

/// Exchanges the strides of the axes `a` and `b`.
fn exchange_strides<T: StrideList>(strides: &mut T, a: usize, b: usize)
    requires a { a < length (T.strides_of strides.old) }
    requires b { b < length (T.strides_of strides.old) }
    ensures { T.strides_of strides.new ≡ swap (T.strides_of strides.old) a b }
{
    let stride = strides.stride(a);
    let other = strides.stride(b);
    strides.set(a, other);
    strides.set(b, stride);
}

/// Changes the strides as merging the axis `take` of length `taken` into the axis `into` of length `len` does:
/// exchanges them if `taken` is greater than 1 and `len` is not.
fn merge_strides<T: StrideList>(strides: &mut T, take: usize, taken: usize, into: usize, len: usize)
    requires take { take < length (T.strides_of strides.old) }
    requires into { into < length (T.strides_of strides.old) }
    ensures { T.strides_of strides.new ≡ strides_merged_by (T.strides_of strides.old) take taken into len }
{
    if len > 1 {
        return;
    }
    if taken > 1 {
        exchange_strides(strides, take, into);
    }
}

/// Merges the axis `take` into the axis `into`. The length of `into` becomes the product of both lengths, and that of
/// `take` 1, or 0 if the product is 0.
fn merge<D: Dimension, T: StrideList>(dim: &mut D, strides: &mut T, take: usize, into: usize)
    requires as_many { length (T.strides_of strides.old) ≡ length (D.lengths dim.old) }
    requires take { take < length (D.lengths dim.old) }
    requires into { into < length (D.lengths dim.old) }
    requires fits { slice_index (D.lengths dim.old) into * slice_index (D.lengths dim.old) take < 2 ^ 63 }
    ensures lengths { D.lengths dim.new ≡ merged_shape (D.lengths dim.old) take into }
    ensures strides { T.strides_of strides.new ≡ merged_strides (D.lengths dim.old) (T.strides_of strides.old) take into }
{
    let (len, taken) = (dim.length(into), dim.length(take));
    dim.set_length(into, len * taken);
    dim.set_length(take, at_most_one(len * taken));
    merge_strides(strides, take, taken, into, len);
}

impl<D: Dimension, T: StrideList> Layout<D, T> {
    /// Merges the axis `take` into the axis `into` if one of them has at most length 1, or if they are different axes
    /// and the stride of `take` is the length of `into` times its stride. The length of `into` becomes the product of
    /// both lengths, and that of `take` 1, or 0 if the product is 0. Otherwise returns false and changes nothing.
    pub fn merge_axes(&mut self, take: usize, into: usize) -> bool
        requires take { take < length (D.lengths self.old.dim) }
        requires into { into < length (D.lengths self.old.dim) }
        ensures merges { IsTrue result ↔ CanMerge (D.lengths self.old.dim) (T.strides_of self.old.strides) take into }
        ensures lengths { IsTrue result → D.lengths self.new.dim ≡ merged_shape (D.lengths self.old.dim) take into }
        ensures strides { IsTrue result → HasMergedStrides (placement_of self.old) (placement_of self.new) take into }
        ensures step { IsTrue result → IsMergedStep (placement_of self.old) (placement_of self.new) take into }
        ensures offset { self.new.offset ≡ self.old.offset }
        ensures kept { result ≡ false → placement_of self.new ≡ placement_of self.old }
    {
        if !can_merge(self.dim.slice(), self.strides.slice(), take, into) {
            return false;
        }
        merge(&mut self.dim, &mut self.strides, take, into);
        true
    }
}
