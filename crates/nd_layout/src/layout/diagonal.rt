//! The diagonal of a layout: the indexes whose coordinates are all equal.

ghost use Rattle.std.specs.Prelude.{◌≡◌, ◌<◌, ◌^◌, ℕ, [], ◌∷◌, length, min, slice_index, nat_abs, ◌+ℤ◌};
ghost use Rattle.nd_shape_and_slice.specs.PlacesAndOverlaps.{span_of};
ghost use Rattle.nd_layout.specs.StridesAfterLayoutCalls.{sum_of, diagonal_stride};
ghost use Rattle.nd_shape_and_slice.specs.LayoutIndexMaps.{diagonal_length};
ghost use Rattle.nd_layout.specs.LayoutStepsOfCalls.{placement_of, IsDiagonalStep};

use super::Layout;
use super::invert_split_and_permute_axes::{length_at, stride_at};
use nd_shape_and_slice::{Dimension, IntoDimension, Ix1, StrideList};

/// Returns the smaller of two lengths.
fn smaller(a: usize, b: usize) -> usize
    ensures { result ≡ min a b }
{
    if a < b { a } else { b }
}

/// Returns the length of the diagonal: the least of `lengths`, or 1 if there are no axes.
fn len_of_diagonal(lengths: &[usize]) -> usize
    ensures { result ≡ diagonal_length lengths.now }
{
    if lengths.is_empty() {
        return 1;
    }
    let mut least = length_at(lengths, 0);
    for k in 1..lengths.len() {
        least = smaller(least, length_at(lengths, k));
    }
    least
}

/// Returns the sum of two strides.
fn plus(a: isize, b: isize) -> isize
    requires { nat_abs (a +ℤ b) < 2 ^ 63 }
    ensures { result ≡ a +ℤ b }
{
    a + b
}

/// Returns the sum of `strides`. Every axis must be longer than 1.
fn sum_of_strides(lengths: &[usize], strides: &[isize]) -> isize
    requires as_many { length strides.now ≡ length lengths.now }
    requires long { (a : ℕ) → a < length lengths.now → 1 < slice_index lengths.now a }
    requires spread { span_of lengths.now strides.now < 2 ^ 63 }
    ensures { result ≡ sum_of strides.now }
{
    let mut sum = 0;
    for k in 0..lengths.len() {
        sum = plus(sum, stride_at(strides, k));
    }
    sum
}

/// Returns the stride of the diagonal, whose length is `len`: the sum of `strides`, or 0 if `len` is at most 1.
fn stride_of_diagonal(lengths: &[usize], strides: &[isize], len: usize) -> isize
    requires as_many { length strides.now ≡ length lengths.now }
    requires spread { span_of lengths.now strides.now < 2 ^ 63 }
    requires least { len ≡ diagonal_length lengths.now }
    ensures { result ≡ diagonal_stride lengths.now strides.now }
{
    if len <= 1 {
        0
    } else {
        sum_of_strides(lengths, strides)
    }
}

impl<D: Dimension, T: StrideList> Layout<D, T> {
    /// Returns the layout of the diagonal.
    pub fn diagonal(&self) -> Layout<Ix1, <Ix1 as Dimension>::Strides>
        ensures lengths { ⟦<Ix1 as Dimension>⟧.lengths result.dim ≡ diagonal_length (D.lengths self.now.dim) ∷ [] }
        ensures strides { result.strides ≡ diagonal_stride (D.lengths self.now.dim) (T.strides_of self.now.strides) ∷ [] }
        ensures step { IsDiagonalStep (placement_of self.now) (placement_of result) }
        ensures offset { result.offset ≡ self.now.offset }
    {
        let len = len_of_diagonal(self.dim.slice());
        let stride = stride_of_diagonal(self.dim.slice(), self.strides.slice(), len);
        Layout {
            offset: self.offset,
            dim: len.into_dimension(),
            strides: [stride],
        }
    }
}
