//! Descriptions of the axes of an array, and an iterator over them.

ghost use Rattle.std.specs.Prelude.{◌≡◌, ◌≤◌, ◌+◌, ℕ, List, length};
ghost use Rattle.std.specs.Iterator.{YieldsFirst, item_count};
ghost use Rattle.nd_shape_and_slice.specs.AxisDescriptions.{axes_from};

use crate::axis_numbers_and_permutations::Axis;
use crate::dimension::{Dimension, StrideList};
use std::marker::PhantomData;

/// The number, length and stride of an axis of an array. This is ndarray's `AxisDescription`.
#[derive(Clone, Copy, Debug, PartialEq, Eq)]
pub struct AxisDescription {
    /// The number of the axis.
    pub axis: Axis,
    /// The length of the axis.
    pub len: usize,
    /// The stride of the axis.
    pub stride: isize,
}

/// An iterator over the axes of an array, from axis 0 on. This is ndarray's `Axes`.
#[derive(Drop)]
pub struct Axes<'a, D> {
    axis: usize,
    lengths: &'a [usize],
    strides: &'a [isize],
    of: PhantomData<D>,
    ghost few: { axis + length lengths.now ≤ 32 },
}

impl<'a, D: Dimension> Axes<'a, D> {
    ghost use Rattle.nd_shape_and_slice.specs.RemainingAxesOfIterator.{axes_left};

    /// Returns an iterator over the axes with the lengths `dim` and the strides `strides`.
    pub fn new<T: StrideList>(dim: &'a D, strides: &'a T) -> Self
        ensures { axes_left result ≡ axes_from 0 (D.lengths dim.now) (T.strides_of strides.now) }
    {
        Axes {
            axis: 0,
            lengths: dim.slice(),
            strides: strides.slice(),
            of: PhantomData,
        }
    }
}

impl<'a, D> Iterator for Axes<'a, D> {
    type Item = AxisDescription;

    ghost next_gives = { YieldsFirst (λ s. axes_from s.axis s.lengths.now s.strides.now) };

    ghost remaining = { item_count (λ s. axes_from s.axis s.lengths.now s.strides.now) };

    fn next(&mut self) -> Option<AxisDescription> {
        let (len, lengths) = self.lengths.split_first()?;
        let (stride, strides) = self.strides.split_first()?;
        let axis = self.axis;
        self.axis = axis + 1;
        self.lengths = lengths;
        self.strides = strides;
        Some(AxisDescription {
            axis: Axis(axis),
            len: *len,
            stride: *stride,
        })
    }
}
