//! Calls that return the shape of an array, the number of its axes, rows, columns and elements, and that ask whether it
//! has elements.
#![tactic(auto, unfolding(crate::specs::ArrayMeaning::meaning_of), using(crate::proofs::reshape_lemmas::AxisLengthLimit::length_short, crate::proofs::reshape_lemmas::AxisLengthLimit::size_short, crate::proofs::reshape_lemmas::AxisLengthLimit::all_short))]

ghost use Rattle.std.specs.Prelude.{◌↔◌, ◌≡◌, ◌<◌, ◌≤◌, ◌^◌, ◌∷◌, [], ℕ, IsTrue, length, slice_index};
ghost use Rattle.nd_shape_and_slice.specs.ShapesAndIndexOrders.{size_of};
ghost use Rattle.nd_array_core.specs.ArrayMeaning.{shape_of};
ghost use Rattle.nd_array_core.specs.ElementsByCoordinates.{AllShort};

use crate::base::array::ArrayBase;
use nd_elements::storage::Data;
use nd_shape_and_slice::{Axis, Dimension, IntoPattern, Ix2, MAX_AXES, is_empty_shape};

impl<S: Data, D: Dimension> ArrayBase<S, D> {
    /// Returns the length of each axis. This is ndarray's `shape`.
    pub fn shape(&self) -> &[usize]
        ensures value { result.now ≡ shape_of self.now }
        ensures short { (axis : ℕ) → slice_index (shape_of self.now) axis < 2 ^ 63 }
    {
        self.layout.dim.slice()
    }

    /// Returns the number of axes, at most 32. This is ndarray's `ndim`.
    pub fn ndim(&self) -> usize
        ensures value { result ≡ length (shape_of self.now) }
        ensures number { IsTrue (D.has_axes result) }
        ensures few { result ≤ MAX_AXES }
    {
        let dim = &self.layout.dim;
        dim.slice().len()
    }

    /// Returns the number of elements. This is ndarray's `len`.
    pub fn len(&self) -> usize
        ensures value { result ≡ size_of (shape_of self.now) }
        ensures short { result < 2 ^ 63 }
    {
        self.layout.dim.size()
    }

    /// Returns the length of an axis below `ndim`. This is ndarray's `len_of`.
    pub fn len_of(&self, axis: Axis) -> usize
        requires { axis.0 < length (shape_of self.now) }
        ensures value { result ≡ slice_index (shape_of self.now) axis.0 }
        ensures short { result < 2 ^ 63 }
    {
        self.shape()[axis.0]
    }
}

impl<S: Data, D: IntoPattern> ArrayBase<S, D> {
    /// Returns the lengths of the axes, as a number, a tuple of numbers, or the dimension itself. This is ndarray's
    /// `dim`.
    pub fn dim(&self) -> D::Pattern
        ensures lengths { D.pattern_lengths result ≡ shape_of self.now }
        ensures short { AllShort (D.pattern_lengths result) }
    {
        self.layout.dim.into_pattern()
    }
}

impl<S: Data, D: Dimension> ArrayBase<S, D> {
    /// Returns the lengths as the dimension itself. This is ndarray's `raw_dim`.
    pub fn raw_dim(&self) -> D
        ensures { D.lengths result ≡ shape_of self.now }
    {
        self.layout.dim
    }

    /// Returns whether the array has no elements. This is ndarray's `is_empty`.
    pub fn is_empty(&self) -> bool
        ensures { IsTrue result ↔ (size_of (shape_of self.now) ≡ 0) }
    {
        is_empty_shape(self.shape())
    }
}

impl<S: Data> ArrayBase<S, Ix2> {
    /// Returns the number of rows, the length of axis 0. This is ndarray's `nrows`.
    pub fn nrows(&self) -> usize
        ensures rows { shape_of self.now ≡ result ∷ slice_index (shape_of self.now) 1 ∷ [] }
        ensures short { result < 2 ^ 63 }
    {
        self.dim().0
    }

    /// Returns the number of columns, the length of axis 1. This is ndarray's `ncols`.
    pub fn ncols(&self) -> usize
        ensures columns { shape_of self.now ≡ slice_index (shape_of self.now) 0 ∷ result ∷ [] }
        ensures short { result < 2 ^ 63 }
    {
        self.dim().1
    }

    /// Returns whether the array has as many rows as columns. This is ndarray's `is_square`.
    pub fn is_square(&self) -> bool
        ensures { IsTrue result ↔ (slice_index (shape_of self.now) 0 ≡ slice_index (shape_of self.now) 1) }
    {
        let (rows, columns) = self.dim();
        rows == columns
    }
}
