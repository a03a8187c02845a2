//! Dimensions, which are lists of lengths, and lists of strides. Both have an entry for each axis.

ghost use Rattle.std.specs.Prelude.{◌≡◌, ◌<◌, ◌≤◌, ◌==◌, ◌&&◌, nat_le, ℕ, ℤ, pos, Bool, false, List, Option, Some, None, length, take, slice_index, slice_index_or, slice_set, slice_get, replicate, MatchOption, map, IsTrue};
ghost use Rattle.nd_shape_and_slice.specs.AxisCounts.{IsDimensionWith};
ghost use Rattle.nd_shape_and_slice.specs.ShapesAndIndexOrders.{HasCheckedSize, size_of};

use crate::checked_size::product_of;
use crate::short_array_access::{entry_at, set_entry};

/// The largest number of axes of an array.
pub const MAX_AXES: usize = 32;

/// A length or a coordinate. This is ndarray's `Ix`.
pub type Ix = usize;

/// A stride, or a bound of a slice. This is ndarray's `Ixs`.
pub type Ixs = isize;

/// A list of strides, one for each axis. Strides may be negative.
pub trait StrideList: Copy {
    ghost strides_of: { Self → List ℤ };

    /// Returns the strides, from axis 0 on.
    fn slice(&self) -> &[isize]
        ensures { result.now ≡ strides_of self.now };

    /// Returns the stride of `axis`.
    fn stride(&self, axis: usize) -> isize
        requires { axis < length (strides_of self.now) }
        ensures { result ≡ slice_index_or (strides_of self.now) axis (pos 0) };

    /// Sets the stride of `axis`, or does nothing if there is no such axis.
    fn set(&mut self, axis: usize, stride: isize)
        ensures { strides_of self.new ≡ slice_set (strides_of self.old) axis stride };
}

impl<const N: usize> StrideList for [isize; N] {
    ghost strides_of = { λ s. s };

    fn slice(&self) -> &[isize] {
        self
    }

    #[inline]
    fn stride(&self, axis: usize) -> isize {
        entry_at(self, axis)
    }

    #[inline]
    fn set(&mut self, axis: usize, stride: isize) {
        set_entry(self, axis, stride);
    }
}

/// The number of axes of a dimension type. It is the same for all values of the type, or may be any number.
pub trait AxisCount {
    /// The number of axes if it is the same for all values, and otherwise `None`. This is ndarray's `Dimension::NDIM`.
    const NDIM: Option<usize>;

    ghost NDIM: { Option ℕ };
}

/// The lengths of an array's axes. This is ndarray's `Dimension`.
pub trait Dimension: AxisCount + Copy {
    /// The type of the strides, one for each axis.
    type Strides: StrideList;

    ghost lengths: { Self → List ℕ };

    ghost has_axes: { ℕ → Bool };

    /// Returns the lengths, from axis 0 on. This is ndarray's `Dimension::slice`.
    fn slice(&self) -> &[usize]
        ensures lengths { result.now ≡ lengths self.now }
        ensures number { IsTrue (has_axes (length result.now)) }
        ensures few { length result.now ≤ MAX_AXES };

    /// Returns the length of `axis`. In ndarray this is `dim[axis]`.
    fn length(&self, axis: usize) -> usize
        requires { axis < length (lengths self.now) }
        ensures { result ≡ slice_index (lengths self.now) axis };

    /// Sets the length of `axis`, or does nothing if there is no such axis.
    fn set_length(&mut self, axis: usize, len: usize)
        ensures { lengths self.new ≡ slice_set (lengths self.old) axis len };

    /// Returns the dimension with the lengths `list`, or `None` exactly if the type can't have so many axes.
    fn from_lengths(list: &[usize]) -> Option<Self>
        ensures { MatchOption result (has_axes (length list.now) ≡ false) (λ d. lengths d ≡ list.now) };

    /// Returns the dimension with `count` axes, each of length 0. The type must be able to have so many. This is
    /// ndarray's `Dimension::zeros`.
    fn zeros(count: usize) -> Self
        requires number { IsTrue (has_axes count) }
        requires few { count ≤ MAX_AXES }
        ensures { lengths result ≡ replicate count 0 };

    /// Returns strides that are all 0, one for each axis.
    fn zero_strides(&self) -> Self::Strides
        ensures { Self.Strides.strides_of result ≡ replicate (length (lengths self.now)) (pos 0) };

    /// Returns the number of elements. The product of the lengths other than 0 must be at most `isize::MAX`. This is
    /// ndarray's `Dimension::size`.
    fn size(&self) -> usize
        requires { HasCheckedSize (lengths self.now) }
        ensures { result ≡ size_of (lengths self.now) }
    {
        product_of(self.slice())
    }

    /// Returns the number of axes, at most 32. This is ndarray's `Dimension::ndim`.
    fn ndim(&self) -> usize
        ensures value { result ≡ length (lengths self.now) }
        ensures few { result ≤ MAX_AXES }
    {
        self.slice().len()
    }
}

/// A dimension whose lengths, and whose indexes, can be read as a number, a tuple or the dimension itself. In ndarray
/// this is a part of `Dimension`.
pub trait IntoPattern: Dimension {
    /// The type of a pattern: a number, a tuple or the dimension itself. This is ndarray's `Dimension::Pattern`.
    type Pattern;

    ghost pattern_lengths: { Self.Pattern → List ℕ };

    /// Returns the lengths as a pattern. This is ndarray's `Dimension::into_pattern`.
    fn into_pattern(self) -> Self::Pattern
        ensures { pattern_lengths result ≡ Self.lengths self };
}

/// A dimension that can be made from a dimension of another type. This is ndarray's `Dimension::from_dimension`.
pub trait FromDimension: Dimension {
    /// Returns the dimension with the lengths of `other`, or `None` exactly if the type can't have so many axes.
    fn from_dimension<E: Dimension>(other: &E) -> Option<Self>
        ensures { IsDimensionWith Self.has_axes Self.lengths (E.lengths other.now) result };
}

impl<D: Dimension> FromDimension for D {
    fn from_dimension<E: Dimension>(other: &E) -> Option<D> {
        D::from_lengths(other.slice())
    }
}
