//! Where the elements of an array lie: an offset, lengths and strides.

ghost use Rattle.std.specs.Prelude.{◌↔◌, ◌≡◌, ◌<◌, ◌^◌, ⊤, ℕ, List, length, pos, IsNone, IsTrue};
ghost use Rattle.nd_shape_and_slice.specs.ShapesAndIndexOrders.{in_box, size_of, nonzero_product, HasCheckedSize};
ghost use Rattle.nd_shape_and_slice.specs.PlacesAndOverlaps.{place_of, span_of};
ghost use Rattle.nd_layout.specs.GivenStrides.{ordered_strides};
ghost use Rattle.nd_layout.specs.ValidMemoryPlaces.{is_place, IsPlaceOf, IsFirstPlace};
ghost use Rattle.nd_layout.specs.ValidLayoutsAndSteps.{IsValid};

mod axes_inserted_or_removed;
mod broadcast;
mod diagonal;
pub mod given_strides;
pub mod invert_split_and_permute_axes;
pub mod merge_axes;
pub(crate) mod place_at;
mod slices;
mod squeeze;

use given_strides::strides_in;
use nd_shape_and_slice::{Dimension, Order, StrideList, is_empty_shape};
use place_at::{is_in_box, place_at};
use std::alloc::AllocError;

/// A layout of elements: an offset, a shape, and for each axis a stride, which may be negative. There are as many
/// strides as axes; the product of the lengths other than 0 is at most `isize::MAX`; no two places lie further apart
/// than `isize::MAX`; each index of the shape has a place.
pub struct Layout<D: Dimension, T: StrideList> {
    pub offset: usize,
    pub dim: D,
    pub strides: T,
    ghost as_many: { length (T.strides_of strides) ≡ length (D.lengths dim) },
    ghost spread: { span_of (D.lengths dim) (T.strides_of strides) < 2 ^ 63 },
    ghost checked: { nonzero_product (D.lengths dim) < 2 ^ 63 },
    ghost reach: { (i : List ℕ) → IsTrue (in_box (D.lengths dim) i) → IsTrue (is_place (place_of offset (T.strides_of strides) i)) },
}

impl<D: Dimension, T: StrideList> Clone for Layout<D, T> {
    ghost is_clone = { λ layout copy. copy ≡ layout };

    ghost is_infallible = { λ _. ⊤ };

    fn clone(&self) -> Result<Self, AllocError> {
        Ok(Layout {
            offset: self.offset,
            dim: self.dim,
            strides: self.strides,
        })
    }
}

impl<D: Dimension, T: StrideList> Copy for Layout<D, T> {}

impl<D: Dimension> Layout<D, D::Strides> {
    /// Returns the layout of a new array: its elements lie one after another in row-major or column-major order, from
    /// place 0 on.
    pub fn in_order(dim: D, order: Order) -> Self
        requires { HasCheckedSize (D.lengths dim) }
        ensures offset { result.offset ≡ 0 }
        ensures lengths { D.lengths result.dim ≡ D.lengths dim }
        ensures strides { D.Strides.strides_of result.strides ≡ ordered_strides order (D.lengths dim) }
    {
        let strides = strides_in(&dim, order);
        Layout {
            offset: 0,
            dim,
            strides,
        }
    }

    /// Returns the layout with the offset, shape and strides that are given.
    pub fn strided(offset: usize, dim: D, strides: D::Strides) -> Self
        requires valid { IsValid offset (D.lengths dim) (D.Strides.strides_of strides) }
        ensures offset { result.offset ≡ offset }
        ensures lengths { D.lengths result.dim ≡ D.lengths dim }
        ensures strides { D.Strides.strides_of result.strides ≡ D.Strides.strides_of strides }
    {
        Layout {
            offset,
            dim,
            strides,
        }
    }
}

impl<D: Dimension, T: StrideList> Layout<D, T> {
    /// Returns a copy of the layout.
    #[inline]
    pub fn copied(&self) -> Self
        ensures offset { result.offset ≡ self.now.offset }
        ensures lengths { D.lengths result.dim ≡ D.lengths self.now.dim }
        ensures strides { T.strides_of result.strides ≡ T.strides_of self.now.strides }
    {
        Layout {
            offset: self.offset,
            dim: self.dim,
            strides: self.strides,
        }
    }

    /// Returns the place of `index`, or `None` exactly if it isn't an index of the shape.
    pub fn place_of(&self, index: &[usize]) -> Option<usize>
        ensures { IsPlaceOf self.now.offset (D.lengths self.now.dim) (T.strides_of self.now.strides) index.now result }
    {
        let lengths = self.dim.slice();
        if is_in_box(lengths, index) {
            Some(place_at(self.offset, lengths, self.strides.slice(), index))
        } else {
            None
        }
    }

    /// Returns the place of the index whose coordinates are all 0, or `None` exactly if the layout has no index.
    #[tactic(auto, using(crate::proofs::FirstPlace::first_is_offset, crate::proofs::FirstPlace::first_outside, crate::proofs::FirstPlace::first_inside))]
    pub fn first_place(&self) -> Option<usize>
        ensures place { IsFirstPlace self.now.offset (D.lengths self.now.dim) (T.strides_of self.now.strides) result }
        ensures none { IsNone result ↔ (size_of (D.lengths self.now.dim) ≡ 0) }
    {
        if is_empty_shape(self.dim.slice()) {
            None
        } else {
            Some(self.offset)
        }
    }

    /// Returns the place of `index`, which must be an index of the shape.
    pub fn place_in_box(&self, index: &[usize]) -> usize
        requires { IsTrue (in_box (D.lengths self.now.dim) index.now) }
        ensures { pos result ≡ place_of self.now.offset (T.strides_of self.now.strides) index.now }
    {
        place_at(self.offset, self.dim.slice(), self.strides.slice(), index)
    }
}
