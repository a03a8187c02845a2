//! The places of a layout as one value without a dimension type, over which loops go.

ghost use Rattle.std.specs.Prelude.{◌≡◌, ◌<◌, ◌≤◌, ◌^◌, false, length, IfSome};
ghost use Rattle.nd_shape_and_slice.specs.ShapesAndIndexOrders.{HasCheckedSize};
ghost use Rattle.nd_layout.specs.ValidMemoryPlaces.{ReachesPlaces};
ghost use Rattle.nd_layout.specs.RowMajorWalk.{StepsThrough};

use crate::layout::Layout;
use crate::order::joined_axes::continues;
use crate::walk::lane::Lane;
use crate::walk::lanes::Lanes;
use nd_shape_and_slice::{Dimension, StrideList};

/// The places of a layout, whatever its dimension type: its lengths and strides as slices. There are as many strides as
/// lengths, at most 32; the product of the lengths other than 0 is at most `isize::MAX`; each index of the shape has a
/// place.
#[derive(Clone, Copy)]
pub struct Places<'a> {
    /// The place of the index whose coordinates are all 0.
    pub first: usize,
    pub lengths: &'a [usize],
    pub strides: &'a [isize],
    ghost as_many: { length strides.now ≡ length lengths.now },
    ghost few: { length lengths.now ≤ 32 },
    ghost checked: { HasCheckedSize lengths.now },
    ghost reach: { ReachesPlaces first lengths.now strides.now },
}

/// Returns the stride of the one axis that an axis of length `len` and stride `outer` and the axis after it, of length
/// `count` and stride `inner`, are together, or `None` if the first doesn't go on where the second ends. With
/// `skips_ones`, an axis of length 1 adds nothing, and its stride doesn't matter.
#[inline]
fn stride_of_both(
    len: usize,
    outer: isize,
    count: usize,
    inner: isize,
    skips_ones: bool,
) -> Option<isize>
    requires { count < 2 ^ 63 }
    ensures { IfSome result (λ stride. StepsThrough skips_ones len outer count inner stride) }
{
    if skips_ones && len == 1 {
        Some(inner)
    } else if count == 1 {
        Some(outer)
    } else if continues(outer, count, inner) {
        Some(inner)
    } else {
        None
    }
}

impl<'a> Places<'a> {
    ghost use Rattle.nd_layout.specs.NumberedPlacesAndWalks.{AreLanesOf, NumberSamePlaces, along, ranked};

    /// Returns the one lane that has all places in row-major order, if there are places and each axis goes on where the
    /// axis after it ends. With `skips_ones`, this isn't asked of axes of length 1.
    #[inline]
    fn joined(&self, skips_ones: bool) -> Option<Lane>
        ensures run { IfSome result (λ lane. NumberSamePlaces (along lane) (ranked self.now)) }
        ensures lane { skips_ones ≡ false → IfSome result (λ lane. along lane ≡ ranked self.now) }
    {
        let mut count: usize = 1;
        let mut stride: isize = 0;
        let mut axis = self.lengths.len();
        while axis > 0 {
            axis -= 1;
            let len = self.lengths[axis];
            if len == 0 {
                return None;
            }
            match stride_of_both(len, self.strides[axis], count, stride, skips_ones) {
                Some(whole) => stride = whole,
                None => return None,
            }
            count *= len;
        }
        Some(Lane {
            place: self.first,
            count,
            stride,
        })
    }

    /// Returns the one lane that has all places in row-major order, if there are places and each axis goes on where the
    /// axis after it ends.
    #[inline]
    pub fn as_lane(&self) -> Option<Lane>
        ensures { IfSome result (λ lane. along lane ≡ ranked self.now) }
    {
        self.joined(false)
    }

    /// Returns the one lane that has all places in row-major order, if there are places and each axis longer than 1 goes
    /// on where the next axis longer than 1 ends.
    #[inline]
    pub fn as_run(&self) -> Option<Lane>
        ensures { IfSome result (λ run. NumberSamePlaces (along run) (ranked self.now)) }
    {
        self.joined(true)
    }

    /// Returns the one lane that has all these places and the one that has all places of `other`, as `as_lane` returns
    /// them, if there are both.
    #[inline]
    pub fn as_lanes(&self, other: &Places<'_>) -> Option<(Lane, Lane)>
        ensures { IfSome result (λ lanes. (along lanes.0 ≡ ranked self.now) × (along lanes.1 ≡ ranked other.now)) }
    {
        let lane = self.as_lane()?;
        let aside = other.as_lane()?;
        Some((lane, aside))
    }

    /// Returns an iterator over the lanes, which begins with the first one.
    #[inline(always)]
    pub fn lanes(self) -> Lanes<'a>
        ensures over { AreLanesOf self.entry result }
        ensures rank { result.rank ≡ 0 }
    {
        Lanes::new(self.first, self.lengths, self.strides)
    }
}

impl<D: Dimension, T: StrideList> Layout<D, T> {
    ghost use Rattle.nd_layout.specs.NumberedPlacesAndWalks.{placement_in};
    ghost use Rattle.nd_layout.specs.LayoutStepsOfCalls.{placement_of};

    /// Returns the places of the layout as a value without a dimension type.
    #[inline]
    pub fn places(&self) -> Places<'_>
        ensures { placement_in result ≡ placement_of self.now }
    {
        Places {
            first: self.offset,
            lengths: self.dim.slice(),
            strides: self.strides.slice(),
        }
    }
}
