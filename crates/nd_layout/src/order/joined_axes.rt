//! Joining axes that continue one another into one axis.

ghost use Rattle.std.specs.Prelude.{◌↔◌, ◌≡◌, ◌+◌, ◌*◌, ◌<◌, ◌^◌, ◌*ℤ◌, pos, length, IsTrue};
ghost use Rattle.nd_shape_and_slice.specs.ShapesAndIndexOrders.{HasCheckedSize};
ghost use Rattle.nd_layout.specs.RowMajorWalk.{IsRejoined, IsJoint};
ghost use Rattle.nd_layout.specs.LayoutStepsOfCalls.{placement_of, IsRejoinedOf};

use crate::layout::Layout;
use nd_shape_and_slice::{Dimension, StrideList, is_empty_shape};

/// An axis: its number, length and stride.
#[derive(Clone, Copy)]
struct Joint {
    at: usize,
    len: usize,
    stride: isize,
}

/// Returns whether `stride` is `len` times `step`: a step along an axis of stride `stride` then leads to where an axis
/// of length `len` and stride `step` ends.
pub(crate) fn continues(stride: isize, len: usize, step: isize) -> bool
    requires { len < 2 ^ 63 }
    ensures { IsTrue result ↔ (stride ≡ pos len *ℤ step) }
{
    match step.checked_mul(len as isize) {
        Some(next) => next == stride,
        None => false,
    }
}

/// Returns the axis with length `len` and stride `stride` joined with `later` if they continue one another or one has
/// length 1; otherwise that axis alone, as the axis before `later`.
fn joined_with(len: usize, stride: isize, later: Joint) -> Joint
    requires fits { len * later.len < 2 ^ 63 }
    requires small { later.len < 2 ^ 63 }
    requires before { 0 < later.at }
    ensures { IsJoint len stride later.at later.len later.stride result.at result.len result.stride }
{
    if len == 1 {
        later
    } else if later.len == 1 {
        Joint {
            at: later.at,
            len,
            stride,
        }
    } else if continues(stride, later.len, later.stride) {
        Joint {
            at: later.at,
            len: len * later.len,
            stride: later.stride,
        }
    } else {
        Joint {
            at: later.at - 1,
            len,
            stride,
        }
    }
}

/// Joins each axis with the axis after it if they continue one another. Axes of length 1 end up in front.
fn join<D: Dimension, T: StrideList>(dim: &mut D, strides: &mut T)
    requires as_many { length (T.strides_of strides.old) ≡ length (D.lengths dim.old) }
    requires checked { HasCheckedSize (D.lengths dim.old) }
    ensures joined { IsRejoined (D.lengths dim.old) (T.strides_of strides.old) (D.lengths dim.new) (T.strides_of strides.new) }
    ensures checked { HasCheckedSize (D.lengths dim.new) }
    ensures lengths { length (D.lengths dim.new) ≡ length (D.lengths dim.old) }
    ensures strides { length (T.strides_of strides.new) ≡ length (T.strides_of strides.old) }
{
    let count = dim.ndim();
    if count == 0 || is_empty_shape(dim.slice()) {
        return;
    }
    let mut at = count - 1;
    let mut axis = at;
    while axis > 0 {
        axis -= 1;
        let later = Joint {
            at,
            len: dim.length(at),
            stride: strides.stride(at),
        };
        let next = joined_with(dim.length(axis), strides.stride(axis), later);
        dim.set_length(axis, 1);
        at = next.at;
        dim.set_length(at, next.len);
        strides.set(at, next.stride);
    }
}

impl<D: Dimension, T: StrideList> Layout<D, T> {
    /// Joins axes that continue one another. The places and their row-major order stay the same.
    pub fn join_axes(&mut self)
        ensures offset { self.new.offset ≡ self.old.offset }
        ensures joined { IsRejoinedOf (placement_of self.old) (placement_of self.new) }
    {
        join(&mut self.dim, &mut self.strides);
    }
}
