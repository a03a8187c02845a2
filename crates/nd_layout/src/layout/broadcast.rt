//! Broadcasting a layout to a larger shape.

ghost use Rattle.std.specs.Prelude.{◌↔◌, ◌≡◌, ◌<◌, ◌≤◌, ◌^◌, false, IsTrue, IsNone, IfSome, length, slice_index_or, pos};
ghost use Rattle.nd_shape_and_slice.specs.Broadcast.{stretches, broadcasts};
ghost use Rattle.nd_layout.specs.LayoutStepsOfCalls.{placement_of, HasBroadcastStrides, IsBroadcastStep};
ghost use Rattle.nd_layout.specs.StridesAfterLayoutCalls.{broadcast_strides};

use super::Layout;
use nd_shape_and_slice::{Dimension, StrideList, size_of_shape_checked};

/// Returns whether each length in `from` is 1 or equals the length of the same axis in `to`.
fn lengths_stretch(from: &[usize], to: &[usize]) -> bool
    requires { length from.now ≡ length to.now }
    ensures { IsTrue result ↔ IsTrue (stretches from.now to.now) }
{
    for axis in 0..from.len() {
        if from[axis] != to[axis] && from[axis] != 1 {
            return false;
        }
    }
    true
}

/// Returns whether the shape `from` can be broadcast to the shape `to`.
fn can_broadcast(from: &[usize], to: &[usize]) -> bool
    ensures { IsTrue result ↔ IsTrue (broadcasts from.now to.now) }
{
    if size_of_shape_checked(to).is_err() || to.len() < from.len() {
        return false;
    }
    lengths_stretch(from, &to[to.len() - from.len()..])
}

/// Returns the stride of `axis` after a broadcast from the shape `from` to the shape `to`. It is 0 if the axis is new,
/// or if its length differs.
fn stride_under(from: &[usize], strides: &[isize], to: &[usize], axis: usize) -> isize
    requires as_many { length strides.now ≡ length from.now }
    requires more { length from.now ≤ length to.now }
    requires on { axis < length to.now }
    ensures { result ≡ slice_index_or (broadcast_strides from.now strides.now to.now) axis (pos 0) }
{
    let added = to.len() - from.len();
    if axis < added {
        0
    } else if from[axis - added] == to[axis] {
        strides[axis - added]
    } else {
        0
    }
}

/// Writes the strides after a broadcast from the shape `from` to the shape `to` into `out`.
#[inline]
fn put_strides_under<T: StrideList>(from: &[usize], strides: &[isize], to: &[usize], out: &mut T)
    requires as_many { length strides.now ≡ length from.now }
    requires more { length from.now ≤ length to.now }
    requires wide { length (T.strides_of out.old) ≡ length to.now }
    ensures { T.strides_of out.new ≡ broadcast_strides from.now strides.now to.now }
{
    for axis in 0..to.len() {
        out.set(axis, stride_under(from, strides, to, axis));
    }
}

impl<D: Dimension, T: StrideList> Layout<D, T> {
    /// Returns the layout broadcast to the shape `to`, or `None` exactly if that is impossible.
    #[inline]
    pub fn broadcast<E: Dimension>(&self, to: E) -> Option<Layout<E, E::Strides>>
        ensures none { IsNone result ↔ (broadcasts (D.lengths self.now.dim) (E.lengths to) ≡ false) }
        ensures lengths { IfSome result (λ l. E.lengths l.dim ≡ E.lengths to) }
        ensures strides { IfSome result (λ l. HasBroadcastStrides (placement_of self.now) (placement_of l)) }
        ensures seen { IfSome result (λ l. IsBroadcastStep (placement_of self.now) (placement_of l)) }
        ensures offset { IfSome result (λ l. l.offset ≡ self.now.offset) }
    {
        if !can_broadcast(self.dim.slice(), to.slice()) {
            return None;
        }
        let mut strides = to.zero_strides();
        put_strides_under(
            self.dim.slice(),
            self.strides.slice(),
            to.slice(),
            &mut strides,
        );
        Some(Layout {
            offset: self.offset,
            dim: to,
            strides,
        })
    }
}
