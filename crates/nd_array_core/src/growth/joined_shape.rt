//! Tests whether an array of one shape can be appended to another along an axis, and the broadcast that makes it fit.
#![tactic(auto, unfolding(crate::specs::ArrayMeaning::meaning_of, crate::specs::ArrayMeaning::memory_layout_of))]

ghost use Rattle.std.specs.Prelude.{◌↔◌, ◌≡◌, ◌<◌, IsTrue, IfOk, IfErr, length, slice_index};
ghost use Rattle.nd_shape_and_slice.specs.ShapesAndIndexOrders.{HasCheckedSize};
ghost use Rattle.nd_array_core.specs.ConcatenationAndSplit.{concatenated_shape, appended_shape};
ghost use Rattle.nd_array_core.specs.ArrayMeaning.{shape_of};
ghost use Rattle.nd_array_core.specs.PartsOfArrays.{ShowsPart};
ghost use Rattle.nd_array_core.specs.growth.Append.{part_after, CanComeAfter, FitsAfter, IsJoiningRefused};

use crate::base::array::ArrayView;
use nd_shape_and_slice::{Dimension, ErrorKind, ShapeError, size_of_shape_checked};

/// Returns the length that axis `nth` of an array of shape `added` must have before it is appended along `axis` to one
/// of shape `shape`: its own length on `axis`, and that of `shape` on every other axis.
fn length_after(shape: &[usize], added: &[usize], axis: usize, nth: usize) -> usize
    requires on { nth < length shape.now }
    requires alike { length added.now ≡ length shape.now }
    ensures { result ≡ slice_index (appended_shape shape.now added.now axis) nth }
{
    if nth == axis { added[nth] } else { shape[nth] }
}

/// Returns whether an array of shape `added` can be appended to one of shape `shape` along an axis. That is so if there
/// are axes, as many in both, and each length of `added` outside the axis is that of `shape`, or 1.
pub fn fits_after(shape: &[usize], added: &[usize], axis: usize) -> bool
    requires { 0 < length shape.now → axis < length shape.now }
    ensures { IsTrue result ↔ FitsAfter shape.now added.now axis }
{
    if shape.is_empty() {
        return false;
    }
    if added.len() != shape.len() {
        return false;
    }
    for nth in 0..added.len() {
        if added[nth] != length_after(shape, added, axis, nth) && added[nth] != 1 {
            return false;
        }
    }
    true
}

/// Returns the shape `dim` with the length of `axis` increased by that of `added`. Fails with `Overflow` if that shape
/// has no checked size.
fn longest<D: Dimension>(dim: &D, added: &D, axis: usize) -> Result<D, ShapeError>
    requires on { axis < length (D.lengths dim.now) }
    requires fits { FitsAfter (D.lengths dim.now) (D.lengths added.now) axis }
    requires checked { HasCheckedSize (D.lengths dim.now) }
    requires added { HasCheckedSize (D.lengths added.now) }
    ensures joined { IfOk result (λ d. D.lengths d ≡ concatenated_shape (D.lengths dim.now) (D.lengths added.now) axis) }
    ensures checked { IfOk result (λ d. HasCheckedSize (D.lengths d)) }
    ensures refused { IfErr result (λ e. IsJoiningRefused (D.lengths dim.now) (D.lengths added.now) axis e) }
{
    let mut joined = *dim;
    joined.set_length(axis, dim.length(axis) + added.length(axis));
    match size_of_shape_checked(joined.slice()) {
        Ok(_) => Ok(joined),
        Err(refused) => Err(refused),
    }
}

/// Returns the shape of an array of shape `dim` to which one of shape `added` is appended along `axis`. Fails with
/// `IncompatibleShape` if it doesn't fit, and otherwise with `Overflow` if the result has no checked size.
pub(crate) fn joined_dim<D: Dimension>(dim: &D, added: &D, axis: usize) -> Result<D, ShapeError>
    requires on { 0 < length (D.lengths dim.now) → axis < length (D.lengths dim.now) }
    requires checked { HasCheckedSize (D.lengths dim.now) }
    requires added { HasCheckedSize (D.lengths added.now) }
    ensures fits { IfOk result (λ _. FitsAfter (D.lengths dim.now) (D.lengths added.now) axis) }
    ensures joined { IfOk result (λ d. D.lengths d ≡ concatenated_shape (D.lengths dim.now) (D.lengths added.now) axis) }
    ensures checked { IfOk result (λ d. HasCheckedSize (D.lengths d)) }
    ensures refused { IfErr result (λ e. IsJoiningRefused (D.lengths dim.now) (D.lengths added.now) axis e) }
{
    if fits_after(dim.slice(), added.slice(), axis) {
        longest(dim, added, axis)
    } else {
        Err(ShapeError::from_kind(ErrorKind::IncompatibleShape))
    }
}

/// Returns the view broadcast to the lengths `dim` on all axes but `axis`, where it keeps its own length. It must be
/// possible to append it there.
pub(crate) fn broadcast_after<'a, A, D: Dimension>(
    array: ArrayView<'a, A, D>,
    dim: &D,
    axis: usize,
) -> ArrayView<'a, A, D>
    requires on { axis < length (D.lengths dim.now) }
    requires comes { CanComeAfter (D.lengths dim.now) (shape_of array) axis }
    ensures part { ShowsPart array.entry (part_after (D.lengths dim.now) axis array.entry) result }
{
    let mut target = *dim;
    target.set_length(axis, array.layout.dim.length(axis));
    match array.broadcast_move(target) {
        Some(view) => view,
        None => unreachable!(),
    }
}
