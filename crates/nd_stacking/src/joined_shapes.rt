//! Which arrays can be joined along an axis, and the shape of the result.

ghost use Rattle.std.specs.Prelude.{◌≡◌, ◌<◌, nat_eq, None, Some, IfOk, IfErr, OnOk, length, slice_index, slice_set};
ghost use Rattle.std.specs.Cmp.Lexicographic.{pointwise};
ghost use Rattle.std.specs.List.{list_all};
ghost use Rattle.nd_shape_and_slice.specs.ShapesAndIndexOrders.{HasCheckedSize};
ghost use Rattle.nd_array_core.specs.growth.AppendEach.{lengths_along, meanings_of};
ghost use Rattle.nd_stacking.specs.ConcatenateAndStack.{concatenation_refusal, is_alike_but, stack_refusal, AreStackedLengths, AreLengthsTogether, MayHaveAnotherAxis, IsTooLarge, IsTotal};

use nd_array_core::ArrayView;
use nd_shape_and_slice::{
    Axis, Dimension, ErrorKind, InsertAxis, ShapeError, size_of_shape_checked,
};

/// Returns whether `dim` has as many axes as `first`, and the same length along each axis except `axis`.
fn is_alike<D: Dimension>(dim: &D, first: &D, axis: usize) -> bool
    requires { axis < length (D.lengths first.now) }
    ensures { result ≡ is_alike_but axis (D.lengths first.now) (D.lengths dim.now) }
{
    let mut alike = *dim;
    alike.set_length(axis, first.length(axis));
    alike.slice() == first.slice()
}

/// Returns whether each of the arrays has as many axes as `first`, and the same length along each axis except `axis`.
fn are_alike<A, D: Dimension>(arrays: &[ArrayView<'_, A, D>], first: &D, axis: usize) -> bool
    requires { axis < length (D.lengths first.now) }
    ensures { result ≡ list_all (λ m. is_alike_but axis (D.lengths first.now) m.shape) (meanings_of arrays.now) }
{
    for nth in 0..arrays.len() {
        if !is_alike(&arrays[nth].raw_dim(), first, axis) {
            return false;
        }
    }
    true
}

/// Returns the length of `axis` in `shape`, or 0 if there is no such axis.
pub(crate) fn length_at(shape: &[usize], axis: usize) -> usize
    ensures { result ≡ slice_index shape.now axis }
{
    match shape.get(axis) {
        Some(len) => *len,
        None => 0,
    }
}

/// Returns the sum of the arrays' lengths along `axis`, or `None` if it overflows.
fn lengths_together<A, D: Dimension>(arrays: &[ArrayView<'_, A, D>], axis: usize) -> Option<usize>
    ensures { IsTotal (lengths_along axis (meanings_of arrays.now)) result }
{
    let mut total = 0usize;
    for nth in 0..arrays.len() {
        match total.checked_add(length_at(arrays[nth].shape(), axis)) {
            Some(more) => total = more,
            None => return None,
        }
    }
    Some(total)
}

/// Returns `dim` with the length `len` of `axis`. Fails if its size overflows.
fn with_length<D: Dimension>(dim: &D, axis: usize, len: usize) -> Result<D, ShapeError>
    ensures lengths { IfOk result (λ d. D.lengths d ≡ slice_set (D.lengths dim.now) axis len) }
    ensures checked { IfOk result (λ d. HasCheckedSize (D.lengths d)) }
    ensures refused { IfErr result (IsTooLarge (slice_set (D.lengths dim.now) axis len)) }
{
    let mut longer = *dim;
    longer.set_length(axis, len);
    match size_of_shape_checked(longer.slice()) {
        Ok(_) => Ok(longer),
        Err(refused) => Err(refused),
    }
}

/// Returns the shape of the concatenation of the arrays along `axis`. Fails with the first reason why there is none.
pub(crate) fn concatenated_dim<A, D: Dimension>(
    arrays: &[ArrayView<'_, A, D>],
    axis: usize,
) -> Result<D, ShapeError>
    ensures lengths { IfOk result (λ d. AreLengthsTogether axis (meanings_of arrays.now) (D.lengths d)) }
    ensures refused { IfErr result (λ e. concatenation_refusal axis (meanings_of arrays.now) ≡ Some e) }
{
    if arrays.is_empty() {
        return Err(ShapeError::from_kind(ErrorKind::Unsupported));
    }
    let first = arrays[0].raw_dim();
    if axis >= first.ndim() {
        return Err(ShapeError::from_kind(ErrorKind::OutOfBounds));
    }
    if !are_alike(arrays, &first, axis) {
        return Err(ShapeError::from_kind(ErrorKind::IncompatibleShape));
    }
    let total = match lengths_together(arrays, axis) {
        Some(total) => total,
        None => return Err(ShapeError::from_kind(ErrorKind::Overflow)),
    };
    match with_length(&first, axis, total) {
        Ok(longer) => Ok(longer),
        Err(refused) => Err(refused),
    }
}

/// Returns whether each of the arrays has the shape `first`.
fn are_equal<A, D: Dimension>(arrays: &[ArrayView<'_, A, D>], first: &D) -> bool
    ensures { result ≡ list_all (λ m. pointwise nat_eq m.shape (D.lengths first.now)) (meanings_of arrays.now) }
{
    for nth in 0..arrays.len() {
        if arrays[nth].shape() != first.slice() {
            return false;
        }
    }
    true
}

/// Returns the shape of the stack of the arrays along the new axis `axis`. Fails with the first reason why there is
/// none.
pub(crate) fn stacked_dim<A, D: InsertAxis>(
    arrays: &[ArrayView<'_, A, D>],
    axis: Axis,
) -> Result<D::Larger, ShapeError>
    requires axes_fit { MayHaveAnotherAxis D.Larger.has_axes (meanings_of arrays.now) }
    ensures lengths { IfOk result (λ d. AreStackedLengths axis.0 (meanings_of arrays.now) (D.Larger.lengths d)) }
    ensures fits { OnOk result (stack_refusal axis.0 (meanings_of arrays.now) ≡ None) }
    ensures refused { IfErr result (λ e. stack_refusal axis.0 (meanings_of arrays.now) ≡ Some e) }
{
    if arrays.is_empty() {
        return Err(ShapeError::from_kind(ErrorKind::Unsupported));
    }
    let first = arrays[0].raw_dim();
    if axis.0 > first.ndim() {
        return Err(ShapeError::from_kind(ErrorKind::OutOfBounds));
    }
    if !are_equal(arrays, &first) {
        return Err(ShapeError::from_kind(ErrorKind::IncompatibleShape));
    }
    match with_length(&first.insert_axis(axis), axis.0, arrays.len()) {
        Ok(longer) => Ok(longer),
        Err(refused) => Err(refused),
    }
}
