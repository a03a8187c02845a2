//! The strides of row-major and column-major order, and whether a slice or vector can be laid out with a shape and
//! strides that the caller of a constructor gives.

ghost use Rattle.std.specs.Prelude.{◌↔◌, ◌≡◌, ◌<◌, ◌≤◌, ◌-◌, ◌*◌, ◌^◌, ◌||◌, nat_eq, ℕ, List, [], ◌∷◌, length, nat_abs, IsTrue, IfOk, IfErr, Some, None};
ghost use Rattle.nd_shape_and_slice.specs.ShapesAndIndexOrders.{size_of, HasCheckedSize};
ghost use Rattle.nd_shape_and_slice.specs.PlacesAndOverlaps.{span_of, IsSeparated};
ghost use Rattle.nd_layout.specs.StridesAfterLayoutCalls.{reach_down};
ghost use Rattle.nd_layout.specs.GivenStrides.{ordered_strides};
ghost use Rattle.nd_layout.specs.ConstructorRefusals.{slice_refusal, vec_refusal, elements_asked, is_separated};
ghost use Rattle.nd_layout.specs.ValidLayoutsAndSteps.{IsValid};

use crate::spans_and_overlaps::{separated, span};
use nd_shape_and_slice::{
    Dimension, ErrorKind, MAX_AXES, Order, ShapeError, default_strides, fortran_strides,
    is_empty_shape, size_of_shape_checked,
};

/// Returns the strides of the shape `dim` in row-major or column-major order.
pub fn strides_in<D: Dimension>(dim: &D, order: Order) -> D::Strides
    requires { HasCheckedSize (D.lengths dim.now) }
    ensures { D.Strides.strides_of result ≡ ordered_strides order (D.lengths dim.now) }
{
    match order {
        Order::RowMajor => default_strides(dim),
        Order::ColumnMajor => fortran_strides(dim),
    }
}

/// Returns the size of a shape, or the error why a slice of `count` elements can't hold it in row-major or column-major
/// order.
pub fn size_in_slice(lengths: &[usize], count: usize) -> Result<usize, ShapeError>
    ensures refused { IfErr result (λ e. slice_refusal lengths.now None count ≡ Some e) }
    ensures accepted { IfOk result (λ _. slice_refusal lengths.now None count ≡ None) }
    ensures checked { IfOk result (λ _. HasCheckedSize lengths.now) }
    ensures size { IfOk result (λ size. size ≡ size_of lengths.now) }
    ensures enough { IfOk result (λ size. size ≤ count) }
{
    let size = size_of_shape_checked(lengths)?;
    if count < size {
        Err(ShapeError::from_kind(ErrorKind::OutOfBounds))
    } else {
        Ok(size)
    }
}

/// Returns the size of a shape, or the error why a vector of `count` elements can't hold it in row-major or
/// column-major order.
pub fn size_in_vec(lengths: &[usize], count: usize) -> Result<usize, ShapeError>
    ensures refused { IfErr result (λ e. vec_refusal lengths.now None count ≡ Some e) }
    ensures accepted { IfOk result (λ _. vec_refusal lengths.now None count ≡ None) }
    ensures checked { IfOk result (λ _. HasCheckedSize lengths.now) }
    ensures size { IfOk result (λ size. size ≡ size_of lengths.now) }
    ensures enough { IfOk result (λ size. size ≤ count) }
{
    let size = size_in_slice(lengths, count)?;
    if size < count {
        Err(ShapeError::from_kind(ErrorKind::IncompatibleShape))
    } else {
        Ok(size)
    }
}

/// Returns how far below the offset the places of one axis reach: 0 if its stride isn't negative.
fn down_by(len: usize, stride: isize) -> usize
    requires { (len - 1) * nat_abs stride < 2 ^ 63 }
    ensures { result ≡ reach_down (len ∷ []) (stride ∷ []) }
{
    if stride < 0 {
        len.saturating_sub(1) * stride.unsigned_abs()
    } else {
        0
    }
}

/// Returns how far below the offset the places of all axes with negative stride together reach.
pub fn reach_below(lengths: &[usize], strides: &[isize]) -> usize
    requires as_many { length strides.now ≡ length lengths.now }
    requires spread { span_of lengths.now strides.now < 2 ^ 63 }
    ensures { result ≡ reach_down lengths.now strides.now }
{
    let mut offset = 0;
    for axis in 0..lengths.len() {
        offset += down_by(lengths[axis], strides[axis]);
    }
    offset
}

/// Returns how many elements a slice needs for these lengths and strides, whose span is `span`.
fn count_asked(lengths: &[usize], strides: &[isize], span: usize) -> usize
    requires is { span ≡ span_of lengths.now strides.now }
    requires few { span < 2 ^ 63 }
    ensures { result ≡ elements_asked lengths.now strides.now }
{
    if is_empty_shape(lengths) {
        span
    } else {
        span + 1
    }
}

/// Returns the offset of the layout that the caller's `strides` give in a slice of `count` elements, or the error why
/// the slice can't be laid out so.
pub fn offset_in_slice(
    lengths: &[usize],
    strides: &[isize],
    count: usize,
) -> Result<usize, ShapeError>
    requires as_many { length strides.now ≡ length lengths.now }
    requires few { length lengths.now ≤ MAX_AXES }
    ensures refused { IfErr result (λ e. slice_refusal lengths.now (Some strides.now) count ≡ Some e) }
    ensures accepted { IfOk result (λ _. slice_refusal lengths.now (Some strides.now) count ≡ None) }
    ensures offset { IfOk result (λ offset. offset ≡ reach_down lengths.now strides.now) }
    ensures valid { IfOk result (λ offset. IsValid offset lengths.now strides.now) }
    ensures enough { IfOk result (λ _. elements_asked lengths.now strides.now ≤ count) }
{
    size_of_shape_checked(lengths)?;
    match span(lengths, strides) {
        Some(span) if count_asked(lengths, strides, span) <= count => {
            Ok(reach_below(lengths, strides))
        }
        Some(_) => Err(ShapeError::from_kind(ErrorKind::OutOfBounds)),
        None => Err(ShapeError::from_kind(ErrorKind::Overflow)),
    }
}

/// Returns whether the strides are separated, or the shape has no element. An owned array needs that, because no two of
/// its indexes may share an element.
fn keeps_apart(lengths: &[usize], strides: &[isize]) -> bool
    requires as_many { length strides.now ≡ length lengths.now }
    requires few { length lengths.now ≤ MAX_AXES }
    ensures { IsTrue result ↔ IsTrue (nat_eq (size_of lengths.now) 0 || is_separated lengths.now strides.now) }
{
    is_empty_shape(lengths) || separated(lengths, strides)
}

/// Returns the offset of the layout that the caller's `strides` give in a vector of `count` elements, or the error why
/// the vector can't be laid out so.
pub fn offset_in_vec(
    lengths: &[usize],
    strides: &[isize],
    count: usize,
) -> Result<usize, ShapeError>
    requires as_many { length strides.now ≡ length lengths.now }
    requires few { length lengths.now ≤ MAX_AXES }
    ensures refused { IfErr result (λ e. vec_refusal lengths.now (Some strides.now) count ≡ Some e) }
    ensures accepted { IfOk result (λ _. vec_refusal lengths.now (Some strides.now) count ≡ None) }
    ensures offset { IfOk result (λ offset. offset ≡ reach_down lengths.now strides.now) }
    ensures valid { IfOk result (λ offset. IsValid offset lengths.now strides.now) }
    ensures enough { IfOk result (λ _. elements_asked lengths.now strides.now ≤ count) }
    ensures apart { IfOk result (λ _. 0 < size_of lengths.now → IsSeparated lengths.now strides.now) }
{
    let offset = offset_in_slice(lengths, strides, count)?;
    if keeps_apart(lengths, strides) {
        Ok(offset)
    } else {
        Err(ShapeError::from_kind(ErrorKind::Unsupported))
    }
}
