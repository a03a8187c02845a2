//! The order of fresh storage that can grow along an axis, and whether elements must move before an axis can grow.

ghost use Rattle.std.specs.Prelude.{◌≡◌, ◌<◌, ◌≤◌, length, slice_set, nat_eq, if◌then◌else◌, ◌+◌};
ghost use Rattle.nd_layout.specs.GrowthAlongAxis.{greatest_step, must_move};

use crate::spans_and_overlaps::length_without;
use nd_shape_and_slice::{MAX_AXES, Order};

/// Returns the order of fresh storage that can grow along `axis`: column-major if it is the last of `count` axes, and
/// otherwise row-major.
pub(crate) fn growing_order(axis: usize, count: usize) -> Order
    requires on_axis { axis < count }
    requires few { count ≤ MAX_AXES }
    ensures { result ≡ (if nat_eq (axis + 1) count then Order.ColumnMajor else Order.RowMajor) }
{
    if axis + 1 == count {
        Order::ColumnMajor
    } else {
        Order::RowMajor
    }
}

/// Returns the greatest magnitude of the strides of the axes longer than 1, leaving out `axis`.
fn greatest_step_of_others(lengths: &[usize], strides: &[isize], axis: usize) -> usize
    requires as_many { length strides.now ≡ length lengths.now }
    ensures { result ≡ greatest_step (slice_set lengths.now axis 1) strides.now }
{
    let mut greatest: usize = 0;
    for other in 0..lengths.len() {
        let step = strides[other].unsigned_abs();
        if length_without(lengths, axis, other) > 1 && step > greatest {
            greatest = step;
        }
    }
    greatest
}

/// Returns whether the elements must move before `axis` can grow at the end of the storage.
pub(crate) fn moves(lengths: &[usize], strides: &[isize], axis: usize) -> bool
    requires as_many { length strides.now ≡ length lengths.now }
    requires on_axis { axis < length lengths.now }
    ensures { result ≡ must_move lengths.now strides.now axis }
{
    let stride = strides[axis];
    lengths[axis] > 1
        && (stride < 0 || stride.unsigned_abs() < greatest_step_of_others(lengths, strides, axis))
}
