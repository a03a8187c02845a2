//! Whether a layout is the standard one, and whether its places are consecutive.

ghost use Rattle.std.specs.Prelude.{◌↔◌, ◌≡◌, ◌≢◌, ◌<◌, ◌≤◌, ◌^◌, ◌⊎◌, pos, length, IsTrue};
ghost use Rattle.nd_shape_and_slice.specs.ShapesAndIndexOrders.{HasCheckedSize, size_of};
ghost use Rattle.nd_shape_and_slice.specs.PlacesAndOverlaps.{span_of};
ghost use Rattle.nd_layout.specs.RanksAndReshapeStrides.{IsRun, IsStandard};

use crate::reshape::axes_from_fastest::{nth_length, nth_stride};
use crate::spans_and_overlaps::{separated, span};
use nd_shape_and_slice::{MAX_AXES, Order, is_empty_shape};

/// Returns whether an axis of length `len` has the stride `count`, or has length 1, so that its stride doesn't matter.
fn steps_by(len: usize, stride: isize, count: usize) -> bool
    requires { count < 2 ^ 63 }
    ensures { IsTrue result ↔ (len ≢ 1 → stride ≡ pos count) }
{
    len == 1 || stride == count as isize
}

/// Returns whether the layout is the standard one: the place of each index is the offset plus the index's row-major
/// rank.
pub fn is_standard(lengths: &[usize], strides: &[isize]) -> bool
    requires as_many { length strides.now ≡ length lengths.now }
    requires few { length lengths.now ≤ MAX_AXES }
    requires checked { HasCheckedSize lengths.now }
    requires fits { span_of lengths.now strides.now < 2 ^ 63 }
    ensures { IsTrue result ↔ IsStandard lengths.now strides.now }
{
    if is_empty_shape(lengths) {
        return true;
    }
    let mut expected: usize = 1;
    for nth in 0..lengths.len() {
        let len = nth_length(lengths, Order::RowMajor, nth);
        if !steps_by(len, nth_stride(strides, Order::RowMajor, nth), expected) {
            return false;
        }
        expected *= len;
    }
    true
}

/// Returns the size of a shape, none of whose lengths may be 0.
pub(crate) fn count_of(lengths: &[usize]) -> usize
    requires some { 0 < size_of lengths.now }
    requires fits { size_of lengths.now < 2 ^ 63 }
    ensures { result ≡ size_of lengths.now }
{
    let mut count: usize = 1;
    for length in lengths {
        count *= *length;
    }
    count
}

/// Returns whether the places of all indexes are consecutive and each is named once, or there is no index.
pub fn is_run(lengths: &[usize], strides: &[isize]) -> bool
    requires as_many { length strides.now ≡ length lengths.now }
    requires few { length lengths.now ≤ MAX_AXES }
    requires checked { HasCheckedSize lengths.now }
    requires fits { span_of lengths.now strides.now < 2 ^ 63 }
    ensures { IsTrue result ↔ ((size_of lengths.now ≡ 0) ⊎ IsRun lengths.now strides.now) }
{
    if is_standard(lengths, strides) {
        return true;
    }
    match span(lengths, strides) {
        Some(reach) => reach + 1 == count_of(lengths) && separated(lengths, strides),
        None => false,
    }
}
