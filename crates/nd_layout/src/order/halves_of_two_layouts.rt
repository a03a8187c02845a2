//! Cutting two layouts of the same shape at one coordinate of an axis, so that elements which a loop over both layouts
//! meets again are still in the cache. Where they are cut changes only the time that the loop takes. The nearest axis
//! of a layout is the axis that `nearest_axis` returns: the one with the shortest steps.

ghost use Rattle.std.specs.Prelude.{◌≡◌, ◌<◌, ◌-◌, length, slice_index, IfSome, IsTrue};
ghost use Rattle.nd_layout.specs.HalvedLayouts.{HalvesBoth};

use crate::layout::Layout;
use crate::order::loop_order_of_two_layouts::nearest_axis;
use nd_shape_and_slice::{Dimension, StrideList};

/// The most elements of two layouts that are still in the cache when a loop over both meets them again; layouts with no
/// more elements aren't cut. Measured in plain Rust, words in opposite orders: 1,024 or 65,536 in its place take 0.91
/// to 1.03 of the time, except 8 rows of 20,000, which take 0.67 with 1,024.
const NEAR_IN_TWO_LAYOUTS: usize = 8192;

/// The most elements of a lane of two layouts that isn't cut if its elements lie near each other. Measured in plain
/// Rust, two tables of 2048 by 2048 words in opposite orders: 18 ms, where `FAR_ALONG_A_LANE_OF_TWO` was twice as
/// great; 77 ms without cutting.
const LONG_LANE_OF_TWO: usize = 512;

/// The most elements of a lane of two layouts that isn't cut even if its elements lie far apart. Measured on the tables
/// of `LONG_LANE_OF_TWO`: 17 ms with parts of 128 elements, 19 with 256, 27 with 512.
const SHORT_LANE_OF_TWO: usize = 128;

/// A lane of two layouts that spans at least so many places is far, and is cut. Measured on tables of 2048 by 2048
/// words: 1.05 to 1.08 of the time that plain Rust takes; with twice this number 1.30 to 1.43.
const FAR_ALONG_A_LANE_OF_TWO: usize = 524_288;

/// The number of elements that fill whole lines of the cache. Lanes are cut at a multiple of it. Measured in plain
/// Rust: 16 in its place takes 0.99 to 1.02 of the time.
const ELEMENTS_OF_WHOLE_LINES: usize = 64;

/// The halves of two layouts of the same shape that are cut at the same coordinate of the same axis.
#[derive(Drop)]
pub struct HalvedLayouts<D: Dimension, T: StrideList> {
    pub lower: Layout<D, T>,
    pub lower_other: Layout<D, T>,
    pub upper: Layout<D, T>,
    pub upper_other: Layout<D, T>,
}

/// Returns whether a lane has so many elements, or elements so far apart, that its first ones have left the cache when
/// the next lane begins.
fn is_long(len: usize, step: isize) -> bool
    ensures { IsTrue result → 1 < len }
{
    len > LONG_LANE_OF_TWO
        || (len > SHORT_LANE_OF_TWO && step.unsigned_abs() >= FAR_ALONG_A_LANE_OF_TWO / len)
}

/// Returns whether lanes of `len` elements are long with the stride `step`, or with the stride `other`.
fn either_is_long(len: usize, step: isize, other: isize) -> bool
    ensures { IsTrue result → 1 < len }
{
    is_long(len, step) || is_long(len, other)
}

/// Returns whether the last axis isn't the nearest one in one of two layouts, whose strides are `strides` and `steps`.
fn crosses(lengths: &[usize], strides: &[isize], steps: &[isize]) -> bool
    requires as_many { length strides.now ≡ length lengths.now }
    requires steps_as_many { length steps.now ≡ length lengths.now }
    requires some { 0 < length lengths.now }
{
    let axes = lengths.len();
    nearest_axis(lengths, strides) + 1 < axes || nearest_axis(lengths, steps) + 1 < axes
}

/// Returns whether lanes are long, the last axis isn't the nearest one in one of two layouts, and there are more
/// elements than stay in the cache.
fn leads_away(lengths: &[usize], strides: &[isize], steps: &[isize]) -> bool
    requires as_many { length strides.now ≡ length lengths.now }
    requires steps_as_many { length steps.now ≡ length lengths.now }
    ensures { IsTrue result → (1 < length lengths.now) × (1 < slice_index lengths.now (length lengths.now - 1)) }
{
    let axes = lengths.len();
    if axes < 2 {
        return false;
    }
    let len = lengths[axes - 1];
    if !either_is_long(len, strides[axes - 1], steps[axes - 1]) {
        return false;
    }
    lengths[axes - 2] > NEAR_IN_TWO_LAYOUTS / len && crosses(lengths, strides, steps)
}

/// Returns the first axis longer than 1, leaving out the axis before the last.
fn outermost_axis(lengths: &[usize]) -> usize
    requires some { 1 < length lengths.now }
    requires last { 1 < slice_index lengths.now (length lengths.now - 1) }
    ensures on { result < length lengths.now }
    ensures long { 1 < slice_index lengths.now result }
{
    let axes = lengths.len();
    for axis in 0..axes - 2 {
        if lengths[axis] > 1 {
            return axis;
        }
    }
    axes - 1
}

/// Returns a coordinate near the middle of an axis of length `len`.
fn middle_of(len: usize) -> usize
    requires { 1 < len }
    ensures some { 0 < result }
    ensures within { result < len }
{
    let half = len / 2;
    if len > SHORT_LANE_OF_TWO {
        (half + (ELEMENTS_OF_WHOLE_LINES - 1)) / ELEMENTS_OF_WHOLE_LINES * ELEMENTS_OF_WHOLE_LINES
    } else {
        half
    }
}

/// Returns the axis and the coordinate at which two layouts are to be cut, or `None` if it isn't worth while to cut
/// them.
fn cut_of(lengths: &[usize], strides: &[isize], steps: &[isize]) -> Option<(usize, usize)>
    requires as_many { length strides.now ≡ length lengths.now }
    requires steps_as_many { length steps.now ≡ length lengths.now }
    ensures { IfSome result (λ cut. (cut.0 < length lengths.now) × (0 < cut.1) × (cut.1 < slice_index lengths.now cut.0)) }
{
    if !leads_away(lengths, strides, steps) {
        return None;
    }
    let axis = outermost_axis(lengths);
    Some((axis, middle_of(lengths[axis])))
}

/// Returns the halves of two layouts of the same shape, or `None` if it isn't worth while to cut them. It is if lanes
/// are long, and the last axis isn't the nearest one in one of the layouts. Outer axes are cut first, and then the
/// lanes.
#[inline]
pub fn halved_alike<D: Dimension, T: StrideList>(
    layout: &Layout<D, T>,
    other: &Layout<D, T>,
) -> Option<HalvedLayouts<D, T>>
    requires alike { D.lengths other.now.dim ≡ D.lengths layout.now.dim }
    ensures { IfSome result (λ halves. HalvesBoth layout.now other.now halves) }
{
    let Some((axis, index)) = cut_of(
        layout.dim.slice(),
        layout.strides.slice(),
        other.strides.slice(),
    ) else {
        return None;
    };
    let (lower, upper) = layout.halves(axis, index);
    let (lower_other, upper_other) = other.halves(axis, index);
    Some(HalvedLayouts {
        lower,
        lower_other,
        upper,
        upper_other,
    })
}
