//! Cutting a layout into parts that, listed one after another, give its elements in row-major order. Where it is cut
//! changes only the time that a loop takes. The nearest axis of a layout is the axis that `nearest_axis` returns: the
//! one with the shortest steps.

ghost use Rattle.std.specs.Prelude.{◌≡◌, ◌<◌, length, IfSome, IsTrue};
ghost use Rattle.nd_layout.specs.LayoutStepsOfCalls.{placement_of};
ghost use Rattle.nd_layout.specs.HalvedLayouts.{FollowEachOther, IsFirstLong};

use crate::layout::Layout;
use crate::order::loop_order_of_two_layouts::nearest_axis;
use nd_shape_and_slice::{Dimension, StrideList};

/// The most elements of a layout that is listed in parts of rows; with more, elements near those read before leave the
/// cache too early. Measured in plain Rust, transposes: 131,072 in its place takes 1.8 of the time for words and 2.7
/// for bytes of 300 by 20,000; 2,097,152 takes 1.31 for bytes of 6 by 300,000.
const MOST_LISTED_IN_PARTS: usize = 524_288;

/// The most rows of a layout that is listed in parts of rows: enough for whole lines of the cache, and few enough to be
/// kept in an array. Measured like `MOST_LISTED_IN_PARTS`, 4,096 by 4,096: 64 in its place takes 1.30 of the time for
/// words and 1.16 for bytes, 256 takes 1.22 and 1.03; other shapes take 0.80 to 1.02.
pub const MOST_ROWS: usize = 128;

/// The fewest elements of a part into which a row is cut. Measured like `MOST_LISTED_IN_PARTS`: 16 in its place takes
/// 1.33 of the time for bytes of 3,000 by 3,000, and 0.91 to 1.05 for others; 64 takes 0.91 to 1.11.
const SHORTEST_PART_OF_ROW: usize = 32;

/// A lane of a listed layout that spans at least so many places is far: elements next to its first ones have left the
/// cache when its end is reached. Measured like `MOST_LISTED_IN_PARTS`, 2,048 by 2,048: 8,388,608 in its place takes
/// 2.6 of the time; 524,288 takes 1.19 there for words, and 1.8 for bytes of 1,100 by 1,100.
const FAR_ALONG_A_LISTED_LANE: usize = 2_097_152;

/// A lane of a listed layout with fewer elements is short: elements next to its first ones are still in the cache when
/// its end is reached. Not measured by itself.
const SHORT_LISTED_LANE: usize = 1024;

/// The fewest elements along the nearest axis for which a layout is listed part by part. Not measured by itself.
const SHORTEST_LISTED_RUN: usize = 8;

/// Returns the first axis longer than 1 if all axes before it have length 1. Returns `None` if there is none, or if an
/// axis of length 0 comes before it.
fn first_long(lengths: &[usize]) -> Option<usize>
    ensures { IfSome result (λ axis. IsFirstLong lengths.now axis) }
{
    for axis in 0..lengths.len() {
        if lengths[axis] > 1 {
            return Some(axis);
        }
        if lengths[axis] == 0 {
            return None;
        }
    }
    None
}

/// Returns whether the lanes along the last axis are long and far, and another axis, which isn't too short, is nearer
/// in memory.
fn goes_across(lengths: &[usize], strides: &[isize]) -> bool
    requires as_many { length strides.now ≡ length lengths.now }
    ensures { IsTrue result → 1 < length lengths.now }
{
    let axes = lengths.len();
    if axes < 2 {
        return false;
    }
    let (len, nearest) = (lengths[axes - 1], nearest_axis(lengths, strides));
    nearest + 1 < axes
        && len >= SHORT_LISTED_LANE
        && lengths[nearest] >= SHORTEST_LISTED_RUN
        && strides[axes - 1].unsigned_abs() >= FAR_ALONG_A_LISTED_LANE / len
}

/// Returns whether `size` elements in rows of `row` elements are few enough to be listed in parts of rows: each row can
/// then be cut into as many parts as there are rows.
fn are_few(size: usize, row: usize) -> bool {
    size <= MOST_LISTED_IN_PARTS
        && row > 0
        && size / row <= MOST_ROWS.min(row / SHORTEST_PART_OF_ROW)
}

/// Returns whether the elements are few, in few rows, and the nearest axis is the first axis longer than 1. Returns
/// true if no axis is longer than 1.
fn is_near(lengths: &[usize], strides: &[isize], size: usize) -> bool
    requires as_many { length strides.now ≡ length lengths.now }
{
    match first_long(lengths) {
        Some(axis) => {
            are_few(size, lengths[lengths.len() - 1]) && axis == nearest_axis(lengths, strides)
        }
        None => true,
    }
}

impl<D: Dimension, T: StrideList> Layout<D, T> {
    /// Returns whether row-major order jumps so far about in memory that the elements are better taken part by part in
    /// another order.
    #[inline]
    pub fn leaves_lines(&self) -> bool
        ensures { IsTrue result → 1 < length (D.lengths self.now.dim) }
    {
        goes_across(self.dim.slice(), self.strides.slice())
    }

    /// Returns whether the elements are few, in few rows, and the nearest axis is the first axis longer than 1, if
    /// there is such an axis. They can then be listed in parts of rows, which lie near each other.
    pub fn is_near(&self) -> bool {
        is_near(self.dim.slice(), self.strides.slice(), self.dim.size())
    }

    /// Returns two layouts: this layout cut in halves along the first axis longer than 1. In row-major order all
    /// elements of the first come before those of the second. Returns `None` if there is no such axis.
    pub fn first_halves(&self) -> Option<(Self, Self)>
        ensures { IfSome result (λ pair. FollowEachOther (placement_of self.now) (placement_of pair.0) (placement_of pair.1)) }
    {
        let axis = first_long(self.dim.slice())?;
        Some(self.halves(axis, self.dim.length(axis) / 2))
    }
}
