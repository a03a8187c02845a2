//! How far apart the elements of a layout lie, and whether each index has a place of its own.

ghost use Rattle.std.specs.Prelude.{◌↔◌, ◌≡◌, ◌<◌, ◌≤◌, ◌^◌, ◌-◌, ◌*◌, length, IsTrue, MatchOption, slice_index, slice_set, nat_abs, nat_le, if◌then◌else◌};
ghost use Rattle.nd_shape_and_slice.specs.PlacesAndOverlaps.{span_of, span_within, IsSeparated};
ghost use Rattle.nd_layout.specs.NonOverlappingStrides.{IsNumberBelow, StandsApart};

use nd_shape_and_slice::MAX_AXES;

const LARGEST: usize = isize::MAX as usize;

/// Returns how far apart the first and last place of an axis lie: (length - 1) times the stride's magnitude, or `None`
/// if that overflows `usize`.
fn reach(length: usize, stride: isize) -> Option<usize>
    ensures { MatchOption result (2 ^ 64 ≤ (length - 1) * nat_abs stride) (λ n. n ≡ (length - 1) * nat_abs stride) }
{
    length.saturating_sub(1).checked_mul(stride.unsigned_abs())
}

/// Returns how far apart two elements of a layout can lie at most: the sum over the axes of (length - 1) times the
/// stride's magnitude. Returns `None` exactly if that exceeds `isize::MAX`.
pub fn span(lengths: &[usize], strides: &[isize]) -> Option<usize>
    requires as_many { length strides.now ≡ length lengths.now }
    requires few { length lengths.now ≤ MAX_AXES }
    ensures { IsNumberBelow (2 ^ 63) (span_of lengths.now strides.now) result }
{
    let mut total: usize = 0;
    for axis in 0..lengths.len() {
        total = total.checked_add(reach(lengths[axis], strides[axis])?)?;
    }
    if total <= LARGEST { Some(total) } else { None }
}

/// Returns how far apart the first and last place of an axis lie, as `reach` does, or 0 if the magnitude of its stride
/// is greater than `magnitude`.
fn reach_within(length: usize, stride: isize, magnitude: usize) -> Option<usize>
    ensures { let counted = if nat_le (nat_abs stride) magnitude then (length - 1) * nat_abs stride else 0 in
        MatchOption result (2 ^ 64 ≤ counted) (λ n. n ≡ counted) }
{
    if stride.unsigned_abs() <= magnitude {
        reach(length, stride)
    } else {
        Some(0)
    }
}

/// Returns the length of `axis`, or 1 if it is the axis `left_out`.
pub(crate) fn length_without(lengths: &[usize], left_out: usize, axis: usize) -> usize
    requires on_axis { axis < length lengths.now }
    ensures { result ≡ slice_index (slice_set lengths.now left_out 1) axis }
{
    if axis == left_out { 1 } else { lengths[axis] }
}

/// Returns the sum of what `reach` returns for all axes except `axis` whose stride has at most this magnitude, or
/// `None` if that overflows `usize`.
fn reach_of_others(
    lengths: &[usize],
    strides: &[isize],
    axis: usize,
    magnitude: usize,
) -> Option<usize>
    requires as_many { length strides.now ≡ length lengths.now }
    ensures { let others = span_within magnitude (slice_set lengths.now axis 1) strides.now in
        MatchOption result (2 ^ 64 ≤ others) (λ n. n ≡ others) }
{
    let mut total: usize = 0;
    for other in 0..lengths.len() {
        let length = length_without(lengths, axis, other);
        total = total.checked_add(reach_within(length, strides[other], magnitude)?)?;
    }
    Some(total)
}

/// Returns whether `axis` has at most length 1, or its stride's magnitude is greater than the sum of the reaches of all
/// other axes whose stride has at most that magnitude.
fn stands_apart(lengths: &[usize], strides: &[isize], axis: usize) -> bool
    requires as_many { length strides.now ≡ length lengths.now }
    requires on_axis { axis < length lengths.now }
    ensures { IsTrue result ↔ StandsApart lengths.now strides.now axis }
{
    if lengths[axis] <= 1 {
        return true;
    }
    let magnitude = strides[axis].unsigned_abs();
    match reach_of_others(lengths, strides, axis, magnitude) {
        Some(others) => others < magnitude,
        None => false,
    }
}

/// Returns whether the strides are separated: for each axis longer than 1, its stride's magnitude is greater than the
/// sum of the reaches of all other axes whose stride has at most that magnitude. Then no two indexes share a place.
pub fn separated(lengths: &[usize], strides: &[isize]) -> bool
    requires as_many { length strides.now ≡ length lengths.now }
    requires few { length lengths.now ≤ MAX_AXES }
    ensures { IsTrue result ↔ IsSeparated lengths.now strides.now }
{
    for axis in 0..lengths.len() {
        if !stands_apart(lengths, strides, axis) {
            return false;
        }
    }
    true
}
