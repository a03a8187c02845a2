//! Slices of one axis.

ghost use Rattle.std.specs.Prelude.{◌↔◌, ◌≡◌, ◌<◌, nat_abs, IsTrue, is_some};
ghost use Rattle.std.specs.Option.{unwrap_or};
ghost use Rattle.nd_shape_and_slice.specs.Slice.{fits_axis, bound_on, end_on, quotient_up, sliced_length, sliced_from};

/// The part of an axis from `start` up to, but not including, `end`, in steps. A negative bound counts from the end of
/// the axis, and a missing end is the length of the axis. With a negative step the slice begins at the last coordinate
/// of the range and goes down. This is ndarray's `Slice`.
#[derive(Clone, Copy, Debug, PartialEq, Eq)]
pub struct Slice {
    /// The first coordinate of the range.
    pub start: isize,
    /// The coordinate after the last coordinate of the range.
    pub end: Option<isize>,
    /// The distance from each coordinate to the next: any number except 0.
    pub step: isize,
}

impl Slice {
    /// Returns the slice with these bounds and this step. This is ndarray's `Slice::new`.
    pub fn new(start: isize, end: Option<isize>, step: isize) -> Self
        ensures { result ≡ record { start = start; end = end; step = step } }
    {
        Slice { start, end, step }
    }
}

/// What a slice makes of an axis.
#[derive(Clone, Copy, Debug, PartialEq, Eq)]
pub struct SlicedAxis {
    /// The old coordinate that becomes the new coordinate 0.
    pub first: usize,
    /// The new length of the axis.
    pub len: usize,
}

impl Slice {
    /// Returns what the slice makes of an axis of length `len`. The slice must fit the axis.
    pub fn on_axis(self, len: usize) -> SlicedAxis
        requires { IsTrue (fits_axis len self) }
        ensures first { result.first ≡ sliced_from len self 0 }
        ensures len { result.len ≡ sliced_length len self }
    {
        let low = place_of_bound(len, self.start);
        let high = low.max(place_of_end(len, self.end));
        SlicedAxis {
            first: if self.step < 0 {
                high.saturating_sub(1)
            } else {
                low
            },
            len: steps_in(high - low, self.step),
        }
    }
}

/// Returns the position of `bound` on an axis of length `len`, or `None` if it lies outside the axis.
fn bound_on_axis(len: usize, bound: isize) -> Option<usize>
    ensures { result ≡ bound_on len bound }
{
    if bound < 0 {
        let back = bound.unsigned_abs();
        if back <= len { Some(len - back) } else { None }
    } else {
        let place = bound as usize;
        if place <= len { Some(place) } else { None }
    }
}

/// Returns the position of the end of a slice on an axis of length `len`, or `None` if it lies outside the axis. A
/// missing end is the length of the axis.
fn end_on_axis(len: usize, end: Option<isize>) -> Option<usize>
    ensures { result ≡ end_on len end }
{
    match end {
        None => Some(len),
        Some(bound) => bound_on_axis(len, bound),
    }
}

/// Returns the position of `bound` on an axis of length `len`. It must lie on the axis, and nothing is tested.
#[inline]
fn place_of_bound(len: usize, bound: isize) -> usize
    requires { IsTrue (is_some (bound_on len bound)) }
    ensures { result ≡ unwrap_or (bound_on len bound) 0 }
{
    if bound < 0 {
        len - bound.unsigned_abs()
    } else {
        bound as usize
    }
}

/// Returns the position of the end of a slice on an axis of length `len`. It must lie on the axis. A missing end is the
/// length of the axis.
#[inline]
fn place_of_end(len: usize, end: Option<isize>) -> usize
    requires { IsTrue (is_some (end_on len end)) }
    ensures { result ≡ unwrap_or (end_on len end) 0 }
{
    match end {
        None => len,
        Some(bound) => place_of_bound(len, bound),
    }
}

/// Returns how many coordinates of a range of `range` coordinates a slice with step `step` names. Most steps are 1, -1,
/// 2 or -2, and for these nothing is divided except by a constant. The test `<=` lets the compiler see that no divisor
/// is 0.
#[tactic(auto, using(crate::proofs::QuotientsRoundedUp::div_ceil_is, crate::proofs::QuotientsRoundedUp::quotient_by_one))]
fn steps_in(range: usize, step: isize) -> usize
    requires { 0 < nat_abs step }
    ensures { result ≡ quotient_up range (nat_abs step) }
{
    let distance = step.unsigned_abs();
    if distance <= 1 {
        range
    } else if distance == 2 {
        range.div_ceil(2)
    } else {
        range.div_ceil(distance)
    }
}

/// Returns whether `slice` fits an axis of length `len`: its step isn't 0, and both bounds lie on the axis.
pub fn slice_fits(len: usize, slice: Slice) -> bool
    ensures { IsTrue result ↔ IsTrue (fits_axis len slice) }
{
    slice.step != 0
        && bound_on_axis(len, slice.start).is_some()
        && end_on_axis(len, slice.end).is_some()
}
