//! Testing whether two lists of slices name an element in common. The test computes with each axis, and doesn't go over
//! indexes.

ghost use Rattle.std.specs.Prelude.{◌↔◌, ◌≡◌, ◌≤◌, ◌<◌, ◌+◌, ◌-◌, ◌*◌, ℕ, Some, length, drop, IsTrue, MatchOption};
ghost use Rattle.nd_shape_and_slice.specs.Slice.{fits_axis};
ghost use Rattle.nd_shape_and_slice.specs.SliceInfo.{fits_next, fits_shape};
ghost use Rattle.nd_shape_and_slice.specs.CommonElementsOfSlices.{IsFirstMultiple, Share, IsProgression, Intersect, from_reader, lowest_from, stays_above};

use crate::slice::Slice;
use crate::slice_info::{SliceInfoElem, coordinate_on_axis};

/// Finds the first multiple of `divisor` among `start`, `start + step`, `start + 2 * step` and so on. Returns the
/// number of steps to it and its quotient by `divisor`, or `None` if none of these numbers is a multiple.
fn first_multiple(divisor: usize, start: usize, step: usize) -> Option<(usize, usize)>
    requires { 0 < divisor }
    ensures { MatchOption result ((v u : ℕ) → ¬ (divisor * u ≡ start + step * v)) (λ r. IsFirstMultiple divisor start step r.0 r.1) }
{
    let over = start % divisor;
    if over == 0 {
        return Some((0, start / divisor));
    }
    let rest = step % divisor;
    if rest == 0 {
        return None;
    }
    match first_multiple(rest, divisor - over, divisor) {
        Some((turns, steps)) => Some((
            steps,
            step / divisor * steps + turns + (start / divisor + 1),
        )),
        None => None,
    }
}

/// Coordinates of an axis: `count` coordinates from `low` on, each `distance` after the coordinate before it.
#[derive(Clone, Copy)]
struct Spaced {
    low: usize,
    distance: usize,
    count: usize,
}

/// Returns whether `low` and `high` share a coordinate. The first coordinate of `high` must not be below that of `low`.
fn meets_from(low: Spaced, high: Spaced) -> bool
    requires order { low.low ≤ high.low }
    requires distance { 0 < low.distance }
    ensures { IsTrue result ↔ Share low.low low.distance low.count high.low high.distance high.count }
{
    match first_multiple(low.distance, high.low - low.low, high.distance) {
        Some((in_high, in_low)) => in_high < high.count && in_low < low.count,
        None => false,
    }
}

/// Returns whether `first` and `second` share a coordinate.
#[tactic(auto, using(crate::proofs::FirstMultipleOfProgression::share_swapped))]
fn spaced_meet(first: Spaced, second: Spaced) -> bool
    requires first { 0 < first.distance }
    requires second { 0 < second.distance }
    ensures { IsTrue result ↔ Share first.low first.distance first.count second.low second.distance second.count }
{
    if first.low <= second.low {
        meets_from(first, second)
    } else {
        meets_from(second, first)
    }
}

/// Returns the lowest of the `count` coordinates `first`, `first + step`, `first + 2 * step` and so on, or `first` if
/// `count` is 0.
fn lowest(first: usize, count: usize, step: isize) -> usize
    requires { IsTrue (stays_above first count step) }
    ensures { result ≡ lowest_from first count step }
{
    if step < 0 && count > 0 {
        first - (count - 1) * step.unsigned_abs()
    } else {
        first
    }
}

/// Returns the coordinates that `slice` names on an axis of length `len`.
#[tactic(auto, using(crate::proofs::SlicesAsProgressions::progression_of, crate::proofs::SlicesAsProgressions::stays_on))]
fn spaced_by_slice(len: usize, slice: Slice) -> Spaced
    requires { IsTrue (fits_axis len slice) }
    ensures { IsProgression len (SliceInfoElem.Slice slice.start slice.end slice.step) result.low result.distance result.count }
{
    let on_axis = slice.on_axis(len);
    Spaced {
        low: lowest(on_axis.first, on_axis.len, slice.step),
        distance: slice.step.unsigned_abs(),
        count: on_axis.len,
    }
}

/// Returns the coordinates that `element` names on an axis of length `len`.
#[tactic(auto, using(crate::proofs::SlicesAsProgressions::whole_axis))]
fn spaced_by(len: usize, element: SliceInfoElem) -> Spaced
    requires { IsTrue (fits_next (Some len) element) }
    ensures { IsProgression len element result.low result.distance result.count }
{
    match element {
        SliceInfoElem::Slice { start, end, step } => spaced_by_slice(
            len,
            Slice::new(start, end, step),
        ),
        SliceInfoElem::Index(coordinate) => Spaced {
            low: coordinate_on_axis(len, coordinate).unwrap_or(0),
            distance: 1,
            count: 1,
        },
        SliceInfoElem::NewAxis => Spaced {
            low: 0,
            distance: 1,
            count: len,
        },
    }
}

/// Returns the position of the first element from position `from` on that reads an axis.
fn next_reader(elements: &[SliceInfoElem], from: usize) -> usize
    requires { from ≤ length elements.now }
    ensures rest { drop result elements.now ≡ from_reader (drop from elements.now) }
    ensures within { result ≤ length elements.now }
{
    let mut place = from;
    while place < elements.len() && !elements[place].reads_axis() {
        place += 1;
    }
    place
}

/// Returns whether the lists `a` and `b` name an element in common of an array of shape `shape`. Both must fit the
/// shape.
#[tactic(auto, using(crate::proofs::CommonElements::met_start, crate::proofs::CommonElements::met_more, crate::proofs::CommonElements::met_not, crate::proofs::CommonElements::met_all))]
pub fn slices_intersect(shape: &[usize], a: &[SliceInfoElem], b: &[SliceInfoElem]) -> bool
    requires first { IsTrue (fits_shape shape.now a.now) }
    requires second { IsTrue (fits_shape shape.now b.now) }
    ensures { IsTrue result ↔ Intersect shape.now a.now b.now }
{
    let mut in_a = 0;
    let mut in_b = 0;
    for len in shape {
        in_a = next_reader(a, in_a);
        in_b = next_reader(b, in_b);
        if !spaced_meet(spaced_by(*len, a[in_a]), spaced_by(*len, b[in_b])) {
            return false;
        }
        in_a += 1;
        in_b += 1;
    }
    true
}
