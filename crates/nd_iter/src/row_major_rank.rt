//! Elements by their rank, which is their position in row-major order, and the indexes of ranks.

ghost use Rattle.std.specs.Prelude.{◌↔◌, ◌≡◌, ◌+◌, ◌-◌, ◌<◌, ◌≤◌, IsTrue, Some, length, slice_get};
ghost use Rattle.nd_shape_and_slice.specs.ShapesAndIndexOrders.{index_at, size_of};
ghost use Rattle.nd_array_core.specs.ArrayMeaning.{meaning_of, shape_of};
ghost use Rattle.nd_array_core.specs.ConcatenationAndSplit.{row_major_elements};
ghost use Rattle.nd_array_core.specs.along.LanesOfLastAxis.{lane_length, lane_element, ListsFrom, RowsLieSideBySide};
ghost use Rattle.nd_iter.specs.ElementsLeftInIteration.{IsInHand};
ghost use Rattle.nd_iter.specs.IteratedElements.{IsTakenAhead, IsTakenAfter};

use nd_array_core::laws::elements_by_rank;
use nd_array_core::{ArrayBase, Data, LaneView};
use nd_shape_and_slice::{Dimension, MAX_AXES, index_of_rank};

/// Returns the index of the element with the rank `rank`.
pub(crate) fn index_of<S: Data, D: Dimension>(array: &ArrayBase<S, D>, rank: usize) -> D
    requires { rank < size_of (shape_of array.now) }
    ensures { D.lengths result ≡ index_at (shape_of array.now) rank }
{
    let mut coordinates = [0; MAX_AXES];
    let index = &mut coordinates[..array.ndim()];
    index_of_rank(array.shape(), rank, index);
    match D::from_lengths(index) {
        Some(index) => index,
        None => unreachable!(),
    }
}

/// Returns the element with the rank `rank`, where `all` are all elements in row-major order.
#[inline]
pub(crate) fn listed_in<'a, A, S: Data<Elem = A>, D: Dimension>(
    array: &'a ArrayBase<S, D>,
    all: &'a [A],
    rank: usize,
) -> &'a A
    requires within { rank < size_of (shape_of array.now) }
    requires all { all.now ≡ row_major_elements (meaning_of array.now) }
    ensures { slice_get (row_major_elements (meaning_of array.now)) rank ≡ Some result.now }
{
    elements_by_rank(array);
    &all[rank]
}

/// A lane of an array, and the rank of its first element. It is kept so that the next elements along it are read
/// without an index.
#[derive(Drop)]
pub(crate) struct LaneInHand<'a, A> {
    lane: LaneView<'a, A>,
    from: usize,
}

impl<'a, A> LaneInHand<'a, A> {
    /// Returns whether the element with the rank `rank` lies in the lane.
    #[inline]
    fn holds(&self, rank: usize) -> bool
        ensures { IsTrue result ↔ ((self.now.from ≤ rank) × (rank < self.now.from + lane_length self.now.lane)) }
    {
        self.from <= rank && rank - self.from < self.lane.len()
    }

    /// Returns the element with the rank `rank`, which must lie in the lane.
    #[inline]
    fn element(&self, rank: usize) -> &'a A
        requires from { self.now.from ≤ rank }
        requires upto { rank < self.now.from + lane_length self.now.lane }
        ensures { lane_element self.now.lane (rank - self.now.from) ≡ Some result.now }
    {
        self.lane.element(rank - self.from)
    }
}

/// Returns the lane along the last axis in which the element with the rank `rank` lies.
#[inline(never)]
fn lane_with<A, S: Data<Elem = A>, D: Dimension>(
    array: &ArrayBase<S, D>,
    rank: usize,
) -> LaneInHand<'_, A>
    requires { rank < size_of (shape_of array.now) }
    ensures lane { ListsFrom result.lane result.from (meaning_of array.now) }
    ensures from { result.from ≤ rank }
    ensures upto { rank < result.from + lane_length result.lane }
{
    let (lane, from) = array.lane_of_rank(rank);
    LaneInHand { lane, from }
}

/// Returns the element with the rank `rank`. It is read from the lane in `hand` if it lies there; otherwise its own
/// lane is put into `hand`.
#[inline]
pub(crate) fn listed_at<'a, A, S: Data<Elem = A>, D: Dimension>(
    array: &'a ArrayBase<S, D>,
    hand: &mut Option<LaneInHand<'a, A>>,
    rank: usize,
) -> &'a A
    requires within { rank < size_of (shape_of array.now) }
    requires hand { IsInHand (meaning_of array.now) hand.old }
    ensures listed { slice_get (row_major_elements (meaning_of array.now)) rank ≡ Some result.now }
    ensures hand { IsInHand (meaning_of array.now) hand.new }
{
    if let Some(lane) = hand {
        if lane.holds(rank) {
            return lane.element(rank);
        }
    }
    let lane = lane_with(array, rank);
    let element = lane.element(rank);
    *hand = Some(lane);
    element
}

/// Returns the part of a lane that begins with the element of the rank `from`, and ends with the lane or before the
/// rank `until`.
#[inline]
pub(crate) fn lane_ahead<A, S: Data<Elem = A>, D: Dimension>(
    array: &ArrayBase<S, D>,
    from: usize,
    until: usize,
) -> LaneView<'_, A>
    requires some { from < until }
    requires within { until ≤ size_of (shape_of array.now) }
    ensures some { 0 < lane_length result }
    ensures within { from + lane_length result ≤ until }
    ensures lists { ListsFrom result from (meaning_of array.now) }
{
    let (lane, first) = array.lane_of_rank(from);
    let skipped = from - first;
    let count = (lane.len() - skipped).min(until - from);
    lane.part(skipped, count)
}

/// Returns the part of a lane that ends with the element of the rank `until - 1`, and begins with the lane or with the
/// rank `from`.
#[inline]
pub(crate) fn lane_after<A, S: Data<Elem = A>, D: Dimension>(
    array: &ArrayBase<S, D>,
    from: usize,
    until: usize,
) -> LaneView<'_, A>
    requires some { from < until }
    requires within { until ≤ size_of (shape_of array.now) }
    ensures some { 0 < lane_length result }
    ensures within { from + lane_length result ≤ until }
    ensures lists { ListsFrom result (until - lane_length result) (meaning_of array.now) }
{
    let (lane, first) = array.lane_of_rank(until - 1);
    let start = first.max(from);
    lane.part(start - first, until - start)
}

/// Returns the part of a row that begins with the element of the rank `from`, and ends with the row or before the rank
/// `until`, as a slice.
#[inline]
pub(crate) fn row_ahead<A, S: Data<Elem = A>, D: Dimension>(
    array: &ArrayBase<S, D>,
    from: usize,
    until: usize,
) -> &[A]
    requires rows { RowsLieSideBySide array.now }
    requires some { from < until }
    requires within { until ≤ size_of (shape_of array.now) }
    ensures some { 0 < length result.now }
    ensures within { from + length result.now ≤ until }
    ensures lists { IsTakenAhead (meaning_of array.now) from until result.now }
{
    elements_by_rank(array);
    match array.row_of_rank(from) {
        Some((row, first)) => &row[from - first..row.len().min(until - first)],
        None => unreachable!(),
    }
}

/// Returns the part of a row that ends with the element of the rank `until - 1`, and begins with the row or with the
/// rank `from`, as a slice.
#[inline]
pub(crate) fn row_after<A, S: Data<Elem = A>, D: Dimension>(
    array: &ArrayBase<S, D>,
    from: usize,
    until: usize,
) -> &[A]
    requires rows { RowsLieSideBySide array.now }
    requires some { from < until }
    requires within { until ≤ size_of (shape_of array.now) }
    ensures some { 0 < length result.now }
    ensures within { from + length result.now ≤ until }
    ensures lists { IsTakenAfter (meaning_of array.now) from until result.now }
{
    elements_by_rank(array);
    match array.row_of_rank(until - 1) {
        Some((row, first)) => &row[first.max(from) - first..until - first],
        None => unreachable!(),
    }
}
