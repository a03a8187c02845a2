//! The lane of the last axis that holds the element of a row-major rank. With it a caller reads the elements one after
//! another without an index.
#![tactic(auto, unfolding(crate::specs::ArrayMeaning::meaning_of, crate::specs::ArrayMeaning::memory_layout_of, crate::specs::along::AxisMaps::lane_seen))]

ghost use Rattle.std.specs.Prelude.{◌↔◌, ◌≡◌, ◌+◌, ◌<◌, ◌≤◌, ℕ, length, Some, IsSome, IfSome, pos, slice_get};
ghost use Rattle.nd_shape_and_slice.specs.ShapesAndIndexOrders.{size_of};
ghost use Rattle.nd_layout.specs.HalvedLayouts.{rank_place};
ghost use Rattle.nd_layout.specs.LayoutStepsOfCalls.{placement_of};
ghost use Rattle.nd_layout.specs.RowMajorWalk.{IsLastAxis};
ghost use Rattle.nd_array_core.specs.ArrayMeaning.{meaning_of, shape_of};
ghost use Rattle.nd_array_core.specs.along.LanesOfLastAxis.{last_stride, lane_length, lane_element, ListsFrom, IsWholeLane, RowsLieSideBySide, IsRowOf};

use crate::along::lane_view::LaneView;
use crate::base::array::ArrayBase;
use nd_elements::along::lane_starts::lane_from;
use nd_elements::storage::Data;
use nd_shape_and_slice::{Dimension, MAX_AXES, StrideList, index_of_rank};

impl<'a, A> LaneView<'a, A> {
    /// Returns the number of elements.
    #[inline]
    pub fn len(&self) -> usize
        ensures { result ≡ lane_length self.now }
    {
        self.lane.count
    }

    /// Returns element number `nth` of the lane. The number must be below `len`. The reference lives as long as what
    /// the lane borrows.
    #[inline]
    pub fn element(&self, nth: usize) -> &'a A
        requires { nth < lane_length self.now }
        ensures { lane_element self.now nth ≡ Some result.now }
    {
        let region = self.storage.region;
        region.get(self.lane.place_of(nth))
    }

    /// Returns the lane's elements as one slice, or None exactly where its stride isn't 1.
    #[inline]
    pub(crate) fn to_slice(&self) -> Option<&'a [A]>
        ensures some { IsSome result ↔ (self.now.lane.stride ≡ pos 1) }
        ensures length { IfSome result (λ xs. length xs.now ≡ lane_length self.now) }
        ensures elements { IfSome result (λ xs. (k : ℕ) → k < lane_length self.now → slice_get xs.now k ≡ lane_element self.now k) }
    {
        if self.lane.stride != 1 {
            return None;
        }
        let storage = self.storage;
        Some(storage.run(self.lane.place, self.lane.count))
    }
}

/// Returns the length and the stride of the last axis, or 1 and 1 if there is no axis.
#[inline]
fn last_axis(lengths: &[usize], strides: &[isize]) -> (usize, isize)
    requires { length strides.now ≡ length lengths.now }
    ensures { IsLastAxis lengths.now strides.now result.0 result.1 }
{
    let axes = lengths.len();
    if axes == 0 {
        return (1, 1);
    }
    (lengths[axes - 1], strides[axes - 1])
}

impl<S: Data, D: Dimension> ArrayBase<S, D> {
    /// Returns the place of the element whose row-major rank is `rank`.
    #[inline(never)]
    fn place_of_rank(&self, rank: usize) -> usize
        requires { rank < size_of (shape_of self.now) }
        ensures { pos result ≡ rank_place (placement_of self.now.layout) rank }
    {
        let mut coordinates = [0; MAX_AXES];
        let index = &mut coordinates[..self.ndim()];
        index_of_rank(self.layout.dim.slice(), rank, index);
        self.layout.place_in_box(index)
    }

    /// Returns the lane of the last axis that holds the element of the row-major rank `rank`, and the rank of the
    /// lane's first element.
    #[inline]
    fn last_lane(&self, rank: usize) -> (LaneView<'_, S::Elem>, usize)
        requires { rank < size_of (shape_of self.now) }
        ensures from { result.1 ≤ rank }
        ensures upto { rank < result.1 + lane_length result.0 }
        ensures within { result.1 + lane_length result.0 ≤ size_of (shape_of self.now) }
        ensures elements { ListsFrom result.0 result.1 (meaning_of self.now) }
        ensures whole { IsWholeLane result.0 result.1 (shape_of self.now) }
        ensures stride { result.0.lane.stride ≡ last_stride self.now }
    {
        let (count, stride) = last_axis(self.layout.dim.slice(), self.layout.strides.slice());
        let from = rank - rank % count;
        let lane = lane_from(self.place_of_rank(from), count, stride);
        (LaneView::over(self.storage.borrowed(), lane), from)
    }

    /// Returns the lane of the last axis that holds the element of a row-major rank, and the rank of the lane's first
    /// element. The rank must be below `len`. An array without axes has one lane, of its one element.
    #[inline]
    pub fn lane_of_rank(&self, rank: usize) -> (LaneView<'_, S::Elem>, usize)
        requires { rank < size_of (shape_of self.now) }
        ensures from { result.1 ≤ rank }
        ensures upto { rank < result.1 + lane_length result.0 }
        ensures within { result.1 + lane_length result.0 ≤ size_of (shape_of self.now) }
        ensures elements { ListsFrom result.0 result.1 (meaning_of self.now) }
        ensures whole { IsWholeLane result.0 result.1 (shape_of self.now) }
    {
        self.last_lane(rank)
    }

    /// Returns the lane of the last axis that holds the element of a row-major rank, as a slice, and the rank of the
    /// lane's first element. The result is None exactly where the stride of the last axis isn't 1. The rank must be
    /// below `len`.
    #[inline]
    pub fn row_of_rank(&self, rank: usize) -> Option<(&[S::Elem], usize)>
        requires { rank < size_of (shape_of self.now) }
        ensures some { IsSome result ↔ RowsLieSideBySide self.now }
        ensures row { IfSome result (λ row. IsRowOf (meaning_of self.now) rank row.0.now row.1) }
    {
        let (lane, from) = self.last_lane(rank);
        match lane.to_slice() {
            Some(row) => Some((row, from)),
            None => None,
        }
    }

    /// Returns a lane without elements, for an iterator that has no lane in hand yet.
    pub fn no_lane(&self) -> LaneView<'_, S::Elem>
        ensures { lane_length result ≡ 0 }
    {
        LaneView::over(self.storage.borrowed(), lane_from(0, 0, 1))
    }
}
