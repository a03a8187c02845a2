//! Parts of a lane, and calls that take its first or its last element out.
#![tactic(auto, unfolding(crate::specs::along::AxisMaps::lane_seen))]

ghost use Rattle.std.specs.Prelude.{◌≡◌, ◌+◌, ◌-◌, ◌<◌, ◌≤◌, Some};
ghost use Rattle.nd_array_core.specs.along.LanesOfLastAxis.{lane_length, lane_element, GoesOnFrom, LiesFrom};

use crate::along::lane_view::LaneView;
use nd_elements::along::lane_starts::lane_from;
use nd_layout::Lane;

/// Returns the part of `lane` that has `count` places, from place number `from` on.
#[inline]
fn part_of(lane: Lane, from: usize, count: usize) -> Lane
    requires some { 0 < count }
    requires within { from + count ≤ lane.count }
    ensures count { result.count ≡ count }
    ensures places { LiesFrom lane from result }
{
    lane_from(lane.place_of(from), count, lane.stride)
}

/// Returns a lane without its first place.
#[inline]
fn without_first(lane: Lane) -> Lane
    requires { 0 < lane.count }
    ensures count { result.count + 1 ≡ lane.count }
    ensures places { LiesFrom lane 1 result }
{
    lane_from(
        lane.place.wrapping_add_signed(lane.stride),
        lane.count - 1,
        lane.stride,
    )
}

/// Returns a lane without its last place.
#[inline]
fn without_last(lane: Lane) -> Lane
    requires { 0 < lane.count }
    ensures count { result.count + 1 ≡ lane.count }
    ensures places { LiesFrom lane 0 result }
{
    lane_from(lane.place, lane.count - 1, lane.stride)
}

impl<'a, A> LaneView<'a, A> {
    /// Returns the part of the lane that has `count` elements, from the one with number `from` on.
    #[inline]
    pub fn part(self, from: usize, count: usize) -> Self
        requires some { 0 < count }
        requires within { from + count ≤ lane_length self }
        ensures length { lane_length result ≡ count }
        ensures rest { GoesOnFrom self.entry from result }
    {
        LaneView::over(self.storage, part_of(self.lane, from, count))
    }

    /// Returns the first element, and takes it out of the lane.
    #[inline]
    pub fn take_first(&mut self) -> &'a A
        requires { 0 < lane_length self.old }
        ensures element { lane_element self.old 0 ≡ Some result.now }
        ensures length { lane_length self.new + 1 ≡ lane_length self.old }
        ensures rest { GoesOnFrom self.old 1 self.new }
    {
        let element = self.element(0);
        *self = LaneView::over(self.storage, without_first(self.lane));
        element
    }

    /// Returns the last element, and takes it out of the lane.
    #[inline]
    pub fn take_last(&mut self) -> &'a A
        requires { 0 < lane_length self.old }
        ensures element { lane_element self.old (lane_length self.new) ≡ Some result.now }
        ensures length { lane_length self.new + 1 ≡ lane_length self.old }
        ensures rest { GoesOnFrom self.old 0 self.new }
    {
        let element = self.element(self.lane.count - 1);
        *self = LaneView::over(self.storage, without_last(self.lane));
        element
    }
}
