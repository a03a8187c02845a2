//! The lanes of an axis as one value, over which loops go.

ghost use Rattle.std.specs.Prelude.{◌≡◌, ◌<◌, ◌^◌, IfSome};
ghost use Rattle.nd_shape_and_slice.specs.ShapesAndIndexOrders.{size_of};
ghost use Rattle.nd_shape_and_slice.specs.PlacesAndOverlaps.{span_of};
ghost use Rattle.nd_layout.specs.PlacesInTurn.{HasGiven, ArePlacesOf};
ghost use Rattle.nd_elements.specs.along.AxisLanes.{lane_place, LanesReach};

use crate::along::lane_starts::lane_from;
use nd_layout::{Lane, Layout, Places, PlacesInTurn, is_standard};
use nd_shape_and_slice::{Dimension, StrideList};

/// The number of lanes from which on it is worth while to go along them together. Not measured by itself.
const FEWEST_PARALLEL_LANES: usize = 8;

/// The lanes of an axis. They begin at the places `firsts`, in row-major order; all have the same number of places and
/// the same stride.
#[derive(Clone, Copy)]
pub struct AxisLanes<'a> {
    /// The places where the lanes begin.
    pub firsts: Places<'a>,
    /// The number of lanes.
    pub lanes: usize,
    /// The number of places of each lane.
    pub count: usize,
    pub stride: isize,
    ghost many: { lanes ≡ size_of firsts.lengths.now },
    ghost spread: { span_of firsts.lengths.now firsts.strides.now < 2 ^ 63 },
    ghost short: { count < 2 ^ 63 },
    ghost lie: { LanesReach (lane_place firsts.first firsts.lengths.now firsts.strides.now stride) (size_of firsts.lengths.now) count },
}

/// An iterator over the lanes of an axis.
#[derive(Drop)]
pub struct LanesInTurn<'a> {
    /// All lanes, including those that were returned already.
    pub lanes: AxisLanes<'a>,
    /// The number of lanes that were returned so far.
    pub given: usize,
    /// The places where the lanes begin.
    starts: PlacesInTurn<'a>,
    ghost over: { ArePlacesOf lanes.firsts starts },
    ghost stands: { HasGiven starts given },
}

impl<'a> AxisLanes<'a> {
    ghost use Rattle.nd_layout.specs.LayoutStepsOfCalls.{placement_of};
    ghost use Rattle.nd_elements.specs.along.AxisLanes.{LanesLie, lanes_from, BeginContiguously};
    ghost use Rattle.nd_elements.specs.along.PlacesOfAxisLanes.{lanes_in};

    /// Returns the lanes that begin at the places of `firsts`, with `count` places each and the stride `stride`.
    pub fn new<D: Dimension, T: StrideList>(
        firsts: &'a Layout<D, T>,
        count: usize,
        stride: isize,
    ) -> Self
        requires short { count < 2 ^ 63 }
        requires lie { LanesLie (lanes_from (placement_of firsts.now) count stride) }
        ensures { lanes_in result ≡ lanes_from (placement_of firsts.now) count stride }
    {
        AxisLanes {
            firsts: firsts.places(),
            lanes: firsts.dim.size(),
            count,
            stride,
        }
    }

    /// Returns the first lane if there are at least `FEWEST_PARALLEL_LANES` lanes and they begin at contiguous places
    /// in row-major order, and otherwise `None`.
    pub fn contiguous(&self) -> Option<Lane>
        ensures some { IfSome result (λ _. 0 < self.now.lanes) }
        ensures contiguous { IfSome result (BeginContiguously (lanes_in self.now)) }
    {
        if self.lanes >= FEWEST_PARALLEL_LANES
            && is_standard(self.firsts.lengths, self.firsts.strides)
        {
            return Some(lane_from(self.firsts.first, self.count, self.stride));
        }
        None
    }

    /// Returns an iterator over the lanes, which begins with the first one.
    pub fn in_turn(self) -> LanesInTurn<'a>
        ensures lanes { result.lanes ≡ self.entry }
        ensures given { result.given ≡ 0 }
    {
        LanesInTurn {
            lanes: self,
            given: 0,
            starts: PlacesInTurn::new(self.firsts),
        }
    }
}

impl<'a> LanesInTurn<'a> {
    ghost use Rattle.nd_elements.specs.along.AxisLanes.{GivesLaneInTurn};
    ghost use Rattle.nd_elements.specs.along.PlacesOfAxisLanes.{lanes_in};

    /// Returns the next lane, or `None` if all lanes were returned.
    #[inline]
    pub fn next(&mut self) -> Option<Lane>
        ensures lanes { self.new.lanes ≡ self.old.lanes }
        ensures lane { GivesLaneInTurn (lanes_in self.old.lanes) self.old.given self.new.given result }
    {
        match self.starts.next(self.given) {
            Some(place) => {
                self.given += 1;
                Some(lane_from(place, self.lanes.count, self.lanes.stride))
            }
            None => None,
        }
    }
}
