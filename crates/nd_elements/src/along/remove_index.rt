//! Removing one coordinate of an axis.

ghost use Rattle.std.specs.Prelude.{◌≡◌, ◌<◌};
ghost use Rattle.nd_layout.specs.NumberedPlacesAndWalks.{along};
ghost use Rattle.nd_elements.specs.ElementsAtNumberedPlaces.{PlacesDiffer, Holds};
ghost use Rattle.nd_elements.specs.along.AxisLanes.{LanesDiffer, LanesHold};
ghost use Rattle.nd_elements.specs.along.PlacesOfAxisLanes.{lanes_in};
ghost use Rattle.nd_elements.specs.along.RemovedIndex.{RotatesPlaces, RotatesLanes};

use crate::along::axis_lanes::AxisLanes;
use crate::storage::DataMut;
use nd_layout::Lane;
use nd_shape_and_slice::{Dimension, StrideList};

/// Moves the element number `from` of `lane` to the lane's end, and each element after it one place towards the front.
fn rotate_lane<S: DataMut>(storage: &mut S, lane: Lane, from: usize)
    requires from { from < lane.count }
    requires apart { PlacesDiffer (along lane) }
    requires holds { Holds S.stored (along lane) storage.old }
    ensures moved { RotatesPlaces S.stored (along lane) from storage.old storage.new }
    ensures frame { S.frame storage.new ≡ S.frame storage.old }
{
    for nth in from..lane.count - 1 {
        storage.swap(lane.place_of(nth), lane.place_of(nth + 1));
    }
}

/// Moves in each of `lanes` the element number `from` to the lane's end, and each element after it one place towards
/// the front.
pub fn rotate_lanes<S: DataMut>(storage: &mut S, lanes: AxisLanes<'_>, from: usize)
    requires from { from < lanes.count }
    requires apart { LanesDiffer (lanes_in lanes) }
    requires holds { LanesHold S.stored (lanes_in lanes) storage.old }
    ensures moved { RotatesLanes S.stored (lanes_in lanes.entry) from storage.old storage.new }
    ensures frame { S.frame storage.new ≡ S.frame storage.old }
{
    let mut turns = lanes.in_turn();
    while let Some(lane) = turns.next() {
        rotate_lane(storage, lane, from);
    }
}
