//! Calling a closure with each lane of an axis, which it may write, and collecting what it returns.

ghost use Rattle.std.specs.Prelude.{◌≡◌, ◌≤◌, [], vec_len, vec_capacity};
ghost use Rattle.nd_layout.specs.NumberedPlacesAndWalks.{along};
ghost use Rattle.nd_region.specs.Region.{region_stored};
ghost use Rattle.nd_elements.specs.ElementBorrowEnds.{KeepsPlaces};
ghost use Rattle.nd_elements.specs.ElementsAtNumberedPlaces.{PlacesDiffer, Holds};
ghost use Rattle.nd_elements.specs.along.AxisLanes.{LanesDiffer, LanesHold};
ghost use Rattle.nd_elements.specs.along.PlacesOfAxisLanes.{lanes_in};
ghost use Rattle.nd_elements.specs.along.LanesWritten.{KeepsLanes, TakesLaneAt, LeavesLaneAt, ChangesNoOther, IsAnsweredInside, TakesAllLanes, HandsOut, HandsOutEach};

use crate::along::axis_lanes::AxisLanes;
use crate::along::lane_mut::LaneMut;
use crate::storage::DataMut;
use nd_layout::{Lane, Places};
use nd_region::Region;
use nd_shape_and_slice::{Dimension, StrideList};

/// Calls `f` with a mutable reference to the lane `lane` of `region`. Returns the region and `f`, as the call left
/// them, and what `f` returned.
fn answer_inside<'b, A, B, F: FnMut(&mut LaneMut<'_, A>) -> B>(
    region: Region<'b, A>,
    lane: Lane,
    mut f: F,
) -> (Region<'b, A>, (F, B))
    requires apart { PlacesDiffer (along lane) }
    requires holds { Holds region_stored (along lane) region }
    requires keeps { KeepsLanes F.FnMut }
    requires callable { TakesLaneAt F.FnMut region_stored (along lane) region f }
    ensures { IsAnsweredInside F.FnMut region.entry lane.place lane.count lane.stride f result }
{
    let mut shown = LaneMut::over(region, lane);
    let answer = f(&mut shown);
    (shown.region, (f, answer))
}

/// Calls `f` with a mutable reference to the lane `lane` of `storage`. Returns `f`, as the call left it, and what `f`
/// returned.
fn answer_lane<S: DataMut, B, F: FnMut(&mut LaneMut<'_, S::Elem>) -> B>(
    storage: &mut S,
    lane: Lane,
    f: F,
) -> (F, B)
    requires apart { PlacesDiffer (along lane) }
    requires holds { Holds S.stored (along lane) storage.old }
    requires keeps { KeepsLanes F.FnMut }
    requires callable { TakesLaneAt F.FnMut S.stored (along lane) storage.old f }
    ensures called { LeavesLaneAt F.FnMut S.stored (along lane) storage.old storage.new f result }
    ensures left { ChangesNoOther S.stored (along lane) storage.old storage.new }
    ensures there { KeepsPlaces (S.stored storage.old) (S.stored storage.new) }
    ensures frame { S.frame storage.new ≡ S.frame storage.old }
{
    storage.with_part(
        Places {
            first: lane.place,
            lengths: &[lane.count],
            strides: &[lane.stride],
        },
        |region|
            requires apart { PlacesDiffer (along lane) }
            requires holds { Holds region_stored (along lane) region }
            requires keeps { KeepsLanes F.FnMut }
            requires callable { TakesLaneAt F.FnMut region_stored (along lane) region f }
            ensures changed { IsAnsweredInside F.FnMut region.entry lane.place lane.count lane.stride f result }
        { answer_inside(region, lane, f) },
    )
}

/// Calls `f` with a mutable reference to each of `lanes`, in row-major order of the places where they begin. Returns
/// `f`, as the calls left it, and `room` filled with what `f` returned.
pub fn answer_lanes<S: DataMut, B, F: FnMut(&mut LaneMut<'_, S::Elem>) -> B>(
    room: Vec<B>,
    storage: &mut S,
    lanes: AxisLanes<'_>,
    f: F,
) -> (F, Vec<B>)
    requires apart { LanesDiffer (lanes_in lanes) }
    requires holds { LanesHold S.stored (lanes_in lanes) storage.old }
    requires keeps { KeepsLanes F.FnMut }
    requires empty { (room.items ≡ []) × (vec_len room ≡ 0) }
    requires room { lanes.lanes ≤ vec_capacity room }
    requires callable { TakesAllLanes F.FnMut S.stored (lanes_in lanes) storage.old f }
    ensures handed { HandsOut F.FnMut S.stored (lanes_in lanes.entry) storage.old storage.new f result }
    ensures count { vec_len result.1 ≡ lanes.entry.lanes }
    ensures there { KeepsPlaces (S.stored storage.old) (S.stored storage.new) }
    ensures frame { S.frame storage.new ≡ S.frame storage.old }
{
    let mut turns = lanes.in_turn();
    let mut items = room;
    let mut now = f;
    while let Some(lane) = turns.next() {
        let (after, answer) = answer_lane(storage, lane, now);
        items.push_reserved(answer);
        now = after;
    }
    (now, items)
}

/// Calls `f` with a mutable reference to each of `lanes`, in row-major order of the places where they begin. Allocates
/// no memory. Returns `f`, as the calls left it.
pub fn hand_lanes<S: DataMut, F: FnMut(&mut LaneMut<'_, S::Elem>)>(
    storage: &mut S,
    lanes: AxisLanes<'_>,
    f: F,
) -> F
    requires apart { LanesDiffer (lanes_in lanes) }
    requires holds { LanesHold S.stored (lanes_in lanes) storage.old }
    requires keeps { KeepsLanes F.FnMut }
    requires callable { TakesAllLanes F.FnMut S.stored (lanes_in lanes) storage.old f }
    ensures handed { HandsOutEach F.FnMut S.stored (lanes_in lanes.entry) storage.old storage.new f result }
    ensures there { KeepsPlaces (S.stored storage.old) (S.stored storage.new) }
    ensures frame { S.frame storage.new ≡ S.frame storage.old }
{
    let mut turns = lanes.in_turn();
    let mut now = f;
    while let Some(lane) = turns.next() {
        let (after, _nothing) = answer_lane(storage, lane, now);
        now = after;
    }
    now
}
