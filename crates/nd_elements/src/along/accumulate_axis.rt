//! Calling a closure, along an axis, with each element and a mutable reference to the next one.

ghost use Rattle.std.specs.Prelude.{◌≡◌, ◌+◌, ◌<◌, IsSome};
ghost use Rattle.nd_layout.specs.NumberedPlacesAndWalks.{along};
ghost use Rattle.nd_region.specs.Region.{region_stored};
ghost use Rattle.nd_elements.specs.ElementsAtNumberedPlaces.{PlacesDiffer, Holds};
ghost use Rattle.nd_elements.specs.along.AxisLanes.{AreChecked, LanesDiffer, LanesHold};
ghost use Rattle.nd_elements.specs.along.PlacesOfAxisLanes.{lanes_in};
ghost use Rattle.nd_elements.specs.along.AccumulateAlongAxis.{TakesAfter, ChangesNext, TakesNext, LeavesAllBut, ChangedBetween, ChangedInside, AccumulatesLane, AccumulableLane, AccumulatesLanes, AccumulableLanes};

use crate::along::accumulate_contiguous::accumulate_contiguous;
use crate::along::accumulate_lanes_together::accumulate_parallel;
use crate::along::axis_lanes::AxisLanes;
use crate::storage::DataMut;
use nd_layout::{Lane, Places};
use nd_region::Region;
use nd_shape_and_slice::{Dimension, StrideList};

/// Calls `f` with the element of the region `one` at the place `p`, and with a mutable reference to the element of the
/// region `other` at the place `q`. Returns the regions and `f`, as the call left them.
fn change_between<'b, A, F: FnMut(&A, &mut A)>(
    one: Region<'b, A>,
    p: usize,
    mut other: Region<'b, A>,
    q: usize,
    mut f: F,
) -> (Region<'b, A>, Region<'b, A>, F)
    requires holds { IsSome (region_stored one p) × IsSome (region_stored other q) }
    requires callable { TakesAfter F.FnMut (region_stored one p) (region_stored other q) f }
    ensures { ChangedBetween F.FnMut one.entry p other.entry q f result }
{
    f(one.get(p), other.get_mut(q));
    (one, other, f)
}

/// Calls `f` with the element of `region` at the place `p`, and with a mutable reference to its element at the place
/// `q`. Returns the region and `f`, as the call left them.
fn change_inside<'b, A, F: FnMut(&A, &mut A)>(
    mut region: Region<'b, A>,
    p: usize,
    q: usize,
    f: F,
) -> (Region<'b, A>, F)
    requires apart { ¬ (p ≡ q) }
    requires holds { IsSome (region_stored region p) × IsSome (region_stored region q) }
    requires callable { TakesAfter F.FnMut (region_stored region p) (region_stored region q) f }
    ensures { ChangedInside F.FnMut region.entry p q f result }
{
    let f = region.split_with(
        p,
        &[],
        &[],
        |one, others|
            requires one { IsSome (region_stored one p) }
            requires other { IsSome (region_stored others q) }
            requires callable { TakesAfter F.FnMut (region_stored one p) (region_stored others q) f }
            ensures { ChangedBetween F.FnMut one.entry p others.entry q f result }
        { change_between(one, p, others, q, f) },
    );
    (region, f)
}

/// Calls `f` with element number `nth` of `lane`, and with a mutable reference to element number `nth + 1`. Returns
/// `f`, as the call left it.
fn change_after_strided<S: DataMut, F: FnMut(&S::Elem, &mut S::Elem)>(
    storage: &mut S,
    lane: Lane,
    nth: usize,
    f: F,
) -> F
    requires within { nth + 1 < lane.count }
    requires apart { PlacesDiffer (along lane) }
    requires holds { Holds S.stored (along lane) storage.old }
    requires callable { TakesNext F.FnMut S.stored (along lane) nth storage.old f }
    ensures called { ChangesNext F.FnMut S.stored (along lane) nth storage.old storage.new f result }
    ensures left { LeavesAllBut S.stored ((along lane).place (nth + 1)) storage.old storage.new }
    ensures frame { S.frame storage.new ≡ S.frame storage.old }
{
    let from = lane.place_of(nth);
    let to = lane.place_of(nth + 1);
    storage.with_part(
        Places {
            first: from,
            lengths: &[2],
            strides: &[lane.stride],
        },
        |region|
            requires apart { ¬ (from ≡ to) }
            requires holds { IsSome (region_stored region from) × IsSome (region_stored region to) }
            requires callable { TakesAfter F.FnMut (region_stored region from) (region_stored region to) f }
            ensures changed { ChangedInside F.FnMut region.entry from to f result }
        { change_inside(region, from, to, f) },
    )
}

/// Calls `f`, from the second element of `lane` to the last one, with the element before it and with a mutable
/// reference to the element. Returns `f`, as the calls left it.
fn accumulate_strided<S: DataMut, F: FnMut(&S::Elem, &mut S::Elem)>(
    storage: &mut S,
    lane: Lane,
    f: F,
) -> F
    requires some { 0 < lane.count }
    requires apart { PlacesDiffer (along lane) }
    requires holds { Holds S.stored (along lane) storage.old }
    requires callable { AccumulableLane F.FnMut S.stored (along lane) storage.old f }
    ensures accumulated { AccumulatesLane F.FnMut S.stored (along lane) storage.old storage.new f result }
    ensures frame { S.frame storage.new ≡ S.frame storage.old }
{
    let mut now = f;
    for nth in 0..lane.count - 1 {
        now = change_after_strided(storage, lane, nth, now);
    }
    now
}

/// Calls `f`, from the second element of `lane` to the last one, with the element before it and with a mutable
/// reference to the element. A lane of stride 1 is borrowed as a slice. Returns `f`, as the calls left it.
fn accumulate_lane<S: DataMut, F: FnMut(&S::Elem, &mut S::Elem)>(
    storage: &mut S,
    lane: Lane,
    f: F,
) -> F
    requires some { 0 < lane.count }
    requires apart { PlacesDiffer (along lane) }
    requires holds { Holds S.stored (along lane) storage.old }
    requires callable { AccumulableLane F.FnMut S.stored (along lane) storage.old f }
    ensures accumulated { AccumulatesLane F.FnMut S.stored (along lane) storage.old storage.new f result }
    ensures frame { S.frame storage.new ≡ S.frame storage.old }
{
    if lane.stride == 1 {
        return accumulate_contiguous(storage, lane, f);
    }
    accumulate_strided(storage, lane, f)
}

/// Calls `f`, along each of `lanes`, from the second element to the last one, with the element before it and with a
/// mutable reference to the element. Goes along one lane after another. Returns `f`, as the calls left it.
fn accumulate_in_turn<S: DataMut, F: FnMut(&S::Elem, &mut S::Elem)>(
    storage: &mut S,
    lanes: AxisLanes<'_>,
    f: F,
) -> F
    requires some { 0 < lanes.count }
    requires apart { LanesDiffer (lanes_in lanes) }
    requires holds { LanesHold S.stored (lanes_in lanes) storage.old }
    requires callable { AccumulableLanes F.FnMut S.stored (lanes_in lanes) storage.old f }
    ensures accumulated { AccumulatesLanes F.FnMut S.stored (lanes_in lanes.entry) storage.old storage.new f result }
    ensures frame { S.frame storage.new ≡ S.frame storage.old }
{
    let mut turns = lanes.in_turn();
    let mut now = f;
    while let Some(lane) = turns.next() {
        now = accumulate_lane(storage, lane, now);
    }
    now
}

/// Calls `f`, along each of `lanes`, from the second element to the last one, with the element before it and with a
/// mutable reference to the element. If there are enough lanes and they begin at contiguous places, takes the elements
/// of all lanes at one coordinate before those at the next; otherwise goes along one lane after another. Returns `f`,
/// as the calls left it.
pub fn accumulate_lanes<S: DataMut, F: FnMut(&S::Elem, &mut S::Elem)>(
    storage: &mut S,
    lanes: AxisLanes<'_>,
    f: F,
) -> F
    requires some { 0 < lanes.count }
    requires checked { AreChecked (lanes_in lanes) }
    requires apart { LanesDiffer (lanes_in lanes) }
    requires holds { LanesHold S.stored (lanes_in lanes) storage.old }
    requires callable { AccumulableLanes F.FnMut S.stored (lanes_in lanes) storage.old f }
    ensures accumulated { AccumulatesLanes F.FnMut S.stored (lanes_in lanes.entry) storage.old storage.new f result }
    ensures frame { S.frame storage.new ≡ S.frame storage.old }
{
    if let Some(lane) = lanes.contiguous() {
        return accumulate_parallel(storage, lane, lanes.lanes, f);
    }
    accumulate_in_turn(storage, lanes, f)
}
