//! Folding each lane of an axis into a value.

ghost use Rattle.std.specs.Prelude.{◌≡◌, ◌≤◌, [], IfOk, OnErr, vec_len, vec_capacity};
ghost use Rattle.nd_layout.specs.NumberedPlacesAndWalks.{along};
ghost use Rattle.nd_elements.specs.LackOfMemory.{MayLackForClones};
ghost use Rattle.nd_elements.specs.EqualClones.{ClonesAreEqual};
ghost use Rattle.nd_elements.specs.ElementsAtNumberedPlaces.{Holds, elements_at};
ghost use Rattle.nd_elements.specs.along.AxisLanes.{LanesHold};
ghost use Rattle.nd_elements.specs.along.PlacesOfAxisLanes.{lanes_in};
ghost use Rattle.nd_elements.specs.along.FoldOfLanes.{FoldsRun, TakesRun, LanesFoldable, FoldsEachLane};

use crate::along::axis_lanes::AxisLanes;
use crate::along::fold_lanes_together::{clones_in, fold_parallel};
use crate::storage::Data;
use nd_layout::Lane;
use nd_shape_and_slice::{Dimension, NoMemory, StrideList};

/// Folds the elements along `lane` with `f`, starting from `init`. Returns `f`, as the calls left it, and the total.
#[inline(always)]
fn fold_shown<S: Data, B: Drop, F: FnMut(&B, &S::Elem) -> B>(
    storage: &S,
    lane: Lane,
    init: B,
    mut f: F,
) -> (F, B)
    requires holds { Holds S.stored (along lane) storage.now }
    requires callable { TakesRun F.FnMut (elements_at S.stored (along lane) storage.now) lane.count init f }
    ensures ran { FoldsRun F.FnMut (elements_at S.stored (along lane) storage.now) lane.count init f result.1 result.0 }
{
    let mut total = init;
    for nth in 0..lane.count {
        total = f(&total, storage.element(lane.place_of(nth)));
    }
    (f, total)
}

/// Folds each of `lanes` with `f`, starting from a clone of `init`, one lane after another. Returns `room` filled with
/// the totals.
fn fold_in_turn<S: Data, B: Clone + Drop, F: FnMut(&B, &S::Elem) -> B>(
    room: Vec<B>,
    storage: &S,
    lanes: AxisLanes<'_>,
    init: &B,
    f: F,
) -> Result<Vec<B>, NoMemory>
    requires holds { LanesHold S.stored (lanes_in lanes) storage.now }
    requires empty { (room.items ≡ []) × (vec_len room ≡ 0) }
    requires room { lanes.lanes ≤ vec_capacity room }
    requires clones { ClonesAreEqual B.is_clone init.now }
    requires callable { LanesFoldable F.FnMut S.stored (lanes_in lanes) storage.now init.now f }
    ensures count { IfOk result (λ v. vec_len v ≡ lanes.entry.lanes) }
    ensures folds { IfOk result (FoldsEachLane F.FnMut S.stored lanes.entry storage.now init.now f) }
    ensures refused { OnErr result (MayLackForClones B.is_infallible init.now lanes.entry.lanes) }
{
    let mut turns = lanes.in_turn();
    let mut items = room;
    let mut now = f;
    while let Some(lane) = turns.next() {
        let start = init.clone()?;
        let (after, total) = fold_shown(storage, lane, start, now);
        items.push_reserved(total);
        now = after;
    }
    Ok(items)
}

/// Folds each of `lanes` with `f`, starting from a clone of `init`: `f` is called with the total so far and each
/// element. Returns `room` filled with the totals, in row-major order of the places where the lanes begin. If there are
/// enough lanes and they begin at contiguous places, takes the elements of all lanes at one coordinate before those at
/// the next; otherwise goes along one lane after another. Fails with `NoMemory` if a clone fails for memory.
pub fn fold_lanes<S: Data, B: Clone + Drop, F: FnMut(&B, &S::Elem) -> B>(
    room: Vec<B>,
    storage: &S,
    lanes: AxisLanes<'_>,
    init: &B,
    f: F,
) -> Result<Vec<B>, NoMemory>
    requires holds { LanesHold S.stored (lanes_in lanes) storage.now }
    requires empty { (room.items ≡ []) × (vec_len room ≡ 0) }
    requires room { lanes.lanes ≤ vec_capacity room }
    requires clones { ClonesAreEqual B.is_clone init.now }
    requires callable { LanesFoldable F.FnMut S.stored (lanes_in lanes) storage.now init.now f }
    ensures count { IfOk result (λ v. vec_len v ≡ lanes.entry.lanes) }
    ensures folds { IfOk result (FoldsEachLane F.FnMut S.stored lanes.entry storage.now init.now f) }
    ensures refused { OnErr result (MayLackForClones B.is_infallible init.now lanes.entry.lanes) }
{
    if let Some(lane) = lanes.contiguous() {
        let starts = clones_in(room, init, lanes.lanes)?;
        return Ok(fold_parallel(starts, storage, lane, f));
    }
    fold_in_turn(room, storage, lanes, init, f)
}
