//! Calling a closure with a mutable reference to each element.

ghost use Rattle.std.specs.Prelude.{◌≡◌, ℕ, IsSome};
ghost use Rattle.nd_layout.specs.NumberedPlacesAndWalks.{along, ranked};
ghost use Rattle.nd_elements.specs.ElementsAtNumberedPlaces.{Holds, PlacesDiffer};
ghost use Rattle.nd_elements.specs.elements.ElementChanges.{ChangesAt, ChangesEach, ChangesPlaces, MayChangeAt, MayChangeEach};

use crate::storage::DataMut;
use nd_layout::{Lane, Places};

/// Calls `f` with a mutable reference to the element at `place`. Returns `f`, as the call left it.
fn change_element<S: DataMut, F: FnMut(&mut S::Elem)>(storage: &mut S, place: usize, mut f: F) -> F
    requires holds { IsSome (S.stored storage.old place) }
    requires callable { MayChangeAt F.FnMut S.stored place storage.old f }
    ensures called { ChangesAt F.FnMut S.stored place storage.old storage.new f result }
    ensures left { (p : ℕ) → ¬ (p ≡ place) → S.stored storage.new p ≡ S.stored storage.old p }
    ensures frame { S.frame storage.new ≡ S.frame storage.old }
{
    f(storage.element_mut(place));
    f
}

/// Calls `f` with a mutable reference to each element along `lane`, from the first on. Returns `f`, as the calls left
/// it.
#[inline(always)]
fn change_strided<S: DataMut, F: FnMut(&mut S::Elem)>(storage: &mut S, lane: Lane, f: F) -> F
    requires apart { PlacesDiffer (along lane) }
    requires holds { Holds S.stored (along lane) storage.old }
    requires callable { MayChangeEach F.FnMut S.stored (along lane) storage.old f }
    ensures changed { ChangesEach F.FnMut S.stored (along lane) storage.old storage.new f result }
    ensures frame { S.frame storage.new ≡ S.frame storage.old }
{
    let mut now = f;
    for nth in 0..lane.count {
        now = change_element(storage, lane.place_of(nth), now);
    }
    now
}

/// Calls `f` with a mutable reference to each element along `lane`, from the first on. Returns `f`, as the calls left
/// it. For a lane of stride 1 the loop has the stride 1 as a constant, which helps the compiler.
#[inline(always)]
fn change_lane<S: DataMut, F: FnMut(&mut S::Elem)>(storage: &mut S, lane: Lane, f: F) -> F
    requires apart { PlacesDiffer (along lane) }
    requires holds { Holds S.stored (along lane) storage.old }
    requires callable { MayChangeEach F.FnMut S.stored (along lane) storage.old f }
    ensures changed { ChangesEach F.FnMut S.stored (along lane) storage.old storage.new f result }
    ensures frame { S.frame storage.new ≡ S.frame storage.old }
{
    if lane.stride == 1 {
        return change_strided(storage, lane.side_by_side(), f);
    }
    change_strided(storage, lane, f)
}

/// Calls `f` with a mutable reference to each element at `places`, in row-major order of the indexes. Returns `f`, as
/// the calls left it. Goes lane by lane.
fn change_lane_by_lane<S: DataMut, F: FnMut(&mut S::Elem)>(
    storage: &mut S,
    places: Places<'_>,
    f: F,
) -> F
    requires apart { PlacesDiffer (ranked places) }
    requires holds { Holds S.stored (ranked places) storage.old }
    requires callable { MayChangeEach F.FnMut S.stored (ranked places) storage.old f }
    ensures changed { ChangesPlaces F.FnMut S.stored places.entry storage.old storage.new f result }
    ensures frame { S.frame storage.new ≡ S.frame storage.old }
{
    let mut lanes = places.lanes();
    let mut now = f;
    while let Some(lane) = lanes.next() {
        now = change_lane(storage, lane, now);
    }
    now
}

/// Calls `f` with a mutable reference to each element at `places`, in row-major order of the indexes. Returns `f`, as
/// the calls left it. If all places are one lane, goes along it; otherwise goes lane by lane.
pub fn change_places<S: DataMut, F: FnMut(&mut S::Elem)>(
    storage: &mut S,
    places: Places<'_>,
    f: F,
) -> F
    requires apart { PlacesDiffer (ranked places) }
    requires holds { Holds S.stored (ranked places) storage.old }
    requires callable { MayChangeEach F.FnMut S.stored (ranked places) storage.old f }
    ensures changed { ChangesPlaces F.FnMut S.stored places.entry storage.old storage.new f result }
    ensures frame { S.frame storage.new ≡ S.frame storage.old }
{
    if let Some(lane) = places.as_lane() {
        return change_lane(storage, lane, f);
    }
    change_lane_by_lane(storage, places, f)
}
