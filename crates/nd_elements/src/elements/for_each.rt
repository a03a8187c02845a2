//! Calling a closure with a reference to each element.

ghost use Rattle.nd_layout.specs.NumberedPlacesAndWalks.{along, ranked};
ghost use Rattle.nd_elements.specs.ElementsAtNumberedPlaces.{Holds};
ghost use Rattle.nd_elements.specs.elements.ElementMaps.{MayShowEach, CallsWithEach};

use crate::storage::Data;
use nd_layout::{Lane, Places};

/// Calls `f` with each element along `lane`, from the first on. Returns `f`, as the calls left it.
fn show_lane<S: Data, F: FnMut(&S::Elem)>(storage: &S, lane: Lane, mut f: F) -> F
    requires holds { Holds S.stored (along lane) storage.now }
    requires callable { MayShowEach F.FnMut S.stored (along lane) storage.now f }
    ensures ran { CallsWithEach F.FnMut S.stored (along lane) storage.now f result }
{
    for nth in 0..lane.count {
        f(storage.element(lane.place_of(nth)));
    }
    f
}

/// Calls `f` with each element at `places`, in row-major order of the indexes. Returns `f`, as the calls left it.
pub fn show_places<S: Data, F: FnMut(&S::Elem)>(storage: &S, places: Places<'_>, f: F) -> F
    requires holds { Holds S.stored (ranked places) storage.now }
    requires callable { MayShowEach F.FnMut S.stored (ranked places) storage.now f }
    ensures ran { CallsWithEach F.FnMut S.stored (ranked places.entry) storage.now f result }
{
    let mut lanes = places.lanes();
    let mut now = f;
    while let Some(lane) = lanes.next() {
        now = show_lane(storage, lane, now);
    }
    now
}
