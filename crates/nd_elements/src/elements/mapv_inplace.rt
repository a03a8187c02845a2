//! Replacing each element by what a closure returns for a clone of it.

ghost use Rattle.std.specs.Prelude.{◌≡◌, IfOk, OnErr};
ghost use Rattle.nd_layout.specs.NumberedPlacesAndWalks.{along, ranked};
ghost use Rattle.nd_elements.specs.ElementBorrowEnds.{KeepsPlaces};
ghost use Rattle.nd_elements.specs.ElementsAtNumberedPlaces.{ClonesAreEqualAt, Holds, MayLackMemory, MayLackAt, PlacesDiffer};
ghost use Rattle.nd_elements.specs.elements.ElementMaps.{MayGiveEach, ReplacesEach, ReplacesInPart, Rewrites, RewritesInPart};

use crate::storage::DataMut;
use nd_layout::{Lane, Places};
use nd_shape_and_slice::NoMemory;

/// Calls `f` with a clone of each element along `lane`, and writes what it returns at the element's place. Returns `f`,
/// as the calls left it.
fn replace_lane<S: DataMut, F: FnMut(S::Elem) -> S::Elem>(
    storage: &mut S,
    lane: Lane,
    mut f: F,
) -> Result<F, NoMemory>
where
    S::Elem: Clone + Drop,
    requires apart { PlacesDiffer (along lane) }
    requires clones { ClonesAreEqualAt S.Elem.is_clone S.stored (along lane) storage.old }
    requires holds { Holds S.stored (along lane) storage.old }
    requires callable { MayGiveEach F.FnMut S.stored (along lane) storage.old f }
    ensures replaced { IfOk result (ReplacesEach F.FnMut S.stored (along lane) storage.old storage.new f) }
    ensures stopped { OnErr result (ReplacesInPart F.FnMut S.stored (along lane) storage.old storage.new f) }
    ensures refused { OnErr result (MayLackAt S.Elem.is_infallible S.stored (along lane) storage.old) }
    ensures there { KeepsPlaces (S.stored storage.old) (S.stored storage.new) }
    ensures frame { S.frame storage.new ≡ S.frame storage.old }
{
    for nth in 0..lane.count {
        let place = lane.place_of(nth);
        let copy = storage.element(place).clone()?;
        storage.replace(place, f(copy));
    }
    Ok(f)
}

/// Calls `f` with a clone of each element at `places`, in row-major order of the indexes, and writes what it returns at
/// the element's place. Returns `f`, as the calls left it.
pub fn replace_places<S: DataMut, F: FnMut(S::Elem) -> S::Elem>(
    storage: &mut S,
    places: Places<'_>,
    f: F,
) -> Result<F, NoMemory>
where
    S::Elem: Clone + Drop,
    requires apart { PlacesDiffer (ranked places) }
    requires clones { ClonesAreEqualAt S.Elem.is_clone S.stored (ranked places) storage.old }
    requires holds { Holds S.stored (ranked places) storage.old }
    requires callable { MayGiveEach F.FnMut S.stored (ranked places) storage.old f }
    ensures replaced { IfOk result (Rewrites F.FnMut S.stored places.entry storage.old storage.new f) }
    ensures stopped { OnErr result (RewritesInPart F.FnMut S.stored places.entry storage.old storage.new f) }
    ensures refused { OnErr result (MayLackMemory S.Elem.is_infallible S.stored places.entry storage.old) }
    ensures there { KeepsPlaces (S.stored storage.old) (S.stored storage.new) }
    ensures frame { S.frame storage.new ≡ S.frame storage.old }
{
    let mut lanes = places.lanes();
    let mut now = f;
    while let Some(lane) = lanes.next() {
        match replace_lane(storage, lane, now) {
            Ok(later) => now = later,
            Err(refused) => return Err(refused),
        }
    }
    Ok(now)
}
