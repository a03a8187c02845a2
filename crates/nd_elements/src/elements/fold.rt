//! Folding elements into one value with a closure.

ghost use Rattle.nd_layout.specs.NumberedPlacesAndWalks.{along, ranked};
ghost use Rattle.nd_elements.specs.ElementsAtNumberedPlaces.{Holds};
ghost use Rattle.nd_elements.specs.elements.ElementFolds.{FoldsEach, MayFoldEach};

use crate::storage::Data;
use nd_layout::{Lane, Places};

/// Folds the elements along `lane` with `f`, starting from `init`. Returns `f`, as the calls left it, and the total.
#[inline(always)]
fn fold_strided<S: Data, B, F: FnMut(B, &S::Elem) -> B>(
    storage: &S,
    lane: Lane,
    init: B,
    mut f: F,
) -> (F, B)
    requires holds { Holds S.stored (along lane) storage.now }
    requires callable { MayFoldEach F.FnMut S.stored (along lane) storage.now (f, init) }
    ensures ran { FoldsEach F.FnMut S.stored (along lane) storage.now (f, init) result }
{
    let mut total = init;
    for nth in 0..lane.count {
        total = f(total, storage.element(lane.place_of(nth)));
    }
    (f, total)
}

/// Folds the elements along `lane` with `f`, starting from `init`. Returns `f`, as the calls left it, and the total.
/// For a lane of stride 1 the loop has the stride 1 as a constant, which helps the compiler.
#[inline(always)]
fn fold_lane<S: Data, B, F: FnMut(B, &S::Elem) -> B>(
    storage: &S,
    lane: Lane,
    init: B,
    f: F,
) -> (F, B)
    requires holds { Holds S.stored (along lane) storage.now }
    requires callable { MayFoldEach F.FnMut S.stored (along lane) storage.now (f, init) }
    ensures ran { FoldsEach F.FnMut S.stored (along lane) storage.now (f, init) result }
{
    if lane.stride == 1 {
        return fold_strided(storage, lane.side_by_side(), init, f);
    }
    fold_strided(storage, lane, init, f)
}

/// Folds the elements at `places` with `f` in row-major order of the indexes, starting from `init`. Returns `f`, as the
/// calls left it, and the total. Goes lane by lane.
fn fold_lane_by_lane<S: Data, B, F: FnMut(B, &S::Elem) -> B>(
    storage: &S,
    places: Places<'_>,
    init: B,
    f: F,
) -> (F, B)
    requires holds { Holds S.stored (ranked places) storage.now }
    requires callable { MayFoldEach F.FnMut S.stored (ranked places) storage.now (f, init) }
    ensures ran { FoldsEach F.FnMut S.stored (ranked places.entry) storage.now (f, init) result }
{
    let mut lanes = places.lanes();
    let mut f = f;
    let mut total = init;
    while let Some(lane) = lanes.next() {
        (f, total) = fold_lane(storage, lane, total, f);
    }
    (f, total)
}

/// Folds the elements at `places` with `f` in row-major order of the indexes, starting from `init`. Returns `f`, as the
/// calls left it, and the total. If all places are one lane, goes along it; otherwise goes lane by lane.
pub fn fold_places<S: Data, B, F: FnMut(B, &S::Elem) -> B>(
    storage: &S,
    places: Places<'_>,
    init: B,
    f: F,
) -> (F, B)
    requires holds { Holds S.stored (ranked places) storage.now }
    requires callable { MayFoldEach F.FnMut S.stored (ranked places) storage.now (f, init) }
    ensures ran { FoldsEach F.FnMut S.stored (ranked places.entry) storage.now (f, init) result }
{
    if let Some(lane) = places.as_lane() {
        return fold_lane(storage, lane, init, f);
    }
    fold_lane_by_lane(storage, places, init, f)
}
