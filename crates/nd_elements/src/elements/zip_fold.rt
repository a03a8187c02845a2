//! Folding pairs of elements of two storages into one value with a closure.

ghost use Rattle.std.specs.Prelude.{◌≡◌};
ghost use Rattle.nd_layout.specs.NumberedPlacesAndWalks.{along, ranked};
ghost use Rattle.nd_elements.specs.ElementsAtNumberedPlaces.{Holds};
ghost use Rattle.nd_elements.specs.elements.PairFolds.{FoldsPairs, MayFoldPairs};

use crate::storage::Data;
use nd_layout::{Lane, Places};

/// Folds the pairs of elements with the same position along `lane` of `storage` and along `other_lane` of `others` with
/// `f`, starting from `init`. Returns `f`, as the calls left it, and the total.
#[inline(always)]
fn fold_pairs_strided<S: Data, Z: Data, T, F: FnMut(T, &S::Elem, &Z::Elem) -> T>(
    storage: &S,
    lane: Lane,
    others: &Z,
    other_lane: Lane,
    init: T,
    mut f: F,
) -> (F, T)
    requires as_long { other_lane.count ≡ lane.count }
    requires holds { Holds S.stored (along lane) storage.now }
    requires others_hold { Holds Z.stored (along other_lane) others.now }
    requires callable { MayFoldPairs F.FnMut S.stored Z.stored (along lane) (along other_lane) storage.now others.now (f, init) }
    ensures ran { FoldsPairs F.FnMut S.stored Z.stored (along lane) (along other_lane) storage.now others.now (f, init) result }
{
    let mut total = init;
    for nth in 0..lane.count {
        let x = storage.element(lane.place_of(nth));
        let y = others.element(other_lane.place_of(nth));
        total = f(total, x, y);
    }
    (f, total)
}

/// Folds the pairs of elements with the same position along `lane` of `storage` and along `other_lane` of `others` with
/// `f`, starting from `init`. Returns `f`, as the calls left it, and the total. For two lanes of stride 1 the loop has
/// the stride 1 as a constant, which helps the compiler.
#[inline(always)]
fn fold_pairs_lane<S: Data, Z: Data, T, F: FnMut(T, &S::Elem, &Z::Elem) -> T>(
    storage: &S,
    lane: Lane,
    others: &Z,
    other_lane: Lane,
    init: T,
    f: F,
) -> (F, T)
    requires as_long { other_lane.count ≡ lane.count }
    requires holds { Holds S.stored (along lane) storage.now }
    requires others_hold { Holds Z.stored (along other_lane) others.now }
    requires callable { MayFoldPairs F.FnMut S.stored Z.stored (along lane) (along other_lane) storage.now others.now (f, init) }
    ensures ran { FoldsPairs F.FnMut S.stored Z.stored (along lane) (along other_lane) storage.now others.now (f, init) result }
{
    if lane.stride != 1 {
        return fold_pairs_strided(storage, lane, others, other_lane, init, f);
    }
    if other_lane.stride != 1 {
        return fold_pairs_strided(storage, lane, others, other_lane, init, f);
    }
    let ours = lane.side_by_side();
    let theirs = other_lane.side_by_side();
    fold_pairs_strided(storage, ours, others, theirs, init, f)
}

/// Folds pairs of elements with `f` in row-major order of the indexes, starting from `init`: for each index the element
/// of `storage` at its place under `places` and the element of `others` at its place under `other_places`. Returns `f`,
/// as the calls left it, and the total. Goes lane by lane.
fn fold_pairs_lane_by_lane<S: Data, Z: Data, T, F: FnMut(T, &S::Elem, &Z::Elem) -> T>(
    storage: &S,
    places: Places<'_>,
    others: &Z,
    other_places: Places<'_>,
    init: T,
    f: F,
) -> (F, T)
    requires alike { other_places.lengths.now ≡ places.lengths.now }
    requires holds { Holds S.stored (ranked places) storage.now }
    requires others_hold { Holds Z.stored (ranked other_places) others.now }
    requires callable { MayFoldPairs F.FnMut S.stored Z.stored (ranked places) (ranked other_places) storage.now others.now (f, init) }
    ensures ran { FoldsPairs F.FnMut S.stored Z.stored (ranked places.entry) (ranked other_places.entry) storage.now others.now (f, init) result }
{
    let mut ours = places.lanes();
    let mut theirs = other_places.lanes();
    let mut f = f;
    let mut total = init;
    while let Some(lane) = ours.next() {
        match theirs.next() {
            Some(aside) => {
                (f, total) = fold_pairs_lane(storage, lane, others, aside, total, f);
            }
            None => unreachable!(),
        }
    }
    (f, total)
}

/// Folds pairs of elements with `f` in row-major order of the indexes, starting from `init`: for each index the element
/// of `storage` at its place under `places` and the element of `others` at its place under `other_places`. Returns `f`,
/// as the calls left it, and the total. If all places of each are one lane, goes along these two lanes; otherwise goes
/// lane by lane.
pub fn fold_pairs<S: Data, Z: Data, T, F: FnMut(T, &S::Elem, &Z::Elem) -> T>(
    storage: &S,
    places: Places<'_>,
    others: &Z,
    other_places: Places<'_>,
    init: T,
    f: F,
) -> (F, T)
    requires alike { other_places.lengths.now ≡ places.lengths.now }
    requires holds { Holds S.stored (ranked places) storage.now }
    requires others_hold { Holds Z.stored (ranked other_places) others.now }
    requires callable { MayFoldPairs F.FnMut S.stored Z.stored (ranked places) (ranked other_places) storage.now others.now (f, init) }
    ensures ran { FoldsPairs F.FnMut S.stored Z.stored (ranked places.entry) (ranked other_places.entry) storage.now others.now (f, init) result }
{
    if let Some((lane, aside)) = places.as_lanes(&other_places) {
        return fold_pairs_lane(storage, lane, others, aside, init, f);
    }
    fold_pairs_lane_by_lane(storage, places, others, other_places, init, f)
}
