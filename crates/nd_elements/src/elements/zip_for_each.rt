//! Calling a closure with pairs of elements of two storages.

ghost use Rattle.std.specs.Prelude.{◌≡◌, length, slice_get};
ghost use Rattle.nd_layout.specs.NumberedPlacesAndWalks.{along, ranked};
ghost use Rattle.nd_elements.specs.ElementsAtNumberedPlaces.{Holds, in_turn};
ghost use Rattle.nd_elements.specs.elements.PairMaps.{MayShowPairs, ShowsPairs};

use crate::storage::Data;
use nd_layout::{Lane, Places};

/// Calls `f` with each pair of elements that have the same position in `xs` and `ys`. Returns `f`, as the calls left it.
pub fn show_pairs_slice<A, B, F: FnMut(&A, &B)>(xs: &[A], ys: &[B], mut f: F) -> F
    requires as_long { length ys.now ≡ length xs.now }
    requires callable { MayShowPairs F.FnMut slice_get slice_get (in_turn xs.now) (in_turn ys.now) xs.now ys.now f }
    ensures ran { ShowsPairs F.FnMut slice_get slice_get (in_turn xs.now) (in_turn ys.now) xs.now ys.now f result }
{
    for nth in 0..xs.len() {
        f(&xs[nth], &ys[nth]);
    }
    f
}

/// Calls `f` with each pair of elements that have the same position along `lane` of `storage` and along `other_lane` of
/// `others`. Returns `f`, as the calls left it.
#[inline(always)]
fn show_pairs_strided<S: Data, Z: Data, F: FnMut(&S::Elem, &Z::Elem)>(
    storage: &S,
    lane: Lane,
    others: &Z,
    other_lane: Lane,
    mut f: F,
) -> F
    requires as_long { other_lane.count ≡ lane.count }
    requires holds { Holds S.stored (along lane) storage.now }
    requires others_hold { Holds Z.stored (along other_lane) others.now }
    requires callable { MayShowPairs F.FnMut S.stored Z.stored (along lane) (along other_lane) storage.now others.now f }
    ensures ran { ShowsPairs F.FnMut S.stored Z.stored (along lane) (along other_lane) storage.now others.now f result }
{
    for nth in 0..lane.count {
        let x = storage.element(lane.place_of(nth));
        let y = others.element(other_lane.place_of(nth));
        f(x, y);
    }
    f
}

/// Calls `f` with each pair of elements that have the same position along `lane` of `storage` and along `other_lane` of
/// `others`. Returns `f`, as the calls left it. For two lanes of stride 1 the loop has the stride 1 as a constant, which
/// helps the compiler.
#[inline(always)]
fn show_pairs_lane<S: Data, Z: Data, F: FnMut(&S::Elem, &Z::Elem)>(
    storage: &S,
    lane: Lane,
    others: &Z,
    other_lane: Lane,
    f: F,
) -> F
    requires as_long { other_lane.count ≡ lane.count }
    requires holds { Holds S.stored (along lane) storage.now }
    requires others_hold { Holds Z.stored (along other_lane) others.now }
    requires callable { MayShowPairs F.FnMut S.stored Z.stored (along lane) (along other_lane) storage.now others.now f }
    ensures ran { ShowsPairs F.FnMut S.stored Z.stored (along lane) (along other_lane) storage.now others.now f result }
{
    if lane.stride != 1 {
        return show_pairs_strided(storage, lane, others, other_lane, f);
    }
    if other_lane.stride != 1 {
        return show_pairs_strided(storage, lane, others, other_lane, f);
    }
    let ours = lane.side_by_side();
    let theirs = other_lane.side_by_side();
    show_pairs_strided(storage, ours, others, theirs, f)
}

/// Calls `f`, in row-major order of the indexes, with the element of `storage` at the index's place under `places` and
/// the element of `others` at the index's place under `other_places`. Returns `f`, as the calls left it. Goes lane by
/// lane.
fn show_pairs_lane_by_lane<S: Data, Z: Data, F: FnMut(&S::Elem, &Z::Elem)>(
    storage: &S,
    places: Places<'_>,
    others: &Z,
    other_places: Places<'_>,
    f: F,
) -> F
    requires alike { other_places.lengths.now ≡ places.lengths.now }
    requires holds { Holds S.stored (ranked places) storage.now }
    requires others_hold { Holds Z.stored (ranked other_places) others.now }
    requires callable { MayShowPairs F.FnMut S.stored Z.stored (ranked places) (ranked other_places) storage.now others.now f }
    ensures ran { ShowsPairs F.FnMut S.stored Z.stored (ranked places.entry) (ranked other_places.entry) storage.now others.now f result }
{
    let mut ours = places.lanes();
    let mut theirs = other_places.lanes();
    let mut now = f;
    while let Some(lane) = ours.next() {
        match theirs.next() {
            Some(aside) => {
                now = show_pairs_lane(storage, lane, others, aside, now);
            }
            None => unreachable!(),
        }
    }
    now
}

/// Calls `f`, in row-major order of the indexes, with the element of `storage` at the index's place under `places` and
/// the element of `others` at the index's place under `other_places`. Returns `f`, as the calls left it. If all places
/// of each are one lane, goes along these two lanes; otherwise goes lane by lane.
pub fn show_pairs<S: Data, Z: Data, F: FnMut(&S::Elem, &Z::Elem)>(
    storage: &S,
    places: Places<'_>,
    others: &Z,
    other_places: Places<'_>,
    f: F,
) -> F
    requires alike { other_places.lengths.now ≡ places.lengths.now }
    requires holds { Holds S.stored (ranked places) storage.now }
    requires others_hold { Holds Z.stored (ranked other_places) others.now }
    requires callable { MayShowPairs F.FnMut S.stored Z.stored (ranked places) (ranked other_places) storage.now others.now f }
    ensures ran { ShowsPairs F.FnMut S.stored Z.stored (ranked places.entry) (ranked other_places.entry) storage.now others.now f result }
{
    if let Some((lane, aside)) = places.as_lanes(&other_places) {
        return show_pairs_lane(storage, lane, others, aside, f);
    }
    show_pairs_lane_by_lane(storage, places, others, other_places, f)
}
