//! Collecting in a vector what a closure returns for pairs of elements of two storages.

ghost use Rattle.std.specs.Prelude.{◌≡◌, ◌+◌, ◌≤◌, [], length, pos, slice_get, vec_len, vec_capacity};
ghost use Rattle.nd_layout.specs.NumberedPlacesAndWalks.{along, ranked};
ghost use Rattle.nd_elements.specs.ElementsAtNumberedPlaces.{Holds, in_turn};
ghost use Rattle.nd_elements.specs.elements.PairMaps.{AnswersPairs, MayShowPairs, PushesPairs};

use crate::storage::Data;
use nd_layout::{Lane, Places};

/// Calls `f` with each pair of elements that have the same position in `xs` and `ys`, and pushes what it returns to
/// `items`. Returns `f`, as the calls left it.
#[inline(always)]
pub fn answer_pairs_slice<A, B, C, F: FnMut(&A, &B) -> C>(
    items: &mut Vec<C>,
    xs: &[A],
    ys: &[B],
    mut f: F,
) -> F
    requires as_long { length ys.now ≡ length xs.now }
    requires room { vec_len items.old + length xs.now ≤ vec_capacity items.old }
    requires callable { MayShowPairs F.FnMut slice_get slice_get (in_turn xs.now) (in_turn ys.now) xs.now ys.now f }
    ensures pushed { PushesPairs F.FnMut slice_get slice_get (in_turn xs.now) (in_turn ys.now) xs.now ys.now f items.old items.new result }
    ensures len { vec_len items.new ≡ vec_len items.old + length xs.now }
    ensures room { vec_capacity items.new ≡ vec_capacity items.old }
{
    for nth in 0..xs.len() {
        items.push_reserved(f(&xs[nth], &ys[nth]));
    }
    f
}

/// Calls `f` with each pair of elements that have the same position along `lane` of `storage` and along `other_lane` of
/// `others`, and pushes what it returns to `items`. The lanes may have any strides. Returns `f`, as the calls left it.
#[inline(always)]
fn answer_pairs_by_places<S: Data, Z: Data, C, F: FnMut(&S::Elem, &Z::Elem) -> C>(
    items: &mut Vec<C>,
    storage: &S,
    lane: Lane,
    others: &Z,
    other_lane: Lane,
    mut f: F,
) -> F
    requires as_long { other_lane.count ≡ lane.count }
    requires holds { Holds S.stored (along lane) storage.now }
    requires others_hold { Holds Z.stored (along other_lane) others.now }
    requires room { vec_len items.old + lane.count ≤ vec_capacity items.old }
    requires callable { MayShowPairs F.FnMut S.stored Z.stored (along lane) (along other_lane) storage.now others.now f }
    ensures pushed { PushesPairs F.FnMut S.stored Z.stored (along lane) (along other_lane) storage.now others.now f items.old items.new result }
    ensures len { vec_len items.new ≡ vec_len items.old + lane.count }
    ensures room { vec_capacity items.new ≡ vec_capacity items.old }
{
    // The borrows are taken before the loop, so that the compiler need not read them again after each push.
    let region = storage.borrowed();
    let other_region = others.borrowed();
    for nth in 0..lane.count {
        let x = region.element(lane.place_of(nth));
        let y = other_region.element(other_lane.place_of(nth));
        items.push_reserved(f(x, y));
    }
    f
}

/// Calls `f` with each pair of elements that have the same position along `lane` of `storage` and along `other_lane` of
/// `others`, and pushes what it returns to `items`. The lanes may have any strides. If each storage is one slice, the
/// loop goes over the slices. Returns `f`, as the calls left it.
#[inline(always)]
fn answer_pairs_strided<S: Data, Z: Data, C, F: FnMut(&S::Elem, &Z::Elem) -> C>(
    items: &mut Vec<C>,
    storage: &S,
    lane: Lane,
    others: &Z,
    other_lane: Lane,
    f: F,
) -> F
    requires as_long { other_lane.count ≡ lane.count }
    requires holds { Holds S.stored (along lane) storage.now }
    requires others_hold { Holds Z.stored (along other_lane) others.now }
    requires room { vec_len items.old + lane.count ≤ vec_capacity items.old }
    requires callable { MayShowPairs F.FnMut S.stored Z.stored (along lane) (along other_lane) storage.now others.now f }
    ensures pushed { PushesPairs F.FnMut S.stored Z.stored (along lane) (along other_lane) storage.now others.now f items.old items.new result }
    ensures len { vec_len items.new ≡ vec_len items.old + lane.count }
    ensures room { vec_capacity items.new ≡ vec_capacity items.old }
{
    let slice = storage.borrowed().of_one_slice();
    let other_slice = others.borrowed().of_one_slice();
    if let (Some(xs), Some(ys)) = (slice, other_slice) {
        return answer_pairs_by_places(items, &xs, lane, &ys, other_lane, f);
    }
    answer_pairs_by_places(items, storage, lane, others, other_lane, f)
}

/// Calls `f` with each pair of elements that have the same position along `lane` of `storage` and along `other_lane` of
/// `others`, and pushes what it returns to `items`. Both lanes must have stride 1, and are borrowed as slices. Returns
/// `f`, as the calls left it.
#[inline(always)]
fn answer_pairs_contiguous<S: Data, Z: Data, C, F: FnMut(&S::Elem, &Z::Elem) -> C>(
    items: &mut Vec<C>,
    storage: &S,
    lane: Lane,
    others: &Z,
    other_lane: Lane,
    f: F,
) -> F
    requires steps { (lane.stride ≡ pos 1) × (other_lane.stride ≡ pos 1) }
    requires as_long { other_lane.count ≡ lane.count }
    requires holds { Holds S.stored (along lane) storage.now }
    requires others_hold { Holds Z.stored (along other_lane) others.now }
    requires room { vec_len items.old + lane.count ≤ vec_capacity items.old }
    requires callable { MayShowPairs F.FnMut S.stored Z.stored (along lane) (along other_lane) storage.now others.now f }
    ensures pushed { PushesPairs F.FnMut S.stored Z.stored (along lane) (along other_lane) storage.now others.now f items.old items.new result }
    ensures len { vec_len items.new ≡ vec_len items.old + lane.count }
    ensures room { vec_capacity items.new ≡ vec_capacity items.old }
{
    let region = storage.borrowed();
    let other_region = others.borrowed();
    let xs = region.run(lane.place, lane.count);
    let ys = other_region.run(other_lane.place, other_lane.count);
    answer_pairs_slice(items, xs, ys, f)
}

/// Calls `f` with each pair of elements that have the same position along `lane` of `storage` and along `other_lane` of
/// `others`, and pushes what it returns to `items`. Chooses the loop that suits the strides. Returns `f`, as the calls
/// left it.
#[inline(always)]
fn answer_pairs_lane<S: Data, Z: Data, C, F: FnMut(&S::Elem, &Z::Elem) -> C>(
    items: &mut Vec<C>,
    storage: &S,
    lane: Lane,
    others: &Z,
    other_lane: Lane,
    f: F,
) -> F
    requires as_long { other_lane.count ≡ lane.count }
    requires holds { Holds S.stored (along lane) storage.now }
    requires others_hold { Holds Z.stored (along other_lane) others.now }
    requires room { vec_len items.old + lane.count ≤ vec_capacity items.old }
    requires callable { MayShowPairs F.FnMut S.stored Z.stored (along lane) (along other_lane) storage.now others.now f }
    ensures pushed { PushesPairs F.FnMut S.stored Z.stored (along lane) (along other_lane) storage.now others.now f items.old items.new result }
    ensures len { vec_len items.new ≡ vec_len items.old + lane.count }
    ensures room { vec_capacity items.new ≡ vec_capacity items.old }
{
    if lane.stride != 1 {
        return answer_pairs_strided(items, storage, lane, others, other_lane, f);
    }
    if other_lane.stride != 1 {
        return answer_pairs_strided(items, storage, lane, others, other_lane, f);
    }
    answer_pairs_contiguous(items, storage, lane, others, other_lane, f)
}

/// Calls `f`, in row-major order of the indexes, with the element of `storage` at the index's place under `places` and
/// the element of `others` at the index's place under `other_places`. Returns `f`, as the calls left it, and `room`
/// filled with what `f` returned. Goes lane by lane.
fn answer_pairs_lane_by_lane<S: Data, Z: Data, C, F: FnMut(&S::Elem, &Z::Elem) -> C>(
    room: Vec<C>,
    storage: &S,
    places: Places<'_>,
    others: &Z,
    other_places: Places<'_>,
    f: F,
) -> (F, Vec<C>)
    requires alike { other_places.lengths.now ≡ places.lengths.now }
    requires holds { Holds S.stored (ranked places) storage.now }
    requires others_hold { Holds Z.stored (ranked other_places) others.now }
    requires empty { (room.items ≡ []) × (vec_len room ≡ 0) }
    requires room { (ranked places).count ≤ vec_capacity room }
    requires callable { MayShowPairs F.FnMut S.stored Z.stored (ranked places) (ranked other_places) storage.now others.now f }
    ensures answers { AnswersPairs F.FnMut S.stored Z.stored (ranked places.entry) (ranked other_places.entry) storage.now others.now f result }
    ensures count { vec_len result.1 ≡ (ranked places.entry).count }
{
    let mut items = room;
    let mut now = f;
    let mut ours = places.lanes();
    let mut theirs = other_places.lanes();
    while let Some(lane) = ours.next() {
        match theirs.next() {
            Some(aside) => {
                now = answer_pairs_lane(&mut items, storage, lane, others, aside, now);
            }
            None => unreachable!(),
        }
    }
    (now, items)
}

/// Calls `f`, in row-major order of the indexes, with the element of `storage` at the index's place under `places` and
/// the element of `others` at the index's place under `other_places`. Returns `f`, as the calls left it, and `room`
/// filled with what `f` returned. If all places of each are one lane, goes along these two lanes; otherwise goes lane
/// by lane.
pub fn answer_pairs<S: Data, Z: Data, C, F: FnMut(&S::Elem, &Z::Elem) -> C>(
    room: Vec<C>,
    storage: &S,
    places: Places<'_>,
    others: &Z,
    other_places: Places<'_>,
    f: F,
) -> (F, Vec<C>)
    requires alike { other_places.lengths.now ≡ places.lengths.now }
    requires holds { Holds S.stored (ranked places) storage.now }
    requires others_hold { Holds Z.stored (ranked other_places) others.now }
    requires empty { (room.items ≡ []) × (vec_len room ≡ 0) }
    requires room { (ranked places).count ≤ vec_capacity room }
    requires callable { MayShowPairs F.FnMut S.stored Z.stored (ranked places) (ranked other_places) storage.now others.now f }
    ensures answers { AnswersPairs F.FnMut S.stored Z.stored (ranked places.entry) (ranked other_places.entry) storage.now others.now f result }
    ensures count { vec_len result.1 ≡ (ranked places.entry).count }
{
    if let Some((lane, aside)) = places.as_lanes(&other_places) {
        let mut items = room;
        let now = answer_pairs_lane(&mut items, storage, lane, others, aside, f);
        return (now, items);
    }
    answer_pairs_lane_by_lane(room, storage, places, others, other_places, f)
}
