//! Collecting in a vector what a closure returns for each element.

ghost use Rattle.std.specs.Prelude.{◌≡◌, ◌+◌, ◌≤◌, [], length, pos, slice_get, vec_len, vec_capacity};
ghost use Rattle.nd_layout.specs.NumberedPlacesAndWalks.{along, ranked};
ghost use Rattle.nd_elements.specs.ElementsAtNumberedPlaces.{Holds, in_turn};
ghost use Rattle.nd_elements.specs.elements.ElementMaps.{AnswersForEach, MayShowEach, Pushes};

use crate::storage::Data;
use nd_layout::{Lane, Places};

/// Calls `f` with each element of `xs`, and pushes what it returns to `items`. Returns `f`, as the calls left it.
#[inline(always)]
pub fn answer_slice<A, B, F: FnMut(&A) -> B>(items: &mut Vec<B>, xs: &[A], mut f: F) -> F
    requires room { vec_len items.old + length xs.now ≤ vec_capacity items.old }
    requires callable { MayShowEach F.FnMut slice_get (in_turn xs.now) xs.now f }
    ensures pushed { Pushes F.FnMut slice_get (in_turn xs.now) xs.now f items.old items.new result }
    ensures len { vec_len items.new ≡ vec_len items.old + length xs.now }
    ensures room { vec_capacity items.new ≡ vec_capacity items.old }
{
    for nth in 0..xs.len() {
        items.push_reserved(f(&xs[nth]));
    }
    f
}

/// Calls `f` with each element along `lane`, and pushes what it returns to `items`. Returns `f`, as the calls left it.
#[inline(always)]
fn answer_strided<S: Data, B, F: FnMut(&S::Elem) -> B>(
    items: &mut Vec<B>,
    storage: &S,
    lane: Lane,
    mut f: F,
) -> F
    requires holds { Holds S.stored (along lane) storage.now }
    requires room { vec_len items.old + lane.count ≤ vec_capacity items.old }
    requires callable { MayShowEach F.FnMut S.stored (along lane) storage.now f }
    ensures pushed { Pushes F.FnMut S.stored (along lane) storage.now f items.old items.new result }
    ensures len { vec_len items.new ≡ vec_len items.old + lane.count }
    ensures room { vec_capacity items.new ≡ vec_capacity items.old }
{
    // The borrow is taken before the loop, so that the compiler need not read it again after each push.
    let region = storage.borrowed();
    for nth in 0..lane.count {
        items.push_reserved(f(region.element(lane.place_of(nth))));
    }
    f
}

/// Calls `f` with each element along a `lane` of stride 1, and pushes what it returns to `items`. Returns `f`, as the
/// calls left it.
#[inline(always)]
fn answer_contiguous<S: Data, B, F: FnMut(&S::Elem) -> B>(
    items: &mut Vec<B>,
    storage: &S,
    lane: Lane,
    f: F,
) -> F
    requires contiguous { lane.stride ≡ pos 1 }
    requires holds { Holds S.stored (along lane) storage.now }
    requires room { vec_len items.old + lane.count ≤ vec_capacity items.old }
    requires callable { MayShowEach F.FnMut S.stored (along lane) storage.now f }
    ensures pushed { Pushes F.FnMut S.stored (along lane) storage.now f items.old items.new result }
    ensures len { vec_len items.new ≡ vec_len items.old + lane.count }
    ensures room { vec_capacity items.new ≡ vec_capacity items.old }
{
    let run = storage.borrowed().run(lane.place, lane.count);
    answer_slice(items, run, f)
}

/// Calls `f` with each element along a `lane` of any stride, and pushes what it returns to `items`. Returns `f`, as the
/// calls left it.
#[inline(always)]
pub fn answer_lane<S: Data, B, F: FnMut(&S::Elem) -> B>(
    items: &mut Vec<B>,
    storage: &S,
    lane: Lane,
    f: F,
) -> F
    requires holds { Holds S.stored (along lane) storage.now }
    requires room { vec_len items.old + lane.count ≤ vec_capacity items.old }
    requires callable { MayShowEach F.FnMut S.stored (along lane) storage.now f }
    ensures pushed { Pushes F.FnMut S.stored (along lane) storage.now f items.old items.new result }
    ensures len { vec_len items.new ≡ vec_len items.old + lane.count }
    ensures room { vec_capacity items.new ≡ vec_capacity items.old }
{
    if lane.stride == 1 {
        return answer_contiguous(items, storage, lane, f);
    }
    answer_strided(items, storage, lane, f)
}

/// Calls `f` with each element at `places`, in row-major order of the indexes. Returns `f`, as the calls left it, and
/// `room` filled with what `f` returned.
pub fn answer_places<S: Data, B, F: FnMut(&S::Elem) -> B>(
    room: Vec<B>,
    storage: &S,
    places: Places<'_>,
    f: F,
) -> (F, Vec<B>)
    requires holds { Holds S.stored (ranked places) storage.now }
    requires empty { (room.items ≡ []) × (vec_len room ≡ 0) }
    requires room { (ranked places).count ≤ vec_capacity room }
    requires callable { MayShowEach F.FnMut S.stored (ranked places) storage.now f }
    ensures answers { AnswersForEach F.FnMut S.stored (ranked places.entry) storage.now f result }
    ensures count { vec_len result.1 ≡ (ranked places.entry).count }
{
    let mut items = room;
    let mut now = f;
    let mut lanes = places.lanes();
    while let Some(lane) = lanes.next() {
        now = answer_lane(&mut items, storage, lane, now);
    }
    (now, items)
}
