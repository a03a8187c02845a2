//! Collecting in a vector what a closure returns when it is called with a mutable reference to each element.

ghost use Rattle.std.specs.Prelude.{◌≡◌, ◌+◌, ◌≤◌, ℕ, [], IsSome, vec_len, vec_capacity};
ghost use Rattle.nd_layout.specs.NumberedPlacesAndWalks.{along, ranked};
ghost use Rattle.nd_elements.specs.ElementsAtNumberedPlaces.{Holds, PlacesDiffer};
ghost use Rattle.nd_elements.specs.elements.ElementMapsMut.{HandsAt, HandsAfter, HandsEach, MayHandAt, MayHandEach};

use crate::storage::DataMut;
use nd_layout::{Lane, Places};

/// Calls `f` with a mutable reference to the element at `place`. Returns `f`, as the call left it, and what `f`
/// returned.
#[inline(always)]
fn hand_element<S: DataMut, B, F: FnMut(&mut S::Elem) -> B>(
    storage: &mut S,
    place: usize,
    mut f: F,
) -> (F, B)
    requires holds { IsSome (S.stored storage.old place) }
    requires callable { MayHandAt F.FnMut S.stored place storage.old f }
    ensures called { HandsAt F.FnMut S.stored place storage.old storage.new f result }
    ensures left { (p : ℕ) → ¬ (p ≡ place) → S.stored storage.new p ≡ S.stored storage.old p }
    ensures frame { S.frame storage.new ≡ S.frame storage.old }
{
    let answer = f(storage.element_mut(place));
    (f, answer)
}

/// Calls `f` with a mutable reference to each element along `lane`, from the first on, and pushes what it returns to
/// `items`. Returns `f`, as the calls left it.
#[inline(always)]
fn hand_strided<S: DataMut, B, F: FnMut(&mut S::Elem) -> B>(
    items: &mut Vec<B>,
    storage: &mut S,
    lane: Lane,
    f: F,
) -> F
    requires apart { PlacesDiffer (along lane) }
    requires holds { Holds S.stored (along lane) storage.old }
    requires room { vec_len items.old + lane.count ≤ vec_capacity items.old }
    requires callable { MayHandEach F.FnMut S.stored (along lane) storage.old f items.old.items }
    ensures handed { HandsAfter F.FnMut S.stored (along lane) storage.old storage.new f items.old result items.new }
    ensures len { vec_len items.new ≡ vec_len items.old + lane.count }
    ensures room { vec_capacity items.new ≡ vec_capacity items.old }
    ensures frame { S.frame storage.new ≡ S.frame storage.old }
{
    let mut now = f;
    for nth in 0..lane.count {
        let (after, answer) = hand_element(storage, lane.place_of(nth), now);
        items.push_reserved(answer);
        now = after;
    }
    now
}

/// Calls `f` with a mutable reference to each element at `places`, in row-major order of the indexes. Returns `f`, as
/// the calls left it, and `room` filled with what `f` returned.
pub fn hand_places<S: DataMut, B, F: FnMut(&mut S::Elem) -> B>(
    room: Vec<B>,
    storage: &mut S,
    places: Places<'_>,
    f: F,
) -> (F, Vec<B>)
    requires apart { PlacesDiffer (ranked places) }
    requires holds { Holds S.stored (ranked places) storage.old }
    requires empty { (room.items ≡ []) × (vec_len room ≡ 0) }
    requires room { (ranked places).count ≤ vec_capacity room }
    requires callable { MayHandEach F.FnMut S.stored (ranked places) storage.old f [] }
    ensures handed { HandsEach F.FnMut S.stored (ranked places.entry) storage.old storage.new f result }
    ensures count { vec_len result.1 ≡ (ranked places.entry).count }
    ensures frame { S.frame storage.new ≡ S.frame storage.old }
{
    let mut items = room;
    let mut now = f;
    let mut lanes = places.lanes();
    while let Some(lane) = lanes.next() {
        now = hand_strided(&mut items, storage, lane, now);
    }
    (now, items)
}
