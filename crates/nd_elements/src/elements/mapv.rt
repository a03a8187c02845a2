//! Collecting in a vector what a closure returns for a clone of each element.

ghost use Rattle.std.specs.Prelude.{◌≡◌, ◌+◌, ◌≤◌, [], length, pos, slice_get, IfOk, OnErr, vec_len, vec_capacity};
ghost use Rattle.nd_layout.specs.NumberedPlacesAndWalks.{along, ranked};
ghost use Rattle.nd_elements.specs.LackOfMemory.{MayLackBelow};
ghost use Rattle.nd_elements.specs.EqualClones.{StoredClonesAreEqual};
ghost use Rattle.nd_elements.specs.ElementsAtNumberedPlaces.{ClonesAreEqualAt, Holds, MayLackAt};
ghost use Rattle.nd_elements.specs.elements.ElementMaps.{AnswersValues, MayGiveEach, MayGiveItems, PushesItems, PushesValues};

use crate::storage::Data;
use nd_layout::{Lane, Places};
use nd_shape_and_slice::NoMemory;

/// Calls `f` with a clone of each element of `xs`, and pushes what it returns to `items`. Returns `f`, as the calls
/// left it.
#[inline(always)]
pub fn value_slice<A: Clone, B, F: FnMut(A) -> B>(
    items: &mut Vec<B>,
    xs: &[A],
    mut f: F,
) -> Result<F, NoMemory>
    requires clones { StoredClonesAreEqual A.is_clone xs.now }
    requires room { vec_len items.old + length xs.now ≤ vec_capacity items.old }
    requires callable { MayGiveItems F.FnMut xs.now f }
    ensures pushed { IfOk result (PushesItems F.FnMut xs.now f items.old items.new) }
    ensures len { IfOk result (λ _. vec_len items.new ≡ vec_len items.old + length xs.now) }
    ensures room { vec_capacity items.new ≡ vec_capacity items.old }
    ensures refused { OnErr result (MayLackBelow A.is_infallible (slice_get xs.now) (length xs.now)) }
{
    for nth in 0..xs.len() {
        let copy = xs[nth].clone()?;
        items.push_reserved(f(copy));
    }
    Ok(f)
}

/// Calls `f` with a clone of each element along `lane`, and pushes what it returns to `items`. Returns `f`, as the
/// calls left it.
#[inline(always)]
fn value_strided<S: Data, B, F: FnMut(S::Elem) -> B>(
    items: &mut Vec<B>,
    storage: &S,
    lane: Lane,
    mut f: F,
) -> Result<F, NoMemory>
where
    S::Elem: Clone,
    requires clones { ClonesAreEqualAt S.Elem.is_clone S.stored (along lane) storage.now }
    requires holds { Holds S.stored (along lane) storage.now }
    requires room { vec_len items.old + lane.count ≤ vec_capacity items.old }
    requires callable { MayGiveEach F.FnMut S.stored (along lane) storage.now f }
    ensures pushed { IfOk result (PushesValues F.FnMut S.stored (along lane) storage.now f items.old items.new) }
    ensures len { IfOk result (λ _. vec_len items.new ≡ vec_len items.old + lane.count) }
    ensures room { vec_capacity items.new ≡ vec_capacity items.old }
    ensures refused { OnErr result (MayLackAt S.Elem.is_infallible S.stored (along lane) storage.now) }
{
    // The borrow is taken before the loop, so that the compiler need not read it again after each push.
    let region = storage.borrowed();
    for nth in 0..lane.count {
        let copy = region.element(lane.place_of(nth)).clone()?;
        items.push_reserved(f(copy));
    }
    Ok(f)
}

/// Calls `f` with a clone of each element along a `lane` of stride 1, and pushes what it returns to `items`. Returns
/// `f`, as the calls left it.
#[inline(always)]
fn value_contiguous<S: Data, B, F: FnMut(S::Elem) -> B>(
    items: &mut Vec<B>,
    storage: &S,
    lane: Lane,
    f: F,
) -> Result<F, NoMemory>
where
    S::Elem: Clone,
    requires contiguous { lane.stride ≡ pos 1 }
    requires clones { ClonesAreEqualAt S.Elem.is_clone S.stored (along lane) storage.now }
    requires holds { Holds S.stored (along lane) storage.now }
    requires room { vec_len items.old + lane.count ≤ vec_capacity items.old }
    requires callable { MayGiveEach F.FnMut S.stored (along lane) storage.now f }
    ensures pushed { IfOk result (PushesValues F.FnMut S.stored (along lane) storage.now f items.old items.new) }
    ensures len { IfOk result (λ _. vec_len items.new ≡ vec_len items.old + lane.count) }
    ensures room { vec_capacity items.new ≡ vec_capacity items.old }
    ensures refused { OnErr result (MayLackAt S.Elem.is_infallible S.stored (along lane) storage.now) }
{
    let run = storage.borrowed().run(lane.place, lane.count);
    value_slice(items, run, f)
}

/// Calls `f` with a clone of each element along a `lane` of any stride, and pushes what it returns to `items`. Returns
/// `f`, as the calls left it.
#[inline(always)]
fn value_lane<S: Data, B, F: FnMut(S::Elem) -> B>(
    items: &mut Vec<B>,
    storage: &S,
    lane: Lane,
    f: F,
) -> Result<F, NoMemory>
where
    S::Elem: Clone,
    requires clones { ClonesAreEqualAt S.Elem.is_clone S.stored (along lane) storage.now }
    requires holds { Holds S.stored (along lane) storage.now }
    requires room { vec_len items.old + lane.count ≤ vec_capacity items.old }
    requires callable { MayGiveEach F.FnMut S.stored (along lane) storage.now f }
    ensures pushed { IfOk result (PushesValues F.FnMut S.stored (along lane) storage.now f items.old items.new) }
    ensures len { IfOk result (λ _. vec_len items.new ≡ vec_len items.old + lane.count) }
    ensures room { vec_capacity items.new ≡ vec_capacity items.old }
    ensures refused { OnErr result (MayLackAt S.Elem.is_infallible S.stored (along lane) storage.now) }
{
    if lane.stride == 1 {
        return value_contiguous(items, storage, lane, f);
    }
    value_strided(items, storage, lane, f)
}

/// Calls `f` with a clone of each element at `places`, in row-major order of the indexes. Returns `f`, as the calls
/// left it, and `room` filled with what `f` returned.
pub fn value_places<S: Data, B: Drop, F: FnMut(S::Elem) -> B>(
    room: Vec<B>,
    storage: &S,
    places: Places<'_>,
    f: F,
) -> Result<(F, Vec<B>), NoMemory>
where
    S::Elem: Clone,
    requires clones { ClonesAreEqualAt S.Elem.is_clone S.stored (ranked places) storage.now }
    requires holds { Holds S.stored (ranked places) storage.now }
    requires empty { (room.items ≡ []) × (vec_len room ≡ 0) }
    requires room { (ranked places).count ≤ vec_capacity room }
    requires callable { MayGiveEach F.FnMut S.stored (ranked places) storage.now f }
    ensures answers { IfOk result (AnswersValues F.FnMut S.stored (ranked places.entry) storage.now f) }
    ensures count { IfOk result (λ r. vec_len r.1 ≡ (ranked places.entry).count) }
    ensures refused { OnErr result (MayLackAt S.Elem.is_infallible S.stored (ranked places.entry) storage.now) }
{
    let mut items = room;
    let mut now = f;
    let mut lanes = places.lanes();
    while let Some(lane) = lanes.next() {
        match value_lane(&mut items, storage, lane, now) {
            Ok(later) => now = later,
            Err(refused) => return Err(refused),
        }
    }
    Ok((now, items))
}
