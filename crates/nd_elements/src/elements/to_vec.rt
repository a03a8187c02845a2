//! Collecting clones of the elements in a vector.

ghost use Rattle.std.specs.Prelude.{◌≡◌, ◌+◌, ◌<◌, ◌≤◌, [], IfOk, OnOk, OnErr, length, pos, slice_get, vec_len, vec_capacity};
ghost use Rattle.nd_layout.specs.NumberedPlacesAndWalks.{along, ranked};
ghost use Rattle.nd_elements.specs.CollectedElements.{IsFront};
ghost use Rattle.nd_elements.specs.LackOfMemory.{MayLackBelow};
ghost use Rattle.nd_elements.specs.EqualClones.{StoredClonesAreEqual};
ghost use Rattle.nd_elements.specs.ElementsAtNumberedPlaces.{in_turn, Holds, ListsAfter, ClonesAreEqualAt, MayLackAt};

use crate::storage::Data;
use nd_layout::{Lane, Places};
use nd_shape_and_slice::NoMemory;
use std::alloc::Global;
use std::mem;

/// Returns a new vector with a clone of each element of `xs`.
#[tactic(auto, using(crate::proofs::elements_lemmas::ListsOfEqualClones::clones_same))]
pub fn clones_of_slice<A: Clone>(alloc: Global, xs: &[A]) -> Result<Vec<A>, NoMemory>
    requires { StoredClonesAreEqual A.is_clone xs.now }
    ensures items { IfOk result (λ v. v.items ≡ xs.now) }
    ensures count { IfOk result (λ v. vec_len v ≡ length xs.now) }
    ensures refused { OnErr result (0 < length xs.now) }
{
    match Vec::from_clones(alloc, xs) {
        Ok(items) => Ok(items),
        Err(_) if xs.is_empty() => Ok(Vec::new(alloc)),
        Err(_) => Err(NoMemory),
    }
}

/// Pushes a clone of each element of `run` to `items`, and returns `items`. The vector is passed by value, because a
/// local vector isn't read again for each element. If a clone fails for memory, the clones made before it stay in
/// `items`.
#[inline(always)]
fn clone_slice<A: Clone>(items: Vec<A>, run: &[A]) -> (Vec<A>, Result<(), NoMemory>)
    requires clones { StoredClonesAreEqual A.is_clone run.now }
    requires room { vec_len items + length run.now ≤ vec_capacity items }
    ensures items { OnOk result.1 (ListsAfter slice_get (in_turn run.now) run.now items result.0) }
    ensures len { OnOk result.1 (vec_len result.0 ≡ vec_len items + length run.now) }
    ensures room { vec_capacity result.0 ≡ vec_capacity items }
    ensures kept { OnErr result.1 (IsFront items.items result.0.items) }
    ensures refused { OnErr result.1 (MayLackBelow A.is_infallible (slice_get run.now) (length run.now)) }
{
    let mut items = items;
    for nth in 0..run.len() {
        match run[nth].clone() {
            Ok(copy) => items.push_reserved(copy),
            Err(_) => return (items, Err(NoMemory)),
        }
    }
    (items, Ok(()))
}

/// Pushes a clone of each element along `lane` to `items`, and returns `items`. If a clone fails for memory, the clones
/// made before it stay in `items`.
#[inline(always)]
fn clone_strided<S: Data>(
    items: Vec<S::Elem>,
    storage: &S,
    lane: Lane,
) -> (Vec<S::Elem>, Result<(), NoMemory>)
where
    S::Elem: Clone,
    requires clones { ClonesAreEqualAt S.Elem.is_clone S.stored (along lane) storage.now }
    requires holds { Holds S.stored (along lane) storage.now }
    requires room { vec_len items + lane.count ≤ vec_capacity items }
    ensures items { OnOk result.1 (ListsAfter S.stored (along lane) storage.now items result.0) }
    ensures len { OnOk result.1 (vec_len result.0 ≡ vec_len items + lane.count) }
    ensures room { vec_capacity result.0 ≡ vec_capacity items }
    ensures kept { OnErr result.1 (IsFront items.items result.0.items) }
    ensures refused { OnErr result.1 (MayLackAt S.Elem.is_infallible S.stored (along lane) storage.now) }
{
    // The borrow is taken before the loop, so that the compiler need not read it again after each push.
    let region = storage.borrowed();
    let mut items = items;
    for nth in 0..lane.count {
        match region.element(lane.place_of(nth)).clone() {
            Ok(copy) => items.push_reserved(copy),
            Err(_) => return (items, Err(NoMemory)),
        }
    }
    (items, Ok(()))
}

/// Pushes a clone of each element along a `lane` of stride 1 to `items`, and returns `items`.
#[inline(always)]
fn clone_contiguous<S: Data>(
    items: Vec<S::Elem>,
    storage: &S,
    lane: Lane,
) -> (Vec<S::Elem>, Result<(), NoMemory>)
where
    S::Elem: Clone,
    requires contiguous { lane.stride ≡ pos 1 }
    requires clones { ClonesAreEqualAt S.Elem.is_clone S.stored (along lane) storage.now }
    requires holds { Holds S.stored (along lane) storage.now }
    requires room { vec_len items + lane.count ≤ vec_capacity items }
    ensures items { OnOk result.1 (ListsAfter S.stored (along lane) storage.now items result.0) }
    ensures len { OnOk result.1 (vec_len result.0 ≡ vec_len items + lane.count) }
    ensures room { vec_capacity result.0 ≡ vec_capacity items }
    ensures kept { OnErr result.1 (IsFront items.items result.0.items) }
    ensures refused { OnErr result.1 (MayLackAt S.Elem.is_infallible S.stored (along lane) storage.now) }
{
    let run = storage.borrowed().run(lane.place, lane.count);
    clone_slice(items, run)
}

/// Pushes a clone of each element along a `lane` of any stride to `items`, and returns `items`.
#[inline(always)]
pub(crate) fn clones_of_lane<S: Data>(
    items: Vec<S::Elem>,
    storage: &S,
    lane: Lane,
) -> (Vec<S::Elem>, Result<(), NoMemory>)
where
    S::Elem: Clone,
    requires clones { ClonesAreEqualAt S.Elem.is_clone S.stored (along lane) storage.now }
    requires holds { Holds S.stored (along lane) storage.now }
    requires room { vec_len items + lane.count ≤ vec_capacity items }
    ensures items { OnOk result.1 (ListsAfter S.stored (along lane) storage.now items result.0) }
    ensures len { OnOk result.1 (vec_len result.0 ≡ vec_len items + lane.count) }
    ensures room { vec_capacity result.0 ≡ vec_capacity items }
    ensures kept { OnErr result.1 (IsFront items.items result.0.items) }
    ensures refused { OnErr result.1 (MayLackAt S.Elem.is_infallible S.stored (along lane) storage.now) }
{
    if lane.stride == 1 {
        return clone_contiguous(items, storage, lane);
    }
    clone_strided(items, storage, lane)
}

/// Pushes a clone of each element at `places` to `items`, lane by lane in row-major order, and returns `items`. The
/// vector is passed by value from lane to lane, because lanes may be short.
fn clones_by_rank<S: Data>(
    items: Vec<S::Elem>,
    storage: &S,
    places: Places<'_>,
) -> (Vec<S::Elem>, Result<(), NoMemory>)
where
    S::Elem: Clone + Drop,
    requires clones { ClonesAreEqualAt S.Elem.is_clone S.stored (ranked places) storage.now }
    requires holds { Holds S.stored (ranked places) storage.now }
    requires room { vec_len items + (ranked places).count ≤ vec_capacity items }
    ensures items { OnOk result.1 (ListsAfter S.stored (ranked places.entry) storage.now items result.0) }
    ensures len { OnOk result.1 (vec_len result.0 ≡ vec_len items + (ranked places.entry).count) }
    ensures room { vec_capacity result.0 ≡ vec_capacity items }
    ensures kept { OnErr result.1 (IsFront items.items result.0.items) }
    ensures refused { OnErr result.1 (MayLackAt S.Elem.is_infallible S.stored (ranked places.entry) storage.now) }
{
    let mut items = items;
    let mut lanes = places.lanes();
    while let Some(lane) = lanes.next() {
        let (longer, end) = clones_of_lane(items, storage, lane);
        items = longer;
        match end {
            Ok(()) => {}
            Err(refused) => return (items, Err(refused)),
        }
    }
    (items, Ok(()))
}

/// Pushes a clone of each element at `places` to `items`, in row-major order of the indexes.
pub fn list<S: Data>(
    items: &mut Vec<S::Elem>,
    storage: &S,
    places: Places<'_>,
) -> Result<(), NoMemory>
where
    S::Elem: Clone + Drop,
    requires clones { ClonesAreEqualAt S.Elem.is_clone S.stored (ranked places) storage.now }
    requires holds { Holds S.stored (ranked places) storage.now }
    requires room { vec_len items.old + (ranked places).count ≤ vec_capacity items.old }
    ensures items { OnOk result (ListsAfter S.stored (ranked places.entry) storage.now items.old items.new) }
    ensures count { OnOk result (vec_len items.new ≡ vec_len items.old + (ranked places.entry).count) }
    ensures room { vec_capacity items.old ≤ vec_capacity items.new }
    ensures kept { OnErr result (IsFront items.old.items items.new.items) }
    ensures refused { OnErr result (MayLackAt S.Elem.is_infallible S.stored (ranked places.entry) storage.now) }
{
    let alloc = *items.allocator();
    let held = mem::replace(items, Vec::new(alloc));
    let (longer, end) = clones_by_rank(held, storage, places);
    let empty = mem::replace(items, longer);
    empty.destroy_empty();
    end
}

/// Returns a new empty vector with capacity `count`.
pub fn room_of<A>(alloc: Global, count: usize) -> Result<Vec<A>, NoMemory>
    ensures none { IfOk result (λ v. (v.items ≡ []) × (vec_len v ≡ 0)) }
    ensures room { IfOk result (λ v. vec_capacity v ≡ count) }
    ensures refused { OnErr result (0 < count) }
{
    Ok(Vec::with_capacity(alloc, count)?)
}
