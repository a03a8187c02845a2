//! Folding all lanes of an axis together, coordinate by coordinate, if the elements at each coordinate are contiguous.

ghost use Rattle.std.specs.Prelude.{◌≡◌, ◌<◌, ◌≤◌, ℕ, [], Some, IfOk, OnErr, length, slice_get, vec_len, vec_capacity};
ghost use Rattle.nd_elements.specs.LackOfMemory.{MayLackForClones};
ghost use Rattle.nd_elements.specs.EqualClones.{ClonesAreEqual};
ghost use Rattle.nd_elements.specs.along.AxisLanes.{parallel_lanes, LanesHold};
ghost use Rattle.nd_elements.specs.along.FoldOfLanes.{FoldsSlice, TakesInParallel, FoldableFrom, FoldedFrom};

use crate::storage::Data;
use nd_layout::Lane;
use nd_shape_and_slice::NoMemory;

/// Returns `room`, an empty vector with enough capacity, filled with `count` clones of `value`.
pub(crate) fn clones_in<B: Clone + Drop>(
    room: Vec<B>,
    value: &B,
    count: usize,
) -> Result<Vec<B>, NoMemory>
    requires empty { (room.items ≡ []) × (vec_len room ≡ 0) }
    requires room { count ≤ vec_capacity room }
    requires clones { ClonesAreEqual B.is_clone value.now }
    ensures count { IfOk result (λ v. vec_len v ≡ count) }
    ensures refused { OnErr result (MayLackForClones B.is_infallible value.now count) }
    ensures items { IfOk result (λ v. (k : ℕ) → k < count → slice_get v.items k ≡ Some value.now) }
{
    let mut items = room;
    for _ in 0..count {
        let copy = value.clone()?;
        items.push_reserved(copy);
    }
    Ok(items)
}

/// Calls `f` with each total and the item that has the same position, and writes what it returns over the total.
/// Returns `f`, as the calls left it.
#[inline(always)]
fn fold_parallel_slice<A, B: Drop, F: FnMut(&B, &A) -> B>(
    totals: &mut [B],
    items: &[A],
    mut f: F,
) -> F
    requires as_long { length items.now ≡ length totals.old }
    requires callable { TakesInParallel F.FnMut (slice_get totals.old) (slice_get items.now) (length totals.old) f }
    ensures ran { FoldsSlice F.FnMut totals.old items.now totals.new f result }
    ensures long { length totals.new ≡ length totals.old }
{
    for nth in 0..items.len() {
        let total = f(&totals[nth], &items[nth]);
        totals[nth] = total;
    }
    f
}

/// Folds as many lanes as there are `starts`, each from its start on, and returns the totals. The first of the lanes is
/// `lane`, and each other begins one place after the lane before it. Takes the elements of all lanes at one coordinate
/// before those at the next.
pub(crate) fn fold_parallel<S: Data, B: Drop, F: FnMut(&B, &S::Elem) -> B>(
    starts: Vec<B>,
    storage: &S,
    lane: Lane,
    f: F,
) -> Vec<B>
    requires holds { LanesHold S.stored (parallel_lanes (vec_len starts) lane) storage.now }
    requires callable { FoldableFrom F.FnMut S.stored lane storage.now starts f }
    ensures count { vec_len result ≡ vec_len starts }
    ensures folds { FoldedFrom F.FnMut S.stored lane storage.now starts f result }
{
    let lanes = starts.len();
    let mut totals = starts;
    let mut now = f;
    for nth in 0..lane.count {
        let items = storage.borrowed().run(lane.place_of(nth), lanes);
        now = fold_parallel_slice(totals.as_mut_slice(), items, now);
    }
    totals
}
