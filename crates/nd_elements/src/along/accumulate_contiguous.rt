//! Going along a lane of stride 1 as a slice, with a closure that is called with each element and the next one.

ghost use Rattle.std.specs.Prelude.{◌≡◌, ◌+◌, ◌<◌, length, pos, slice_get};
ghost use Rattle.nd_layout.specs.NumberedPlacesAndWalks.{along};
ghost use Rattle.nd_elements.specs.ElementsAtNumberedPlaces.{in_turn, Holds, PlacesDiffer};
ghost use Rattle.nd_elements.specs.along.AccumulateAlongAxis.{ChangesNext, TakesNext, LeavesAllBut, AccumulatesLane, AccumulableLane};

use crate::storage::DataMut;
use nd_layout::Lane;

/// Calls `f` with element number `nth` of `items`, and with a mutable reference to element number `nth + 1`. Returns
/// `f`, as the call left it.
#[inline(always)]
fn change_after_slice<A, F: FnMut(&A, &mut A)>(items: &mut [A], nth: usize, mut f: F) -> F
    requires within { nth + 1 < length items.old }
    requires callable { TakesNext F.FnMut slice_get (in_turn items.old) nth items.old f }
    ensures called { ChangesNext F.FnMut slice_get (in_turn items.old) nth items.old items.new f result }
    ensures left { LeavesAllBut slice_get (pos (nth + 1)) items.old items.new }
    ensures long { length items.new ≡ length items.old }
{
    let (before, rest) = items.split_at_mut(nth + 1);
    f(&before[nth], &mut rest[0]);
    f
}

/// Calls `f`, from the second element of `items` to the last one, with the element before it and with a mutable
/// reference to the element. Returns `f`, as the calls left it.
#[inline(always)]
fn accumulate_slice<A, F: FnMut(&A, &mut A)>(items: &mut [A], f: F) -> F
    requires some { 0 < length items.old }
    requires callable { AccumulableLane F.FnMut slice_get (in_turn items.old) items.old f }
    ensures accumulated { AccumulatesLane F.FnMut slice_get (in_turn items.old) items.old items.new f result }
    ensures long { length items.new ≡ length items.old }
{
    let mut now = f;
    for nth in 0..items.len() - 1 {
        now = change_after_slice(items, nth, now);
    }
    now
}

/// Calls `f`, from the second element of a `lane` of stride 1 to the last one, with the element before it and with a
/// mutable reference to the element. The lane is borrowed as a slice: no place is computed for each element, and the
/// compiler need not read again what a call wrote. Returns `f`, as the calls left it.
pub(crate) fn accumulate_contiguous<S: DataMut, F: FnMut(&S::Elem, &mut S::Elem)>(
    storage: &mut S,
    lane: Lane,
    f: F,
) -> F
    requires some { 0 < lane.count }
    requires step { lane.stride ≡ pos 1 }
    requires holds { Holds S.stored (along lane) storage.old }
    requires callable { AccumulableLane F.FnMut S.stored (along lane) storage.old f }
    ensures accumulated { AccumulatesLane F.FnMut S.stored (along lane) storage.old storage.new f result }
    ensures frame { S.frame storage.new ≡ S.frame storage.old }
{
    accumulate_slice(storage.lend_run(lane.place, lane.count), f)
}
