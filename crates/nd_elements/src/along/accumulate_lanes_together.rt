//! Going along all lanes of an axis together, coordinate by coordinate, if the elements at each coordinate are
//! contiguous.

ghost use Rattle.std.specs.Prelude.{◌≡◌, ◌*◌, ◌<◌, ◌^◌, ℕ, length, pos, ◌+ℤ◌};
ghost use Rattle.nd_region.specs.Region.{HasRun};
ghost use Rattle.nd_elements.specs.RunBorrowEnds.{HasRunAt, IsOutsideRun};
ghost use Rattle.nd_elements.specs.along.AxisLanes.{parallel_lanes, AreChecked, RunReaches, LanesLie, LanesDiffer, LanesHold};
ghost use Rattle.nd_elements.specs.along.AccumulateAlongAxis.{ChangesSlice, TakesSlice, TakesRow, RowChangedBetween, RowChangedInside, ChangesNextRun, TakesNextRun, AccumulatesLanes, AccumulableLanes, AreRunsApart, run_at};

use crate::storage::DataMut;
use nd_layout::{Lane, Places};
use nd_region::Region;
use nd_shape_and_slice::Dimension;

/// Calls `f` with each element of `before`, and with a mutable reference to the element of `items` that has the same
/// position. Returns `f`, as the calls left it.
#[inline(always)]
fn change_parallel_slice<A, F: FnMut(&A, &mut A)>(before: &[A], items: &mut [A], mut f: F) -> F
    requires as_long { length before.now ≡ length items.old }
    requires callable { TakesSlice F.FnMut before.now items.old f }
    ensures changed { ChangesSlice F.FnMut before.now items.old items.new f result }
    ensures long { length items.new ≡ length items.old }
{
    for nth in 0..before.len() {
        f(&before[nth], &mut items[nth]);
    }
    f
}

/// Calls `f` with each of the `count` elements of the region `one` from the place `p` on, and with a mutable reference
/// to the element that has the same position among the `count` elements of the region `other` from the place `q` on.
/// Returns the regions and `f`, as the calls left them.
fn change_rows_contiguous<'b, A, F: FnMut(&A, &mut A)>(
    one: Region<'b, A>,
    p: usize,
    mut other: Region<'b, A>,
    q: usize,
    count: usize,
    f: F,
) -> (Region<'b, A>, Region<'b, A>, F)
    requires holds { HasRun one p count × HasRun other q count }
    requires callable { TakesRow F.FnMut (run_at one p) (run_at other q) count f }
    ensures { RowChangedBetween F.FnMut one.entry p other.entry q count f result }
{
    let before = one.run(p, count);
    let f = change_parallel_slice(before, other.run_mut(q, count), f);
    (one, other, f)
}

/// Calls `f` with each of the `count` elements of `region` from the place `p` on, and with a mutable reference to the
/// element that has the same position among the `count` elements from the place `q` on. The two runs don't overlap.
/// Returns the region and `f`, as the calls left them.
fn change_row_inside_contiguous<'b, A, F: FnMut(&A, &mut A)>(
    mut region: Region<'b, A>,
    p: usize,
    q: usize,
    count: usize,
    f: F,
) -> (Region<'b, A>, F)
    requires apart { AreRunsApart p q count }
    requires holds { HasRun region p count × HasRun region q count }
    requires callable { TakesRow F.FnMut (run_at region p) (run_at region q) count f }
    ensures { RowChangedInside F.FnMut region.entry p q count f result }
{
    let f = region.split_with(
        p,
        &[count],
        &[1],
        |one, others|
            requires one { HasRun one p count }
            requires other { HasRun others q count }
            requires callable { TakesRow F.FnMut (run_at one p) (run_at others q) count f }
            ensures { RowChangedBetween F.FnMut one.entry p others.entry q count f result }
        { change_rows_contiguous(one, p, others, q, count, f) },
    );
    (region, f)
}

/// Calls `f` with each of the `count` elements of `storage` from the place `p` on, and with a mutable reference to the
/// element that lies `stride` places after it, which is the one with the same position from the place `q` on. Returns
/// `f`, as the calls left it.
fn change_row_contiguous<S: DataMut, F: FnMut(&S::Elem, &mut S::Elem)>(
    storage: &mut S,
    p: usize,
    q: usize,
    count: usize,
    stride: isize,
    f: F,
) -> F
    requires after { pos q ≡ pos p +ℤ stride }
    requires checked { 2 * count < 2 ^ 63 }
    requires reach { RunReaches p count × RunReaches q count }
    requires apart { AreRunsApart p q count }
    requires holds { HasRunAt (S.stored storage.old) p count × HasRunAt (S.stored storage.old) q count }
    requires callable { TakesNextRun F.FnMut S.stored p q count storage.old f }
    ensures changed { ChangesNextRun F.FnMut S.stored p q count storage.old storage.new f result }
    ensures left { (i : ℕ) → IsOutsideRun q count i → S.stored storage.new i ≡ S.stored storage.old i }
    ensures frame { S.frame storage.new ≡ S.frame storage.old }
{
    storage.with_part(
        Places {
            first: p,
            lengths: &[2, count],
            strides: &[stride, 1],
        },
        |region|
            requires apart { AreRunsApart p q count }
            requires holds { HasRun region p count × HasRun region q count }
            requires callable { TakesRow F.FnMut (run_at region p) (run_at region q) count f }
            ensures changed { RowChangedInside F.FnMut region.entry p q count f result }
        { change_row_inside_contiguous(region, p, q, count, f) },
    )
}

/// Goes along `lanes` lanes together. The first of them is `lane`, and each other begins one place after the lane
/// before it. At each coordinate except the last, calls `f` for each lane with its element there, and with a mutable
/// reference to its element at the next coordinate. Returns `f`, as the calls left it.
pub(crate) fn accumulate_parallel<S: DataMut, F: FnMut(&S::Elem, &mut S::Elem)>(
    storage: &mut S,
    lane: Lane,
    lanes: usize,
    f: F,
) -> F
    requires some { 0 < lane.count }
    requires checked { AreChecked (parallel_lanes lanes lane) }
    requires lie { LanesLie (parallel_lanes lanes lane) }
    requires apart { LanesDiffer (parallel_lanes lanes lane) }
    requires holds { LanesHold S.stored (parallel_lanes lanes lane) storage.old }
    requires callable { AccumulableLanes F.FnMut S.stored (parallel_lanes lanes lane) storage.old f }
    ensures accumulated { AccumulatesLanes F.FnMut S.stored (parallel_lanes lanes lane) storage.old storage.new f result }
    ensures frame { S.frame storage.new ≡ S.frame storage.old }
{
    let mut now = f;
    for nth in 0..lane.count - 1 {
        now = change_row_contiguous(
            storage,
            lane.place_of(nth),
            lane.place_of(nth + 1),
            lanes,
            lane.stride,
            now,
        );
    }
    now
}
