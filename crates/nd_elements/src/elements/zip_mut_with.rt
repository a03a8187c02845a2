//! Calling a closure with pairs of elements of two storages, a mutable reference to the first and a reference to the
//! second.

ghost use Rattle.std.specs.Prelude.{◌≡◌, ◌<◌, ℕ, Some, IsSome, pos, length, slice_get};
ghost use Rattle.nd_layout.specs.NumberedPlacesAndWalks.{along, ranked};
ghost use Rattle.nd_layout.specs.LayoutStepsOfCalls.{placement_of, KeepsApart};
ghost use Rattle.nd_region.specs.Region.{region_stored, borrow_of};
ghost use Rattle.nd_elements.specs.StorageByLayout.{HoldsShown, LeavesOthers, TakesShown, ZipsShown, ZipsTo};
ghost use Rattle.nd_elements.specs.ElementsAtNumberedPlaces.{in_turn, Holds, PlacesDiffer};
ghost use Rattle.nd_elements.specs.elements.PairsWithOneWritten.{ChangesBoth, TakesBoth, MayZipAt, ZipsAt, MayZipAlong, ZipsAlong, MayZip, Zips};

use crate::storage::{Data, DataMut, ViewMutRepr};
use nd_layout::{
    Lane, Layout, Places, columns_as_rows, halved_alike, is_worth_turning, turned_alike,
};
use nd_region::Region;
use nd_shape_and_slice::{Dimension, StrideList};

/// Calls `f` with a mutable reference to the element at `place`, and with `other`. Returns `f`, as the call left it.
fn change_with<B, S: DataMut, F: FnMut(&mut S::Elem, &B)>(
    storage: &mut S,
    place: usize,
    other: &B,
    mut f: F,
) -> F
    requires holds { IsSome (S.stored storage.old place) }
    requires callable { TakesBoth F.FnMut (Some other.now) (S.stored storage.old place) f }
    ensures called { ChangesBoth F.FnMut S.stored (Some other.now) place storage.old storage.new f result }
    ensures left { (p : ℕ) → ¬ (p ≡ place) → S.stored storage.new p ≡ S.stored storage.old p }
    ensures frame { S.frame storage.new ≡ S.frame storage.old }
{
    f(storage.element_mut(place), other);
    f
}

/// Calls `f` with a mutable reference to each element along `lane` of `storage`, and with the element that has the same
/// position along `other_lane` of `others`. Returns `f`, as the calls left it.
#[inline(always)]
fn zip_strided<B, S: DataMut, Z: Data<Elem = B>, F: FnMut(&mut S::Elem, &B)>(
    storage: &mut S,
    lane: Lane,
    others: &Z,
    other_lane: Lane,
    f: F,
) -> F
    requires as_long { other_lane.count ≡ lane.count }
    requires apart { PlacesDiffer (along lane) }
    requires holds { Holds S.stored (along lane) storage.old }
    requires others_hold { Holds Z.stored (along other_lane) others.now }
    requires callable { MayZipAlong F.FnMut S.stored Z.stored lane other_lane storage.old others.now f }
    ensures changed { ZipsAlong F.FnMut S.stored Z.stored lane other_lane others.now storage.old storage.new f result }
    ensures frame { S.frame storage.new ≡ S.frame storage.old }
{
    let mut now = f;
    for nth in 0..lane.count {
        let other = others.element(other_lane.place_of(nth));
        now = change_with(storage, lane.place_of(nth), other, now);
    }
    now
}

/// Calls `f` with a mutable reference to each element along `lane` of `region`, and with the element that has the same
/// position along `other_lane` of `others`. Returns the region, and `f`, as the calls left it.
#[inline(always)]
fn zip_in_region<'b, A, B, Z: Data<Elem = B>, F: FnMut(&mut A, &B)>(
    region: Region<'b, A>,
    lane: Lane,
    others: &Z,
    other_lane: Lane,
    f: F,
) -> (Region<'b, A>, F)
    requires as_long { other_lane.count ≡ lane.count }
    requires apart { PlacesDiffer (along lane) }
    requires holds { Holds region_stored (along lane) region }
    requires others_hold { Holds Z.stored (along other_lane) others.now }
    requires callable { MayZipAlong F.FnMut region_stored Z.stored lane other_lane region others.now f }
    ensures changed { ZipsAlong F.FnMut region_stored Z.stored lane other_lane others.now region.entry result.0 f result.1 }
    ensures same { borrow_of result.0 ≡ borrow_of region.entry }
{
    let mut lent = ViewMutRepr::of_region(region);
    let now = zip_strided(&mut lent, lane, others, other_lane, f);
    (lent.region, now)
}

/// Calls `f` with a mutable reference to each element along `lane` of `storage`, and with the element that has the same
/// position along `other_lane` of `others`. The lane is lent as a region before the loop, so that the compiler need not
/// read again after each call where the storage begins in memory. Returns `f`, as the calls left it.
#[inline(always)]
fn zip_lent<B, S: DataMut, Z: Data<Elem = B>, F: FnMut(&mut S::Elem, &B)>(
    storage: &mut S,
    lane: Lane,
    others: &Z,
    other_lane: Lane,
    f: F,
) -> F
    requires as_long { other_lane.count ≡ lane.count }
    requires apart { PlacesDiffer (along lane) }
    requires holds { Holds S.stored (along lane) storage.old }
    requires others_hold { Holds Z.stored (along other_lane) others.now }
    requires callable { MayZipAlong F.FnMut S.stored Z.stored lane other_lane storage.old others.now f }
    ensures changed { ZipsAlong F.FnMut S.stored Z.stored lane other_lane others.now storage.old storage.new f result }
    ensures frame { S.frame storage.new ≡ S.frame storage.old }
{
    storage.with_part(
        Places {
            first: lane.place,
            lengths: &[lane.count],
            strides: &[lane.stride],
        },
        |region|
            requires as_long { other_lane.count ≡ lane.count }
            requires apart { PlacesDiffer (along lane) }
            requires holds { Holds region_stored (along lane) region }
            requires others_hold { Holds Z.stored (along other_lane) others.now }
            requires callable { MayZipAlong F.FnMut region_stored Z.stored lane other_lane region others.now f }
            ensures changed { ZipsAlong F.FnMut region_stored Z.stored lane other_lane others.entry.now region.entry result.0 f result.1 }
            ensures same { borrow_of result.0 ≡ borrow_of region.entry }
        { zip_in_region(region, lane, others, other_lane, f) },
    )
}

/// Calls `f` with a mutable reference to each element of `xs`, and with the element of `ys` that has the same position.
/// Returns `f`, as the calls left it.
fn zip_slice<A, B, F: FnMut(&mut A, &B)>(xs: &mut [A], ys: &[B], mut f: F) -> F
    requires as_long { length ys.now ≡ length xs.old }
    requires callable { MayZipAt F.FnMut slice_get slice_get (in_turn xs.old) (in_turn ys.now) xs.old ys.now f }
    ensures changed { ZipsAt F.FnMut slice_get slice_get (in_turn xs.old) (in_turn ys.now) ys.now xs.old xs.new f result }
    ensures long { length xs.new ≡ length xs.old }
{
    for nth in 0..ys.len() {
        f(&mut xs[nth], &ys[nth]);
    }
    f
}

/// Calls `f` with a mutable reference to each element along `lane` of `storage`, and with the element that has the same
/// position along `other_lane` of `others`. Both lanes must have stride 1. They are borrowed as slices before the loop,
/// so that the compiler need not read again after each write where they begin in memory. Returns `f`, as the calls left
/// it.
fn zip_contiguous<B, S: DataMut, Z: Data<Elem = B>, F: FnMut(&mut S::Elem, &B)>(
    storage: &mut S,
    lane: Lane,
    others: &Z,
    other_lane: Lane,
    f: F,
) -> F
    requires some { 0 < lane.count }
    requires steps { (lane.stride ≡ pos 1) × (other_lane.stride ≡ pos 1) }
    requires as_long { other_lane.count ≡ lane.count }
    requires apart { PlacesDiffer (along lane) }
    requires holds { Holds S.stored (along lane) storage.old }
    requires others_hold { Holds Z.stored (along other_lane) others.now }
    requires callable { MayZipAlong F.FnMut S.stored Z.stored lane other_lane storage.old others.now f }
    ensures changed { ZipsAlong F.FnMut S.stored Z.stored lane other_lane others.now storage.old storage.new f result }
    ensures frame { S.frame storage.new ≡ S.frame storage.old }
{
    let ys = others.borrowed().run(other_lane.place, other_lane.count);
    zip_slice(storage.lend_run(lane.place, lane.count), ys, f)
}

/// Calls `f` with a mutable reference to each element of `xs`, and with the element that has the same position along
/// `other_lane` of `others`. Returns `f`, as the calls left it.
#[inline(always)]
fn zip_slice_with_strided<A, B, Z: Data<Elem = B>, F: FnMut(&mut A, &B)>(
    xs: &mut [A],
    others: &Z,
    other_lane: Lane,
    mut f: F,
) -> F
    requires as_long { other_lane.count ≡ length xs.old }
    requires others_hold { Holds Z.stored (along other_lane) others.now }
    requires callable { MayZipAt F.FnMut slice_get Z.stored (in_turn xs.old) (along other_lane) xs.old others.now f }
    ensures changed { ZipsAt F.FnMut slice_get Z.stored (in_turn xs.old) (along other_lane) others.now xs.old xs.new f result }
    ensures long { length xs.new ≡ length xs.old }
{
    for nth in 0..other_lane.count {
        let other = others.element(other_lane.place_of(nth));
        f(&mut xs[nth], other);
    }
    f
}

/// Calls `f` with a mutable reference to each element along `lane` of `storage`, and with the element that has the same
/// position along `other_lane` of `others`. `lane` must have stride 1. It is borrowed as a slice before the loop, so
/// that the compiler need not read again after each write where it begins in memory. Returns `f`, as the calls left it.
fn zip_contiguous_with_strided<B, S: DataMut, Z: Data<Elem = B>, F: FnMut(&mut S::Elem, &B)>(
    storage: &mut S,
    lane: Lane,
    others: &Z,
    other_lane: Lane,
    f: F,
) -> F
    requires some { 0 < lane.count }
    requires step { lane.stride ≡ pos 1 }
    requires as_long { other_lane.count ≡ lane.count }
    requires holds { Holds S.stored (along lane) storage.old }
    requires others_hold { Holds Z.stored (along other_lane) others.now }
    requires callable { MayZipAlong F.FnMut S.stored Z.stored lane other_lane storage.old others.now f }
    ensures changed { ZipsAlong F.FnMut S.stored Z.stored lane other_lane others.now storage.old storage.new f result }
    ensures frame { S.frame storage.new ≡ S.frame storage.old }
{
    zip_slice_with_strided(
        storage.lend_run(lane.place, lane.count),
        others,
        other_lane,
        f,
    )
}

/// Calls `f` with a mutable reference to each element along `lane` of `storage`, and with the element that has the same
/// position along `other_lane` of `others`. Chooses the loop that suits the strides. Returns `f`, as the calls left it.
#[inline(always)]
fn zip_lane<B, S: DataMut, Z: Data<Elem = B>, F: FnMut(&mut S::Elem, &B)>(
    storage: &mut S,
    lane: Lane,
    others: &Z,
    other_lane: Lane,
    f: F,
) -> F
    requires as_long { other_lane.count ≡ lane.count }
    requires apart { PlacesDiffer (along lane) }
    requires holds { Holds S.stored (along lane) storage.old }
    requires others_hold { Holds Z.stored (along other_lane) others.now }
    requires callable { MayZipAlong F.FnMut S.stored Z.stored lane other_lane storage.old others.now f }
    ensures changed { ZipsAlong F.FnMut S.stored Z.stored lane other_lane others.now storage.old storage.new f result }
    ensures frame { S.frame storage.new ≡ S.frame storage.old }
{
    if lane.count == 0 || lane.stride != 1 {
        return zip_lent(storage, lane, &others.borrowed(), other_lane, f);
    }
    if other_lane.stride == 1 {
        return zip_contiguous(storage, lane, others, other_lane, f);
    }
    zip_contiguous_with_strided(storage, lane, &others.borrowed(), other_lane, f)
}

/// Calls `f`, in row-major order of the indexes, with a mutable reference to the element of `storage` at the index's
/// place under `places`, and with the element of `others` at the index's place under `other_places`. Returns `f`, as
/// the calls left it. Goes lane by lane.
fn zip_lane_by_lane<B, S: DataMut, Z: Data<Elem = B>, F: FnMut(&mut S::Elem, &B)>(
    storage: &mut S,
    places: Places<'_>,
    others: &Z,
    other_places: Places<'_>,
    f: F,
) -> F
    requires alike { other_places.lengths.now ≡ places.lengths.now }
    requires apart { PlacesDiffer (ranked places) }
    requires holds { Holds S.stored (ranked places) storage.old }
    requires others_hold { Holds Z.stored (ranked other_places) others.now }
    requires callable { MayZip F.FnMut S.stored Z.stored places other_places storage.old others.now f }
    ensures changed { Zips F.FnMut S.stored Z.stored places.entry other_places.entry others.now storage.old storage.new f result }
    ensures frame { S.frame storage.new ≡ S.frame storage.old }
{
    let mut ours = places.lanes();
    let mut theirs = other_places.lanes();
    let mut now = f;
    while let Some(lane) = ours.next() {
        match theirs.next() {
            Some(aside) => {
                now = zip_lane(storage, lane, others, aside, now);
            }
            None => unreachable!(),
        }
    }
    now
}

/// Calls `f`, in row-major order of the indexes, with a mutable reference to the element of `storage` at the index's
/// place under `places`, and with the element of `others` at the index's place under `other_places`. Returns `f`, as
/// the calls left it. If all places of each are one lane, goes along these two lanes; otherwise goes lane by lane.
fn zip_places<B, S: DataMut, Z: Data<Elem = B>, F: FnMut(&mut S::Elem, &B)>(
    storage: &mut S,
    places: Places<'_>,
    others: &Z,
    other_places: Places<'_>,
    f: F,
) -> F
    requires alike { other_places.lengths.now ≡ places.lengths.now }
    requires apart { PlacesDiffer (ranked places) }
    requires holds { Holds S.stored (ranked places) storage.old }
    requires others_hold { Holds Z.stored (ranked other_places) others.now }
    requires callable { MayZip F.FnMut S.stored Z.stored places other_places storage.old others.now f }
    ensures changed { Zips F.FnMut S.stored Z.stored places.entry other_places.entry others.now storage.old storage.new f result }
    ensures frame { S.frame storage.new ≡ S.frame storage.old }
{
    if let Some((lane, aside)) = places.as_lanes(&other_places) {
        return zip_lane(storage, lane, others, aside, f);
    }
    zip_lane_by_lane(storage, places, others, other_places, f)
}

/// Calls `f`, at each index in row-major order, with a mutable reference to the element of `storage` under `layout`,
/// and with the element of `others` under `paired`. Returns `f`, as the calls left it.
fn zip_in_order<B, S, Z, D, T, F>(
    storage: &mut S,
    layout: &Layout<D, T>,
    others: &Z,
    paired: &Layout<D, T>,
    f: F,
) -> F
where
    S: DataMut,
    Z: Data<Elem = B>,
    D: Dimension,
    T: StrideList,
    F: FnMut(&mut S::Elem, &B),
    requires alike { D.lengths paired.now.dim ≡ D.lengths layout.now.dim }
    requires apart { KeepsApart (placement_of layout.now) }
    requires holds { HoldsShown S.stored storage.old layout.now }
    requires others_hold { HoldsShown Z.stored others.now paired.now }
    requires callable { TakesShown F.FnMut S.stored Z.stored storage.old layout.now others.now paired.now f }
    ensures visits { ZipsTo F.FnMut S.stored Z.stored storage.old layout.now others.now paired.now storage.new f result }
    ensures holds { HoldsShown S.stored storage.new layout.now }
    ensures others { LeavesOthers S.stored layout.now storage.old storage.new }
    ensures frame { S.frame storage.new ≡ S.frame storage.old }
{
    zip_places(storage, layout.places(), others, paired.places(), f)
}

/// Calls `f`, at each index, with a mutable reference to the element of `storage` under `layout`, and with the element
/// of `others` under `paired`. If long lanes would jump about in the memory of `others`, cuts both layouts in halves at
/// the same index, and goes over the lower halves before the upper ones. Returns `f`, as the calls left it.
fn zip_in_halves<B, S, Z, D, T, F>(
    storage: &mut S,
    layout: &Layout<D, T>,
    others: &Z,
    paired: &Layout<D, T>,
    f: F,
) -> F
where
    S: DataMut,
    Z: Data<Elem = B>,
    D: Dimension,
    T: StrideList,
    F: FnMut(&mut S::Elem, &B),
    requires alike { D.lengths paired.now.dim ≡ D.lengths layout.now.dim }
    requires apart { KeepsApart (placement_of layout.now) }
    requires holds { HoldsShown S.stored storage.old layout.now }
    requires others_hold { HoldsShown Z.stored others.now paired.now }
    requires callable { TakesShown F.FnMut S.stored Z.stored storage.old layout.now others.now paired.now f }
    ensures visits { ZipsTo F.FnMut S.stored Z.stored storage.old layout.now others.now paired.now storage.new f result }
    ensures holds { HoldsShown S.stored storage.new layout.now }
    ensures others { LeavesOthers S.stored layout.now storage.old storage.new }
    ensures frame { S.frame storage.new ≡ S.frame storage.old }
{
    let Some(halves) = halved_alike(layout, paired) else {
        return zip_in_order(storage, layout, others, paired, f);
    };
    let now = zip_in_halves(storage, &halves.lower, others, &halves.lower_other, f);
    zip_in_halves(storage, &halves.upper, others, &halves.upper_other, now)
}

/// Calls `f`, at each index, with a mutable reference to the element of `storage` under `layout`, and with the element
/// of `others` under `paired`. The order is unspecified and goes along memory: column by column, if the places of both
/// are consecutive so, or else, if that is worth while, permutes the axes of both layouts in the same way, and cuts both
/// in halves.
pub fn zip_layouts<B, S, Z, D, T, F>(
    storage: &mut S,
    layout: &Layout<D, T>,
    others: &Z,
    paired: &Layout<D, T>,
    f: F,
)
where
    S: DataMut,
    Z: Data<Elem = B>,
    D: Dimension,
    T: StrideList,
    F: FnMut(&mut S::Elem, &B),
    requires alike { D.lengths paired.now.dim ≡ D.lengths layout.now.dim }
    requires apart { KeepsApart (placement_of layout.now) }
    requires holds { HoldsShown S.stored storage.old layout.now }
    requires others_hold { HoldsShown Z.stored others.now paired.now }
    requires callable { TakesShown F.FnMut S.stored Z.stored storage.old layout.now others.now paired.now f }
    ensures visits { ZipsShown F.FnMut S.stored Z.stored storage.old layout.now others.now paired.now storage.new f }
    ensures holds { HoldsShown S.stored storage.new layout.now }
    ensures others { LeavesOthers S.stored layout.now storage.old storage.new }
    ensures frame { S.frame storage.new ≡ S.frame storage.old }
{
    if let Some((rows, other_rows)) = columns_as_rows(layout, paired) {
        zip_in_order(storage, &rows, others, &other_rows, f);
        return;
    }
    if !is_worth_turning(layout, paired) {
        zip_in_order(storage, layout, others, paired, f);
        return;
    }
    let (turned, other) = turned_alike(layout, paired);
    zip_in_halves(storage, &turned, others, &other, f);
}
