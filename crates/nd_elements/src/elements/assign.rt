//! Clones of the elements of one storage, written over the elements of another.

ghost use Rattle.std.specs.Prelude.{◌≡◌, ◌<◌, OnOk, OnErr, pos, length, slice_get};
ghost use Rattle.nd_layout.specs.NumberedPlacesAndWalks.{along, ranked};
ghost use Rattle.nd_layout.specs.LayoutStepsOfCalls.{placement_of, KeepsApart};
ghost use Rattle.nd_region.specs.Region.{region_stored, borrow_of};
ghost use Rattle.nd_elements.specs.StorageByLayout.{shown, HoldsShown, LeavesOthers, MayLackShown, ShowsSame, ShowsOldOr};
ghost use Rattle.nd_elements.specs.LackOfMemory.{MayLackBelow};
ghost use Rattle.nd_elements.specs.EqualClones.{ClonesOfAllAreEqual, StoredClonesAreEqual};
ghost use Rattle.nd_elements.specs.ElementsAtNumberedPlaces.{in_turn, Holds, PlacesDiffer, ClonesAreEqualAt, MayLackAt};
ghost use Rattle.nd_elements.specs.elements.AssignedElements.{AssignsAt, AssignsAlong, Assigns};

use crate::storage::{Data, DataMut, ViewMutRepr};
use nd_layout::{
    Lane, Layout, Places, columns_as_rows, halved_alike, is_worth_turning, turned_alike,
};
use nd_region::Region;
use nd_shape_and_slice::{Dimension, NoMemory, StrideList};

/// Writes a clone of each element along `other_lane` of `others` over the element with the same position along `lane`
/// of `storage`.
#[inline(always)]
fn assign_strided<A: Clone + Drop, S: DataMut<Elem = A>, Z: Data<Elem = A>>(
    storage: &mut S,
    lane: Lane,
    others: &Z,
    other_lane: Lane,
) -> Result<(), NoMemory>
    requires as_long { other_lane.count ≡ lane.count }
    requires apart { PlacesDiffer (along lane) }
    requires holds { Holds S.stored (along lane) storage.old }
    requires others_hold { Holds Z.stored (along other_lane) others.now }
    requires clones { ClonesAreEqualAt A.is_clone Z.stored (along other_lane) others.now }
    ensures outcome { AssignsAlong S.stored Z.stored lane other_lane others.now storage.old storage.new result }
    ensures refused { OnErr result (MayLackAt A.is_infallible Z.stored (along other_lane) others.now) }
    ensures frame { S.frame storage.new ≡ S.frame storage.old }
{
    for nth in 0..lane.count {
        let other = others.element(other_lane.place_of(nth));
        let copy = other.clone()?;
        storage.replace(lane.place_of(nth), copy);
    }
    Ok(())
}

/// Writes a clone of each element along `other_lane` of `others` over the element with the same position along `lane`
/// of `region`. Returns the region, too.
#[inline(always)]
fn assign_in_region<'b, A: Clone + Drop, Z: Data<Elem = A>>(
    region: Region<'b, A>,
    lane: Lane,
    others: &Z,
    other_lane: Lane,
) -> (Region<'b, A>, Result<(), NoMemory>)
    requires as_long { other_lane.count ≡ lane.count }
    requires apart { PlacesDiffer (along lane) }
    requires holds { Holds region_stored (along lane) region }
    requires others_hold { Holds Z.stored (along other_lane) others.now }
    requires clones { ClonesAreEqualAt A.is_clone Z.stored (along other_lane) others.now }
    ensures outcome { AssignsAlong region_stored Z.stored lane other_lane others.now region.entry result.0 result.1 }
    ensures refused { OnErr result.1 (MayLackAt A.is_infallible Z.stored (along other_lane) others.now) }
    ensures same { borrow_of result.0 ≡ borrow_of region.entry }
{
    let mut lent = ViewMutRepr::of_region(region);
    let outcome = assign_strided(&mut lent, lane, others, other_lane);
    (lent.region, outcome)
}

/// Writes a clone of each element along `other_lane` of `others` over the element with the same position along `lane`
/// of `storage`. The lane is lent as a region before the loop, so that the compiler need not read again after each write
/// where the storage begins in memory.
#[inline(always)]
fn assign_lent<A: Clone + Drop, S: DataMut<Elem = A>, Z: Data<Elem = A>>(
    storage: &mut S,
    lane: Lane,
    others: &Z,
    other_lane: Lane,
) -> Result<(), NoMemory>
    requires as_long { other_lane.count ≡ lane.count }
    requires apart { PlacesDiffer (along lane) }
    requires holds { Holds S.stored (along lane) storage.old }
    requires others_hold { Holds Z.stored (along other_lane) others.now }
    requires clones { ClonesAreEqualAt A.is_clone Z.stored (along other_lane) others.now }
    ensures outcome { AssignsAlong S.stored Z.stored lane other_lane others.now storage.old storage.new result }
    ensures refused { OnErr result (MayLackAt A.is_infallible Z.stored (along other_lane) others.now) }
    ensures frame { S.frame storage.new ≡ S.frame storage.old }
{
    storage.with_part(
        Places {
            first: lane.place,
            lengths: &[lane.count],
            strides: &[lane.stride],
        },
        |region|
            requires as_long { other_lane.count ≡ lane.count }
            requires apart { PlacesDiffer (along lane) }
            requires holds { Holds region_stored (along lane) region }
            requires others_hold { Holds Z.stored (along other_lane) others.now }
            requires clones { ClonesAreEqualAt A.is_clone Z.stored (along other_lane) others.now }
            ensures outcome { AssignsAlong region_stored Z.stored lane other_lane others.entry.now region.entry result.0 result.1 }
            ensures refused { OnErr result.1 (MayLackAt A.is_infallible Z.stored (along other_lane) others.entry.now) }
            ensures same { borrow_of result.0 ≡ borrow_of region.entry }
        { assign_in_region(region, lane, others, other_lane) },
    )
}

/// Writes a clone of each element of `ys` over the element of `xs` with the same position.
fn assign_slice<A: Clone + Drop>(xs: &mut [A], ys: &[A]) -> Result<(), NoMemory>
    requires as_long { length ys.now ≡ length xs.old }
    requires clones { StoredClonesAreEqual A.is_clone ys.now }
    ensures outcome { AssignsAt slice_get slice_get (in_turn xs.old) (in_turn ys.now) ys.now xs.old xs.new result }
    ensures refused { OnErr result (MayLackBelow A.is_infallible (slice_get ys.now) (length ys.now)) }
    ensures long { length xs.new ≡ length xs.old }
{
    for nth in 0..ys.len() {
        let copy = ys[nth].clone()?;
        xs[nth] = copy;
    }
    Ok(())
}

/// Writes a clone of each element along `other_lane` of `others` over the element with the same position along `lane`
/// of `storage`. Both lanes must have stride 1. They are borrowed as slices before the loop, so that the compiler need
/// not read again after each write where they begin in memory.
fn assign_contiguous<A: Clone + Drop, S: DataMut<Elem = A>, Z: Data<Elem = A>>(
    storage: &mut S,
    lane: Lane,
    others: &Z,
    other_lane: Lane,
) -> Result<(), NoMemory>
    requires some { 0 < lane.count }
    requires steps { (lane.stride ≡ pos 1) × (other_lane.stride ≡ pos 1) }
    requires as_long { other_lane.count ≡ lane.count }
    requires holds { Holds S.stored (along lane) storage.old }
    requires others_hold { Holds Z.stored (along other_lane) others.now }
    requires clones { ClonesAreEqualAt A.is_clone Z.stored (along other_lane) others.now }
    ensures outcome { AssignsAlong S.stored Z.stored lane other_lane others.now storage.old storage.new result }
    ensures refused { OnErr result (MayLackAt A.is_infallible Z.stored (along other_lane) others.now) }
    ensures frame { S.frame storage.new ≡ S.frame storage.old }
{
    let ys = others.borrowed().run(other_lane.place, other_lane.count);
    assign_slice(storage.lend_run(lane.place, lane.count), ys)
}

/// Writes a clone of each element along `other_lane` of `others` over the element of `xs` with the same position.
#[inline(always)]
fn assign_slice_from_strided<A: Clone + Drop, Z: Data<Elem = A>>(
    xs: &mut [A],
    others: &Z,
    other_lane: Lane,
) -> Result<(), NoMemory>
    requires as_long { other_lane.count ≡ length xs.old }
    requires others_hold { Holds Z.stored (along other_lane) others.now }
    requires clones { ClonesAreEqualAt A.is_clone Z.stored (along other_lane) others.now }
    ensures outcome { AssignsAt slice_get Z.stored (in_turn xs.old) (along other_lane) others.now xs.old xs.new result }
    ensures refused { OnErr result (MayLackAt A.is_infallible Z.stored (along other_lane) others.now) }
    ensures long { length xs.new ≡ length xs.old }
{
    for nth in 0..other_lane.count {
        let other = others.element(other_lane.place_of(nth));
        let copy = other.clone()?;
        xs[nth] = copy;
    }
    Ok(())
}

/// Writes a clone of each element along `other_lane` of `others` over the element with the same position along `lane`
/// of `storage`. `lane` must have stride 1. It is borrowed as a slice before the loop, so that the compiler need not
/// read again after each write where it begins in memory.
fn assign_contiguous_from_strided<A: Clone + Drop, S: DataMut<Elem = A>, Z: Data<Elem = A>>(
    storage: &mut S,
    lane: Lane,
    others: &Z,
    other_lane: Lane,
) -> Result<(), NoMemory>
    requires some { 0 < lane.count }
    requires step { lane.stride ≡ pos 1 }
    requires as_long { other_lane.count ≡ lane.count }
    requires holds { Holds S.stored (along lane) storage.old }
    requires others_hold { Holds Z.stored (along other_lane) others.now }
    requires clones { ClonesAreEqualAt A.is_clone Z.stored (along other_lane) others.now }
    ensures outcome { AssignsAlong S.stored Z.stored lane other_lane others.now storage.old storage.new result }
    ensures refused { OnErr result (MayLackAt A.is_infallible Z.stored (along other_lane) others.now) }
    ensures frame { S.frame storage.new ≡ S.frame storage.old }
{
    assign_slice_from_strided(storage.lend_run(lane.place, lane.count), others, other_lane)
}

/// Writes a clone of each element along `other_lane` of `others` over the element with the same position along `lane`
/// of `storage`. Chooses the loop that suits the strides.
#[inline(always)]
fn assign_lane<A: Clone + Drop, S: DataMut<Elem = A>, Z: Data<Elem = A>>(
    storage: &mut S,
    lane: Lane,
    others: &Z,
    other_lane: Lane,
) -> Result<(), NoMemory>
    requires as_long { other_lane.count ≡ lane.count }
    requires apart { PlacesDiffer (along lane) }
    requires holds { Holds S.stored (along lane) storage.old }
    requires others_hold { Holds Z.stored (along other_lane) others.now }
    requires clones { ClonesAreEqualAt A.is_clone Z.stored (along other_lane) others.now }
    ensures outcome { AssignsAlong S.stored Z.stored lane other_lane others.now storage.old storage.new result }
    ensures refused { OnErr result (MayLackAt A.is_infallible Z.stored (along other_lane) others.now) }
    ensures frame { S.frame storage.new ≡ S.frame storage.old }
{
    if lane.count == 0 || lane.stride != 1 {
        return assign_lent(storage, lane, &others.borrowed(), other_lane);
    }
    if other_lane.stride == 1 {
        return assign_contiguous(storage, lane, others, other_lane);
    }
    assign_contiguous_from_strided(storage, lane, &others.borrowed(), other_lane)
}

/// Writes at the place of each index under `places` a clone of the element that `others` has at the place of that index
/// under `other_places`, lane by lane.
fn assign_lane_by_lane<A: Clone + Drop, S: DataMut<Elem = A>, Z: Data<Elem = A>>(
    storage: &mut S,
    places: Places<'_>,
    others: &Z,
    other_places: Places<'_>,
) -> Result<(), NoMemory>
    requires alike { other_places.lengths.now ≡ places.lengths.now }
    requires apart { PlacesDiffer (ranked places) }
    requires holds { Holds S.stored (ranked places) storage.old }
    requires others_hold { Holds Z.stored (ranked other_places) others.now }
    requires clones { ClonesAreEqualAt A.is_clone Z.stored (ranked other_places) others.now }
    ensures outcome { Assigns S.stored Z.stored places.entry other_places.entry others.now storage.old storage.new result }
    ensures refused { OnErr result (MayLackAt A.is_infallible Z.stored (ranked other_places.entry) others.now) }
    ensures frame { S.frame storage.new ≡ S.frame storage.old }
{
    let mut ours = places.lanes();
    let mut theirs = other_places.lanes();
    while let Some(lane) = ours.next() {
        match theirs.next() {
            Some(aside) => match assign_lane(storage, lane, others, aside) {
                Ok(()) => {}
                Err(refused) => return Err(refused),
            },
            None => unreachable!(),
        }
    }
    Ok(())
}

/// Writes at the place of each index under `places` a clone of the element that `others` has at the place of that index
/// under `other_places`. If all places of each are one lane, goes along these two lanes; otherwise goes lane by lane.
fn assign_places<A: Clone + Drop, S: DataMut<Elem = A>, Z: Data<Elem = A>>(
    storage: &mut S,
    places: Places<'_>,
    others: &Z,
    other_places: Places<'_>,
) -> Result<(), NoMemory>
    requires alike { other_places.lengths.now ≡ places.lengths.now }
    requires apart { PlacesDiffer (ranked places) }
    requires holds { Holds S.stored (ranked places) storage.old }
    requires others_hold { Holds Z.stored (ranked other_places) others.now }
    requires clones { ClonesAreEqualAt A.is_clone Z.stored (ranked other_places) others.now }
    ensures outcome { Assigns S.stored Z.stored places.entry other_places.entry others.now storage.old storage.new result }
    ensures refused { OnErr result (MayLackAt A.is_infallible Z.stored (ranked other_places.entry) others.now) }
    ensures frame { S.frame storage.new ≡ S.frame storage.old }
{
    if let Some((lane, aside)) = places.as_lanes(&other_places) {
        return assign_lane(storage, lane, others, aside);
    }
    assign_lane_by_lane(storage, places, others, other_places)
}

/// Writes at the place of each index of `layout` a clone of the element that `others` has at that index under `paired`,
/// in row-major order.
fn assign_in_order<A, S, Z, D, T>(
    storage: &mut S,
    layout: &Layout<D, T>,
    others: &Z,
    paired: &Layout<D, T>,
) -> Result<(), NoMemory>
where
    A: Clone + Drop,
    S: DataMut<Elem = A>,
    Z: Data<Elem = A>,
    D: Dimension,
    T: StrideList,
    requires alike { D.lengths paired.now.dim ≡ D.lengths layout.now.dim }
    requires apart { KeepsApart (placement_of layout.now) }
    requires holds { HoldsShown S.stored storage.old layout.now }
    requires others_hold { HoldsShown Z.stored others.now paired.now }
    requires clones { ClonesOfAllAreEqual A.is_clone (shown Z.stored others.now paired.now) }
    ensures assigned { OnOk result (ShowsSame S.stored Z.stored storage.new layout.now others.now paired.now) }
    ensures stopped { OnErr result (ShowsOldOr S.stored Z.stored storage.old storage.new layout.now others.now paired.now) }
    ensures refused { OnErr result (MayLackShown Z.stored A.is_infallible others.now paired.now) }
    ensures holds { HoldsShown S.stored storage.new layout.now }
    ensures others { LeavesOthers S.stored layout.now storage.old storage.new }
    ensures frame { S.frame storage.new ≡ S.frame storage.old }
{
    assign_places(storage, layout.places(), others, paired.places())
}

/// Writes at the place of each index of `layout` a clone of the element that `others` has at that index under `paired`.
/// If long lanes would jump about in the memory of `others`, cuts both layouts in halves at the same index, and writes
/// the lower halves before the upper ones.
fn assign_in_halves<A, S, Z, D, T>(
    storage: &mut S,
    layout: &Layout<D, T>,
    others: &Z,
    paired: &Layout<D, T>,
) -> Result<(), NoMemory>
where
    A: Clone + Drop,
    S: DataMut<Elem = A>,
    Z: Data<Elem = A>,
    D: Dimension,
    T: StrideList,
    requires alike { D.lengths paired.now.dim ≡ D.lengths layout.now.dim }
    requires apart { KeepsApart (placement_of layout.now) }
    requires holds { HoldsShown S.stored storage.old layout.now }
    requires others_hold { HoldsShown Z.stored others.now paired.now }
    requires clones { ClonesOfAllAreEqual A.is_clone (shown Z.stored others.now paired.now) }
    ensures assigned { OnOk result (ShowsSame S.stored Z.stored storage.new layout.now others.now paired.now) }
    ensures stopped { OnErr result (ShowsOldOr S.stored Z.stored storage.old storage.new layout.now others.now paired.now) }
    ensures refused { OnErr result (MayLackShown Z.stored A.is_infallible others.now paired.now) }
    ensures holds { HoldsShown S.stored storage.new layout.now }
    ensures others { LeavesOthers S.stored layout.now storage.old storage.new }
    ensures frame { S.frame storage.new ≡ S.frame storage.old }
{
    let Some(halves) = halved_alike(layout, paired) else {
        return assign_in_order(storage, layout, others, paired);
    };
    match assign_in_halves(storage, &halves.lower, others, &halves.lower_other) {
        Ok(()) => assign_in_halves(storage, &halves.upper, others, &halves.upper_other),
        Err(refused) => Err(refused),
    }
}

/// Writes at the place of each index of `layout` a clone of the element that `others` has at that index under `paired`,
/// in an order that goes along memory: column by column, if the places of both are consecutive so, or else, if that is
/// worth while, permutes the axes of both layouts in the same way, and cuts both in halves.
pub fn assign_layouts<A, S, Z, D, T>(
    storage: &mut S,
    layout: &Layout<D, T>,
    others: &Z,
    paired: &Layout<D, T>,
) -> Result<(), NoMemory>
where
    A: Clone + Drop,
    S: DataMut<Elem = A>,
    Z: Data<Elem = A>,
    D: Dimension,
    T: StrideList,
    requires alike { D.lengths paired.now.dim ≡ D.lengths layout.now.dim }
    requires apart { KeepsApart (placement_of layout.now) }
    requires holds { HoldsShown S.stored storage.old layout.now }
    requires others_hold { HoldsShown Z.stored others.now paired.now }
    requires clones { ClonesOfAllAreEqual A.is_clone (shown Z.stored others.now paired.now) }
    ensures assigned { OnOk result (ShowsSame S.stored Z.stored storage.new layout.now others.now paired.now) }
    ensures stopped { OnErr result (ShowsOldOr S.stored Z.stored storage.old storage.new layout.now others.now paired.now) }
    ensures refused { OnErr result (MayLackShown Z.stored A.is_infallible others.now paired.now) }
    ensures holds { HoldsShown S.stored storage.new layout.now }
    ensures others { LeavesOthers S.stored layout.now storage.old storage.new }
    ensures frame { S.frame storage.new ≡ S.frame storage.old }
{
    if let Some((rows, other_rows)) = columns_as_rows(layout, paired) {
        return assign_in_order(storage, &rows, others, &other_rows);
    }
    if !is_worth_turning(layout, paired) {
        return assign_in_order(storage, layout, others, paired);
    }
    let (turned, other) = turned_alike(layout, paired);
    assign_in_halves(storage, &turned, others, &other)
}
