//! Exchanging the elements of two storages, which moves elements from one into the other.

ghost use Rattle.std.specs.Prelude.{◌≡◌, ◌<◌, ℕ, IsSome};
ghost use Rattle.nd_layout.specs.NumberedPlacesAndWalks.{along, ranked};
ghost use Rattle.nd_layout.specs.LayoutStepsOfCalls.{placement_of, KeepsApart};
ghost use Rattle.nd_elements.specs.StorageByLayout.{HoldsShown, LeavesOthers, ShowsSame};
ghost use Rattle.nd_elements.specs.ElementsAtNumberedPlaces.{Holds, PlacesDiffer};
ghost use Rattle.nd_elements.specs.elements.AssignedElements.{MovesAlong, Moves};

use crate::storage::DataMut;
use nd_layout::{
    Lane, Layout, Places, columns_as_rows, halved_alike, is_worth_turning, turned_alike,
};
use nd_shape_and_slice::{Dimension, StrideList};
use std::mem;

/// Exchanges the element of `storage` at `place` with the element of `others` at the place `other`.
fn exchange<A, S: DataMut<Elem = A>, Z: DataMut<Elem = A>>(
    storage: &mut S,
    place: usize,
    others: &mut Z,
    other: usize,
)
    requires holds { IsSome (S.stored storage.old place) }
    requires other_holds { IsSome (Z.stored others.old other) }
    ensures put { S.stored storage.new place ≡ Z.stored others.old other }
    ensures taken { Z.stored others.new other ≡ S.stored storage.old place }
    ensures left { (p : ℕ) → ¬ (p ≡ place) → S.stored storage.new p ≡ S.stored storage.old p }
    ensures other_left { (p : ℕ) → ¬ (p ≡ other) → Z.stored others.new p ≡ Z.stored others.old p }
    ensures frame { S.frame storage.new ≡ S.frame storage.old }
{
    mem::swap(storage.element_mut(place), others.element_mut(other));
}

/// Exchanges each element along `lane` of `storage` with the element that has the same position along `other_lane` of
/// `others`.
fn exchange_lane<A, S: DataMut<Elem = A>, Z: DataMut<Elem = A>>(
    storage: &mut S,
    lane: Lane,
    others: &mut Z,
    other_lane: Lane,
)
    requires as_long { other_lane.count ≡ lane.count }
    requires apart { PlacesDiffer (along lane) }
    requires others_apart { PlacesDiffer (along other_lane) }
    requires holds { Holds S.stored (along lane) storage.old }
    requires others_hold { Holds Z.stored (along other_lane) others.old }
    ensures moved { MovesAlong S.stored Z.stored lane other_lane others.old storage.old storage.new }
    ensures back { MovesAlong Z.stored S.stored other_lane lane storage.old others.old others.new }
    ensures frame { S.frame storage.new ≡ S.frame storage.old }
{
    for nth in 0..lane.count {
        exchange(
            storage,
            lane.place_of(nth),
            others,
            other_lane.place_of(nth),
        );
    }
}

/// Exchanges, for each index, the element of `storage` at the index's place under `places` with the element of `others`
/// at the index's place under `other_places`. Goes lane by lane.
fn exchange_lane_by_lane<A, S: DataMut<Elem = A>, Z: DataMut<Elem = A>>(
    storage: &mut S,
    places: Places<'_>,
    others: &mut Z,
    other_places: Places<'_>,
)
    requires alike { other_places.lengths.now ≡ places.lengths.now }
    requires apart { PlacesDiffer (ranked places) }
    requires others_apart { PlacesDiffer (ranked other_places) }
    requires holds { Holds S.stored (ranked places) storage.old }
    requires others_hold { Holds Z.stored (ranked other_places) others.old }
    ensures moved { Moves S.stored Z.stored places.entry other_places.entry others.old storage.old storage.new }
    ensures back { Moves Z.stored S.stored other_places.entry places.entry storage.old others.old others.new }
    ensures frame { S.frame storage.new ≡ S.frame storage.old }
{
    let mut ours = places.lanes();
    let mut theirs = other_places.lanes();
    while let Some(lane) = ours.next() {
        match theirs.next() {
            Some(aside) => exchange_lane(storage, lane, others, aside),
            None => unreachable!(),
        }
    }
}

/// Exchanges, for each index, the element of `storage` at the index's place under `places` with the element of `others`
/// at the index's place under `other_places`. If all places of each are one lane, goes along these two lanes; otherwise
/// goes lane by lane.
fn exchange_places<A, S: DataMut<Elem = A>, Z: DataMut<Elem = A>>(
    storage: &mut S,
    places: Places<'_>,
    others: &mut Z,
    other_places: Places<'_>,
)
    requires alike { other_places.lengths.now ≡ places.lengths.now }
    requires apart { PlacesDiffer (ranked places) }
    requires others_apart { PlacesDiffer (ranked other_places) }
    requires holds { Holds S.stored (ranked places) storage.old }
    requires others_hold { Holds Z.stored (ranked other_places) others.old }
    ensures moved { Moves S.stored Z.stored places.entry other_places.entry others.old storage.old storage.new }
    ensures back { Moves Z.stored S.stored other_places.entry places.entry storage.old others.old others.new }
    ensures frame { S.frame storage.new ≡ S.frame storage.old }
{
    if let Some((lane, aside)) = places.as_lanes(&other_places) {
        exchange_lane(storage, lane, others, aside);
        return;
    }
    exchange_lane_by_lane(storage, places, others, other_places);
}

/// Exchanges, at each index, the element of `storage` under `layout` with the element of `others` under `paired`, in
/// row-major order.
fn exchange_in_order<A, S, Z, D, T>(
    storage: &mut S,
    layout: &Layout<D, T>,
    others: &mut Z,
    paired: &Layout<D, T>,
)
where
    S: DataMut<Elem = A>,
    Z: DataMut<Elem = A>,
    D: Dimension,
    T: StrideList,
    requires alike { D.lengths paired.now.dim ≡ D.lengths layout.now.dim }
    requires apart { KeepsApart (placement_of layout.now) }
    requires others_apart { KeepsApart (placement_of paired.now) }
    requires holds { HoldsShown S.stored storage.old layout.now }
    requires others_hold { HoldsShown Z.stored others.old paired.now }
    ensures moved { ShowsSame S.stored Z.stored storage.new layout.now others.old paired.now }
    ensures holds { HoldsShown S.stored storage.new layout.now }
    ensures others { LeavesOthers S.stored layout.now storage.old storage.new }
    ensures others_left { LeavesOthers Z.stored paired.now others.old others.new }
    ensures frame { S.frame storage.new ≡ S.frame storage.old }
{
    exchange_places(storage, layout.places(), others, paired.places());
}

/// Exchanges, at each index, the element of `storage` under `layout` with the element of `others` under `paired`. If
/// long lanes would jump about in the memory of `others`, cuts both layouts in halves at the same index, and exchanges
/// the lower halves before the upper ones.
fn exchange_in_halves<A, S, Z, D, T>(
    storage: &mut S,
    layout: &Layout<D, T>,
    others: &mut Z,
    paired: &Layout<D, T>,
)
where
    S: DataMut<Elem = A>,
    Z: DataMut<Elem = A>,
    D: Dimension,
    T: StrideList,
    requires alike { D.lengths paired.now.dim ≡ D.lengths layout.now.dim }
    requires apart { KeepsApart (placement_of layout.now) }
    requires others_apart { KeepsApart (placement_of paired.now) }
    requires holds { HoldsShown S.stored storage.old layout.now }
    requires others_hold { HoldsShown Z.stored others.old paired.now }
    ensures moved { ShowsSame S.stored Z.stored storage.new layout.now others.old paired.now }
    ensures holds { HoldsShown S.stored storage.new layout.now }
    ensures others { LeavesOthers S.stored layout.now storage.old storage.new }
    ensures others_left { LeavesOthers Z.stored paired.now others.old others.new }
    ensures frame { S.frame storage.new ≡ S.frame storage.old }
{
    let Some(halves) = halved_alike(layout, paired) else {
        exchange_in_order(storage, layout, others, paired);
        return;
    };
    exchange_in_halves(storage, &halves.lower, others, &halves.lower_other);
    exchange_in_halves(storage, &halves.upper, others, &halves.upper_other);
}

/// Exchanges, at each index, the element of `storage` under `layout` with the element of `others` under `paired`, in an
/// order that goes along memory: column by column, if the places of both are consecutive so, or else, if that is worth
/// while, permutes the axes of both layouts in the same way, and cuts both in halves.
pub fn exchange_layouts<A, S, Z, D, T>(
    storage: &mut S,
    layout: &Layout<D, T>,
    others: &mut Z,
    paired: &Layout<D, T>,
)
where
    S: DataMut<Elem = A>,
    Z: DataMut<Elem = A>,
    D: Dimension,
    T: StrideList,
    requires alike { D.lengths paired.now.dim ≡ D.lengths layout.now.dim }
    requires apart { KeepsApart (placement_of layout.now) }
    requires others_apart { KeepsApart (placement_of paired.now) }
    requires holds { HoldsShown S.stored storage.old layout.now }
    requires others_hold { HoldsShown Z.stored others.old paired.now }
    ensures moved { ShowsSame S.stored Z.stored storage.new layout.now others.old paired.now }
    ensures holds { HoldsShown S.stored storage.new layout.now }
    ensures others { LeavesOthers S.stored layout.now storage.old storage.new }
    ensures others_left { LeavesOthers Z.stored paired.now others.old others.new }
    ensures frame { S.frame storage.new ≡ S.frame storage.old }
{
    if let Some((rows, other_rows)) = columns_as_rows(layout, paired) {
        exchange_in_order(storage, &rows, others, &other_rows);
        return;
    }
    if !is_worth_turning(layout, paired) {
        exchange_in_order(storage, layout, others, paired);
        return;
    }
    let (turned, other) = turned_alike(layout, paired);
    exchange_in_halves(storage, &turned, others, &other);
}
