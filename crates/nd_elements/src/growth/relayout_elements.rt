//! Moving elements out of a vector in the order of a layout.

ghost use Rattle.std.specs.Prelude.{◌≡◌, ◌+◌, ◌<◌, ◌≤◌, ℕ, Some, IfOk, OnOk, OnErr, is_some, length, slice_get, vec_len, vec_capacity, ◌^◌, IsTrue};
ghost use Rattle.std.specs.Mem.Slots.{slots_len, SamePlaces};
ghost use Rattle.nd_shape_and_slice.specs.ShapesAndIndexOrders.{size_of};
ghost use Rattle.nd_shape_and_slice.specs.PlacesAndOverlaps.{IsSeparated};
ghost use Rattle.nd_layout.specs.NumberedPlacesAndWalks.{along, ranked};
ghost use Rattle.nd_layout.specs.LayoutStepsOfCalls.{placement_of};
ghost use Rattle.nd_elements.specs.StorageByLayout.{HoldsEach};
ghost use Rattle.nd_elements.specs.ElementsAtNumberedPlaces.{PlacesDiffer, Holds, all_elements_at};
ghost use Rattle.nd_elements.specs.BorrowedAndOwnedStorages.{stored_list};
ghost use Rattle.nd_elements.specs.growth.StorageReadyToGrow.{AreElementsRelaidOut, ShowsAlike};
ghost use Rattle.nd_elements.specs.growth.ElementsMovedOut.{seated, is_kept, AreAllKept, TakesSeats};

use crate::base::from_elem::repeated;
use crate::elements::fill::fill_places;
use crate::elements::to_vec::room_of;
use crate::storage::OwnedRepr;
use core::slots::{Slots, release, reserve};
use nd_layout::{Lane, Layout, Places};
use nd_shape_and_slice::{Dimension, NoMemory, StrideList};
use std::alloc::Global;
use std::mem;

/// Returns whether the element at `place` is kept: it is if its mark is true, or if it has no mark.
fn keeps(marks: &[bool], place: usize) -> bool
    ensures { result ≡ is_kept marks.now place }
{
    place >= marks.len() || marks[place]
}

/// Returns a mark for each of `items`, which is true if it lies at one of `places`. `size` is the number of places; if
/// there are as many items, returns no marks, which means that all are kept.
fn marks_of<A>(
    alloc: Global,
    items: &[A],
    places: Places<'_>,
    size: usize,
) -> Result<Vec<bool>, NoMemory>
    requires holds { Holds slice_get (ranked places) items.now }
    ensures kept { IfOk result (AreAllKept (ranked places.entry)) }
{
    if items.len() == size {
        return Ok(Vec::new(alloc));
    }
    let mut marks = OwnedRepr {
        items: repeated(alloc, false, items.len())?,
    };
    fill_places(&mut marks, places, &true)?;
    Ok(marks.items)
}

/// Moves `item` to the empty place `place` if `is_wanted`, and otherwise drops it.
#[inline(always)]
fn seat_if<A: Drop>(seats: &mut Slots<A>, place: usize, item: A, is_wanted: bool)
    requires { place < slots_len seats.old }
    ensures seated { IsTrue is_wanted → seated seats.new place ≡ Some item }
    ensures left { (p : ℕ) → ¬ (p ≡ place) → seated seats.new p ≡ seated seats.old p }
    ensures places { SamePlaces seats.old seats.new }
{
    if is_wanted {
        seats.put(place, item);
    }
}

/// Moves each item to the place of `seats` that has its position, or drops it if its mark says that it isn't kept.
fn seat_all<A: Drop>(items: Vec<A>, seats: Slots<A>, marks: &[bool]) -> Slots<A>
    requires { slots_len seats ≡ vec_len items }
    ensures seated { (p : ℕ) → IsTrue (is_kept marks.now p) → seated result p ≡ slice_get items.items p }
    ensures places { SamePlaces seats result }
{
    let mut items = items;
    let mut seats = seats;
    while let Some(item) = items.pop() {
        let place = items.len();
        seat_if(&mut seats, place, item, keeps(marks, place));
    }
    seats
}

/// Takes the element at `place` out of `seats`, and returns it.
#[inline(always)]
fn take_at<A>(seats: &mut Slots<A>, place: usize) -> A
    requires { IsTrue (is_some (seated seats.old place)) }
    ensures value { seated seats.old place ≡ Some result }
    ensures left { (p : ℕ) → ¬ (p ≡ place) → seated seats.new p ≡ seated seats.old p }
    ensures places { SamePlaces seats.old seats.new }
{
    seats.take(place)
}

/// Takes the elements along `lane` out of `seats`, and pushes them to `items`.
#[inline(always)]
fn take_lane<A>(items: &mut Vec<A>, seats: &mut Slots<A>, lane: Lane)
    requires apart { PlacesDiffer (along lane) }
    requires holds { Holds seated (along lane) seats.old }
    requires room { vec_len items.old + lane.count ≤ vec_capacity items.old }
    ensures taken { TakesSeats (along lane) seats.old seats.new items.old.items items.new.items }
    ensures places { SamePlaces seats.old seats.new }
    ensures len { vec_len items.new ≡ vec_len items.old + lane.count }
    ensures room { vec_capacity items.new ≡ vec_capacity items.old }
{
    for nth in 0..lane.count {
        items.push_reserved(take_at(seats, lane.place_of(nth)));
    }
}

/// Takes the elements at `places` out of `seats`, and pushes them to `items`, in row-major order of the indexes.
#[inline(always)]
fn take_all<A>(items: &mut Vec<A>, seats: &mut Slots<A>, places: Places<'_>)
    requires apart { PlacesDiffer (ranked places) }
    requires holds { Holds seated (ranked places) seats.old }
    requires room { vec_len items.old + (ranked places).count ≤ vec_capacity items.old }
    ensures taken { TakesSeats (ranked places.entry) seats.old seats.new items.old.items items.new.items }
    ensures places { SamePlaces seats.old seats.new }
    ensures len { vec_len items.new ≡ vec_len items.old + (ranked places.entry).count }
    ensures room { vec_capacity items.new ≡ vec_capacity items.old }
{
    let mut lanes = places.lanes();
    while let Some(lane) = lanes.next() {
        take_lane(items, seats, lane);
    }
}

/// Moves the items at `places`, in row-major order of the indexes, into a new vector of capacity `room`, and drops the
/// items at no place. `size` is the number of places. Allocates all memory first: if that fails with `NoMemory`, the
/// vector stays as it was.
fn move_in_order<A: Drop>(
    items: &mut Vec<A>,
    places: Places<'_>,
    size: usize,
    room: usize,
) -> Result<(), NoMemory>
    requires apart { PlacesDiffer (ranked places) }
    requires holds { Holds slice_get (ranked places) items.old.items }
    requires room { (ranked places).count ≤ room }
    ensures moved { OnOk result (items.new.items ≡ all_elements_at slice_get (ranked places.entry) items.old.items) }
    ensures len { OnOk result (vec_len items.new ≡ (ranked places.entry).count) }
    ensures room { OnOk result (vec_capacity items.new ≡ room) }
    ensures kept { OnErr result (items.new ≡ items.old) }
{
    let alloc = *items.allocator();
    let marks = marks_of(alloc, items.as_slice(), places, size)?;
    let mut moved = room_of(alloc, room)?;
    let (seats, lease) = unsafe { reserve(&alloc, items.as_slice()) }?;
    let old = mem::replace(items, Vec::new(alloc));
    let mut seats = seat_all(old, seats, marks.as_slice());
    take_all(&mut moved, &mut seats, places);
    release(&alloc, seats, lease);
    *items = moved;
    Ok(())
}

/// Moves the elements of `storage` into a new vector, in the order of a layout that can grow along `axis`, with
/// capacity for `more` elements, and makes that layout the new `layout`. Drops the elements that no index names. If
/// memory runs out, fails with `NoMemory`, and `storage` and `layout` stay as they were.
pub fn relayout_elements<A: Drop, D: Dimension>(
    storage: &mut OwnedRepr<A>,
    layout: &mut Layout<D, D::Strides>,
    axis: usize,
    more: usize,
) -> Result<(), NoMemory>
    requires axis { axis < length (D.lengths layout.old.dim) }
    requires some { 0 < size_of (D.lengths layout.old.dim) }
    requires fits { size_of (D.lengths layout.old.dim) + more < 2 ^ 64 }
    requires holds { HoldsEach (slice_get (stored_list storage.old)) (placement_of layout.old) }
    requires apart { IsSeparated (D.lengths layout.old.dim) (D.Strides.strides_of layout.old.strides) }
    ensures lengths { D.lengths layout.new.dim ≡ D.lengths layout.old.dim }
    ensures elements { ShowsAlike storage.old layout.old storage.new layout.new }
    ensures apart { IsSeparated (D.lengths layout.new.dim) (D.Strides.strides_of layout.new.strides) }
    ensures laid { OnOk result (AreElementsRelaidOut axis more layout.old layout.new storage.new) }
    ensures kept { OnErr result ((storage.new ≡ storage.old) × (layout.new ≡ layout.old)) }
{
    let order = layout.growing_order(axis);
    let fresh = Layout::growing(layout.dim, axis);
    let size = layout.dim.size();
    move_in_order(&mut storage.items, order.places(), size, size + more)?;
    *layout = fresh;
    Ok(())
}
