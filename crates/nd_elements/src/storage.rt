//! The storages of arrays: an owned vector, or borrowed elements, which may be read only or read and written.

ghost use Rattle.std.specs.Prelude.{◌≡◌, ◌+◌, ◌*◌, ◌<◌, ◌≤◌, ◌^◌, ⊤, ℕ, length, Bool, true, false, List, [], Option, IsSome, Some, IfOk, IfErr, IfSome, OnErr, is_ok, slice_get, slice_range, refl, vec_capacity, IsTrue};
ghost use Rattle.std.specs.Borrow.{sem};
ghost use Rattle.std.specs.List.{flat_map};
ghost use Rattle.std.specs.Option.{is_some};
ghost use Rattle.std.specs.Vec.{with_item, with_items};
ghost use Rattle.nd_elements.specs.StorageFrame.{StorageFrame, Owned, Borrowed};
ghost use Rattle.nd_layout.specs.NumberedPlacesAndWalks.{placement_in};
ghost use Rattle.nd_region.specs.SharedRegion.{shared_stored};
ghost use Rattle.nd_region.specs.RegionPlaces.{overwritten_items, run_written};
ghost use Rattle.nd_region.specs.Region.{region_stored, borrow_of, elements_of, with_element as region_with, with_items as region_items, with_run as region_with_run, IsAsLong};
ghost use Rattle.nd_elements.specs.StorageByLayout.{HoldsEach, HoldsShown, ShowsNamed, ShowsUnnamed};
ghost use Rattle.nd_elements.specs.StoragePlaces.{written_at, swapped_at};
ghost use Rattle.nd_elements.specs.ScopedStorageCalls.{TakesNamed, GivesNamedBack, IsStoredReturned, MayLendPart, IsPartGivenBack};
ghost use Rattle.nd_elements.specs.BorrowedAndOwnedStorages.{held_by, shown_by, stored_list, room_of, ShowsItems};
ghost use Rattle.nd_elements.specs.ElementBorrowEnds.{place_ends, KeepsPlaces, item_kept, item_written, place_kept, place_written};
ghost use Rattle.nd_elements.specs.OverwrittenStorageElements.{overwritten_itself, overwritten_again, places_there, places_kept, items_there, items_kept, items_itself, items_again, items_put, items_outside, places_put, places_outside};
ghost use Rattle.nd_elements.specs.StorageLaws.{WritesOneElement, HoldsWrittenRun, KeepsOutsideRun, HoldsLastRefill, HasRefilledItems, KeepsUnfilledPlaces, HoldsWhereBefore};
ghost use Rattle.nd_elements.specs.RunBorrowEnds.{run_ends, region_ends, run_start, HasRunAt, IsRunAt, HasItemsAt, places_run, places_outside_run, items_run, items_outside_run};
ghost use Rattle.nd_elements.specs.OwnedStorageAfterBorrow.{written_from};
ghost use Rattle.nd_elements.specs.EqualClones.{StoredClonesAreEqual};

use nd_layout::{Layout, Places};
use nd_region::{Region, SharedRegion, with_region};
use nd_shape_and_slice::{Dimension, StrideList};
use std::alloc::AllocError;
use std::mem;
use std::snapshot::Snapshot;

/// A storage of elements. Each element lies at a place, which is a number counted from 0. This is ndarray's `Data`.
pub trait Data {
    /// The type of the elements. This is ndarray's `RawData::Elem`.
    type Elem;

    /// The element at a place, or `None` if the storage has no element there.
    ghost stored: { Self → ℕ → Option Self.Elem };
    /// Whether an array over this storage must give each of its indexes a place of its own.
    ghost exclusive: { Bool };
    /// Whether the storage owns its elements.
    ghost owned: { Bool };
    /// The storage after another element was put at a place; a storage that can't be written stays as it is. Each place
    /// that had an element before still has one.
    ghost with_element: { (s : Self) → ℕ → Self.Elem → (t : Self) × KeepsPlaces (stored s) (stored t) };

    /// The storage after the elements of a list were put at consecutive places, whose first and whose number are given;
    /// a storage that can't be written stays as it is. Each place that had an element before still has one.
    ghost with_run: { (s : Self) → ℕ → ℕ → List Self.Elem → (t : Self) × KeepsPlaces (stored s) (stored t) };

    /// All elements in the order of their places, including those that no index of the array names.
    ghost items: { Self → List Self.Elem };
    /// The number of elements that the storage can own without allocating memory. It is 0 for a borrow.
    ghost room: { Self → ℕ };
    /// The storage after its elements were exchanged for those of a list; a storage that can't be written stays as it
    /// is. Each place that had an element before still has one.
    ghost refilled: { (s : Self) → List Self.Elem → (t : Self) × KeepsPlaces (stored s) (stored t) };

    /// Returns the element at `place`.
    fn element(&self, place: usize) -> &Self::Elem
        requires { IsSome (stored self.now place) }
        ensures { stored self.now place ≡ Some result.now };

    /// Returns the storage's elements as a read-only borrow; each keeps its place.
    #[inline]
    fn borrowed(&self) -> ViewRepr<'_, Self::Elem>
        ensures { (place : ℕ) → shown_by result place ≡ stored self.now place };

    /// Returns the vector of elements if the storage owns them, and otherwise `Err` with the unchanged storage.
    fn into_items(self) -> Result<Vec<Self::Elem>, Self>
        ensures owned { is_ok result ≡ owned }
        ensures alone { IfOk result (λ _. IsTrue exclusive) }
        ensures items { IfOk result (λ v. v.items ≡ items self) }
        ensures room { IfOk result (λ v. vec_capacity v ≡ room self) }
        ensures elements { IfOk result (λ v. (place : ℕ) → slice_get v.items place ≡ stored self place) }
        ensures kept { IfErr result (λ s. s ≡ self) };
}

/// Elements in a vector that the array owns. This is ndarray's `OwnedRepr`.
#[derive(Drop)]
pub struct OwnedRepr<A> {
    pub items: Vec<A>,
}

impl<A> OwnedRepr<A> {
    ghost use Rattle.std.specs.Borrow.{sem};
    ghost use Rattle.nd_elements.specs.OwnedStorageAfterBorrow.{items_follow, vec_run_follows};

    /// Returns all elements as a mutable slice.
    pub(crate) fn items_mut(&mut self) -> &mut [A]
        ensures* writes_back { sem 𝓛 (items_follow A.row self.entry result) }
        ensures value { result.now ≡ self.old.items.items }
    {
        self.items.as_mut_slice()
    }

    /// Returns the `count` elements from place `first` on as a mutable slice.
    pub(crate) fn run_mut(&mut self, first: usize, count: usize) -> &mut [A]
        requires { first + count ≤ length self.old.items.items }
        ensures* writes_back { sem 𝓛 (vec_run_follows A.row self.entry first result) }
        ensures value { result.now ≡ slice_range self.old.items.items first (first + count) }
        ensures count { length result.now ≡ count }
    {
        self.items.slice_mut(first..first + count)
    }
}

/// Returns `place`, or 0 if `count` is 0: a run of no elements may be given with any `place`.
fn start_of_run(place: usize, count: usize) -> usize
    ensures { result ≡ run_start place count }
{
    if count == 0 { 0 } else { place }
}

/// Borrowed elements that may be read. This is ndarray's `ViewRepr<&'a A>`.
pub struct ViewRepr<'a, A> {
    pub region: SharedRegion<'a, A>,
}

impl<'a, A> ViewRepr<'a, A> {
    /// Borrows all elements of a slice; each element's place is its position in the slice.
    pub fn of_slice(items: &'a [A]) -> Self
        ensures { ShowsItems result items.now }
    {
        ViewRepr {
            region: SharedRegion::from_slice(items),
        }
    }

    /// Borrows all elements of a slice of rows of `N` elements each, one row after another.
    pub fn of_rows<const N: usize>(rows: &'a [[A; N]]) -> Self
        requires { length rows.now * N < 2 ^ 63 }
        ensures elements { ShowsItems result (flat_map (λ row. row) rows.now) }
        ensures count { length (flat_map (λ row. row) rows.now) ≡ length rows.now * N }
    {
        ViewRepr::of_slice(rows.as_flattened())
    }
}

impl<'a, A> Clone for ViewRepr<'a, A> {
    ghost is_clone = { λ view copy. copy ≡ view };

    ghost is_infallible = { λ _. ⊤ };

    fn clone(&self) -> Result<Self, AllocError> {
        Ok(ViewRepr {
            region: self.region,
        })
    }
}

impl<'a, A> Copy for ViewRepr<'a, A> {}

impl<A> Data for OwnedRepr<A> {
    type Elem = A;

    ghost stored = { λ s place. slice_get s.items.items place };

    ghost exclusive = { true };

    ghost owned = { true };

    ghost with_element = { λ s place x. (record { items = with_item s.items place x }, item_kept s.items.items place x) };

    ghost with_run = { λ s place count ws. (record { items = with_items s.items (written_from s.items.items (run_start place count) ws) }, items_kept s.items (written_from s.items.items (run_start place count) ws)) };

    ghost items = { λ s. s.items.items };

    ghost room = { λ s. room_of s };

    ghost refilled = { λ s ws. (record { items = with_items s.items ws }, items_kept s.items ws) };

    fn element(&self, place: usize) -> &A {
        &self.items[place]
    }

    #[inline]
    fn borrowed(&self) -> ViewRepr<'_, A> {
        ViewRepr::of_slice(self.items.as_slice())
    }

    fn into_items(self) -> Result<Vec<A>, Self> {
        Ok(self.items)
    }
}

impl<'a, A> Data for ViewRepr<'a, A> {
    type Elem = A;

    ghost stored = { λ s place. shared_stored s.region place };

    ghost exclusive = { false };

    ghost owned = { false };

    ghost with_element = { λ s _ _. (s, λ p has. has) };

    ghost with_run = { λ s _ _ _. (s, λ p has. has) };

    ghost items = { λ _. [] };

    ghost room = { λ _. 0 };

    ghost refilled = { λ s _. (s, λ p has. has) };

    fn element(&self, place: usize) -> &A {
        let region = self.region;
        region.get(place)
    }

    #[inline]
    fn borrowed(&self) -> ViewRepr<'_, A> {
        ViewRepr {
            region: self.region.reborrowed(),
        }
    }

    fn into_items(self) -> Result<Vec<A>, Self> {
        Err(self)
    }
}

/// Elements in a region. The region's type is a parameter of the struct, so that a borrow of the field needs no proof
/// by hand.
#[derive(Drop)]
pub struct RegionRepr<R> {
    pub region: R,
    /// A name that the contract of the array that lends the region refers to. It takes no memory.
    pub tie: Snapshot<usize>,
}

/// Borrowed elements that may be read and written. This is ndarray's `ViewRepr<&'a mut A>`.
pub type ViewMutRepr<'a, A> = RegionRepr<Region<'a, A>>;

impl<'a, A> ViewMutRepr<'a, A> {
    /// Wraps a region as a storage.
    pub fn of_region(region: Region<'a, A>) -> Self
        ensures { result.region ≡ region.entry }
    {
        RegionRepr {
            region,
            tie: Snapshot::of(&0),
        }
    }

    /// Moves the elements that `layout` names out of this storage, and returns them as a storage of their own. Each
    /// keeps its place.
    pub fn split<D: Dimension, T: StrideList>(&mut self, layout: &Layout<D, T>) -> Self
        requires { HoldsShown held_by self.old layout.now }
        ensures taken { ShowsNamed held_by layout.now self.old result }
        ensures left { ShowsUnnamed held_by layout.now self.old self.new }
    {
        RegionRepr {
            region: self
                .region
                .split(layout.offset, layout.dim.slice(), layout.strides.slice()),
            tie: Snapshot::of(&0),
        }
    }
}

impl<R> RegionRepr<R> {
    ghost use Rattle.nd_elements.specs.RegionBorrowEnds.{lends_region};

    fn region_mut(&mut self) -> &mut R
        ensures* writes_back { sem 𝓛 (lends_region R.row self.entry result) }
        ensures value { result.now ≡ self.old.region }
    {
        &mut self.region
    }
}

impl<'a, A> Data for ViewMutRepr<'a, A> {
    type Elem = A;

    ghost stored = { λ s place. region_stored s.region place };

    ghost exclusive = { true };

    ghost owned = { false };

    ghost with_element = { λ s place x. (record { region = region_with s.region place x; tie = s.tie }, place_kept s.region.items s.region.held place x) };

    ghost with_run = { λ s place count ws. (record { region = region_with_run s.region place count ws; tie = s.tie }, places_kept s.region.items (run_written s.region.items place count ws) s.region.held) };

    ghost items = { λ s. s.region.items };

    ghost room = { λ _. 0 };

    ghost refilled = { λ s ws. (record { region = region_items s.region (overwritten_items s.region.items ws); tie = s.tie }, places_kept s.region.items ws s.region.held) };

    fn element(&self, place: usize) -> &A {
        self.region.get(place)
    }

    #[inline]
    fn borrowed(&self) -> ViewRepr<'_, A> {
        ViewRepr {
            region: self.region.share(),
        }
    }

    fn into_items(self) -> Result<Vec<A>, Self> {
        Err(self)
    }
}

/// A storage whose elements may be written. This is ndarray's `DataMut`.
pub trait DataMut: Data {
    /// What stays the same while elements are written: for owned elements their number and the vector's capacity, for
    /// borrowed elements the borrow that they come from and their places.
    ghost frame: { Self → StorageFrame };

    /// Writes `value` at `place`, and returns the element that was there.
    fn replace(&mut self, place: usize, value: Self::Elem) -> Self::Elem
        requires { IsSome (Self.stored self.old place) }
        ensures old { Self.stored self.old place ≡ Some result }
        ensures new { (p : ℕ) → Self.stored self.new p ≡ written_at (Self.stored self.old) place value p }
        ensures frame { frame self.new ≡ frame self.old };

    /// Returns a mutable reference to the element at `place`.
    fn element_mut(&mut self, place: usize) -> &mut Self::Elem
        requires { IsSome (Self.stored self.old place) }
        ensures* writes_back { sem 𝓛 (place_ends Self.row Self.Elem.row self.entry result (Self.with_element self.old place)) }
        ensures value { Self.stored self.old place ≡ Some result.now };

    /// Returns the `count` elements from `place` on as a mutable slice. If `count` is 0, `place` may be any number.
    fn lend_run(&mut self, place: usize, count: usize) -> &mut [Self::Elem]
        requires { HasRunAt (Self.stored self.old) place count }
        ensures* writes_back { sem 𝓛 (run_ends Self.row Self.Elem.row self.entry result (Self.with_run self.old place count)) }
        ensures values { IsRunAt (Self.stored self.old) place count result.now };

    /// Lends all elements as a region, which ends before the storage is used again. Each keeps its place.
    fn lend(&mut self) -> Region<'_, Self::Elem>
        ensures* writes_back { sem 𝓛 (region_ends Self.row Self.Elem.row self.entry result (Self.refilled self.old)) }
        ensures places { (place : ℕ) → region_stored result place ≡ Self.stored self.old place }
        ensures items { elements_of result ≡ Self.items self.old };

    /// Exchanges the elements at the places `p` and `q`.
    fn swap(&mut self, p: usize, q: usize)
        requires p { IsSome (Self.stored self.old p) }
        requires q { IsSome (Self.stored self.old q) }
        ensures new { (r : ℕ) → Self.stored self.new r ≡ swapped_at (Self.stored self.old) p q r }
        ensures frame { frame self.new ≡ frame self.old };

    /// Calls `f` with a region of the elements at `places`, and returns what `f` returns beside the region. Afterwards
    /// each of these places holds the element that `f` left there, and every other place holds what it held before. By
    /// the condition `returns`, `f` must give back the region that it was given.
    fn with_part<R, F: for<'b> FnOnce(Region<'b, Self::Elem>) -> (Region<'b, Self::Elem>, R)>(
        &mut self,
        places: Places<'_>,
        f: F,
    ) -> R
        requires holds { HoldsEach (Self.stored self.old) (placement_in places) }
        requires callable { TakesNamed (F.pre f) (Self.stored self.old) (placement_in places) }
        requires returns { GivesNamedBack (F.post f) (Self.stored self.old) (placement_in places) }
        ensures part { IsStoredReturned (F.post f) Self.stored self.old self.new (placement_in places.entry) result }
        ensures there { (p : ℕ) → is_some (Self.stored self.new p) ≡ is_some (Self.stored self.old p) }
        ensures frame { frame self.new ≡ frame self.old };

    /// A law: an array over this storage gives each of its indexes a place of its own.
    ghost alone: { IsTrue Self.Data.exclusive };

    /// A law: writing at one place leaves every other place as it was.
    ghost element_written: { WritesOneElement Self.Data.stored Self.Data.with_element };

    /// A law: writing at one place leaves `frame` as it was.
    ghost element_frame: { (s : Self) (place : ℕ) (x : Self.Elem) → frame (Self.Data.with_element s place x).0 ≡ frame s };

    /// A law: after `with_run` the consecutive places hold the elements of the list.
    ghost run_written: { HoldsWrittenRun Self.Data.stored Self.Data.with_run };

    /// A law: after `with_run` every other place holds what it held before.
    ghost run_left: { KeepsOutsideRun Self.Data.stored Self.Data.with_run };

    /// A law: `with_run` leaves `frame` as it was.
    ghost run_frame: { (s : Self) (place count : ℕ) (ws : List Self.Elem) → frame (Self.Data.with_run s place count ws).0 ≡ frame s };

    /// A law: `refilled` with the storage's own elements leaves the storage as it was.
    ghost refilled_itself: { (s : Self) → (Self.Data.refilled s (Self.Data.items s)).0 ≡ s };

    /// A law: after `refilled` is done twice, the storage holds the elements of the second list.
    ghost refilled_again: { HoldsLastRefill Self.Data.stored Self.Data.refilled Self.Data.items };

    /// A law: after `refilled` with a list that has as many elements as the storage, `items` is that list.
    ghost refilled_items: { HasRefilledItems Self.Data.stored Self.Data.refilled Self.Data.items };

    /// A law: if `refilled` changes only the elements at places that pass a test, every other place holds what it held
    /// before.
    ghost refilled_elsewhere: { KeepsUnfilledPlaces Self.Data.stored Self.Data.refilled Self.Data.items };

    /// A law: after `refilled` the storage has elements at exactly the places where it had some before.
    ghost refilled_there: { HoldsWhereBefore Self.Data.stored Self.Data.refilled };

    /// A law: `refilled` leaves `frame` as it was.
    ghost refilled_frame: { (s : Self) (ws : List Self.Elem) → frame (Self.Data.refilled s ws).0 ≡ frame s };
}

/// A storage that owns its elements. This is ndarray's `DataOwned`.
pub trait DataOwned: Data {
    /// A law: the storage owns its elements.
    ghost owns: { IsTrue Self.Data.owned };
}

impl<A> DataOwned for OwnedRepr<A> {
    ghost owns = { refl };
}

impl<A> DataMut for OwnedRepr<A> {
    ghost frame = { λ s. Owned s.items.len s.items.cap };

    ghost alone = { refl };

    ghost element_written = { λ s place x p has. item_written s.items.items place p x has };

    ghost element_frame = { λ s place x. refl };

    ghost run_written = { λ s place count ws holds long k below. items_run s.items place count ws holds long k below };

    ghost run_left = { λ s place count ws holds long p outside. items_outside_run s.items place count ws holds long p outside };

    ghost run_frame = { λ s place count ws. refl };

    ghost refilled_itself = { λ s k. record { items = items_itself s.items k } };

    ghost refilled_again = { λ s ws k. record { items = items_again s.items ws k } };

    ghost refilled_items = { λ s ws long. items_put s.items ws long };

    ghost refilled_elsewhere = { λ s test ws p other. items_outside s.items test ws p other };

    ghost refilled_there = { λ s ws p. items_there s.items ws p };

    ghost refilled_frame = { λ s ws. refl };

    fn element_mut(&mut self, place: usize) -> &mut A {
        &mut self.items[place]
    }

    fn lend_run(&mut self, place: usize, count: usize) -> &mut [A] {
        self.run_mut(start_of_run(place, count), count)
    }

    fn lend(&mut self) -> Region<'_, A> {
        Region::from_slice(self.items_mut())
    }

    fn replace(&mut self, place: usize, value: A) -> A {
        mem::replace(&mut self.items[place], value)
    }

    fn swap(&mut self, p: usize, q: usize) {
        self.items.as_mut_slice().swap(p, q);
    }

    fn with_part<R, F: for<'b> FnOnce(Region<'b, A>) -> (Region<'b, A>, R)>(
        &mut self,
        places: Places<'_>,
        f: F,
    ) -> R {
        part_of_slice(self.items.as_mut_slice(), places, f)
    }
}

impl<'a, A> DataMut for ViewMutRepr<'a, A> {
    ghost frame = { λ s. Borrowed (borrow_of s.region) };

    ghost alone = { refl };

    ghost element_written = { λ s place x p has. place_written s.region.items s.region.held place p x has };

    ghost element_frame = { λ s place x. refl };

    ghost run_written = { λ s place count ws holds long k below. places_run s.region.items s.region.held place count ws holds long k below };

    ghost run_left = { λ s place count ws holds long p outside. places_outside_run s.region.items s.region.held place count ws holds long p outside };

    ghost run_frame = { λ s place count ws. refl };

    ghost refilled_itself = { λ s k. record { region = region_items s.region (overwritten_itself s.region.items k); tie = s.tie } };

    ghost refilled_again = { λ s ws k. record { region = region_items s.region (overwritten_again s.region.items ws k); tie = s.tie } };

    ghost refilled_items = { λ s ws long. places_put s.region.items ws long };

    ghost refilled_elsewhere = { λ s test ws p other. places_outside s.region.items s.region.held test ws p other };

    ghost refilled_there = { λ s ws p. places_there s.region.items ws s.region.held p };

    ghost refilled_frame = { λ s ws. refl };

    fn lend(&mut self) -> Region<'_, A> {
        self.region.reborrow()
    }

    fn element_mut(&mut self, place: usize) -> &mut A {
        let region = self.region_mut();
        region.get_mut(place)
    }

    fn lend_run(&mut self, place: usize, count: usize) -> &mut [A] {
        let region = self.region_mut();
        region.run_mut(place, count)
    }

    fn replace(&mut self, place: usize, value: A) -> A {
        self.region.replace(place, value)
    }

    fn swap(&mut self, p: usize, q: usize) {
        self.region.swap(p, q);
    }

    fn with_part<R, F: for<'b> FnOnce(Region<'b, A>) -> (Region<'b, A>, R)>(
        &mut self,
        places: Places<'_>,
        f: F,
    ) -> R {
        self.region
            .with_part(places.first, places.lengths, places.strides, f)
    }
}

/// Calls `f` with a region of the elements of `items` at `places`, and returns what `f` returns beside the region. The
/// elements that `f` leaves in the region are in `items` afterwards.
pub fn part_of_slice<A, R, F: for<'b> FnOnce(Region<'b, A>) -> (Region<'b, A>, R)>(
    items: &mut [A],
    places: Places<'_>,
    f: F,
) -> R
    requires holds { HoldsEach (slice_get items.old) (placement_in places) }
    requires callable { TakesNamed (F.pre f) (slice_get items.old) (placement_in places) }
    requires returns { GivesNamedBack (F.post f) (slice_get items.old) (placement_in places) }
    ensures part { IsStoredReturned (F.post f) slice_get items.old items.new (placement_in places.entry) result }
    ensures long { length items.new ≡ length items.old }
{
    with_region(
        items,
        |region|
            requires { MayLendPart (F.pre f) (F.post f) (placement_in places) region }
            ensures part { IsPartGivenBack (F.post f) (placement_in places.entry) region.entry result.0 result.1 }
            ensures same { borrow_of result.0 ≡ borrow_of region.entry }
            ensures long { IsAsLong region.entry result.0 }
        {
            // `places` is used as a whole here, because the clauses name it.
            let at = places;
            let mut region = region;
            let answer = region.with_part(at.first, at.lengths, at.strides, f);
            (region, answer)
        },
    )
}

/// Returns a storage with a clone of each element. Fails if memory runs out.
#[tactic(auto, using(crate::proofs::elements_lemmas::ListsOfEqualClones::clones_same))]
pub fn cloned_storage<A: Clone>(storage: &OwnedRepr<A>) -> Result<OwnedRepr<A>, AllocError>
    requires { StoredClonesAreEqual A.is_clone (stored_list storage.now) }
    ensures stored { IfOk result (λ copy. stored_list copy ≡ stored_list storage.now) }
    ensures refused { OnErr result (0 < length (stored_list storage.now)) }
{
    match storage.items.clone() {
        Ok(items) => Ok(OwnedRepr { items }),
        Err(_) if storage.items.as_slice().is_empty() => Ok(OwnedRepr {
            items: Vec::new(*storage.items.allocator()),
        }),
        Err(refused) => Err(refused),
    }
}

impl<'a, A> ViewRepr<'a, A> {
    /// Returns the `count` elements from place `first` on as a slice.
    pub fn run(self, first: usize, count: usize) -> &'a [A]
        requires { HasRunAt (shown_by self) first count }
        ensures count { length result.now ≡ count }
        ensures elements { HasItemsAt (shown_by self.entry) first count result.now }
    {
        self.region.run(first, count)
    }

    /// Returns the same elements with the same places if they are borrowed as one slice, and otherwise `None`. A loop
    /// over the result needs no test at each element of how the elements are borrowed.
    #[inline(always)]
    pub fn of_one_slice(self) -> Option<ViewRepr<'a, A>>
        ensures { IfSome result (λ slice. (place : ℕ) → shown_by slice place ≡ shown_by self.entry place) }
    {
        match self.region {
            SharedRegion::Whole(slice) => Some(ViewRepr {
                region: SharedRegion::Whole(slice),
            }),
            SharedRegion::Part(_) => None,
        }
    }
}
