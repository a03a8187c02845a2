//! A mutable borrow of elements as a region, whose elements are read, written, lent and divided by their places.

ghost use Rattle.std.specs.Prelude.{length, ◌*◌, ◌≡◌, ℕ, ◌<◌, ◌^◌, List, Bool, Option, Some, IsSome, IsTrue};
ghost use Rattle.std.specs.Option.{option_copied_mut};
ghost use Rattle.std.specs.Borrow.{sem};
ghost use Rattle.std.specs.List.{flat_map};
ghost use base.Fml.{GName};
ghost use Rattle.nd_region.specs.RegionMemory.{region, region_lent};
ghost use Rattle.nd_region.specs.RegionPlaces.{names, names_not};

use std::marker::{Model, PhantomData};
use std::{mem, slice};

/// A mutable borrow of elements, as a map from places to elements. A region ends when it goes out of scope; `end` ends
/// it earlier.
pub struct Region<'a, A> {
    pub(crate) ptr: *mut A,
    pub(crate) len: usize,
    pub(crate) mark: PhantomData<&'a mut A>,
    ghost name: { GName },
    ghost items: { List A },
    ghost held: { List Bool },
    ghost small: { len < 2 ^ 64 },
}

impl<'a, A> Model for Region<'a, A> {
    ghost also_owns = { λ r. region A.row 'a r.ptr r.len r.name r.items r.held };

    ghost also_shares = { λ r _ κ. region_lent A.row 'a r.ptr r.len r.items r.held κ };
}

impl<'a, A> Region<'a, A> {
    ghost use Rattle.nd_region.specs.Region.{region_stored, with_element, IsSameMap, IsWhole, IsPartWhere, HasPlaces, HasRun, IsRunOf, stored_if};
    ghost use Rattle.nd_region.specs.LenderAfterBorrow.{rows_follow, slice_follows, place_follows, parts_follow, region_follows, borrow_follows, borrow_may_follow, borrow_part_follows, run_follows, borrow_run_follows, keeps_elements};

    /// Returns the region of all elements of `slice`. The place of each is its position in the slice.
    pub fn from_slice(slice: &'a mut [A]) -> Region<'a, A>
        ensures* follows { sem 𝓛 (slice_follows A.row slice.entry result) }
        ensures whole { IsWhole result slice.old }
    {
        Self {
            ptr: slice.as_mut_ptr(),
            len: slice.len(),
            mark: PhantomData,
        }
    }

    /// Returns the region of all elements of `rows`, one row after another. Each row has `N` elements.
    pub fn from_rows<const N: usize>(rows: &'a mut [[A; N]]) -> Region<'a, A>
        requires { length rows.old * N < 2 ^ 63 }
        ensures* follows { sem 𝓛 (rows_follow A.row N rows.entry result) }
        ensures whole { IsWhole result (flat_map (λ row. row) rows.old) }
    {
        let len = rows.len() * N;
        Self {
            ptr: rows.as_mut_ptr() as *mut A,
            len,
            mark: PhantomData,
        }
    }

    /// Returns the element at `place`.
    pub fn get(&self, place: usize) -> &A
        requires { IsSome (region_stored self.now place) }
        ensures { region_stored self.now place ≡ Some result.now }
    {
        unsafe { &*self.ptr.add(place) }
    }

    /// Returns a mutable reference to the element at `place`.
    pub fn get_mut(&mut self, place: usize) -> &mut A
        requires { IsSome (region_stored self.old place) }
        ensures* writes_back { sem 𝓛 (place_follows A.row self.entry place result) }
        ensures value { region_stored self.old place ≡ Some result.now }
    {
        unsafe { &mut *self.ptr.add(place) }
    }

    /// Writes `value` at `place`, and returns the element that was there.
    pub fn replace(&mut self, place: usize, value: A) -> A
        requires { IsSome (region_stored self.old place) }
        ensures old { region_stored self.old place ≡ Some result }
        ensures new { self.new ≡ with_element self.old place value }
    {
        mem::replace(self.get_mut(place), value)
    }

    /// Writes `value` at `place`, and drops the element that was there.
    pub fn set(&mut self, place: usize, value: A)
    where
        A: Drop,
        requires { IsSome (region_stored self.old place) }
        ensures { self.new ≡ with_element self.old place value }
    {
        *self.get_mut(place) = value;
    }

    /// Moves the elements at the places that the layout of `offset`, `lengths` and `strides` names into a region of
    /// their own. Each keeps its place.
    pub fn split(&mut self, offset: usize, lengths: &[usize], strides: &[isize]) -> Region<'a, A>
        requires as_many { length lengths.now ≡ length strides.now }
        requires within { HasPlaces self.old offset lengths.now strides.now }
        ensures* follows { sem 𝓛 (parts_follow A.row self.old result self.new) }
        ensures taken { IsPartWhere (names offset lengths.now strides.now) self.old result }
        ensures left { IsPartWhere (names_not offset lengths.now strides.now) self.old self.new }
    {
        Self {
            ptr: self.ptr,
            len: self.len,
            mark: PhantomData,
        }
    }

    /// Borrows the region, with all its places, for a shorter lifetime.
    pub fn reborrow(&mut self) -> Region<'_, A>
        ensures* follows { sem 𝓛 (region_follows A.row self.entry result) }
        ensures same { IsSameMap self.old result }
    {
        Region {
            ptr: self.ptr,
            len: self.len,
            mark: PhantomData,
        }
    }

    /// Returns the same region with a shorter lifetime.
    pub fn shortened<'b>(self) -> Region<'b, A>
    where
        'a: 'b,
        ensures { result ≡ self.entry }
    {
        self
    }

    /// Returns the part of the region with the places that the layout of `offset`, `lengths` and `strides` names, for
    /// the region's whole lifetime. Each element keeps its place, and the elements at the other places stay as they
    /// are.
    pub fn into_part(self, offset: usize, lengths: &[usize], strides: &[isize]) -> Region<'a, A>
        requires as_many { length lengths.now ≡ length strides.now }
        requires within { HasPlaces self offset lengths.now strides.now }
        ensures* follows { sem 𝓛 (borrow_part_follows A.row self.entry (names offset lengths.now strides.now) result) }
        ensures taken { IsPartWhere (names offset lengths.now strides.now) self.entry result }
    {
        self
    }

    /// Returns a mutable reference to the element at `place`, for the region's whole lifetime. The elements at the
    /// other places stay as they are.
    pub fn into_mut(self, place: usize) -> &'a mut A
        requires { IsSome (region_stored self place) }
        ensures* writes_back { sem 𝓛 (borrow_follows A.row self.entry place result) }
        ensures value { region_stored self.entry place ≡ Some result.now }
    {
        let Region {
            ptr,
            len: _,
            mark: _,
        } = self;
        unsafe { &mut *ptr.add(place) }
    }

    /// Returns a mutable reference to the element at `place`, for the region's whole lifetime, if `asked` is true, and
    /// otherwise ends the region and returns `None`. All elements to which no reference is returned stay as they are.
    pub fn into_mut_if(self, place: usize, asked: bool) -> Option<&'a mut A>
        requires { IsTrue asked → IsSome (region_stored self place) }
        ensures* writes_back { sem 𝓛 (borrow_may_follow A.row self.entry place result) }
        ensures value { option_copied_mut result ≡ stored_if asked (region_stored self.entry place) }
    {
        let Region {
            ptr,
            len: _,
            mark: _,
        } = self;
        if !asked {
            return None;
        }
        Some(unsafe { &mut *ptr.add(place) })
    }

    /// Returns the `count` elements from `place` on as a slice.
    pub fn run(&self, place: usize, count: usize) -> &[A]
        requires { HasRun self.now place count }
        ensures { IsRunOf self.now place count result.now }
    {
        let start = if count == 0 { 0 } else { place };
        unsafe { slice::from_raw_parts(self.ptr.add(start), count) }
    }

    /// Returns the `count` elements from `place` on as a mutable slice.
    pub fn run_mut(&mut self, place: usize, count: usize) -> &mut [A]
        requires { HasRun self.old place count }
        ensures* writes_back { sem 𝓛 (run_follows A.row self.entry place count result) }
        ensures values { IsRunOf self.old place count result.now }
    {
        let start = if count == 0 { 0 } else { place };
        unsafe { slice::from_raw_parts_mut(self.ptr.add(start), count) }
    }

    /// Returns the `count` elements from `place` on as a mutable slice, for the region's whole lifetime. The elements
    /// at the other places stay as they are.
    pub fn into_run(self, place: usize, count: usize) -> &'a mut [A]
        requires { HasRun self place count }
        ensures* writes_back { sem 𝓛 (borrow_run_follows A.row self.entry place count result) }
        ensures values { IsRunOf self.entry place count result.now }
    {
        let Region {
            ptr,
            len: _,
            mark: _,
        } = self;
        let start = if count == 0 { 0 } else { place };
        unsafe { slice::from_raw_parts_mut(ptr.add(start), count) }
    }

    /// Ends the region. Each place keeps its element.
    pub fn end(self)
        ensures* { sem 𝓛 (keeps_elements A.row self.entry) }
    {
        let Self {
            ptr: _,
            len: _,
            mark: _,
        } = self;
    }
}

/// Ends the region, whose places keep their elements.
impl<A> Drop for Region<'_, A> {
    ghost use Rattle.nd_region.specs.LenderAfterBorrow.{keeps_elements};

    fn drop(self)
        ensures* { sem 𝓛 (keeps_elements A.row self.entry) }
    {
        let Region::<'_, A> {
            ptr: _,
            len: _,
            mark: _,
        } = self;
    }
}
