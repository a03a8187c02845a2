//! A shared borrow of elements, as a map from places to elements.
ghost use Rattle.std.specs.Prelude.{◌*◌, ◌^◌, ◌≡◌, ◌<◌, ◌≤◌, ◌+◌, length, take, drop, [], nat_eq, if◌then◌else◌, Some, IsSome, ⊤};
ghost use Rattle.std.specs.List.{flat_map};

use crate::divided_mutable_borrow::Region;
use std::alloc::AllocError;

/// A shared borrow of elements, as a map from places to elements. It borrows a region or a slice.
pub enum SharedRegion<'a, A> {
    /// A borrow of a region, with the region's places.
    Part(&'a Region<'a, A>),
    /// A borrow of a slice, with all positions of the slice as places.
    Whole(&'a [A]),
}

// This is written by hand, because `#[derive(Copy)]` would ask `Copy` of the elements too.
impl<'a, A> Clone for SharedRegion<'a, A> {
    ghost is_clone = { λ region copy. copy ≡ region };

    ghost is_infallible = { λ _. ⊤ };

    fn clone(&self) -> Result<Self, AllocError> {
        Ok(match self {
            SharedRegion::Part(region) => SharedRegion::Part(region),
            SharedRegion::Whole(items) => SharedRegion::Whole(items),
        })
    }
}

impl<'a, A> Copy for SharedRegion<'a, A> {}

impl<'a, A> SharedRegion<'a, A> {
    ghost use Rattle.nd_region.specs.SharedRegion.{shared_stored, slice_stored, HasSharedRun, IsSharedRunOf};

    /// Borrows all elements of a slice. The place of each is its position in the slice.
    pub fn from_slice(elements: &'a [A]) -> SharedRegion<'a, A>
        ensures { shared_stored result ≡ slice_stored elements.now }
    {
        SharedRegion::Whole(elements)
    }

    /// Borrows all elements of `rows`, one row after another. Each row has `N` elements.
    pub fn from_rows<const N: usize>(rows: &'a [[A; N]]) -> SharedRegion<'a, A>
        requires { length rows.now * N < 2 ^ 63 }
        ensures { shared_stored result ≡ slice_stored (flat_map (λ row. row) rows.now) }
    {
        SharedRegion::Whole(rows.as_flattened())
    }

    /// Returns the same borrow for a shorter lifetime, without using up this one.
    #[inline]
    pub fn reborrowed(&self) -> SharedRegion<'_, A>
        ensures { shared_stored result ≡ shared_stored self.now }
    {
        match self {
            SharedRegion::Part(region) => region.share(),
            SharedRegion::Whole(slice) => SharedRegion::Whole(slice),
        }
    }

    /// Returns the same borrow with a shorter lifetime.
    pub fn shortened<'b>(self) -> SharedRegion<'b, A>
    where
        'a: 'b,
        ensures { shared_stored result ≡ shared_stored self.entry }
    {
        match self {
            SharedRegion::Part(region) => region.share(),
            SharedRegion::Whole(whole) => SharedRegion::Whole(whole),
        }
    }

    /// Returns the element at `place`.
    pub fn get(self, place: usize) -> &'a A
        requires { IsSome (shared_stored self place) }
        ensures { shared_stored self.entry place ≡ Some result.now }
    {
        match self {
            SharedRegion::Part(region) => region.get(place),
            SharedRegion::Whole(slice) => &slice[place],
        }
    }

    /// Returns the `count` elements from `place` on as a slice.
    pub fn run(self, place: usize, count: usize) -> &'a [A]
        requires { HasSharedRun self place count }
        ensures { IsSharedRunOf self.entry place count result.now }
    {
        match self {
            SharedRegion::Part(region) => region.run(place, count),
            SharedRegion::Whole(slice) => slice_run(slice, place, count),
        }
    }
}

impl<'a, A> Region<'a, A> {
    ghost use Rattle.nd_region.specs.Region.{region_stored};
    ghost use Rattle.nd_region.specs.SharedRegion.{shared_stored};

    /// Borrows the region for reading.
    pub fn share(&self) -> SharedRegion<'_, A>
        ensures { shared_stored result ≡ region_stored self.now }
    {
        SharedRegion::Part(self)
    }
}

fn slice_run<A>(slice: &[A], place: usize, count: usize) -> &[A]
    requires { 0 < count → place + count ≤ length slice.now }
    ensures { (length result.now ≡ count) × (result.now ≡ if nat_eq count 0 then [] else take count (drop place slice.now)) }
{
    if count == 0 {
        return &slice[..0];
    }
    &slice[place..place + count]
}
