//! A lane: places that lie a stride apart, as those along the last axis of a layout.

ghost use Rattle.std.specs.Prelude.{◌≡◌, ◌+◌, ◌<◌, ◌≤◌, ◌^◌, ◌+ℤ◌, ◌*ℤ◌, ℕ, pos, IsTrue};
ghost use Rattle.nd_layout.specs.ValidMemoryPlaces.{is_place};

use crate::layout::place_at::{moved_by, moved_unless};

/// A lane: places that lie a stride apart.
#[derive(Clone, Copy, Debug, PartialEq, Eq)]
pub struct Lane {
    /// The first place of the lane.
    pub place: usize,
    /// The number of places of the lane.
    pub count: usize,
    pub stride: isize,
    ghost few: { count < 2 ^ 63 },
    ghost from: { 0 < count → place < 2 ^ 63 },
    ghost reach: { (k : ℕ) → k < count → IsTrue (is_place (pos place +ℤ (pos k *ℤ stride))) },
}

impl Lane {
    ghost use Rattle.nd_layout.specs.NumberedPlacesAndWalks.{along};

    /// Returns the place number `nth` of the lane, counted from 0.
    #[inline]
    pub fn place_of(&self, nth: usize) -> usize
        requires { nth < self.now.count }
        ensures { pos result ≡ pos self.now.place +ℤ (pos nth *ℤ self.now.stride) }
    {
        moved_by(self.place, nth, self.stride)
    }

    /// Returns the part of the lane that begins at its place number `first`, with `count` places.
    #[inline]
    pub fn part(&self, first: usize, count: usize) -> Lane
        requires within { first + count ≤ self.now.count }
        ensures count { result.count ≡ count }
        ensures places { (k : ℕ) → k < count → (along result).place k ≡ (along self.now).place (first + k) }
    {
        Lane {
            place: moved_unless(count == 0, self.place, first, self.stride),
            count,
            stride: self.stride,
        }
    }

    /// Returns the same lane, whose stride must be 1, with the stride as a constant. The compiler then knows the
    /// stride, and may go through the elements as one block.
    #[inline(always)]
    pub fn side_by_side(self) -> Lane
        requires { self.stride ≡ pos 1 }
        ensures places { along result ≡ along self }
        ensures first { result.place ≡ self.place }
        ensures count { result.count ≡ self.count }
        ensures stride { result.stride ≡ self.stride }
    {
        Lane {
            place: self.place,
            count: self.count,
            stride: 1,
        }
    }
}
