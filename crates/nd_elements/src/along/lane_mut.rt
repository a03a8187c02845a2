//! A lane of an array that a closure may read and write.
#![tactic(auto, unfolding(crate::specs::along::LanesWritten::lane_held, crate::specs::along::LanesWritten::lane_len))]

ghost use Rattle.std.specs.Prelude.{◌≡◌, ◌<◌, ◌≤◌, ℕ, is_some, None, Some, [], ◌∷◌, pos, ◌+ℤ◌, ◌*ℤ◌, IsTrue};
ghost use Rattle.nd_region.specs.Region.{region_stored};
ghost use Rattle.nd_elements.specs.CollectedElements.{stored_along};
ghost use Rattle.nd_elements.specs.elements.ElementChanges.{AreDistinct};

use nd_layout::Lane;
use nd_region::Region;

/// A lane of an array while a closure is called with it. The closure may read and write its elements by their numbers.
#[derive(Drop)]
pub struct LaneMut<'a, A> {
    pub(crate) region: Region<'a, A>,
    pub(crate) lane: Lane,
    ghost holds: { (k : ℕ) → k < lane.count → IsTrue (is_some (stored_along (region_stored region) lane.place lane.stride k)) },
    ghost apart: { AreDistinct (λ k. pos lane.place +ℤ (pos k *ℤ lane.stride)) lane.count },
}

impl<'a, A> LaneMut<'a, A> {
    ghost use Rattle.nd_layout.specs.NumberedPlacesAndWalks.{along};
    ghost use Rattle.nd_elements.specs.ElementsAtNumberedPlaces.{PlacesDiffer, Holds};
    ghost use Rattle.nd_elements.specs.StoragePlaces.{written_at};
    ghost use Rattle.nd_elements.specs.along.AxisLanes.{LiesAs};
    ghost use Rattle.nd_elements.specs.along.LanesWritten.{lane_held, lane_len, held_at, IsSameLane};

    /// Wraps a region and a lane of it.
    pub(crate) fn over(region: Region<'a, A>, lane: Lane) -> Self
        requires holds { Holds region_stored (along lane) region }
        requires apart { PlacesDiffer (along lane) }
        ensures region { result.region ≡ region.entry }
        ensures lane { LiesAs result.lane lane }
    {
        LaneMut { region, lane }
    }

    /// Returns the number of elements. They have the numbers from 0 to one less.
    pub fn len(&self) -> usize
        ensures count { lane_len self.now ≡ result }
        ensures shape { (lane_held self.now).shape ≡ result ∷ [] }
        ensures outside { (k : ℕ) → result ≤ k → held_at self.now k ≡ None }
    {
        self.lane.count
    }

    /// Returns element number `nth`.
    pub fn element(&self, nth: usize) -> &A
        requires within { nth < lane_len self.now }
        ensures value { held_at self.now nth ≡ Some result.now }
    {
        self.region.get(self.lane.place_of(nth))
    }

    /// Writes `value` as element number `nth`, and returns the old element.
    pub fn replace(&mut self, nth: usize, value: A) -> A
        requires within { nth < lane_len self.old }
        ensures old { held_at self.old nth ≡ Some result }
        ensures new { (k : ℕ) → held_at self.new k ≡ written_at (held_at self.old) nth value k }
        ensures count { lane_len self.new ≡ lane_len self.old }
        ensures same { IsSameLane self.old self.new }
    {
        let place = self.lane.place_of(nth);
        self.region.replace(place, value)
    }
}
