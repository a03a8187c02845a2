//! Feeding elements to a hasher.

ghost use Rattle.nd_layout.specs.NumberedPlacesAndWalks.{along, ranked};
ghost use Rattle.nd_elements.specs.ElementsAtNumberedPlaces.{Holds};
ghost use Rattle.nd_elements.specs.elements.ElementHashes.{Feeds, FeedsEach};

use crate::storage::Data;
use nd_layout::{Lane, Places};
use std::hash::{Hash, Hasher};

/// Feeds the elements along `lane` to the hasher `state`, from the first on.
fn hash_lane<S: Data, H: Hasher>(storage: &S, lane: Lane, state: &mut H)
where
    S::Elem: Hash,
    requires holds { Holds S.stored (along lane) storage.now }
    ensures { FeedsEach H.write S.Elem.hash_input S.stored (along lane) storage.now state.old state.new }
{
    for nth in 0..lane.count {
        storage.element(lane.place_of(nth)).hash(state);
    }
}

/// Feeds the elements at `places` to the hasher `state`, in row-major order of the indexes.
pub fn hash_places<S: Data, H: Hasher>(storage: &S, places: Places<'_>, state: &mut H)
where
    S::Elem: Hash,
    requires holds { Holds S.stored (ranked places) storage.now }
    ensures { Feeds H.write S.Elem.hash_input S.stored places.entry storage.now state.old state.new }
{
    let mut lanes = places.lanes();
    while let Some(lane) = lanes.next() {
        hash_lane(storage, lane, state);
    }
}
