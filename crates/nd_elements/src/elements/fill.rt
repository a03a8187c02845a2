//! Writing a clone of one value at every index.

ghost use Rattle.std.specs.Prelude.{◌≡◌, OnOk, OnErr};
ghost use Rattle.nd_layout.specs.NumberedPlacesAndWalks.{along, ranked};
ghost use Rattle.nd_elements.specs.LackOfMemory.{MayLackForClones};
ghost use Rattle.nd_elements.specs.EqualClones.{ClonesAreEqual};
ghost use Rattle.nd_elements.specs.FilledPlaces.{Fills, FillsAll, FillsInPart, FillsSome, MayLackFilling};
ghost use Rattle.nd_elements.specs.ElementsAtNumberedPlaces.{Holds};

use crate::storage::DataMut;
use nd_layout::{Lane, Places};
use nd_shape_and_slice::NoMemory;

/// Writes a clone of `value` at each place of `lane`.
#[inline(always)]
fn fill_strided<S: DataMut>(storage: &mut S, lane: Lane, value: &S::Elem) -> Result<(), NoMemory>
where
    S::Elem: Clone + Drop,
    requires clones { ClonesAreEqual S.Elem.is_clone value.now }
    requires holds { Holds S.stored (along lane) storage.old }
    ensures filled { OnOk result (Fills S.stored (along lane) value.now storage.old storage.new) }
    ensures stopped { OnErr result (FillsInPart S.stored (along lane) value.now storage.old storage.new) }
    ensures refused { OnErr result (MayLackForClones S.Elem.is_infallible value.now lane.count) }
    ensures frame { S.frame storage.new ≡ S.frame storage.old }
{
    for nth in 0..lane.count {
        let copy = value.clone()?;
        storage.replace(lane.place_of(nth), copy);
    }
    Ok(())
}

/// Writes a clone of `value` at each place of `lane`. For a lane of stride 1 the loop has the stride 1 as a constant,
/// so that the compiler may write the places as one block.
#[inline(always)]
fn fill_lane<S: DataMut>(storage: &mut S, lane: Lane, value: &S::Elem) -> Result<(), NoMemory>
where
    S::Elem: Clone + Drop,
    requires clones { ClonesAreEqual S.Elem.is_clone value.now }
    requires holds { Holds S.stored (along lane) storage.old }
    ensures filled { OnOk result (Fills S.stored (along lane) value.now storage.old storage.new) }
    ensures stopped { OnErr result (FillsInPart S.stored (along lane) value.now storage.old storage.new) }
    ensures refused { OnErr result (MayLackForClones S.Elem.is_infallible value.now lane.count) }
    ensures frame { S.frame storage.new ≡ S.frame storage.old }
{
    if lane.stride == 1 {
        return fill_strided(storage, lane.side_by_side(), value);
    }
    fill_strided(storage, lane, value)
}

/// Writes a clone of `value` at each of `places`. Goes lane by lane.
fn fill_lane_by_lane<S: DataMut>(
    storage: &mut S,
    places: Places<'_>,
    value: &S::Elem,
) -> Result<(), NoMemory>
where
    S::Elem: Clone + Drop,
    requires clones { ClonesAreEqual S.Elem.is_clone value.now }
    requires holds { Holds S.stored (ranked places) storage.old }
    ensures filled { OnOk result (FillsAll S.stored places.entry value.now storage.old storage.new) }
    ensures stopped { OnErr result (FillsSome S.stored places.entry value.now storage.old storage.new) }
    ensures refused { OnErr result (MayLackFilling S.Elem.is_infallible value.now places.entry) }
    ensures frame { S.frame storage.new ≡ S.frame storage.old }
{
    let mut lanes = places.lanes();
    while let Some(lane) = lanes.next() {
        match fill_lane(storage, lane, value) {
            Ok(()) => {}
            Err(refused) => return Err(refused),
        }
    }
    Ok(())
}

/// Writes a clone of `value` at each of `places`. If all places are one lane, goes along it; otherwise goes lane by
/// lane.
#[inline(always)]
pub fn fill_places<S: DataMut>(
    storage: &mut S,
    places: Places<'_>,
    value: &S::Elem,
) -> Result<(), NoMemory>
where
    S::Elem: Clone + Drop,
    requires clones { ClonesAreEqual S.Elem.is_clone value.now }
    requires holds { Holds S.stored (ranked places) storage.old }
    ensures filled { OnOk result (FillsAll S.stored places.entry value.now storage.old storage.new) }
    ensures stopped { OnErr result (FillsSome S.stored places.entry value.now storage.old storage.new) }
    ensures refused { OnErr result (MayLackFilling S.Elem.is_infallible value.now places.entry) }
    ensures frame { S.frame storage.new ≡ S.frame storage.old }
{
    if let Some(lane) = places.as_lane() {
        return fill_lane(storage, lane, value);
    }
    fill_lane_by_lane(storage, places, value)
}
