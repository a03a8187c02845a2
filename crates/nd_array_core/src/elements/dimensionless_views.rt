//! The elements of an array to be read, as values that know no dimension: all of them, and those along a lane.

ghost use Rattle.nd_layout.specs.NumberedPlacesAndWalks.{along, ranked};
ghost use Rattle.nd_elements.specs.ElementsAtNumberedPlaces.{Holds};
ghost use Rattle.nd_elements.specs.BorrowedAndOwnedStorages.{shown_by};

use nd_elements::storage::ViewRepr;
use nd_layout::{Lane, Places};

/// The elements of an array along a lane.
#[derive(Drop)]
pub struct Along<'a, A> {
    pub(crate) elements: ViewRepr<'a, A>,
    pub(crate) lane: Lane,
    ghost holds: { Holds shown_by (along lane) elements },
}

/// The elements of an array, and where they lie.
#[derive(Drop)]
pub struct Laid<'a, A> {
    pub(crate) elements: ViewRepr<'a, A>,
    pub(crate) places: Places<'a>,
    ghost holds: { Holds shown_by (ranked places) elements },
}
