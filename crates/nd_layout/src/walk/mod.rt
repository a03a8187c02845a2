//! Walks over the places of a layout, one by one and lane by lane.

pub(crate) mod lane;
pub(crate) mod lanes;
pub(crate) mod layout_as_lanes;
pub(crate) mod places_in_turn;
pub(crate) mod walk_over_indexes;
