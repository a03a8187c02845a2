//! A lane of an array, as it is shown to a closure.

ghost use Rattle.std.specs.Prelude.{◌≡◌, ◌<◌, ℕ, is_some, [], ◌∷◌, List, IsTrue};
ghost use Rattle.nd_elements.specs.BorrowedAndOwnedStorages.{shown_by};
ghost use Rattle.nd_elements.specs.CollectedElements.{stored_along};
ghost use Rattle.nd_elements.specs.along.AxisLanes.{LiesAs};

use crate::base::array::{ArrayBase, ArrayView};
use nd_elements::storage::ViewRepr;
use nd_layout::{Lane, Layout};
use nd_shape_and_slice::{Dimension, IntoDimension, Ix1};

/// A lane of an array while it is shown to a closure; `into_view` makes it a view with one axis. Its type has no bound
/// with ghost members, as that of a view has, because an argument of a closure can't have one.
#[derive(Drop)]
pub struct LaneView<'a, A> {
    pub(crate) storage: ViewRepr<'a, A>,
    pub(crate) lane: Lane,
    ghost holds: { (k : ℕ) → k < lane.count → IsTrue (is_some (stored_along (shown_by storage) lane.place lane.stride k)) },
}

/// Returns the layout with one axis that has the places of a lane.
fn layout_of(lane: Lane) -> Layout<Ix1, <Ix1 as Dimension>::Strides>
    ensures offset { result.offset ≡ lane.place }
    ensures lengths { ⟦<Ix1 as Dimension>⟧.lengths result.dim ≡ lane.count ∷ [] }
    ensures strides { result.strides ≡ lane.stride ∷ [] }
{
    Layout::strided(lane.place, lane.count.into_dimension(), [lane.stride])
}

impl<'a, A> LaneView<'a, A> {
    ghost use Rattle.nd_array_core.specs.ArrayMeaning.{meaning_of, shape_of, element_at};
    ghost use Rattle.nd_array_core.specs.along.AxisMaps.{lane_seen};

    /// Returns a view of the elements of `storage` at the places of `lane`.
    pub(crate) fn over(storage: ViewRepr<'a, A>, lane: Lane) -> Self
        requires { (k : ℕ) → k < lane.count → IsTrue (is_some (stored_along (shown_by storage) lane.place lane.stride k)) }
        ensures storage { result.storage ≡ storage.entry }
        ensures lane { LiesAs result.lane lane }
    {
        LaneView { storage, lane }
    }

    /// Returns the lane as a view with one axis.
    pub fn into_view(self) -> ArrayView<'a, A, Ix1>
        ensures shape { shape_of result ≡ (lane_seen self.entry).shape }
        ensures elements { (i : List ℕ) → element_at result i ≡ (lane_seen self.entry).at i }
        ensures meaning { meaning_of result ≡ lane_seen self.entry }
    {
        ArrayBase {
            storage: self.storage,
            layout: layout_of(self.lane),
        }
    }
}
