//! Calls that show an array under a larger shape, without a copy.
#![tactic(auto, unfolding(crate::specs::ArrayMeaning::meaning_of, crate::specs::ArrayMeaning::memory_layout_of))]

ghost use Rattle.std.specs.Prelude.{◌↔◌, ◌≡◌, false, IsNone, IfSome, IsTrue};
ghost use Rattle.nd_shape_and_slice.specs.Broadcast.{broadcasts};
ghost use Rattle.nd_array_core.specs.ArrayMeaning.{shape_of, element_at};
ghost use Rattle.nd_array_core.specs.PartsOfArrays.{broadcast_part, ShowsPart};
ghost use Rattle.nd_array_core.specs.elements.BroadcastPairs.{other_at};

use crate::base::array::{ArrayBase, ArrayView};
use nd_elements::storage::Data;
use nd_shape_and_slice::{Dimension, IntoDimension};

impl<S: Data, D: Dimension> ArrayBase<S, D> {
    /// Returns a view of a larger shape, in which each new axis, and each axis that grew from length 1, repeats the
    /// same elements. The result is None exactly where the shape has no checked size, or fewer axes than the array, or
    /// where, counted from the last axis, a length differs from the array's and the array's isn't 1. This is ndarray's
    /// `broadcast`.
    #[inline]
    pub fn broadcast<E: IntoDimension>(&self, to: E) -> Option<ArrayView<'_, S::Elem, E::Dim>>
        ensures none { IsNone result ↔ (broadcasts (shape_of self.now) (E.lengths_given to) ≡ false) }
        ensures part { IfSome result (λ v. ShowsPart self.now (broadcast_part self.now (E.lengths_given to)) v) }
    {
        let layout = self.layout.broadcast(to.into_dimension())?;
        Some(ArrayBase {
            storage: self.storage.borrowed(),
            layout,
        })
    }
}

impl<'a, A, D: Dimension> ArrayView<'a, A, D> {
    /// Does what `broadcast` does, and takes the view by value, so that the result lives as long as what the view
    /// borrows. ndarray has no such call.
    #[inline]
    pub fn broadcast_move<E: IntoDimension>(self, to: E) -> Option<ArrayView<'a, A, E::Dim>>
        ensures none { IsNone result ↔ (broadcasts (shape_of self.entry) (E.lengths_given to) ≡ false) }
        ensures part { IfSome result (λ v. ShowsPart self.entry (broadcast_part self.entry (E.lengths_given to)) v) }
    {
        let layout = self.layout.broadcast(to.into_dimension())?;
        Some(ArrayBase {
            storage: self.storage,
            layout,
        })
    }
}

/// Returns a view of `other`, broadcast to the shape of `array`, which must be possible.
pub(crate) fn broadcast_to_match<'a, S: Data, D: Dimension, Z: Data, E: Dimension>(
    array: &ArrayBase<S, D>,
    other: &'a ArrayBase<Z, E>,
) -> ArrayView<'a, Z::Elem, D>
    requires { IsTrue (broadcasts (shape_of other.now) (shape_of array.now)) }
    ensures shape { shape_of result ≡ shape_of array.now }
    ensures elements { element_at result ≡ other_at array.now other.now }
{
    match other.broadcast(array.raw_dim()) {
        Some(seen) => seen,
        None => unreachable!(),
    }
}
