//! The hash of arrays.
#![tactic(auto, unfolding(crate::specs::ArrayMeaning::meaning_of, crate::specs::ArrayMeaning::memory_layout_of))]

ghost use Rattle.std.specs.Prelude.{◌<◌};
ghost use Rattle.std.specs.Hash.{on_Alike};
ghost use Rattle.nd_array_core.specs.EqualityAndHashing.{FeedsElements, fed_meaning, meanings_alike};
ghost use Rattle.nd_array_core.specs.ArrayMeaning.{meaning_of};

use crate::base::array::ArrayBase;
use nd_elements::elements::hash::hash_places;
use nd_elements::storage::Data;
use nd_shape_and_slice::Dimension;
use std::hash::{Hash, Hasher};

/// Feeds the elements to `state` in row-major order, lane by lane. Axes whose elements continue one another are joined
/// first, so that the lanes are longer.
fn hash_by_lanes<S: Data, D: Dimension, H: Hasher>(array: &ArrayBase<S, D>, state: &mut H)
where
    S::Elem: Hash,
    ensures { FeedsElements H.write S.Elem.hash_input (meaning_of array.now) state.old state.new }
{
    let mut joined = array.layout.copied();
    joined.join_axes();
    hash_places(&array.storage, joined.places(), state);
}

/// Feeds the elements to `state` in row-major order.
fn hash_elements<S: Data, D: Dimension, H: Hasher>(array: &ArrayBase<S, D>, state: &mut H)
where
    S::Elem: Hash,
    ensures { FeedsElements H.write S.Elem.hash_input (meaning_of array.now) state.old state.new }
{
    match array.as_slice() {
        Some(xs) => <S::Elem as Hash>::hash_slice(xs, state),
        None => hash_by_lanes(array, state),
    }
}

impl<S: Data, D: Dimension> Hash for ArrayBase<S, D>
where
    S::Elem: Hash,
{
    ghost hash_input = { λ a. fed_meaning S.Elem.hash_input (meaning_of a) };

    ghost respects_eq = { (on_Alike meaning_of (meanings_alike S.Elem.respects_eq)).fed };

    /// Feeds the shape as a slice to `state`, and then each element in row-major order.
    fn hash<H: Hasher>(&self, state: &mut H) {
        self.shape().hash(state);
        hash_elements(self, state);
    }
}
