//! Whether two arrays can be gone through as two slices.
#![tactic(auto, unfolding(crate::specs::ArrayMeaning::meaning_of, crate::specs::ArrayMeaning::memory_layout_of))]

ghost use Rattle.std.specs.Prelude.{◌≡◌, IsTrue};
ghost use Rattle.nd_array_core.specs.ArrayMeaning.{layout_strides};
ghost use Rattle.nd_array_core.specs.reshape.ElementsAsSlice.{IsRunArray};

use crate::base::array::ArrayBase;
use nd_elements::storage::Data;
use nd_layout::is_run;
use nd_shape_and_slice::{Dimension, StrideList};

/// Returns whether both arrays have the same strides, and the places of the first one's elements are consecutive
/// numbers, each once.
pub(crate) fn are_runs_alike<S: Data, Z: Data, D: Dimension>(
    array: &ArrayBase<S, D>,
    other: &ArrayBase<Z, D>,
) -> bool
    ensures strides { IsTrue result → layout_strides other.now ≡ layout_strides array.now }
    ensures run { IsTrue result → IsRunArray array.now }
{
    let strides = array.layout.strides.slice();
    if other.layout.strides.slice() != strides {
        return false;
    }
    is_run(array.layout.dim.slice(), strides)
}
