//! Fills an array through a mutable view rather than a scoped call. The contract states what is known of the array once
//! the view is dropped.
#![tactic(auto, using(nd_array_core::proofs::AxesOfDimensionTypes::known_axes))]

ghost use Rattle.std.specs.Prelude.{◌≡◌, ℕ, List};
ghost use Rattle.nd_array_core.specs.Prelude.{shape_of, place_at, ClonesAreEqual};

use crate::parts_written::fill_lent;
use nd_array_core::prelude::*;

/// Fills an array through a mutable view of the whole array.
pub fn fill_view<S: DataMut, D: Dimension>(
    array: &mut ArrayBase<S, D>,
    value: S::Elem,
) -> Result<(), NoMemory>
where
    S::Elem: Clone + Drop,
    requires clones { ClonesAreEqual S.Elem.is_clone value }
    ensures shape { shape_of array.new ≡ shape_of array.old }
    ensures places { (i : List ℕ) → place_at array.new i ≡ place_at array.old i }
{
    fill_lent(array.view_mut(), value)
}
