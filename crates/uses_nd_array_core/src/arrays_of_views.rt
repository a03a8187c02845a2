//! Arrays whose elements are views.
#![tactic(auto, using(nd_array_core::proofs::AxesOfDimensionTypes::known_axes))]

ghost use Rattle.std.specs.Prelude.{◌≡◌, ℕ, List, IfOk};
ghost use Rattle.nd_array_core.specs.Prelude.{shape_of, element_at};

use nd_array_core::prelude::*;
use std::alloc::Global;

/// Returns a copy of an array of pictures. The copy holds the same views, and no element of a picture is cloned.
pub fn copied_pictures<'a, A>(
    alloc: Global,
    pictures: &Array1<ArrayView2<'a, A>>,
) -> Result<Array1<ArrayView2<'a, A>>, NoMemory>
    ensures shape { IfOk result (λ copy. shape_of copy ≡ shape_of pictures.now) }
    ensures elements { IfOk result (λ copy. (i : List ℕ) → element_at copy i ≡ element_at pictures.now i) }
{
    pictures.to_owned(alloc)
}
