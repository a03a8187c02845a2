//! A comparison of images by `==`.
#![tactic(auto, using(nd_array_core::proofs::AxesOfDimensionTypes::known_axes))]

ghost use Rattle.std.specs.Prelude.{◌↔◌, ◌<◌, IsTrue};
ghost use Rattle.nd_array_core.specs.Prelude.{table_of, transposed, SameTable};

use nd_array_core::laws::equal_cells;
use nd_array_core::prelude::*;

/// Returns whether `one` is the transpose of `other`.
pub fn is_transpose<S: Data<Elem = u64>>(one: &ArrayBase<S, Ix2>, other: &ArrayBase<S, Ix2>) -> bool
    ensures { IsTrue result ↔ SameTable (table_of one.now) (transposed (table_of other.now)) }
{
    let turned = other.t();
    let seen = one.view();
    equal_cells(&seen, &turned);
    seen == turned
}
