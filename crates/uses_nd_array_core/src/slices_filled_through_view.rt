//! Fills slices of the caller through a view that is lent for the duration of a call.
#![tactic(auto, using(nd_array_core::proofs::AxesOfDimensionTypes::known_axes))]

ghost use Rattle.std.specs.Prelude.{◌≡◌, OnOk, IfOk, IfErr};
ghost use Rattle.nd_array_core.specs.Prelude.{KeepsUnseen, meant_by, ClonesAreEqual};
ghost use Rattle.uses_nd_array_core.specs.FittingAndFilledSlices.{IsFilledSeen, IsFrontFilled};

use nd_array_core::IntoStrideShape;
use nd_array_core::prelude::*;
use nd_array_core::scoped::{Fill, with_view_of};

/// Fills those elements of `slice` that a view of it under `shape` has; `shape` may include an order or strides. The
/// other elements stay as they are. Fails as `ArrayViewMut::from_shape` fails.
pub fn fill_seen<A: Clone + Drop, D: Dimension, Sh: IntoStrideShape<Dim = D>>(
    slice: &mut [A],
    shape: Sh,
    value: A,
) -> Result<Result<(), NoMemory>, ShapeError>
    requires clones { ClonesAreEqual A.is_clone value }
    ensures unchanged { IfErr result (λ _. slice.new ≡ slice.old) }
    ensures filled { IfOk result (λ r. OnOk r (IsFilledSeen slice.new (meant_by Sh.IntoStrideShape shape) value)) }
    ensures kept { KeepsUnseen slice.old slice.new (meant_by Sh.IntoStrideShape shape) }
{
    with_view_of(slice, shape, Fill { value })
}

/// Fills the first `count` elements of `slice`, and no others. If the slice has fewer, it stays as it is.
pub fn fill_front<A: Clone + Drop>(
    slice: &mut [A],
    count: usize,
    value: A,
) -> Result<Result<(), NoMemory>, ShapeError>
    requires clones { ClonesAreEqual A.is_clone value }
    ensures unchanged { IfErr result (λ _. slice.new ≡ slice.old) }
    ensures elements { IfOk result (λ done. OnOk done (IsFrontFilled slice.old slice.new count value)) }
{
    fill_seen(slice, count, value)
}
