//! Stacking: arrays are joined along a new axis.

ghost use Rattle.std.specs.Prelude.{◌≡◌, ◌<◌, ◌≤◌, ◌+◌, None, Err, IfOk, IfErr, OnOk, OnErr, length, map, IsTrue};
ghost use Rattle.nd_shape_and_slice.specs.ShapesAndIndexOrders.{size_of};
ghost use Rattle.nd_array_core.specs.LayoutLaws.{with_axis_inserted};
ghost use Rattle.nd_array_core.specs.ArrayMeaning.{meaning_of};
ghost use Rattle.nd_array_core.specs.growth.AppendEach.{meanings_of, ClonesOfEachAreEqual};
ghost use Rattle.nd_stacking.specs.ConcatenateAndStack.{stack_refusal, stack_shape, AreStackedLengths, MayHaveAnotherAxis, IsStack, Tells};
ghost use Rattle.nd_stacking.specs.ConcatenationByRuns.{EachIs};

use crate::concatenated_arrays::{joined, without_elements};
use crate::joined_shapes::stacked_dim;
use nd_array_core::{Array, ArrayError, ArrayView};
use nd_shape_and_slice::{Axis, Dimension, InsertAxis, NoMemory, RemoveAxis};
use std::alloc::Global;

/// Returns views of the arrays, each with a new axis of length 1 inserted at `axis`.
fn with_axis<'a, A, D: InsertAxis>(
    alloc: Global,
    axis: Axis,
    arrays: &'a [ArrayView<'_, A, D>],
) -> Result<Vec<ArrayView<'a, A, D::Larger>>, NoMemory>
    requires place { EachIs (λ m. axis.0 ≤ length m.shape) (meanings_of arrays.now) }
    requires axes_fit { EachIs (λ m. IsTrue (D.Larger.has_axes (length m.shape + 1))) (meanings_of arrays.now) }
    ensures { IfOk result (λ views. meanings_of views.items ≡ map (with_axis_inserted axis.0) (meanings_of arrays.now)) }
{
    let mut views = Vec::with_capacity(alloc, arrays.len())?;
    for nth in 0..arrays.len() {
        views.push_reserved(arrays[nth].view().insert_axis(axis));
    }
    Ok(views)
}

/// Returns the stack of the arrays along the new axis `axis`, where `dim` is the shape of the result.
fn stack_along<A: Clone + Drop, D: InsertAxis>(
    alloc: Global,
    axis: Axis,
    dim: D::Larger,
    arrays: &[ArrayView<'_, A, D>],
) -> Result<Array<A, D::Larger>, NoMemory>
    requires lengths { AreStackedLengths axis.0 (meanings_of arrays.now) (D.Larger.lengths dim) }
    requires place { EachIs (λ m. axis.0 ≤ length m.shape) (meanings_of arrays.now) }
    requires axes_fit { EachIs (λ m. IsTrue (D.Larger.has_axes (length m.shape + 1))) (meanings_of arrays.now) }
    requires clones { ClonesOfEachAreEqual A.is_clone (meanings_of arrays.now) }
    ensures stacked { IfOk result (λ a. IsStack axis.0 (meanings_of arrays.now) (meaning_of a)) }
    ensures refused { OnErr result (0 < size_of (D.Larger.lengths dim)) }
{
    let count = dim.size();
    if count == 0 {
        return Ok(without_elements(alloc, dim));
    }
    let views = with_axis(alloc, axis, arrays)?;
    joined(alloc, axis, dim, views.as_slice())
}

/// Returns the stack of the arrays along a new axis, with clones of their elements: the first array stands at the new
/// axis's coordinate 0, and each next array at the next coordinate. Arrays with the dimension `IxDyn` must have fewer
/// than 32 axes. Fails with `Unsupported` if there are no arrays; with `OutOfBounds` if `axis` is greater than the
/// number of the first array's axes; with `IncompatibleShape` if another array has another shape than the first; with
/// `Overflow` if the size of the result overflows. Fails with `NoMemory` if none of this is the case, and storage or a
/// clone is refused; a result without elements asks for none. This is ndarray's `stack`.
pub fn stack<A: Clone + Drop, D: InsertAxis>(
    alloc: Global,
    axis: Axis,
    arrays: &[ArrayView<'_, A, D>],
) -> Result<Array<A, D::Larger>, ArrayError>
where
    D::Larger: RemoveAxis,
    requires axes_fit { MayHaveAnotherAxis D.Larger.has_axes (meanings_of arrays.now) }
    requires clones { ClonesOfEachAreEqual A.is_clone (meanings_of arrays.now) }
    ensures stacked { IfOk result (λ a. IsStack axis.0 (meanings_of arrays.now) (meaning_of a)) }
    ensures fits { OnOk result (stack_refusal axis.0 (meanings_of arrays.now) ≡ None) }
    ensures refused { IfErr result (Tells (stack_refusal axis.0 (meanings_of arrays.now))) }
    ensures memory { result ≡ Err ArrayError.NoMemory → 0 < size_of (stack_shape axis.0 (meanings_of arrays.now)) }
{
    let dim = match stacked_dim(arrays, axis) {
        Ok(dim) => dim,
        Err(refused) => return Err(ArrayError::Shape(refused)),
    };
    match stack_along(alloc, axis, dim, arrays) {
        Ok(all) => Ok(all),
        Err(_) => Err(ArrayError::NoMemory),
    }
}
