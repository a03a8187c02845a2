//! Concatenating: arrays are joined one after another along an axis that they have.

ghost use Rattle.std.specs.Prelude.{◌≡◌, ◌<◌, None, Err, IfOk, IfErr, OnOk, OnErr, length, slice_set};
ghost use Rattle.nd_shape_and_slice.specs.ShapesAndIndexOrders.{HasCheckedSize, size_of};
ghost use Rattle.nd_array_core.specs.LayoutLaws.{NothingOutside};
ghost use Rattle.nd_array_core.specs.ArrayMeaning.{meaning_of, shape_of};
ghost use Rattle.nd_array_core.specs.growth.AppendEach.{meanings_of, ClonesOfEachAreEqual};
ghost use Rattle.nd_array_core.specs.reshape.ElementsAsSlice.{IsStandardArray};
ghost use Rattle.nd_stacking.specs.ConcatenateAndStack.{concatenation_refusal, concatenation_shape, AreLengthsTogether, IsConcatenation, Tells};
ghost use Rattle.nd_stacking.specs.ConcatenationByRuns.{size_before, size_after, EachIs, IsByRank};

use crate::concatenate_by_runs::{are_long, are_standard, sizes_around, woven};
use crate::joined_shapes::concatenated_dim;
use nd_array_core::laws::nothing_outside;
use nd_array_core::{Array, ArrayError, ArrayView};
use nd_shape_and_slice::{Axis, Dimension, NoMemory, RemoveAxis};
use std::alloc::Global;

/// Returns an array without elements that has the shape `dim`, except that the length of `axis` is 0. Its storage has
/// room for as many elements as `dim` has.
fn room_for<A: Drop, D: Dimension>(
    alloc: Global,
    dim: D,
    axis: usize,
) -> Result<Array<A, D>, NoMemory>
    requires on { axis < length (D.lengths dim) }
    requires checked { HasCheckedSize (D.lengths dim) }
    ensures { IfOk result (λ a. shape_of a ≡ slice_set (D.lengths dim) axis 0) }
{
    let items = Vec::with_capacity(alloc, dim.size())?;
    let mut none = dim;
    none.set_length(axis, 0);
    match Array::from_shape_vec(none, items) {
        Ok(array) => Ok(array),
        Err(_) => unreachable!(),
    }
}

/// Returns the concatenation of the arrays along `axis`, where `dim` is the shape of the result. Appends the arrays one
/// by one.
fn appended<A: Clone + Drop, D: Dimension>(
    alloc: Global,
    axis: Axis,
    dim: D,
    arrays: &[ArrayView<'_, A, D>],
) -> Result<Array<A, D>, NoMemory>
    requires lengths { AreLengthsTogether axis.0 (meanings_of arrays.now) (D.lengths dim) }
    requires clones { ClonesOfEachAreEqual A.is_clone (meanings_of arrays.now) }
    ensures { IfOk result (λ a. IsConcatenation axis.0 (meanings_of arrays.now) (meaning_of a)) }
{
    nothing_outside(&arrays[0]);
    let mut all = room_for(alloc, dim, axis.0)?;
    match all.append_each(axis, arrays) {
        Ok(()) => Ok(all),
        Err((_, ArrayError::NoMemory)) => Err(NoMemory),
        Err((_, ArrayError::Shape(_))) => unreachable!(),
    }
}

/// Returns the concatenation of the arrays along `axis`, where `dim` is the shape of the result, and each array is
/// contiguous in row-major order. `sizes` tells how many indexes the axes before `axis` have, and how many those after
/// it. Clones the elements in the row-major order of the result, in runs that are contiguous in the arrays.
fn laid_by_runs<A: Clone + Drop, D: Dimension>(
    alloc: Global,
    axis: Axis,
    dim: D,
    sizes: (usize, usize),
    arrays: &[ArrayView<'_, A, D>],
) -> Result<Array<A, D>, NoMemory>
    requires lengths { AreLengthsTogether axis.0 (meanings_of arrays.now) (D.lengths dim) }
    requires clones { ClonesOfEachAreEqual A.is_clone (meanings_of arrays.now) }
    requires standard { EachIs (λ a. IsStandardArray a) arrays.now }
    requires ranks { EachIs IsByRank (meanings_of arrays.now) }
    requires before { sizes.0 ≡ size_before axis.0 (D.lengths dim) }
    requires after { sizes.1 ≡ size_after axis.0 (D.lengths dim) }
    ensures { IfOk result (λ a. IsConcatenation axis.0 (meanings_of arrays.now) (meaning_of a)) }
{
    nothing_outside(&arrays[0]);
    let count = dim.size();
    let items = woven(alloc, arrays, axis.0, sizes.1, sizes.0, count)?;
    match Array::from_shape_vec(dim, items) {
        Ok(all) => Ok(all),
        Err(_) => unreachable!(),
    }
}

/// Returns an array of the shape `dim`, which has no elements. It asks for no memory.
pub(crate) fn without_elements<A: Drop, D: Dimension>(alloc: Global, dim: D) -> Array<A, D>
    requires checked { HasCheckedSize (D.lengths dim) }
    requires none { size_of (D.lengths dim) ≡ 0 }
    ensures shape { shape_of result ≡ D.lengths dim }
    ensures outside { NothingOutside (meaning_of result) }
{
    let array = match Array::from_shape_vec(dim, Vec::new(alloc)) {
        Ok(array) => array,
        Err(_) => unreachable!(),
    };
    nothing_outside(&array);
    array
}

/// Returns the concatenation of the arrays along `axis`, where `dim` is the shape of the result and has no elements. It
/// asks for no memory.
fn emptied<A: Drop, D: Dimension>(
    alloc: Global,
    axis: Axis,
    dim: D,
    arrays: &[ArrayView<'_, A, D>],
) -> Array<A, D>
    requires lengths { AreLengthsTogether axis.0 (meanings_of arrays.now) (D.lengths dim) }
    requires none { size_of (D.lengths dim) ≡ 0 }
    ensures { IsConcatenation axis.0 (meanings_of arrays.now) (meaning_of result) }
{
    nothing_outside(&arrays[0]);
    without_elements(alloc, dim)
}

/// Returns the concatenation of the arrays along `axis`, where `dim` is the shape of the result. Works run by run if
/// each array is contiguous in row-major order and has long runs, and otherwise array by array.
pub(crate) fn joined<A: Clone + Drop, D: Dimension>(
    alloc: Global,
    axis: Axis,
    dim: D,
    arrays: &[ArrayView<'_, A, D>],
) -> Result<Array<A, D>, NoMemory>
    requires lengths { AreLengthsTogether axis.0 (meanings_of arrays.now) (D.lengths dim) }
    requires clones { ClonesOfEachAreEqual A.is_clone (meanings_of arrays.now) }
    ensures joined { IfOk result (λ a. IsConcatenation axis.0 (meanings_of arrays.now) (meaning_of a)) }
    ensures refused { OnErr result (0 < size_of (D.lengths dim)) }
{
    let count = dim.size();
    if count == 0 {
        return Ok(emptied(alloc, axis, dim, arrays));
    }
    if !are_standard(arrays) {
        return appended(alloc, axis, dim, arrays);
    }
    match sizes_around(dim.slice(), axis.0) {
        Some(sizes) if are_long(count, sizes.0, arrays.len()) => {
            laid_by_runs(alloc, axis, dim, sizes, arrays)
        }
        _ => appended(alloc, axis, dim, arrays),
    }
}

/// Returns the concatenation of the arrays along `axis`, with clones of their elements: the first array, and after it
/// along the axis each next array. Nothing is broadcast. Fails with `Unsupported` if there are no arrays; with
/// `OutOfBounds` if the first array has no such axis; with `IncompatibleShape` if another array has another number of
/// axes than the first, or another length along an axis other than `axis`; with `Overflow` if the size of the result
/// overflows. Fails with `NoMemory` if none of this is the case, and storage or a clone is refused; a result without
/// elements asks for none. This is ndarray's `concatenate`.
pub fn concatenate<A: Clone + Drop, D: RemoveAxis>(
    alloc: Global,
    axis: Axis,
    arrays: &[ArrayView<'_, A, D>],
) -> Result<Array<A, D>, ArrayError>
    requires clones { ClonesOfEachAreEqual A.is_clone (meanings_of arrays.now) }
    ensures joined { IfOk result (λ a. IsConcatenation axis.0 (meanings_of arrays.now) (meaning_of a)) }
    ensures fits { OnOk result (concatenation_refusal axis.0 (meanings_of arrays.now) ≡ None) }
    ensures refused { IfErr result (Tells (concatenation_refusal axis.0 (meanings_of arrays.now))) }
    ensures memory { result ≡ Err ArrayError.NoMemory → 0 < size_of (concatenation_shape axis.0 (meanings_of arrays.now)) }
{
    match concatenated_dim(arrays, axis.0) {
        Ok(dim) => match joined(alloc, axis, dim, arrays) {
            Ok(all) => Ok(all),
            Err(_) => Err(ArrayError::NoMemory),
        },
        Err(refused) => Err(ArrayError::Shape(refused)),
    }
}
