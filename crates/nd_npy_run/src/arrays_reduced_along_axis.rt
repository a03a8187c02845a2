//! The file of an array of items that is reduced along an axis: one element is made of each lane.

ghost use Rattle.std.specs.Prelude.{◌≡◌, ◌<◌, Ok, IfOk, IsTrue, slice_index, length, true, false};
ghost use Rattle.nd_shape_and_slice.specs.LayoutIndexMaps.{indexed_shape};
ghost use Rattle.nd_array_core.specs.ArrayMeaning.{meaning_of, shape_of, element_at};
ghost use Rattle.nd_npy_text.specs.ItemTypes.{kind_size};
ghost use Rattle.nd_numeric.specs.LeastAndGreatest.{AreLaneEnds};
ghost use Rattle.nd_npy_run.specs.OutputAndStatus.{bytes_made, ComesOfReduced};
ghost use Rattle.nd_npy_run.specs.Reductions.{by_reduction, lane_end, end_written, kept_by, lanes_reduced, lanes_written, length_along, made_file, numbers_written, read_as, reduced_file, total_by, wants_elements};

use crate::conversions::Converts;
use crate::item_numbers::{Items, numbers_of};
use crate::output_or_fault::Fault;
use crate::reduction::{Reduction, ReductionError};
use nd_array_core::{ArrayD, Axis, NoMemory};
use nd_npy::writer::npy_bytes;
use nd_npy::{NpyItem, NpyNumber};
use nd_npy_text::{ByteOrder, ItemType, Kind};
use nd_numbers::{Arithmetic, Ordered};
use nd_numeric::{max_axis, mean_axis, min_axis, sum_axis};
use num_traits::Zero;
use std::alloc::Global;

/// Returns the file of an array of numbers, or fails with `Memory` if memory is refused.
fn written_file<B: NpyNumber>(alloc: Global, numbers: &ArrayD<B>) -> Result<Vec<u8>, Fault<'static>>
    ensures { ComesOfReduced (Ok (numbers_written B.NpyItem B.kind (meaning_of numbers.now))) (bytes_made result) }
{
    match npy_bytes(alloc, numbers) {
        Ok(file) => Ok(file),
        Err(_) => Err(Fault::Memory),
    }
}

/// Returns the sum of each lane along an axis, or its mean, for which the axis must not have length 0.
fn lane_totals<A: Arithmetic>(
    alloc: Global,
    mean: bool,
    axis: Axis,
    numbers: &ArrayD<A>,
) -> Result<ArrayD<A>, NoMemory>
    requires axis { axis.0 < length (shape_of numbers.now) }
    requires some { IsTrue mean → 0 < slice_index (shape_of numbers.now) axis.0 }
    ensures { IfOk result (λ a. meaning_of a ≡ lanes_reduced (total_by mean A.plus A.over A.zero A.of_count (slice_index (shape_of numbers.now) axis.0)) axis.0 (meaning_of numbers.now)) }
{
    if mean {
        match mean_axis(alloc, numbers, axis) {
            Some(means) => means,
            None => unreachable!(),
        }
    } else {
        sum_axis(alloc, numbers, axis)
    }
}

/// Returns the file of the sums of the lanes along an axis, or of their means, for which the axis must not have length
/// 0. An item is a value of `I` and is added as an `A`.
fn totals_file<I: NpyItem + Converts<A>, A: Arithmetic + NpyNumber, const N: usize>(
    alloc: Global,
    order: ByteOrder,
    mean: bool,
    axis: Axis,
    array: &Items<'_, N>,
) -> Result<Vec<u8>, Fault<'static>>
    requires size { I.size ≡ N }
    requires axis { axis.0 < length (shape_of array.now) }
    requires some { IsTrue mean → 0 < length_along array.now axis.0 }
    ensures { ComesOfReduced (Ok (lanes_written A.NpyItem A.kind (total_by mean A.plus A.over A.zero A.of_count (length_along array.now axis.0)) (read_as I.NpyItem I.converted order) axis.0 (meaning_of array.now))) (bytes_made result) }
{
    match numbers_of::<I, A, N>(alloc, order, array) {
        Ok(numbers) => match lane_totals(alloc, mean, axis, &numbers) {
            Ok(totals) => written_file(alloc, &totals),
            Err(_) => Err(Fault::Memory),
        },
        Err(_) => Err(Fault::Memory),
    }
}

/// Returns the greatest element of each lane along an axis, or the least one.
fn lane_ends<A: Ordered>(
    alloc: Global,
    greatest: bool,
    axis: Axis,
    numbers: &ArrayD<A>,
) -> Result<ArrayD<Option<A>>, NoMemory>
    requires { axis.0 < length (shape_of numbers.now) }
    ensures shape { IfOk result (λ a. shape_of a ≡ indexed_shape (shape_of numbers.now) axis.0) }
    ensures ends { IfOk result (λ a. AreLaneEnds (kept_by greatest A.order) numbers.now axis.0 (element_at a)) }
{
    if greatest {
        max_axis(alloc, numbers, axis)
    } else {
        min_axis(alloc, numbers, axis)
    }
}

/// Returns what is kept of a lane, or 0 if that is nothing, as an item is written.
fn written_end<I, A: Zero + Converts<I>>(end: Option<A>) -> I
    ensures { result ≡ end_written A.converted A.zero end }
{
    match end {
        Some(number) => number.converted(),
        None => A::zero().converted(),
    }
}

/// Returns the greatest element of each lane along an axis, or the least one, as an item of type `I`.
fn written_ends<I, A: Ordered + Zero + Converts<I>>(
    alloc: Global,
    greatest: bool,
    axis: Axis,
    numbers: &ArrayD<A>,
) -> Result<ArrayD<I>, NoMemory>
    requires { axis.0 < length (shape_of numbers.now) }
    ensures { IfOk result (λ a. meaning_of a ≡ lanes_reduced (λ xs. A.converted (lane_end greatest A.order A.zero xs)) axis.0 (meaning_of numbers.now)) }
{
    let ends = lane_ends(alloc, greatest, axis, numbers)?;
    let written = ends.map(
        alloc,
        |end|
            ensures { result ≡ end_written A.converted A.zero end.now }
        { written_end::<I, A>(*end) },
    )?;
    Ok(written)
}

/// Returns the file of the greatest elements of the lanes along an axis, or of the least ones. An item is a value of
/// `I` and is compared as an `A`.
fn ends_file<I: NpyNumber + Converts<A>, A: Ordered + Zero + Converts<I>, const N: usize>(
    alloc: Global,
    order: ByteOrder,
    greatest: bool,
    axis: Axis,
    array: &Items<'_, N>,
) -> Result<Vec<u8>, Fault<'static>>
    requires size { I.size ≡ N }
    requires axis { axis.0 < length (shape_of array.now) }
    ensures { ComesOfReduced (Ok (lanes_written I.NpyItem I.kind (λ xs. A.converted (lane_end greatest A.order A.zero xs)) (read_as I.NpyItem I.converted order) axis.0 (meaning_of array.now))) (bytes_made result) }
{
    match numbers_of::<I, A, N>(alloc, order, array) {
        Ok(numbers) => match written_ends::<I, A>(alloc, greatest, axis, &numbers) {
            Ok(ends) => written_file(alloc, &ends),
            Err(_) => Err(Fault::Memory),
        },
        Err(_) => Err(Fault::Memory),
    }
}

/// Returns the file of what is made of the lanes along an axis. An item is a value of `I`; for a sum it is added as an
/// `S`, for a mean as an `M`, and otherwise it is compared as an `E`.
fn reduced_as<I, S, M, E, const N: usize>(
    alloc: Global,
    order: ByteOrder,
    reduction: Reduction,
    axis: Axis,
    array: &Items<'_, N>,
) -> Result<Vec<u8>, Fault<'static>>
where
    I: NpyNumber + Converts<S> + Converts<M> + Converts<E>,
    S: Arithmetic + NpyNumber,
    M: Arithmetic + NpyNumber,
    E: Ordered + Zero + Converts<I>,
    requires size { I.size ≡ N }
    requires axis { axis.0 < length (shape_of array.now) }
    requires some { IsTrue (wants_elements reduction) → 0 < length_along array.now axis.0 }
    ensures { ComesOfReduced (by_reduction
        (Ok (lanes_written S.NpyItem S.kind (total_by false S.plus S.over S.zero S.of_count (length_along array.now axis.0)) (read_as I.NpyItem ⟦<I as Converts<S>>⟧.converted order) axis.0 (meaning_of array.now)))
        (Ok (lanes_written M.NpyItem M.kind (total_by true M.plus M.over M.zero M.of_count (length_along array.now axis.0)) (read_as I.NpyItem ⟦<I as Converts<M>>⟧.converted order) axis.0 (meaning_of array.now)))
        (λ greatest. Ok (lanes_written I.NpyItem I.kind (λ xs. E.converted (lane_end greatest E.order E.zero xs)) (read_as I.NpyItem ⟦<I as Converts<E>>⟧.converted order) axis.0 (meaning_of array.now)))
        reduction) (bytes_made result) }
{
    match reduction {
        Reduction::Sum => totals_file::<I, S, N>(alloc, order, false, axis, array),
        Reduction::Mean => totals_file::<I, M, N>(alloc, order, true, axis, array),
        Reduction::Min => ends_file::<I, E, N>(alloc, order, false, axis, array),
        Reduction::Max => ends_file::<I, E, N>(alloc, order, true, axis, array),
    }
}

/// Returns the file of what is made of the lanes along an axis, which must not have length 0 if something is wanted of
/// its elements.
fn lanes_bytes<const N: usize>(
    alloc: Global,
    item_type: ItemType,
    reduction: Reduction,
    axis: Axis,
    array: &Items<'_, N>,
) -> Result<Vec<u8>, Fault<'static>>
    requires size { kind_size item_type.kind ≡ N }
    requires axis { axis.0 < length (shape_of array.now) }
    requires some { IsTrue (wants_elements reduction) → 0 < length_along array.now axis.0 }
    ensures { ComesOfReduced (made_file reduction item_type axis.0 (meaning_of array.now)) (bytes_made result) }
{
    let order = item_type.order;
    match item_type.kind {
        Kind::Bool => reduced_as::<bool, i64, f64, u8, N>(alloc, order, reduction, axis, array),
        Kind::Int8 => reduced_as::<i8, i64, f64, i8, N>(alloc, order, reduction, axis, array),
        Kind::Int16 => reduced_as::<i16, i64, f64, i16, N>(alloc, order, reduction, axis, array),
        Kind::Int32 => reduced_as::<i32, i64, f64, i32, N>(alloc, order, reduction, axis, array),
        Kind::Int64 => reduced_as::<i64, i64, f64, i64, N>(alloc, order, reduction, axis, array),
        Kind::UInt8 => reduced_as::<u8, u64, f64, u8, N>(alloc, order, reduction, axis, array),
        Kind::UInt16 => reduced_as::<u16, u64, f64, u16, N>(alloc, order, reduction, axis, array),
        Kind::UInt32 => reduced_as::<u32, u64, f64, u32, N>(alloc, order, reduction, axis, array),
        Kind::UInt64 => reduced_as::<u64, u64, f64, u64, N>(alloc, order, reduction, axis, array),
        Kind::Float32 => reduced_as::<f32, f32, f32, f32, N>(alloc, order, reduction, axis, array),
        Kind::Float64 => reduced_as::<f64, f64, f64, f64, N>(alloc, order, reduction, axis, array),
        kind => Err(Fault::NotReduced(ReductionError::NoNumbers(kind))),
    }
}

/// Returns the file of the array that is made of the lanes along an axis, which are numbers or truth values. Fails with
/// `NotReduced` if the array has no such axis, if the axis has length 0 and something is wanted of its elements, or if the
/// items are floats of 2 bytes or complex numbers. Fails with `Memory` if memory is refused.
pub(crate) fn reduced_bytes<const N: usize>(
    alloc: Global,
    reduction: Reduction,
    axis: usize,
    item_type: ItemType,
    array: &Items<'_, N>,
) -> Result<Vec<u8>, Fault<'static>>
    requires { kind_size item_type.kind ≡ N }
    ensures { ComesOfReduced (reduced_file reduction axis item_type (meaning_of array.now)) (bytes_made result) }
{
    let axes = array.ndim();
    if axis >= axes {
        return Err(Fault::NotReduced(ReductionError::NoAxis { axis, axes }));
    }
    let lanes = Axis(axis);
    if reduction.lacks_elements(array.len_of(lanes)) {
        return Err(Fault::NotReduced(ReductionError::NoElements { axis }));
    }
    lanes_bytes(alloc, item_type, reduction, lanes, array)
}
