//! Functions that call the iterators of `nd_iter` as methods of an array. Each loop has one invariant.

ghost use Rattle.std.specs.Prelude.{◌≡◌, ◌<◌, IfOk, length, max};
ghost use Rattle.std.specs.List.{fold};
ghost use Rattle.nd_array_core.specs.ConcatenationAndSplit.{row_major_elements};
ghost use Rattle.nd_array_core.specs.ArrayMeaning.{meaning_of, shape_of};
ghost use Rattle.nd_iter.specs.AxisLanes.{lanes_along};
ghost use Rattle.nd_iter.specs.ChunksAlongAxis.{chunks_along};
ghost use Rattle.nd_iter.specs.IteratedElements.{along_axis};
ghost use Rattle.uses_nd_iter_stacking_and_numeric.specs.WrappingListSums.{listed_sum, sums_of_parts};

use nd_array_core::prelude::*;
use nd_iter::{AxisIterExt, IterExt, axis_chunks_iter};
use std::alloc::{AllocError, Global};

/// Returns the sum of all elements, modulo 2 to the 64th.
pub fn sum_of_all<S: Data<Elem = u64>, D: Dimension>(array: &ArrayBase<S, D>) -> u64
    ensures { result ≡ listed_sum (row_major_elements (meaning_of array.now)) }
{
    let mut sum: u64 = 0;
    for x in array.iter() {
        sum = sum.wrapping_add(*x);
    }
    sum
}

/// Returns the sum of the elements at each coordinate of the first axis, modulo 2 to the 64th: of each row of a table,
/// or of each picture of a stack.
pub fn outer_sums<S: Data<Elem = u64>, D: RemoveAxis>(
    alloc: Global,
    array: &ArrayBase<S, D>,
) -> Result<Vec<u64>, AllocError>
    requires { 0 < length (shape_of array.now) }
    ensures { IfOk result (λ sums. sums.items ≡ sums_of_parts (along_axis (meaning_of array.now) 0)) }
{
    let mut sums = Vec::new(alloc);
    for part in array.outer_iter() {
        sums.push(sum_of_all(&part))?;
    }
    Ok(sums)
}

/// Returns the greatest of the sums that `outer_sums` returns, or 0 if there are none.
pub fn greatest_outer_sum<S: Data<Elem = u64>, D: RemoveAxis>(array: &ArrayBase<S, D>) -> u64
    requires { 0 < length (shape_of array.now) }
    ensures { result ≡ fold (λ most part. max most (listed_sum part.1)) 0 (along_axis (meaning_of array.now) 0) }
{
    let mut most: u64 = 0;
    for part in array.outer_iter() {
        most = most.max(sum_of_all(&part));
    }
    most
}

/// Returns the sum of each chunk of `size` coordinates of the first axis, modulo 2 to the 64th, as of each week of a
/// daily series. The last chunk may be shorter.
pub fn sums_of_stretches<S: Data<Elem = u64>, D: Dimension>(
    alloc: Global,
    array: &ArrayBase<S, D>,
    size: usize,
) -> Result<Vec<u64>, AllocError>
    requires axis { 0 < length (shape_of array.now) }
    requires size { 0 < size }
    ensures { IfOk result (λ sums. sums.items ≡ sums_of_parts (chunks_along (meaning_of array.now) 0 size)) }
{
    let mut sums = Vec::new(alloc);
    for part in axis_chunks_iter(array, Axis(0), size) {
        sums.push(sum_of_all(&part))?;
    }
    Ok(sums)
}

/// Returns the greatest of the sums of the lanes of `axis`, modulo 2 to the 64th, or 0 if there are no lanes. A table has
/// one lane for each column along its first axis, and one for each row along its second axis.
pub fn greatest_lane_sum<S: Data<Elem = u64>, D: RemoveAxis>(
    array: &ArrayBase<S, D>,
    axis: Axis,
) -> u64
    requires { axis.0 < length (shape_of array.now) }
    ensures { result ≡ fold (λ most lane. max most (listed_sum lane.1)) 0 (lanes_along (meaning_of array.now) axis.0) }
{
    let mut most: u64 = 0;
    let mut lanes = array.lanes(axis);
    while let Some(lane) = lanes.next() {
        most = most.max(sum_of_all(&lane));
    }
    most
}

/// Returns the number of lanes of `axis`. A table has one lane for each column along its first axis, and one for each
/// row along its second axis.
pub fn lanes_counted<S: Data<Elem = u64>, D: RemoveAxis>(
    array: &ArrayBase<S, D>,
    axis: Axis,
) -> usize
    requires { axis.0 < length (shape_of array.now) }
    ensures { result ≡ length (lanes_along (meaning_of array.now) axis.0) }
{
    array.lanes(axis).len()
}
