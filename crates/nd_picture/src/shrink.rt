//! The step that puts the mean of each block of samples in the block's place. The blocks at the right and at the bottom
//! have fewer columns or rows where the picture's sides are no multiples of a block's.
#![tactic(auto, using(nd_array_core::proofs::AxesOfDimensionTypes::known_axes))]

ghost use Rattle.std.specs.Prelude.{◌≡◌, ◌<◌, ◌≤◌, ◌-◌, ◌*◌, ◌^◌, IfOk, [], ◌∷◌, slice_index};
ghost use Rattle.nd_shape_and_slice.specs.ShapesAndIndexOrders.{HasCheckedSize};
ghost use Rattle.nd_array_core.specs.ArrayMeaning.{meaning_of, shape_of};
ghost use Rattle.nd_picture.specs.PictureChanges.{Picture, Shows, ShowsAfter, ceiling, rounded, row_total, part_total, block_end, block_mean, picture_shrunk};

use crate::blur::{extents, sample_at};
use nd_array_core::{Array, Array3};
use nd_shape_and_slice::NoMemory;
use std::alloc::Global;

/// Returns the sum of the samples of `picture` in `row` and `channel`, in the columns from `left` to before `right`.
fn row_sum(picture: &Array3<u16>, row: usize, left: usize, right: usize, channel: usize) -> u128
    requires row { row < slice_index (shape_of picture.now) 0 }
    requires columns { (left ≤ right) × (right ≤ slice_index (shape_of picture.now) 1) }
    requires channel { channel < slice_index (shape_of picture.now) 2 }
    ensures sum { (p : Picture) → Shows (meaning_of picture.now) p → result ≡ row_total p row left right channel }
    ensures bound { result ≤ 65535 * (right - left) }
{
    let mut sum = 0;
    for column in left..right {
        sum += u128::from(sample_at(picture, row, column, channel));
    }
    sum
}

/// Returns the sum of the samples of `picture` in `channel`, in the rows from `top` to before `bottom` and the columns
/// from `left` to before `right`.
fn block_sum(
    picture: &Array3<u16>,
    top: usize,
    bottom: usize,
    left: usize,
    right: usize,
    channel: usize,
) -> u128
    requires rows { (top ≤ bottom) × (bottom ≤ slice_index (shape_of picture.now) 0) }
    requires columns { (left ≤ right) × (right ≤ slice_index (shape_of picture.now) 1) }
    requires channel { channel < slice_index (shape_of picture.now) 2 }
    requires few { (bottom - top) * (right - left) < 2 ^ 63 }
    ensures sum { (p : Picture) → Shows (meaning_of picture.now) p → result ≡ part_total p top bottom left right channel }
    ensures bound { result ≤ 65535 * ((bottom - top) * (right - left)) }
{
    let mut sum = 0;
    for row in top..bottom {
        sum += row_sum(picture, row, left, right, channel);
    }
    sum
}

/// Returns the range of the rows (or columns) of the block with this number, where there are `all` in blocks of `factor`.
/// The last block may be shorter.
fn block_range(factor: usize, all: usize, number: usize) -> (usize, usize)
    requires { number * factor < all }
    ensures start { result.0 ≡ number * factor }
    ensures end { result.1 ≡ block_end factor all number }
{
    let start = number * factor;
    (start, start + factor.min(all - start))
}

/// Returns the mean of `count` samples with this sum, rounded to the nearest number, and up if two are equally near.
fn rounded_mean(sum: u128, count: usize) -> u16
    requires some { 0 < count }
    requires bound { sum ≤ 65535 * count }
    ensures { result ≡ rounded sum count }
{
    ((sum + (count / 2) as u128) / count as u128) as u16
}

/// Returns the mean of the samples in `channel` of the block of `factor` rows and columns at `row` and `column`, where
/// the blocks are counted as the rows and columns of the smaller picture.
fn block_mean(
    picture: &Array3<u16>,
    factor: usize,
    row: usize,
    column: usize,
    channel: usize,
) -> u16
    requires some { 0 < factor }
    requires row { row < ceiling (slice_index (shape_of picture.now) 0) factor }
    requires column { column < ceiling (slice_index (shape_of picture.now) 1) factor }
    requires channel { channel < slice_index (shape_of picture.now) 2 }
    ensures { (p : Picture) → Shows (meaning_of picture.now) p → result ≡ block_mean factor p row column channel }
{
    let (rows, columns, _channels) = extents(picture);
    let (top, bottom) = block_range(factor, rows, row);
    let (left, right) = block_range(factor, columns, column);
    let sum = block_sum(picture, top, bottom, left, right, channel);
    rounded_mean(sum, (bottom - top) * (right - left))
}

/// Returns the numbers of rows, columns and channels of `picture` with one pixel in the place of each block. The size of
/// an array of this shape doesn't overflow.
fn shrunk_extents(picture: &Array3<u16>, factor: usize) -> (usize, usize, usize)
    requires some { 0 < factor }
    requires fits { factor < 2 ^ 63 }
    ensures rows { result.0 ≡ ceiling (slice_index (shape_of picture.now) 0) factor }
    ensures columns { result.1 ≡ ceiling (slice_index (shape_of picture.now) 1) factor }
    ensures channels { result.2 ≡ slice_index (shape_of picture.now) 2 }
    ensures checked { HasCheckedSize (result.0 ∷ result.1 ∷ result.2 ∷ []) }
{
    let (rows, columns, channels) = extents(picture);
    (rows.div_ceil(factor), columns.div_ceil(factor), channels)
}

/// Returns the picture with the mean of each block of `factor` rows and columns in its place. Fails with `NoMemory` if
/// memory is refused.
pub(crate) fn shrink(
    alloc: Global,
    picture: &Array3<u16>,
    factor: usize,
) -> Result<Array3<u16>, NoMemory>
    requires some { 0 < factor }
    requires fits { factor < 2 ^ 63 }
    ensures { IfOk result (λ a. ShowsAfter (picture_shrunk factor) (meaning_of picture.now) (meaning_of a)) }
{
    let (rows, columns, channels) = shrunk_extents(picture, factor);
    let means = Array::from_shape_fn(
        alloc,
        (rows, columns, channels),
        |(row, column, channel)| block_mean(picture, factor, row, column, channel),
    )?;
    Ok(means)
}
