//! Steps that move pixels. They change the array's layout alone, and neither read nor write a sample.
#![tactic(auto, using(nd_array_core::proofs::AxesOfDimensionTypes::known_axes))]

ghost use Rattle.std.specs.Prelude.{◌≡◌, ◌<◌, ◌≤◌, ◌+◌, ◌^◌, slice_index};
ghost use Rattle.nd_array_core.specs.ArrayMeaning.{meaning_of, shape_of};
ghost use Rattle.nd_picture.specs.EveryKthRowSlices.{every};
ghost use Rattle.nd_picture.specs.PictureChanges.{ShowsAfter, rows_from, columns_from, picture_cropped, picture_flipped, picture_flopped, picture_transposed, picture_turned_quarter, picture_turned_half, picture_turned_back, picture_of_every_row, picture_of_every_column, picture_scaled_down};

use nd_array_core::Array3;
use nd_shape_and_slice::{Axis, Slice};

/// Returns the picture with its rows in the opposite order.
pub(crate) fn flip(picture: Array3<u16>) -> Array3<u16>
    ensures { ShowsAfter picture_flipped (meaning_of picture) (meaning_of result) }
{
    let mut picture = picture;
    picture.invert_axis(Axis(0));
    picture
}

/// Returns the picture with its columns in the opposite order.
pub(crate) fn flop(picture: Array3<u16>) -> Array3<u16>
    ensures { ShowsAfter picture_flopped (meaning_of picture) (meaning_of result) }
{
    let mut picture = picture;
    picture.invert_axis(Axis(1));
    picture
}

/// Returns the picture with its rows as columns, and its columns as rows.
pub(crate) fn transpose(picture: Array3<u16>) -> Array3<u16>
    ensures { ShowsAfter picture_transposed (meaning_of picture) (meaning_of result) }
{
    let mut picture = picture;
    picture.swap_axes(0, 1);
    picture
}

/// Returns the picture turned clockwise by a quarter.
pub(crate) fn turn_quarter(picture: Array3<u16>) -> Array3<u16>
    ensures { ShowsAfter picture_turned_quarter (meaning_of picture) (meaning_of result) }
{
    flop(transpose(picture))
}

/// Returns the picture turned half round.
pub(crate) fn turn_half(picture: Array3<u16>) -> Array3<u16>
    ensures { ShowsAfter picture_turned_half (meaning_of picture) (meaning_of result) }
{
    flip(flop(picture))
}

/// Returns the picture turned clockwise by three quarters.
pub(crate) fn turn_back(picture: Array3<u16>) -> Array3<u16>
    ensures { ShowsAfter picture_turned_back (meaning_of picture) (meaning_of result) }
{
    flip(transpose(picture))
}

/// Returns the part of the picture that has `height` rows, from the row `top` on.
pub(crate) fn rows_from(picture: Array3<u16>, top: usize, height: usize) -> Array3<u16>
    requires { top + height ≤ slice_index (shape_of picture) 0 }
    ensures shown { ShowsAfter (rows_from top height) (meaning_of picture) (meaning_of result) }
    ensures columns { slice_index (shape_of result) 1 ≡ slice_index (shape_of picture) 1 }
{
    let mut picture = picture;
    picture.slice_axis_inplace(Axis(0), Slice::between(top, top + height));
    picture
}

/// Returns the part of the picture that has `width` columns, from the column `left` on.
fn columns_from(picture: Array3<u16>, left: usize, width: usize) -> Array3<u16>
    requires { left + width ≤ slice_index (shape_of picture) 1 }
    ensures { ShowsAfter (columns_from left width) (meaning_of picture) (meaning_of result) }
{
    let mut picture = picture;
    picture.slice_axis_inplace(Axis(1), Slice::between(left, left + width));
    picture
}

/// Returns the part of the picture that has `height` rows from the row `top` on, and `width` columns from the column
/// `left` on.
pub(crate) fn crop(
    picture: Array3<u16>,
    top: usize,
    left: usize,
    height: usize,
    width: usize,
) -> Array3<u16>
    requires rows { top + height ≤ slice_index (shape_of picture) 0 }
    requires columns { left + width ≤ slice_index (shape_of picture) 1 }
    ensures { ShowsAfter (picture_cropped top left height width) (meaning_of picture) (meaning_of result) }
{
    columns_from(rows_from(picture, top, height), left, width)
}

/// Returns the slice of every `factor`-th coordinate, from 0 on.
fn every(factor: usize) -> Slice
    requires { factor < 2 ^ 63 }
    ensures { result ≡ every factor }
{
    Slice::new(0, None, factor as isize)
}

/// Returns the picture with every `factor`-th row, from the first on.
fn every_row(picture: Array3<u16>, factor: usize) -> Array3<u16>
    requires some { 0 < factor }
    requires fits { factor < 2 ^ 63 }
    ensures { ShowsAfter (picture_of_every_row factor) (meaning_of picture) (meaning_of result) }
{
    let mut picture = picture;
    picture.slice_axis_inplace(Axis(0), every(factor));
    picture
}

/// Returns the picture with every `factor`-th column, from the first on.
fn every_column(picture: Array3<u16>, factor: usize) -> Array3<u16>
    requires some { 0 < factor }
    requires fits { factor < 2 ^ 63 }
    ensures { ShowsAfter (picture_of_every_column factor) (meaning_of picture) (meaning_of result) }
{
    let mut picture = picture;
    picture.slice_axis_inplace(Axis(1), every(factor));
    picture
}

/// Returns the picture with every `factor`-th row and column, from the first on.
pub(crate) fn scale_down(picture: Array3<u16>, factor: usize) -> Array3<u16>
    requires some { 0 < factor }
    requires fits { factor < 2 ^ 63 }
    ensures { ShowsAfter (picture_scaled_down factor) (meaning_of picture) (meaning_of result) }
{
    every_column(every_row(picture, factor), factor)
}
