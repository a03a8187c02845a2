//! The step that puts a border around a picture.
#![tactic(auto, using(nd_array_core::proofs::AxesOfDimensionTypes::known_axes))]

ghost use Rattle.std.specs.Prelude.{◌≡◌, ◌<◌, ◌≤◌, ◌+◌, ◌*◌, IfOk, [], ◌∷◌, slice_index};
ghost use Rattle.nd_shape_and_slice.specs.ShapesAndIndexOrders.{HasCheckedSize};
ghost use Rattle.nd_array_core.specs.ArrayMeaning.{meaning_of, shape_of};
ghost use Rattle.nd_picture.specs.PictureChanges.{Picture, Shows, ShowsAfter, within_border, bordered_at, picture_bordered};

use crate::blur::sample_at;
use nd_array_core::{Array, Array3};
use nd_shape_and_slice::{NoMemory, size_of_shape_checked};
use std::alloc::Global;

/// Returns whether `at` is one of the `size` coordinates that begin after `border` others.
#[tactic(auto, using(std::proofs::lemmas::Bool::Decides::nat_tests))]
fn within_border(border: usize, size: usize, at: usize) -> bool
    ensures { result ≡ within_border border size at }
{
    border <= at && at - border < size
}

/// Returns the sample at `row`, `column` and `channel` of a picture that has `width` rows and columns of samples `value`
/// around the samples of `picture`.
fn bordered_at(
    picture: &Array3<u16>,
    width: usize,
    value: u16,
    row: usize,
    column: usize,
    channel: usize,
) -> u16
    requires { channel < slice_index (shape_of picture.now) 2 }
    ensures { (p : Picture) → Shows (meaning_of picture.now) p → result ≡ bordered_at width value p row column channel }
{
    let (rows, columns, _channels) = picture.dim();
    if within_border(width, rows, row) && within_border(width, columns, column) {
        return sample_at(picture, row - width, column - width, channel);
    }
    value
}

/// Returns the numbers of rows, columns and channels of a picture with `width` rows and columns more on each side. Fails
/// with `NoMemory` if the size of an array of this shape overflows.
fn bordered_extents(picture: &Array3<u16>, width: usize) -> Result<(usize, usize, usize), NoMemory>
    requires rows { slice_index (shape_of picture.now) 0 + 2 * width ≤ 1000000000 }
    requires columns { slice_index (shape_of picture.now) 1 + 2 * width ≤ 1000000000 }
    ensures rows { IfOk result (λ r. r.0 ≡ slice_index (shape_of picture.now) 0 + 2 * width) }
    ensures columns { IfOk result (λ r. r.1 ≡ slice_index (shape_of picture.now) 1 + 2 * width) }
    ensures channels { IfOk result (λ r. r.2 ≡ slice_index (shape_of picture.now) 2) }
    ensures checked { IfOk result (λ r. HasCheckedSize (r.0 ∷ r.1 ∷ r.2 ∷ [])) }
{
    let (rows, columns, channels) = picture.dim();
    let (rows, columns) = (rows + 2 * width, columns + 2 * width);
    match size_of_shape_checked(&[rows, columns, channels]) {
        Ok(_) => Ok((rows, columns, channels)),
        Err(_) => Err(NoMemory),
    }
}

/// Returns the picture with `width` rows and columns of samples `value` on each side of it. Fails with `NoMemory` if
/// memory is refused, or if the size of the picture with its border overflows.
pub(crate) fn border(
    alloc: Global,
    picture: &Array3<u16>,
    width: usize,
    value: u16,
) -> Result<Array3<u16>, NoMemory>
    requires rows { slice_index (shape_of picture.now) 0 + 2 * width ≤ 1000000000 }
    requires columns { slice_index (shape_of picture.now) 1 + 2 * width ≤ 1000000000 }
    ensures { IfOk result (λ a. ShowsAfter (picture_bordered width value) (meaning_of picture.now) (meaning_of a)) }
{
    let (rows, columns, channels) = bordered_extents(picture, width)?;
    let samples = Array::from_shape_fn(
        alloc,
        (rows, columns, channels),
        |(row, column, channel)| bordered_at(picture, width, value, row, column, channel),
    )?;
    Ok(samples)
}
