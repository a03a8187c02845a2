//! The blur, which replaces each sample by the mean of the samples around it. A row or column beyond the picture's edge
//! is taken to be the one at the edge.
#![tactic(auto, using(nd_array_core::proofs::AxesOfDimensionTypes::known_axes))]

ghost use Rattle.std.specs.Prelude.{◌≡◌, ◌<◌, ◌≤◌, IfOk, ℕ, [], ◌∷◌, slice_index};
ghost use Rattle.nd_shape_and_slice.specs.ShapesAndIndexOrders.{HasCheckedSize};
ghost use Rattle.nd_array_core.specs.ArrayMeaning.{meaning_of, shape_of};
ghost use Rattle.nd_picture.specs.PictureChanges.{Picture, Shows, ShowsAfter, three_around, blurred_at, picture_blurred};

use nd_array_core::laws::shape_is_checked;
use nd_array_core::{Array, Array3};
use nd_shape_and_slice::NoMemory;
use std::alloc::Global;

/// Returns the sample of `picture` at `row`, `column` and `channel`.
pub(crate) fn sample_at(picture: &Array3<u16>, row: usize, column: usize, channel: usize) -> u16
    requires row { row < slice_index (shape_of picture.now) 0 }
    requires column { column < slice_index (shape_of picture.now) 1 }
    requires channel { channel < slice_index (shape_of picture.now) 2 }
    ensures { (p : Picture) → Shows (meaning_of picture.now) p → result ≡ p.sample_at row column channel }
{
    picture[[row, column, channel]]
}

/// Returns the sum of the sample at `row`, `column` and `channel` and of the samples to the left and to the right of
/// it. At the edge the sample itself stands for the missing one.
fn three_around(picture: &Array3<u16>, row: usize, column: usize, channel: usize) -> u64
    requires row { row < slice_index (shape_of picture.now) 0 }
    requires column { column < slice_index (shape_of picture.now) 1 }
    requires channel { channel < slice_index (shape_of picture.now) 2 }
    ensures sum { (p : Picture) → Shows (meaning_of picture.now) p → result ≡ three_around p row column channel }
    ensures bound { result ≤ 196605 }
{
    let (_rows, columns, _channels) = picture.dim();
    let left = u64::from(sample_at(picture, row, column.saturating_sub(1), channel));
    let here = u64::from(sample_at(picture, row, column, channel));
    let right = u64::from(sample_at(picture, row, (column + 1).min(columns - 1), channel));
    left + here + right
}

/// Returns the mean of the nine samples around `row` and `column` in `channel`, rounded down.
fn mean_around(picture: &Array3<u16>, row: usize, column: usize, channel: usize) -> u16
    requires row { row < slice_index (shape_of picture.now) 0 }
    requires column { column < slice_index (shape_of picture.now) 1 }
    requires channel { channel < slice_index (shape_of picture.now) 2 }
    ensures { (p : Picture) → Shows (meaning_of picture.now) p → result ≡ blurred_at p row column channel }
{
    let (rows, _columns, _channels) = picture.dim();
    let above = three_around(picture, row.saturating_sub(1), column, channel);
    let here = three_around(picture, row, column, channel);
    let below = three_around(picture, (row + 1).min(rows - 1), column, channel);
    ((above + here + below) / 9) as u16
}

/// Returns the numbers of rows, columns and channels of `picture`. The size of an array of this shape doesn't overflow.
pub(crate) fn extents(picture: &Array3<u16>) -> (usize, usize, usize)
    ensures shape { shape_of picture.now ≡ result.0 ∷ result.1 ∷ result.2 ∷ [] }
    ensures checked { HasCheckedSize (result.0 ∷ result.1 ∷ result.2 ∷ []) }
{
    shape_is_checked(picture);
    picture.dim()
}

/// Returns the picture with each sample replaced by the mean of the nine samples around it.
pub(crate) fn blur(alloc: Global, picture: &Array3<u16>) -> Result<Array3<u16>, NoMemory>
    ensures { IfOk result (λ a. ShowsAfter picture_blurred (meaning_of picture.now) (meaning_of a)) }
{
    let (rows, columns, channels) = extents(picture);
    let means = Array::from_shape_fn(
        alloc,
        (rows, columns, channels),
        |(row, column, channel)| mean_around(picture, row, column, channel),
    )?;
    Ok(means)
}
