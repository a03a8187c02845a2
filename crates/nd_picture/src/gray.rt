//! The step that leaves the lightness alone of a coloured picture.
#![tactic(auto, using(nd_array_core::proofs::AxesOfDimensionTypes::known_axes))]

ghost use Rattle.std.specs.Prelude.{◌≡◌, ◌<◌, ◌==◌, IfOk, [], ◌∷◌, slice_index};
ghost use Rattle.nd_shape_and_slice.specs.ShapesAndIndexOrders.{HasCheckedSize};
ghost use Rattle.nd_array_core.specs.ArrayMeaning.{meaning_of, shape_of};
ghost use Rattle.nd_picture.specs.PictureChanges.{Picture, Shows, ShowsAfter, lightness, lightness_at, light_of, picture_grayed};

use crate::blur::{extents, sample_at};
use nd_array_core::{Array, Array3};
use nd_shape_and_slice::NoMemory;
use std::alloc::Global;

/// Returns the lightness of a pixel in an image with this maxval, which is that of Netpbm's `ppmtopgm`.
#[tactic(auto, using(std::proofs::lemmas::Bool::Decides::nat_tests))]
fn lightness(maxval: u16, red: u16, green: u16, blue: u16) -> u16
    ensures { result ≡ lightness maxval red green blue }
{
    let (red, green, blue) = (u64::from(red), u64::from(green), u64::from(blue));
    if maxval < 256 {
        return ((77 * red + 150 * green + 29 * blue + 128) / 256) as u16;
    }
    ((2989 * red + 5866 * green + 1145 * blue + 5000) / 10000) as u16
}

/// Returns the lightness of the pixel of `picture` at `row` and `column`.
fn lightness_at(picture: &Array3<u16>, maxval: u16, row: usize, column: usize) -> u16
    requires row { row < slice_index (shape_of picture.now) 0 }
    requires column { column < slice_index (shape_of picture.now) 1 }
    requires colours { slice_index (shape_of picture.now) 2 ≡ 3 }
    ensures { (p : Picture) → Shows (meaning_of picture.now) p → result ≡ lightness_at maxval p row column }
{
    let red = sample_at(picture, row, column, 0);
    let green = sample_at(picture, row, column, 1);
    let blue = sample_at(picture, row, column, 2);
    lightness(maxval, red, green, blue)
}

/// Returns the numbers of rows and columns of `picture`, which has three channels. The size of an array with one channel
/// doesn't overflow.
fn light_extents(picture: &Array3<u16>) -> (usize, usize)
    requires { slice_index (shape_of picture.now) 2 ≡ 3 }
    ensures shape { shape_of picture.now ≡ result.0 ∷ result.1 ∷ 3 ∷ [] }
    ensures checked { HasCheckedSize (result.0 ∷ result.1 ∷ 1 ∷ []) }
{
    let (rows, columns, _channels) = extents(picture);
    (rows, columns)
}

/// Returns the picture with the lightness of each pixel in place of its three samples.
fn lightness_of(alloc: Global, maxval: u16, picture: &Array3<u16>) -> Result<Array3<u16>, NoMemory>
    requires { slice_index (shape_of picture.now) 2 ≡ 3 }
    ensures { IfOk result (λ a. ShowsAfter (light_of maxval) (meaning_of picture.now) (meaning_of a)) }
{
    let (rows, columns) = light_extents(picture);
    let light = Array::from_shape_fn(
        alloc,
        (rows, columns, 1),
        |(row, column, _channel)| lightness_at(picture, maxval, row, column),
    )?;
    Ok(light)
}

/// Returns whether the picture has three channels.
#[tactic(auto, using(nd_array_core::proofs::AxesOfDimensionTypes::known_axes, std::proofs::lemmas::Bool::Decides::nat_tests))]
fn is_coloured(picture: &Array3<u16>) -> bool
    ensures { result ≡ (slice_index (shape_of picture.now) 2 == 3) }
{
    let (_rows, _columns, channels) = picture.dim();
    channels == 3
}

/// Returns the picture without colours: the lightness of each pixel if there are three channels, and otherwise the
/// picture itself.
#[tactic(auto, using(nd_array_core::proofs::AxesOfDimensionTypes::known_axes, std::proofs::lemmas::Bool::Decides::nat_tests))]
pub(crate) fn gray(
    alloc: Global,
    maxval: u16,
    picture: Array3<u16>,
) -> Result<Array3<u16>, NoMemory>
    ensures { IfOk result (λ a. ShowsAfter (picture_grayed maxval) (meaning_of picture) (meaning_of a)) }
{
    if !is_coloured(&picture) {
        return Ok(picture);
    }
    let light = lightness_of(alloc, maxval, &picture)?;
    Ok(light)
}
