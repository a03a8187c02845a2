//! Images as arrays whose axes are rows, columns and channels, and such arrays as images.
#![tactic(auto, using(nd_array_core::proofs::AxesOfDimensionTypes::known_axes))]

ghost use Rattle.std.specs.Prelude.{◌≡◌, ◌<◌, ◌*◌, [], ◌∷◌, IfOk, OnOk, OnErr, length, slice_index};
ghost use Rattle.nd_shape_and_slice.specs.ShapesAndIndexOrders.{HasCheckedSize, size_of};
ghost use Rattle.nd_array_core.specs.ArrayMeaning.{meaning_of, shape_of, layout_strides};
ghost use Rattle.nd_array_core.specs.ConcatenationAndSplit.{row_major_elements};
ghost use Rattle.nd_array_core.specs.reshape.ElementsAsSlice.{IsStandardArray};
ghost use Rattle.nd_picture_text.specs.ImageFormatsAndHeaders.{IsWholeImage, pixmap_of};
ghost use Rattle.nd_picture.specs.PictureChanges.{Picture, Shows};
ghost use Rattle.nd_picture.specs.PictureSampleLists.{picture_in, Lists, IsImageShown, FitsHeader};
ghost use Rattle.nd_picture.specs.SamplesAndChannels.{HasInOrder, HasChannel, HasChannelsBelow, HasSamplesOf};

use nd_array_core::Array3;
use nd_array_core::laws::{broadcast_to_itself, elements_by_rank, shape_is_checked};
use nd_picture_text::{Header, Image};
use nd_shape_and_slice::{Axis, NoMemory, slices};
use std::alloc::Global;

/// Returns the array with the shape `height`, `width` and `channels`, and with `samples` as its elements in row-major
/// order.
fn shaped(height: usize, width: usize, channels: usize, samples: Vec<u16>) -> Array3<u16>
    requires height { 0 < height }
    requires width { 0 < width }
    requires channels { 0 < channels }
    requires count { length samples.items ≡ height * width * channels }
    ensures shape { shape_of result ≡ height ∷ width ∷ channels ∷ [] }
    ensures samples { HasInOrder (meaning_of result) height width channels samples.items }
{
    match Array3::from_shape_vec((height, width, channels), samples) {
        Ok(array) => array,
        Err(_) => unreachable!(),
    }
}

/// Returns the samples of an image as an array with the axes rows, columns and channels.
fn array_of(image: Image) -> Array3<u16>
    requires { IsWholeImage (pixmap_of image) }
    ensures { Shows (meaning_of result) (picture_in (pixmap_of image)) }
{
    let Image { header, samples } = image;
    shaped(header.height, header.width, header.kind.channels(), samples)
}

/// Returns the picture of an image as an array with the axes rows, columns and channels. The image's header fits it.
pub fn picture_of(image: Image) -> Array3<u16>
    requires { IsWholeImage (pixmap_of image) }
    ensures shown { Shows (meaning_of result) (picture_in (pixmap_of image)) }
    ensures fits { FitsHeader image.header (meaning_of result) }
{
    array_of(image)
}

/// Copies the samples of `channel` from `picture` to `laid`.
fn copy_channel(
    laid: &mut Array3<u16>,
    picture: &Array3<u16>,
    channel: usize,
) -> Result<(), NoMemory>
    requires same { shape_of picture.now ≡ shape_of laid.old }
    requires channel { channel < slice_index (shape_of laid.old) 2 }
    ensures shape { shape_of laid.new ≡ shape_of laid.old }
    ensures strides { layout_strides laid.new ≡ layout_strides laid.old }
    ensures copied { OnOk result (HasChannel (meaning_of laid.new) (meaning_of picture.now) channel) }
    ensures others { HasChannelsBelow (meaning_of laid.new) (meaning_of laid.old) channel }
{
    let plane = picture.index_axis(Axis(2), channel);
    laid.assign_slice(slices![.., .., channel], &plane)
}

/// Copies the samples from `picture` to `laid`, channel by channel. The lanes that are copied are then whole rows or
/// columns of a channel.
fn copy_channels(laid: &mut Array3<u16>, picture: &Array3<u16>) -> Result<(), NoMemory>
    requires same { shape_of picture.now ≡ shape_of laid.old }
    ensures shape { shape_of laid.new ≡ shape_of laid.old }
    ensures strides { layout_strides laid.new ≡ layout_strides laid.old }
    ensures copied { OnOk result (HasSamplesOf (meaning_of laid.new) (meaning_of picture.now)) }
{
    let (_, _, channels) = picture.dim();
    for channel in 0..channels {
        copy_channel(laid, picture, channel)?;
    }
    Ok(())
}

/// Copies the samples from `picture` to `laid`, row by row.
fn copy_rows(laid: &mut Array3<u16>, picture: &Array3<u16>) -> Result<(), NoMemory>
    requires same { shape_of picture.now ≡ shape_of laid.old }
    ensures shape { shape_of laid.new ≡ shape_of laid.old }
    ensures strides { layout_strides laid.new ≡ layout_strides laid.old }
    ensures copied { OnOk result (HasSamplesOf (meaning_of laid.new) (meaning_of picture.now)) }
{
    broadcast_to_itself(picture);
    laid.assign(picture)
}

/// Returns whether the pixels of a row lie side by side in memory, in order.
fn has_rows(picture: &Array3<u16>) -> bool {
    let (_, _, channels) = picture.dim();
    picture.stride_of(Axis(1)) == channels as isize
}

/// Copies the samples from `picture` to `laid`, by rows if the pixels of each row lie side by side, and otherwise by
/// channels.
fn copy_into(laid: &mut Array3<u16>, picture: &Array3<u16>) -> Result<(), NoMemory>
    requires same { shape_of picture.now ≡ shape_of laid.old }
    ensures shape { shape_of laid.new ≡ shape_of laid.old }
    ensures strides { layout_strides laid.new ≡ layout_strides laid.old }
    ensures copied { OnOk result (HasSamplesOf (meaning_of laid.new) (meaning_of picture.now)) }
{
    if has_rows(picture) {
        copy_rows(laid, picture)
    } else {
        copy_channels(laid, picture)
    }
}

/// Returns a copy of `picture` in the standard layout (row-major and contiguous).
fn laid_in_order(alloc: Global, picture: &Array3<u16>) -> Result<Array3<u16>, NoMemory>
    ensures shape { IfOk result (λ a. shape_of a ≡ shape_of picture.now) }
    ensures copied { IfOk result (λ a. HasSamplesOf (meaning_of a) (meaning_of picture.now)) }
    ensures standard { IfOk result IsStandardArray }
{
    shape_is_checked(picture);
    let mut laid = Array3::zeros(alloc, picture.raw_dim())?;
    copy_into(&mut laid, picture)?;
    Ok(laid)
}

/// Returns `picture` in the standard layout: the array itself if it has that layout, and otherwise a copy.
pub(crate) fn laid_out(alloc: Global, picture: Array3<u16>) -> Result<Array3<u16>, NoMemory>
    ensures shown { IfOk result (λ a. (p : Picture) → Shows (meaning_of picture) p → Shows (meaning_of a) p) }
    ensures standard { IfOk result IsStandardArray }
{
    if picture.is_standard_layout() {
        return Ok(picture);
    }
    let laid = laid_in_order(alloc, &picture)?;
    Ok(laid)
}

/// Returns the samples of a picture in the standard layout as one slice.
pub(crate) fn samples_in(picture: &Array3<u16>) -> &[u16]
    requires { IsStandardArray picture.now }
    ensures elements { result.now ≡ row_major_elements (meaning_of picture.now) }
    ensures samples { (p : Picture) → Shows (meaning_of picture.now) p → Lists result.now p }
{
    elements_by_rank(picture);
    match picture.as_slice() {
        Some(samples) => samples,
        None => unreachable!(),
    }
}

/// Returns the samples of `picture`, row by row, pixel by pixel and channel by channel.
fn samples_of(alloc: Global, picture: &Array3<u16>) -> Result<Vec<u16>, NoMemory>
    ensures samples { IfOk result (λ v. (p : Picture) → Shows (meaning_of picture.now) p → Lists v.items p) }
    ensures refused { OnErr result (0 < size_of (shape_of picture.now)) }
{
    elements_by_rank(picture);
    let samples = picture.to_vec(alloc)?;
    Ok(samples)
}

/// Returns the image of `picture`, with the format and the maxval of `header`. Fails with `NoMemory` if storage is
/// refused; a picture without samples asks for none. Where the header fits the picture, the image is whole: what is
/// written of it can be read.
pub fn image_of(alloc: Global, header: Header, picture: &Array3<u16>) -> Result<Image, NoMemory>
    ensures image { IfOk result (λ image. IsImageShown header (meaning_of picture.now) (pixmap_of image)) }
    ensures refused { OnErr result (0 < size_of (shape_of picture.now)) }
    ensures whole { FitsHeader header (meaning_of picture.now) → IfOk result (λ image. IsWholeImage (pixmap_of image)) }
{
    let (height, width, _channels) = picture.dim();
    let samples = samples_of(alloc, picture)?;
    Ok(Image {
        header: Header {
            kind: header.kind,
            width,
            height,
            maxval: header.maxval,
        },
        samples,
    })
}
