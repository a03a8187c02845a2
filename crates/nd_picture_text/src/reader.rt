//! Reading an image.

ghost use Rattle.std.specs.Prelude.{◌≡◌, length, IfOk, Err};
ghost use Rattle.nd_picture_text.specs.ImageFormatsAndHeaders.{pixmap_of, IsWholeImage};
ghost use Rattle.nd_picture_text.specs.ImageReading.{ReadsAs, image_in, counted, AsksForSamples};
ghost use Rattle.nd_picture_text.specs.declared.errors.ImageError.TheVariants.{Memory};

use crate::errors::ImageError;
use crate::header::header_in;
use crate::image_formats::Image;
use crate::raster_samples::{bad_byte, raster_in};
use std::alloc::Global;

/// Reads the image at the front of `bytes`. In an error the byte is the number of bytes that are left where reading
/// stops.
#[tactic(auto, unfolding(crate::specs::ImageReading::image_in))]
fn image_in(alloc: Global, bytes: &[u8]) -> Result<Image, ImageError>
    ensures read { ReadsAs pixmap_of result (image_in bytes.now) }
    ensures memory { result ≡ Err Memory → AsksForSamples bytes.now }
    ensures whole { IfOk result (λ image. IsWholeImage (pixmap_of image)) }
{
    match header_in(bytes) {
        Ok((header, rest)) => match raster_in(alloc, header, rest) {
            Ok(samples) => Ok(Image { header, samples }),
            Err(error) => Err(error),
        },
        Err(stop) => Err(bad_byte(stop)),
    }
}

/// Reads an image in one of the formats P1 to P6, with a width and a height from 1 to 1,000,000,000. What
/// follows its last sample isn't looked at, so of several images the first is read.
///
/// # Errors
///
/// `BadByte` if the bytes begin with no image: it tells the position of the first byte at which no image can go on,
/// counted from 0, and what is wrong there; if a byte is missing, this is the number of bytes. `Memory` if memory is
/// refused. No memory is asked for samples that aren't there.
pub fn read_image(alloc: Global, bytes: &[u8]) -> Result<Image, ImageError>
    ensures read { ReadsAs pixmap_of result (counted (length bytes.now) (image_in bytes.now)) }
    ensures memory { result ≡ Err Memory → AsksForSamples bytes.now }
    ensures whole { IfOk result (λ image. IsWholeImage (pixmap_of image)) }
{
    match image_in(alloc, bytes) {
        Ok(image) => Ok(image),
        Err(ImageError::BadByte { byte, flaw }) => Err(ImageError::BadByte {
            byte: bytes.len().saturating_sub(byte),
            flaw,
        }),
        Err(ImageError::Memory) => Err(ImageError::Memory),
    }
}
