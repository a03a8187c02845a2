//! Packed bitmaps (P4), in which a byte is eight pixels and each row begins with a new byte: their pixels read from
//! bytes, and written as bytes. A bit that is 1 is black, which is the sample 0.
#![tactic(auto)]

ghost use Rattle.std.specs.Prelude.{◌≡◌, ◌<◌, ◌≤◌, ◌^◌, ◌*◌, [], ◌∷◌, ◌++◌, ◌+◌, ◌-◌, min, All, OnOk, IfOk, IfErr, Err, length, ◌==◌, if◌then◌else◌};
ghost use Rattle.nd_text.specs.BufferedPrinting.{Puts};
ghost use Rattle.nd_picture_text.specs.ImageReading.{ReadsAs, packed_in};
ghost use Rattle.nd_picture_text.specs.PackedBitmaps.{row_size, pixels_of, row_pixels, rows_pixels, packed_byte, row_text, rows_text};
ghost use Rattle.nd_picture_text.specs.declared.errors.ImageError.TheVariants.{Memory};

use crate::errors::{ImageError, ImageFlaw};
use crate::raster_samples::{bad_byte, keep};
use nd_text::buffered_printing::put;
use nd_text::{Page, Watched};
use std::alloc::Global;
use std::io::Write;

/// Returns the number of bytes that a row of `width` pixels takes.
pub(crate) fn row_size(width: usize) -> usize
    ensures { result ≡ row_size width }
{
    let whole = width / 8;
    if width % 8 == 0 { whole } else { whole + 1 }
}

/// Appends the first `count` pixels of `byte` to `samples`.
#[tactic(auto, using(crate::proofs::PackedBitmapLoops::pixels_more))]
fn keep_pixels(samples: &mut Vec<u16>, count: usize, byte: u8) -> Result<(), ImageError>
    ensures kept { OnOk result (samples.new.items ≡ samples.old.items ++ pixels_of count byte) }
    ensures memory { IfErr result (λ e. e ≡ Memory) }
{
    let mut bits = byte;
    let mut missing = count;
    while missing > 0 {
        keep(samples, u16::from(1 - bits / 128))?;
        bits = bits % 128 * 2;
        missing -= 1;
    }
    Ok(())
}

/// Appends the `width` pixels of the row `row` to `samples`.
#[tactic(auto, using(crate::proofs::PackedBitmapLoops::row_on))]
fn keep_row(samples: &mut Vec<u16>, width: usize, row: &[u8]) -> Result<(), ImageError>
    ensures kept { OnOk result (samples.new.items ≡ samples.old.items ++ row_pixels width row.now) }
    ensures memory { IfErr result (λ e. e ≡ Memory) }
{
    let mut left = width;
    let mut rest = row;
    while let [byte, after @ ..] = rest {
        keep_pixels(samples, left.min(8), *byte)?;
        left = left.saturating_sub(8);
        rest = after;
    }
    Ok(())
}

/// Returns the pixels of `height` rows of `width` pixels each, which the bytes `raster` are, in `room`, which is empty.
#[tactic(auto, using(crate::proofs::PackedBitmapLoops::size_fits, crate::proofs::PackedBitmapPixels::kept_count, crate::proofs::PackedBitmapPixels::kept_light))]
fn keep_rows(
    room: Vec<u16>,
    width: usize,
    height: usize,
    raster: &[u8],
) -> Result<Vec<u16>, ImageError>
    requires empty { room.items ≡ [] }
    requires width { width ≤ 1000000000 }
    requires size { length raster.now ≡ height * row_size width }
    ensures kept { IfOk result (λ v. v.items ≡ rows_pixels width height raster.now) }
    ensures count { IfOk result (λ v. length v.items ≡ height * width) }
    ensures within { IfOk result (λ v. All (λ s. s ≤ 1) v.items) }
    ensures memory { IfErr result (λ e. e ≡ Memory) }
{
    let mut samples = room;
    let size = row_size(width);
    let mut missing = height;
    let mut rest = raster;
    while missing > 0 {
        let (row, after) = rest.split_at(size);
        keep_row(&mut samples, width, row)?;
        rest = after;
        missing -= 1;
    }
    Ok(samples)
}

/// Reads `height` rows of `width` pixels each from the front of `bytes`. In an error the byte is the number of bytes that
/// are left where reading stops.
#[tactic(auto, using(crate::proofs::PackedBitmapPixels::packed_short, crate::proofs::PackedBitmapPixels::packed_enough, crate::proofs::RasterSamples::few_samples))]
pub(crate) fn packed_in(
    alloc: Global,
    width: usize,
    height: usize,
    bytes: &[u8],
) -> Result<Vec<u16>, ImageError>
    requires width { width ≤ 1000000000 }
    requires height { height ≤ 1000000000 }
    ensures read { ReadsAs (λ v. v.items) result (packed_in width height bytes.now) }
    ensures memory { result ≡ Err Memory → height * row_size width ≤ length bytes.now }
    ensures count { IfOk result (λ v. length v.items ≡ height * width) }
    ensures within { IfOk result (λ v. All (λ s. s ≤ 1) v.items) }
{
    let size = height * row_size(width);
    if bytes.len() < size {
        return Err(bad_byte((0, ImageFlaw::TooShort)));
    }
    keep_rows(
        Vec::with_capacity(alloc, height * width)?,
        width,
        height,
        &bytes[..size],
    )
}

/// Returns `weight` for a black pixel, and 0 for another one.
fn bit_of(sample: u16, weight: u8) -> u8
    ensures { result ≡ if sample == 0 then weight else 0 }
{
    if sample == 0 { weight } else { 0 }
}

/// Returns the byte that has a bit for each of the samples, from the most significant bit on.
#[tactic(auto, using(crate::proofs::PackedBitmapLoops::byte_more, crate::proofs::PackedBitmapPixels::byte_low))]
fn packed_byte(samples: &[u16]) -> u8
    ensures { result ≡ packed_byte 128 samples.now }
{
    let mut byte = 0;
    let mut weight = 128;
    let mut rest = samples;
    while let [sample, after @ ..] = rest {
        byte += bit_of(*sample, weight);
        weight /= 2;
        rest = after;
    }
    byte
}

/// Writes the samples of a row as `size` bytes.
fn put_row<W: Write>(output: &mut Watched<W>, page: &mut Page, size: usize, row: &[u16])
    ensures { Puts W.contents output.old page.old output.new page.new (row_text size row.now) }
{
    let mut missing = size;
    let mut rest = row;
    while missing > 0 {
        let count = 8_usize.min(rest.len());
        let (front, after) = rest.split_at(count);
        put(output, page, &[packed_byte(front)]);
        rest = after;
        missing -= 1;
    }
}

/// Writes the samples of `height` rows of `width` samples each.
pub(crate) fn put_rows<W: Write>(
    output: &mut Watched<W>,
    page: &mut Page,
    width: usize,
    height: usize,
    samples: &[u16],
)
    ensures { Puts W.contents output.old page.old output.new page.new (rows_text width height samples.now) }
{
    let size = row_size(width);
    let mut missing = height;
    let mut rest = samples;
    while missing > 0 {
        let count = width.min(rest.len());
        let (row, after) = rest.split_at(count);
        put_row(output, page, size, row);
        rest = after;
        missing -= 1;
    }
}
