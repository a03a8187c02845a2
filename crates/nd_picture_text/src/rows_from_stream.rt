//! Reading the rows of an image from a stream, a few at a time.

ghost use Rattle.std.specs.Prelude.{◌≡◌, ◌<◌, ◌≤◌, ◌*◌, length, drop, IfOk, IfErr, false};
ghost use Rattle.nd_text.specs.WatchedReadersAndWriters.{watched_failed, watched_retried};
ghost use Rattle.nd_picture_text.specs.ImageFormatsAndHeaders.{pixmap_of, is_plain, IsHeader, IsWholeImage};
ghost use Rattle.nd_picture_text.specs.ImageReading.{ReadsAs, raster_in};
ghost use Rattle.nd_picture_text.specs.RowwiseImageReading.{with_rows, row_bytes, still_given, AreNextRows, AreRawRows, TellsBadRow, IsInRawRows, is_rows_failure};

use crate::errors::{ImageError, ImageFlaw};
use crate::image_formats::{Header, Image};
use crate::packed_bitmaps;
use crate::plain_rows_from_stream::next_plain_rows;
use crate::raster_samples::raster_in;
use nd_text::Watched;
use nd_text::read_input::{InputError, fill};
use std::alloc::Global;
use std::io::Read;

/// Some rows of an image, as they were read.
#[derive(Drop)]
pub struct Rows {
    /// The rows, as an image of their own.
    pub image: Image,
    /// The number of bytes that the rows took.
    pub size: usize,
}

/// Why the next rows of an image are not read.
#[derive(Clone, Copy, Debug, PartialEq, Eq)]
pub enum RowsError {
    /// The bytes are no rows of the image.
    BadByte {
        /// The position of the first byte at which no image can go on, counted from the first byte of the rows, which is
        /// 0.
        byte: usize,
        /// What is wrong at that byte.
        flaw: ImageFlaw,
    },
    /// Memory was refused.
    Memory,
    /// A read failed.
    ReadFailed,
}

/// Returns `header` with `count` rows in place of its own.
pub fn with_rows(header: Header, count: usize) -> Header
    ensures { result ≡ with_rows count header }
{
    Header {
        height: count,
        ..header
    }
}

/// Returns the number of bytes that a row takes in a raw image with the header `header`.
fn row_size(header: Header) -> usize
    requires { IsHeader header }
    ensures size { result ≡ row_bytes header 1 }
    ensures some { 0 < result }
    ensures few { result ≤ 6000000000 }
{
    if header.kind.is_packed() {
        return packed_bitmaps::row_size(header.width);
    }
    let samples = header.width * header.kind.channels();
    if header.maxval < 256 {
        samples
    } else {
        samples * 2
    }
}

/// Returns how many of `missing` rows of `size` bytes can be taken from `len` bytes; or 1 if none can.
fn rows_at_hand(len: usize, size: usize, missing: usize) -> usize
    requires size { 0 < size }
    requires missing { 0 < missing }
    ensures some { 0 < result }
    ensures few { result ≤ missing }
    ensures whole { size ≤ len → result * size ≤ len }
{
    (len / size).min(missing).max(1)
}

/// Removes the first `count` bytes.
pub fn drop_front(bytes: &mut Vec<u8>, count: usize)
    requires { count ≤ length bytes.old.items }
    ensures { bytes.new.items ≡ drop count bytes.old.items }
{
    let left = bytes.len() - count;
    bytes.copy_within(count.., 0);
    bytes.truncate(left);
}

/// Reads an image whose header is `header` from `bytes`, which are those of its samples. In an error the byte is the
/// number of bytes that are left where reading stops.
fn rows_in(alloc: Global, header: Header, bytes: &[u8]) -> Result<Image, ImageError>
    requires header { IsHeader header }
    ensures read { ReadsAs (λ image. image.samples.items) result (raster_in header bytes.now) }
    ensures header { IfOk result (λ image. image.header ≡ header) }
    ensures whole { IfOk result (λ image. IsWholeImage (pixmap_of image)) }
{
    match raster_in(alloc, header, bytes) {
        Ok(samples) => Ok(Image { header, samples }),
        Err(error) => Err(error),
    }
}

/// Reads some rows of a raw image as `next_rows` does.
fn next_raw_rows<R: Read>(
    alloc: Global,
    input: &mut Watched<R>,
    bytes: &mut Vec<u8>,
    header: Header,
    missing: usize,
) -> Result<Rows, RowsError>
    requires header { IsHeader header }
    requires raw { is_plain header.kind ≡ false }
    requires some { 0 < missing }
    requires few { missing ≤ header.height }
    ensures rows { IfOk result (λ rows. AreNextRows header missing
        (still_given R.remaining input.old bytes.old.items) (still_given R.remaining input.new bytes.new.items) rows) }
    ensures bad { IfErr result (λ e. TellsBadRow header missing (still_given R.remaining input.old bytes.old.items) e) }
    ensures raw { IfOk result (λ rows. AreRawRows header
        (still_given R.remaining input.old bytes.old.items) (still_given R.remaining input.new bytes.new.items) rows) }
    ensures near { IfErr result (λ e. IsInRawRows header missing e) }
    ensures whole { IfOk result (λ rows. IsWholeImage (pixmap_of rows.image)) }
    ensures failed { watched_failed input.new ≡ is_rows_failure result }
    ensures stops { watched_retried input.new ≡ watched_retried input.old }
{
    let size = row_size(header);
    match fill(input, bytes, size) {
        Ok(()) => {}
        Err(InputError::Failed) => return Err(RowsError::ReadFailed),
        Err(InputError::Memory) => return Err(RowsError::Memory),
    }
    let count = rows_at_hand(bytes.len(), size, missing);
    let front = (count * size).min(bytes.len());
    match rows_in(alloc, with_rows(header, count), &bytes[..front]) {
        Ok(image) => {
            drop_front(bytes, front);
            Ok(Rows { image, size: front })
        }
        Err(ImageError::BadByte { byte, flaw }) => Err(RowsError::BadByte {
            byte: front.saturating_sub(byte),
            flaw,
        }),
        Err(ImageError::Memory) => Err(RowsError::Memory),
    }
}

/// Reads some rows of an image with the header `header`, of which `missing` rows are still to be read: as many as are in
/// `bytes`, which were read before, and one at least. Where that isn't in `bytes`, it reads on. The bytes of the rows
/// are then no more in `bytes`.
///
/// # Errors
///
/// `BadByte` if the bytes are no rows of such an image, and thus no image with these rows begins so. `Memory` if memory
/// is refused, and `ReadFailed` if a read fails.
pub fn next_rows<R: Read>(
    alloc: Global,
    input: &mut Watched<R>,
    bytes: &mut Vec<u8>,
    header: Header,
    missing: usize,
) -> Result<Rows, RowsError>
    requires header { IsHeader header }
    requires some { 0 < missing }
    requires few { missing ≤ header.height }
    ensures rows { IfOk result (λ rows. AreNextRows header missing
        (still_given R.remaining input.old bytes.old.items) (still_given R.remaining input.new bytes.new.items) rows) }
    ensures bad { IfErr result (λ e. TellsBadRow header missing (still_given R.remaining input.old bytes.old.items) e) }
    ensures raw { is_plain header.kind ≡ false → IfOk result (λ rows. AreRawRows header
        (still_given R.remaining input.old bytes.old.items) (still_given R.remaining input.new bytes.new.items) rows) }
    ensures near { is_plain header.kind ≡ false → IfErr result (λ e. IsInRawRows header missing e) }
    ensures whole { IfOk result (λ rows. IsWholeImage (pixmap_of rows.image)) }
    ensures failed { watched_failed input.new ≡ is_rows_failure result }
    ensures stops { watched_retried input.new ≡ watched_retried input.old }
{
    if header.kind.is_plain() {
        next_plain_rows(alloc, input, bytes, header, missing)
    } else {
        next_raw_rows(alloc, input, bytes, header, missing)
    }
}
