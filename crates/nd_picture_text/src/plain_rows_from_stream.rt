//! Reading the rows of an image whose samples are written in digits from a stream, a few at a time. How many bytes a row
//! takes is known only once it is read, so a row counts as read once a byte follows it, or the input has ended.
#![tactic(auto, using(crate::proofs::RasterSamples::after_none, crate::proofs::RasterSamples::after_more))]

ghost use Rattle.std.specs.Prelude.{◌≡◌, ◌<◌, ◌≤◌, ◌-◌, length, drop, IfOk, IfErr, true};
ghost use Rattle.std.specs.Result.{result_map_both};
ghost use Rattle.nd_text.specs.WatchedReadersAndWriters.{watched_failed, watched_retried};
ghost use Rattle.nd_picture_text.specs.ImageFormatsAndHeaders.{pixmap_of, is_plain, is_bitmap, IsHeader, IsWholeImage};
ghost use Rattle.nd_picture_text.specs.PlainRowReading.{PutsSamples, PutsSettled, AreAtFront, TellsFirstRow};
ghost use Rattle.nd_picture_text.specs.RowwiseImageReading.{with_rows, row_samples, still_given, AreNextRows, TellsBadRow, is_rows_failure};

use crate::errors::{ImageError, ImageFlaw};
use crate::image_formats::{Header, Image};
use crate::raster_samples::{bad_byte, keep, plain_sample};
use crate::rows_from_stream::{Rows, RowsError, drop_front, with_rows};
use nd_text::Watched;
use nd_text::read_input::{InputError, fill};
use std::alloc::Global;
use std::io::Read;

/// The number of bytes that are read at first.
const FRONT_LEN: usize = 262_144;

/// Rows at the front of some bytes.
#[derive(Drop)]
pub(crate) struct WholeRows {
    /// The samples of the rows.
    pub(crate) samples: Vec<u16>,
    /// The number of rows.
    pub(crate) count: usize,
    /// The number of bytes that follow the rows.
    pub(crate) left: usize,
}

/// Reads `count` samples of an image with the header `header` from the front of `bytes`, and appends them to `samples`.
/// Returns the bytes after them. After an error some of the samples may have been appended.
fn read_row<'a>(
    samples: &mut Vec<u16>,
    header: Header,
    count: usize,
    bytes: &'a [u8],
) -> Result<&'a [u8], ImageError>
    requires plain { is_plain header.kind ≡ true }
    requires bits { is_bitmap header.kind ≡ true → header.maxval ≡ 1 }
    ensures { PutsSamples header count bytes.now samples.old.items samples.new.items (result_map_both (λ rest. rest.now) (λ e. e) result) }
{
    let mut missing = count;
    let mut rest = bytes;
    while missing > 0 {
        match plain_sample(header, rest) {
            Ok((sample, after)) => {
                keep(samples, sample)?;
                rest = after;
            }
            Err(stop) => return Err(bad_byte(stop)),
        }
        missing -= 1;
    }
    Ok(rest)
}

/// Reads a row of `count` samples of an image with the header `header` from the front of `bytes`, and appends them to
/// `samples`. Returns the bytes after them. If there are none and the input hasn't ended, bytes that follow might belong to
/// the last sample: then it fails as it does if a sample is missing. After an error other than lack of memory `samples` is
/// as it was.
fn read_settled_row<'a>(
    samples: &mut Vec<u16>,
    header: Header,
    count: usize,
    bytes: &'a [u8],
    ended: bool,
) -> Result<&'a [u8], ImageError>
    requires plain { is_plain header.kind ≡ true }
    requires bits { is_bitmap header.kind ≡ true → header.maxval ≡ 1 }
    ensures { PutsSettled header count bytes.now ended samples.old.items samples.new.items (result_map_both (λ rest. rest.now) (λ e. e) result) }
{
    let kept = samples.len();
    match read_row(samples, header, count, bytes) {
        Ok(rest) => {
            if ended || !rest.is_empty() {
                return Ok(rest);
            }
            samples.truncate(kept);
            Err(bad_byte((0, ImageFlaw::TooShort)))
        }
        Err(ImageError::BadByte { byte, flaw }) => {
            samples.truncate(kept);
            Err(bad_byte((byte, flaw)))
        }
        Err(ImageError::Memory) => Err(ImageError::Memory),
    }
}

/// Reads rows of `row` samples each from the front of `bytes`, at most `missing`: all that are whole. Fails if the first row
/// isn't.
fn whole_rows(
    alloc: Global,
    header: Header,
    row: usize,
    missing: usize,
    bytes: &[u8],
    ended: bool,
) -> Result<WholeRows, ImageError>
    requires plain { is_plain header.kind ≡ true }
    requires bits { is_bitmap header.kind ≡ true → header.maxval ≡ 1 }
    requires some { 0 < missing }
    ensures rows { IfOk result (λ found. AreAtFront header row missing bytes.now ended found) }
    ensures stop { IfErr result (λ e. TellsFirstRow header row bytes.now ended e) }
{
    let mut samples = Vec::new(alloc);
    let mut rest = bytes;
    let mut count = 0;
    while count < missing {
        match read_settled_row(&mut samples, header, row, rest, ended) {
            Ok(after) => rest = after,
            Err(ImageError::BadByte { byte, flaw }) => {
                if count == 0 {
                    return Err(bad_byte((byte, flaw)));
                }
                return Ok(WholeRows {
                    samples,
                    count,
                    left: rest.len(),
                });
            }
            Err(ImageError::Memory) => return Err(ImageError::Memory),
        }
        count += 1;
    }
    Ok(WholeRows {
        samples,
        count,
        left: rest.len(),
    })
}

/// Returns the number of samples of a row of an image with the header `header`.
fn row_samples(header: Header) -> usize
    requires { IsHeader header }
    ensures { result ≡ row_samples header 1 }
{
    header.width * header.kind.channels()
}

/// Removes the bytes of `found` from the front of `bytes`, and returns the rows as a part of an image with the header
/// `header`.
fn take_rows(bytes: &mut Vec<u8>, header: Header, found: WholeRows) -> Rows
    requires { found.left ≤ length bytes.old.items }
    ensures left { bytes.new.items ≡ drop (length bytes.old.items - found.left) bytes.old.items }
    ensures size { result.size ≡ length bytes.old.items - found.left }
    ensures header { result.image.header ≡ with_rows found.count header }
    ensures samples { result.image.samples ≡ found.samples }
{
    let WholeRows {
        samples,
        count,
        left,
    } = found;
    let size = bytes.len() - left;
    drop_front(bytes, size);
    Rows {
        image: Image {
            header: with_rows(header, count),
            samples,
        },
        size,
    }
}

/// Reads some rows of an image with the header `header`, whose samples are written in digits, and of which `missing` rows
/// are still to be read: all that are whole in `bytes`, which were read before, and one at least. Where that isn't in
/// `bytes`, it reads on. The bytes of the rows are then no more in `bytes`.
///
/// # Errors
///
/// `BadByte` if the bytes are no rows of such an image, and thus no image with these rows begins so. `Memory` if memory
/// is refused, and `ReadFailed` if a read fails.
pub(crate) fn next_plain_rows<R: Read>(
    alloc: Global,
    input: &mut Watched<R>,
    bytes: &mut Vec<u8>,
    header: Header,
    missing: usize,
) -> Result<Rows, RowsError>
    requires header { IsHeader header }
    requires plain { is_plain header.kind ≡ true }
    requires some { 0 < missing }
    requires few { missing ≤ header.height }
    ensures rows { IfOk result (λ rows. AreNextRows header missing
        (still_given R.remaining input.old bytes.old.items) (still_given R.remaining input.new bytes.new.items) rows) }
    ensures bad { IfErr result (λ e. TellsBadRow header missing (still_given R.remaining input.old bytes.old.items) e) }
    ensures whole { IfOk result (λ rows. IsWholeImage (pixmap_of rows.image)) }
    ensures failed { watched_failed input.new ≡ is_rows_failure result }
    ensures stops { watched_retried input.new ≡ watched_retried input.old }
{
    let row = row_samples(header);
    let mut size = FRONT_LEN;
    loop {
        match fill(input, bytes, size) {
            Ok(()) => {}
            Err(InputError::Failed) => return Err(RowsError::ReadFailed),
            Err(InputError::Memory) => return Err(RowsError::Memory),
        }
        let ended = bytes.len() < size;
        match whole_rows(alloc, header, row, missing, bytes, ended) {
            Ok(found) => return Ok(take_rows(bytes, header, found)),
            Err(ImageError::BadByte { byte, flaw }) => {
                if ended || byte > 0 {
                    return Err(RowsError::BadByte {
                        byte: bytes.len().saturating_sub(byte),
                        flaw,
                    });
                }
            }
            Err(ImageError::Memory) => return Err(RowsError::Memory),
        }
        match size.checked_mul(2) {
            Some(more) => size = more,
            None => return Err(RowsError::Memory),
        }
    }
}
