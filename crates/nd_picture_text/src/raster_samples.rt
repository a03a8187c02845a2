//! Reading an image's samples. In each error here the byte is the number of bytes that are left where reading stops.
#![tactic(auto, using(crate::proofs::RasterSamples::after_none, crate::proofs::RasterSamples::after_more))]

ghost use Rattle.std.specs.Prelude.{◌≡◌, ◌<◌, ◌≤◌, ◌^◌, ◌*◌, [], ◌∷◌, ◌++◌, ◌+◌, All, OnOk, IfOk, IfErr, Err, length, true, false};
ghost use Rattle.std.specs.Result.{result_map_both};
ghost use Rattle.nd_picture_text.specs.ImageFormatsAndHeaders.{is_plain, is_bitmap, sample_count};
ghost use Rattle.nd_picture_text.specs.ImageReading.{ReadsAs, number_in, bit_here, plain_sample, narrow_sample, low_half, wide_sample, sample_in, samples_in, raster_in, raw_size, HasRawSize};
ghost use Rattle.nd_picture_text.specs.declared.errors.ImageError.TheVariants.{BadByte, Memory};
ghost use Rattle.nd_picture_text.specs.declared.errors.ImageFlaw.TheVariants.{Sample};

use crate::errors::{ImageError, ImageFlaw};
use crate::header::number_in;
use crate::image_formats::Header;
use crate::numbers_in_image_text::after_gap;
use crate::packed_bitmaps::packed_in;
use std::alloc::Global;

/// Returns the error that a byte is bad, from `stop`, which tells the byte and what is wrong there.
pub(crate) fn bad_byte(stop: (usize, ImageFlaw)) -> ImageError
    ensures { result ≡ BadByte stop.0 stop.1 }
{
    let (byte, flaw) = stop;
    ImageError::BadByte { byte, flaw }
}

/// Appends `sample` to `samples`.
pub(crate) fn keep(samples: &mut Vec<u16>, sample: u16) -> Result<(), ImageError>
    ensures kept { OnOk result (samples.new.items ≡ samples.old.items ++ sample ∷ []) }
    ensures memory { IfErr result (λ e. e ≡ Memory) }
{
    match samples.push(sample) {
        Ok(()) => Ok(()),
        Err(_) => Err(ImageError::Memory),
    }
}

/// Reads a sample of a bitmap that is the first byte of `text`: the digit 0 for white, or 1 for black. Returns it and the
/// bytes after it.
fn bit_here(text: &[u8]) -> Result<(u16, &[u8]), (usize, ImageFlaw)>
    ensures value { result_map_both (λ x. (x.0, x.1.now)) (λ stop. stop) result ≡ bit_here text.now }
    ensures within { IfOk result (λ x. x.0 ≤ 1) }
{
    match text {
        [] => Err((0, ImageFlaw::TooShort)),
        [b'0', after @ ..] => Ok((1, after)),
        [b'1', after @ ..] => Ok((0, after)),
        _ => Err((text.len(), ImageFlaw::Sample)),
    }
}

/// Reads a sample that is a decimal number of at most `maxval` from the front of `text`. Returns it and the bytes after
/// it and one blank.
fn number_sample(maxval: u16, text: &[u8]) -> Result<(u16, &[u8]), (usize, ImageFlaw)>
    ensures value { result_map_both (λ x. (x.0, x.1.now)) (λ stop. stop) result ≡ number_in Sample false maxval text.now }
    ensures within { IfOk result (λ x. x.0 ≤ maxval) }
{
    match number_in(ImageFlaw::Sample, false, maxval as usize, text) {
        Ok((sample, rest)) => Ok((sample as u16, rest)),
        Err(stop) => Err(stop),
    }
}

/// Reads the next sample that is written in digits from the front of `text`. Returns it and the bytes after it, and
/// after one blank if it is a number.
pub(crate) fn plain_sample(header: Header, text: &[u8]) -> Result<(u16, &[u8]), (usize, ImageFlaw)>
    requires { is_bitmap header.kind ≡ true → header.maxval ≡ 1 }
    ensures value { result_map_both (λ x. (x.0, x.1.now)) (λ stop. stop) result ≡ plain_sample header text.now }
    ensures within { IfOk result (λ x. x.0 ≤ header.maxval) }
{
    if header.kind.is_bitmap() {
        bit_here(after_gap(text))
    } else {
        number_sample(header.maxval, text)
    }
}

/// Reads a sample of one byte from the front of `bytes`. Returns it and the bytes after it. Fails if it is above
/// `maxval`.
fn narrow_sample(maxval: u16, bytes: &[u8]) -> Result<(u16, &[u8]), (usize, ImageFlaw)>
    ensures value { result_map_both (λ x. (x.0, x.1.now)) (λ stop. stop) result ≡ narrow_sample maxval bytes.now }
    ensures within { IfOk result (λ x. x.0 ≤ maxval) }
{
    match bytes {
        [] => Err((0, ImageFlaw::TooShort)),
        [byte, after @ ..] => {
            let sample = u16::from(*byte);
            if sample > maxval {
                return Err((bytes.len(), ImageFlaw::AboveMaxval));
            }
            Ok((sample, after))
        }
    }
}

/// Reads the less significant byte of a sample from the front of `bytes`, where the other byte is worth `high`. Returns
/// the sample and the bytes after it. Fails if it is above `maxval`.
fn low_half(maxval: u16, high: u16, bytes: &[u8]) -> Result<(u16, &[u8]), (usize, ImageFlaw)>
    requires { high ≤ 65280 }
    ensures value { result_map_both (λ x. (x.0, x.1.now)) (λ stop. stop) result ≡ low_half maxval high bytes.now }
    ensures within { IfOk result (λ x. x.0 ≤ maxval) }
{
    match bytes {
        [] => Err((0, ImageFlaw::TooShort)),
        [byte, after @ ..] => {
            let sample = high + u16::from(*byte);
            if sample > maxval {
                return Err((bytes.len(), ImageFlaw::AboveMaxval));
            }
            Ok((sample, after))
        }
    }
}

/// Reads a sample of two bytes from the front of `bytes`, the more significant byte first. Returns it and the bytes
/// after it. Fails at the first byte with which it is above `maxval`.
fn wide_sample(maxval: u16, bytes: &[u8]) -> Result<(u16, &[u8]), (usize, ImageFlaw)>
    ensures value { result_map_both (λ x. (x.0, x.1.now)) (λ stop. stop) result ≡ wide_sample maxval bytes.now }
    ensures within { IfOk result (λ x. x.0 ≤ maxval) }
{
    match bytes {
        [] => Err((0, ImageFlaw::TooShort)),
        [byte, after @ ..] => {
            let high = u16::from(*byte) * 256;
            if high > maxval {
                return Err((bytes.len(), ImageFlaw::AboveMaxval));
            }
            low_half(maxval, high, after)
        }
    }
}

/// Reads the next sample of an image with the header `header` from the front of `bytes`. Returns it and the bytes after
/// it.
#[tactic(auto, unfolding(crate::specs::ImageReading::sample_in))]
fn sample_in(header: Header, bytes: &[u8]) -> Result<(u16, &[u8]), (usize, ImageFlaw)>
    requires { is_bitmap header.kind ≡ true → header.maxval ≡ 1 }
    ensures value { result_map_both (λ x. (x.0, x.1.now)) (λ stop. stop) result ≡ sample_in header bytes.now }
    ensures within { IfOk result (λ x. x.0 ≤ header.maxval) }
{
    if header.kind.is_plain() {
        plain_sample(header, bytes)
    } else if header.maxval < 256 {
        narrow_sample(header.maxval, bytes)
    } else {
        wide_sample(header.maxval, bytes)
    }
}

/// Reads `count` samples of an image with the header `header` from the front of `bytes` into `room`, which is empty.
fn samples_in(
    room: Vec<u16>,
    header: Header,
    count: usize,
    bytes: &[u8],
) -> Result<Vec<u16>, ImageError>
    requires empty { room.items ≡ [] }
    requires bits { is_bitmap header.kind ≡ true → header.maxval ≡ 1 }
    ensures read { ReadsAs (λ v. v.items) result (samples_in header count bytes.now) }
    ensures count { IfOk result (λ v. length v.items ≡ count) }
    ensures within { IfOk result (λ v. All (λ s. s ≤ header.maxval) v.items) }
{
    let mut samples = room;
    let mut missing = count;
    let mut rest = bytes;
    while missing > 0 {
        match sample_in(header, rest) {
            Ok((sample, after)) => {
                keep(&mut samples, sample)?;
                rest = after;
            }
            Err(stop) => return Err(bad_byte(stop)),
        }
        missing -= 1;
    }
    Ok(samples)
}

/// Returns where and why reading stops in bytes that are too few for `count` samples of an image with the header
/// `header`, whose samples are bytes.
#[tactic(auto, using(crate::proofs::RasterSamples::sample_takes, crate::proofs::RasterSamples::samples_stop))]
fn short_stop(header: Header, count: usize, bytes: &[u8]) -> (usize, ImageFlaw)
    requires raw { is_plain header.kind ≡ false }
    requires bits { is_bitmap header.kind ≡ true → header.maxval ≡ 1 }
    requires short { length bytes.now < raw_size header.maxval count }
    ensures { samples_in header count bytes.now ≡ Err result }
{
    let mut missing = count;
    let mut rest = bytes;
    while missing > 0 {
        match sample_in(header, rest) {
            Ok((_sample, after)) => rest = after,
            Err(stop) => return stop,
        }
        missing -= 1;
    }
    unreachable!()
}

/// Returns the number of bytes that `count` samples take, each of one byte if `maxval` is below 256, and otherwise of
/// two.
fn raw_size(maxval: u16, count: usize) -> usize
    requires { count < 2 ^ 63 }
    ensures { result ≡ raw_size maxval count }
{
    if maxval < 256 { count } else { count * 2 }
}

/// Returns the number of samples of an image with the header `header`.
#[tactic(auto, using(crate::proofs::RasterSamples::few_samples))]
fn sample_count(header: Header) -> usize
    requires width { header.width ≤ 1000000000 }
    requires height { header.height ≤ 1000000000 }
    ensures count { result ≡ sample_count header }
    ensures few { result < 2 ^ 63 }
{
    let pixels = header.height * header.width;
    pixels * header.kind.channels()
}

/// Reads the samples of an image with the header `header`, which isn't packed, from the bytes after that header.
fn unpacked(alloc: Global, header: Header, bytes: &[u8]) -> Result<Vec<u16>, ImageError>
    requires width { header.width ≤ 1000000000 }
    requires height { header.height ≤ 1000000000 }
    requires bits { is_bitmap header.kind ≡ true → header.maxval ≡ 1 }
    ensures read { ReadsAs (λ v. v.items) result (samples_in header (sample_count header) bytes.now) }
    ensures memory { result ≡ Err Memory → is_plain header.kind ≡ false → raw_size header.maxval (sample_count header) ≤ length bytes.now }
    ensures count { IfOk result (λ v. length v.items ≡ sample_count header) }
    ensures within { IfOk result (λ v. All (λ s. s ≤ header.maxval) v.items) }
{
    let count = sample_count(header);
    if header.kind.is_plain() {
        return samples_in(Vec::new(alloc), header, count, bytes);
    }
    if bytes.len() < raw_size(header.maxval, count) {
        return Err(bad_byte(short_stop(header, count, bytes)));
    }
    samples_in(Vec::with_capacity(alloc, count)?, header, count, bytes)
}

/// Reads the samples of an image with the header `header` from the bytes after that header. What follows the samples
/// isn't looked at.
#[tactic(auto, unfolding(crate::specs::ImageReading::raster_in))]
pub(crate) fn raster_in(alloc: Global, header: Header, bytes: &[u8]) -> Result<Vec<u16>, ImageError>
    requires width { header.width ≤ 1000000000 }
    requires height { header.height ≤ 1000000000 }
    requires bits { is_bitmap header.kind ≡ true → header.maxval ≡ 1 }
    ensures read { ReadsAs (λ v. v.items) result (raster_in header bytes.now) }
    ensures memory { result ≡ Err Memory → HasRawSize header bytes.now }
    ensures count { IfOk result (λ v. length v.items ≡ sample_count header) }
    ensures within { IfOk result (λ v. All (λ s. s ≤ header.maxval) v.items) }
{
    if header.kind.is_packed() {
        return packed_in(alloc, header.width, header.height, bytes);
    }
    unpacked(alloc, header, bytes)
}
