//! Reading an image's header, which stands in front of its samples.

ghost use Rattle.std.specs.Prelude.{◌≡◌, ◌<◌, ◌≤◌, ◌^◌, IfOk, true};
ghost use Rattle.std.specs.Result.{result_map_both};
ghost use Rattle.nd_picture_text.specs.ImageFormatsAndHeaders.{is_bitmap, IsHeader};
ghost use Rattle.nd_picture_text.specs.ImageReading.{stop_at, image_kind_named, kind_in, opening, number_in, maxval_in, image_header_in};

use crate::errors::ImageFlaw;
use crate::image_formats::{Header, Kind};
use crate::numbers_in_image_text::{after_blank, next_number};

/// The greatest width and height that are read. It is small enough that the bytes of an image can be counted.
const SIDE_LIMIT: usize = 1_000_000_000;

/// The greatest maxval that is read.
const SAMPLE_LIMIT: usize = 65535;

/// Returns where and why reading stops with `left` bytes left: with `TooShort` if none are left, and otherwise with
/// `flaw`.
pub(crate) fn stop_at(flaw: ImageFlaw, left: usize) -> (usize, ImageFlaw)
    ensures { result ≡ stop_at flaw left }
{
    (left, if left == 0 { ImageFlaw::TooShort } else { flaw })
}

/// Returns the format that the digit names after the letter P, or `None` if it names none.
fn kind_named(digit: u8) -> Option<Kind>
    ensures { result ≡ image_kind_named digit }
{
    match digit {
        b'1' => Some(Kind::PlainBitmap),
        b'2' => Some(Kind::PlainGrey),
        b'3' => Some(Kind::PlainColour),
        b'4' => Some(Kind::RawBitmap),
        b'5' => Some(Kind::RawGrey),
        b'6' => Some(Kind::RawColour),
        _ => None,
    }
}

/// Reads the digit that names the format, and a blank, from the front of `text`. Returns the format and the bytes after
/// the blank. An error tells how many bytes are left where reading stops, and what is wrong there.
fn kind_in(text: &[u8]) -> Result<(Kind, &[u8]), (usize, ImageFlaw)>
    ensures { result_map_both (λ x. (x.0, x.1.now)) (λ stop. stop) result ≡ kind_in text.now }
{
    match text {
        [] => Err((0, ImageFlaw::TooShort)),
        [digit, rest @ ..] => match kind_named(*digit) {
            Some(kind) => match after_blank(rest) {
                Ok(after) => Ok((kind, after)),
                Err(left) => Err(stop_at(ImageFlaw::Format, left)),
            },
            None => Err((text.len(), ImageFlaw::Format)),
        },
    }
}

/// Reads the format's name and a blank from the front of `text`. Returns the format and the bytes after the blank. An
/// error tells how many bytes are left where reading stops, and what is wrong there.
fn opening(text: &[u8]) -> Result<(Kind, &[u8]), (usize, ImageFlaw)>
    ensures { result_map_both (λ x. (x.0, x.1.now)) (λ stop. stop) result ≡ opening text.now }
{
    match text {
        [] => Err((0, ImageFlaw::TooShort)),
        [b'P', rest @ ..] => kind_in(rest),
        _ => Err((text.len(), ImageFlaw::Format)),
    }
}

/// Reads a number up to `limit` and a blank from the front of `text`. Returns the number, which isn't 0 if it must be
/// `positive`, and the bytes after the blank. An error tells how many bytes are left where reading stops, and what is
/// wrong there: `TooShort` or `flaw`.
pub(crate) fn number_in(
    flaw: ImageFlaw,
    positive: bool,
    limit: usize,
    text: &[u8],
) -> Result<(usize, &[u8]), (usize, ImageFlaw)>
    requires { limit < 2 ^ 32 }
    ensures value { result_map_both (λ x. (x.0, x.1.now)) (λ stop. stop) result ≡ number_in flaw positive limit text.now }
    ensures within { IfOk result (λ x. x.0 ≤ limit) }
    ensures some { positive ≡ true → IfOk result (λ x. 0 < x.0) }
{
    match next_number(positive, limit, text) {
        Ok((number, rest)) => Ok((number, rest)),
        Err(left) => Err(stop_at(flaw, left)),
    }
}

/// Reads the maxval and a blank from the front of `text`, unless the format is one of bitmaps, whose maxval is 1. Returns
/// the maxval and the bytes after the blank.
fn maxval_in(kind: Kind, text: &[u8]) -> Result<(usize, &[u8]), (usize, ImageFlaw)>
    ensures value { result_map_both (λ x. (x.0, x.1.now)) (λ stop. stop) result ≡ maxval_in kind text.now }
    ensures within { IfOk result (λ x. x.0 ≤ 65535) }
    ensures some { IfOk result (λ x. 0 < x.0) }
    ensures bits { is_bitmap kind ≡ true → IfOk result (λ x. x.0 ≡ 1) }
{
    if kind.is_bitmap() {
        return Ok((1, text));
    }
    number_in(ImageFlaw::Maxval, true, SAMPLE_LIMIT, text)
}

/// Reads a header from the front of `text`. Returns it and the bytes after it. An error tells how many bytes are left
/// where reading stops, and what is wrong there.
#[tactic(auto, unfolding(crate::specs::ImageReading::image_header_in))]
pub(crate) fn header_in(text: &[u8]) -> Result<(Header, &[u8]), (usize, ImageFlaw)>
    ensures value { result_map_both (λ x. (x.0, x.1.now)) (λ stop. stop) result ≡ image_header_in text.now }
    ensures whole { IfOk result (λ x. IsHeader x.0) }
{
    let (kind, text) = opening(text)?;
    let (width, text) = number_in(ImageFlaw::Width, true, SIDE_LIMIT, text)?;
    let (height, text) = number_in(ImageFlaw::Height, true, SIDE_LIMIT, text)?;
    let (maxval, text) = maxval_in(kind, text)?;
    Ok((
        Header {
            kind,
            width,
            height,
            maxval: maxval as u16,
        },
        text,
    ))
}
