//! Reading the header of an image from a stream, piece by piece.

ghost use Rattle.std.specs.Prelude.{◌≡◌, ◌<◌, length, Err, IfOk, IfSome, OnOk, true};
ghost use Rattle.nd_text.specs.declared.read_input.InputError.TheVariants.{Memory};
ghost use Rattle.nd_text.specs.InputReading.{is_read_failure, ReadsOn};
ghost use Rattle.nd_text.specs.WatchedReadersAndWriters.{watched_inner, watched_failed, watched_retried};
ghost use Rattle.nd_picture_text.specs.RowwiseImageReading.{StartsWithHeader, HasFront, HasMore};

use crate::header::header_in;
use crate::image_formats::Header;
use nd_text::Watched;
use nd_text::read_input::{InputError, fill};
use std::io::Read;

/// Returns the header at the front of `bytes` and the number of bytes that it takes, or `None` if the bytes begin with
/// no header.
fn header_and_size(bytes: &[u8]) -> Option<(Header, usize)>
    ensures { IfSome result (λ x. StartsWithHeader bytes.now x) }
{
    match header_in(bytes) {
        Ok((header, rest)) => Some((header, bytes.len().saturating_sub(rest.len()))),
        Err(_) => None,
    }
}

/// Returns whether more bytes after `bytes` change nothing: they begin with a header that bytes follow, or have a byte
/// at which no header can go on.
fn is_settled(bytes: &[u8]) -> bool
    ensures { result ≡ true → HasMore bytes.now }
{
    match header_in(bytes) {
        Ok((_header, rest)) => !rest.is_empty(),
        Err((left, _flaw)) => left > 0,
    }
}

/// The number of bytes that are read at first.
const FRONT_LEN: usize = 4096;

/// Reads the input as far as is needed to know the header of the image that it begins with, and appends what was read to
/// `bytes`, which is empty. Returns the header and the number of bytes that it takes, or `None` if the input begins with
/// no header.
pub fn read_header<R: Read>(
    input: &mut Watched<R>,
    bytes: &mut Vec<u8>,
) -> Result<Option<(Header, usize)>, InputError>
    ensures bytes { OnOk result (ReadsOn R.remaining input.old input.new bytes.old.items bytes.new.items) }
    ensures front { IfOk result (λ found. IfSome found (λ x. HasFront R.remaining input.new bytes.new.items x)) }
    ensures memory { result ≡ Err Memory → IfSome (R.remaining (watched_inner input.old)) (λ xs. 0 < length xs) }
    ensures failed { watched_failed input.new ≡ is_read_failure result }
    ensures stops { watched_retried input.new ≡ watched_retried input.old }
{
    let mut size = FRONT_LEN;
    loop {
        fill(input, bytes, size)?;
        if is_settled(bytes) {
            return Ok(header_and_size(bytes));
        }
        if bytes.len() < size {
            return Ok(header_and_size(bytes));
        }
        match bytes.len().checked_mul(2) {
            Some(more) => size = more,
            None => return Ok(None),
        }
    }
}
