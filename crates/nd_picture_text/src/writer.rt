//! Writing an image.

ghost use Rattle.std.specs.Prelude.{◌≡◌, ◌≤◌, ◌*◌, length, take};
ghost use Rattle.std.specs.List.{flat_map};
ghost use Rattle.nd_picture_text.specs.ImageFormatsAndHeaders.{pixmap_with};
ghost use Rattle.nd_picture_text.specs.ImageWriting.{kind_text, maxval_text, image_header_text, low_byte, both_bytes, number_line, bit_line, sample_text, raster_text, image_text};
ghost use Rattle.nd_text.specs.BufferedPrinting.{Puts, TakesText};
ghost use Rattle.nd_text.specs.WatchedReadersAndWriters.{GetsFlushed};

use crate::image_formats::{Header, Kind};
use crate::packed_bitmaps::put_rows;
use itoa::Buffer;
use nd_text::buffered_printing::{finish, put, put_number};
use nd_text::{Page, Watched};
use std::io::Write;

/// Returns the name of the format, and a newline.
fn kind_name(kind: Kind) -> &'static [u8]
    ensures { result.now ≡ kind_text kind }
{
    match kind {
        Kind::PlainBitmap => b"P1\n",
        Kind::PlainGrey => b"P2\n",
        Kind::PlainColour => b"P3\n",
        Kind::RawBitmap => b"P4\n",
        Kind::RawGrey => b"P5\n",
        Kind::RawColour => b"P6\n",
    }
}

/// Writes the line of the maxval, which a bitmap lacks.
fn put_maxval<W: Write>(output: &mut Watched<W>, page: &mut Page, header: Header)
    ensures { Puts W.contents output.old page.old output.new page.new (maxval_text header) }
{
    if header.kind.is_bitmap() {
        return;
    }
    put_number(output, page, &mut Buffer::new(), &header.maxval);
    put(output, page, b"\n");
}

/// Writes the header of an image to `output`, after the bytes that wait in `page`. The last of its bytes may then wait in
/// `page`.
pub fn put_header<W: Write>(output: &mut Watched<W>, page: &mut Page, header: Header)
    ensures { Puts W.contents output.old page.old output.new page.new (image_header_text header) }
{
    let mut buffer = Buffer::new();
    put(output, page, kind_name(header.kind));
    put_number(output, page, &mut buffer, &header.width);
    put(output, page, b" ");
    put_number(output, page, &mut buffer, &header.height);
    put(output, page, b"\n");
    put_maxval(output, page, header);
}

/// The number of samples that are written at once.
const PIECE_LEN: usize = 4096;

/// Writes the low byte of each sample to the front of `piece`.
fn fill_low(piece: &mut [u8], samples: &[u16])
    requires { length samples.now ≤ length piece.old }
    ensures bytes { take (length samples.now) piece.new ≡ flat_map low_byte samples.now }
    ensures as_long { length piece.new ≡ length piece.old }
{
    for nth in 0..samples.len() {
        piece[nth] = (samples[nth] % 256) as u8;
    }
}

/// Writes each sample as one byte, in pieces of `PIECE_LEN` samples.
fn put_narrow<W: Write>(output: &mut Watched<W>, page: &mut Page, samples: &[u16])
    ensures { Puts W.contents output.old page.old output.new page.new (flat_map low_byte samples.now) }
{
    let mut piece = [0; PIECE_LEN];
    let mut done = 0;
    while done < samples.len() {
        let end = done + PIECE_LEN.min(samples.len() - done);
        let part = &samples[done..end];
        fill_low(&mut piece, part);
        put(output, page, &piece[..part.len()]);
        done = end;
    }
}

/// Writes the two bytes of each sample to the front of `piece`, the more significant byte first.
#[tactic(auto, using(crate::proofs::RasterSamples::pair_set))]
fn fill_both(piece: &mut [u8], samples: &[u16])
    requires { length samples.now * 2 ≤ length piece.old }
    ensures bytes { take (length samples.now * 2) piece.new ≡ flat_map both_bytes samples.now }
    ensures as_long { length piece.new ≡ length piece.old }
{
    for nth in 0..samples.len() {
        let sample = samples[nth];
        piece[nth * 2] = (sample / 256) as u8;
        piece[nth * 2 + 1] = (sample % 256) as u8;
    }
}

/// Writes each sample as two bytes, in pieces of `PIECE_LEN` samples.
fn put_wide<W: Write>(output: &mut Watched<W>, page: &mut Page, samples: &[u16])
    ensures { Puts W.contents output.old page.old output.new page.new (flat_map both_bytes samples.now) }
{
    let mut piece = [0; PIECE_LEN * 2];
    let mut done = 0;
    while done < samples.len() {
        let end = done + PIECE_LEN.min(samples.len() - done);
        let part = &samples[done..end];
        fill_both(&mut piece, part);
        put(output, page, &piece[..part.len() * 2]);
        done = end;
    }
}

/// Writes each sample as a decimal number on a line of its own.
fn put_plain<W: Write>(output: &mut Watched<W>, page: &mut Page, samples: &[u16])
    ensures { Puts W.contents output.old page.old output.new page.new (flat_map number_line samples.now) }
{
    let mut buffer = Buffer::new();
    for sample in samples {
        put_number(output, page, &mut buffer, sample);
        put(output, page, b"\n");
    }
}

/// Returns the line of a sample of a bitmap.
fn bit_line(sample: u16) -> &'static [u8]
    ensures { result.now ≡ bit_line sample }
{
    if sample == 0 { b"1\n" } else { b"0\n" }
}

/// Writes each sample of a bitmap as a digit on a line of its own.
fn put_bits<W: Write>(output: &mut Watched<W>, page: &mut Page, samples: &[u16])
    ensures { Puts W.contents output.old page.old output.new page.new (flat_map bit_line samples.now) }
{
    for sample in samples {
        put(output, page, bit_line(*sample));
    }
}

/// Writes samples of an image with the header `header`, each by itself in digits or in bytes. It isn't a packed bitmap
/// (P4).
fn put_samples<W: Write>(output: &mut Watched<W>, page: &mut Page, header: Header, samples: &[u16])
    ensures { Puts W.contents output.old page.old output.new page.new (flat_map (sample_text header) samples.now) }
{
    if header.kind.is_plain() {
        if header.kind.is_bitmap() {
            put_bits(output, page, samples);
        } else {
            put_plain(output, page, samples);
        }
    } else if header.maxval < 256 {
        put_narrow(output, page, samples);
    } else {
        put_wide(output, page, samples);
    }
}

/// Writes the samples of an image with the header `header`, or of some rows of one, of which `header` tells the number in
/// place of the image's. The rows that are written one after another are the image's raster. All is buffered in `page`.
pub fn put_raster<W: Write>(
    output: &mut Watched<W>,
    page: &mut Page,
    header: Header,
    samples: &[u16],
)
    ensures { Puts W.contents output.old page.old output.new page.new (raster_text (pixmap_with header samples.now)) }
{
    if header.kind.is_packed() {
        put_rows(output, page, header.width, header.height, samples);
    } else {
        put_samples(output, page, header, samples);
    }
}

/// Writes the image of this header and these samples to `output`, after the bytes that wait in `page`. The last of its
/// bytes may then wait in `page`.
pub fn put_image<W: Write>(
    output: &mut Watched<W>,
    page: &mut Page,
    header: Header,
    samples: &[u16],
)
    ensures { Puts W.contents output.old page.old output.new page.new (image_text (pixmap_with header samples.now)) }
{
    put_header(output, page, header);
    put_raster(output, page, header, samples);
}

/// Writes the image of this header and these samples to `output`, and flushes `output` once. Whether all of it was
/// written, `output.failed()` tells.
pub fn write_image<W: Write>(output: &mut Watched<W>, header: Header, samples: &[u16])
    ensures text { TakesText W.contents output.old output.new (image_text (pixmap_with header samples.now)) }
    ensures flushed { GetsFlushed output.old output.new }
{
    let mut page = Page::new();
    put_image(output, &mut page, header, samples);
    finish(output, &page);
}
