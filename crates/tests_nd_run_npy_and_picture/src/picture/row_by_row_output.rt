//! Images whose steps go row by row: what is written of them, also before a fault.

use crate::picture::output_checks::broken_off;
use nd_picture::Watched;
use nd_picture::program::drive;
use std::alloc::Global;
use std::io;
use std::io::{ErrorKind, Read};
use std::process::Abort;

// Where a byte of the raster is wrong, the header and the rows before it are written.
#[test]
fn rows_before_a_bad_byte(rt: HostRuntime) {
    const TABLE: [(&[u8], &[u8], &[u8], &[u8]); 9] = [
        (
            b"",
            b"P5 2 1 9 \x01",
            b"P5\n2 1\n9\n",
            b"nd_picture_program: byte 10: the image ends too early\n",
        ),
        (
            b"",
            b"P5 2 3 9 \x01\x02\x03\x04\x05",
            b"P5\n2 3\n9\n\x01\x02\x03\x04",
            b"nd_picture_program: byte 14: the image ends too early\n",
        ),
        (
            b"flop plain",
            b"P5 2 2 9 \x01\x02\x03",
            b"P2\n2 2\n9\n2\n1\n",
            b"nd_picture_program: byte 12: the image ends too early\n",
        ),
        (
            b"gray",
            b"P6 1 2 9 \x09\x09\x09\x00",
            b"P5\n1 2\n9\n\x09",
            b"nd_picture_program: byte 13: the image ends too early\n",
        ),
        (
            b"crop 1 0 1 1",
            b"P5 1 3 9 \x01\x02",
            b"P5\n1 1\n9\n\x02",
            b"nd_picture_program: byte 11: the image ends too early\n",
        ),
        // The rows that are at hand are read together.
        (
            b"invert",
            b"P5 1 3 9 \x01\x02\x0a",
            b"P5\n1 3\n9\n",
            b"nd_picture_program: byte 11: the sample is above the maxval\n",
        ),
        (
            b"",
            b"P5 1 2 256 \x01\x00\x01",
            b"P5\n1 2\n256\n\x01\x00",
            b"nd_picture_program: byte 14: the image ends too early\n",
        ),
        (
            b"",
            b"P6 1000000000 1000000000 65535 \x01",
            b"P6\n1000000000 1000000000\n65535\n",
            b"nd_picture_program: byte 32: the image ends too early\n",
        ),
        // A step that can't be taken goes the other way.
        (
            b"scale-down 0",
            b"P5 1 2 9 \x01",
            b"",
            b"nd_picture_program: byte 10: the image ends too early\n",
        ),
    ];
    broken_off(&rt, rt.alloc(), &TABLE);
}

// Of a bitmap the rows before the end of the bytes are written. A row of 10 pixels takes two bytes, and what their last six
// bits are doesn't matter.
#[test]
fn bits_before_the_end(rt: HostRuntime) {
    const TABLE: [(&[u8], &[u8], &[u8], &[u8]); 8] = [
        (
            b"",
            b"P4 10 1 \x81",
            b"P4\n10 1\n",
            b"nd_picture_program: byte 9: the image ends too early\n",
        ),
        (
            b"",
            b"P4 10 3 \x81\x7f\x01\x80\xff",
            b"P4\n10 3\n\x81\x40\x01\x80",
            b"nd_picture_program: byte 13: the image ends too early\n",
        ),
        (
            b"invert",
            b"P4 9 2 \xf0\x80\x00",
            b"P4\n9 2\n\x0f\x00",
            b"nd_picture_program: byte 10: the image ends too early\n",
        ),
        (
            b"flop plain",
            b"P4 3 2 \xdf",
            b"P1\n3 2\n0\n1\n1\n",
            b"nd_picture_program: byte 8: the image ends too early\n",
        ),
        (
            b"threshold 0 gray",
            b"P4 8 3 \x5a\xa5",
            b"P4\n8 3\n\x5a\xa5",
            b"nd_picture_program: byte 9: the image ends too early\n",
        ),
        (
            b"crop 1 7 1 3",
            b"P4 10 3 \x00\x00\x01\x80\xff",
            b"P4\n3 1\n\xc0",
            b"nd_picture_program: byte 13: the image ends too early\n",
        ),
        (
            b"scale-down 2",
            b"P4 10 3 \xaa\xbf\x00\x00\xff",
            b"P4\n5 2\n\xf8",
            b"nd_picture_program: byte 13: the image ends too early\n",
        ),
        (
            b"",
            b"P4 1000000000 1000000000 \x01",
            b"P4\n1000000000 1000000000\n",
            b"nd_picture_program: byte 26: the image ends too early\n",
        ),
    ];
    broken_off(&rt, rt.alloc(), &TABLE);
}

// Of an image in digits the rows before the bad byte are written. The last sample ends with the input, or with the blank or
// comment after it; a digit of a bitmap needs neither.
#[test]
fn digits_before_a_bad_byte(rt: HostRuntime) {
    const TABLE: [(&[u8], &[u8], &[u8], &[u8]); 9] = [
        (
            b"",
            b"P2 2 1 9 1",
            b"P2\n2 1\n9\n",
            b"nd_picture_program: byte 10: the image ends too early\n",
        ),
        (
            b"flop",
            b"P2 2 3 9 1 2#c\n3 4 5",
            b"P2\n2 3\n9\n2\n1\n4\n3\n",
            b"nd_picture_program: byte 20: the image ends too early\n",
        ),
        (
            b"",
            b"P2 2 2 9 1 2 3 10",
            b"P2\n2 2\n9\n1\n2\n",
            b"nd_picture_program: byte 16: a sample must be a number from 0 to the maxval\n",
        ),
        (
            b"gray raw",
            b"P3 1 2 9 9 9 9 0 x",
            b"P5\n1 2\n9\n\x09",
            b"nd_picture_program: byte 17: a sample must be a number from 0 to the maxval\n",
        ),
        (
            b"crop 1 0 1 1",
            b"P2 1 3 9 1 2 ",
            b"P2\n1 1\n9\n2\n",
            b"nd_picture_program: byte 13: the image ends too early\n",
        ),
        (
            b"invert",
            b"P1 2 2 0 1 1",
            b"P1\n2 2\n1\n0\n",
            b"nd_picture_program: byte 12: the image ends too early\n",
        ),
        (
            b"",
            b"P1 3 2 0102",
            b"P1\n3 2\n0\n1\n0\n",
            b"nd_picture_program: byte 10: a sample must be a number from 0 to the maxval\n",
        ),
        (
            b"",
            b"P2 1 2 9 1 2-",
            b"P2\n1 2\n9\n1\n",
            b"nd_picture_program: byte 12: a sample must be a number from 0 to the maxval\n",
        ),
        (
            b"",
            b"P2 1000000000 1000000000 9 1",
            b"P2\n1000000000 1000000000\n9\n",
            b"nd_picture_program: byte 28: the image ends too early\n",
        ),
    ];
    broken_off(&rt, rt.alloc(), &TABLE);
}

// A reader that gives so many bytes in each call, and fails after `left` bytes.
#[derive(Drop)]
struct Slow<'a> {
    text: &'a [u8],
    count: usize,
    left: usize,
}

impl<'a> Read for Slow<'a> {
    fn read(&mut self, buf: &mut [u8]) -> io::Result<usize> {
        if self.left == 0 {
            return Err(io::Error::from(ErrorKind::BrokenPipe));
        }
        let least = self.count.min(self.left);
        let count = least.min(self.text.len()).min(buf.len());
        let (front, rest) = self.text.split_at(count);
        buf[..count].copy_from_slice(front);
        self.text = rest;
        self.left -= count;
        Ok(count)
    }
}

// An image of 70 x 90 pixels, in colours if there are three channels.
fn image(alloc: Global, kind: u8, channels: usize) -> Vec<u8> {
    let mut bytes = Vec::new(alloc);
    let _ = bytes.extend_from_slice(b"P");
    let _ = bytes.push(kind);
    let _ = bytes.extend_from_slice(b" 70 90 250 ");
    for _ in 0..channels {
        for row in 0..90_usize {
            for column in 0..70_usize {
                let _ = bytes.push((row * 7 % 100 + column * 5 % 150) as u8);
            }
        }
    }
    bytes
}

// A bitmap of 70 x 90 pixels, in rows of nine bytes. The last two bits of each are padding.
fn bitmap(alloc: Global) -> Vec<u8> {
    let mut bytes = Vec::new(alloc);
    let _ = bytes.extend_from_slice(b"P4 70 90 ");
    for row in 0..90_usize {
        for nth in 0..9_usize {
            let _ = bytes.push((row * 37 % 128 + nth * 11) as u8);
        }
    }
    bytes
}

// What the step `plain` writes of an image: the same image in digits.
fn in_digits(rt: &impl Abort, alloc: Global, text: &[u8]) -> Vec<u8> {
    let (status, plain) = written_for(rt, alloc, b"plain", text, 65536, usize::MAX);
    assert!(rt; status == 0);
    plain
}

// What is written for these words and this image, which is given so many bytes at a time and no more than `left`.
fn written_for(
    rt: &impl Abort,
    alloc: Global,
    words: &[u8],
    text: &[u8],
    count: usize,
    left: usize,
) -> (u8, Vec<u8>) {
    let mut output = Watched::new(Vec::new(alloc));
    let mut input = Watched::new(Slow { text, count, left });
    let status = drive(
        alloc,
        words,
        &mut input,
        &mut output,
        &mut Watched::new(Vec::new(alloc)),
    );
    assert!(rt; !output.failed());
    (status, output.into_inner())
}

// The same steps, taken by rows and, before a turn and back, on the whole picture.
#[test]
fn by_rows_and_at_once(rt: HostRuntime) {
    const TABLE: [(&[u8], &[u8]); 8] = [
        (b"", b"flip flip"),
        (b"flop", b"flop flip flip"),
        (b"invert gray", b"flip flip invert gray"),
        (b"crop 20 10 31 52 flop", b"crop 20 10 31 52 flop flip flip"),
        (
            b"scale-down 4 threshold 90",
            b"scale-down 4 threshold 90 flip flip",
        ),
        (
            b"crop 3 5 70 60 scale-down 3 crop 2 1 20 11",
            b"flip flip crop 3 5 70 60 scale-down 3 crop 2 1 20 11",
        ),
        (b"scale-down 91", b"scale-down 91 flip flip"),
        (
            b"plain invert raw crop 89 69 1 1",
            b"plain invert raw crop 89 69 1 1 flip flip",
        ),
    ];
    let grey = image(rt.alloc(), b'5', 1);
    let colours = image(rt.alloc(), b'6', 3);
    let bits = bitmap(rt.alloc());
    let plain_grey = in_digits(&rt, rt.alloc(), &grey);
    let plain_colours = in_digits(&rt, rt.alloc(), &colours);
    let plain_bits = in_digits(&rt, rt.alloc(), &bits);
    let images = [
        grey.as_slice(),
        colours.as_slice(),
        bits.as_slice(),
        plain_grey.as_slice(),
        plain_colours.as_slice(),
        plain_bits.as_slice(),
    ];
    for text in images {
        for (words, others) in &TABLE {
            let whole = written_for(&rt, rt.alloc(), others, text, 65536, usize::MAX);
            for count in [1, 97, 5000, 65536] {
                let rows = written_for(&rt, rt.alloc(), words, text, count, usize::MAX);
                assert!(rt; whole.0 == 0 && rows.0 == 0 && rows.1.as_slice() == whole.1.as_slice());
            }
        }
    }
}

// A read that fails after 20 whole rows: these are written.
#[test]
fn rows_before_a_failed_read(rt: HostRuntime) {
    let text = image(rt.alloc(), b'6', 3);
    let (status, whole) = written_for(&rt, rt.alloc(), b"flop", &text, 1, usize::MAX);
    assert!(rt; status == 0);
    let (status, front) = written_for(&rt, rt.alloc(), b"flop", &text, 1, 4230);
    assert!(rt; status == 3);
    assert!(rt; front.len() == 4213 && whole.get(..4213) == Some(front.as_slice()));
}

// A grey image of one column in digits, a line of three digits for each of 100,000 rows: more than is read at a time.
#[test]
fn rows_of_many_pieces(rt: HostRuntime) {
    let mut text = Vec::new(rt.alloc());
    let _ = text.extend_from_slice(b"P2\n1 100000\n255\n");
    for row in 0..100_000_usize {
        let hundreds = 1 + row % 2;
        for digit in [hundreds, row % 5, row % 6] {
            let _ = text.push(b'0' + digit as u8);
        }
        let _ = text.push(b'\n');
    }
    for words in [b"".as_slice(), b"invert invert".as_slice()] {
        let (status, whole) = written_for(&rt, rt.alloc(), words, &text, 5000, usize::MAX);
        assert!(rt; status == 0 && whole.as_slice() == text.as_slice());
    }
    let (status, front) = written_for(&rt, rt.alloc(), b"", &text, 5000, 300_000);
    assert!(rt; status == 3);
    assert!(rt; front.len() > 200_000 && text.get(..front.len()) == Some(front.as_slice()));
}
