//! The six formats, with blanks and comments in them, and samples of a bit, of one byte and of two.

use crate::picture::output_checks::written;

#[test]
fn plain_and_raw(rt: HostRuntime) {
    const TABLE: [(&[u8], &[u8], &[u8]); 4] = [
        (b"flop", b"P2 2 1 9 1 2", b"P2\n2 1\n9\n2\n1\n"),
        (
            b"flop",
            b"P3 2 1 9 1 2 3 4 5 6",
            b"P3\n2 1\n9\n4\n5\n6\n1\n2\n3\n",
        ),
        (b"flop", b"P5 2 1 9 \x01\x02", b"P5\n2 1\n9\n\x02\x01"),
        (
            b"flop",
            b"P6 2 1 9 \x01\x02\x03\x04\x05\x06",
            b"P6\n2 1\n9\n\x04\x05\x06\x01\x02\x03",
        ),
    ];
    written(&rt, rt.alloc(), &TABLE);
}

#[test]
fn colours_by_channel(rt: HostRuntime) {
    const TABLE: [(&[u8], &[u8], &[u8]); 3] = [
        (
            b"invert",
            b"P6 1 1 255 \x00\x01\xff",
            b"P6\n1 1\n255\n\xff\xfe\x00",
        ),
        (
            b"threshold 1",
            b"P6 1 1 255 \x00\x01\xff",
            b"P6\n1 1\n255\n\x00\x00\xff",
        ),
        (
            b"transpose",
            b"P3 1 2 9 1 2 3 4 5 6",
            b"P3\n2 1\n9\n1\n2\n3\n4\n5\n6\n",
        ),
    ];
    written(&rt, rt.alloc(), &TABLE);
}

#[test]
fn gaps_and_comments(rt: HostRuntime) {
    const TABLE: [(&[u8], &[u8], &[u8]); 5] = [
        (b"", b"P5\n# by hand\n1 1\n9\n\x07", b"P5\n1 1\n9\n\x07"),
        // A comment counts as a blank, also the one before the raster.
        (b"", b"P5\r\n\t1  1 #9\r99#\n\x23", b"P5\n1 1\n99\n\x23"),
        (b"", b"P2#\n1#one\r2#two\n9 7#\r8", b"P2\n1 2\n9\n7\n8\n"),
        // The samples begin with a blank and a hash, which are samples here.
        (b"", b"P5 2 1 255\n\x20\x23", b"P5\n2 1\n255\n\x20\x23"),
        (
            b"",
            b"P2\n1\n1\n9\n7\n # nothing after it\n ",
            b"P2\n1 1\n9\n7\n",
        ),
    ];
    written(&rt, rt.alloc(), &TABLE);
}

#[test]
fn bitmaps(rt: HostRuntime) {
    const TABLE: [(&[u8], &[u8], &[u8]); 6] = [
        // The digits stand with and without blanks between them.
        (
            b"flop",
            b"P1\n3 2\n0 1#c\n1100",
            b"P1\n3 2\n1\n1\n0\n0\n0\n1\n",
        ),
        (b"invert", b"P1#\n1 1 1", b"P1\n1 1\n0\n"),
        (b"threshold 0", b"P1 2 1 10", b"P1\n2 1\n1\n0\n"),
        // Nine pixels in a row take two bytes, the second of which has seven bits that mean nothing.
        (b"invert", b"P4 9 1 \xa5\x80", b"P4\n9 1\n\x5a\x00"),
        (
            b"flop",
            b"P4\n9 2\n\xa5\xff\x01\x00",
            b"P4\n9 2\n\xd2\x80\x40\x00",
        ),
        (b"transpose", b"P4 1 2 \x80\x7f", b"P4\n2 1\n\x80"),
    ];
    written(&rt, rt.alloc(), &TABLE);
}

#[test]
fn what_follows_the_image(rt: HostRuntime) {
    const TABLE: [(&[u8], &[u8], &[u8]); 4] = [
        (b"", b"P5 2 1 9 \x01\x02\n", b"P5\n2 1\n9\n\x01\x02"),
        (
            b"",
            b"P5 2 1 9 \x01\x02P5 1 1 9 \x03",
            b"P5\n2 1\n9\n\x01\x02",
        ),
        (b"", b"P2 2 1 9 1 2 3", b"P2\n2 1\n9\n1\n2\n"),
        (b"", b"P2 2 1 9 1 2 x", b"P2\n2 1\n9\n1\n2\n"),
    ];
    written(&rt, rt.alloc(), &TABLE);
}

#[test]
fn samples_of_two_bytes(rt: HostRuntime) {
    const TABLE: [(&[u8], &[u8], &[u8]); 4] = [
        // The samples are 258 and 65535: the more significant byte comes first.
        (
            b"flop",
            b"P5 2 1 65535 \x01\x02\xff\xff",
            b"P5\n2 1\n65535\n\xff\xff\x01\x02",
        ),
        (
            b"threshold 513",
            b"P5 2 1 65535 \x01\x02\x02\x02",
            b"P5\n2 1\n65535\n\x00\x00\xff\xff",
        ),
        (b"invert", b"P5 1 1 256 \x00\x01", b"P5\n1 1\n256\n\x00\xff"),
        (b"", b"P2 1 1 65535 258", b"P2\n1 1\n65535\n258\n"),
    ];
    written(&rt, rt.alloc(), &TABLE);
}

#[test]
fn a_letter_turned(rt: HostRuntime) {
    let letter = b"P2\n4 5\n1\n1 1 1 1\n1 0 0 0\n1 1 1 0\n1 0 0 0\n1 0 0 0\n".as_slice();
    let turned =
        b"P2\n5 4\n1\n1\n1\n1\n1\n1\n0\n0\n1\n0\n1\n0\n0\n1\n0\n1\n0\n0\n0\n0\n1\n".as_slice();
    written(&rt, rt.alloc(), &[(b"rotate 90", letter, turned)]);
}
