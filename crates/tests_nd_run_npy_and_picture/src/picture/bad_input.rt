//! Input that is no image: the program tells the first byte at which no image can go on, counted from 0, and what is
//! wrong there.

use crate::picture::output_checks::refused;

#[test]
fn other_formats(rt: HostRuntime) {
    const TABLE: [(&[u8], &[u8], &[u8]); 6] = [
        (
            b"",
            b"",
            b"nd_picture_program: byte 0: the image ends too early\n",
        ),
        (
            b"",
            b"P",
            b"nd_picture_program: byte 1: the image ends too early\n",
        ),
        (
            b"",
            b"P0 1 1 0",
            b"nd_picture_program: byte 1: an image must begin with one of P1 to P6 and a blank\n",
        ),
        (
            b"",
            b"P7 1 1 1 1",
            b"nd_picture_program: byte 1: an image must begin with one of P1 to P6 and a blank\n",
        ),
        (
            b"",
            b"p2 1 1 1 1",
            b"nd_picture_program: byte 0: an image must begin with one of P1 to P6 and a blank\n",
        ),
        (
            b"",
            b" P2 1 1 1 1",
            b"nd_picture_program: byte 0: an image must begin with one of P1 to P6 and a blank\n",
        ),
    ];
    refused(&rt, rt.alloc(), &TABLE);
}

#[test]
fn headers(rt: HostRuntime) {
    const TABLE: [(&[u8], &[u8], &[u8]); 11] = [
        (
            b"",
            b"P2",
            b"nd_picture_program: byte 2: the image ends too early\n",
        ),
        (
            b"",
            b"P21 1 1 1",
            b"nd_picture_program: byte 2: an image must begin with one of P1 to P6 and a blank\n",
        ),
        (
            b"",
            b"P2 ",
            b"nd_picture_program: byte 3: the image ends too early\n",
        ),
        (
            b"",
            b"P2 x",
            b"nd_picture_program: byte 3: the width must be a number from 1 to 1000000000\n",
        ),
        (
            b"",
            b"P2 1x1 1 1",
            b"nd_picture_program: byte 4: the width must be a number from 1 to 1000000000\n",
        ),
        (
            b"",
            b"P2 0 1 1 1",
            b"nd_picture_program: byte 4: the width must be a number from 1 to 1000000000\n",
        ),
        (
            b"",
            b"P2 1000000001 1 1 0",
            b"nd_picture_program: byte 12: the width must be a number from 1 to 1000000000\n",
        ),
        (
            b"",
            b"P2 1 0 1 1",
            b"nd_picture_program: byte 6: the height must be a number from 1 to 1000000000\n",
        ),
        (
            b"",
            b"P2 1 1",
            b"nd_picture_program: byte 6: the image ends too early\n",
        ),
        // The maxval is 0, and then 65536.
        (
            b"",
            b"P2 1 1 0 0",
            b"nd_picture_program: byte 8: the maxval must be a number from 1 to 65535\n",
        ),
        (
            b"",
            b"P2 1 1 65536 0",
            b"nd_picture_program: byte 11: the maxval must be a number from 1 to 65535\n",
        ),
    ];
    refused(&rt, rt.alloc(), &TABLE);
}

#[test]
fn too_little(rt: HostRuntime) {
    const TABLE: [(&[u8], &[u8], &[u8]); 7] = [
        (
            b"flip",
            b"P5 2 1 9 \x01",
            b"nd_picture_program: byte 10: the image ends too early\n",
        ),
        (
            b"flip",
            b"P5 1 1 256 \x01",
            b"nd_picture_program: byte 12: the image ends too early\n",
        ),
        (
            b"flip",
            b"P6 1 1 9 \x01\x02",
            b"nd_picture_program: byte 11: the image ends too early\n",
        ),
        (
            b"flip",
            b"P2 2 1 9 1",
            b"nd_picture_program: byte 10: the image ends too early\n",
        ),
        (
            b"flip",
            b"P2 2 1 9 1 2x",
            b"nd_picture_program: byte 12: a sample must be a number from 0 to the maxval\n",
        ),
        // A sample that is too great comes before the end that comes too early.
        (
            b"flip",
            b"P5 3 1 9 \x0a",
            b"nd_picture_program: byte 9: the sample is above the maxval\n",
        ),
        // The size is too great for any memory.
        (
            b"flip",
            b"P6 1000000000 1000000000 65535 \x01",
            b"nd_picture_program: byte 32: the image ends too early\n",
        ),
    ];
    refused(&rt, rt.alloc(), &TABLE);
}

#[test]
fn bitmaps(rt: HostRuntime) {
    const TABLE: [(&[u8], &[u8], &[u8]); 4] = [
        (
            b"flip",
            b"P1 2 1 0",
            b"nd_picture_program: byte 8: the image ends too early\n",
        ),
        (
            b"flip",
            b"P1 2 1 02",
            b"nd_picture_program: byte 8: a sample must be a number from 0 to the maxval\n",
        ),
        (
            b"flip",
            b"P4 9 2 \x00\x00\x00",
            b"nd_picture_program: byte 10: the image ends too early\n",
        ),
        // The size is too great for any memory.
        (
            b"flip",
            b"P4 1000000000 1000000000 ",
            b"nd_picture_program: byte 25: the image ends too early\n",
        ),
    ];
    refused(&rt, rt.alloc(), &TABLE);
}

#[test]
fn samples_above_maxval(rt: HostRuntime) {
    const TABLE: [(&[u8], &[u8], &[u8]); 5] = [
        (
            b"flip",
            b"P5 2 1 9 \x09\x0a",
            b"nd_picture_program: byte 10: the sample is above the maxval\n",
        ),
        (
            b"flip",
            b"P5 2 1 256 \x01\x00\x01\x01",
            b"nd_picture_program: byte 14: the sample is above the maxval\n",
        ),
        (
            b"flip",
            b"P5 2 1 256 \x01\x00\x02\x00",
            b"nd_picture_program: byte 13: the sample is above the maxval\n",
        ),
        (
            b"flip",
            b"P2 2 1 9 9 10",
            b"nd_picture_program: byte 12: a sample must be a number from 0 to the maxval\n",
        ),
        (
            b"flip",
            b"P2 1 1 9 -1",
            b"nd_picture_program: byte 9: a sample must be a number from 0 to the maxval\n",
        ),
    ];
    refused(&rt, rt.alloc(), &TABLE);
}
