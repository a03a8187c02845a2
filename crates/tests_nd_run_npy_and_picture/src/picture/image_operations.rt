//! Each step, on an image of two rows of three pixels:
//!
//! ```text
//! 1 2 3
//! 4 5 6
//! ```

use crate::picture::output_checks::{refused, written};

const SIX: &[u8] = b"P2\n3 2\n9\n1 2 3 4 5 6\n";

#[test]
fn no_step(rt: HostRuntime) {
    let six = b"P2\n3 2\n9\n1\n2\n3\n4\n5\n6\n".as_slice();
    written(&rt, rt.alloc(), &[(b"", SIX, six), (b" \t ", SIX, six)]);
}

#[test]
fn parts(rt: HostRuntime) {
    const TABLE: [(&[u8], &[u8], &[u8]); 4] = [
        (b"crop 0 0 2 3", SIX, b"P2\n3 2\n9\n1\n2\n3\n4\n5\n6\n"),
        (b"crop 1 0 1 3", SIX, b"P2\n3 1\n9\n4\n5\n6\n"),
        (b"crop 0 1 2 2", SIX, b"P2\n2 2\n9\n2\n3\n5\n6\n"),
        (b"crop 1 2 1 1", SIX, b"P2\n1 1\n9\n6\n"),
    ];
    written(&rt, rt.alloc(), &TABLE);
}

#[test]
fn parts_that_do_not_lie_in_the_picture(rt: HostRuntime) {
    const TABLE: [(&[u8], &[u8], &[u8]); 7] = [
        (
            b"crop 0 0 3 3",
            SIX,
            b"nd_picture_program: step 1: 'crop 0 0 3 3': the part must lie in the picture, and have a row and a column\n",
        ),
        (
            b"crop 0 0 2 4",
            SIX,
            b"nd_picture_program: step 1: 'crop 0 0 2 4': the part must lie in the picture, and have a row and a column\n",
        ),
        (
            b"crop 2 0 1 1",
            SIX,
            b"nd_picture_program: step 1: 'crop 2 0 1 1': the part must lie in the picture, and have a row and a column\n",
        ),
        (
            b"crop 0 3 1 1",
            SIX,
            b"nd_picture_program: step 1: 'crop 0 3 1 1': the part must lie in the picture, and have a row and a column\n",
        ),
        (
            b"crop 0 0 0 1",
            SIX,
            b"nd_picture_program: step 1: 'crop 0 0 0 1': the part must lie in the picture, and have a row and a column\n",
        ),
        (
            b"crop 0 0 1 0",
            SIX,
            b"nd_picture_program: step 1: 'crop 0 0 1 0': the part must lie in the picture, and have a row and a column\n",
        ),
        (
            b"crop 18446744073709551615 0 1 1",
            SIX,
            b"nd_picture_program: step 1: 'crop 18446744073709551615 0 1 1': the part must lie in the picture, and have a row and a column\n",
        ),
    ];
    refused(&rt, rt.alloc(), &TABLE);
}

#[test]
fn turns(rt: HostRuntime) {
    const TABLE: [(&[u8], &[u8], &[u8]); 6] = [
        (b"flip", SIX, b"P2\n3 2\n9\n4\n5\n6\n1\n2\n3\n"),
        (b"flop", SIX, b"P2\n3 2\n9\n3\n2\n1\n6\n5\n4\n"),
        (b"transpose", SIX, b"P2\n2 3\n9\n1\n4\n2\n5\n3\n6\n"),
        (b"rotate 90", SIX, b"P2\n2 3\n9\n4\n1\n5\n2\n6\n3\n"),
        (b"rotate 180", SIX, b"P2\n3 2\n9\n6\n5\n4\n3\n2\n1\n"),
        (b"rotate 270", SIX, b"P2\n2 3\n9\n3\n6\n2\n5\n1\n4\n"),
    ];
    written(&rt, rt.alloc(), &TABLE);
}

#[test]
fn smaller(rt: HostRuntime) {
    const TABLE: [(&[u8], &[u8], &[u8]); 3] = [
        (b"scale-down 1", SIX, b"P2\n3 2\n9\n1\n2\n3\n4\n5\n6\n"),
        (b"scale-down 2", SIX, b"P2\n2 1\n9\n1\n3\n"),
        (b"scale-down 9223372036854775807", SIX, b"P2\n1 1\n9\n1\n"),
    ];
    written(&rt, rt.alloc(), &TABLE);
    refused(
        &rt,
        rt.alloc(),
        &[
            (
                b"scale-down 0",
                SIX,
                b"nd_picture_program: step 1: 'scale-down 0': the factor must be at least 1 and below 2^63\n",
            ),
            (
                b"scale-down 9223372036854775808",
                SIX,
                b"nd_picture_program: step 1: 'scale-down 9223372036854775808': the factor must be at least 1 and below 2^63\n",
            ),
        ],
    );
}

#[test]
fn light(rt: HostRuntime) {
    const TABLE: [(&[u8], &[u8], &[u8]); 5] = [
        (b"invert", SIX, b"P2\n3 2\n9\n8\n7\n6\n5\n4\n3\n"),
        (b"threshold 3", SIX, b"P2\n3 2\n9\n0\n0\n0\n9\n9\n9\n"),
        (b"threshold 0", SIX, b"P2\n3 2\n9\n9\n9\n9\n9\n9\n9\n"),
        (b"threshold 65536", SIX, b"P2\n3 2\n9\n0\n0\n0\n0\n0\n0\n"),
        // The second value is above 1: (1+1+2 + 1+1+2 + 4+4+5) / 9.
        (b"blur", SIX, b"P2\n3 2\n9\n2\n3\n3\n3\n4\n4\n"),
    ];
    written(&rt, rt.alloc(), &TABLE);
}

#[test]
fn formats_and_colours(rt: HostRuntime) {
    const TABLE: [(&[u8], &[u8], &[u8]); 9] = [
        // As Netpbm's ppmtopgm writes them.
        (
            b"gray",
            b"P3 3 1 255 255 0 0 10 20 30 0 255 255",
            b"P2\n3 1\n255\n77\n18\n178\n",
        ),
        (
            b"gray",
            b"P3 4 1 9 1 9 9 9 0 0 0 9 0 0 0 9",
            b"P2\n4 1\n9\n7\n3\n5\n1\n",
        ),
        (
            b"gray",
            b"P3 3 1 65535 65535 0 0 1000 2000 3000 1 2 60000",
            b"P2\n3 1\n65535\n19588\n1816\n6871\n",
        ),
        (b"gray", SIX, b"P2\n3 2\n9\n1\n2\n3\n4\n5\n6\n"),
        (b"plain", b"P5 2 1 9 \x01\x02", b"P2\n2 1\n9\n1\n2\n"),
        (b"raw", b"P3 1 1 9 1 2 3", b"P6\n1 1\n9\n\x01\x02\x03"),
        (b"raw", b"P1 2 1 01", b"P4\n2 1\n\x40"),
        (b"raw plain", b"P1 2 1 01", b"P1\n2 1\n0\n1\n"),
        (b"raw flop gray", b"P3 1 1 255 1 2 3", b"P5\n1 1\n255\n\x02"),
    ];
    written(&rt, rt.alloc(), &TABLE);
}

#[test]
fn borders(rt: HostRuntime) {
    // As Netpbm's pnmpad writes them.
    const WRITTEN: [(&[u8], &[u8], &[u8]); 4] = [
        (
            b"border 1 9",
            SIX,
            b"P2\n5 4\n9\n9\n9\n9\n9\n9\n9\n1\n2\n3\n9\n9\n4\n5\n6\n9\n9\n9\n9\n9\n9\n",
        ),
        (b"border 0 9", SIX, b"P2\n3 2\n9\n1\n2\n3\n4\n5\n6\n"),
        (
            b"border 1 0",
            b"P1 2 1 01",
            b"P1\n4 3\n1\n1\n1\n1\n1\n0\n1\n1\n1\n1\n1\n1\n",
        ),
        (
            b"border 1 4 crop 1 0 1 3",
            b"P3 1 1 9 1 2 3",
            b"P3\n3 1\n9\n4\n4\n4\n1\n2\n3\n4\n4\n4\n",
        ),
    ];
    written(&rt, rt.alloc(), &WRITTEN);
    const REFUSED: [(&[u8], &[u8], &[u8]); 3] = [
        (
            b"border 1 10",
            SIX,
            b"nd_picture_program: step 1: 'border 1 10': the samples must be at most the maxval, and the image at most 1000000000 high and wide\n",
        ),
        (
            b"flip border 499999999 0",
            SIX,
            b"nd_picture_program: step 2: 'border 499999999 0': the samples must be at most the maxval, and the image at most 1000000000 high and wide\n",
        ),
        (
            b"border 18446744073709551615 0",
            SIX,
            b"nd_picture_program: step 1: 'border 18446744073709551615 0': the samples must be at most the maxval, and the image at most 1000000000 high and wide\n",
        ),
    ];
    refused(&rt, rt.alloc(), &REFUSED);
}

#[test]
fn means_of_blocks(rt: HostRuntime) {
    const WRITTEN: [(&[u8], &[u8], &[u8]); 6] = [
        // As Netpbm's pamscale -linear -reduce writes them.
        (
            b"shrink 2",
            b"P2 4 4 20 1 2 3 4 5 6 7 8 9 10 11 12 13 14 15 20",
            b"P2\n2 2\n20\n4\n6\n12\n15\n",
        ),
        (
            b"shrink 3",
            b"P2 6 3 99 1 2 3 4 50 6 7 8 9 10 11 12 13 14 15 20 90 97",
            b"P2\n2 1\n99\n8\n33\n",
        ),
        (
            b"shrink 2",
            b"P3 2 2 20 1 2 3 4 5 6 7 8 9 10 11 12",
            b"P3\n1 1\n20\n6\n7\n8\n",
        ),
        (b"shrink 1", SIX, b"P2\n3 2\n9\n1\n2\n3\n4\n5\n6\n"),
        // (1 + 2 + 4 + 5) / 4, and of the block that has one column (3 + 6) / 2; and the mean of all, 21 / 6.
        (b"shrink 2", SIX, b"P2\n2 1\n9\n3\n5\n"),
        (b"shrink 9223372036854775807", SIX, b"P2\n1 1\n9\n4\n"),
    ];
    written(&rt, rt.alloc(), &WRITTEN);
    const REFUSED: [(&[u8], &[u8], &[u8]); 1] = [(
        b"shrink 0",
        SIX,
        b"nd_picture_program: step 1: 'shrink 0': the factor must be at least 1 and below 2^63\n",
    )];
    refused(&rt, rt.alloc(), &REFUSED);
}

#[test]
fn one_after_another(rt: HostRuntime) {
    const WRITTEN: [(&[u8], &[u8], &[u8]); 2] = [
        (
            b"flip flop rotate 180",
            SIX,
            b"P2\n3 2\n9\n1\n2\n3\n4\n5\n6\n",
        ),
        (b"rotate 90 crop 1 0 2 1 invert", SIX, b"P2\n1 2\n9\n4\n3\n"),
    ];
    written(&rt, rt.alloc(), &WRITTEN);
    const REFUSED: [(&[u8], &[u8], &[u8]); 2] = [
        (
            b"rotate 90 crop 0 0 2 3 flip",
            SIX,
            b"nd_picture_program: step 2: 'crop 0 0 2 3': the part must lie in the picture, and have a row and a column\n",
        ),
        (
            b"flip flop rotate 45",
            SIX,
            b"nd_picture_program: step 3: 'rotate 45': rotate takes 90, 180 or 270\n",
        ),
    ];
    refused(&rt, rt.alloc(), &REFUSED);
}

#[test]
fn words_that_are_no_steps(rt: HostRuntime) {
    const TABLE: [(&[u8], &[u8], &[u8]); 14] = [
        (
            b"border 1 x",
            b"",
            b"nd_picture_program: step 1: 'border 1 x': border takes two numbers: width and value\n",
        ),
        (
            b"shrink -1",
            b"",
            b"nd_picture_program: step 1: 'shrink -1': shrink takes one number\n",
        ),
        (
            b"turn",
            b"",
            b"nd_picture_program: step 1: 'turn': no such step; --help lists the steps\n",
        ),
        (
            b"flip Flip",
            b"",
            b"nd_picture_program: step 2: 'Flip': no such step; --help lists the steps\n",
        ),
        (
            b"crop 0 0 1",
            b"",
            b"nd_picture_program: step 1: 'crop 0 0 1': crop takes four numbers: top, left, height and width\n",
        ),
        (
            b"crop 0 0 1 -1 flip",
            b"",
            b"nd_picture_program: step 1: 'crop 0 0 1 -1': crop takes four numbers: top, left, height and width\n",
        ),
        (
            b"flop threshold",
            b"",
            b"nd_picture_program: step 2: 'threshold': threshold takes one number\n",
        ),
        (
            b"scale-down x",
            b"",
            b"nd_picture_program: step 1: 'scale-down x': scale-down takes one number\n",
        ),
        (
            b"invert 5",
            b"",
            b"nd_picture_program: step 2: '5': no such step; --help lists the steps\n",
        ),
        (
            b"rotate 45 flip",
            b"",
            b"nd_picture_program: step 1: 'rotate 45': rotate takes 90, 180 or 270\n",
        ),
        (
            b"flip rotate",
            b"",
            b"nd_picture_program: step 2: 'rotate': rotate takes 90, 180 or 270\n",
        ),
        (
            b"rotate x",
            b"",
            b"nd_picture_program: step 1: 'rotate x': rotate takes 90, 180 or 270\n",
        ),
        (
            b"crop",
            b"",
            b"nd_picture_program: step 1: 'crop': crop takes four numbers: top, left, height and width\n",
        ),
        (
            b" crop 0 0 1 1 \t rotate  90 blur flip 0",
            b"",
            b"nd_picture_program: step 5: '0': no such step; --help lists the steps\n",
        ),
    ];
    refused(&rt, rt.alloc(), &TABLE);
}
