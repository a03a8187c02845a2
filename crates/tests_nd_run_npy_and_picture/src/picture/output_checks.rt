//! Comparing what the program writes for steps and images with what is expected.

use nd_picture::Watched;
use nd_picture::program::drive;
use std::alloc::Global;
use std::process::Abort;

/// Asserts that each image with these steps is written as expected.
pub(crate) fn written(rt: &impl Abort, alloc: Global, table: &[(&[u8], &[u8], &[u8])]) {
    for (words, image, expected) in table {
        told(rt, alloc, words, image, (0, expected, b""));
    }
}

/// Asserts that each image with these steps is refused with the expected line.
pub(crate) fn refused(rt: &impl Abort, alloc: Global, table: &[(&[u8], &[u8], &[u8])]) {
    for (words, image, expected) in table {
        told(rt, alloc, words, image, (1, b"", expected));
    }
}

/// Asserts that each image with these steps is refused with the expected line, after the expected output.
pub(crate) fn broken_off(rt: &impl Abort, alloc: Global, table: &[(&[u8], &[u8], &[u8], &[u8])]) {
    for (words, image, output, expected) in table {
        told(rt, alloc, words, image, (1, output, expected));
    }
}

/// Asserts that the program ends with the expected status, output and errors.
fn told(rt: &impl Abort, alloc: Global, words: &[u8], image: &[u8], expected: (u8, &[u8], &[u8])) {
    let mut output = Watched::new(Vec::new(alloc));
    let mut errors = Watched::new(Vec::new(alloc));
    let status = drive(
        alloc,
        words,
        &mut Watched::new(image),
        &mut output,
        &mut errors,
    );
    assert!(rt;
        status == expected.0
            && output.into_inner().as_slice() == expected.1
            && errors.into_inner().as_slice() == expected.2
    );
}
