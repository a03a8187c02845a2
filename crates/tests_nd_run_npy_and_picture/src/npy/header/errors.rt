//! Tests of the texts that errors write.

use crate::npy::text_checks::have_texts;
use nd_npy_text::{HeaderError, HeaderFlaw};

#[test]
fn texts(rt: HostRuntime) {
    const TABLE: [(HeaderError, &str); 6] = [
        (HeaderError::NoMagic, "this is no .npy file"),
        (
            HeaderError::UnknownVersion {
                major: 4,
                minor: 10,
            },
            "the version 4.10 isn't known",
        ),
        (HeaderError::TooShort, "the head ends too early"),
        (
            HeaderError::BadByte {
                byte: 21,
                flaw: HeaderFlaw::Text,
            },
            "byte 21: items that are text aren't supported",
        ),
        (HeaderError::TooLarge, "the shape is too large"),
        (HeaderError::Memory, "out of memory"),
    ];
    assert!(rt; have_texts(rt.alloc(), &TABLE));
}
