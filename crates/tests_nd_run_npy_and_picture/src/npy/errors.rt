//! Tests of the texts that errors write.

use crate::npy::text_checks::have_texts;
use nd_npy::{ReadNpyError, ReadNpyFromError, WriteNpyError};
use nd_npy_text::{HeaderError, Kind};

#[test]
fn texts(rt: HostRuntime) {
    const TABLE: [(ReadNpyError, &str); 4] = [
        (
            ReadNpyError::Header(HeaderError::NoMagic),
            "this is no .npy file",
        ),
        (
            ReadNpyError::OtherKind(Kind::Float16),
            "the elements are of the kind float16, which isn't the kind asked for",
        ),
        (
            ReadNpyError::WrongSize {
                expected: 24,
                found: 23,
            },
            "23 bytes follow the head, and the elements take 24",
        ),
        (ReadNpyError::Memory, "out of memory"),
    ];
    assert!(rt; have_texts(rt.alloc(), &TABLE));
}

#[test]
fn texts_of_streams(rt: HostRuntime) {
    const READ: [(ReadNpyFromError, &str); 2] = [
        (ReadNpyFromError::ReadFailed, "a read failed"),
        (
            ReadNpyFromError::File(ReadNpyError::WrongSize {
                expected: 24,
                found: 23,
            }),
            "23 bytes follow the head, and the elements take 24",
        ),
    ];
    const WRITE: [(WriteNpyError, &str); 2] = [
        (WriteNpyError::WriteFailed, "a write failed"),
        (WriteNpyError::Memory, "out of memory"),
    ];
    assert!(rt; have_texts(rt.alloc(), &READ));
    assert!(rt; have_texts(rt.alloc(), &WRITE));
}
