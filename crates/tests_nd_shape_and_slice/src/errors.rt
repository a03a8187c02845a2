//! The kinds of errors, and their texts, which are those of ndarray.

use nd_shape_and_slice::{ErrorKind, NoMemory, ShapeError};
use std::alloc::Global;
use std::fmt::Display;

const TEXTS: [(ErrorKind, &str); 6] = [
    (
        ErrorKind::IncompatibleShape,
        "ShapeError/IncompatibleShape: incompatible shapes",
    ),
    (
        ErrorKind::IncompatibleLayout,
        "ShapeError/IncompatibleLayout: incompatible memory layout",
    ),
    (
        ErrorKind::RangeLimited,
        "ShapeError/RangeLimited: the shape does not fit in type limits",
    ),
    (
        ErrorKind::OutOfBounds,
        "ShapeError/OutOfBounds: out of bounds indexing",
    ),
    (
        ErrorKind::Unsupported,
        "ShapeError/Unsupported: unsupported operation",
    ),
    (
        ErrorKind::Overflow,
        "ShapeError/Overflow: arithmetic overflow",
    ),
];

// Returns whether an error writes this text.
fn writes<E: Display>(alloc: Global, error: &E, text: &str) -> bool {
    match format!(in alloc; "{error}") {
        Ok(written) => written.as_str() == text,
        Err(_) => false,
    }
}

// Returns whether each error writes its own text.
fn write_texts(alloc: Global) -> bool {
    for (kind, text) in &TEXTS {
        if !writes(alloc, &ShapeError::from_kind(*kind), *text) {
            return false;
        }
    }
    writes(alloc, &NoMemory, "out of memory")
}

#[test]
fn texts_of_errors(rt: HostRuntime) {
    assert!(rt; write_texts(rt.alloc()));
}

// Returns whether an error that is made of each kind has this kind.
fn have_kinds(kinds: &[ErrorKind]) -> bool {
    for kind in kinds {
        if ShapeError::from_kind(*kind).kind() != *kind {
            return false;
        }
    }
    true
}

#[test]
fn errors_have_kinds(rt: HostRuntime) {
    const KINDS: [ErrorKind; 6] = [
        ErrorKind::IncompatibleShape,
        ErrorKind::IncompatibleLayout,
        ErrorKind::RangeLimited,
        ErrorKind::OutOfBounds,
        ErrorKind::Unsupported,
        ErrorKind::Overflow,
    ];
    assert!(rt; have_kinds(&KINDS) && NoMemory == NoMemory);
}
