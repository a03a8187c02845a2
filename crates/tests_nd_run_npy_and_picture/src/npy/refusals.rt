//! Bytes that mean no array of the type that is asked for.

use nd_npy::reader::read_npy;
use nd_npy::{NpyItem, ReadNpyError};
use nd_npy_text::{HeaderError, HeaderFlaw, Kind};
use std::alloc::Global;

/// Returns whether a file isn't read as an array of `A`, for this cause.
fn is_refused<A: NpyItem>(alloc: Global, file: &[u8], error: ReadNpyError) -> bool {
    match read_npy::<A>(alloc, file) {
        Ok(_) => false,
        Err(cause) => cause == error,
    }
}

/// Returns whether each of these files, whose elements should take 4 bytes, isn't read as an array of `A`, since so many
/// bytes follow its head as the number beside it says.
fn have_wrong_sizes<A: NpyItem>(alloc: Global, table: &[(&[u8], usize)]) -> bool {
    for (file, found) in table {
        let error = ReadNpyError::WrongSize {
            expected: 4,
            found: *found,
        };
        if !is_refused::<A>(alloc, file, error) {
            return false;
        }
    }
    true
}

#[test]
fn too_few_or_too_many_bytes(rt: HostRuntime) {
    const TABLE: [(&[u8], usize); 4] = [
        (
            b"\x93NUMPY\x01\x00v\x00{'descr': '<i4', 'fortran_order': False, 'shape': (1,), }                                                            \n",
            0,
        ),
        (
            b"\x93NUMPY\x01\x00v\x00{'descr': '<i4', 'fortran_order': False, 'shape': (1,), }                                                            \n\x01",
            1,
        ),
        (
            b"\x93NUMPY\x01\x00v\x00{'descr': '<i4', 'fortran_order': False, 'shape': (1,), }                                                            \n\x01\x00\x00",
            3,
        ),
        (
            b"\x93NUMPY\x01\x00v\x00{'descr': '<i4', 'fortran_order': False, 'shape': (1,), }                                                            \n\x01\x00\x00\x00\x00",
            5,
        ),
    ];
    assert!(rt; have_wrong_sizes::<i32>(rt.alloc(), &TABLE));
}

#[test]
fn another_kind(rt: HostRuntime) {
    // A file of one number of four bytes, as numpy writes it.
    const NUMBER: &[u8] =
        b"\x93NUMPY\x01\x00v\x00{'descr': '<i4', 'fortran_order': False, 'shape': (1,), }                                                            \n\x01\x00\x00\x00";
    // The kind comes before the number of bytes.
    const ONE_BYTE: &[u8] =
        b"\x93NUMPY\x01\x00v\x00{'descr': '<i4', 'fortran_order': False, 'shape': (1,), }                                                            \n\x01";
    let error = ReadNpyError::OtherKind(Kind::Int32);
    assert!(rt; is_refused::<f32>(rt.alloc(), NUMBER, error));
    assert!(rt; is_refused::<f32>(rt.alloc(), ONE_BYTE, error));
}

#[test]
fn items_of_another_size(rt: HostRuntime) {
    const HEAD: &[u8] =
        b"\x93NUMPY\x01\x00v\x00{'descr': '<i4', 'fortran_order': False, 'shape': (1,), }                                                            \n";
    let error = ReadNpyError::OtherKind(Kind::Int32);
    assert!(rt; is_refused::<[u8; 8]>(rt.alloc(), HEAD, error));
}

/// Returns whether each of these files isn't read as an array of `A`, since its head has the error beside it.
fn have_no_head<A: NpyItem>(alloc: Global, table: &[(&[u8], HeaderError)]) -> bool {
    for (file, error) in table {
        if !is_refused::<A>(alloc, file, ReadNpyError::Header(*error)) {
            return false;
        }
    }
    true
}

#[test]
fn no_head(rt: HostRuntime) {
    const TABLE: [(&[u8], HeaderError); 3] = [
        (b"PK\x03\x04", HeaderError::NoMagic),
        (b"\x93NUMPY\x01\x00v\x00{'descr': ", HeaderError::TooShort),
        (
            b"\x93NUMPY\x01\x00\x02\x00[]",
            HeaderError::BadByte {
                byte: 10,
                flaw: HeaderFlaw::Beginning,
            },
        ),
    ];
    assert!(rt; have_no_head::<i32>(rt.alloc(), &TABLE));
}
