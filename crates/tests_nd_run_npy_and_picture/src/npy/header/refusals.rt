//! Tests with bytes from which no head can be read, each with the first cause.

use crate::npy::header::header_checks::{are_refused, have_flaws};
use nd_npy_text::{HeaderError, HeaderFlaw};

/// Bytes whose opening is wrong, and heads of arrays that are too large.
const OPENINGS_AND_SIZES: [(&[u8], HeaderError); 14] = [
    (b"", HeaderError::NoMagic),
    (b"\x93NUMP", HeaderError::NoMagic),
    (b"\x92NUMPY\x01\x00", HeaderError::NoMagic),
    (b"\x93NUMPY", HeaderError::TooShort),
    (b"\x93NUMPY\x01", HeaderError::TooShort),
    (
        b"\x93NUMPY\x04\x00\x00\x00",
        HeaderError::UnknownVersion { major: 4, minor: 0 },
    ),
    (
        b"\x93NUMPY\x01\x01\x00\x00",
        HeaderError::UnknownVersion { major: 1, minor: 1 },
    ),
    (b"\x93NUMPY\x01\x00\x01", HeaderError::TooShort),
    (b"\x93NUMPY\x02\x00\x01\x00\x00", HeaderError::TooShort),
    (b"\x93NUMPY\x01\x00\x03\x00{}", HeaderError::TooShort),
    (b"\x93NUMPY\x01\x00\x00\x01{}\n", HeaderError::TooShort),
    (
        b"\x93NUMPY\x01\x00L\x00{'descr': '<f8', 'fortran_order': False, 'shape': (1152921504606846976,), }\n",
        HeaderError::TooLarge,
    ),
    (
        b"\x93NUMPY\x01\x00N\x00{'descr': '|u1', 'fortran_order': False, 'shape': (3037000500, 3037000500), }\n",
        HeaderError::TooLarge,
    ),
    (
        b"\x93NUMPY\x01\x00N\x00{'descr': '<f8', 'fortran_order': False, 'shape': (0, 1152921504606846976), }\n",
        HeaderError::TooLarge,
    ),
];

/// Dicts that are wrong at a key, at a comma after a value, or at the order.
const KEYS_AND_ORDERS: [(&[u8], usize, HeaderFlaw); 16] = [
    (b"\x93NUMPY\x01\x00\x01\x00\n", 10, HeaderFlaw::Beginning),
    (
        b"\x93NUMPY\x01\x00\n\x00['descr']\n",
        10,
        HeaderFlaw::Beginning,
    ),
    (
        b"\x93NUMPY\x01\x00<\x00{'descr\": '<f8', 'fortran_order': False, 'shape': (3, 4), }\n",
        17,
        HeaderFlaw::Key,
    ),
    (
        b"\x93NUMPY\x01\x00:\x00{descr: '<f8', 'fortran_order': False, 'shape': (3, 4), }\n",
        11,
        HeaderFlaw::Key,
    ),
    (
        b"\x93NUMPY\x01\x00;\x00{'kind': '<f8', 'fortran_order': False, 'shape': (3, 4), }\n",
        12,
        HeaderFlaw::Key,
    ),
    (
        b"\x93NUMPY\x01\x00;\x00{'descr' '<f8', 'fortran_order': False, 'shape': (3, 4), }\n",
        19,
        HeaderFlaw::Key,
    ),
    (
        b"\x93NUMPY\x01\x00;\x00{'descr': '<f8', 'fortran_order': False, 'descr': '<f8', }\n",
        51,
        HeaderFlaw::KeyAgain,
    ),
    (
        b"\x93NUMPY\x01\x005\x00{'shape': (3, 4), 'shape': (3, 4), 'descr': '<f8', }\n",
        28,
        HeaderFlaw::KeyAgain,
    ),
    (
        b"\x93NUMPY\x01\x00A\x00{'fortran_order': True, 'descr': '<f8', 'fortran_order': True, }\n",
        50,
        HeaderFlaw::KeyAgain,
    ),
    (b"\x93NUMPY\x01\x00\x03\x00{}\n", 11, HeaderFlaw::Key),
    (
        b"\x93NUMPY\x01\x00<\x00{'descr': '<f8'; 'fortran_order': False, 'shape': (3, 4), }\n",
        25,
        HeaderFlaw::Comma,
    ),
    (
        b"\x93NUMPY\x01\x006\x00{'descr': '<f8', 'fortran': False, 'shape': (3, 4), }\n",
        35,
        HeaderFlaw::Key,
    ),
    (
        b"\x93NUMPY\x01\x00<\x00{'descr': '<f8', 'fortran_order': Falsy, 'shape': (3, 4), }\n",
        48,
        HeaderFlaw::Truth,
    ),
    (
        b"\x93NUMPY\x01\x008\x00{'descr': '<f8', 'fortran_order': 1, 'shape': (3, 4), }\n",
        44,
        HeaderFlaw::Truth,
    ),
    (
        b"\x93NUMPY\x01\x00)\x00{'descr': '<f8', 'fortran_order': False}\n",
        49,
        HeaderFlaw::Comma,
    ),
    (
        b"\x93NUMPY\x01\x00+\x00{'descr': '<f8', 'fortran_order': False, }\n",
        51,
        HeaderFlaw::Key,
    ),
];

/// Dicts with an item type that is wrong or not supported.
const ITEM_TYPES: [(&[u8], usize, HeaderFlaw); 14] = [
    (
        b"\x93NUMPY\x01\x008\x00{'descr': 3, 'fortran_order': False, 'shape': (3, 4), }\n",
        20,
        HeaderFlaw::ItemType,
    ),
    (
        b"\x93NUMPY\x01\x00<\x00{'descr': '<f8\", 'fortran_order': False, 'shape': (3, 4), }\n",
        24,
        HeaderFlaw::ItemType,
    ),
    (
        b"\x93NUMPY\x01\x00;\x00{'descr': '|O', 'fortran_order': False, 'shape': (3, 4), }\n",
        21,
        HeaderFlaw::Object,
    ),
    (
        b"\x93NUMPY\x01\x00<\x00{'descr': '|S5', 'fortran_order': False, 'shape': (3, 4), }\n",
        21,
        HeaderFlaw::ByteString,
    ),
    (
        b"\x93NUMPY\x01\x00<\x00{'descr': '<U5', 'fortran_order': False, 'shape': (3, 4), }\n",
        21,
        HeaderFlaw::Text,
    ),
    (
        b"\x93NUMPY\x01\x00@\x00{'descr': '<M8[ns]', 'fortran_order': False, 'shape': (3, 4), }\n",
        21,
        HeaderFlaw::Date,
    ),
    (
        b"\x93NUMPY\x01\x00@\x00{'descr': '<m8[us]', 'fortran_order': False, 'shape': (3, 4), }\n",
        21,
        HeaderFlaw::Duration,
    ),
    (
        b"\x93NUMPY\x01\x00<\x00{'descr': '|V8', 'fortran_order': False, 'shape': (3, 4), }\n",
        21,
        HeaderFlaw::Raw,
    ),
    (
        b"\x93NUMPY\x01\x00=\x00{'descr': '<f16', 'fortran_order': False, 'shape': (3, 4), }\n",
        21,
        HeaderFlaw::OtherItems,
    ),
    (
        b"\x93NUMPY\x01\x00<\x00{'descr': '|f8', 'fortran_order': False, 'shape': (3, 4), }\n",
        21,
        HeaderFlaw::OtherItems,
    ),
    (
        b"\x93NUMPY\x01\x00<\x00{'descr': '<i1', 'fortran_order': False, 'shape': (3, 4), }\n",
        21,
        HeaderFlaw::OtherItems,
    ),
    (
        b"\x93NUMPY\x01\x00<\x00{'descr': '=i4', 'fortran_order': False, 'shape': (3, 4), }\n",
        21,
        HeaderFlaw::OtherItems,
    ),
    (
        b"\x93NUMPY\x01\x00S\x00{'descr': [('a', '<f8'), ('b', '<i4')], 'fortran_order': False, 'shape': (3, 4), }\n",
        20,
        HeaderFlaw::Record,
    ),
    (
        b"\x93NUMPY\x01\x00;\x00{'descr': '<i', 'fortran_order': False, 'shape': (3, 4), }\n",
        23,
        HeaderFlaw::OtherItems,
    ),
];

/// Dicts with a shape that is wrong, or with a wrong ending.
const SHAPES_AND_ENDINGS: [(&[u8], usize, HeaderFlaw); 13] = [
    (
        b"\x93NUMPY\x01\x00<\x00{'descr': '<f8', 'fortran_order': False, 'shape': [3, 4], }\n",
        60,
        HeaderFlaw::Shape,
    ),
    (
        b"\x93NUMPY\x01\x009\x00{'descr': '<f8', 'fortran_order': False, 'shape': (3), }\n",
        62,
        HeaderFlaw::AfterLength,
    ),
    (
        b"\x93NUMPY\x01\x00;\x00{'descr': '<f8', 'fortran_order': False, 'shape': (3 4), }\n",
        63,
        HeaderFlaw::AfterLength,
    ),
    (
        b"\x93NUMPY\x01\x00;\x00{'descr': '<f8', 'fortran_order': False, 'shape': (-3,), }\n",
        61,
        HeaderFlaw::Length,
    ),
    (
        b"\x93NUMPY\x01\x009\x00{'descr': '<f8', 'fortran_order': False, 'shape': (,), }\n",
        61,
        HeaderFlaw::Length,
    ),
    (
        b"\x93NUMPY\x01\x00L\x00{'descr': '<f8', 'fortran_order': False, 'shape': (9223372036854775808,), }\n",
        79,
        HeaderFlaw::Length,
    ),
    (
        b"\x93NUMPY\x01\x00\x99\x00{'descr': '<f8', 'fortran_order': False, 'shape': (1, 1, 1, 1, 1, 1, 1, 1, 1, 1, 1, 1, 1, 1, 1, 1, 1, 1, 1, 1, 1, 1, 1, 1, 1, 1, 1, 1, 1, 1, 1, 1, 7), }\n",
        157,
        HeaderFlaw::TooManyAxes,
    ),
    (
        b"\x93NUMPY\x01\x00\x99\x00{'descr': '<f8', 'fortran_order': False, 'shape': (1, 1, 1, 1, 1, 1, 1, 1, 1, 1, 1, 1, 1, 1, 1, 1, 1, 1, 1, 1, 1, 1, 1, 1, 1, 1, 1, 1, 1, 1, 1, 1, x), }\n",
        157,
        HeaderFlaw::Length,
    ),
    (
        b"\x93NUMPY\x01\x00E\x00{'descr': '<f8', 'fortran_order': False, 'shape': (3, 4), 'more': 1}\n",
        68,
        HeaderFlaw::Ending,
    ),
    (
        b"\x93NUMPY\x01\x00;\x00{'descr': '<f8', 'fortran_order': False, 'shape': (3, 4), }",
        69,
        HeaderFlaw::Padding,
    ),
    (
        b"\x93NUMPY\x01\x00>\x00{'descr': '<f8', 'fortran_order': False, 'shape': (3, 4), }   ",
        72,
        HeaderFlaw::Padding,
    ),
    (
        b"\x93NUMPY\x01\x00?\x00{'descr': '<f8', 'fortran_order': False, 'shape': (3, 4), }  \n\n",
        71,
        HeaderFlaw::Padding,
    ),
    (
        b"\x93NUMPY\x01\x00=\x00{'descr': '<f8', 'fortran_order': False, 'shape': (3, 4), }x\n",
        69,
        HeaderFlaw::Padding,
    ),
];

#[test]
fn openings_and_sizes(rt: HostRuntime) {
    assert!(rt; are_refused(rt.alloc(), &OPENINGS_AND_SIZES));
}

#[test]
fn keys_and_orders(rt: HostRuntime) {
    assert!(rt; have_flaws(rt.alloc(), &KEYS_AND_ORDERS));
}

#[test]
fn item_types(rt: HostRuntime) {
    assert!(rt; have_flaws(rt.alloc(), &ITEM_TYPES));
}

#[test]
fn shapes_and_endings(rt: HostRuntime) {
    assert!(rt; have_flaws(rt.alloc(), &SHAPES_AND_ENDINGS));
}
