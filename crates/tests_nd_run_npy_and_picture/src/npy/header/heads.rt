//! Tests with heads that numpy 1.24 wrote, and with others that it reads.

use crate::npy::header::header_checks::{Head, are_read, are_written};
use nd_npy_text::{ByteOrder, ItemType, Kind};

const KINDS: [Head; 18] = [
    Head {
        file: b"\x93NUMPY\x01\x00v\x00{'descr': '|b1', 'fortran_order': False, 'shape': (3, 4), }                                                          \n}",
        item_type: ItemType {
            kind: Kind::Bool,
            order: ByteOrder::NotApplicable,
        },
        fortran_order: false,
        shape: &[3, 4],
    },
    Head {
        file: b"\x93NUMPY\x01\x00v\x00{'descr': '|i1', 'fortran_order': False, 'shape': (3, 4), }                                                          \n}",
        item_type: ItemType {
            kind: Kind::Int8,
            order: ByteOrder::NotApplicable,
        },
        fortran_order: false,
        shape: &[3, 4],
    },
    Head {
        file: b"\x93NUMPY\x01\x00v\x00{'descr': '<i2', 'fortran_order': False, 'shape': (3, 4), }                                                          \n}",
        item_type: ItemType {
            kind: Kind::Int16,
            order: ByteOrder::Little,
        },
        fortran_order: false,
        shape: &[3, 4],
    },
    Head {
        file: b"\x93NUMPY\x01\x00v\x00{'descr': '<i4', 'fortran_order': False, 'shape': (3, 4), }                                                          \n}",
        item_type: ItemType {
            kind: Kind::Int32,
            order: ByteOrder::Little,
        },
        fortran_order: false,
        shape: &[3, 4],
    },
    Head {
        file: b"\x93NUMPY\x01\x00v\x00{'descr': '<i8', 'fortran_order': False, 'shape': (3, 4), }                                                          \n}",
        item_type: ItemType {
            kind: Kind::Int64,
            order: ByteOrder::Little,
        },
        fortran_order: false,
        shape: &[3, 4],
    },
    Head {
        file: b"\x93NUMPY\x01\x00v\x00{'descr': '|u1', 'fortran_order': False, 'shape': (3, 4), }                                                          \n}",
        item_type: ItemType {
            kind: Kind::UInt8,
            order: ByteOrder::NotApplicable,
        },
        fortran_order: false,
        shape: &[3, 4],
    },
    Head {
        file: b"\x93NUMPY\x01\x00v\x00{'descr': '<u2', 'fortran_order': False, 'shape': (3, 4), }                                                          \n}",
        item_type: ItemType {
            kind: Kind::UInt16,
            order: ByteOrder::Little,
        },
        fortran_order: false,
        shape: &[3, 4],
    },
    Head {
        file: b"\x93NUMPY\x01\x00v\x00{'descr': '<u4', 'fortran_order': False, 'shape': (3, 4), }                                                          \n}",
        item_type: ItemType {
            kind: Kind::UInt32,
            order: ByteOrder::Little,
        },
        fortran_order: false,
        shape: &[3, 4],
    },
    Head {
        file: b"\x93NUMPY\x01\x00v\x00{'descr': '<u8', 'fortran_order': False, 'shape': (3, 4), }                                                          \n}",
        item_type: ItemType {
            kind: Kind::UInt64,
            order: ByteOrder::Little,
        },
        fortran_order: false,
        shape: &[3, 4],
    },
    Head {
        file: b"\x93NUMPY\x01\x00v\x00{'descr': '<f2', 'fortran_order': False, 'shape': (3, 4), }                                                          \n}",
        item_type: ItemType {
            kind: Kind::Float16,
            order: ByteOrder::Little,
        },
        fortran_order: false,
        shape: &[3, 4],
    },
    Head {
        file: b"\x93NUMPY\x01\x00v\x00{'descr': '<f4', 'fortran_order': False, 'shape': (3, 4), }                                                          \n}",
        item_type: ItemType {
            kind: Kind::Float32,
            order: ByteOrder::Little,
        },
        fortran_order: false,
        shape: &[3, 4],
    },
    Head {
        file: b"\x93NUMPY\x01\x00v\x00{'descr': '<f8', 'fortran_order': False, 'shape': (3, 4), }                                                          \n}",
        item_type: ItemType {
            kind: Kind::Float64,
            order: ByteOrder::Little,
        },
        fortran_order: false,
        shape: &[3, 4],
    },
    Head {
        file: b"\x93NUMPY\x01\x00v\x00{'descr': '<c8', 'fortran_order': False, 'shape': (3, 4), }                                                          \n}",
        item_type: ItemType {
            kind: Kind::Complex64,
            order: ByteOrder::Little,
        },
        fortran_order: false,
        shape: &[3, 4],
    },
    Head {
        file: b"\x93NUMPY\x01\x00v\x00{'descr': '<c16', 'fortran_order': False, 'shape': (3, 4), }                                                         \n}",
        item_type: ItemType {
            kind: Kind::Complex128,
            order: ByteOrder::Little,
        },
        fortran_order: false,
        shape: &[3, 4],
    },
    Head {
        file: b"\x93NUMPY\x01\x00v\x00{'descr': '>i2', 'fortran_order': False, 'shape': (3, 4), }                                                          \n}",
        item_type: ItemType {
            kind: Kind::Int16,
            order: ByteOrder::Big,
        },
        fortran_order: false,
        shape: &[3, 4],
    },
    Head {
        file: b"\x93NUMPY\x01\x00v\x00{'descr': '>u8', 'fortran_order': False, 'shape': (3, 4), }                                                          \n}",
        item_type: ItemType {
            kind: Kind::UInt64,
            order: ByteOrder::Big,
        },
        fortran_order: false,
        shape: &[3, 4],
    },
    Head {
        file: b"\x93NUMPY\x01\x00v\x00{'descr': '>f8', 'fortran_order': False, 'shape': (3, 4), }                                                          \n}",
        item_type: ItemType {
            kind: Kind::Float64,
            order: ByteOrder::Big,
        },
        fortran_order: false,
        shape: &[3, 4],
    },
    Head {
        file: b"\x93NUMPY\x01\x00v\x00{'descr': '>c16', 'fortran_order': False, 'shape': (3, 4), }                                                         \n}",
        item_type: ItemType {
            kind: Kind::Complex128,
            order: ByteOrder::Big,
        },
        fortran_order: false,
        shape: &[3, 4],
    },
];

const SHAPES: [Head; 9] = [
    Head {
        file: b"\x93NUMPY\x01\x00v\x00{'descr': '<f8', 'fortran_order': False, 'shape': (), }                                                              \n}",
        item_type: ItemType {
            kind: Kind::Float64,
            order: ByteOrder::Little,
        },
        fortran_order: false,
        shape: &[],
    },
    Head {
        file: b"\x93NUMPY\x01\x00v\x00{'descr': '<f8', 'fortran_order': False, 'shape': (3,), }                                                            \n}",
        item_type: ItemType {
            kind: Kind::Float64,
            order: ByteOrder::Little,
        },
        fortran_order: false,
        shape: &[3],
    },
    Head {
        file: b"\x93NUMPY\x01\x00v\x00{'descr': '<f8', 'fortran_order': False, 'shape': (0,), }                                                            \n}",
        item_type: ItemType {
            kind: Kind::Float64,
            order: ByteOrder::Little,
        },
        fortran_order: false,
        shape: &[0],
    },
    Head {
        file: b"\x93NUMPY\x01\x00v\x00{'descr': '<f8', 'fortran_order': False, 'shape': (0, 5), }                                                          \n}",
        item_type: ItemType {
            kind: Kind::Float64,
            order: ByteOrder::Little,
        },
        fortran_order: false,
        shape: &[0, 5],
    },
    Head {
        file: b"\x93NUMPY\x01\x00v\x00{'descr': '<f8', 'fortran_order': True, 'shape': (2, 3, 4), }                                                        \n}",
        item_type: ItemType {
            kind: Kind::Float64,
            order: ByteOrder::Little,
        },
        fortran_order: true,
        shape: &[2, 3, 4],
    },
    Head {
        file: b"\x93NUMPY\x01\x00v\x00{'descr': '<f8', 'fortran_order': False, 'shape': (1000000, 20), }                                                   \n}",
        item_type: ItemType {
            kind: Kind::Float64,
            order: ByteOrder::Little,
        },
        fortran_order: false,
        shape: &[1000000, 20],
    },
    Head {
        file: b"\x93NUMPY\x01\x00v\x00{'descr': '<f8', 'fortran_order': True, 'shape': (20, 1000000), }                                                    \n}",
        item_type: ItemType {
            kind: Kind::Float64,
            order: ByteOrder::Little,
        },
        fortran_order: true,
        shape: &[20, 1000000],
    },
    Head {
        file: b"\x93NUMPY\x01\x00\xb6\x00{'descr': '<f8', 'fortran_order': False, 'shape': (1, 1, 1, 1, 1, 1, 1, 1, 1, 1, 1, 1, 1, 1, 1, 1, 1, 1, 1, 1, 1, 1, 1, 1, 1, 1, 1, 1, 1, 1, 1, 1), }                                \n}",
        item_type: ItemType {
            kind: Kind::Float64,
            order: ByteOrder::Little,
        },
        fortran_order: false,
        shape: &[
            1, 1, 1, 1, 1, 1, 1, 1, 1, 1, 1, 1, 1, 1, 1, 1, 1, 1, 1, 1, 1, 1, 1, 1, 1, 1, 1, 1, 1,
            1, 1, 1,
        ],
    },
    Head {
        file: b"\x93NUMPY\x01\x00v\x00{'descr': '|u1', 'fortran_order': False, 'shape': (4611686018427387904,), }                                          \n}",
        item_type: ItemType {
            kind: Kind::UInt8,
            order: ByteOrder::NotApplicable,
        },
        fortran_order: false,
        shape: &[4611686018427387904],
    },
];

const LATER_VERSIONS: [Head; 2] = [
    Head {
        file: b"\x93NUMPY\x02\x00t\x00\x00\x00{'descr': '<f8', 'fortran_order': False, 'shape': (3, 4), }                                                        \n}",
        item_type: ItemType {
            kind: Kind::Float64,
            order: ByteOrder::Little,
        },
        fortran_order: false,
        shape: &[3, 4],
    },
    Head {
        file: b"\x93NUMPY\x03\x00t\x00\x00\x00{'descr': '<f8', 'fortran_order': False, 'shape': (3, 4), }                                                        \n}",
        item_type: ItemType {
            kind: Kind::Float64,
            order: ByteOrder::Little,
        },
        fortran_order: false,
        shape: &[3, 4],
    },
];

/// Heads with other quotes, with more or fewer spaces, without the last comma, and with the keys in other orders.
const OTHER_FORMS: [Head; 8] = [
    Head {
        file: b"\x93NUMPY\x01\x009\x00{\"descr\": \"<f8\", \"fortran_order\": True, \"shape\": (3, 4)}\n}",
        item_type: ItemType {
            kind: Kind::Float64,
            order: ByteOrder::Little,
        },
        fortran_order: true,
        shape: &[3, 4],
    },
    Head {
        file: b"\x93NUMPY\x01\x007\x00{'descr':'<f8','fortran_order':False,'shape':(3,4)}   \n}",
        item_type: ItemType {
            kind: Kind::Float64,
            order: ByteOrder::Little,
        },
        fortran_order: false,
        shape: &[3, 4],
    },
    Head {
        file: b"\x93NUMPY\x01\x00J\x00 { 'descr' : '>i4' , 'fortran_order' : False , 'shape' : ( 3 , 4 , ) , } \n}",
        item_type: ItemType {
            kind: Kind::Int32,
            order: ByteOrder::Big,
        },
        fortran_order: false,
        shape: &[3, 4],
    },
    Head {
        file: b"\x93NUMPY\x01\x00;\x00{'descr': '<f8', 'fortran_order': False, 'shape': (12,), }\n}",
        item_type: ItemType {
            kind: Kind::Float64,
            order: ByteOrder::Little,
        },
        fortran_order: false,
        shape: &[12],
    },
    Head {
        file: b"\x93NUMPY\x01\x007\x00{'descr': '<f8', 'fortran_order': False, 'shape': ( )}\n}",
        item_type: ItemType {
            kind: Kind::Float64,
            order: ByteOrder::Little,
        },
        fortran_order: false,
        shape: &[],
    },
    Head {
        file: b"\x93NUMPY\x01\x00:\x00{'shape': (3, 4), 'fortran_order': False, 'descr': '<f8'}\n}",
        item_type: ItemType {
            kind: Kind::Float64,
            order: ByteOrder::Little,
        },
        fortran_order: false,
        shape: &[3, 4],
    },
    Head {
        file: b"\x93NUMPY\x01\x00;\x00{'fortran_order': True, 'shape': (3, 4), 'descr': '|b1', }\n}",
        item_type: ItemType {
            kind: Kind::Bool,
            order: ByteOrder::NotApplicable,
        },
        fortran_order: true,
        shape: &[3, 4],
    },
    Head {
        file: b"\x93NUMPY\x01\x008\x00{'shape': (3,), 'descr': '>u2', 'fortran_order': False}\n}",
        item_type: ItemType {
            kind: Kind::UInt16,
            order: ByteOrder::Big,
        },
        fortran_order: false,
        shape: &[3],
    },
];

#[test]
fn kinds(rt: HostRuntime) {
    let table = &KINDS;
    assert!(rt; are_read(rt.alloc(), table) && are_written(rt.alloc(), table));
}

#[test]
fn shapes(rt: HostRuntime) {
    let table = &SHAPES;
    assert!(rt; are_read(rt.alloc(), table) && are_written(rt.alloc(), table));
}

#[test]
fn later_versions(rt: HostRuntime) {
    assert!(rt; are_read(rt.alloc(), &LATER_VERSIONS));
}

#[test]
fn other_forms(rt: HostRuntime) {
    assert!(rt; are_read(rt.alloc(), &OTHER_FORMS));
}
