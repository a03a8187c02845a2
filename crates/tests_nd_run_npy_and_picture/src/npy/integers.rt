//! Files of integers and of truth values, in both orders of elements and both byte orders.

use crate::npy::numpy_file_checks::are_kept;

#[test]
fn bool_elements(rt: HostRuntime) {
    const VALUES: [bool; 6] = [true, false, false, true, true, false];
    const FILES: [&[u8]; 2] = [
        b"\x93NUMPY\x01\x00v\x00{'descr': '|b1', 'fortran_order': False, 'shape': (2, 3), }                                                          \n\x01\x00\x00\x01\x01\x00",
        b"\x93NUMPY\x01\x00v\x00{'descr': '|b1', 'fortran_order': True, 'shape': (2, 3), }                                                           \n\x01\x01\x00\x01\x00\x00",
    ];
    assert!(rt; are_kept(rt.alloc(), &VALUES, &FILES));
}

#[test]
fn i8_elements(rt: HostRuntime) {
    const VALUES: [i8; 6] = [0, 1, -1, 127, -128, 77];
    const FILES: [&[u8]; 2] = [
        b"\x93NUMPY\x01\x00v\x00{'descr': '|i1', 'fortran_order': False, 'shape': (2, 3), }                                                          \n\x00\x01\xff\x7f\x80M",
        b"\x93NUMPY\x01\x00v\x00{'descr': '|i1', 'fortran_order': True, 'shape': (2, 3), }                                                           \n\x00\x7f\x01\x80\xffM",
    ];
    assert!(rt; are_kept(rt.alloc(), &VALUES, &FILES));
}

#[test]
fn i16_elements(rt: HostRuntime) {
    const VALUES: [i16; 6] = [0, 1, -1, 32767, -32768, 4660];
    const FILES: [&[u8]; 4] = [
        b"\x93NUMPY\x01\x00v\x00{'descr': '<i2', 'fortran_order': False, 'shape': (2, 3), }                                                          \n\x00\x00\x01\x00\xff\xff\xff\x7f\x00\x804\x12",
        b"\x93NUMPY\x01\x00v\x00{'descr': '<i2', 'fortran_order': True, 'shape': (2, 3), }                                                           \n\x00\x00\xff\x7f\x01\x00\x00\x80\xff\xff4\x12",
        b"\x93NUMPY\x01\x00v\x00{'descr': '>i2', 'fortran_order': False, 'shape': (2, 3), }                                                          \n\x00\x00\x00\x01\xff\xff\x7f\xff\x80\x00\x124",
        b"\x93NUMPY\x01\x00v\x00{'descr': '>i2', 'fortran_order': True, 'shape': (2, 3), }                                                           \n\x00\x00\x7f\xff\x00\x01\x80\x00\xff\xff\x124",
    ];
    assert!(rt; are_kept(rt.alloc(), &VALUES, &FILES));
}

#[test]
fn i32_elements(rt: HostRuntime) {
    const VALUES: [i32; 6] = [0, 1, -1, 2147483647, -2147483648, 305419896];
    const FILES: [&[u8]; 4] = [
        b"\x93NUMPY\x01\x00v\x00{'descr': '<i4', 'fortran_order': False, 'shape': (2, 3), }                                                          \n\x00\x00\x00\x00\x01\x00\x00\x00\xff\xff\xff\xff\xff\xff\xff\x7f\x00\x00\x00\x80xV4\x12",
        b"\x93NUMPY\x01\x00v\x00{'descr': '<i4', 'fortran_order': True, 'shape': (2, 3), }                                                           \n\x00\x00\x00\x00\xff\xff\xff\x7f\x01\x00\x00\x00\x00\x00\x00\x80\xff\xff\xff\xffxV4\x12",
        b"\x93NUMPY\x01\x00v\x00{'descr': '>i4', 'fortran_order': False, 'shape': (2, 3), }                                                          \n\x00\x00\x00\x00\x00\x00\x00\x01\xff\xff\xff\xff\x7f\xff\xff\xff\x80\x00\x00\x00\x124Vx",
        b"\x93NUMPY\x01\x00v\x00{'descr': '>i4', 'fortran_order': True, 'shape': (2, 3), }                                                           \n\x00\x00\x00\x00\x7f\xff\xff\xff\x00\x00\x00\x01\x80\x00\x00\x00\xff\xff\xff\xff\x124Vx",
    ];
    assert!(rt; are_kept(rt.alloc(), &VALUES, &FILES));
}

#[test]
fn i64_elements(rt: HostRuntime) {
    const VALUES: [i64; 6] = [
        0,
        1,
        -1,
        9223372036854775807,
        -9223372036854775808,
        81985529216486895,
    ];
    const FILES: [&[u8]; 4] = [
        b"\x93NUMPY\x01\x00v\x00{'descr': '<i8', 'fortran_order': False, 'shape': (2, 3), }                                                          \n\x00\x00\x00\x00\x00\x00\x00\x00\x01\x00\x00\x00\x00\x00\x00\x00\xff\xff\xff\xff\xff\xff\xff\xff\xff\xff\xff\xff\xff\xff\xff\x7f\x00\x00\x00\x00\x00\x00\x00\x80\xef\xcd\xab\x89gE#\x01",
        b"\x93NUMPY\x01\x00v\x00{'descr': '<i8', 'fortran_order': True, 'shape': (2, 3), }                                                           \n\x00\x00\x00\x00\x00\x00\x00\x00\xff\xff\xff\xff\xff\xff\xff\x7f\x01\x00\x00\x00\x00\x00\x00\x00\x00\x00\x00\x00\x00\x00\x00\x80\xff\xff\xff\xff\xff\xff\xff\xff\xef\xcd\xab\x89gE#\x01",
        b"\x93NUMPY\x01\x00v\x00{'descr': '>i8', 'fortran_order': False, 'shape': (2, 3), }                                                          \n\x00\x00\x00\x00\x00\x00\x00\x00\x00\x00\x00\x00\x00\x00\x00\x01\xff\xff\xff\xff\xff\xff\xff\xff\x7f\xff\xff\xff\xff\xff\xff\xff\x80\x00\x00\x00\x00\x00\x00\x00\x01#Eg\x89\xab\xcd\xef",
        b"\x93NUMPY\x01\x00v\x00{'descr': '>i8', 'fortran_order': True, 'shape': (2, 3), }                                                           \n\x00\x00\x00\x00\x00\x00\x00\x00\x7f\xff\xff\xff\xff\xff\xff\xff\x00\x00\x00\x00\x00\x00\x00\x01\x80\x00\x00\x00\x00\x00\x00\x00\xff\xff\xff\xff\xff\xff\xff\xff\x01#Eg\x89\xab\xcd\xef",
    ];
    assert!(rt; are_kept(rt.alloc(), &VALUES, &FILES));
}

#[test]
fn u8_elements(rt: HostRuntime) {
    const VALUES: [u8; 6] = [0, 1, 2, 255, 128, 77];
    const FILES: [&[u8]; 2] = [
        b"\x93NUMPY\x01\x00v\x00{'descr': '|u1', 'fortran_order': False, 'shape': (2, 3), }                                                          \n\x00\x01\x02\xff\x80M",
        b"\x93NUMPY\x01\x00v\x00{'descr': '|u1', 'fortran_order': True, 'shape': (2, 3), }                                                           \n\x00\xff\x01\x80\x02M",
    ];
    assert!(rt; are_kept(rt.alloc(), &VALUES, &FILES));
}

#[test]
fn u16_elements(rt: HostRuntime) {
    const VALUES: [u16; 6] = [0, 1, 2, 65535, 32768, 4660];
    const FILES: [&[u8]; 4] = [
        b"\x93NUMPY\x01\x00v\x00{'descr': '<u2', 'fortran_order': False, 'shape': (2, 3), }                                                          \n\x00\x00\x01\x00\x02\x00\xff\xff\x00\x804\x12",
        b"\x93NUMPY\x01\x00v\x00{'descr': '<u2', 'fortran_order': True, 'shape': (2, 3), }                                                           \n\x00\x00\xff\xff\x01\x00\x00\x80\x02\x004\x12",
        b"\x93NUMPY\x01\x00v\x00{'descr': '>u2', 'fortran_order': False, 'shape': (2, 3), }                                                          \n\x00\x00\x00\x01\x00\x02\xff\xff\x80\x00\x124",
        b"\x93NUMPY\x01\x00v\x00{'descr': '>u2', 'fortran_order': True, 'shape': (2, 3), }                                                           \n\x00\x00\xff\xff\x00\x01\x80\x00\x00\x02\x124",
    ];
    assert!(rt; are_kept(rt.alloc(), &VALUES, &FILES));
}

#[test]
fn u32_elements(rt: HostRuntime) {
    const VALUES: [u32; 6] = [0, 1, 2, 4294967295, 2147483648, 305419896];
    const FILES: [&[u8]; 4] = [
        b"\x93NUMPY\x01\x00v\x00{'descr': '<u4', 'fortran_order': False, 'shape': (2, 3), }                                                          \n\x00\x00\x00\x00\x01\x00\x00\x00\x02\x00\x00\x00\xff\xff\xff\xff\x00\x00\x00\x80xV4\x12",
        b"\x93NUMPY\x01\x00v\x00{'descr': '<u4', 'fortran_order': True, 'shape': (2, 3), }                                                           \n\x00\x00\x00\x00\xff\xff\xff\xff\x01\x00\x00\x00\x00\x00\x00\x80\x02\x00\x00\x00xV4\x12",
        b"\x93NUMPY\x01\x00v\x00{'descr': '>u4', 'fortran_order': False, 'shape': (2, 3), }                                                          \n\x00\x00\x00\x00\x00\x00\x00\x01\x00\x00\x00\x02\xff\xff\xff\xff\x80\x00\x00\x00\x124Vx",
        b"\x93NUMPY\x01\x00v\x00{'descr': '>u4', 'fortran_order': True, 'shape': (2, 3), }                                                           \n\x00\x00\x00\x00\xff\xff\xff\xff\x00\x00\x00\x01\x80\x00\x00\x00\x00\x00\x00\x02\x124Vx",
    ];
    assert!(rt; are_kept(rt.alloc(), &VALUES, &FILES));
}

#[test]
fn u64_elements(rt: HostRuntime) {
    const VALUES: [u64; 6] = [
        0,
        1,
        2,
        18446744073709551615,
        9223372036854775808,
        81985529216486895,
    ];
    const FILES: [&[u8]; 4] = [
        b"\x93NUMPY\x01\x00v\x00{'descr': '<u8', 'fortran_order': False, 'shape': (2, 3), }                                                          \n\x00\x00\x00\x00\x00\x00\x00\x00\x01\x00\x00\x00\x00\x00\x00\x00\x02\x00\x00\x00\x00\x00\x00\x00\xff\xff\xff\xff\xff\xff\xff\xff\x00\x00\x00\x00\x00\x00\x00\x80\xef\xcd\xab\x89gE#\x01",
        b"\x93NUMPY\x01\x00v\x00{'descr': '<u8', 'fortran_order': True, 'shape': (2, 3), }                                                           \n\x00\x00\x00\x00\x00\x00\x00\x00\xff\xff\xff\xff\xff\xff\xff\xff\x01\x00\x00\x00\x00\x00\x00\x00\x00\x00\x00\x00\x00\x00\x00\x80\x02\x00\x00\x00\x00\x00\x00\x00\xef\xcd\xab\x89gE#\x01",
        b"\x93NUMPY\x01\x00v\x00{'descr': '>u8', 'fortran_order': False, 'shape': (2, 3), }                                                          \n\x00\x00\x00\x00\x00\x00\x00\x00\x00\x00\x00\x00\x00\x00\x00\x01\x00\x00\x00\x00\x00\x00\x00\x02\xff\xff\xff\xff\xff\xff\xff\xff\x80\x00\x00\x00\x00\x00\x00\x00\x01#Eg\x89\xab\xcd\xef",
        b"\x93NUMPY\x01\x00v\x00{'descr': '>u8', 'fortran_order': True, 'shape': (2, 3), }                                                           \n\x00\x00\x00\x00\x00\x00\x00\x00\xff\xff\xff\xff\xff\xff\xff\xff\x00\x00\x00\x00\x00\x00\x00\x01\x80\x00\x00\x00\x00\x00\x00\x00\x00\x00\x00\x00\x00\x00\x00\x02\x01#Eg\x89\xab\xcd\xef",
    ];
    assert!(rt; are_kept(rt.alloc(), &VALUES, &FILES));
}
