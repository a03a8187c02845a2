//! Files of floats, in both orders of elements and both byte orders.

use crate::npy::numpy_file_checks::{are_kept, writes};
use nd_array_core::ArrayD;
use nd_npy::NpyNumber;
use nd_npy::reader::read_npy;
use std::alloc::Global;

#[test]
fn f32_elements(rt: HostRuntime) {
    const VALUES: [f32; 6] = [0.0, 1.0, -1.5, f32::INFINITY, 0.1, 1e-40];
    const FILES: [&[u8]; 4] = [
        b"\x93NUMPY\x01\x00v\x00{'descr': '<f4', 'fortran_order': False, 'shape': (2, 3), }                                                          \n\x00\x00\x00\x00\x00\x00\x80?\x00\x00\xc0\xbf\x00\x00\x80\x7f\xcd\xcc\xcc=\xc2\x16\x01\x00",
        b"\x93NUMPY\x01\x00v\x00{'descr': '<f4', 'fortran_order': True, 'shape': (2, 3), }                                                           \n\x00\x00\x00\x00\x00\x00\x80\x7f\x00\x00\x80?\xcd\xcc\xcc=\x00\x00\xc0\xbf\xc2\x16\x01\x00",
        b"\x93NUMPY\x01\x00v\x00{'descr': '>f4', 'fortran_order': False, 'shape': (2, 3), }                                                          \n\x00\x00\x00\x00?\x80\x00\x00\xbf\xc0\x00\x00\x7f\x80\x00\x00=\xcc\xcc\xcd\x00\x01\x16\xc2",
        b"\x93NUMPY\x01\x00v\x00{'descr': '>f4', 'fortran_order': True, 'shape': (2, 3), }                                                           \n\x00\x00\x00\x00\x7f\x80\x00\x00?\x80\x00\x00=\xcc\xcc\xcd\xbf\xc0\x00\x00\x00\x01\x16\xc2",
    ];
    assert!(rt; are_kept(rt.alloc(), &VALUES, &FILES));
}

#[test]
fn f64_elements(rt: HostRuntime) {
    const VALUES: [f64; 6] = [0.0, 1.0, -1.5, f64::NEG_INFINITY, 0.1, 5e-324];
    const FILES: [&[u8]; 4] = [
        b"\x93NUMPY\x01\x00v\x00{'descr': '<f8', 'fortran_order': False, 'shape': (2, 3), }                                                          \n\x00\x00\x00\x00\x00\x00\x00\x00\x00\x00\x00\x00\x00\x00\xf0?\x00\x00\x00\x00\x00\x00\xf8\xbf\x00\x00\x00\x00\x00\x00\xf0\xff\x9a\x99\x99\x99\x99\x99\xb9?\x01\x00\x00\x00\x00\x00\x00\x00",
        b"\x93NUMPY\x01\x00v\x00{'descr': '<f8', 'fortran_order': True, 'shape': (2, 3), }                                                           \n\x00\x00\x00\x00\x00\x00\x00\x00\x00\x00\x00\x00\x00\x00\xf0\xff\x00\x00\x00\x00\x00\x00\xf0?\x9a\x99\x99\x99\x99\x99\xb9?\x00\x00\x00\x00\x00\x00\xf8\xbf\x01\x00\x00\x00\x00\x00\x00\x00",
        b"\x93NUMPY\x01\x00v\x00{'descr': '>f8', 'fortran_order': False, 'shape': (2, 3), }                                                          \n\x00\x00\x00\x00\x00\x00\x00\x00?\xf0\x00\x00\x00\x00\x00\x00\xbf\xf8\x00\x00\x00\x00\x00\x00\xff\xf0\x00\x00\x00\x00\x00\x00?\xb9\x99\x99\x99\x99\x99\x9a\x00\x00\x00\x00\x00\x00\x00\x01",
        b"\x93NUMPY\x01\x00v\x00{'descr': '>f8', 'fortran_order': True, 'shape': (2, 3), }                                                           \n\x00\x00\x00\x00\x00\x00\x00\x00\xff\xf0\x00\x00\x00\x00\x00\x00?\xf0\x00\x00\x00\x00\x00\x00?\xb9\x99\x99\x99\x99\x99\x9a\xbf\xf8\x00\x00\x00\x00\x00\x00\x00\x00\x00\x00\x00\x00\x00\x01",
    ];
    assert!(rt; are_kept(rt.alloc(), &VALUES, &FILES));
}

/// Returns whether an array has one element, which isn't equal to itself.
fn is_one_nan<A: NpyNumber + PartialEq>(array: &ArrayD<A>) -> bool {
    match array.first() {
        Some(x) => array.len() == 1 && *x != *x,
        None => false,
    }
}

/// Returns whether a file is read as an array of one NaN, and the array is written as the file `saved`.
fn nan_is_kept<A: NpyNumber + PartialEq>(alloc: Global, file: &[u8], saved: &[u8]) -> bool {
    match read_npy::<A>(alloc, file) {
        Ok(array) => is_one_nan(&array) && writes(alloc, &array, saved),
        Err(_) => false,
    }
}

/// Returns whether each of two files, in both byte orders, is read as an array of one NaN, and the array is written as the
/// first of them.
fn nans_are_kept<A: NpyNumber + PartialEq>(alloc: Global, little: &[u8], big: &[u8]) -> bool {
    nan_is_kept::<A>(alloc, little, little) && nan_is_kept::<A>(alloc, big, little)
}

#[test]
fn nan_of_four_bytes(rt: HostRuntime) {
    const LITTLE: &[u8] =
        b"\x93NUMPY\x01\x00v\x00{'descr': '<f4', 'fortran_order': False, 'shape': (1,), }                                                            \n\x00\x00\xc0\x7f";
    const BIG: &[u8] =
        b"\x93NUMPY\x01\x00v\x00{'descr': '>f4', 'fortran_order': False, 'shape': (1,), }                                                            \n\x7f\xc0\x00\x00";
    assert!(rt; nans_are_kept::<f32>(rt.alloc(), LITTLE, BIG));
}

#[test]
fn nan_of_eight_bytes(rt: HostRuntime) {
    const LITTLE: &[u8] =
        b"\x93NUMPY\x01\x00v\x00{'descr': '<f8', 'fortran_order': False, 'shape': (1,), }                                                            \n\x00\x00\x00\x00\x00\x00\xf8\x7f";
    const BIG: &[u8] =
        b"\x93NUMPY\x01\x00v\x00{'descr': '>f8', 'fortran_order': False, 'shape': (1,), }                                                            \n\x7f\xf8\x00\x00\x00\x00\x00\x00";
    assert!(rt; nans_are_kept::<f64>(rt.alloc(), LITTLE, BIG));
}
