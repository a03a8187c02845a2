//! Arrays that are reduced along an axis.

use crate::npy::program::output_checks::are_told;

// The words, the file that is read, and the file of the sums, as numpy writes it.
const SUMS: [&[u8]; 17] = [
    // columns of two rows
    b"sum 0\n\
      \x93NUMPY\x01\x00v\x00{'descr': '<i2', 'fortran_order': False, 'shape': (2, 3), }                                                          \n\x01\x00\x02\x00\x03\x00\x04\x00\x05\x00\x06\x00\n\
      => \x93NUMPY\x01\x00v\x00{'descr': '<i8', 'fortran_order': False, 'shape': (3,), }                                                            \n\x05\x00\x00\x00\x00\x00\x00\x00\x07\x00\x00\x00\x00\x00\x00\x00\x09\x00\x00\x00\x00\x00\x00\x00",
    // rows
    b"sum 1\n\
      \x93NUMPY\x01\x00v\x00{'descr': '<i2', 'fortran_order': False, 'shape': (2, 3), }                                                          \n\x01\x00\x02\x00\x03\x00\x04\x00\x05\x00\x06\x00\n\
      => \x93NUMPY\x01\x00v\x00{'descr': '<i8', 'fortran_order': False, 'shape': (2,), }                                                            \n\x06\x00\x00\x00\x00\x00\x00\x00\x0f\x00\x00\x00\x00\x00\x00\x00",
    // Fortran's order, and the most significant byte first
    b"sum 1\n\
      \x93NUMPY\x01\x00v\x00{'descr': '>f4', 'fortran_order': True, 'shape': (2, 2), }                                                           \n?\xc0\x00\x00@`\x00\x00@ \x00\x00@\x90\x00\x00\n\
      => \x93NUMPY\x01\x00v\x00{'descr': '<f4', 'fortran_order': False, 'shape': (2,), }                                                            \n\x00\x00\x80@\x00\x00\x00A",
    // truth values
    b"sum 0\n\
      \x93NUMPY\x01\x00v\x00{'descr': '|b1', 'fortran_order': False, 'shape': (2, 2), }                                                          \n\x01\x00\x01\x01\n\
      => \x93NUMPY\x01\x00v\x00{'descr': '<i8', 'fortran_order': False, 'shape': (2,), }                                                            \n\x02\x00\x00\x00\x00\x00\x00\x00\x01\x00\x00\x00\x00\x00\x00\x00",
    // more than the type of the items holds
    b"sum 0\n\
      \x93NUMPY\x01\x00v\x00{'descr': '|i1', 'fortran_order': False, 'shape': (2,), }                                                            \n\x80\x80\n\
      => \x93NUMPY\x01\x00v\x00{'descr': '<i8', 'fortran_order': False, 'shape': (), }                                                              \n\x00\xff\xff\xff\xff\xff\xff\xff",
    // the same, unsigned
    b"sum 0\n\
      \x93NUMPY\x01\x00v\x00{'descr': '|u1', 'fortran_order': False, 'shape': (2,), }                                                            \n\xff\xff\n\
      => \x93NUMPY\x01\x00v\x00{'descr': '<u8', 'fortran_order': False, 'shape': (), }                                                              \n\xfe\x01\x00\x00\x00\x00\x00\x00",
    // the most significant byte first
    b"sum 0\n\
      \x93NUMPY\x01\x00v\x00{'descr': '>i4', 'fortran_order': False, 'shape': (2, 2), }                                                          \n\xff\xff\xff\xff\x00\x00\x00\x02\x00\x00\x00\x03\x00\x00\x01\x00\n\
      => \x93NUMPY\x01\x00v\x00{'descr': '<i8', 'fortran_order': False, 'shape': (2,), }                                                            \n\x02\x00\x00\x00\x00\x00\x00\x00\x02\x01\x00\x00\x00\x00\x00\x00",
    // the same, unsigned
    b"sum 0\n\
      \x93NUMPY\x01\x00v\x00{'descr': '>u2', 'fortran_order': False, 'shape': (2,), }                                                            \n\xff\xff\x01\x00\n\
      => \x93NUMPY\x01\x00v\x00{'descr': '<u8', 'fortran_order': False, 'shape': (), }                                                              \n\xff\x00\x01\x00\x00\x00\x00\x00",
    // integers of 8 bytes wrap
    b"sum 0\n\
      \x93NUMPY\x01\x00v\x00{'descr': '>i8', 'fortran_order': False, 'shape': (2,), }                                                            \n\x7f\xff\xff\xff\xff\xff\xff\xff\x00\x00\x00\x00\x00\x00\x00\x01\n\
      => \x93NUMPY\x01\x00v\x00{'descr': '<i8', 'fortran_order': False, 'shape': (), }                                                              \n\x00\x00\x00\x00\x00\x00\x00\x80",
    // and unsigned ones
    b"sum 0\n\
      \x93NUMPY\x01\x00v\x00{'descr': '<u8', 'fortran_order': False, 'shape': (2,), }                                                            \n\xff\xff\xff\xff\xff\xff\xff\xff\x03\x00\x00\x00\x00\x00\x00\x00\n\
      => \x93NUMPY\x01\x00v\x00{'descr': '<u8', 'fortran_order': False, 'shape': (), }                                                              \n\x02\x00\x00\x00\x00\x00\x00\x00",
    // the axis in the middle
    b"sum 1\n\
      \x93NUMPY\x01\x00v\x00{'descr': '<u4', 'fortran_order': False, 'shape': (2, 3, 2), }                                                       \n\x00\x00\x00\x00\x01\x00\x00\x00\x02\x00\x00\x00\x03\x00\x00\x00\x04\x00\x00\x00\x05\x00\x00\x00\x06\x00\x00\x00\x07\x00\x00\x00\x08\x00\x00\x00\x09\x00\x00\x00\n\x00\x00\x00\x0b\x00\x00\x00\n\
      => \x93NUMPY\x01\x00v\x00{'descr': '<u8', 'fortran_order': False, 'shape': (2, 2), }                                                          \n\x06\x00\x00\x00\x00\x00\x00\x00\x09\x00\x00\x00\x00\x00\x00\x00\x18\x00\x00\x00\x00\x00\x00\x00\x1b\x00\x00\x00\x00\x00\x00\x00",
    // floats are added in order
    b"sum 0\n\
      \x93NUMPY\x01\x00v\x00{'descr': '<f8', 'fortran_order': False, 'shape': (3,), }                                                            \n\x00\x80\xe07y\xc3AC\x00\x80\xe07y\xc3A\xc3\x00\x00\x00\x00\x00\x00\xf0?\n\
      => \x93NUMPY\x01\x00v\x00{'descr': '<f8', 'fortran_order': False, 'shape': (), }                                                              \n\x00\x00\x00\x00\x00\x00\xf0?",
    // the order after the steps: 1 is lost beside 1e16
    b"sum 0 invert 0\n\
      \x93NUMPY\x01\x00v\x00{'descr': '<f8', 'fortran_order': False, 'shape': (3,), }                                                            \n\x00\x80\xe07y\xc3AC\x00\x80\xe07y\xc3A\xc3\x00\x00\x00\x00\x00\x00\xf0?\n\
      => \x93NUMPY\x01\x00v\x00{'descr': '<f8', 'fortran_order': False, 'shape': (), }                                                              \n\x00\x00\x00\x00\x00\x00\x00\x00",
    // after steps that are views
    b"sum 0 reverse cut 0 1 3 1\n\
      \x93NUMPY\x01\x00v\x00{'descr': '<i2', 'fortran_order': False, 'shape': (2, 3), }                                                          \n\x01\x00\x02\x00\x03\x00\x04\x00\x05\x00\x06\x00\n\
      => \x93NUMPY\x01\x00v\x00{'descr': '<i8', 'fortran_order': False, 'shape': (2,), }                                                            \n\x05\x00\x00\x00\x00\x00\x00\x00\x0b\x00\x00\x00\x00\x00\x00\x00",
    // after a step that copies
    b"sum 1 select 0 3 1 1 0\n\
      \x93NUMPY\x01\x00v\x00{'descr': '<i2', 'fortran_order': False, 'shape': (2, 3), }                                                          \n\x01\x00\x02\x00\x03\x00\x04\x00\x05\x00\x06\x00\n\
      => \x93NUMPY\x01\x00v\x00{'descr': '<i8', 'fortran_order': False, 'shape': (3,), }                                                            \n\x0f\x00\x00\x00\x00\x00\x00\x00\x0f\x00\x00\x00\x00\x00\x00\x00\x06\x00\x00\x00\x00\x00\x00\x00",
    // lanes without elements
    b"sum 0\n\
      \x93NUMPY\x01\x00v\x00{'descr': '<i4', 'fortran_order': False, 'shape': (0, 2), }                                                          \n\n\
      => \x93NUMPY\x01\x00v\x00{'descr': '<i8', 'fortran_order': False, 'shape': (2,), }                                                            \n\x00\x00\x00\x00\x00\x00\x00\x00\x00\x00\x00\x00\x00\x00\x00\x00",
    // no lanes
    b"sum 1\n\
      \x93NUMPY\x01\x00v\x00{'descr': '<f4', 'fortran_order': False, 'shape': (0, 2), }                                                          \n\n\
      => \x93NUMPY\x01\x00v\x00{'descr': '<f4', 'fortran_order': False, 'shape': (0,), }                                                            \n",
];

#[test]
fn sums_along_axes(rt: HostRuntime) {
    assert!(rt; are_told(rt.alloc(), 0, &SUMS));
}

// The words, the file that is read, and the file of the means, as numpy writes it.
const MEANS: [&[u8]; 9] = [
    // integers
    b"mean 1\n\
      \x93NUMPY\x01\x00v\x00{'descr': '<i2', 'fortran_order': False, 'shape': (2, 3), }                                                          \n\x01\x00\x02\x00\x03\x00\x04\x00\x05\x00\x06\x00\n\
      => \x93NUMPY\x01\x00v\x00{'descr': '<f8', 'fortran_order': False, 'shape': (2,), }                                                            \n\x00\x00\x00\x00\x00\x00\x00@\x00\x00\x00\x00\x00\x00\x14@",
    // truth values
    b"mean 0\n\
      \x93NUMPY\x01\x00v\x00{'descr': '|b1', 'fortran_order': False, 'shape': (4,), }                                                            \n\x01\x00\x01\x01\n\
      => \x93NUMPY\x01\x00v\x00{'descr': '<f8', 'fortran_order': False, 'shape': (), }                                                              \n\x00\x00\x00\x00\x00\x00\xe8?",
    // the most significant byte first
    b"mean 0\n\
      \x93NUMPY\x01\x00v\x00{'descr': '>i4', 'fortran_order': False, 'shape': (2,), }                                                            \n\xff\xff\xff\xfd\xff\xff\xff\xfc\n\
      => \x93NUMPY\x01\x00v\x00{'descr': '<f8', 'fortran_order': False, 'shape': (), }                                                              \n\x00\x00\x00\x00\x00\x00\x0c\xc0",
    // unsigned integers
    b"mean 0\n\
      \x93NUMPY\x01\x00v\x00{'descr': '|u1', 'fortran_order': False, 'shape': (2,), }                                                            \n\xff\xfe\n\
      => \x93NUMPY\x01\x00v\x00{'descr': '<f8', 'fortran_order': False, 'shape': (), }                                                              \n\x00\x00\x00\x00\x00\xd0o@",
    // integers of 8 bytes are rounded
    b"mean 0\n\
      \x93NUMPY\x01\x00v\x00{'descr': '<i8', 'fortran_order': False, 'shape': (1,), }                                                            \n\x01\x00\x00\x00\x00\x00 \x00\n\
      => \x93NUMPY\x01\x00v\x00{'descr': '<f8', 'fortran_order': False, 'shape': (), }                                                              \n\x00\x00\x00\x00\x00\x00@C",
    // and unsigned ones
    b"mean 0\n\
      \x93NUMPY\x01\x00v\x00{'descr': '<u8', 'fortran_order': False, 'shape': (1,), }                                                            \n\xff\xff\xff\xff\xff\xff\xff\xff\n\
      => \x93NUMPY\x01\x00v\x00{'descr': '<f8', 'fortran_order': False, 'shape': (), }                                                              \n\x00\x00\x00\x00\x00\x00\xf0C",
    // floats of 4 bytes
    b"mean 0\n\
      \x93NUMPY\x01\x00v\x00{'descr': '<f4', 'fortran_order': False, 'shape': (2, 2), }                                                          \n\x00\x00\x80?\x00\x00\x00@\x00\x00\x00@\x00\x00\x80@\n\
      => \x93NUMPY\x01\x00v\x00{'descr': '<f4', 'fortran_order': False, 'shape': (2,), }                                                            \n\x00\x00\xc0?\x00\x00@@",
    // and of 8
    b"mean 0 reverse\n\
      \x93NUMPY\x01\x00v\x00{'descr': '>f8', 'fortran_order': False, 'shape': (2, 2), }                                                          \n?\xf0\x00\x00\x00\x00\x00\x00@\x00\x00\x00\x00\x00\x00\x00@\x00\x00\x00\x00\x00\x00\x00@\x10\x00\x00\x00\x00\x00\x00\n\
      => \x93NUMPY\x01\x00v\x00{'descr': '<f8', 'fortran_order': False, 'shape': (2,), }                                                            \n\x00\x00\x00\x00\x00\x00\xf8?\x00\x00\x00\x00\x00\x00\x08@",
    // no lanes
    b"mean 0\n\
      \x93NUMPY\x01\x00v\x00{'descr': '<i4', 'fortran_order': False, 'shape': (2, 0), }                                                          \n\n\
      => \x93NUMPY\x01\x00v\x00{'descr': '<f8', 'fortran_order': False, 'shape': (0,), }                                                            \n",
];

#[test]
fn means_along_axes(rt: HostRuntime) {
    assert!(rt; are_told(rt.alloc(), 0, &MEANS));
}

// The words, the file that is read, and the file of the least or greatest elements: but for the NaN, as numpy writes it.
const ENDS: [&[u8]; 16] = [
    // the least element of each column
    b"min 0\n\
      \x93NUMPY\x01\x00v\x00{'descr': '<i2', 'fortran_order': False, 'shape': (2, 2), }                                                          \n\x03\x00\xff\xff\xfe\xff\x05\x00\n\
      => \x93NUMPY\x01\x00v\x00{'descr': '<i2', 'fortran_order': False, 'shape': (2,), }                                                            \n\xfe\xff\xff\xff",
    // and the greatest
    b"max 0\n\
      \x93NUMPY\x01\x00v\x00{'descr': '<i2', 'fortran_order': False, 'shape': (2, 2), }                                                          \n\x03\x00\xff\xff\xfe\xff\x05\x00\n\
      => \x93NUMPY\x01\x00v\x00{'descr': '<i2', 'fortran_order': False, 'shape': (2,), }                                                            \n\x03\x00\x05\x00",
    // truth values
    b"min 0\n\
      \x93NUMPY\x01\x00v\x00{'descr': '|b1', 'fortran_order': False, 'shape': (2, 2), }                                                          \n\x01\x00\x01\x01\n\
      => \x93NUMPY\x01\x00v\x00{'descr': '|b1', 'fortran_order': False, 'shape': (2,), }                                                            \n\x01\x00",
    // and the greatest
    b"max 1\n\
      \x93NUMPY\x01\x00v\x00{'descr': '|b1', 'fortran_order': False, 'shape': (2, 2), }                                                          \n\x00\x00\x00\x01\n\
      => \x93NUMPY\x01\x00v\x00{'descr': '|b1', 'fortran_order': False, 'shape': (2,), }                                                            \n\x00\x01",
    // items of 1 byte
    b"min 0\n\
      \x93NUMPY\x01\x00v\x00{'descr': '|i1', 'fortran_order': False, 'shape': (3,), }                                                            \n\x05\x80\x7f\n\
      => \x93NUMPY\x01\x00v\x00{'descr': '|i1', 'fortran_order': False, 'shape': (), }                                                              \n\x80",
    // and unsigned ones
    b"max 0\n\
      \x93NUMPY\x01\x00v\x00{'descr': '|u1', 'fortran_order': False, 'shape': (3,), }                                                            \n\x05\xff\x7f\n\
      => \x93NUMPY\x01\x00v\x00{'descr': '|u1', 'fortran_order': False, 'shape': (), }                                                              \n\xff",
    // the most significant byte first
    b"max 0\n\
      \x93NUMPY\x01\x00v\x00{'descr': '>i4', 'fortran_order': False, 'shape': (3,), }                                                            \n\x00\x00\x01\x00\xff\xff\xff\xff\x00\x00\x00\x02\n\
      => \x93NUMPY\x01\x00v\x00{'descr': '<i4', 'fortran_order': False, 'shape': (), }                                                              \n\x00\x01\x00\x00",
    // the same, unsigned
    b"min 0\n\
      \x93NUMPY\x01\x00v\x00{'descr': '>u2', 'fortran_order': False, 'shape': (2,), }                                                            \n\xff\xff\x01\x00\n\
      => \x93NUMPY\x01\x00v\x00{'descr': '<u2', 'fortran_order': False, 'shape': (), }                                                              \n\x00\x01",
    // items of 4 bytes
    b"max 0\n\
      \x93NUMPY\x01\x00v\x00{'descr': '<u4', 'fortran_order': False, 'shape': (2,), }                                                            \n\x01\x00\x00\x00\xff\xff\xff\xff\n\
      => \x93NUMPY\x01\x00v\x00{'descr': '<u4', 'fortran_order': False, 'shape': (), }                                                              \n\xff\xff\xff\xff",
    // and of 8
    b"min 0\n\
      \x93NUMPY\x01\x00v\x00{'descr': '<i8', 'fortran_order': False, 'shape': (2,), }                                                            \n\x00\x00\x00\x00\x00\x00\x00\x80\x05\x00\x00\x00\x00\x00\x00\x00\n\
      => \x93NUMPY\x01\x00v\x00{'descr': '<i8', 'fortran_order': False, 'shape': (), }                                                              \n\x00\x00\x00\x00\x00\x00\x00\x80",
    // and unsigned ones
    b"max 0\n\
      \x93NUMPY\x01\x00v\x00{'descr': '>u8', 'fortran_order': False, 'shape': (2,), }                                                            \n\x80\x00\x00\x00\x00\x00\x00\x00\x00\x00\x00\x00\x00\x00\x00\x05\n\
      => \x93NUMPY\x01\x00v\x00{'descr': '<u8', 'fortran_order': False, 'shape': (), }                                                              \n\x00\x00\x00\x00\x00\x00\x00\x80",
    // Fortran's order, after a step
    b"max 0 reverse\n\
      \x93NUMPY\x01\x00v\x00{'descr': '<u2', 'fortran_order': True, 'shape': (2, 3), }                                                           \n\x01\x00\x06\x00\x02\x00\x05\x00\x03\x00\x04\x00\n\
      => \x93NUMPY\x01\x00v\x00{'descr': '<u2', 'fortran_order': False, 'shape': (2,), }                                                            \n\x03\x00\x06\x00",
    // floats
    b"min 1\n\
      \x93NUMPY\x01\x00v\x00{'descr': '>f4', 'fortran_order': False, 'shape': (2, 2), }                                                          \n?\xc0\x00\x00\xc0 \x00\x00>\x80\x00\x00?\x00\x00\x00\n\
      => \x93NUMPY\x01\x00v\x00{'descr': '<f4', 'fortran_order': False, 'shape': (2,), }                                                            \n\x00\x00 \xc0\x00\x00\x80>",
    // a NaN is greater than all numbers
    b"min 0\n\
      \x93NUMPY\x01\x00v\x00{'descr': '<f8', 'fortran_order': False, 'shape': (3,), }                                                            \n\x00\x00\x00\x00\x00\x00\xf8\x7f\x00\x00\x00\x00\x00\x00\x00@\x00\x00\x00\x00\x00\x00\x08@\n\
      => \x93NUMPY\x01\x00v\x00{'descr': '<f8', 'fortran_order': False, 'shape': (), }                                                              \n\x00\x00\x00\x00\x00\x00\x00@",
    // so it is the greatest element
    b"max 0\n\
      \x93NUMPY\x01\x00v\x00{'descr': '<f8', 'fortran_order': False, 'shape': (2, 1), }                                                          \n\x00\x00\x00\x00\x00\x00\xf8\x7f\x00\x00\x00\x00\x00\x00\x00@\n\
      => \x93NUMPY\x01\x00v\x00{'descr': '<f8', 'fortran_order': False, 'shape': (1,), }                                                            \n\x00\x00\x00\x00\x00\x00\xf8\x7f",
    // no lanes
    b"min 0\n\
      \x93NUMPY\x01\x00v\x00{'descr': '<f4', 'fortran_order': False, 'shape': (2, 0), }                                                          \n\n\
      => \x93NUMPY\x01\x00v\x00{'descr': '<f4', 'fortran_order': False, 'shape': (0,), }                                                            \n",
];

#[test]
fn least_and_greatest_along_axes(rt: HostRuntime) {
    assert!(rt; are_told(rt.alloc(), 0, &ENDS));
}

// The words, the file that is read, and the line that is written to the errors.
const REFUSED: [&[u8]; 15] = [
    b"sum\n\
      \x93NUMPY\x01\x00v\x00{'descr': '<i2', 'fortran_order': False, 'shape': (2, 3), }                                                          \n\x01\x00\x02\x00\x03\x00\x04\x00\x05\x00\x06\x00\n\
      => nd_npy_program: step 1 'sum': it stands in front of the steps, with an axis after it\n",
    b"mean x\n\
      \x93NUMPY\x01\x00v\x00{'descr': '<i2', 'fortran_order': False, 'shape': (2, 3), }                                                          \n\x01\x00\x02\x00\x03\x00\x04\x00\x05\x00\x06\x00\n\
      => nd_npy_program: step 1 'mean': it stands in front of the steps, with an axis after it\n",
    b"sum -1\n\
      \x93NUMPY\x01\x00v\x00{'descr': '<i2', 'fortran_order': False, 'shape': (2, 3), }                                                          \n\x01\x00\x02\x00\x03\x00\x04\x00\x05\x00\x06\x00\n\
      => nd_npy_program: step 1 'sum': it stands in front of the steps, with an axis after it\n",
    b"reverse max 0\n\
      \x93NUMPY\x01\x00v\x00{'descr': '<i2', 'fortran_order': False, 'shape': (2, 3), }                                                          \n\x01\x00\x02\x00\x03\x00\x04\x00\x05\x00\x06\x00\n\
      => nd_npy_program: step 2 'max': it stands in front of the steps, with an axis after it\n",
    b"sum 0 flip\n\
      \x93NUMPY\x01\x00v\x00{'descr': '<i2', 'fortran_order': False, 'shape': (2, 3), }                                                          \n\x01\x00\x02\x00\x03\x00\x04\x00\x05\x00\x06\x00\n\
      => nd_npy_program: step 1 'flip': no such step; --help lists the steps\n",
    b"sum 2\n\
      \x93NUMPY\x01\x00v\x00{'descr': '<i2', 'fortran_order': False, 'shape': (2, 3), }                                                          \n\x01\x00\x02\x00\x03\x00\x04\x00\x05\x00\x06\x00\n\
      => nd_npy_program: there is no axis 2, because the number of axes is 2\n",
    b"min 1 index 0 1\n\
      \x93NUMPY\x01\x00v\x00{'descr': '<i2', 'fortran_order': False, 'shape': (2, 3), }                                                          \n\x01\x00\x02\x00\x03\x00\x04\x00\x05\x00\x06\x00\n\
      => nd_npy_program: there is no axis 1, because the number of axes is 1\n",
    b"sum 0\n\
      \x93NUMPY\x01\x00v\x00{'descr': '<i4', 'fortran_order': False, 'shape': (), }                                                              \n\x07\x00\x00\x00\n\
      => nd_npy_program: there is no axis 0, because the number of axes is 0\n",
    b"mean 0\n\
      \x93NUMPY\x01\x00v\x00{'descr': '<i4', 'fortran_order': False, 'shape': (0, 2), }                                                          \n\n\
      => nd_npy_program: there are no elements along axis 0\n",
    b"min 1\n\
      \x93NUMPY\x01\x00v\x00{'descr': '<f4', 'fortran_order': False, 'shape': (2, 0), }                                                          \n\n\
      => nd_npy_program: there are no elements along axis 1\n",
    b"max 0 cut 0 1 1 1\n\
      \x93NUMPY\x01\x00v\x00{'descr': '<i2', 'fortran_order': False, 'shape': (2, 3), }                                                          \n\x01\x00\x02\x00\x03\x00\x04\x00\x05\x00\x06\x00\n\
      => nd_npy_program: there are no elements along axis 0\n",
    b"sum 0\n\
      \x93NUMPY\x01\x00v\x00{'descr': '<f2', 'fortran_order': False, 'shape': (1,), }                                                            \n\x00>\n\
      => nd_npy_program: elements of the kind f2 can't be reduced\n",
    b"mean 0\n\
      \x93NUMPY\x01\x00v\x00{'descr': '<c8', 'fortran_order': False, 'shape': (1,), }                                                            \n\x00\x00\x00\x00\x00\x00\x80?\n\
      => nd_npy_program: elements of the kind c8 can't be reduced\n",
    b"max 0\n\
      \x93NUMPY\x01\x00v\x00{'descr': '<c16', 'fortran_order': False, 'shape': (1,), }                                                           \n\x00\x00\x00\x00\x00\x00\x00\x00\x00\x00\x00\x00\x00\x00\xf0?\n\
      => nd_npy_program: elements of the kind c16 can't be reduced\n",
    b"min 0 invert 2\n\
      \x93NUMPY\x01\x00v\x00{'descr': '<i2', 'fortran_order': False, 'shape': (2, 3), }                                                          \n\x01\x00\x02\x00\x03\x00\x04\x00\x05\x00\x06\x00\n\
      => nd_npy_program: step 1: the array has no such axis\n",
];

#[test]
fn refused_reductions(rt: HostRuntime) {
    assert!(rt; are_told(rt.alloc(), 1, &REFUSED));
}
