//! Files that numpy wrote, and the files of the arrays after steps, as numpy writes them.

use crate::npy::program::output_checks::are_told;

const TURNED: [&[u8]; 7] = [
    // numpy.arange(1, 7, dtype="<i2").reshape(2, 3), and a.T
    b"reverse\n\
      \x93NUMPY\x01\x00v\x00{'descr': '<i2', 'fortran_order': False, 'shape': (2, 3), }                                                          \n\x01\x00\x02\x00\x03\x00\x04\x00\x05\x00\x06\x00\n\
      => \x93NUMPY\x01\x00v\x00{'descr': '<i2', 'fortran_order': False, 'shape': (3, 2), }                                                          \n\x01\x00\x04\x00\x02\x00\x05\x00\x03\x00\x06\x00",
    // Fortran's order becomes C's
    b"\n\
      \x93NUMPY\x01\x00v\x00{'descr': '>f4', 'fortran_order': True, 'shape': (2, 2), }                                                           \n?\xc0\x00\x00@`\x00\x00@ \x00\x00@\x90\x00\x00\n\
      => \x93NUMPY\x01\x00v\x00{'descr': '>f4', 'fortran_order': False, 'shape': (2, 2), }                                                          \n?\xc0\x00\x00@ \x00\x00@`\x00\x00@\x90\x00\x00",
    // version 2.0, and c[::-1][:2]
    b"invert 0 cut 0 0 2 1\n\
      \x93NUMPY\x02\x00t\x00\x00\x00{'descr': '|b1', 'fortran_order': False, 'shape': (3,), }                                                          \n\x01\x00\x01\n\
      => \x93NUMPY\x01\x00v\x00{'descr': '|b1', 'fortran_order': False, 'shape': (2,), }                                                            \n\x01\x00",
    // an array without axes
    b"insert 0 broadcast 1 2\n\
      \x93NUMPY\x01\x00v\x00{'descr': '<c16', 'fortran_order': False, 'shape': (), }                                                             \n\x00\x00\x00\x00\x00\x00\x08@\x00\x00\x00\x00\x00\x00\x10@\n\
      => \x93NUMPY\x01\x00v\x00{'descr': '<c16', 'fortran_order': False, 'shape': (2,), }                                                           \n\x00\x00\x00\x00\x00\x00\x08@\x00\x00\x00\x00\x00\x00\x10@\x00\x00\x00\x00\x00\x00\x08@\x00\x00\x00\x00\x00\x00\x10@",
    // numpy.take(a, [2, 0, 2], 1) of the first array
    b"select 1 3 2 0 2\n\
      \x93NUMPY\x01\x00v\x00{'descr': '<i2', 'fortran_order': False, 'shape': (2, 3), }                                                          \n\x01\x00\x02\x00\x03\x00\x04\x00\x05\x00\x06\x00\n\
      => \x93NUMPY\x01\x00v\x00{'descr': '<i2', 'fortran_order': False, 'shape': (2, 3), }                                                          \n\x03\x00\x01\x00\x03\x00\x06\x00\x04\x00\x06\x00",
    // a.T.reshape(2, 3)[1]
    b"reverse reshape 2 2 3 index 0 1\n\
      \x93NUMPY\x01\x00v\x00{'descr': '<i2', 'fortran_order': False, 'shape': (2, 3), }                                                          \n\x01\x00\x02\x00\x03\x00\x04\x00\x05\x00\x06\x00\n\
      => \x93NUMPY\x01\x00v\x00{'descr': '<i2', 'fortran_order': False, 'shape': (3,), }                                                            \n\x05\x00\x03\x00\x06\x00",
    // no elements
    b"swapaxes 0 1\n\
      \x93NUMPY\x01\x00v\x00{'descr': '<u8', 'fortran_order': False, 'shape': (0, 3), }                                                          \n\n\
      => \x93NUMPY\x01\x00v\x00{'descr': '<u8', 'fortran_order': False, 'shape': (3, 0), }                                                          \n",
];

#[test]
fn files_after_steps(rt: HostRuntime) {
    assert!(rt; are_told(rt.alloc(), 0, &TURNED));
}

// The words, the file that is read, and the line that describes the array after the steps: what stands in numpy's file
// of it between byte 10 and the elements.
const DESCRIBED: [&[u8]; 2] = [
    b"describe\n\
      \x93NUMPY\x01\x00v\x00{'descr': '>f4', 'fortran_order': True, 'shape': (2, 2), }                                                           \n?\xc0\x00\x00@`\x00\x00@ \x00\x00@\x90\x00\x00\n\
      => {'descr': '>f4', 'fortran_order': False, 'shape': (2, 2), }                                                          \n",
    b"describe reverse index 1 0\n\
      \x93NUMPY\x01\x00v\x00{'descr': '<i2', 'fortran_order': False, 'shape': (2, 3), }                                                          \n\x01\x00\x02\x00\x03\x00\x04\x00\x05\x00\x06\x00\n\
      => {'descr': '<i2', 'fortran_order': False, 'shape': (3,), }                                                            \n",
];

#[test]
fn descriptions_after_steps(rt: HostRuntime) {
    assert!(rt; are_told(rt.alloc(), 0, &DESCRIBED));
}

// The words, the file that is read, and the line that tells the shape after the steps.
const SHAPES: [&[u8]; 4] = [
    b"shape\n\
      \x93NUMPY\x01\x00v\x00{'descr': '<i2', 'fortran_order': False, 'shape': (2, 3), }                                                          \n\x01\x00\x02\x00\x03\x00\x04\x00\x05\x00\x06\x00\n\
      => (2, 3)\n",
    b"shape index 0 1\n\
      \x93NUMPY\x01\x00v\x00{'descr': '<i2', 'fortran_order': False, 'shape': (2, 3), }                                                          \n\x01\x00\x02\x00\x03\x00\x04\x00\x05\x00\x06\x00\n\
      => (3,)\n",
    b"shape index 0 1 index 0 0\n\
      \x93NUMPY\x01\x00v\x00{'descr': '<i2', 'fortran_order': False, 'shape': (2, 3), }                                                          \n\x01\x00\x02\x00\x03\x00\x04\x00\x05\x00\x06\x00\n\
      => ()\n",
    b"shape reshape 3 1 6 1 cut 1 0 0 1\n\
      \x93NUMPY\x01\x00v\x00{'descr': '<i2', 'fortran_order': False, 'shape': (2, 3), }                                                          \n\x01\x00\x02\x00\x03\x00\x04\x00\x05\x00\x06\x00\n\
      => (1, 0, 1)\n",
];

#[test]
fn shapes_after_steps(rt: HostRuntime) {
    assert!(rt; are_told(rt.alloc(), 0, &SHAPES));
}

// The words, the file that is read, and the text of the array after the steps: of each kind that has a text, in one of
// the byte orders or in both.
const TEXTS: [&[u8]; 13] = [
    b"print reverse\n\
      \x93NUMPY\x01\x00v\x00{'descr': '<i2', 'fortran_order': False, 'shape': (2, 3), }                                                          \n\x01\x00\x02\x00\x03\x00\x04\x00\x05\x00\x06\x00\n\
      => [[1, 4],\n [2, 5],\n [3, 6]]\n",
    b"print\n\
      \x93NUMPY\x01\x00v\x00{'descr': '|b1', 'fortran_order': False, 'shape': (2,), }                                                            \n\x01\x00\n\
      => [true, false]\n",
    b"print\n\
      \x93NUMPY\x01\x00v\x00{'descr': '|i1', 'fortran_order': False, 'shape': (2,), }                                                            \n\x80\x7f\n\
      => [-128, 127]\n",
    b"print\n\
      \x93NUMPY\x01\x00v\x00{'descr': '>i2', 'fortran_order': False, 'shape': (2,), }                                                            \n\x80\x00\x01\x02\n\
      => [-32768, 258]\n",
    b"print\n\
      \x93NUMPY\x01\x00v\x00{'descr': '<i4', 'fortran_order': False, 'shape': (2,), }                                                            \n\x00\x00\x00\x80\x04\x03\x02\x01\n\
      => [-2147483648, 16909060]\n",
    b"print\n\
      \x93NUMPY\x01\x00v\x00{'descr': '>i8', 'fortran_order': False, 'shape': (1,), }                                                            \n\x80\x00\x00\x00\x00\x00\x00\x00\n\
      => [-9223372036854775808]\n",
    b"print\n\
      \x93NUMPY\x01\x00v\x00{'descr': '|u1', 'fortran_order': False, 'shape': (1,), }                                                            \n\xff\n\
      => [255]\n",
    b"print\n\
      \x93NUMPY\x01\x00v\x00{'descr': '>u2', 'fortran_order': False, 'shape': (2,), }                                                            \n\xff\xff\x01\x00\n\
      => [65535, 256]\n",
    b"print\n\
      \x93NUMPY\x01\x00v\x00{'descr': '<u4', 'fortran_order': False, 'shape': (1,), }                                                            \n\xff\xff\xff\xff\n\
      => [4294967295]\n",
    b"print\n\
      \x93NUMPY\x01\x00v\x00{'descr': '>u8', 'fortran_order': False, 'shape': (1,), }                                                            \n\xff\xff\xff\xff\xff\xff\xff\xff\n\
      => [18446744073709551615]\n",
    b"print\n\
      \x93NUMPY\x01\x00v\x00{'descr': '<i4', 'fortran_order': False, 'shape': (), }                                                              \n\xf9\xff\xff\xff\n\
      => -7\n",
    b"print\n\
      \x93NUMPY\x01\x00v\x00{'descr': '<u4', 'fortran_order': False, 'shape': (2, 0), }                                                          \n\n\
      => [[]]\n",
    b"print select 0 1 1 reshape 3 1 3 1\n\
      \x93NUMPY\x01\x00v\x00{'descr': '<i2', 'fortran_order': False, 'shape': (2, 3), }                                                          \n\x01\x00\x02\x00\x03\x00\x04\x00\x05\x00\x06\x00\n\
      => [[[4],\n  [5],\n  [6]]]\n",
];

#[test]
fn texts_after_steps(rt: HostRuntime) {
    assert!(rt; are_told(rt.alloc(), 0, &TEXTS));
}
