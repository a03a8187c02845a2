//! Words, files and steps that are refused: nothing is written, and a line tells the first cause.

use crate::npy::program::output_checks::are_told;

/// The words, the input, and the line that is written to the errors.
const REFUSED: [&[u8]; 19] = [
    b"flip\n\
      \x93NUMPY\x01\x00v\x00{'descr': '<i2', 'fortran_order': False, 'shape': (2, 3), }                                                          \n\x01\x00\x02\x00\x03\x00\x04\x00\x05\x00\x06\x00\n\
      => nd_npy_program: step 1 'flip': no such step; --help lists the steps\n",
    b"reverse invert\n\
      \x93NUMPY\x01\x00v\x00{'descr': '<i2', 'fortran_order': False, 'shape': (2, 3), }                                                          \n\x01\x00\x02\x00\x03\x00\x04\x00\x05\x00\x06\x00\n\
      => nd_npy_program: step 2 'invert': invert takes an axis\n",
    b"flip\n\
      \n\
      => nd_npy_program: step 1 'flip': no such step; --help lists the steps\n",
    b"reverse invert 2\n\
      \x93NUMPY\x01\x00v\x00{'descr': '<i2', 'fortran_order': False, 'shape': (2, 3), }                                                          \n\x01\x00\x02\x00\x03\x00\x04\x00\x05\x00\x06\x00\n\
      => nd_npy_program: step 2: the array has no such axis\n",
    b"permute 1 0\n\
      \x93NUMPY\x01\x00v\x00{'descr': '<i2', 'fortran_order': False, 'shape': (2, 3), }                                                          \n\x01\x00\x02\x00\x03\x00\x04\x00\x05\x00\x06\x00\n\
      => nd_npy_program: step 1: the list must name each axis once\n",
    b"\n\
      \n\
      => nd_npy_program: this is no .npy file\n",
    b"invert 7\n\
      P5 1 1 1 0\n\
      => nd_npy_program: this is no .npy file\n",
    b"\n\
      \x93NUMPY\x04\x00\n\
      => nd_npy_program: the version 4.0 isn't known\n",
    b"\n\
      \x93NUMPY\x01\x00v\x00{'descr': '<i2', 'fortran_order': False, 'shape': \n\
      => nd_npy_program: the head ends too early\n",
    b"\n\
      \x93NUMPY\x01\x00v\x00{'descr': '<U2', 'fortran_order': False, 'shape': (2, 3), }                                                          \n\x01\x00\x02\x00\x03\x00\x04\x00\x05\x00\x06\x00\n\
      => nd_npy_program: byte 21: items that are text aren't supported\n",
    b"\n\
      \x93NUMPY\x01\x00v\x00{'descr': '<i2', 'fortran_order': False, 'shape': (2, 3), }                                                          \n\x01\x00\x02\x00\x03\x00\x04\x00\x05\x00\x06\n\
      => nd_npy_program: the elements take 12 bytes, but 11 bytes follow the head\n",
    b"\n\
      \x93NUMPY\x01\x00v\x00{'descr': '<i2', 'fortran_order': False, 'shape': (2, 3), }                                                          \n\x01\x00\x02\x00\x03\x00\x04\x00\x05\x00\x06\x00\x00\n\
      => nd_npy_program: the elements take 12 bytes, but 13 bytes follow the head\n",
    b"select 1 1 3\n\
      \x93NUMPY\x01\x00v\x00{'descr': '<i2', 'fortran_order': False, 'shape': (2, 3), }                                                          \n\x01\x00\x02\x00\x03\x00\x04\x00\x05\x00\x06\x00\n\
      => nd_npy_program: step 1: the axis has no such index\n",
    b"reshape 1 7\n\
      \x93NUMPY\x01\x00v\x00{'descr': '<i2', 'fortran_order': False, 'shape': (2, 3), }                                                          \n\x01\x00\x02\x00\x03\x00\x04\x00\x05\x00\x06\x00\n\
      => nd_npy_program: step 1: the lengths don't make as many elements as there are\n",
    b"shape select 0\n\
      \x93NUMPY\x01\x00v\x00{'descr': '<i2', 'fortran_order': False, 'shape': (2, 3), }                                                          \n\x01\x00\x02\x00\x03\x00\x04\x00\x05\x00\x06\x00\n\
      => nd_npy_program: step 1 'select': select takes an axis, a count, and as many indexes\n",
    b"print\n\
      \x93NUMPY\x01\x00v\x00{'descr': '<f8', 'fortran_order': False, 'shape': (1,), }                                                            \n\x00\x00\x00\x00\x00\x00\xf8?\n\
      => nd_npy_program: elements of the kind f8 can't be printed\n",
    b"print reverse\n\
      \x93NUMPY\x01\x00v\x00{'descr': '<f2', 'fortran_order': False, 'shape': (1,), }                                                            \n\x00>\n\
      => nd_npy_program: elements of the kind f2 can't be printed\n",
    b"print invert 1\n\
      \x93NUMPY\x01\x00v\x00{'descr': '<f4', 'fortran_order': False, 'shape': (1,), }                                                            \n\x00\x00\xc0?\n\
      => nd_npy_program: step 1: the array has no such axis\n",
    b"print\n\
      \x93NUMPY\x01\x00v\x00{'descr': '<c16', 'fortran_order': False, 'shape': (1,), }                                                           \n\x00\x00\x00\x00\x00\x00\x00\x00\x00\x00\x00\x00\x00\x00\xf0?\n\
      => nd_npy_program: elements of the kind c16 can't be printed\n",
];

#[test]
fn refusals(rt: HostRuntime) {
    assert!(rt; are_told(rt.alloc(), 1, &REFUSED));
}
