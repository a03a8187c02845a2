//! `{:?}` of an array.
#![tactic(auto)]

use crate::base::array::ArrayBase;
use crate::printing::element::AsDebugged;
use crate::printing::write_array::write_array;
use nd_elements::storage::Data;
use nd_shape_and_slice::Dimension;
use std::fmt;
use std::fmt::Debug;

/// The letters of a layout's bits, from the lowest bit on: row-major, column-major, row-major preferred and
/// column-major preferred.
const LETTERS: [&str; 4] = ["C", "F", "c", "f"];

const ROW_MAJOR: u32 = 0b0101;

const COLUMN_MAJOR: u32 = 0b1010;

const ROWS_PREFERRED: u32 = 0b0100;

const COLUMNS_PREFERRED: u32 = 0b1000;

/// Returns how many axes are longer than 1.
fn long_axes(lengths: &[usize]) -> usize {
    lengths.iter().filter(|len| **len > 1).count()
}

/// Returns whether an axis is longer than 1 and has stride 1.
fn steps_to_neighbours(len: Option<&usize>, stride: Option<&isize>) -> bool {
    match (len, stride) {
        (Some(len), Some(stride)) => *len > 1 && *stride == 1,
        _ => false,
    }
}

/// Returns the bit for column-major preferred if the first axis is longer than 1 and has stride 1, else that for
/// row-major preferred if the last axis is longer than 1 and has stride 1, and else 0. It is called for arrays in neither
/// order.
fn preferred<S: Data, D: Dimension>(array: &ArrayBase<S, D>) -> u32 {
    let (lengths, strides) = (array.shape(), array.strides());
    if steps_to_neighbours(lengths.first(), strides.first()) {
        COLUMNS_PREFERRED
    } else if steps_to_neighbours(lengths.last(), strides.last()) {
        ROWS_PREFERRED
    } else {
        0
    }
}

/// Returns the bits of an array's layout. This is ndarray's `Layout`.
fn layout_bits<S: Data, D: Dimension>(array: &ArrayBase<S, D>) -> u32 {
    let axes = array.ndim();
    if array.is_standard_layout() {
        if axes <= 1 || long_axes(array.shape()) <= 1 {
            return ROW_MAJOR | COLUMN_MAJOR;
        }
        return ROW_MAJOR;
    }
    if axes <= 1 {
        return 0;
    }
    if array.t().is_standard_layout() {
        return COLUMN_MAJOR;
    }
    preferred(array)
}

/// Writes the letters of the layout's bits, or `Custom` if there are none, and then the bits as a number.
fn write_layout<W: fmt::Write>(f: &mut fmt::Formatter<W>, bits: u32) -> fmt::Result {
    if bits == 0 {
        f.write_str("Custom")?;
    }
    for (bit, letter) in LETTERS.iter().enumerate() {
        if bits >> bit & 1 == 1 {
            f.write_str(letter)?;
        }
    }
    write!(f, " (0x{bits:x})")
}

/// Writes the shape, the strides, the layout and the number of axes of an array.
fn write_tail<S: Data, D: Dimension, W: fmt::Write>(
    f: &mut fmt::Formatter<W>,
    array: &ArrayBase<S, D>,
) -> fmt::Result {
    let shape = array.shape();
    let strides = array.strides();
    write!(f, ", shape={shape:?}, strides={strides:?}, layout=")?;
    write_layout(f, layout_bits(array))?;
    let axes = array.ndim();
    match D::NDIM {
        Some(_) => write!(f, ", const ndim={axes}"),
        None => write!(f, ", dynamic ndim={axes}"),
    }
}

/// Writes the entries as `{}` does, each element as `{:?}` writes it, and then the shape, the strides, the layout's
/// letters and bits, and the number of axes.
impl<S: Data, D: Dimension> Debug for ArrayBase<S, D>
where
    S::Elem: Debug,
{
    fn fmt<W: fmt::Write>(&self, f: &mut fmt::Formatter<W>) -> fmt::Result {
        write_array::<AsDebugged, S, D, W>(f, self)?;
        write_tail(f, self)
    }
}
