//! The strides of row-major and of column-major order, and strides that are given as a list.

ghost use Rattle.std.specs.Prelude.{◌≡◌, length, IsTrue};
ghost use Rattle.nd_shape_and_slice.specs.ShapesAndIndexOrders.{HasCheckedSize};
ghost use Rattle.nd_shape_and_slice.specs.DefaultAndFortranStrides.{c_strides, f_strides};

use crate::checked_size::is_empty_shape;
use crate::dimension::{Dimension, StrideList};

/// Returns the strides of row-major order: the stride of each axis is the product of the lengths of the later axes. All
/// strides are 0 if some length is 0. This is ndarray's `Dimension::default_strides`.
pub fn default_strides<D: Dimension>(dim: &D) -> D::Strides
    requires { HasCheckedSize (D.lengths dim.now) }
    ensures { D.Strides.strides_of result ≡ c_strides (D.lengths dim.now) }
{
    let mut strides = dim.zero_strides();
    let lengths = dim.slice();
    if is_empty_shape(lengths) {
        return strides;
    }
    let mut step: usize = 1;
    let mut axis = lengths.len();
    while axis > 0 {
        axis -= 1;
        strides.set(axis, step as isize);
        step *= lengths[axis];
    }
    strides
}

/// Returns the strides of column-major order: the stride of each axis is the product of the lengths of the earlier
/// axes. All strides are 0 if some length is 0. This is ndarray's `Dimension::fortran_strides`.
pub fn fortran_strides<D: Dimension>(dim: &D) -> D::Strides
    requires { HasCheckedSize (D.lengths dim.now) }
    ensures { D.Strides.strides_of result ≡ f_strides (D.lengths dim.now) }
{
    let mut strides = dim.zero_strides();
    let lengths = dim.slice();
    if is_empty_shape(lengths) {
        return strides;
    }
    let mut step: usize = 1;
    for axis in 0..lengths.len() {
        strides.set(axis, step as isize);
        step *= lengths[axis];
    }
    strides
}

/// Returns the strides of `list` as the stride type of `dim`.
pub fn strides_from<D: Dimension>(dim: &D, list: &[isize]) -> D::Strides
    requires { length list.now ≡ length (D.lengths dim.now) }
    ensures listed { D.Strides.strides_of result ≡ list.now }
    ensures number { IsTrue (D.has_axes (length (D.lengths dim.now))) }
{
    let mut strides = dim.zero_strides();
    for axis in 0..dim.slice().len() {
        strides.set(axis, list[axis]);
    }
    strides
}
