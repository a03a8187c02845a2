//! Lengths and strides of axes, counted from the fastest axis on.

ghost use Rattle.std.specs.Prelude.{◌≡◌, ◌<◌, pos, length, slice_index, slice_index_or, slice_set};
ghost use Rattle.nd_layout.specs.RanksAndReshapeStrides.{fastest_first, axis_in, slow_axis_in};

use nd_shape_and_slice::Order;

/// Returns the `nth` fastest of `count` axes, counted from 0.
pub(crate) fn axis_at(order: Order, count: usize, nth: usize) -> usize
    requires { nth < count }
    ensures below { result < count }
    ensures value { result ≡ axis_in order count nth }
{
    match order {
        Order::RowMajor => count - 1 - nth,
        Order::ColumnMajor => nth,
    }
}

/// Returns the `nth` slowest of `count` axes, counted from 0.
#[inline]
pub fn slow_axis_at(order: Order, count: usize, nth: usize) -> usize
    requires { nth < count }
    ensures below { result < count }
    ensures value { result ≡ slow_axis_in order count nth }
{
    match order {
        Order::RowMajor => nth,
        Order::ColumnMajor => count - 1 - nth,
    }
}

/// Returns the length of the `nth` fastest axis.
pub(crate) fn nth_length(lengths: &[usize], order: Order, nth: usize) -> usize
    requires { nth < length lengths.now }
    ensures { result ≡ slice_index (fastest_first order lengths.now) nth }
{
    lengths[axis_at(order, lengths.len(), nth)]
}

/// Returns the stride of the `nth` fastest axis.
pub(crate) fn nth_stride(strides: &[isize], order: Order, nth: usize) -> isize
    requires { nth < length strides.now }
    ensures { result ≡ slice_index_or (fastest_first order strides.now) nth (pos 0) }
{
    strides[axis_at(order, strides.len(), nth)]
}

/// Writes the stride of the `nth` fastest axis.
pub(crate) fn put_nth_stride(out: &mut [isize], order: Order, nth: usize, stride: isize)
    requires { nth < length out.old }
    ensures { fastest_first order out.new ≡ slice_set (fastest_first order out.old) nth stride }
{
    let axis = axis_at(order, out.len(), nth);
    out[axis] = stride;
}
