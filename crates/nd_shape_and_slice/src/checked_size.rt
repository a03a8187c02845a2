//! Checking that the size of a shape doesn't overflow.

ghost use Rattle.std.specs.Prelude.{◌↔◌, ◌≡◌, ◌<◌, ◌^◌, ℕ, IsTrue, OnOk, IfOk, OnErr, IfErr};
ghost use Rattle.nd_shape_and_slice.specs.ShapesAndIndexOrders.{HasCheckedSize, size_of};

use crate::errors::{ErrorKind, ShapeError};

/// Returns the number of elements of a shape. Fails with `Overflow` exactly if the product of the lengths other than 0
/// exceeds `isize::MAX`. ndarray's constructors check shapes in this way.
pub fn size_of_shape_checked(lengths: &[usize]) -> Result<usize, ShapeError>
    ensures fits { OnOk result (HasCheckedSize lengths.now) }
    ensures value { IfOk result (λ size. size ≡ size_of lengths.now) }
    ensures overflow { OnErr result (¬ (HasCheckedSize lengths.now)) }
    ensures cause { IfErr result (λ e. e ≡ ErrorKind.Overflow) }
{
    let mut product: usize = 1;
    let mut has_zero = false;
    for length in lengths {
        if *length == 0 {
            has_zero = true;
        } else {
            match product.checked_mul(*length) {
                Some(larger) if larger <= MAX_SIZE => product = larger,
                _ => return Err(ShapeError::from_kind(ErrorKind::Overflow)),
            }
        }
    }
    Ok(if has_zero { 0 } else { product })
}

/// The largest size of an array: `isize::MAX`.
const MAX_SIZE: usize = isize::MAX as usize;

/// Returns the number of elements of a shape. The product of the lengths other than 0 must be at most `isize::MAX`.
pub(crate) fn product_of(lengths: &[usize]) -> usize
    requires { HasCheckedSize lengths.now }
    ensures { result ≡ size_of lengths.now }
{
    let mut product: usize = 1;
    for length in lengths {
        product *= *length;
    }
    product
}

/// Returns whether a shape has no element, which means that some length is 0.
pub fn is_empty_shape(lengths: &[usize]) -> bool
    ensures { IsTrue result ↔ (size_of lengths.now ≡ 0) }
{
    lengths.contains(&0)
}
