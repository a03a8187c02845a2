//! Divides integers element by element, if no divisor is 0.

ghost use Rattle.std.specs.Prelude.{IfOk, IfSome};
ghost use Rattle.nd_numeric.specs.ElementwiseArithmetic.{IsOfBoth};
ghost use Rattle.nd_numeric.specs.Quotients.{quotient_or_zero};

use nd_array_core::prelude::*;
use nd_numeric::{are_divisors, div};
use std::alloc::Global;

/// Returns the quotients of the elements of two arrays; `divisors` is broadcast to the shape of `array`. Returns `None`
/// if it can't be broadcast, or if a divisor is 0.
pub fn quotients<S: Data<Elem = u64>, Z: Data<Elem = u64>, D: Dimension>(
    alloc: Global,
    array: &ArrayBase<S, D>,
    divisors: &ArrayBase<Z, D>,
) -> Result<Option<Array<u64, D>>, NoMemory>
    ensures { IfOk result (λ made. IfSome made (IsOfBoth quotient_or_zero array.now divisors.now)) }
{
    if divisors.broadcast(array.raw_dim()).is_none() || !are_divisors(divisors) {
        return Ok(None);
    }
    let quotients = div(alloc, array, divisors)?;
    Ok(Some(quotients))
}
