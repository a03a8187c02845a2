//! New arrays of what a closure returns for the elements of three arrays.
#![tactic(auto)]

ghost use Rattle.std.specs.Prelude.{◌≡◌, IfOk, IsTrue};
ghost use Rattle.nd_array_core.specs.Prelude.{shape_of, broadcasts, ShowsOfThree};
ghost use Rattle.uses_nd_array_core_numbers.specs.TimesTableAndClamping.{clamped_to};

use nd_array_core::prelude::*;
use std::alloc::Global;

/// Returns the greater of `x` and `least`, or `most` if that is smaller.
fn within(x: u64, least: u64, most: u64) -> u64
    ensures { result ≡ clamped_to x least most }
{
    x.max(least).min(most)
}

/// Returns a new array of the numbers of `array` between two bounds: each number below its element of `least` is raised
/// to that, and then each above its element of `most` is lowered to that. Both bounds are broadcast to the shape of
/// `array`, so that they may be one number for all elements, or one for each column.
pub fn clamped<S, D, Z, E, Y, F>(
    alloc: Global,
    array: &ArrayBase<S, D>,
    least: &ArrayBase<Z, E>,
    most: &ArrayBase<Y, F>,
) -> Result<Array<u64, D>, NoMemory>
where
    S: Data<Elem = u64>,
    D: Dimension,
    Z: Data<Elem = u64>,
    E: Dimension,
    Y: Data<Elem = u64>,
    F: Dimension,
    requires least { IsTrue (broadcasts (shape_of least.now) (shape_of array.now)) }
    requires most { IsTrue (broadcasts (shape_of most.now) (shape_of array.now)) }
    ensures shape { IfOk result (λ a. shape_of a ≡ shape_of array.now) }
    ensures elements { IfOk result (ShowsOfThree clamped_to array.now least.now most.now) }
{
    let clamped = array.zip_map_with_two(alloc, least, most, |x, low, high| {
        within(*x, *low, *high)
    })?;
    Ok(clamped)
}
