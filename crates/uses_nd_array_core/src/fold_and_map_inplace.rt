//! Calls closures with each element: to compute the sum, and to change elements in place.
#![tactic(auto)]

ghost use Rattle.std.specs.Prelude.{◌≡◌, fold};
ghost use Rattle.nd_array_core.specs.Prelude.{meaning_of, shape_of, element_at, IsMappedBy};
ghost use Rattle.uses_nd_array_core.specs.NumberSums.{sum_of_elements, twice};

use nd_array_core::prelude::*;

/// Returns the sum of all elements, modulo 2 to the 64th.
pub fn wrapping_sum<S: Data<Elem = u64>, D: Dimension>(array: &ArrayBase<S, D>) -> u64
    ensures { result ≡ sum_of_elements (meaning_of array.now) }
{
    array.fold(0, |sum, x| sum.wrapping_add(*x))
}

/// Doubles every element, modulo 2 to the 64th.
pub fn double_all<S: DataMut<Elem = u64>, D: Dimension>(array: &mut ArrayBase<S, D>)
    ensures shape { shape_of array.new ≡ shape_of array.old }
    ensures elements { IsMappedBy twice (element_at array.old) (element_at array.new) }
{
    array.map_inplace(|x| *x = x.wrapping_mul(2));
}
