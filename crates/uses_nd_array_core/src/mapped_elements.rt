//! Functions that map each element by a closure, into a new array or in place.
#![tactic(auto, using(nd_array_core::proofs::AxesOfDimensionTypes::rows_and_columns))]

ghost use Rattle.std.specs.Prelude.{◌≡◌, ◌/◌, ◌%◌, ℕ, nat_lt, List, IfOk, OnOk, OnErr, if◌then◌else◌};
ghost use Rattle.nd_array_core.specs.Prelude.{shape_of, element_at, table_of, ShowsTable, mapped, IsMappedBy, IsOldOrMapped};
ghost use Rattle.uses_nd_array_core.specs.NumberSums.{added_to, twice};

use nd_array_core::prelude::*;
use std::alloc::Global;

/// Returns a new array with every element doubled, modulo 2 to the 64th.
pub fn doubled<S: Data<Elem = u64>, D: Dimension>(
    alloc: Global,
    array: &ArrayBase<S, D>,
) -> Result<Array<u64, D>, NoMemory>
    ensures shape { IfOk result (λ a. shape_of a ≡ shape_of array.now) }
    ensures elements { IfOk result (λ a. IsMappedBy twice (element_at array.now) (element_at a)) }
{
    let doubled = array.map(alloc, |x| x.wrapping_mul(2))?;
    Ok(doubled)
}

/// Returns a black and white copy of a grey image: 0 where a pixel is below `level`, and 255 where it isn't.
pub fn thresholded<S: Data<Elem = u8>>(
    alloc: Global,
    image: &ArrayBase<S, Ix2>,
    level: u8,
) -> Result<Array2<u8>, NoMemory>
    ensures { IfOk result (λ a. ShowsTable a (mapped (λ x. if nat_lt x level then 0 else 255) (table_of image.now))) }
{
    let seen = image.mapv(alloc, |x| if x < level { 0 } else { 255 })?;
    Ok(seen)
}

/// Adds `by` to every element, modulo 2 to the 64th. If memory runs out, each element has either its old value or the
/// new one.
pub fn raise_all<S: DataMut<Elem = u64>, D: Dimension>(
    array: &mut ArrayBase<S, D>,
    by: u64,
) -> Result<(), NoMemory>
    ensures shape { shape_of array.new ≡ shape_of array.old }
    ensures elements { OnOk result (IsMappedBy (added_to by) (element_at array.old) (element_at array.new)) }
    ensures stopped { OnErr result (IsOldOrMapped (added_to by) (element_at array.old) (element_at array.new)) }
{
    array.mapv_inplace(|x| x.wrapping_add(by))
}

/// Doubles every element of an owned array, modulo 2 to the 64th, and returns the array.
pub fn doubled_itself<D: Dimension>(array: Array<u64, D>) -> Result<Array<u64, D>, NoMemory>
    ensures shape { IfOk result (λ a. shape_of a ≡ shape_of array) }
    ensures elements { IfOk result (λ a. IsMappedBy twice (element_at array) (element_at a)) }
{
    let doubled = array.mapv_into(|x| x.wrapping_mul(2))?;
    Ok(doubled)
}

/// Halves every element, rounded down, and returns an array of the remainders. If memory runs out, no element changes.
pub fn halve_all<S: DataMut<Elem = u64>, D: Dimension>(
    alloc: Global,
    array: &mut ArrayBase<S, D>,
) -> Result<Array<u64, D>, NoMemory>
    ensures halves { OnOk result (IsMappedBy (λ x. x / 2) (element_at array.old) (element_at array.new)) }
    ensures rests { IfOk result (λ a. IsMappedBy (λ x. x % 2) (element_at array.old) (element_at a)) }
    ensures kept { OnErr result ((i : List ℕ) → element_at array.new i ≡ element_at array.old i) }
{
    array.map_mut(alloc, |x| {
        let old = *x;
        *x = old / 2;
        old % 2
    })
}

/// Calls `f` with a reference to each element. `f` must accept every call.
pub fn show_all<A, S: Data<Elem = A>, D: Dimension, F: FnMut(&A)>(array: &ArrayBase<S, D>, f: F)
    requires { (state : F) (x : _) → F.pre state x }
{
    array.for_each(f);
}
