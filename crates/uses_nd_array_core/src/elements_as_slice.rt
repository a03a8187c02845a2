//! Reads the elements of views as one slice. No element is copied.
#![tactic(auto, using(nd_array_core::proofs::AxesOfDimensionTypes::known_axes))]

ghost use Rattle.std.specs.Prelude.{◌≡◌};
ghost use Rattle.nd_array_core.specs.Prelude.{meaning_of, row_major_elements, IsStandardArray, IsRunArray, IsInMemoryOrder};

use nd_array_core::prelude::*;

/// Returns the elements of a view in row-major order as a slice, which lives as long as the data that the view borrows.
/// The view must be in the standard layout.
pub fn row_major_slice<'a, A, D: Dimension>(view: &ArrayView<'a, A, D>) -> &'a [A]
    requires { IsStandardArray view.now }
    ensures { result.now ≡ row_major_elements (meaning_of view.now) }
{
    view.to_slice().unwrap()
}

/// Returns the elements of a view as a slice in the order of their places, if the places are contiguous. Otherwise
/// returns `other`.
pub fn run_or<'a, A, D: Dimension>(view: &ArrayView<'a, A, D>, other: &'a [A]) -> &'a [A]
    ensures run { IsRunArray view.now → IsInMemoryOrder view.now result.now }
    ensures other { ¬ IsRunArray view.now → result.now ≡ other.now }
{
    match view.to_slice_memory_order() {
        Some(elements) => elements,
        None => other,
    }
}
