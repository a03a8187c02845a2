//! The elements of an array as one slice.

ghost use Rattle.std.specs.Prelude.{◌≡◌, IfOk};
ghost use Rattle.nd_array_core.specs.ArrayMeaning.{meaning_of};
ghost use Rattle.nd_array_core.specs.ConcatenationAndSplit.{row_major_elements};
ghost use Rattle.nd_linalg.specs.BorrowedOrCopiedElements.{cells_in};

use nd_array_core::{ArrayBase, Data};
use nd_numbers::Arithmetic;
use nd_shape_and_slice::{Dimension, NoMemory};
use std::alloc::Global;

/// The elements of an array as a list, borrowed or copied.
#[derive(Drop)]
pub(crate) enum Cells<'a, A> {
    Seen(&'a [A]),
    Copied(Vec<A>),
}

impl<'a, A> Cells<'a, A> {
    /// Returns the elements.
    pub(crate) fn slice(&self) -> &[A]
        ensures { result.now ≡ cells_in self.now }
    {
        match self {
            Cells::Seen(cells) => cells,
            Cells::Copied(cells) => cells.as_slice(),
        }
    }
}

/// Returns the elements of `array` in row-major order: borrowed if they are contiguous in that order, and otherwise
/// copied.
pub(crate) fn cells_of<'a, A: Arithmetic, S: Data<Elem = A>, D: Dimension>(
    alloc: Global,
    array: &'a ArrayBase<S, D>,
) -> Result<Cells<'a, A>, NoMemory>
    ensures { IfOk result (λ cells. cells_in cells ≡ row_major_elements (meaning_of array.now)) }
{
    match array.as_slice() {
        Some(cells) => Ok(Cells::Seen(cells)),
        None => match array.to_vec(alloc) {
            Ok(cells) => Ok(Cells::Copied(cells)),
            Err(refused) => Err(refused),
        },
    }
}
