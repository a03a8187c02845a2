//! The numbers that the items of a file are.

ghost use Rattle.std.specs.Prelude.{◌≡◌, IfOk};
ghost use Rattle.nd_array_core.specs.ArrayMeaning.{meaning_of, shape_of};
ghost use Rattle.nd_npy_run.specs.Reductions.{read_as, values_of};

use crate::conversions::Converts;
use nd_array_core::{ArrayD, ArrayView, IxDyn, NoMemory};
use nd_npy::NpyItem;
use nd_npy_text::ByteOrder;
use std::alloc::Global;

/// Items as they lie in a file.
pub(crate) type Items<'a, const N: usize> = ArrayView<'a, [u8; N], IxDyn>;

/// Returns the number that an item is.
fn number_of<I: NpyItem + Converts<A>, A, const N: usize>(order: ByteOrder, item: &[u8; N]) -> A
    requires { I.size ≡ N }
    ensures { result ≡ read_as I.NpyItem I.converted order item.now }
{
    I::from_bytes(order, item.as_slice()).converted()
}

/// Returns the array of the numbers that the items are.
pub(crate) fn numbers_of<I: NpyItem + Converts<A>, A, const N: usize>(
    alloc: Global,
    order: ByteOrder,
    array: &Items<'_, N>,
) -> Result<ArrayD<A>, NoMemory>
    requires { I.size ≡ N }
    ensures shape { IfOk result (λ a. shape_of a ≡ shape_of array.now) }
    ensures numbers { IfOk result (λ a. meaning_of a ≡ values_of (read_as I.NpyItem I.converted order) (meaning_of array.now)) }
{
    let numbers = array.map(
        alloc,
        |item|
            requires { I.size ≡ N }
            ensures { result ≡ read_as I.NpyItem I.converted order item.now }
        { number_of::<I, A, N>(order, item) },
    )?;
    Ok(numbers)
}
