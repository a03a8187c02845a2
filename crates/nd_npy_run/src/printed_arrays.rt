//! The text of an array of items, which are read as numbers or as truth values.

ghost use Rattle.std.specs.Prelude.{◌≡◌, ◌++◌, Some, is_some, false, codes, string_bytes, IfOk, IfSome, IsTrue};
ghost use Rattle.nd_array_core.specs.ArrayMeaning.{meaning_of};
ghost use Rattle.nd_array_core.specs.printing.ArrayTexts.{array_text};
ghost use Rattle.nd_npy_text.specs.ItemTypes.{kind_size};
ghost use Rattle.nd_npy_run.specs.OutputAndStatus.{bytes_made, ComesOfArray, ComesOfText};
ghost use Rattle.nd_npy_run.specs.FilesAfterSteps.{printed_as};
ghost use Rattle.nd_npy_run.specs.declared.wanted_outputs.Wanted.TheVariants.{Text};

use crate::item_numbers::{Items, numbers_of};
use crate::output_or_fault::Fault;
use nd_array_core::ArrayD;
use nd_array_core::laws::elements_by_rank;
use nd_npy::NpyItem;
use nd_npy_text::{ByteOrder, ItemType, Kind};
use std::alloc::{AllocError, Global};
use std::fmt::Display;

/// Returns the text of an array.
fn text_of<A: Display>(alloc: Global, values: &ArrayD<A>) -> Result<String, AllocError>
    ensures { IfOk result (λ text. IfSome (array_text A.output false (meaning_of values.now)) (λ known. string_bytes text ≡ known)) }
{
    format!(in alloc; "{values}")
}

/// Returns the bytes of a text and a line feed, or fails with `Memory` if memory is refused.
fn line_of(text: String) -> Result<Vec<u8>, Fault<'static>>
    ensures { ComesOfText (Some (string_bytes text ++ codes "\n")) (bytes_made result) }
{
    let mut line = text;
    match line.push_str("\n") {
        Ok(()) => Ok(line.into_bytes()),
        Err(_) => Err(Fault::Memory),
    }
}

/// Returns the text of an array whose items are values of `A`, and a line feed, or fails with `Memory` if memory is
/// refused. Each value must have a known text.
fn printed_as<A: NpyItem + Display, const N: usize>(
    alloc: Global,
    order: ByteOrder,
    array: &Items<'_, N>,
) -> Result<Vec<u8>, Fault<'static>>
    requires size { A.size ≡ N }
    requires known { (x : A) → IsTrue (is_some (A.output x)) }
    ensures { ComesOfText (printed_as (λ bytes. A.output (A.value_of order bytes)) (meaning_of array.now)) (bytes_made result) }
{
    elements_by_rank(array);
    match numbers_of::<A, A, N>(alloc, order, array) {
        Ok(values) => match text_of(alloc, &values) {
            Ok(text) => line_of(text),
            Err(_) => Err(Fault::Memory),
        },
        Err(_) => Err(Fault::Memory),
    }
}

/// Returns the text of an array whose items have the type `item_type`, and a line feed. Fails with `NoText` if the items
/// are floats or complex numbers, and with `Memory` if memory is refused.
pub(crate) fn printed_bytes<const N: usize>(
    alloc: Global,
    item_type: ItemType,
    array: &Items<'_, N>,
) -> Result<Vec<u8>, Fault<'static>>
    requires { kind_size item_type.kind ≡ N }
    ensures { ComesOfArray Text item_type (meaning_of array.now) (bytes_made result) }
{
    let order = item_type.order;
    match item_type.kind {
        Kind::Bool => printed_as::<bool, N>(alloc, order, array),
        Kind::Int8 => printed_as::<i8, N>(alloc, order, array),
        Kind::Int16 => printed_as::<i16, N>(alloc, order, array),
        Kind::Int32 => printed_as::<i32, N>(alloc, order, array),
        Kind::Int64 => printed_as::<i64, N>(alloc, order, array),
        Kind::UInt8 => printed_as::<u8, N>(alloc, order, array),
        Kind::UInt16 => printed_as::<u16, N>(alloc, order, array),
        Kind::UInt32 => printed_as::<u32, N>(alloc, order, array),
        Kind::UInt64 => printed_as::<u64, N>(alloc, order, array),
        kind => Err(Fault::NoText(kind)),
    }
}
