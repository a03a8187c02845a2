//! Writing the bytes of the file of an array.

ghost use Rattle.std.specs.Prelude.{◌≡◌, ◌↔◌, All, IfOk, OnOk, IsTrue};
ghost use Rattle.std.specs.Iterator.{IsFinite};
ghost use Rattle.nd_array_core.specs.ArrayMeaning.{meaning_of};
ghost use Rattle.nd_elements.specs.ShapeAndElements.{row_major_elements};
ghost use Rattle.nd_npy.specs.FileBytesAndArrays.{file_of, file_in, listed_elements, little_items};
ghost use Rattle.nd_npy.specs.WrittenElements.{GivesElements, WritesAll};
ghost use Rattle.nd_npy.specs.StreamReadsAndWrites.{LiesInFortranOrder};

use crate::item::{NpyItem, NpyNumber};
use nd_array_core::{ArrayBase, Data, Dimension, NoMemory};
use nd_iter::iter;
use nd_npy_text::writer::header_bytes;
use nd_npy_text::{ByteOrder, ItemType, Kind};
use std::alloc::{AllocError, Global};

/// Appends the bytes of the elements that `items` gives, one after another, to `bytes`.
fn append_given<'a, A: NpyItem + 'a, I: Iterator<Item = &'a A>>(
    bytes: &mut Vec<u8>,
    order: ByteOrder,
    items: I,
) -> Result<(), AllocError>
    requires can { I.can_next items }
    requires finite { IsFinite (I.remaining items) }
    ensures { (rest : _) → GivesElements I.next_gives rest → OnOk result (WritesAll A.NpyItem order (rest items) bytes.old.items bytes.new.items) }
{
    for item in items {
        item.append_to(order, bytes)?;
    }
    Ok(())
}

/// Appends the bytes of the elements in row-major order, one after another, to `bytes`, whatever the layout is.
fn append_elements<A: NpyItem, S: Data<Elem = A>, D: Dimension>(
    bytes: &mut Vec<u8>,
    order: ByteOrder,
    array: &ArrayBase<S, D>,
) -> Result<(), AllocError>
    ensures { OnOk result (WritesAll A.NpyItem order (row_major_elements (meaning_of array.now)) bytes.old.items bytes.new.items) }
{
    match array.as_slice() {
        Some(items) => A::append_all_to(items, order, bytes),
        None => append_given(bytes, order, iter(array)),
    }
}

/// Returns the bytes of the file, in version 1.0 and row-major order, of an array whose elements are items of
/// `item_type`. A caller that has read the items of a file as `[u8; N]` writes them by this call as they were.
///
/// # Errors
///
/// Fails with `NoMemory` if memory for the bytes is refused.
#[tactic(auto, unfolding(crate::specs::FileBytesAndArrays::file_of, crate::specs::FileBytesAndArrays::file_in))]
pub fn npy_bytes_as<A: NpyItem, S: Data<Elem = A>, D: Dimension>(
    alloc: Global,
    item_type: ItemType,
    array: &ArrayBase<S, D>,
) -> Result<Vec<u8>, NoMemory>
    requires { IsTrue (A.accepts item_type.kind) }
    ensures written { IfOk result (λ v. v.items ≡ file_of A.NpyItem item_type (meaning_of array.now)) }
    ensures fits { IfOk result (λ _. All A.fits (row_major_elements (meaning_of array.now))) }
{
    npy_bytes_in(alloc, item_type, false, array)
}

/// Returns the type of items of a kind that are written: with the least significant byte first.
pub(crate) fn little_items(kind: Kind) -> ItemType
    ensures { result ≡ little_items kind }
{
    let order = if kind.size() == 1 {
        ByteOrder::NotApplicable
    } else {
        ByteOrder::Little
    };
    ItemType { kind, order }
}

/// Returns the bytes of the file of an array, in version 1.0 and row-major order, with the least significant byte of
/// each number first. This is numpy's `save` of an array in C order.
///
/// # Errors
///
/// Fails with `NoMemory` if memory for the bytes is refused.
pub fn npy_bytes<A: NpyNumber, S: Data<Elem = A>, D: Dimension>(
    alloc: Global,
    array: &ArrayBase<S, D>,
) -> Result<Vec<u8>, NoMemory>
    ensures written { IfOk result (λ v. v.items ≡ file_of A.NpyItem (little_items A.kind) (meaning_of array.now)) }
    ensures fits { IfOk result (λ _. All A.fits (row_major_elements (meaning_of array.now))) }
{
    npy_bytes_as(alloc, little_items(A::kind()), array)
}

/// Appends the bytes of the elements, one after another, to `bytes`: in column-major order if `fortran_order` is true,
/// and otherwise in row-major order, whatever the layout is.
fn append_listed<A: NpyItem, S: Data<Elem = A>, D: Dimension>(
    bytes: &mut Vec<u8>,
    order: ByteOrder,
    fortran_order: bool,
    array: &ArrayBase<S, D>,
) -> Result<(), AllocError>
    ensures { OnOk result (WritesAll A.NpyItem order (listed_elements fortran_order (meaning_of array.now)) bytes.old.items bytes.new.items) }
{
    if fortran_order {
        append_elements(bytes, order, &array.t())
    } else {
        append_elements(bytes, order, array)
    }
}

/// Returns the bytes of the file, in version 1.0, of an array whose elements are items of `item_type`: in Fortran's
/// order, where the first axis runs fastest, if `fortran_order` is true, and otherwise in row-major order. The layout of
/// the array doesn't matter for the bytes, but an array that lies in the order asked for is copied as it lies.
///
/// # Errors
///
/// Fails with `NoMemory` if memory for the bytes is refused.
#[tactic(auto, unfolding(crate::specs::FileBytesAndArrays::file_in))]
pub fn npy_bytes_in<A: NpyItem, S: Data<Elem = A>, D: Dimension>(
    alloc: Global,
    item_type: ItemType,
    fortran_order: bool,
    array: &ArrayBase<S, D>,
) -> Result<Vec<u8>, NoMemory>
    requires { IsTrue (A.accepts item_type.kind) }
    ensures written { IfOk result (λ v. v.items ≡ file_in A.NpyItem fortran_order item_type (meaning_of array.now)) }
    ensures fits { IfOk result (λ _. All A.fits (listed_elements fortran_order (meaning_of array.now))) }
{
    let dim = array.raw_dim();
    match header_bytes(alloc, item_type, fortran_order, dim.slice()) {
        Ok(mut bytes) => match append_listed(&mut bytes, item_type.order, fortran_order, array) {
            Ok(()) => Ok(bytes),
            Err(_) => Err(NoMemory),
        },
        Err(_) => Err(NoMemory),
    }
}

/// Returns whether numpy's `save` and ndarray-npy's `write_npy` write the array in Fortran's order: where its elements
/// are contiguous in column-major order, and not in row-major order, as those of a table's transpose are. An array of
/// at most one axis longer than 1 and a new array don't lie so.
pub fn lies_in_fortran_order<S: Data, D: Dimension>(array: &ArrayBase<S, D>) -> bool
    ensures { IsTrue result ↔ LiesInFortranOrder array.now }
{
    if array.is_standard_layout() {
        return false;
    }
    array.t().is_standard_layout()
}
