//! Reading an array from the bytes of a file: as an array that owns its elements, or as a view of the bytes.

ghost use Rattle.std.specs.Prelude.{◌≡◌, ◌*◌, ◌<◌, ◌≤◌, ℕ, List, length, slice_get, vec_len, Err, IfOk, IfErr, IsOk, IsTrue};
ghost use Rattle.nd_shape_and_slice.specs.ShapesAndIndexOrders.{size_of, HasCheckedSize};
ghost use Rattle.nd_elements.specs.ShapeAndElements.{inside};
ghost use Rattle.nd_array_core.specs.ArrayMeaning.{meaning_of, shape_of, element_at};
ghost use Rattle.nd_npy_text.specs.ItemTypes.{kind_size};
ghost use Rattle.nd_npy_text.specs.HeaderDescription.{description_of, IsWholeHeader};
ghost use Rattle.nd_npy_text.specs.HeaderReading.{npy_header_in, HasLengths};
ghost use Rattle.nd_npy.specs.FileBytesAndArrays.{item_number, or_header_error, array_after_head, npy_in, ReadsNpyAs, MayLackForArray};
ghost use Rattle.nd_npy.specs.ItemBytes.{values_in};
ghost use Rattle.nd_npy.specs.declared.errors.ReadNpyError.TheVariants.{Memory};

use crate::errors::ReadNpyError;
use crate::item::NpyItem;
use crate::item_values::values_of;
use nd_array_core::{Array, ArrayD, ArrayView, ArrayViewD, Dimension, IxDyn, ShapeBuilder};
use nd_npy_text::reader::read_header;
use nd_npy_text::{Header, HeaderError};
use std::alloc::Global;

/// Returns what the head at the front of a file says, and at which byte the elements begin.
pub(crate) fn head_of(alloc: Global, bytes: &[u8]) -> Result<(Header, usize), ReadNpyError>
    ensures read { ReadsNpyAs (λ x. (description_of x.0, x.1)) result (or_header_error (npy_header_in bytes.now)) }
    ensures memory { result ≡ Err Memory → HasLengths bytes.now }
    ensures whole { IfOk result (λ x. IsWholeHeader (description_of x.0)) }
    ensures inside { IfOk result (λ x. x.1 ≤ length bytes.now) }
{
    match read_header(alloc, bytes) {
        Ok(head) => Ok(head),
        Err(HeaderError::Memory) => Err(ReadNpyError::Memory),
        Err(error) => Err(ReadNpyError::Header(error)),
    }
}

/// Returns how many elements a shape has.
pub(crate) fn size_of(shape: &[usize]) -> usize
    requires axes { length shape.now ≤ 32 }
    requires checked { HasCheckedSize shape.now }
    ensures { result ≡ size_of shape.now }
{
    IxDyn::new(shape).size()
}

/// Returns how many elements the array of a head has. Fails if its elements aren't of a kind that is read as `A`, or if
/// `bytes` isn't as many bytes as they take.
fn count_in<A: NpyItem>(header: &Header, bytes: &[u8]) -> Result<usize, ReadNpyError>
    requires { IsWholeHeader (description_of header.now) }
    ensures accepted { IfOk result (λ _. IsTrue (A.accepts header.now.item_type.kind)) }
    ensures count { IfOk result (λ count. count ≡ size_of header.now.shape.items) }
    ensures bytes { IfOk result (λ count. length bytes.now ≡ count * kind_size header.now.item_type.kind) }
    ensures refused { IfErr result (λ e. array_after_head A.NpyItem (description_of header.now) bytes.now ≡ Err e) }
    ensures memory { ¬ (result ≡ Err Memory) }
{
    let kind = header.item_type.kind;
    if !A::accepts(kind) {
        return Err(ReadNpyError::OtherKind(kind));
    }
    let size = kind.size();
    let count = size_of(header.shape.as_slice());
    let expected = count * size;
    if bytes.len() != expected {
        return Err(ReadNpyError::WrongSize {
            expected,
            found: bytes.len(),
        });
    }
    Ok(count)
}

/// Returns the array of a shape, given by a dimension, over `values`, which must be as many as its elements: in
/// column-major order if `fortran_order` is true, and otherwise in row-major order.
#[tactic(auto, using(crate::proofs::ShapedVectors::none_refused, crate::proofs::ShapedVectors::number_shown))]
fn shaped<A: Drop, D: Dimension>(dim: D, fortran_order: bool, values: Vec<A>) -> Array<A, D>
    requires checked { HasCheckedSize (D.lengths dim) }
    requires count { vec_len values ≡ size_of (D.lengths dim) }
    ensures shape { shape_of result ≡ D.lengths dim }
    ensures elements { (i : List ℕ) → element_at result i ≡ inside (D.lengths dim) i (slice_get values.items (item_number fortran_order (D.lengths dim) i)) }
{
    match Array::from_shape_vec(dim.set_f(fortran_order), values) {
        Ok(array) => array,
        Err(_) => unreachable!(),
    }
}

/// Returns the array of a shape over `values`, which must be as many as its elements: in column-major order if
/// `fortran_order` is true, and otherwise in row-major order.
pub(crate) fn laid_out<A: Drop>(shape: &[usize], fortran_order: bool, values: Vec<A>) -> ArrayD<A>
    requires axes { length shape.now ≤ 32 }
    requires checked { HasCheckedSize shape.now }
    requires count { vec_len values ≡ size_of shape.now }
    ensures shape { shape_of result ≡ shape.now }
    ensures elements { (i : List ℕ) → element_at result i ≡ inside shape.now i (slice_get values.items (item_number fortran_order shape.now i)) }
{
    shaped(IxDyn::new(shape), fortran_order, values)
}

/// Returns the array of a head and of the bytes of its elements.
fn array_after_head<A: NpyItem>(
    alloc: Global,
    header: &Header,
    bytes: &[u8],
) -> Result<ArrayD<A>, ReadNpyError>
    requires { IsWholeHeader (description_of header.now) }
    ensures read { ReadsNpyAs meaning_of result (array_after_head A.NpyItem (description_of header.now) bytes.now) }
    ensures memory { result ≡ Err Memory → IsOk (array_after_head A.NpyItem (description_of header.now) bytes.now) }
{
    let item_type = header.item_type;
    match count_in::<A>(header, bytes) {
        Ok(count) => match values_of(alloc, item_type.order, item_type.size(), count, bytes) {
            Ok(values) => Ok(laid_out(header.shape.as_slice(), header.fortran_order, values)),
            Err(_) => Err(ReadNpyError::Memory),
        },
        Err(error) => Err(error),
    }
}

/// Returns the array that the bytes of a file mean. In Fortran's order the elements stay as they lie, so the array is
/// in column-major order; otherwise it is in row-major order. This is numpy's `load` of a `.npy` file.
///
/// # Errors
///
/// Fails with the first cause in this order: `Header` if the head can't be read, with the cause; `OtherKind` if the
/// elements aren't of a kind that is read as `A`; `WrongSize` if the bytes after the head aren't as many as the
/// elements take; `Memory` if memory for the lengths or for the elements is refused.
pub fn read_npy<A: NpyItem>(alloc: Global, bytes: &[u8]) -> Result<ArrayD<A>, ReadNpyError>
    ensures read { ReadsNpyAs meaning_of result (npy_in A.NpyItem bytes.now) }
    ensures memory { result ≡ Err Memory → MayLackForArray A.NpyItem bytes.now }
{
    match head_of(alloc, bytes) {
        Ok((header, start)) => array_after_head(alloc, &header, &bytes[start..]),
        Err(error) => Err(error),
    }
}

/// Returns the items of `bytes`, which must be `count` items of `N` bytes each.
fn chunks_of<const N: usize>(count: usize, bytes: &[u8]) -> &[[u8; N]]
    requires some { 0 < N }
    requires few { N ≤ 16 }
    requires whole { length bytes.now ≡ count * N }
    ensures items { result.now ≡ values_in (λ item. item) N count bytes.now }
    ensures count { length result.now ≡ count }
{
    let (items, _rest) = bytes.as_chunks::<N>();
    items
}

/// Returns a view of a shape, given by a dimension, over `items`, which must be as many as its elements: in column-major
/// order if `fortran_order` is true, and otherwise in row-major order.
#[tactic(auto, using(crate::proofs::ShapedVectors::none_refused_to_view, crate::proofs::ShapedVectors::number_shown))]
fn view_shaped<'a, A, D: Dimension>(
    dim: D,
    fortran_order: bool,
    items: &'a [A],
) -> ArrayView<'a, A, D>
    requires checked { HasCheckedSize (D.lengths dim) }
    requires count { length items.now ≡ size_of (D.lengths dim) }
    ensures shape { shape_of result ≡ D.lengths dim }
    ensures elements { (i : List ℕ) → element_at result i ≡ inside (D.lengths dim) i (slice_get items.now (item_number fortran_order (D.lengths dim) i)) }
{
    match ArrayView::from_shape(dim.set_f(fortran_order), items) {
        Ok(view) => view,
        Err(_) => unreachable!(),
    }
}

/// Returns a view of a shape over `items`, which must be as many as its elements: in column-major order if
/// `fortran_order` is true, and otherwise in row-major order.
fn viewed<'a, A>(shape: &[usize], fortran_order: bool, items: &'a [A]) -> ArrayViewD<'a, A>
    requires axes { length shape.now ≤ 32 }
    requires checked { HasCheckedSize shape.now }
    requires count { length items.now ≡ size_of shape.now }
    ensures shape { shape_of result ≡ shape.now }
    ensures elements { (i : List ℕ) → element_at result i ≡ inside shape.now i (slice_get items.now (item_number fortran_order shape.now i)) }
{
    view_shaped(IxDyn::new(shape), fortran_order, items)
}

/// Returns a view of the array of a head over the bytes of its elements.
fn view_after_head<'a, const N: usize>(
    header: &Header,
    bytes: &'a [u8],
) -> Result<ArrayViewD<'a, [u8; N]>, ReadNpyError>
    requires { IsWholeHeader (description_of header.now) }
    ensures read { ReadsNpyAs meaning_of result (array_after_head ⟦<[u8; N] as NpyItem>⟧ (description_of header.now) bytes.now) }
    ensures memory { ¬ (result ≡ Err Memory) }
{
    match count_in::<[u8; N]>(header, bytes) {
        Ok(count) => {
            let items = chunks_of::<N>(count, bytes);
            Ok(viewed(header.shape.as_slice(), header.fortran_order, items))
        }
        Err(error) => Err(error),
    }
}

/// Returns the array that the bytes of a file mean as a view of these bytes, each element as the `N` bytes that it has in
/// the file. No element is copied, and memory is taken for the lengths of the head alone. A view of another type isn't
/// given, since the elements may lie at any address and in either byte order. This is the `view_npy` of ndarray-npy.
///
/// # Errors
///
/// Fails with the first cause in this order: `Header` if the head can't be read, with the cause; `OtherKind` if the
/// elements don't take `N` bytes each; `WrongSize` if the bytes after the head aren't as many as the elements take;
/// `Memory` if memory for the lengths is refused.
pub fn view_npy<'a, const N: usize>(
    alloc: Global,
    bytes: &'a [u8],
) -> Result<ArrayViewD<'a, [u8; N]>, ReadNpyError>
    ensures read { ReadsNpyAs meaning_of result (npy_in ⟦<[u8; N] as NpyItem>⟧ bytes.now) }
    ensures memory { result ≡ Err Memory → HasLengths bytes.now }
{
    match head_of(alloc, bytes) {
        Ok((header, start)) => view_after_head(&header, &bytes[start..]),
        Err(error) => Err(error),
    }
}
