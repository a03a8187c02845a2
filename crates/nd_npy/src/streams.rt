//! Reading an array from a stream, and writing the file of an array to one.

ghost use Rattle.std.specs.Prelude.{◌≡◌, ◌<◌, false, true, length, All, Err, IfSome, IsTrue, OnOk};
ghost use Rattle.std.specs.Io.KnownBytes.{IsAtEnd};
ghost use Rattle.nd_array_core.specs.ArrayMeaning.{meaning_of};
ghost use Rattle.nd_text.specs.WatchedReadersAndWriters.{watched_inner, watched_failed, watched_retried};
ghost use Rattle.nd_npy_text.specs.HeaderDescription.{description_of, IsWholeHeader};
ghost use Rattle.nd_npy_text.specs.HeaderReading.{is_cut_off};
ghost use Rattle.nd_npy.specs.FileBytesAndArrays.{array_after_head, npy_in, file_in, listed_elements, little_items};
ghost use Rattle.nd_npy.specs.StreamReadsAndWrites.{bytes_ahead, AnswersAsWatched, ReadsStreamAs, is_failed_npy_read, WritesFile, InItsOrder};
ghost use Rattle.nd_npy.specs.declared.errors.ReadNpyError.TheVariants.{Memory};
ghost use Rattle.nd_npy.specs.declared.errors.ReadNpyFromError.TheVariants.{File};

use crate::elements_piece_by_piece::{PIECE_LEN, drop_front, read_front, values_ahead};
use crate::errors::{ReadNpyError, ReadNpyFromError, WriteNpyError};
use crate::item::{NpyItem, NpyNumber};
use crate::reader::{head_of, laid_out, size_of};
use crate::writer::{lies_in_fortran_order, little_items, npy_bytes_in};
use nd_array_core::{ArrayBase, ArrayD, Data, Dimension};
use nd_npy_text::laws::heads_need_no_more;
use nd_npy_text::{Header, ItemType};
use nd_text::Watched;
use nd_text::buffered_printing::write_text;
use std::alloc::Global;
use std::io::{Read, Write};

/// Returns the array of a head and of the bytes of its elements, which are those in `pending` and all that the input has
/// left.
fn array_ahead<A: NpyItem, R: Read>(
    alloc: Global,
    header: &Header,
    pending: &mut Vec<u8>,
    input: &mut Watched<R>,
    piece: &mut [u8; PIECE_LEN],
) -> Result<ArrayD<A>, ReadNpyFromError>
    requires whole { IsWholeHeader (description_of header.now) }
    requires fine { watched_failed input.old ≡ false }
    ensures read { IfSome (bytes_ahead R.remaining pending.old.items input.old) (λ bytes. ReadsStreamAs meaning_of result (array_after_head A.NpyItem (description_of header.now) bytes)) }
    ensures watch { AnswersAsWatched input.old input.new result }
{
    let item_type = header.item_type;
    if !A::accepts(item_type.kind) {
        return Err(ReadNpyFromError::File(ReadNpyError::OtherKind(item_type.kind)));
    }
    let count = size_of(header.shape.as_slice());
    let mut values = Vec::new(alloc);
    match values_ahead(
        &mut values,
        item_type.order,
        item_type.size(),
        count,
        pending,
        input,
        piece,
    ) {
        Ok(()) => Ok(laid_out(header.shape.as_slice(), header.fortran_order, values)),
        Err(error) => Err(error),
    }
}

/// Returns the array that the bytes in `front`, and all that the input has left, mean. The bytes in `front` aren't cut
/// off inside their head, or else the input has none left.
fn array_behind<A: NpyItem, R: Read>(
    alloc: Global,
    front: &mut Vec<u8>,
    input: &mut Watched<R>,
    piece: &mut [u8; PIECE_LEN],
) -> Result<ArrayD<A>, ReadNpyFromError>
    requires fine { watched_failed input.old ≡ false }
    requires enough { is_cut_off front.old.items ≡ true → IsAtEnd (R.remaining (watched_inner input.old)) }
    ensures read { IfSome (bytes_ahead R.remaining front.old.items input.old) (λ bytes. ReadsStreamAs meaning_of result (npy_in A.NpyItem bytes)) }
    ensures memory { result ≡ Err (File Memory) → 0 < length front.old.items }
    ensures watch { AnswersAsWatched input.old input.new result }
{
    heads_need_no_more();
    match head_of(alloc, front) {
        Ok((header, start)) => {
            drop_front(front, start);
            array_ahead(alloc, &header, front, input, piece)
        }
        Err(error) => Err(ReadNpyFromError::File(error)),
    }
}

/// Returns the array that the bytes of a stream mean, up to the stream's end. In Fortran's order the elements stay as
/// they lie, so the array is in column-major order; otherwise it is in row-major order. The stream is read piece by piece,
/// and its elements go into the array as they come, so that the array and one piece are all that is in memory. After a
/// head that is refused nothing more is read. It stops at the first read that fails, and reads nothing if a call of
/// `input` has failed before. This is numpy's `load` of a file, and the `read_npy` of ndarray-npy.
///
/// # Errors
///
/// Fails with `ReadFailed` if a call of `input` failed, or else with `File` of the cause for which `read_npy` refuses
/// the bytes: `Header`, `OtherKind`, `WrongSize`, or `Memory` if memory for the head or the elements is refused.
pub fn read_npy_from<A: NpyItem, R: Read>(
    alloc: Global,
    input: &mut Watched<R>,
) -> Result<ArrayD<A>, ReadNpyFromError>
    ensures read { IfSome (R.remaining (watched_inner input.old)) (λ bytes. ReadsStreamAs meaning_of result (npy_in A.NpyItem bytes)) }
    ensures memory { result ≡ Err (File Memory) → IfSome (R.remaining (watched_inner input.old)) (λ bytes. 0 < length bytes) }
    ensures failed { watched_failed input.new ≡ is_failed_npy_read result }
    ensures stops { watched_retried input.new ≡ watched_retried input.old }
{
    if input.failed() {
        return Err(ReadNpyFromError::ReadFailed);
    }
    let mut piece = [0; PIECE_LEN];
    match read_front(alloc, input, &mut piece) {
        Ok(mut front) => array_behind(alloc, &mut front, input, &mut piece),
        Err(error) => Err(error),
    }
}

/// Writes the bytes of a file to `output`, flushes it once, and returns whether no call of it failed.
fn write_whole<W: Write>(output: &mut Watched<W>, file: &[u8]) -> Result<(), WriteNpyError>
    ensures { WritesFile W.contents output.old output.new file.now result }
{
    write_text(output, file);
    if !output.failed() {
        let _ = output.flush();
    }
    if output.failed() {
        return Err(WriteNpyError::WriteFailed);
    }
    Ok(())
}

/// Writes the file of an array to `output`, in version 1.0, and flushes it once. The elements are items of `item_type`.
/// They stand in Fortran's order, where the first axis runs fastest, if `fortran_order` is true, and otherwise in
/// row-major order. The whole file is made in memory before the first byte is written. A caller that has read the items
/// of a file as `[u8; N]` writes them by this call as they were.
///
/// # Errors
///
/// Fails with `Memory` if memory for the file is refused, and then writes nothing; with `WriteFailed` if a call of
/// `output` failed, before this call or in it. After such a call nothing more is written.
pub fn write_npy_in<A: NpyItem, S: Data<Elem = A>, D: Dimension, W: Write>(
    alloc: Global,
    output: &mut Watched<W>,
    item_type: ItemType,
    fortran_order: bool,
    array: &ArrayBase<S, D>,
) -> Result<(), WriteNpyError>
    requires { IsTrue (A.accepts item_type.kind) }
    ensures written { WritesFile W.contents output.old output.new
        (file_in A.NpyItem fortran_order item_type (meaning_of array.now)) result }
    ensures fits { OnOk result (All A.fits (listed_elements fortran_order (meaning_of array.now))) }
{
    match npy_bytes_in(alloc, item_type, fortran_order, array) {
        Ok(file) => write_whole(output, &file),
        Err(_) => Err(WriteNpyError::Memory),
    }
}

/// Writes the file of an array to `output`, in version 1.0 and with the least significant byte of each number first, and
/// flushes it once. The elements stand in Fortran's order where they lie so in memory (`lies_in_fortran_order`), and
/// otherwise in row-major order. The file is that of numpy's `save`, and of `write_npy` of ndarray-npy.
///
/// # Errors
///
/// Fails with `Memory` if memory for the file is refused, and then writes nothing; with `WriteFailed` if a call of
/// `output` failed, before this call or in it. After such a call nothing more is written.
pub fn write_npy<A: NpyNumber, S: Data<Elem = A>, D: Dimension, W: Write>(
    alloc: Global,
    output: &mut Watched<W>,
    array: &ArrayBase<S, D>,
) -> Result<(), WriteNpyError>
    ensures written { InItsOrder array.now (λ fortran_order. WritesFile W.contents output.old output.new
        (file_in A.NpyItem fortran_order (little_items A.kind) (meaning_of array.now)) result) }
    ensures fits { InItsOrder array.now (λ fortran_order. OnOk result
        (All A.fits (listed_elements fortran_order (meaning_of array.now)))) }
{
    let fortran_order = lies_in_fortran_order(array);
    write_npy_in(alloc, output, little_items(A::kind()), fortran_order, array)
}
