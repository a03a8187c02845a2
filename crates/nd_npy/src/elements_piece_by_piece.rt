//! The elements of a file as they come from a stream, piece by piece.

ghost use Rattle.std.specs.Prelude.{◌≡◌, ◌<◌, ◌≤◌, ◌+◌, ◌*◌, ◌^◌, false, true, length, take, drop, vec_len, [], OnOk, IfOk, IfErr, IfSome};
ghost use Rattle.std.specs.Io.KnownBytes.{IsAtEnd, Keeps};
ghost use Rattle.nd_text.specs.WatchedReadersAndWriters.{watched_inner, watched_failed};
ghost use Rattle.nd_npy_text.specs.HeaderReading.{is_cut_off};
ghost use Rattle.nd_npy.specs.StreamReadsAndWrites.{bytes_ahead, AnswersAsWatched, FailsToRead, ReadsPiece, TakesItems, GivesValues};
ghost use Rattle.nd_npy.specs.declared.errors.ReadNpyError.TheVariants.{WrongSize};
ghost use Rattle.nd_npy.specs.declared.errors.ReadNpyFromError.TheVariants.{File};

use crate::errors::{ReadNpyError, ReadNpyFromError};
use crate::item::NpyItem;
use crate::item_values::push_values;
use nd_npy_text::ByteOrder;
use nd_npy_text::reader::is_cut_off;
use nd_text::Watched;
use std::alloc::{AllocError, Global};
use std::io::Read;

/// How many bytes one read asks for, which is what a pipe holds.
pub(crate) const PIECE_LEN: usize = 65536;

/// Reads into `piece` once, and appends what was read to `pending`. Returns whether there was anything: otherwise the
/// input is at its end.
pub(crate) fn read_on<R: Read>(
    input: &mut Watched<R>,
    piece: &mut [u8; PIECE_LEN],
    pending: &mut Vec<u8>,
) -> Result<bool, ReadNpyFromError>
    requires fine { watched_failed input.old ≡ false }
    ensures reads { ReadsPiece R.remaining input.old input.new pending.old.items pending.new.items result }
    ensures watch { AnswersAsWatched input.old input.new result }
{
    match input.read(piece) {
        Ok(0) => Ok(false),
        Ok(count) => match pending.extend_from_slice(&piece[..count]) {
            Ok(()) => Ok(true),
            Err(_) => Err(ReadNpyFromError::File(ReadNpyError::Memory)),
        },
        Err(_) => Err(ReadNpyFromError::ReadFailed),
    }
}

/// Takes the first `count` bytes from the front of `bytes`.
pub(crate) fn drop_front(bytes: &mut Vec<u8>, count: usize)
    requires { count ≤ vec_len bytes.old }
    ensures bytes { bytes.new.items ≡ drop count bytes.old.items }
    ensures len { vec_len bytes.new + count ≡ vec_len bytes.old }
{
    let rest = bytes.len() - count;
    bytes.rotate_left(count);
    bytes.truncate(rest);
}

/// Reads bytes of the input until they aren't cut off inside the head at their front, or to the end of the input.
pub(crate) fn read_front<R: Read>(
    alloc: Global,
    input: &mut Watched<R>,
    piece: &mut [u8; PIECE_LEN],
) -> Result<Vec<u8>, ReadNpyFromError>
    requires fine { watched_failed input.old ≡ false }
    ensures front { IfOk result (λ v. Keeps (R.remaining (watched_inner input.old)) (bytes_ahead R.remaining v.items input.new) × (is_cut_off v.items ≡ true → IsAtEnd (R.remaining (watched_inner input.new)))) }
    ensures refused { IfErr result (λ e. FailsToRead e (IfSome (R.remaining (watched_inner input.old)) (λ xs. 0 < length xs))) }
    ensures watch { AnswersAsWatched input.old input.new result }
{
    let mut front = Vec::new(alloc);
    while is_cut_off(&front) {
        match read_on(input, piece, &mut front) {
            Ok(true) => {}
            Ok(false) => return Ok(front),
            Err(error) => return Err(error),
        }
    }
    Ok(front)
}

/// Takes the values of the whole items at the front of `pending`, which are of `size` bytes each, and puts them after
/// `values`, so that there are at most `count`.
fn take_items<A: NpyItem>(
    values: &mut Vec<A>,
    order: ByteOrder,
    size: usize,
    count: usize,
    pending: &mut Vec<u8>,
) -> Result<(), AllocError>
    requires size { size ≡ A.size }
    requires some { 0 < size }
    requires few { vec_len values.old ≤ count }
    ensures { OnOk result (TakesItems (A.value_of order) size count values.old.items values.new.items (vec_len values.old) (vec_len values.new) pending.old.items pending.new.items) }
{
    let wanted = (pending.len() / size).min(count - values.len());
    let taken = wanted * size;
    match values.reserve(wanted) {
        Ok(()) => {
            push_values(values, order, size, wanted, &pending[..taken]);
            drop_front(pending, taken);
            Ok(())
        }
        Err(error) => Err(error),
    }
}

/// Fails unless `taken` items of `size` bytes each and the `left` bytes that are left over are as many bytes as `count`
/// items take.
fn unless_wrong_size(
    taken: usize,
    size: usize,
    count: usize,
    left: usize,
) -> Result<(), ReadNpyFromError>
    requires fits { count * size < 2 ^ 63 }
    requires few { taken ≤ count }
    requires low { left < 2 ^ 63 }
    ensures whole { OnOk result (taken * size + left ≡ count * size) }
    ensures refused { IfErr result (λ e. e ≡ File (WrongSize (count * size) (taken * size + left))) }
    ensures differs { IfErr result (λ _. ¬ (taken * size + left ≡ count * size)) }
{
    let expected = count * size;
    let found = taken * size + left;
    if found != expected {
        return Err(ReadNpyFromError::File(ReadNpyError::WrongSize { expected, found }));
    }
    Ok(())
}

/// Puts the values of `count` items of `size` bytes each, which must be all that is ahead, into `values`, which has none
/// yet. Ahead are the bytes in `pending`, and those that the input has left. It reads the input to its end.
pub(crate) fn values_ahead<A: NpyItem, R: Read>(
    values: &mut Vec<A>,
    order: ByteOrder,
    size: usize,
    count: usize,
    pending: &mut Vec<u8>,
    input: &mut Watched<R>,
    piece: &mut [u8; PIECE_LEN],
) -> Result<(), ReadNpyFromError>
    requires fine { watched_failed input.old ≡ false }
    requires size { size ≡ A.size }
    requires some { 0 < size }
    requires fits { count * size < 2 ^ 63 }
    requires none { values.old.items ≡ [] }
    requires empty { vec_len values.old ≡ 0 }
    ensures read { IfSome (bytes_ahead R.remaining pending.old.items input.old) (λ bytes. GivesValues (A.value_of order) size count bytes values.new.items result) }
    ensures count { OnOk result (vec_len values.new ≡ count) }
    ensures watch { AnswersAsWatched input.old input.new result }
{
    loop {
        match take_items(values, order, size, count, pending) {
            Ok(()) => {}
            Err(_) => return Err(ReadNpyFromError::File(ReadNpyError::Memory)),
        }
        match read_on(input, piece, pending) {
            Ok(true) => {}
            Ok(false) => return unless_wrong_size(values.len(), size, count, pending.len()),
            Err(error) => return Err(error),
        }
    }
}
