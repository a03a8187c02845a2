//! Reading a head.

ghost use Rattle.std.specs.Prelude.{◌≡◌, ◌*◌, ◌^◌, ◌<◌, ◌≤◌, length, IsTrue, IfOk, OnErr, Err, SomeIff};
ghost use Rattle.nd_npy_text.specs.HeaderDescription.{description_of, factor_of, fits_memory, IsWholeHeader};
ghost use Rattle.nd_npy_text.specs.ItemTypes.{kind_size};
ghost use Rattle.nd_npy_text.specs.HeaderReading.{ReadsHeaderAs, unless_too_large, npy_header_in, HasLengths, is_cut_off};
ghost use Rattle.nd_npy_text.specs.DictEntries.{listed, dict_of};
ghost use Rattle.nd_npy_text.specs.declared.errors.HeaderError.TheVariants.{Memory};

use crate::dict::{Dict, dict_in};
use crate::errors::HeaderError;
use crate::header::Header;
use crate::header_opening::opening_in;
use std::alloc::{AllocError, Global};

/// The largest number of bytes that an array can take: `isize::MAX`.
const LIMIT: usize = isize::MAX as usize;

/// Returns `product` times `length`, where a length of 0 counts as 1, if the result is at most `isize::MAX`.
fn times(product: usize, length: usize) -> Option<usize>
    requires { 0 < product }
    ensures { SomeIff result (product * factor_of length < 2 ^ 63) (product * factor_of length) }
{
    match product.checked_mul(length.max(1)) {
        Some(larger) if larger <= LIMIT => Some(larger),
        _ => None,
    }
}

/// Returns whether the product of the lengths that aren't 0, times the `size` bytes of an element, is at most
/// `isize::MAX`.
fn fits_memory(size: usize, shape: &[usize]) -> bool
    requires some { 0 < size }
    requires few { size ≤ 16 }
    ensures { result ≡ fits_memory size shape.now }
{
    let mut product = size;
    for length in shape {
        match times(product, *length) {
            Some(larger) => product = larger,
            None => return false,
        }
    }
    true
}

/// Returns a copy of the lengths as a vector. This can fail only if there is at least one length.
fn owned(alloc: Global, lengths: &[usize]) -> Result<Vec<usize>, AllocError>
    ensures items { IfOk result (λ v. v.items ≡ lengths.now) }
    ensures memory { OnErr result (0 < length lengths.now) }
{
    let mut owned = Vec::new(alloc);
    match owned.extend_from_slice(lengths) {
        Ok(()) => Ok(owned),
        Err(error) => Err(error),
    }
}

/// Returns the header that a dict describes. Fails with `TooLarge` if its elements don't fit in memory, or else with
/// `Memory` if memory for the lengths is refused.
fn header_of(alloc: Global, dict: &Dict) -> Result<Header, HeaderError>
    ensures read { ReadsHeaderAs description_of result (unless_too_large (dict_of dict.now)) }
    ensures memory { result ≡ Err Memory → IsTrue (fits_memory (kind_size dict.now.item_type.kind) (listed dict.now.shape)) × (0 < length (listed dict.now.shape)) }
{
    if !fits_memory(dict.item_type.size(), dict.shape.as_slice()) {
        return Err(HeaderError::TooLarge);
    }
    match owned(alloc, dict.shape.as_slice()) {
        Ok(shape) => Ok(Header {
            item_type: dict.item_type,
            fortran_order: dict.fortran_order,
            shape,
        }),
        Err(_) => Err(HeaderError::Memory),
    }
}

/// Returns what the head at the front of a file says, and at which byte the elements begin.
///
/// # Errors
///
/// Fails with the first cause in this order: `NoMagic` if the bytes don't begin with the byte 0x93 and `NUMPY`;
/// `TooShort` if they end before the version does; `UnknownVersion` if the version isn't 1.0, 2.0 or 3.0; `TooShort` if
/// the bytes end before the dict does; `BadByte` with the first byte at which the dict can't be read; `TooLarge` if the
/// product of the lengths that aren't 0, times the bytes that an element takes, is larger than `isize::MAX`; `Memory`
/// if memory for the lengths is refused.
#[tactic(auto, unfolding(crate::specs::HeaderReading::npy_header_in))]
pub fn read_header(alloc: Global, bytes: &[u8]) -> Result<(Header, usize), HeaderError>
    ensures read { ReadsHeaderAs (λ x. (description_of x.0, x.1)) result (npy_header_in bytes.now) }
    ensures memory { result ≡ Err Memory → HasLengths bytes.now }
    ensures whole { IfOk result (λ x. IsWholeHeader (description_of x.0)) }
    ensures inside { IfOk result (λ x. x.1 ≤ length bytes.now) }
{
    match opening_in(bytes) {
        Ok((end, text)) => match dict_in(text) {
            Ok(dict) => match header_of(alloc, &dict) {
                Ok(header) => Ok((header, end)),
                Err(error) => Err(error),
            },
            Err((left, flaw)) => Err(HeaderError::BadByte {
                byte: end.saturating_sub(left),
                flaw,
            }),
        },
        Err(error) => Err(error),
    }
}

/// How many bytes the magic bytes are.
const MAGIC_LEN: usize = 6;

/// Returns whether the bytes are cut off inside the head at their front: more bytes may then change what `read_header`
/// gives, and otherwise they can't. A caller that reads a file piece by piece asks this before it reads the head.
pub fn is_cut_off(bytes: &[u8]) -> bool
    ensures { result ≡ is_cut_off bytes.now }
{
    if bytes.len() < MAGIC_LEN {
        return true;
    }
    match opening_in(bytes) {
        Ok(_) => false,
        Err(error) => error == HeaderError::TooShort,
    }
}
