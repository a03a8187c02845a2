//! Tables of heads with what they say, and the checks that they are read and written so.

use nd_npy_text::reader::read_header;
use nd_npy_text::writer::header_bytes;
use nd_npy_text::{HeaderError, HeaderFlaw, ItemType};
use std::alloc::Global;

/// The bytes of a head, and what it says.
pub(crate) struct Head {
    /// The head up to its line feed, and one byte that follows it.
    pub(crate) file: &'static [u8],
    /// The type of the elements.
    pub(crate) item_type: ItemType,
    /// Whether the first axis runs fastest.
    pub(crate) fortran_order: bool,
    /// How many elements there are along each axis.
    pub(crate) shape: &'static [usize],
}

/// Returns whether the head is read as what it says, and the elements begin where the head ends. What follows the head
/// makes no difference.
fn is_read(alloc: Global, head: &Head) -> bool {
    match read_header(alloc, head.file) {
        Ok((header, start)) => {
            header.item_type == head.item_type
                && header.fortran_order == head.fortran_order
                && header.shape.as_slice() == head.shape
                && head.file.len().saturating_sub(start) == 1
        }
        Err(_) => false,
    }
}

/// Returns whether each head is read as what it says, and the elements begin where the head ends.
pub(crate) fn are_read(alloc: Global, table: &[Head]) -> bool {
    for head in table {
        if !is_read(alloc, head) {
            return false;
        }
    }
    true
}

/// Returns whether `header_bytes` writes the head from what it says.
fn is_written(alloc: Global, head: &Head) -> bool {
    if head.shape.len() > 32 {
        return false;
    }
    match header_bytes(alloc, head.item_type, head.fortran_order, head.shape) {
        Ok(mut written) => written.push(b'}').is_ok() && written.as_slice() == head.file,
        Err(_) => false,
    }
}

/// Returns whether `header_bytes` writes each head from what it says.
pub(crate) fn are_written(alloc: Global, table: &[Head]) -> bool {
    for head in table {
        if !is_written(alloc, head) {
            return false;
        }
    }
    true
}

/// Returns whether reading these bytes fails with this error.
fn is_refused(alloc: Global, bytes: &[u8], cause: HeaderError) -> bool {
    match read_header(alloc, bytes) {
        Ok(_) => false,
        Err(error) => error == cause,
    }
}

/// Returns whether reading each of these bytes fails with the error beside them.
pub(crate) fn are_refused(alloc: Global, table: &[(&[u8], HeaderError)]) -> bool {
    for (bytes, cause) in table {
        if !is_refused(alloc, bytes, *cause) {
            return false;
        }
    }
    true
}

/// Returns whether reading each of these bytes fails with `BadByte` of the byte and the flaw beside them.
pub(crate) fn have_flaws(alloc: Global, table: &[(&[u8], usize, HeaderFlaw)]) -> bool {
    for (bytes, byte, flaw) in table {
        let cause = HeaderError::BadByte {
            byte: *byte,
            flaw: *flaw,
        };
        if !is_refused(alloc, bytes, cause) {
            return false;
        }
    }
    true
}
