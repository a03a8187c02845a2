//! The checks that files, as numpy writes them, are read and written.

ghost use Rattle.nd_array_core.specs.Prelude.{EachCloneIsEqual};

use nd_array_core::ArrayD;
use nd_npy::reader::read_npy;
use nd_npy::writer::npy_bytes;
use nd_npy::{NpyItem, NpyNumber};
use std::alloc::Global;

/// Returns whether an array has this shape, and these elements in row-major order. A clone of an element must equal it.
pub(crate) fn shows<A: NpyItem + PartialEq>(
    alloc: Global,
    array: &ArrayD<A>,
    shape: &[usize],
    values: &[A],
) -> bool
    requires { EachCloneIsEqual A.is_clone }
{
    match array.to_vec(alloc) {
        Ok(items) => items.as_slice() == values && array.shape() == shape,
        Err(_) => false,
    }
}

/// Returns whether an array is written as these bytes.
pub(crate) fn writes<A: NpyNumber>(alloc: Global, array: &ArrayD<A>, bytes: &[u8]) -> bool {
    match npy_bytes(alloc, array) {
        Ok(written) => written.as_slice() == bytes,
        Err(_) => false,
    }
}

/// Returns whether a file is read as an array of this shape with these elements in row-major order, and the array is
/// written as the file `saved`.
pub(crate) fn is_kept<A: NpyNumber + PartialEq>(
    alloc: Global,
    file: &[u8],
    shape: &[usize],
    values: &[A],
    saved: &[u8],
) -> bool
    requires { EachCloneIsEqual A.is_clone }
{
    match read_npy(alloc, file) {
        Ok(array) => shows(alloc, &array, shape, values) && writes(alloc, &array, saved),
        Err(_) => false,
    }
}

/// Returns whether each file is read as these elements in two rows and three columns, and the array is written as the
/// first of the files.
pub(crate) fn are_kept<A: NpyNumber + PartialEq>(
    alloc: Global,
    values: &[A],
    files: &[&[u8]],
) -> bool
    requires { EachCloneIsEqual A.is_clone }
{
    let Some(saved) = files.first() else {
        return false;
    };
    for file in files {
        if !is_kept(alloc, file, &[2, 3], values, saved) {
            return false;
        }
    }
    true
}
