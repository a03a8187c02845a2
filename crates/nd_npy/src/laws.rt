//! Laws of files. Nothing here runs: each function's clause is a law.

ghost use Rattle.nd_npy.specs.ReadBackLaws.{ArraysReadBack, ArraysReadBackInOrder};

use crate::item::NpyItem;
use nd_npy_text::laws::headers_read_back;

/// The bytes of the file of an array are read as the array, if its elements are values of their type, as `npy_bytes`
/// says, and if items of this type are read as them.
pub fn arrays_read_back<A: NpyItem>()
    ensures { ArraysReadBack A.NpyItem }
{
    headers_read_back();
}

/// The bytes of the file that `npy_bytes_in` and the calls of `streams` write of an array, in Fortran's order or in
/// row-major order, are read as the array, if its elements are values of their type and items of this type are read as
/// them.
pub fn arrays_read_back_in_order<A: NpyItem>()
    ensures { ArraysReadBackInOrder A.NpyItem }
{
    headers_read_back();
}
