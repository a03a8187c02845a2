//! Truth values as elements of a file. A byte other than 0 is read as true, and true is written as 1.

ghost use Rattle.std.specs.Prelude.{⊤, refl};
ghost use Rattle.nd_npy_text.specs.declared.item_type.Kind.TheVariants as kinds;
ghost use Rattle.nd_npy.specs.ItemBytes.{is_kind, truth_of, byte_of_truth};
ghost use Rattle.nd_npy.specs.ItemByteLaws.{size_is, truth_whole, truth_back};

use crate::item::{NpyItem, NpyNumber};
use nd_npy_text::{ByteOrder, Kind};
use std::alloc::AllocError;

impl NpyItem for bool {
    ghost accepts = { λ kind. is_kind kinds.Bool kind };

    ghost size = { 1 };

    ghost value_of = { λ order bytes. truth_of bytes };

    ghost bytes_of = { λ order x. byte_of_truth x };

    ghost fits = { λ x. ⊤ };

    fn accepts(kind: Kind) -> bool {
        kind == Kind::Bool
    }

    fn from_bytes(_order: ByteOrder, bytes: &[u8]) -> bool {
        bytes[0] != 0
    }

    fn append_to(self, _order: ByteOrder, bytes: &mut Vec<u8>) -> Result<(), AllocError> {
        let byte = if self { 1 } else { 0 };
        bytes.extend_from_slice(&[byte])
    }

    ghost sizes = { λ kind is. size_is kinds.Bool kind is };

    ghost whole = { truth_whole };

    ghost reads_back = { truth_back };
}

impl NpyNumber for bool {
    ghost kind = { kinds.Bool };

    fn kind() -> Kind {
        Kind::Bool
    }

    ghost accepted = { refl };
}
