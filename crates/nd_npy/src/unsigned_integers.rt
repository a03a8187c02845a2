//! Unsigned integers as elements of a file.

ghost use Rattle.std.specs.Prelude.{◌<◌, ◌^◌, [], ◌∷◌, slice_index, refl};
ghost use Rattle.std.specs.Int.{w16, w32, w64};
ghost use Rattle.nd_npy_text.specs.declared.item_type.Kind.TheVariants as kinds;
ghost use Rattle.nd_npy.specs.ItemBytes.{is_kind, number_of_bytes, bytes_of_number};
ghost use Rattle.nd_npy.specs.ItemByteLaws.{size_is, unsigned_whole_16, unsigned_whole_32, unsigned_whole_64, unsigned_back_16, unsigned_back_32, unsigned_back_64};

use crate::item::{NpyItem, NpyNumber};
use crate::raw_items::item_of;
use nd_npy_text::{ByteOrder, Kind};
use std::alloc::AllocError;

impl NpyItem for u8 {
    ghost accepts = { λ kind. is_kind kinds.UInt8 kind };

    ghost size = { 1 };

    ghost value_of = { λ order bytes. slice_index bytes 0 };

    ghost bytes_of = { λ order x. x ∷ [] };

    ghost fits = { λ x. x < 2 ^ 8 };

    fn accepts(kind: Kind) -> bool {
        kind == Kind::UInt8
    }

    fn from_bytes(_order: ByteOrder, bytes: &[u8]) -> u8 {
        bytes[0]
    }

    fn append_to(self, _order: ByteOrder, bytes: &mut Vec<u8>) -> Result<(), AllocError> {
        bytes.extend_from_slice(&[self])
    }

    ghost sizes = { λ kind is. size_is kinds.UInt8 kind is };

    ghost whole = { λ order x fits. refl };

    ghost reads_back = { λ order x fits. refl };
}

impl NpyNumber for u8 {
    ghost kind = { kinds.UInt8 };

    fn kind() -> Kind {
        Kind::UInt8
    }

    ghost accepted = { refl };
}

impl NpyItem for u16 {
    ghost accepts = { λ kind. is_kind kinds.UInt16 kind };

    ghost size = { 2 };

    ghost value_of = { number_of_bytes w16 };

    ghost bytes_of = { bytes_of_number w16 };

    ghost fits = { λ x. x < 2 ^ 16 };

    fn accepts(kind: Kind) -> bool {
        kind == Kind::UInt16
    }

    fn from_bytes(order: ByteOrder, bytes: &[u8]) -> u16 {
        let item = item_of::<2>(bytes);
        match order {
            ByteOrder::Big => u16::from_be_bytes(item),
            _ => u16::from_le_bytes(item),
        }
    }

    fn append_to(self, order: ByteOrder, bytes: &mut Vec<u8>) -> Result<(), AllocError> {
        let item = match order {
            ByteOrder::Big => self.to_be_bytes(),
            _ => self.to_le_bytes(),
        };
        bytes.extend_from_slice(&item)
    }

    ghost sizes = { λ kind is. size_is kinds.UInt16 kind is };

    ghost whole = { unsigned_whole_16 };

    ghost reads_back = { unsigned_back_16 };
}

impl NpyNumber for u16 {
    ghost kind = { kinds.UInt16 };

    fn kind() -> Kind {
        Kind::UInt16
    }

    ghost accepted = { refl };
}

impl NpyItem for u32 {
    ghost accepts = { λ kind. is_kind kinds.UInt32 kind };

    ghost size = { 4 };

    ghost value_of = { number_of_bytes w32 };

    ghost bytes_of = { bytes_of_number w32 };

    ghost fits = { λ x. x < 2 ^ 32 };

    fn accepts(kind: Kind) -> bool {
        kind == Kind::UInt32
    }

    fn from_bytes(order: ByteOrder, bytes: &[u8]) -> u32 {
        let item = item_of::<4>(bytes);
        match order {
            ByteOrder::Big => u32::from_be_bytes(item),
            _ => u32::from_le_bytes(item),
        }
    }

    fn append_to(self, order: ByteOrder, bytes: &mut Vec<u8>) -> Result<(), AllocError> {
        let item = match order {
            ByteOrder::Big => self.to_be_bytes(),
            _ => self.to_le_bytes(),
        };
        bytes.extend_from_slice(&item)
    }

    ghost sizes = { λ kind is. size_is kinds.UInt32 kind is };

    ghost whole = { unsigned_whole_32 };

    ghost reads_back = { unsigned_back_32 };
}

impl NpyNumber for u32 {
    ghost kind = { kinds.UInt32 };

    fn kind() -> Kind {
        Kind::UInt32
    }

    ghost accepted = { refl };
}

impl NpyItem for u64 {
    ghost accepts = { λ kind. is_kind kinds.UInt64 kind };

    ghost size = { 8 };

    ghost value_of = { number_of_bytes w64 };

    ghost bytes_of = { bytes_of_number w64 };

    ghost fits = { λ x. x < 2 ^ 64 };

    fn accepts(kind: Kind) -> bool {
        kind == Kind::UInt64
    }

    fn from_bytes(order: ByteOrder, bytes: &[u8]) -> u64 {
        let item = item_of::<8>(bytes);
        match order {
            ByteOrder::Big => u64::from_be_bytes(item),
            _ => u64::from_le_bytes(item),
        }
    }

    fn append_to(self, order: ByteOrder, bytes: &mut Vec<u8>) -> Result<(), AllocError> {
        let item = match order {
            ByteOrder::Big => self.to_be_bytes(),
            _ => self.to_le_bytes(),
        };
        bytes.extend_from_slice(&item)
    }

    ghost sizes = { λ kind is. size_is kinds.UInt64 kind is };

    ghost whole = { unsigned_whole_64 };

    ghost reads_back = { unsigned_back_64 };
}

impl NpyNumber for u64 {
    ghost kind = { kinds.UInt64 };

    fn kind() -> Kind {
        Kind::UInt64
    }

    ghost accepted = { refl };
}
