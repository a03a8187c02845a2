//! Signed integers as elements of a file.

ghost use Rattle.std.specs.Prelude.{[], ◌∷◌, slice_index, refl, FitsSigned};
ghost use Rattle.std.specs.Int.{w8, w16, w32, w64, cast_signed, cast_unsigned};
ghost use Rattle.std.proofs.lemmas.Int.{to_z-of_z};
ghost use Rattle.nd_npy_text.specs.declared.item_type.Kind.TheVariants as kinds;
ghost use Rattle.nd_npy.specs.ItemBytes.{is_kind, number_of_bytes, bytes_of_number};
ghost use Rattle.nd_npy.specs.ItemByteLaws.{size_is, signed_whole_16, signed_whole_32, signed_whole_64, signed_back_16, signed_back_32, signed_back_64};

use crate::item::{NpyItem, NpyNumber};
use nd_npy_text::{ByteOrder, Kind};
use std::alloc::AllocError;

impl NpyItem for i8 {
    ghost accepts = { λ kind. is_kind kinds.Int8 kind };

    ghost size = { 1 };

    ghost value_of = { λ order bytes. cast_signed w8 (slice_index bytes 0) };

    ghost bytes_of = { λ order x. cast_unsigned w8 x ∷ [] };

    ghost fits = { FitsSigned w8 };

    fn accepts(kind: Kind) -> bool {
        kind == Kind::Int8
    }

    fn from_bytes(_order: ByteOrder, bytes: &[u8]) -> i8 {
        bytes[0].cast_signed()
    }

    fn append_to(self, _order: ByteOrder, bytes: &mut Vec<u8>) -> Result<(), AllocError> {
        bytes.extend_from_slice(&[self.cast_unsigned()])
    }

    ghost sizes = { λ kind is. size_is kinds.Int8 kind is };

    ghost whole = { λ order x fits. refl };

    ghost reads_back = { λ order x fits. to_z-of_z w8 x fits };
}

impl NpyNumber for i8 {
    ghost kind = { kinds.Int8 };

    fn kind() -> Kind {
        Kind::Int8
    }

    ghost accepted = { refl };
}

impl NpyItem for i16 {
    ghost accepts = { λ kind. is_kind kinds.Int16 kind };

    ghost size = { 2 };

    ghost value_of = { λ order bytes. cast_signed w16 (number_of_bytes w16 order bytes) };

    ghost bytes_of = { λ order x. bytes_of_number w16 order (cast_unsigned w16 x) };

    ghost fits = { FitsSigned w16 };

    fn accepts(kind: Kind) -> bool {
        kind == Kind::Int16
    }

    fn from_bytes(order: ByteOrder, bytes: &[u8]) -> i16 {
        u16::from_bytes(order, bytes).cast_signed()
    }

    fn append_to(self, order: ByteOrder, bytes: &mut Vec<u8>) -> Result<(), AllocError> {
        self.cast_unsigned().append_to(order, bytes)
    }

    ghost sizes = { λ kind is. size_is kinds.Int16 kind is };

    ghost whole = { signed_whole_16 };

    ghost reads_back = { signed_back_16 };
}

impl NpyNumber for i16 {
    ghost kind = { kinds.Int16 };

    fn kind() -> Kind {
        Kind::Int16
    }

    ghost accepted = { refl };
}

impl NpyItem for i32 {
    ghost accepts = { λ kind. is_kind kinds.Int32 kind };

    ghost size = { 4 };

    ghost value_of = { λ order bytes. cast_signed w32 (number_of_bytes w32 order bytes) };

    ghost bytes_of = { λ order x. bytes_of_number w32 order (cast_unsigned w32 x) };

    ghost fits = { FitsSigned w32 };

    fn accepts(kind: Kind) -> bool {
        kind == Kind::Int32
    }

    fn from_bytes(order: ByteOrder, bytes: &[u8]) -> i32 {
        u32::from_bytes(order, bytes).cast_signed()
    }

    fn append_to(self, order: ByteOrder, bytes: &mut Vec<u8>) -> Result<(), AllocError> {
        self.cast_unsigned().append_to(order, bytes)
    }

    ghost sizes = { λ kind is. size_is kinds.Int32 kind is };

    ghost whole = { signed_whole_32 };

    ghost reads_back = { signed_back_32 };
}

impl NpyNumber for i32 {
    ghost kind = { kinds.Int32 };

    fn kind() -> Kind {
        Kind::Int32
    }

    ghost accepted = { refl };
}

impl NpyItem for i64 {
    ghost accepts = { λ kind. is_kind kinds.Int64 kind };

    ghost size = { 8 };

    ghost value_of = { λ order bytes. cast_signed w64 (number_of_bytes w64 order bytes) };

    ghost bytes_of = { λ order x. bytes_of_number w64 order (cast_unsigned w64 x) };

    ghost fits = { FitsSigned w64 };

    fn accepts(kind: Kind) -> bool {
        kind == Kind::Int64
    }

    fn from_bytes(order: ByteOrder, bytes: &[u8]) -> i64 {
        u64::from_bytes(order, bytes).cast_signed()
    }

    fn append_to(self, order: ByteOrder, bytes: &mut Vec<u8>) -> Result<(), AllocError> {
        self.cast_unsigned().append_to(order, bytes)
    }

    ghost sizes = { λ kind is. size_is kinds.Int64 kind is };

    ghost whole = { signed_whole_64 };

    ghost reads_back = { signed_back_64 };
}

impl NpyNumber for i64 {
    ghost kind = { kinds.Int64 };

    fn kind() -> Kind {
        Kind::Int64
    }

    ghost accepted = { refl };
}
