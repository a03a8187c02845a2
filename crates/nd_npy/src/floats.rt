//! Floats as elements of a file. A NaN of any bits is read as a NaN, and written as the quiet one with a clear sign.

ghost use Rattle.std.specs.Prelude.{T, refl, to_bits, from_bits};
ghost use Rattle.std.specs.Int.{w32, w64};
ghost use Rattle.std.specs.Float.{binary32, binary64};
ghost use Rattle.std.specs.Float.Ieee;
ghost use Rattle.nd_npy_text.specs.declared.item_type.Kind.TheVariants as kinds;
ghost use Rattle.nd_npy.specs.ItemBytes.{is_kind, number_of_bytes, bytes_of_number};
ghost use Rattle.nd_npy.specs.ItemByteLaws.{size_is, float_whole_32, float_whole_64, float_back_32, float_back_64};

use crate::item::{NpyItem, NpyNumber};
use nd_npy_text::{ByteOrder, Kind};
use std::alloc::AllocError;
use std::num::{
    f32_from_bits_with_nan, f32_to_bits_with_nan, f64_from_bits_with_nan, f64_to_bits_with_nan,
};

impl NpyItem for f32 {
    ghost accepts = { λ kind. is_kind kinds.Float32 kind };

    ghost size = { 4 };

    ghost value_of = { λ order bytes. from_bits binary32 (number_of_bytes w32 order bytes) };

    ghost bytes_of = { λ order x. bytes_of_number w32 order (to_bits binary32 x) };

    ghost fits = { λ x. T (Ieee.fits binary32 x) };

    fn accepts(kind: Kind) -> bool {
        kind == Kind::Float32
    }

    fn from_bytes(order: ByteOrder, bytes: &[u8]) -> f32 {
        f32_from_bits_with_nan(u32::from_bytes(order, bytes))
    }

    fn append_to(self, order: ByteOrder, bytes: &mut Vec<u8>) -> Result<(), AllocError> {
        f32_to_bits_with_nan(self).append_to(order, bytes)
    }

    ghost sizes = { λ kind is. size_is kinds.Float32 kind is };

    ghost whole = { float_whole_32 };

    ghost reads_back = { float_back_32 };
}

impl NpyNumber for f32 {
    ghost kind = { kinds.Float32 };

    fn kind() -> Kind {
        Kind::Float32
    }

    ghost accepted = { refl };
}

impl NpyItem for f64 {
    ghost accepts = { λ kind. is_kind kinds.Float64 kind };

    ghost size = { 8 };

    ghost value_of = { λ order bytes. from_bits binary64 (number_of_bytes w64 order bytes) };

    ghost bytes_of = { λ order x. bytes_of_number w64 order (to_bits binary64 x) };

    ghost fits = { λ x. T (Ieee.fits binary64 x) };

    fn accepts(kind: Kind) -> bool {
        kind == Kind::Float64
    }

    fn from_bytes(order: ByteOrder, bytes: &[u8]) -> f64 {
        f64_from_bits_with_nan(u64::from_bytes(order, bytes))
    }

    fn append_to(self, order: ByteOrder, bytes: &mut Vec<u8>) -> Result<(), AllocError> {
        f64_to_bits_with_nan(self).append_to(order, bytes)
    }

    ghost sizes = { λ kind is. size_is kinds.Float64 kind is };

    ghost whole = { float_whole_64 };

    ghost reads_back = { float_back_64 };
}

impl NpyNumber for f64 {
    ghost kind = { kinds.Float64 };

    fn kind() -> Kind {
        Kind::Float64
    }

    ghost accepted = { refl };
}
