//! Integers whose sums are computed exactly before they are converted back to their type.

ghost use Rattle.std.specs.Prelude.{◌≡◌, ◌+ℤ◌, ◌≤ℤ◌, ◌^◌, ℤ, pos, FitsSigned, unsigned_abs};
ghost use Rattle.std.specs.Int.{w8, w16, w32, w64, FitsUnsignedBits};
ghost use Rattle.std.specs.Option.{SomeIff};

/// An integer of at most 64 bits. As an `i128` as many of them as an array can have are added without a wrap, and then
/// the sum fits the type or it doesn't.
pub trait Whole: Copy + Drop {
    ghost value: { Self → ℤ };

    ghost in_range: { ℤ → Type 0 };

    ghost of_value: { ℤ → Self };

    /// Returns the number as an `i128`.
    fn widened(self) -> i128
        ensures value { result ≡ value self }
        ensures most { result ≤ℤ pos (2 ^ 64) }
        ensures least { pos 0 ≤ℤ (result +ℤ pos (2 ^ 64)) };

    /// Returns the number `wide` in this type, or `None` exactly if it doesn't fit the type.
    fn narrowed(wide: i128) -> Option<Self>
        ensures { SomeIff result (in_range wide) (of_value wide) };
}

impl Whole for i8 {
    ghost value = { λ x. x };

    ghost in_range = { FitsSigned w8 };

    ghost of_value = { λ x. x };

    #[inline]
    fn widened(self) -> i128 {
        self as i128
    }

    #[inline]
    fn narrowed(wide: i128) -> Option<i8> {
        if -128 <= wide && wide <= 127 {
            Some(wide as i8)
        } else {
            None
        }
    }
}

impl Whole for i16 {
    ghost value = { λ x. x };

    ghost in_range = { FitsSigned w16 };

    ghost of_value = { λ x. x };

    #[inline]
    fn widened(self) -> i128 {
        self as i128
    }

    #[inline]
    fn narrowed(wide: i128) -> Option<i16> {
        if -32768 <= wide && wide <= 32767 {
            Some(wide as i16)
        } else {
            None
        }
    }
}

impl Whole for i32 {
    ghost value = { λ x. x };

    ghost in_range = { FitsSigned w32 };

    ghost of_value = { λ x. x };

    #[inline]
    fn widened(self) -> i128 {
        self as i128
    }

    #[inline]
    fn narrowed(wide: i128) -> Option<i32> {
        if -2147483648 <= wide && wide <= 2147483647 {
            Some(wide as i32)
        } else {
            None
        }
    }
}

impl Whole for i64 {
    ghost value = { λ x. x };

    ghost in_range = { FitsSigned w64 };

    ghost of_value = { λ x. x };

    #[inline]
    fn widened(self) -> i128 {
        self as i128
    }

    #[inline]
    fn narrowed(wide: i128) -> Option<i64> {
        if -9223372036854775808 <= wide && wide <= 9223372036854775807 {
            Some(wide as i64)
        } else {
            None
        }
    }
}

impl Whole for isize {
    ghost value = { λ x. x };

    ghost in_range = { FitsSigned w64 };

    ghost of_value = { λ x. x };

    #[inline]
    fn widened(self) -> i128 {
        self as i128
    }

    #[inline]
    fn narrowed(wide: i128) -> Option<isize> {
        if -9223372036854775808 <= wide && wide <= 9223372036854775807 {
            Some(wide as isize)
        } else {
            None
        }
    }
}

impl Whole for u8 {
    ghost value = { pos };

    ghost in_range = { FitsUnsignedBits 8 };

    ghost of_value = { unsigned_abs };

    #[inline]
    fn widened(self) -> i128 {
        self as i128
    }

    #[inline]
    fn narrowed(wide: i128) -> Option<u8> {
        if 0 <= wide && wide <= 255 {
            Some(wide as u8)
        } else {
            None
        }
    }
}

impl Whole for u16 {
    ghost value = { pos };

    ghost in_range = { FitsUnsignedBits 16 };

    ghost of_value = { unsigned_abs };

    #[inline]
    fn widened(self) -> i128 {
        self as i128
    }

    #[inline]
    fn narrowed(wide: i128) -> Option<u16> {
        if 0 <= wide && wide <= 65535 {
            Some(wide as u16)
        } else {
            None
        }
    }
}

impl Whole for u32 {
    ghost value = { pos };

    ghost in_range = { FitsUnsignedBits 32 };

    ghost of_value = { unsigned_abs };

    #[inline]
    fn widened(self) -> i128 {
        self as i128
    }

    #[inline]
    fn narrowed(wide: i128) -> Option<u32> {
        if 0 <= wide && wide <= 4294967295 {
            Some(wide as u32)
        } else {
            None
        }
    }
}

impl Whole for u64 {
    ghost value = { pos };

    ghost in_range = { FitsUnsignedBits 64 };

    ghost of_value = { unsigned_abs };

    #[inline]
    fn widened(self) -> i128 {
        self as i128
    }

    #[inline]
    fn narrowed(wide: i128) -> Option<u64> {
        if 0 <= wide && wide <= 18446744073709551615 {
            Some(wide as u64)
        } else {
            None
        }
    }
}

impl Whole for usize {
    ghost value = { pos };

    ghost in_range = { FitsUnsignedBits 64 };

    ghost of_value = { unsigned_abs };

    #[inline]
    fn widened(self) -> i128 {
        self as i128
    }

    #[inline]
    fn narrowed(wide: i128) -> Option<usize> {
        if 0 <= wide && wide <= 18446744073709551615 {
            Some(wide as usize)
        } else {
            None
        }
    }
}
