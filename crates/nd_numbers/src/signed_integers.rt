//! The arithmetic of signed integers, which wraps.

ghost use Rattle.std.specs.Prelude.{◌≡◌, ◌%◌, ◌^◌, pos, not};
ghost use Rattle.std.specs.Ordering.{int_eq};
ghost use Rattle.std.specs.Int.{w8, w16, w32, w64, w128, cast_signed, int_wrapping_add, int_wrapping_sub, int_wrapping_mul, int_wrapping_neg};
ghost use Rattle.nd_numbers.specs.Quotients.{wrapped_quotient_or_zero};

use crate::arithmetic::Arithmetic;

impl Arithmetic for i8 {
    ghost plus = { int_wrapping_add w8 };

    ghost minus = { int_wrapping_sub w8 };

    ghost times = { int_wrapping_mul w8 };

    ghost over = { wrapped_quotient_or_zero w8 };

    ghost negated = { int_wrapping_neg w8 };

    ghost of_count = { λ count. cast_signed w8 (count % 2 ^ 8) };

    ghost is_divisor = { λ x. not (int_eq x (pos 0)) };

    #[inline]
    fn plus(self, x: i8) -> i8 {
        self.wrapping_add(x)
    }

    #[inline]
    fn minus(self, x: i8) -> i8 {
        self.wrapping_sub(x)
    }

    #[inline]
    fn times(self, x: i8) -> i8 {
        self.wrapping_mul(x)
    }

    #[inline]
    fn over(self, x: i8) -> i8 {
        if x == 0 { 0 } else { self.wrapping_div(x) }
    }

    #[inline]
    fn negated(self) -> i8 {
        self.wrapping_neg()
    }

    #[inline]
    fn of_count(count: usize) -> i8 {
        ((count % 256) as u8).cast_signed()
    }

    #[inline]
    fn is_divisor(self) -> bool {
        self != 0
    }

    ghost clone_law = { λ x copy same. same };
}

impl Arithmetic for i16 {
    ghost plus = { int_wrapping_add w16 };

    ghost minus = { int_wrapping_sub w16 };

    ghost times = { int_wrapping_mul w16 };

    ghost over = { wrapped_quotient_or_zero w16 };

    ghost negated = { int_wrapping_neg w16 };

    ghost of_count = { λ count. cast_signed w16 (count % 2 ^ 16) };

    ghost is_divisor = { λ x. not (int_eq x (pos 0)) };

    #[inline]
    fn plus(self, x: i16) -> i16 {
        self.wrapping_add(x)
    }

    #[inline]
    fn minus(self, x: i16) -> i16 {
        self.wrapping_sub(x)
    }

    #[inline]
    fn times(self, x: i16) -> i16 {
        self.wrapping_mul(x)
    }

    #[inline]
    fn over(self, x: i16) -> i16 {
        if x == 0 { 0 } else { self.wrapping_div(x) }
    }

    #[inline]
    fn negated(self) -> i16 {
        self.wrapping_neg()
    }

    #[inline]
    fn of_count(count: usize) -> i16 {
        ((count % 65536) as u16).cast_signed()
    }

    #[inline]
    fn is_divisor(self) -> bool {
        self != 0
    }

    ghost clone_law = { λ x copy same. same };
}

impl Arithmetic for i32 {
    ghost plus = { int_wrapping_add w32 };

    ghost minus = { int_wrapping_sub w32 };

    ghost times = { int_wrapping_mul w32 };

    ghost over = { wrapped_quotient_or_zero w32 };

    ghost negated = { int_wrapping_neg w32 };

    ghost of_count = { λ count. cast_signed w32 (count % 2 ^ 32) };

    ghost is_divisor = { λ x. not (int_eq x (pos 0)) };

    #[inline]
    fn plus(self, x: i32) -> i32 {
        self.wrapping_add(x)
    }

    #[inline]
    fn minus(self, x: i32) -> i32 {
        self.wrapping_sub(x)
    }

    #[inline]
    fn times(self, x: i32) -> i32 {
        self.wrapping_mul(x)
    }

    #[inline]
    fn over(self, x: i32) -> i32 {
        if x == 0 { 0 } else { self.wrapping_div(x) }
    }

    #[inline]
    fn negated(self) -> i32 {
        self.wrapping_neg()
    }

    #[inline]
    fn of_count(count: usize) -> i32 {
        ((count % 4294967296) as u32).cast_signed()
    }

    #[inline]
    fn is_divisor(self) -> bool {
        self != 0
    }

    ghost clone_law = { λ x copy same. same };
}

impl Arithmetic for i64 {
    ghost plus = { int_wrapping_add w64 };

    ghost minus = { int_wrapping_sub w64 };

    ghost times = { int_wrapping_mul w64 };

    ghost over = { wrapped_quotient_or_zero w64 };

    ghost negated = { int_wrapping_neg w64 };

    ghost of_count = { λ count. cast_signed w64 count };

    ghost is_divisor = { λ x. not (int_eq x (pos 0)) };

    #[inline]
    fn plus(self, x: i64) -> i64 {
        self.wrapping_add(x)
    }

    #[inline]
    fn minus(self, x: i64) -> i64 {
        self.wrapping_sub(x)
    }

    #[inline]
    fn times(self, x: i64) -> i64 {
        self.wrapping_mul(x)
    }

    #[inline]
    fn over(self, x: i64) -> i64 {
        if x == 0 { 0 } else { self.wrapping_div(x) }
    }

    #[inline]
    fn negated(self) -> i64 {
        self.wrapping_neg()
    }

    #[inline]
    fn of_count(count: usize) -> i64 {
        (count as u64).cast_signed()
    }

    #[inline]
    fn is_divisor(self) -> bool {
        self != 0
    }

    ghost clone_law = { λ x copy same. same };
}

impl Arithmetic for i128 {
    ghost plus = { int_wrapping_add w128 };

    ghost minus = { int_wrapping_sub w128 };

    ghost times = { int_wrapping_mul w128 };

    ghost over = { wrapped_quotient_or_zero w128 };

    ghost negated = { int_wrapping_neg w128 };

    ghost of_count = { λ count. pos count };

    ghost is_divisor = { λ x. not (int_eq x (pos 0)) };

    #[inline]
    fn plus(self, x: i128) -> i128 {
        self.wrapping_add(x)
    }

    #[inline]
    fn minus(self, x: i128) -> i128 {
        self.wrapping_sub(x)
    }

    #[inline]
    fn times(self, x: i128) -> i128 {
        self.wrapping_mul(x)
    }

    #[inline]
    fn over(self, x: i128) -> i128 {
        if x == 0 { 0 } else { self.wrapping_div(x) }
    }

    #[inline]
    fn negated(self) -> i128 {
        self.wrapping_neg()
    }

    #[inline]
    fn of_count(count: usize) -> i128 {
        count as i128
    }

    #[inline]
    fn is_divisor(self) -> bool {
        self != 0
    }

    ghost clone_law = { λ x copy same. same };
}

impl Arithmetic for isize {
    ghost plus = { int_wrapping_add w64 };

    ghost minus = { int_wrapping_sub w64 };

    ghost times = { int_wrapping_mul w64 };

    ghost over = { wrapped_quotient_or_zero w64 };

    ghost negated = { int_wrapping_neg w64 };

    ghost of_count = { λ count. cast_signed w64 count };

    ghost is_divisor = { λ x. not (int_eq x (pos 0)) };

    #[inline]
    fn plus(self, x: isize) -> isize {
        self.wrapping_add(x)
    }

    #[inline]
    fn minus(self, x: isize) -> isize {
        self.wrapping_sub(x)
    }

    #[inline]
    fn times(self, x: isize) -> isize {
        self.wrapping_mul(x)
    }

    #[inline]
    fn over(self, x: isize) -> isize {
        if x == 0 { 0 } else { self.wrapping_div(x) }
    }

    #[inline]
    fn negated(self) -> isize {
        self.wrapping_neg()
    }

    #[inline]
    fn of_count(count: usize) -> isize {
        count.cast_signed()
    }

    #[inline]
    fn is_divisor(self) -> bool {
        self != 0
    }

    ghost clone_law = { λ x copy same. same };
}
