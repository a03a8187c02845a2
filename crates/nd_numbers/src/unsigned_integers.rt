//! The arithmetic of unsigned integers, which wraps.

ghost use Rattle.std.specs.Prelude.{◌≡◌, ◌+◌, ◌-◌, ◌*◌, ◌%◌, ◌^◌, nat_eq, not};
ghost use Rattle.nd_numbers.specs.Quotients.{quotient_or_zero};

use crate::arithmetic::Arithmetic;

impl Arithmetic for u8 {
    ghost plus = { λ x y. (x + y) % 2 ^ 8 };

    ghost minus = { λ x y. (x + (2 ^ 8 - y)) % 2 ^ 8 };

    ghost times = { λ x y. (x * y) % 2 ^ 8 };

    ghost over = { quotient_or_zero };

    ghost negated = { λ x. (0 + (2 ^ 8 - x)) % 2 ^ 8 };

    ghost of_count = { λ count. count % 2 ^ 8 };

    ghost is_divisor = { λ x. not (nat_eq x 0) };

    #[inline]
    fn plus(self, x: u8) -> u8 {
        self.wrapping_add(x)
    }

    #[inline]
    fn minus(self, x: u8) -> u8 {
        self.wrapping_sub(x)
    }

    #[inline]
    fn times(self, x: u8) -> u8 {
        self.wrapping_mul(x)
    }

    #[inline]
    fn over(self, x: u8) -> u8 {
        if x == 0 { 0 } else { self / x }
    }

    #[inline]
    fn negated(self) -> u8 {
        (0 as u8).wrapping_sub(self)
    }

    #[inline]
    fn of_count(count: usize) -> u8 {
        (count % 256) as u8
    }

    #[inline]
    fn is_divisor(self) -> bool {
        self != 0
    }

    ghost clone_law = { λ x copy same. same };
}

impl Arithmetic for u16 {
    ghost plus = { λ x y. (x + y) % 2 ^ 16 };

    ghost minus = { λ x y. (x + (2 ^ 16 - y)) % 2 ^ 16 };

    ghost times = { λ x y. (x * y) % 2 ^ 16 };

    ghost over = { quotient_or_zero };

    ghost negated = { λ x. (0 + (2 ^ 16 - x)) % 2 ^ 16 };

    ghost of_count = { λ count. count % 2 ^ 16 };

    ghost is_divisor = { λ x. not (nat_eq x 0) };

    #[inline]
    fn plus(self, x: u16) -> u16 {
        self.wrapping_add(x)
    }

    #[inline]
    fn minus(self, x: u16) -> u16 {
        self.wrapping_sub(x)
    }

    #[inline]
    fn times(self, x: u16) -> u16 {
        self.wrapping_mul(x)
    }

    #[inline]
    fn over(self, x: u16) -> u16 {
        if x == 0 { 0 } else { self / x }
    }

    #[inline]
    fn negated(self) -> u16 {
        (0 as u16).wrapping_sub(self)
    }

    #[inline]
    fn of_count(count: usize) -> u16 {
        (count % 65536) as u16
    }

    #[inline]
    fn is_divisor(self) -> bool {
        self != 0
    }

    ghost clone_law = { λ x copy same. same };
}

impl Arithmetic for u32 {
    ghost plus = { λ x y. (x + y) % 2 ^ 32 };

    ghost minus = { λ x y. (x + (2 ^ 32 - y)) % 2 ^ 32 };

    ghost times = { λ x y. (x * y) % 2 ^ 32 };

    ghost over = { quotient_or_zero };

    ghost negated = { λ x. (0 + (2 ^ 32 - x)) % 2 ^ 32 };

    ghost of_count = { λ count. count % 2 ^ 32 };

    ghost is_divisor = { λ x. not (nat_eq x 0) };

    #[inline]
    fn plus(self, x: u32) -> u32 {
        self.wrapping_add(x)
    }

    #[inline]
    fn minus(self, x: u32) -> u32 {
        self.wrapping_sub(x)
    }

    #[inline]
    fn times(self, x: u32) -> u32 {
        self.wrapping_mul(x)
    }

    #[inline]
    fn over(self, x: u32) -> u32 {
        if x == 0 { 0 } else { self / x }
    }

    #[inline]
    fn negated(self) -> u32 {
        (0 as u32).wrapping_sub(self)
    }

    #[inline]
    fn of_count(count: usize) -> u32 {
        (count % 4294967296) as u32
    }

    #[inline]
    fn is_divisor(self) -> bool {
        self != 0
    }

    ghost clone_law = { λ x copy same. same };
}

impl Arithmetic for u64 {
    ghost plus = { λ x y. (x + y) % 2 ^ 64 };

    ghost minus = { λ x y. (x + (2 ^ 64 - y)) % 2 ^ 64 };

    ghost times = { λ x y. (x * y) % 2 ^ 64 };

    ghost over = { quotient_or_zero };

    ghost negated = { λ x. (0 + (2 ^ 64 - x)) % 2 ^ 64 };

    ghost of_count = { λ count. count };

    ghost is_divisor = { λ x. not (nat_eq x 0) };

    #[inline]
    fn plus(self, x: u64) -> u64 {
        self.wrapping_add(x)
    }

    #[inline]
    fn minus(self, x: u64) -> u64 {
        self.wrapping_sub(x)
    }

    #[inline]
    fn times(self, x: u64) -> u64 {
        self.wrapping_mul(x)
    }

    #[inline]
    fn over(self, x: u64) -> u64 {
        if x == 0 { 0 } else { self / x }
    }

    #[inline]
    fn negated(self) -> u64 {
        (0 as u64).wrapping_sub(self)
    }

    #[inline]
    fn of_count(count: usize) -> u64 {
        count as u64
    }

    #[inline]
    fn is_divisor(self) -> bool {
        self != 0
    }

    ghost clone_law = { λ x copy same. same };
}

impl Arithmetic for u128 {
    ghost plus = { λ x y. (x + y) % 2 ^ 128 };

    ghost minus = { λ x y. (x + (2 ^ 128 - y)) % 2 ^ 128 };

    ghost times = { λ x y. (x * y) % 2 ^ 128 };

    ghost over = { quotient_or_zero };

    ghost negated = { λ x. (0 + (2 ^ 128 - x)) % 2 ^ 128 };

    ghost of_count = { λ count. count };

    ghost is_divisor = { λ x. not (nat_eq x 0) };

    #[inline]
    fn plus(self, x: u128) -> u128 {
        self.wrapping_add(x)
    }

    #[inline]
    fn minus(self, x: u128) -> u128 {
        self.wrapping_sub(x)
    }

    #[inline]
    fn times(self, x: u128) -> u128 {
        self.wrapping_mul(x)
    }

    #[inline]
    fn over(self, x: u128) -> u128 {
        if x == 0 { 0 } else { self / x }
    }

    #[inline]
    fn negated(self) -> u128 {
        (0 as u128).wrapping_sub(self)
    }

    #[inline]
    fn of_count(count: usize) -> u128 {
        count as u128
    }

    #[inline]
    fn is_divisor(self) -> bool {
        self != 0
    }

    ghost clone_law = { λ x copy same. same };
}

impl Arithmetic for usize {
    ghost plus = { λ x y. (x + y) % 2 ^ 64 };

    ghost minus = { λ x y. (x + (2 ^ 64 - y)) % 2 ^ 64 };

    ghost times = { λ x y. (x * y) % 2 ^ 64 };

    ghost over = { quotient_or_zero };

    ghost negated = { λ x. (0 + (2 ^ 64 - x)) % 2 ^ 64 };

    ghost of_count = { λ count. count };

    ghost is_divisor = { λ x. not (nat_eq x 0) };

    #[inline]
    fn plus(self, x: usize) -> usize {
        self.wrapping_add(x)
    }

    #[inline]
    fn minus(self, x: usize) -> usize {
        self.wrapping_sub(x)
    }

    #[inline]
    fn times(self, x: usize) -> usize {
        self.wrapping_mul(x)
    }

    #[inline]
    fn over(self, x: usize) -> usize {
        if x == 0 { 0 } else { self / x }
    }

    #[inline]
    fn negated(self) -> usize {
        (0 as usize).wrapping_sub(self)
    }

    #[inline]
    fn of_count(count: usize) -> usize {
        count
    }

    #[inline]
    fn is_divisor(self) -> bool {
        self != 0
    }

    ghost clone_law = { λ x copy same. same };
}
