//! The arithmetic of floats, which rounds.

ghost use Rattle.std.specs.Prelude.{◌≡◌, pos, true};
ghost use Rattle.std.specs.Float.{binary32, binary64};
ghost use Rattle.std.specs.Float.Ieee.{add, sub, mul, div, neg, of_int};

use crate::arithmetic::Arithmetic;
use std::num::{nearest_usize_to_f32, nearest_usize_to_f64};

impl Arithmetic for f32 {
    ghost plus = { add binary32 };

    ghost minus = { sub binary32 };

    ghost times = { mul binary32 };

    ghost over = { div binary32 };

    ghost negated = { neg };

    ghost of_count = { λ count. of_int binary32 (pos count) };

    ghost is_divisor = { λ x. true };

    #[inline]
    fn plus(self, x: f32) -> f32 {
        self + x
    }

    #[inline]
    fn minus(self, x: f32) -> f32 {
        self - x
    }

    #[inline]
    fn times(self, x: f32) -> f32 {
        self * x
    }

    #[inline]
    fn over(self, x: f32) -> f32 {
        self / x
    }

    #[inline]
    fn negated(self) -> f32 {
        -self
    }

    #[inline]
    fn of_count(count: usize) -> f32 {
        nearest_usize_to_f32(count)
    }

    #[inline]
    fn is_divisor(self) -> bool {
        true
    }

    ghost clone_law = { λ x copy same. same };
}

impl Arithmetic for f64 {
    ghost plus = { add binary64 };

    ghost minus = { sub binary64 };

    ghost times = { mul binary64 };

    ghost over = { div binary64 };

    ghost negated = { neg };

    ghost of_count = { λ count. of_int binary64 (pos count) };

    ghost is_divisor = { λ x. true };

    #[inline]
    fn plus(self, x: f64) -> f64 {
        self + x
    }

    #[inline]
    fn minus(self, x: f64) -> f64 {
        self - x
    }

    #[inline]
    fn times(self, x: f64) -> f64 {
        self * x
    }

    #[inline]
    fn over(self, x: f64) -> f64 {
        self / x
    }

    #[inline]
    fn negated(self) -> f64 {
        -self
    }

    #[inline]
    fn of_count(count: usize) -> f64 {
        nearest_usize_to_f64(count)
    }

    #[inline]
    fn is_divisor(self) -> bool {
        true
    }

    ghost clone_law = { λ x copy same. same };
}
