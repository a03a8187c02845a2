//! Numbers that are calculated with, or written, as numbers of another type.

ghost use Rattle.std.specs.Prelude.{◌≡◌, ◌==◌, not, pos};
ghost use Rattle.std.specs.Int.{from_bool};
ghost use Rattle.std.specs.Float.{binary64};
ghost use Rattle.std.specs.Float.Ieee.{of_int};

use std::num::{nearest_i64_to_f64, nearest_u64_to_f64};

/// A number or a truth value that is turned into one of the type `B`.
pub(crate) trait Converts<B>: Copy {
    ghost converted: { Self → B };

    /// Returns what this is as a `B`: the same number, the nearest float, or for a truth value 1 or 0.
    fn converted(self) -> B
        ensures { result ≡ converted self };
}

impl<A: Copy> Converts<A> for A {
    ghost converted = { λ x. x };

    fn converted(self) -> A {
        self
    }
}

impl Converts<u8> for bool {
    ghost converted = { from_bool };

    fn converted(self) -> u8 {
        u8::from(self)
    }
}

impl Converts<bool> for u8 {
    ghost converted = { λ x. not (x == 0) };

    fn converted(self) -> bool {
        self != 0
    }
}

impl Converts<i64> for bool {
    ghost converted = { λ x. pos (from_bool x) };

    fn converted(self) -> i64 {
        i64::from(self)
    }
}

impl Converts<i64> for i8 {
    ghost converted = { λ x. x };

    fn converted(self) -> i64 {
        i64::from(self)
    }
}

impl Converts<i64> for i16 {
    ghost converted = { λ x. x };

    fn converted(self) -> i64 {
        i64::from(self)
    }
}

impl Converts<i64> for i32 {
    ghost converted = { λ x. x };

    fn converted(self) -> i64 {
        i64::from(self)
    }
}

impl Converts<u64> for u8 {
    ghost converted = { λ x. x };

    fn converted(self) -> u64 {
        u64::from(self)
    }
}

impl Converts<u64> for u16 {
    ghost converted = { λ x. x };

    fn converted(self) -> u64 {
        u64::from(self)
    }
}

impl Converts<u64> for u32 {
    ghost converted = { λ x. x };

    fn converted(self) -> u64 {
        u64::from(self)
    }
}

impl Converts<f64> for bool {
    ghost converted = { λ x. of_int binary64 (pos (from_bool x)) };

    fn converted(self) -> f64 {
        nearest_i64_to_f64(i64::from(self))
    }
}

impl Converts<f64> for i8 {
    ghost converted = { of_int binary64 };

    fn converted(self) -> f64 {
        nearest_i64_to_f64(i64::from(self))
    }
}

impl Converts<f64> for i16 {
    ghost converted = { of_int binary64 };

    fn converted(self) -> f64 {
        nearest_i64_to_f64(i64::from(self))
    }
}

impl Converts<f64> for i32 {
    ghost converted = { of_int binary64 };

    fn converted(self) -> f64 {
        nearest_i64_to_f64(i64::from(self))
    }
}

impl Converts<f64> for i64 {
    ghost converted = { of_int binary64 };

    fn converted(self) -> f64 {
        nearest_i64_to_f64(self)
    }
}

impl Converts<f64> for u8 {
    ghost converted = { λ x. of_int binary64 (pos x) };

    fn converted(self) -> f64 {
        nearest_u64_to_f64(u64::from(self))
    }
}

impl Converts<f64> for u16 {
    ghost converted = { λ x. of_int binary64 (pos x) };

    fn converted(self) -> f64 {
        nearest_u64_to_f64(u64::from(self))
    }
}

impl Converts<f64> for u32 {
    ghost converted = { λ x. of_int binary64 (pos x) };

    fn converted(self) -> f64 {
        nearest_u64_to_f64(u64::from(self))
    }
}

impl Converts<f64> for u64 {
    ghost converted = { λ x. of_int binary64 (pos x) };

    fn converted(self) -> f64 {
        nearest_u64_to_f64(self)
    }
}
