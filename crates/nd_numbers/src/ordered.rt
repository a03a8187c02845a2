//! The order of numbers.

ghost use Rattle.std.specs.Prelude.{◌≡◌};
ghost use Rattle.std.specs.Cmp.{IsTotalOrder, nat_cmp_total, int_cmp_total};
ghost use Rattle.std.specs.Float.Cmp.{nan_last};
ghost use Rattle.std.specs.Ordering.{nat_cmp, int_cmp, nan_last_cmp};
ghost use Rattle.std.specs.declared.cmp.Ordering.{Ordering};

use std::cmp::{OrderedFloat, Ordering};

/// A number of a type whose numbers are all ordered. In the order of floats a NaN comes after all numbers, and -0
/// equals 0.
pub trait Ordered: Copy + Drop {
    ghost order: { Self → Self → Ordering };

    /// Returns whether this number is less than `other`, equal to it or greater than it.
    fn order(&self, other: &Self) -> Ordering
        ensures { result ≡ order self.now other.now };

    ghost order_law: { IsTotalOrder order };

    ghost same_law: { (x copy : Self) → Self.is_clone x copy → copy ≡ x };
}

impl Ordered for i8 {
    ghost order = { int_cmp };

    #[inline]
    fn order(&self, other: &i8) -> Ordering {
        self.cmp(other)
    }

    ghost order_law = { int_cmp_total };

    ghost same_law = { λ x copy same. same };
}

impl Ordered for i16 {
    ghost order = { int_cmp };

    #[inline]
    fn order(&self, other: &i16) -> Ordering {
        self.cmp(other)
    }

    ghost order_law = { int_cmp_total };

    ghost same_law = { λ x copy same. same };
}

impl Ordered for i32 {
    ghost order = { int_cmp };

    #[inline]
    fn order(&self, other: &i32) -> Ordering {
        self.cmp(other)
    }

    ghost order_law = { int_cmp_total };

    ghost same_law = { λ x copy same. same };
}

impl Ordered for i64 {
    ghost order = { int_cmp };

    #[inline]
    fn order(&self, other: &i64) -> Ordering {
        self.cmp(other)
    }

    ghost order_law = { int_cmp_total };

    ghost same_law = { λ x copy same. same };
}

impl Ordered for i128 {
    ghost order = { int_cmp };

    #[inline]
    fn order(&self, other: &i128) -> Ordering {
        self.cmp(other)
    }

    ghost order_law = { int_cmp_total };

    ghost same_law = { λ x copy same. same };
}

impl Ordered for isize {
    ghost order = { int_cmp };

    #[inline]
    fn order(&self, other: &isize) -> Ordering {
        self.cmp(other)
    }

    ghost order_law = { int_cmp_total };

    ghost same_law = { λ x copy same. same };
}

impl Ordered for u8 {
    ghost order = { nat_cmp };

    #[inline]
    fn order(&self, other: &u8) -> Ordering {
        self.cmp(other)
    }

    ghost order_law = { nat_cmp_total };

    ghost same_law = { λ x copy same. same };
}

impl Ordered for u16 {
    ghost order = { nat_cmp };

    #[inline]
    fn order(&self, other: &u16) -> Ordering {
        self.cmp(other)
    }

    ghost order_law = { nat_cmp_total };

    ghost same_law = { λ x copy same. same };
}

impl Ordered for u32 {
    ghost order = { nat_cmp };

    #[inline]
    fn order(&self, other: &u32) -> Ordering {
        self.cmp(other)
    }

    ghost order_law = { nat_cmp_total };

    ghost same_law = { λ x copy same. same };
}

impl Ordered for u64 {
    ghost order = { nat_cmp };

    #[inline]
    fn order(&self, other: &u64) -> Ordering {
        self.cmp(other)
    }

    ghost order_law = { nat_cmp_total };

    ghost same_law = { λ x copy same. same };
}

impl Ordered for u128 {
    ghost order = { nat_cmp };

    #[inline]
    fn order(&self, other: &u128) -> Ordering {
        self.cmp(other)
    }

    ghost order_law = { nat_cmp_total };

    ghost same_law = { λ x copy same. same };
}

impl Ordered for usize {
    ghost order = { nat_cmp };

    #[inline]
    fn order(&self, other: &usize) -> Ordering {
        self.cmp(other)
    }

    ghost order_law = { nat_cmp_total };

    ghost same_law = { λ x copy same. same };
}

impl Ordered for f32 {
    ghost order = { nan_last_cmp };

    #[inline]
    fn order(&self, other: &f32) -> Ordering {
        OrderedFloat(*self).cmp(&OrderedFloat(*other))
    }

    ghost order_law = { nan_last };

    ghost same_law = { λ x copy same. same };
}

impl Ordered for f64 {
    ghost order = { nan_last_cmp };

    #[inline]
    fn order(&self, other: &f64) -> Ordering {
        OrderedFloat(*self).cmp(&OrderedFloat(*other))
    }

    ghost order_law = { nan_last };

    ghost same_law = { λ x copy same. same };
}
