//! Numbers whose order tells whether two of them are the same.

ghost use Rattle.std.specs.Prelude.{◌≡◌, Bool, true, false};
ghost use Rattle.std.specs.FinMap.{IsAntisymmetric, int_cmp-IsAntisymmetric, nat_cmp-IsAntisymmetric};
ghost use Rattle.nd_numeric.specs.WrappingSumsInAnyOrder.{never};

use nd_numbers::Ordered;

/// A number of a type that tells whether two of its numbers are always the same if they are equal in their order.
/// Equal integers are the same. Equal floats needn't be: 0 equals -0, and every NaN equals every other.
pub trait Distinct: Ordered {
    ghost is_distinct: { Bool };

    /// Returns whether equal numbers are always the same.
    fn is_distinct() -> bool
        ensures { result ≡ is_distinct };

    ghost equal_law: { is_distinct ≡ true → IsAntisymmetric Self.Ordered.order };
}

impl Distinct for i8 {
    ghost is_distinct = { true };

    #[inline]
    fn is_distinct() -> bool {
        true
    }

    ghost equal_law = { λ _. int_cmp-IsAntisymmetric };
}

impl Distinct for i16 {
    ghost is_distinct = { true };

    #[inline]
    fn is_distinct() -> bool {
        true
    }

    ghost equal_law = { λ _. int_cmp-IsAntisymmetric };
}

impl Distinct for i32 {
    ghost is_distinct = { true };

    #[inline]
    fn is_distinct() -> bool {
        true
    }

    ghost equal_law = { λ _. int_cmp-IsAntisymmetric };
}

impl Distinct for i64 {
    ghost is_distinct = { true };

    #[inline]
    fn is_distinct() -> bool {
        true
    }

    ghost equal_law = { λ _. int_cmp-IsAntisymmetric };
}

impl Distinct for i128 {
    ghost is_distinct = { true };

    #[inline]
    fn is_distinct() -> bool {
        true
    }

    ghost equal_law = { λ _. int_cmp-IsAntisymmetric };
}

impl Distinct for isize {
    ghost is_distinct = { true };

    #[inline]
    fn is_distinct() -> bool {
        true
    }

    ghost equal_law = { λ _. int_cmp-IsAntisymmetric };
}

impl Distinct for u8 {
    ghost is_distinct = { true };

    #[inline]
    fn is_distinct() -> bool {
        true
    }

    ghost equal_law = { λ _. nat_cmp-IsAntisymmetric };
}

impl Distinct for u16 {
    ghost is_distinct = { true };

    #[inline]
    fn is_distinct() -> bool {
        true
    }

    ghost equal_law = { λ _. nat_cmp-IsAntisymmetric };
}

impl Distinct for u32 {
    ghost is_distinct = { true };

    #[inline]
    fn is_distinct() -> bool {
        true
    }

    ghost equal_law = { λ _. nat_cmp-IsAntisymmetric };
}

impl Distinct for u64 {
    ghost is_distinct = { true };

    #[inline]
    fn is_distinct() -> bool {
        true
    }

    ghost equal_law = { λ _. nat_cmp-IsAntisymmetric };
}

impl Distinct for u128 {
    ghost is_distinct = { true };

    #[inline]
    fn is_distinct() -> bool {
        true
    }

    ghost equal_law = { λ _. nat_cmp-IsAntisymmetric };
}

impl Distinct for usize {
    ghost is_distinct = { true };

    #[inline]
    fn is_distinct() -> bool {
        true
    }

    ghost equal_law = { λ _. nat_cmp-IsAntisymmetric };
}

impl Distinct for f32 {
    ghost is_distinct = { false };

    #[inline]
    fn is_distinct() -> bool {
        false
    }

    ghost equal_law = { never };
}

impl Distinct for f64 {
    ghost is_distinct = { false };

    #[inline]
    fn is_distinct() -> bool {
        false
    }

    ghost equal_law = { never };
}
