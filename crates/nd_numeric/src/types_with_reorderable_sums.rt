//! Numbers whose sums and products tell whether they depend on the order.

ghost use Rattle.std.specs.Prelude.{◌≡◌, ◌^◌, Bool, true, false};
ghost use Rattle.std.specs.Int.{w8, w16, w32, w64, w128};
ghost use Rattle.nd_array_core.specs.elements.ElementFolds.{IsOrderFree};
ghost use Rattle.nd_numeric.specs.WrappingSumsInAnyOrder.{never, product_is_free, signed_product_is_free, signed_sum_is_free, sum_is_free};

use nd_numbers::Arithmetic;

/// A number of a type that tells whether sums and products of its numbers depend on their order. Those of integers, which
/// wrap, don't. Those of floats, which are rounded, do.
pub trait Reorderable: Arithmetic {
    ghost is_reorderable: { Bool };

    /// Returns whether a sum and a product are the same in any order of their numbers.
    fn is_reorderable() -> bool
        ensures { result ≡ is_reorderable };

    ghost sum_law: { is_reorderable ≡ true → IsOrderFree Self.Arithmetic.plus };

    ghost product_law: { is_reorderable ≡ true → IsOrderFree Self.Arithmetic.times };
}

impl Reorderable for i8 {
    ghost is_reorderable = { true };

    #[inline]
    fn is_reorderable() -> bool {
        true
    }

    ghost sum_law = { λ _. signed_sum_is_free w8 };

    ghost product_law = { λ _. signed_product_is_free w8 };
}

impl Reorderable for i16 {
    ghost is_reorderable = { true };

    #[inline]
    fn is_reorderable() -> bool {
        true
    }

    ghost sum_law = { λ _. signed_sum_is_free w16 };

    ghost product_law = { λ _. signed_product_is_free w16 };
}

impl Reorderable for i32 {
    ghost is_reorderable = { true };

    #[inline]
    fn is_reorderable() -> bool {
        true
    }

    ghost sum_law = { λ _. signed_sum_is_free w32 };

    ghost product_law = { λ _. signed_product_is_free w32 };
}

impl Reorderable for i64 {
    ghost is_reorderable = { true };

    #[inline]
    fn is_reorderable() -> bool {
        true
    }

    ghost sum_law = { λ _. signed_sum_is_free w64 };

    ghost product_law = { λ _. signed_product_is_free w64 };
}

impl Reorderable for i128 {
    ghost is_reorderable = { true };

    #[inline]
    fn is_reorderable() -> bool {
        true
    }

    ghost sum_law = { λ _. signed_sum_is_free w128 };

    ghost product_law = { λ _. signed_product_is_free w128 };
}

impl Reorderable for isize {
    ghost is_reorderable = { true };

    #[inline]
    fn is_reorderable() -> bool {
        true
    }

    ghost sum_law = { λ _. signed_sum_is_free w64 };

    ghost product_law = { λ _. signed_product_is_free w64 };
}

impl Reorderable for u8 {
    ghost is_reorderable = { true };

    #[inline]
    fn is_reorderable() -> bool {
        true
    }

    ghost sum_law = { λ _. sum_is_free (2 ^ 8) };

    ghost product_law = { λ _. product_is_free (2 ^ 8) };
}

impl Reorderable for u16 {
    ghost is_reorderable = { true };

    #[inline]
    fn is_reorderable() -> bool {
        true
    }

    ghost sum_law = { λ _. sum_is_free (2 ^ 16) };

    ghost product_law = { λ _. product_is_free (2 ^ 16) };
}

impl Reorderable for u32 {
    ghost is_reorderable = { true };

    #[inline]
    fn is_reorderable() -> bool {
        true
    }

    ghost sum_law = { λ _. sum_is_free (2 ^ 32) };

    ghost product_law = { λ _. product_is_free (2 ^ 32) };
}

impl Reorderable for u64 {
    ghost is_reorderable = { true };

    #[inline]
    fn is_reorderable() -> bool {
        true
    }

    ghost sum_law = { λ _. sum_is_free (2 ^ 64) };

    ghost product_law = { λ _. product_is_free (2 ^ 64) };
}

impl Reorderable for u128 {
    ghost is_reorderable = { true };

    #[inline]
    fn is_reorderable() -> bool {
        true
    }

    ghost sum_law = { λ _. sum_is_free (2 ^ 128) };

    ghost product_law = { λ _. product_is_free (2 ^ 128) };
}

impl Reorderable for usize {
    ghost is_reorderable = { true };

    #[inline]
    fn is_reorderable() -> bool {
        true
    }

    ghost sum_law = { λ _. sum_is_free (2 ^ 64) };

    ghost product_law = { λ _. product_is_free (2 ^ 64) };
}

impl Reorderable for f32 {
    ghost is_reorderable = { false };

    #[inline]
    fn is_reorderable() -> bool {
        false
    }

    ghost sum_law = { never };

    ghost product_law = { never };
}

impl Reorderable for f64 {
    ghost is_reorderable = { false };

    #[inline]
    fn is_reorderable() -> bool {
        false
    }

    ghost sum_law = { never };

    ghost product_law = { never };
}
