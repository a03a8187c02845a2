//! The trait of numbers with arithmetic.

ghost use Rattle.std.specs.Prelude.{◌≡◌, ℕ, Bool};

use num_traits::{One, Zero};

/// A number whose arithmetic has a result for all values: integers wrap, and floats round by IEEE 754. Its place in
/// ndarray is that of `LinalgScalar`, or of `Add`, `Sub`, `Mul`, `Div` and `Neg` of the element.
pub trait Arithmetic: Copy + Zero + One {
    ghost plus: { Self → Self → Self };

    ghost minus: { Self → Self → Self };

    ghost times: { Self → Self → Self };

    ghost over: { Self → Self → Self };

    ghost negated: { Self → Self };

    ghost of_count: { ℕ → Self };

    ghost is_divisor: { Self → Bool };

    /// Returns the sum of this number and `x`.
    fn plus(self, x: Self) -> Self
        ensures { result ≡ plus self x };

    /// Returns this number minus `x`.
    fn minus(self, x: Self) -> Self
        ensures { result ≡ minus self x };

    /// Returns the product of this number and `x`.
    fn times(self, x: Self) -> Self
        ensures { result ≡ times self x };

    /// Returns this number divided by `x`. Integers round toward 0, and an integer divided by 0 is 0.
    fn over(self, x: Self) -> Self
        ensures { result ≡ over self x };

    /// Returns this number with its sign changed. An unsigned integer wraps.
    fn negated(self) -> Self
        ensures { result ≡ negated self };

    /// Returns `count` as a number of this type. It wraps in an integer type of fewer bits, and is rounded in a float
    /// type.
    fn of_count(count: usize) -> Self
        ensures { result ≡ of_count count };

    /// Returns whether this number is allowed as a divisor: an integer if it isn't 0, and any float.
    fn is_divisor(self) -> bool
        ensures { result ≡ is_divisor self };

    /// Returns the sum of this number and the product of `x` and `y`. Floats are rounded twice, after the product and
    /// after the sum.
    final fn add_product(self, x: Self, y: Self) -> Self
        ensures { result ≡ plus self (times x y) }
    {
        self.plus(x.times(y))
    }

    ghost clone_law: { (x copy : Self) → Self.is_clone x copy → copy ≡ x };
}
