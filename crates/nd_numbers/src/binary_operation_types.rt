//! Operations on two numbers, each as a type of its own.

ghost use Rattle.std.specs.Prelude.{◌≡◌};

use crate::arithmetic::Arithmetic;

/// An operation on two numbers. Each operation is a type of its own, so that code for all operations is written once.
pub trait Operation<A, B>: Drop {
    ghost gives: { Self → A → B → A };

    /// Returns the result of the operation for `x` and `y`.
    fn apply(&self, x: &A, y: &B) -> A
        ensures { result ≡ gives self.now x.now y.now };
}

/// The operation that adds the right number to the left number.
#[derive(Clone, Copy)]
pub struct Plus;

/// The operation that subtracts the right number from the left number.
#[derive(Clone, Copy)]
pub struct Minus;

/// The operation that multiplies the left number by the right number.
#[derive(Clone, Copy)]
pub struct Times;

/// The operation that divides the left number by the right number.
#[derive(Clone, Copy)]
pub struct Over;

/// The operation that adds `factor` times the right number to the left number.
#[derive(Clone, Copy)]
pub struct PlusMultiple<A> {
    pub factor: A,
}

impl<A: Arithmetic> Operation<A, A> for Plus {
    ghost gives = { λ operation x y. A.plus x y };

    #[inline]
    fn apply(&self, x: &A, y: &A) -> A {
        x.plus(*y)
    }
}

impl<A: Arithmetic> Operation<A, A> for Minus {
    ghost gives = { λ operation x y. A.minus x y };

    #[inline]
    fn apply(&self, x: &A, y: &A) -> A {
        x.minus(*y)
    }
}

impl<A: Arithmetic> Operation<A, A> for Times {
    ghost gives = { λ operation x y. A.times x y };

    #[inline]
    fn apply(&self, x: &A, y: &A) -> A {
        x.times(*y)
    }
}

impl<A: Arithmetic> Operation<A, A> for Over {
    ghost gives = { λ operation x y. A.over x y };

    #[inline]
    fn apply(&self, x: &A, y: &A) -> A {
        x.over(*y)
    }
}

impl<A: Arithmetic> Operation<A, A> for PlusMultiple<A> {
    ghost gives = { λ operation x y. A.plus x (A.times operation.factor y) };

    #[inline]
    fn apply(&self, x: &A, y: &A) -> A {
        x.plus(self.factor.times(*y))
    }
}
