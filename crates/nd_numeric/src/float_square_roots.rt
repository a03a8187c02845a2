//! Floats, whose square roots are floats again.

ghost use Rattle.std.specs.Prelude.{◌≡◌};
ghost use Rattle.std.specs.Float.{binary32, binary64, sqrt};

use crate::types_with_reorderable_sums::Reorderable;

/// A float. Variances and standard deviations are taken of floats alone, as in ndarray.
pub trait Real: Reorderable {
    ghost root: { Self → Self };

    /// Returns the square root of this number, rounded once by IEEE 754. That of a number below 0 is NaN.
    fn root(self) -> Self
        ensures { result ≡ root self };
}

impl Real for f32 {
    ghost root = { sqrt binary32 };

    #[inline]
    fn root(self) -> f32 {
        self.sqrt()
    }
}

impl Real for f64 {
    ghost root = { sqrt binary64 };

    #[inline]
    fn root(self) -> f64 {
        self.sqrt()
    }
}
