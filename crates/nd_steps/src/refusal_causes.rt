//! The causes for which a call is refused.

ghost use Rattle.std.specs.Prelude.{◌≡◌};

/// The cause of a refusal. Its value is the number by which a reply names it.
#[derive(Clone, Copy, Debug, PartialEq, Eq)]
pub enum Cause {
    /// There is no axis of the given number.
    Axis = 1,
    /// The axis has no such coordinate, or the array no such index.
    Index = 2,
    /// The slice doesn't fit its axis.
    Slice = 3,
    /// The list doesn't name each axis exactly once.
    Permutation = 4,
    /// The list or the shape doesn't fit the shape of the array.
    Shape = 5,
    /// The shape of the result has no checked size.
    Overflow = 6,
    /// The result would have more axes than an array can have.
    TooManyAxes = 7,
    /// The array can't be broadcast to the given lengths.
    Broadcast = 8,
}

impl Cause {
    ghost use Rattle.nd_steps.specs.StepTestsAndShapes.{number_of};

    /// Returns the number by which a reply names the cause.
    pub fn number(self) -> u8
        ensures { result ≡ number_of self }
    {
        self as u8
    }
}
