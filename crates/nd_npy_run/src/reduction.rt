//! What is made of the lanes along an axis, and why nothing is.

ghost use Rattle.std.specs.Prelude.{◌≡◌, ◌==◌, ◌&&◌};
ghost use Rattle.nd_npy_run.specs.Reductions.{wants_elements};
ghost use Rattle.nd_npy_run.specs.UsageAndArguments.{reduction_named};

use nd_npy_text::Kind;

/// What is made of the elements of each lane along an axis.
#[derive(Clone, Copy, Debug, PartialEq, Eq)]
pub enum Reduction {
    /// Their sum.
    Sum,
    /// Their mean.
    Mean,
    /// The least of them.
    Min,
    /// The greatest of them.
    Max,
}

/// Why an array isn't reduced along an axis.
#[derive(Clone, Copy, Debug, PartialEq, Eq)]
pub enum ReductionError {
    /// The array has no such axis.
    NoAxis {
        /// The number of the axis that was asked for, counted from 0.
        axis: usize,
        /// How many axes the array has.
        axes: usize,
    },
    /// The axis has length 0, and of no elements there is neither a mean nor a least or greatest one.
    NoElements {
        /// The number of the axis, counted from 0.
        axis: usize,
    },
    /// Elements of this kind aren't reduced.
    NoNumbers(Kind),
}

const SUM: &[u8] = b"sum";

const MEAN: &[u8] = b"mean";

const MIN: &[u8] = b"min";

const MAX: &[u8] = b"max";

/// Returns the reduction that the word names: `sum`, `mean`, `min` or `max`.
pub(crate) fn reduction_named(word: &[u8]) -> Option<Reduction>
    ensures { result ≡ reduction_named word.now }
{
    if word == SUM {
        return Some(Reduction::Sum);
    }
    if word == MEAN {
        return Some(Reduction::Mean);
    }
    if word == MIN {
        return Some(Reduction::Min);
    }
    if word == MAX {
        return Some(Reduction::Max);
    }
    None
}

impl Reduction {
    /// Returns whether nothing can be made of a lane without elements. The sum of no elements is 0.
    fn wants_elements(self) -> bool
        ensures { result ≡ wants_elements self }
    {
        match self {
            Reduction::Sum => false,
            Reduction::Mean | Reduction::Min | Reduction::Max => true,
        }
    }

    /// Returns whether nothing can be made of a lane of this length.
    pub(crate) fn lacks_elements(self, length: usize) -> bool
        ensures { result ≡ (wants_elements self && (length == 0)) }
    {
        self.wants_elements() && length == 0
    }
}
