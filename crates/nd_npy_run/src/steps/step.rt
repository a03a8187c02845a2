//! A step of a list.

ghost use Rattle.std.specs.Prelude.{◌≡◌};
ghost use Rattle.nd_npy_run.specs.ViewSelectAndReshapeSteps.{asked_npy_step, is_viewed};

use nd_read::Step;

/// A step from an array to another.
#[derive(Debug, Drop)]
pub enum NpyStep {
    /// A step of a script, which leads to a view.
    View(Step),
    /// The axis, and its coordinates that are kept, in their new order. The elements are copied.
    Select(usize, Vec<usize>),
    /// The lengths that the array gets. Each element keeps its row-major rank. The elements are copied where no strides
    /// serve.
    Reshape(Vec<usize>),
}

impl NpyStep {
    /// Returns whether the step leads to a view.
    pub(crate) fn is_view(&self) -> bool
        ensures { result ≡ is_viewed (asked_npy_step self.now) }
    {
        matches!(self, NpyStep::View(_))
    }
}
