//! Numbers of axes, and permutations of axes.

ghost use Rattle.std.specs.Prelude.{◌↔◌, ◌≡◌, ◌≤◌, ◌==◌, count_by, IsTrue};
ghost use Rattle.nd_shape_and_slice.specs.AxisPermutations.{HasEachAxis, HasEachBelow, names_each_axis};

use crate::dimension::MAX_AXES;

/// The number of an axis, from 0. This is ndarray's `Axis`.
#[derive(Clone, Copy, Debug, PartialEq, Eq, PartialOrd, Ord)]
pub struct Axis(pub usize);

impl Axis {
    /// Returns the number of the axis. This is ndarray's `Axis::index`.
    pub fn index(self) -> usize
        ensures { result ≡ self.0 }
    {
        self.0
    }
}

/// Returns how often `axis` stands in `axes`.
fn times_in(axes: &[usize], axis: usize) -> usize
    ensures { result ≡ count_by (λ b. b == axis) axes.now }
{
    axes.iter().filter(|other| **other == axis).count()
}

/// Returns whether each axis below `ndim` stands in `axes` exactly once. Counts each axis separately.
fn counts_each_axis(axes: &[usize], ndim: usize) -> bool
    ensures { IsTrue result ↔ HasEachBelow axes.now ndim }
{
    for axis in 0..ndim {
        if times_in(axes, axis) != 1 {
            return false;
        }
    }
    true
}

/// Returns whether each axis below `ndim` stands in `axes` exactly once. Goes over `axes` once, and marks each axis by
/// a bit of a mask.
fn marks_each_axis(axes: &[usize], ndim: usize) -> bool
    requires { ndim ≤ MAX_AXES }
    ensures { IsTrue result ↔ HasEachBelow axes.now ndim }
{
    let mut seen: u64 = 0;
    for axis in axes {
        if *axis < ndim {
            let mark = 1 << *axis;
            if seen & mark != 0 {
                return false;
            }
            seen |= mark;
        }
    }
    seen == (1 << ndim) - 1
}

fn holds_each_axis(axes: &[usize], ndim: usize) -> bool
    ensures { IsTrue result ↔ HasEachAxis axes.now ndim }
{
    if axes.len() != ndim {
        return false;
    }
    if ndim <= MAX_AXES {
        marks_each_axis(axes, ndim)
    } else {
        counts_each_axis(axes, ndim)
    }
}

/// Returns whether `axes` names each of `ndim` axes exactly once. `permuted_axes` asks this of its argument.
pub fn axes_fit(axes: &[usize], ndim: usize) -> bool
    ensures each { IsTrue result ↔ HasEachAxis axes.now ndim }
    ensures value { result ≡ names_each_axis axes.now ndim }
{
    holds_each_axis(axes, ndim)
}
