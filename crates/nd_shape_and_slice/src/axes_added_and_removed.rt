//! Dimensions with one axis more or fewer.

ghost use Rattle.std.specs.Prelude.{◌≡◌, ◌≤◌, ◌<◌, ◌+◌, ◌-◌, List, ℕ, length, IsTrue};
ghost use Rattle.std.specs.List.{remove, insert};

use crate::axis_numbers_and_permutations::Axis;
use crate::dimension::{Dimension, MAX_AXES};
use crate::dynamic_dimension::IxDyn;
use crate::fixed_dimensions::Dim;

/// A dimension from which an axis can be removed: every dimension except `Ix0`. This is ndarray's `RemoveAxis`.
pub trait RemoveAxis: Dimension {
    /// The dimension with one axis fewer. This is ndarray's `Dimension::Smaller`.
    type Smaller: Dimension;

    /// Returns the dimension without the length of `axis`. This is ndarray's `RemoveAxis::remove_axis`.
    fn remove_axis(&self, axis: Axis) -> Self::Smaller
        requires { axis.0 < length (Self.lengths self.now) }
        ensures { Self.Smaller.lengths result ≡ remove (Self.lengths self.now) axis.0 };
}

/// A dimension to which an axis can be added. This is ndarray's `Dimension::insert_axis`.
pub trait InsertAxis: Dimension {
    /// The dimension with one axis more. This is ndarray's `Dimension::Larger`.
    type Larger: Dimension;

    /// Returns the dimension with an axis of length 1 inserted at `axis`. The larger dimension must be able to have one
    /// more axis: a fixed number of axes always allows that, and `IxDyn` must have fewer than 32.
    fn insert_axis(&self, axis: Axis) -> Self::Larger
        requires place { axis.0 ≤ length (Self.lengths self.now) }
        requires axes_fit { IsTrue (Self.Larger.has_axes (length (Self.lengths self.now) + 1)) }
        ensures { Self.Larger.lengths result ≡ insert (Self.lengths self.now) axis.0 1 }
    {
        let mut lengths = [0; MAX_AXES + 1];
        let count = self.ndim() + 1;
        copy_with(self.slice(), axis.0, &mut lengths[..count]);
        Self::Larger::from_lengths(&lengths[..count]).unwrap()
    }
}

/// Writes all lengths except that of `axis` to `out`.
pub(crate) fn copy_without(lengths: &[usize], axis: usize, out: &mut [usize])
    requires axis { axis < length lengths.now }
    requires as_many { length out.old + 1 ≡ length lengths.now }
    ensures { out.new ≡ remove lengths.now axis }
{
    out[..axis].copy_from_slice(&lengths[..axis]);
    out[axis..].copy_from_slice(&lengths[axis + 1..]);
}

/// Writes the lengths to `out`, with a 1 inserted at `axis`.
pub(crate) fn copy_with(lengths: &[usize], axis: usize, out: &mut [usize])
    requires axis { axis ≤ length lengths.now }
    requires as_many { length out.old ≡ length lengths.now + 1 }
    ensures { out.new ≡ insert lengths.now axis 1 }
{
    out[..axis].copy_from_slice(&lengths[..axis]);
    out[axis] = 1;
    out[axis + 1..].copy_from_slice(&lengths[axis..]);
}

impl RemoveAxis for Dim<1> {
    type Smaller = Dim<0>;

    fn remove_axis(&self, axis: Axis) -> Dim<0> {
        let mut lengths = [0; 0];
        copy_without(self.slice(), axis.0, &mut lengths);
        Dim::new(lengths)
    }
}

impl RemoveAxis for Dim<2> {
    type Smaller = Dim<1>;

    fn remove_axis(&self, axis: Axis) -> Dim<1> {
        let mut lengths = [0; 1];
        copy_without(self.slice(), axis.0, &mut lengths);
        Dim::new(lengths)
    }
}

impl RemoveAxis for Dim<3> {
    type Smaller = Dim<2>;

    fn remove_axis(&self, axis: Axis) -> Dim<2> {
        let mut lengths = [0; 2];
        copy_without(self.slice(), axis.0, &mut lengths);
        Dim::new(lengths)
    }
}

impl RemoveAxis for Dim<4> {
    type Smaller = Dim<3>;

    fn remove_axis(&self, axis: Axis) -> Dim<3> {
        let mut lengths = [0; 3];
        copy_without(self.slice(), axis.0, &mut lengths);
        Dim::new(lengths)
    }
}

impl RemoveAxis for Dim<5> {
    type Smaller = Dim<4>;

    fn remove_axis(&self, axis: Axis) -> Dim<4> {
        let mut lengths = [0; 4];
        copy_without(self.slice(), axis.0, &mut lengths);
        Dim::new(lengths)
    }
}

impl RemoveAxis for Dim<6> {
    type Smaller = Dim<5>;

    fn remove_axis(&self, axis: Axis) -> Dim<5> {
        let mut lengths = [0; 5];
        copy_without(self.slice(), axis.0, &mut lengths);
        Dim::new(lengths)
    }
}

impl RemoveAxis for IxDyn {
    type Smaller = IxDyn;

    fn remove_axis(&self, axis: Axis) -> IxDyn {
        let mut lengths = [0; MAX_AXES];
        let count = self.ndim() - 1;
        copy_without(self.slice(), axis.0, &mut lengths[..count]);
        IxDyn::new(&lengths[..count])
    }
}

impl InsertAxis for Dim<0> {
    type Larger = Dim<1>;
}

impl InsertAxis for Dim<1> {
    type Larger = Dim<2>;
}

impl InsertAxis for Dim<2> {
    type Larger = Dim<3>;
}

impl InsertAxis for Dim<3> {
    type Larger = Dim<4>;
}

impl InsertAxis for Dim<4> {
    type Larger = Dim<5>;
}

impl InsertAxis for Dim<5> {
    type Larger = Dim<6>;
}

impl InsertAxis for Dim<6> {
    type Larger = IxDyn;
}

impl InsertAxis for IxDyn {
    type Larger = IxDyn;
}
