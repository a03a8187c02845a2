//! The types that serve as indexes and as shapes.

ghost use Rattle.std.specs.Prelude.{◌≡◌, ◌<◌, ℕ, List, [], ◌∷◌};

use crate::dimension::Dimension;
use crate::dynamic_dimension::IxDyn;
use crate::fixed_dimensions::Dim;
use std::slice;

/// The coordinates of an index: borrowed from an index that stores them as a list, or copied from a tuple. ndarray has
/// no such type.
#[derive(Clone, Copy, Debug)]
pub enum Coordinates<'a> {
    /// Borrowed coordinates; they may be any number.
    Lent(&'a [usize]),
    /// The two coordinates of a pair.
    Two([usize; 2]),
    /// The coordinates of a tuple of three numbers.
    Three([usize; 3]),
    /// The coordinates of a tuple of four numbers.
    Four([usize; 4]),
    /// The coordinates of a tuple of five numbers.
    Five([usize; 5]),
    /// The coordinates of a tuple of six numbers.
    Six([usize; 6]),
}

impl<'a> Coordinates<'a> {
    ghost use Rattle.nd_shape_and_slice.specs.IndexCoordinates.{coordinate_list};

    /// Returns the coordinates, from axis 0 on.
    #[inline]
    pub fn slice(&self) -> &[usize]
        ensures { result.now ≡ coordinate_list self.now }
    {
        match self {
            Coordinates::Lent(list) => list,
            Coordinates::Two(list) => list,
            Coordinates::Three(list) => list,
            Coordinates::Four(list) => list,
            Coordinates::Five(list) => list,
            Coordinates::Six(list) => list,
        }
    }
}

/// An index of an array with dimension `D`: a list of coordinates. A list whose length isn't the number of axes is no
/// index of the array's shape. Numbers, tuples, arrays and dimensions are indexes of arrays with as many axes; arrays
/// of numbers, slices and `IxDyn` are indexes of arrays with any number of axes. This is ndarray's `NdIndex`.
pub trait NdIndex<D>: Drop {
    ghost use Rattle.nd_shape_and_slice.specs.IndexCoordinates.{coordinate_list};

    ghost coordinates_of: { Self → List ℕ };

    /// Returns the coordinates, from axis 0 on.
    fn coordinates(&self) -> Coordinates<'_>
        ensures { coordinate_list result ≡ coordinates_of self.now };
}

impl<D: Dimension> NdIndex<D> for D {
    ghost coordinates_of = { λ i. D.lengths i };

    #[inline]
    fn coordinates(&self) -> Coordinates<'_> {
        Coordinates::Lent(self.slice())
    }
}

impl<const N: usize> NdIndex<Dim<N>> for [usize; N] {
    ghost coordinates_of = { λ i. i };

    #[inline]
    fn coordinates(&self) -> Coordinates<'_> {
        Coordinates::Lent(self)
    }
}

impl<const N: usize> NdIndex<IxDyn> for [usize; N] {
    ghost coordinates_of = { λ i. i };

    #[inline]
    fn coordinates(&self) -> Coordinates<'_> {
        Coordinates::Lent(self)
    }
}

impl NdIndex<IxDyn> for &[usize] {
    ghost coordinates_of = { λ i. i.now };

    #[inline]
    fn coordinates(&self) -> Coordinates<'_> {
        Coordinates::Lent(*self)
    }
}

impl NdIndex<Dim<1>> for usize {
    ghost coordinates_of = { λ i. i ∷ [] };

    #[inline]
    fn coordinates(&self) -> Coordinates<'_> {
        Coordinates::Lent(slice::from_ref(self))
    }
}

impl NdIndex<Dim<0>> for () {
    ghost coordinates_of = { λ _. [] };

    #[inline]
    fn coordinates(&self) -> Coordinates<'_> {
        Coordinates::Lent(&[])
    }
}

impl NdIndex<Dim<1>> for (usize,) {
    ghost coordinates_of = { λ i. i.0 ∷ [] };

    #[inline]
    fn coordinates(&self) -> Coordinates<'_> {
        Coordinates::Lent(slice::from_ref(&self.0))
    }
}

impl NdIndex<Dim<2>> for (usize, usize) {
    ghost coordinates_of = { λ i. i.0 ∷ i.1 ∷ [] };

    #[inline]
    fn coordinates(&self) -> Coordinates<'_> {
        Coordinates::Two([self.0, self.1])
    }
}

impl NdIndex<Dim<3>> for (usize, usize, usize) {
    ghost coordinates_of = { λ i. i.0 ∷ i.1 ∷ i.2 ∷ [] };

    #[inline]
    fn coordinates(&self) -> Coordinates<'_> {
        Coordinates::Three([self.0, self.1, self.2])
    }
}

impl NdIndex<Dim<4>> for (usize, usize, usize, usize) {
    ghost coordinates_of = { λ i. i.0 ∷ i.1 ∷ i.2 ∷ i.3 ∷ [] };

    #[inline]
    fn coordinates(&self) -> Coordinates<'_> {
        Coordinates::Four([self.0, self.1, self.2, self.3])
    }
}

impl NdIndex<Dim<5>> for (usize, usize, usize, usize, usize) {
    ghost coordinates_of = { λ i. i.0 ∷ i.1 ∷ i.2 ∷ i.3 ∷ i.4 ∷ [] };

    #[inline]
    fn coordinates(&self) -> Coordinates<'_> {
        Coordinates::Five([self.0, self.1, self.2, self.3, self.4])
    }
}

impl NdIndex<Dim<6>> for (usize, usize, usize, usize, usize, usize) {
    ghost coordinates_of = { λ i. i.0 ∷ i.1 ∷ i.2 ∷ i.3 ∷ i.4 ∷ i.5 ∷ [] };

    #[inline]
    fn coordinates(&self) -> Coordinates<'_> {
        Coordinates::Six([self.0, self.1, self.2, self.3, self.4, self.5])
    }
}

/// A value that can be converted into a dimension: a number, a tuple or an array of lengths, or a dimension itself.
/// This is ndarray's `IntoDimension`.
pub trait IntoDimension {
    /// The type of the dimension.
    type Dim: Dimension;

    ghost lengths_given: { Self → List ℕ };

    /// Returns the dimension with the lengths that the value gives.
    fn into_dimension(self) -> Self::Dim
        ensures { Self.Dim.lengths result ≡ lengths_given self };
}

impl<D: Dimension> IntoDimension for D {
    type Dim = D;

    ghost lengths_given = { λ d. D.lengths d };

    fn into_dimension(self) -> D {
        self
    }
}

impl IntoDimension for usize {
    type Dim = Dim<1>;

    ghost lengths_given = { λ n. n ∷ [] };

    fn into_dimension(self) -> Dim<1> {
        Dim::new([self])
    }
}

impl IntoDimension for () {
    type Dim = Dim<0>;

    ghost lengths_given = { λ _. [] };

    fn into_dimension(self) -> Dim<0> {
        Dim::new([])
    }
}

impl IntoDimension for (usize,) {
    type Dim = Dim<1>;

    ghost lengths_given = { λ n. n.0 ∷ [] };

    fn into_dimension(self) -> Dim<1> {
        Dim::new([self.0])
    }
}

impl IntoDimension for (usize, usize) {
    type Dim = Dim<2>;

    ghost lengths_given = { λ n. n.0 ∷ n.1 ∷ [] };

    fn into_dimension(self) -> Dim<2> {
        Dim::new([self.0, self.1])
    }
}

impl IntoDimension for (usize, usize, usize) {
    type Dim = Dim<3>;

    ghost lengths_given = { λ n. n.0 ∷ n.1 ∷ n.2 ∷ [] };

    fn into_dimension(self) -> Dim<3> {
        Dim::new([self.0, self.1, self.2])
    }
}

impl IntoDimension for (usize, usize, usize, usize) {
    type Dim = Dim<4>;

    ghost lengths_given = { λ n. n.0 ∷ n.1 ∷ n.2 ∷ n.3 ∷ [] };

    fn into_dimension(self) -> Dim<4> {
        Dim::new([self.0, self.1, self.2, self.3])
    }
}

impl IntoDimension for (usize, usize, usize, usize, usize) {
    type Dim = Dim<5>;

    ghost lengths_given = { λ n. n.0 ∷ n.1 ∷ n.2 ∷ n.3 ∷ n.4 ∷ [] };

    fn into_dimension(self) -> Dim<5> {
        Dim::new([self.0, self.1, self.2, self.3, self.4])
    }
}

impl IntoDimension for (usize, usize, usize, usize, usize, usize) {
    type Dim = Dim<6>;

    ghost lengths_given = { λ n. n.0 ∷ n.1 ∷ n.2 ∷ n.3 ∷ n.4 ∷ n.5 ∷ [] };

    fn into_dimension(self) -> Dim<6> {
        Dim::new([self.0, self.1, self.2, self.3, self.4, self.5])
    }
}

impl IntoDimension for [usize; 0] {
    type Dim = Dim<0>;

    ghost lengths_given = { λ n. n };

    fn into_dimension(self) -> Dim<0> {
        Dim::new(self)
    }
}

impl IntoDimension for [usize; 1] {
    type Dim = Dim<1>;

    ghost lengths_given = { λ n. n };

    fn into_dimension(self) -> Dim<1> {
        Dim::new(self)
    }
}

impl IntoDimension for [usize; 2] {
    type Dim = Dim<2>;

    ghost lengths_given = { λ n. n };

    fn into_dimension(self) -> Dim<2> {
        Dim::new(self)
    }
}

impl IntoDimension for [usize; 3] {
    type Dim = Dim<3>;

    ghost lengths_given = { λ n. n };

    fn into_dimension(self) -> Dim<3> {
        Dim::new(self)
    }
}

impl IntoDimension for [usize; 4] {
    type Dim = Dim<4>;

    ghost lengths_given = { λ n. n };

    fn into_dimension(self) -> Dim<4> {
        Dim::new(self)
    }
}

impl IntoDimension for [usize; 5] {
    type Dim = Dim<5>;

    ghost lengths_given = { λ n. n };

    fn into_dimension(self) -> Dim<5> {
        Dim::new(self)
    }
}

impl IntoDimension for [usize; 6] {
    type Dim = Dim<6>;

    ghost lengths_given = { λ n. n };

    fn into_dimension(self) -> Dim<6> {
        Dim::new(self)
    }
}
