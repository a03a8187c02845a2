//! Dimension types with a fixed number of axes.
#![tactic(auto, using(std::proofs::lemmas::Bool::Decides::nat_tests))]

ghost use Rattle.std.specs.Prelude.{◌≡◌, ◌≤◌, ◌==◌, ◌&&◌, nat_le, ℕ, ℤ, pos, Bool, false, List, [], ◌∷◌, Option, Some, None, length, take, IsTrue};

use crate::dimension::{AxisCount, Dimension, IntoPattern, MAX_AXES, StrideList};
use crate::short_array_access::{entry_at, set_entry};

/// The lengths of `N` axes. This is ndarray's `Dim<[usize; N]>`.
#[derive(Clone, Copy, Debug, PartialEq, Eq)]
pub struct Dim<const N: usize> {
    lens: [usize; N],
    ghost number: { IsTrue (length lens == N && nat_le (length lens) 32) },
}

impl<const N: usize> Dim<N> {
    /// Returns the dimension with the lengths `lens`.
    pub(crate) fn new(lens: [usize; N]) -> Self
        requires { N ≤ MAX_AXES }
        ensures { result.lens ≡ lens.entry }
    {
        Dim { lens }
    }
}

impl<const N: usize> AxisCount for Dim<N> {
    const NDIM: Option<usize> = Some(N);

    ghost NDIM = { Some N };
}

impl<const N: usize> Dimension for Dim<N> {
    type Strides = [isize; N];

    ghost lengths = { λ d. d.lens };

    ghost has_axes = { λ n. n == N && nat_le n 32 };

    fn slice(&self) -> &[usize] {
        &self.lens
    }

    #[inline]
    fn length(&self, axis: usize) -> usize {
        entry_at(&self.lens, axis)
    }

    #[inline]
    fn set_length(&mut self, axis: usize, len: usize) {
        set_entry(&mut self.lens, axis, len);
    }

    fn from_lengths(list: &[usize]) -> Option<Self> {
        if list.len() == N && N <= MAX_AXES {
            let mut lens = [0; N];
            lens.copy_from_slice(list);
            Some(Dim { lens })
        } else {
            None
        }
    }

    #[inline]
    fn zeros(_count: usize) -> Self {
        Dim { lens: [0; N] }
    }

    fn zero_strides(&self) -> [isize; N] {
        [0; N]
    }
}

/// The dimension without axes. This is ndarray's `Ix0`.
pub type Ix0 = Dim<0>;

impl IntoPattern for Dim<0> {
    type Pattern = ();

    ghost pattern_lengths = { λ _. [] };

    fn into_pattern(self) -> () {
        ()
    }
}

/// The dimension with one axis. This is ndarray's `Ix1`.
pub type Ix1 = Dim<1>;

impl IntoPattern for Dim<1> {
    type Pattern = usize;

    ghost pattern_lengths = { λ n. n ∷ [] };

    fn into_pattern(self) -> usize {
        self.lens[0]
    }
}

/// The dimension with two axes. This is ndarray's `Ix2`.
pub type Ix2 = Dim<2>;

impl IntoPattern for Dim<2> {
    type Pattern = (usize, usize);

    ghost pattern_lengths = { λ n. n.0 ∷ n.1 ∷ [] };

    fn into_pattern(self) -> (usize, usize) {
        (self.lens[0], self.lens[1])
    }
}

/// The dimension with three axes. This is ndarray's `Ix3`.
pub type Ix3 = Dim<3>;

impl IntoPattern for Dim<3> {
    type Pattern = (usize, usize, usize);

    ghost pattern_lengths = { λ n. n.0 ∷ n.1 ∷ n.2 ∷ [] };

    fn into_pattern(self) -> (usize, usize, usize) {
        (self.lens[0], self.lens[1], self.lens[2])
    }
}

/// The dimension with four axes. This is ndarray's `Ix4`.
pub type Ix4 = Dim<4>;

impl IntoPattern for Dim<4> {
    type Pattern = (usize, usize, usize, usize);

    ghost pattern_lengths = { λ n. n.0 ∷ n.1 ∷ n.2 ∷ n.3 ∷ [] };

    fn into_pattern(self) -> (usize, usize, usize, usize) {
        (self.lens[0], self.lens[1], self.lens[2], self.lens[3])
    }
}

/// The dimension with five axes. This is ndarray's `Ix5`.
pub type Ix5 = Dim<5>;

impl IntoPattern for Dim<5> {
    type Pattern = (usize, usize, usize, usize, usize);

    ghost pattern_lengths = { λ n. n.0 ∷ n.1 ∷ n.2 ∷ n.3 ∷ n.4 ∷ [] };

    fn into_pattern(self) -> (usize, usize, usize, usize, usize) {
        (
            self.lens[0],
            self.lens[1],
            self.lens[2],
            self.lens[3],
            self.lens[4],
        )
    }
}

/// The dimension with six axes. This is ndarray's `Ix6`.
pub type Ix6 = Dim<6>;

impl IntoPattern for Dim<6> {
    type Pattern = (usize, usize, usize, usize, usize, usize);

    ghost pattern_lengths = { λ n. n.0 ∷ n.1 ∷ n.2 ∷ n.3 ∷ n.4 ∷ n.5 ∷ [] };

    fn into_pattern(self) -> (usize, usize, usize, usize, usize, usize) {
        (
            self.lens[0],
            self.lens[1],
            self.lens[2],
            self.lens[3],
            self.lens[4],
            self.lens[5],
        )
    }
}
