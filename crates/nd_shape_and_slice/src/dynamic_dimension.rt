//! The dimension type whose number of axes is known only at run time.

ghost use Rattle.std.specs.Prelude.{◌≡◌, ◌≤◌, ◌==◌, ◌&&◌, nat_le, ℕ, ℤ, pos, Bool, true, false, List, [], ◌∷◌, Option, Some, None, length, take};

use crate::dimension::{AxisCount, Dimension, IntoPattern, MAX_AXES, StrideList};

/// The lengths of at most 32 axes, whose number is known only at run time. They are stored inline, without an
/// allocation. This is ndarray's `IxDyn`.
#[derive(Clone, Copy, Debug)]
pub struct IxDyn {
    lens: [usize; MAX_AXES],
    count: usize,
    ghost few: { count ≤ 32 },
}

/// The strides of an array whose number of axes is known only at run time.
#[derive(Clone, Copy, Debug)]
pub struct DynStrides {
    strides: [isize; MAX_AXES],
    count: usize,
    ghost few: { count ≤ 32 },
}

impl StrideList for DynStrides {
    ghost strides_of = { λ s. take s.count s.strides };

    fn slice(&self) -> &[isize] {
        &self.strides[..self.count]
    }

    fn stride(&self, axis: usize) -> isize {
        self.strides[axis]
    }

    fn set(&mut self, axis: usize, stride: isize) {
        if axis < self.count {
            self.strides[axis] = stride;
        }
    }
}

impl AxisCount for IxDyn {
    const NDIM: Option<usize> = None;

    ghost NDIM = { None };
}

impl IxDyn {
    /// Returns the dimension with the lengths `lengths`, which may be at most 32. This is ndarray's `IxDyn`.
    pub fn new(lengths: &[usize]) -> Self
        requires { length lengths.now ≤ MAX_AXES }
        ensures { ⟦<IxDyn as Dimension>⟧.lengths result ≡ lengths.now }
    {
        let mut lens = [0; MAX_AXES];
        let count = lengths.len();
        lens[..count].copy_from_slice(lengths);
        IxDyn { lens, count }
    }
}

impl Dimension for IxDyn {
    type Strides = DynStrides;

    ghost lengths = { λ d. take d.count d.lens };

    ghost has_axes = { λ n. nat_le n 32 };

    fn slice(&self) -> &[usize] {
        &self.lens[..self.count]
    }

    fn length(&self, axis: usize) -> usize {
        self.lens[axis]
    }

    fn set_length(&mut self, axis: usize, len: usize) {
        if axis < self.count {
            self.lens[axis] = len;
        }
    }

    fn from_lengths(list: &[usize]) -> Option<Self> {
        if list.len() <= MAX_AXES {
            Some(IxDyn::new(list))
        } else {
            None
        }
    }

    #[inline]
    fn zeros(count: usize) -> Self {
        IxDyn {
            lens: [0; MAX_AXES],
            count,
        }
    }

    fn zero_strides(&self) -> DynStrides {
        DynStrides {
            strides: [0; MAX_AXES],
            count: self.count,
        }
    }
}

impl IntoPattern for IxDyn {
    type Pattern = IxDyn;

    ghost pattern_lengths = { λ d. take d.count d.lens };

    fn into_pattern(self) -> IxDyn {
        self
    }
}
