//! Arrays and views by their numbers of axes.

use crate::base::array::{Array, ArrayView, ArrayViewMut};
use nd_shape_and_slice::{Ix0, Ix1, Ix2, Ix3, Ix4, Ix5, Ix6, IxDyn};

/// An array with no axes that owns its elements. This is ndarray's `Array0`.
pub type Array0<A> = Array<A, Ix0>;

/// An array with one axis that owns its elements. This is ndarray's `Array1`.
pub type Array1<A> = Array<A, Ix1>;

/// An array with two axes that owns its elements. This is ndarray's `Array2`.
pub type Array2<A> = Array<A, Ix2>;

/// An array with three axes that owns its elements. This is ndarray's `Array3`.
pub type Array3<A> = Array<A, Ix3>;

/// An array with four axes that owns its elements. This is ndarray's `Array4`.
pub type Array4<A> = Array<A, Ix4>;

/// An array with five axes that owns its elements. This is ndarray's `Array5`.
pub type Array5<A> = Array<A, Ix5>;

/// An array with six axes that owns its elements. This is ndarray's `Array6`.
pub type Array6<A> = Array<A, Ix6>;

/// An array with any number of axes that owns its elements. This is ndarray's `ArrayD`.
pub type ArrayD<A> = Array<A, IxDyn>;

/// A read-only view with no axes. This is ndarray's `ArrayView0`.
pub type ArrayView0<'a, A> = ArrayView<'a, A, Ix0>;

/// A read-only view with one axis. This is ndarray's `ArrayView1`.
pub type ArrayView1<'a, A> = ArrayView<'a, A, Ix1>;

/// A read-only view with two axes. This is ndarray's `ArrayView2`.
pub type ArrayView2<'a, A> = ArrayView<'a, A, Ix2>;

/// A read-only view with three axes. This is ndarray's `ArrayView3`.
pub type ArrayView3<'a, A> = ArrayView<'a, A, Ix3>;

/// A read-only view with four axes. This is ndarray's `ArrayView4`.
pub type ArrayView4<'a, A> = ArrayView<'a, A, Ix4>;

/// A read-only view with five axes. This is ndarray's `ArrayView5`.
pub type ArrayView5<'a, A> = ArrayView<'a, A, Ix5>;

/// A read-only view with six axes. This is ndarray's `ArrayView6`.
pub type ArrayView6<'a, A> = ArrayView<'a, A, Ix6>;

/// A read-only view with any number of axes. This is ndarray's `ArrayViewD`.
pub type ArrayViewD<'a, A> = ArrayView<'a, A, IxDyn>;

/// A view to be read and written with no axes. This is ndarray's `ArrayViewMut0`.
pub type ArrayViewMut0<'a, A> = ArrayViewMut<'a, A, Ix0>;

/// A view to be read and written with one axis. This is ndarray's `ArrayViewMut1`.
pub type ArrayViewMut1<'a, A> = ArrayViewMut<'a, A, Ix1>;

/// A view to be read and written with two axes. This is ndarray's `ArrayViewMut2`.
pub type ArrayViewMut2<'a, A> = ArrayViewMut<'a, A, Ix2>;

/// A view to be read and written with three axes. This is ndarray's `ArrayViewMut3`.
pub type ArrayViewMut3<'a, A> = ArrayViewMut<'a, A, Ix3>;

/// A view to be read and written with four axes. This is ndarray's `ArrayViewMut4`.
pub type ArrayViewMut4<'a, A> = ArrayViewMut<'a, A, Ix4>;

/// A view to be read and written with five axes. This is ndarray's `ArrayViewMut5`.
pub type ArrayViewMut5<'a, A> = ArrayViewMut<'a, A, Ix5>;

/// A view to be read and written with six axes. This is ndarray's `ArrayViewMut6`.
pub type ArrayViewMut6<'a, A> = ArrayViewMut<'a, A, Ix6>;

/// A view to be read and written with any number of axes. This is ndarray's `ArrayViewMutD`.
pub type ArrayViewMutD<'a, A> = ArrayViewMut<'a, A, IxDyn>;
