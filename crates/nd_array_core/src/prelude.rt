//! What most callers import, by `use nd_array_core::prelude::*`: arrays, views, dimensions, slices, errors, and the
//! traits whose methods are called by name. It has what ndarray's `prelude` has, and the storages, slices and errors
//! that signatures here name.

pub use crate::{
    Array, Array0, Array1, Array2, Array3, Array4, Array5, Array6, ArrayBase, ArrayD, ArrayError,
    ArrayView, ArrayView0, ArrayView1, ArrayView2, ArrayView3, ArrayView4, ArrayView5, ArrayView6,
    ArrayViewD, ArrayViewMut, ArrayViewMut0, ArrayViewMut1, ArrayViewMut2, ArrayViewMut3,
    ArrayViewMut4, ArrayViewMut5, ArrayViewMut6, ArrayViewMutD, Axis, Data, DataMut, Dim,
    Dimension, EitherArray, ErrorKind, GetMut, IntoDimension, Ix0, Ix1, Ix2, Ix3, Ix4, Ix5, Ix6,
    IxDyn, MultiSliceMut, NdIndex, NoMemory, Order, RemoveAxis, ShapeBuilder, ShapeError, Slice,
    SliceArg, SliceInfo, SliceInfoElem, arr0, arr1, arr2, arr3, array, aview0, aview1, aview2, s,
    slices,
};
