//! n-dimensional arrays and views: a storage of nd_elements, and how its elements lie in it.
//!
//! - `base`: the type of arrays, its constructors, and calls that read and write elements
//! - `layout`: slices, axes, rows and columns, parts, broadcasts, and views to be written
//! - `elements`: calls over all elements
//! - `along`: calls along one axis
//! - `arithmetic`: operators on arrays of numbers
//! - `growth`: owned arrays that grow
//! - `reshape`: questions about the layout, elements as slices, and other shapes of the same elements
//! - `printing`: the text of an array
//! - `scoped`: calls that lend views to be written to a task
//! - `laws`: what follows from the contracts of several calls, and what callers need of quotients
//! - `prelude`: what most callers import
#![tactic(auto)]

mod along;
pub mod arithmetic;
mod base;
mod elements;
mod growth;
pub mod laws;
mod layout;
pub mod prelude;
mod printing;
mod reshape;
pub mod scoped;

pub use along::lane_view::LaneView;
pub use base::aliases::{
    Array0, Array1, Array2, Array3, Array4, Array5, Array6, ArrayD, ArrayView0, ArrayView1,
    ArrayView2, ArrayView3, ArrayView4, ArrayView5, ArrayView6, ArrayViewD, ArrayViewMut0,
    ArrayViewMut1, ArrayViewMut2, ArrayViewMut3, ArrayViewMut4, ArrayViewMut5, ArrayViewMut6,
    ArrayViewMutD,
};
pub use base::arr_and_aview::{arr0, arr1, arr2, arr3, aview0, aview1, aview2};
pub use base::array::{Array, ArrayBase, ArrayView, ArrayViewMut};
pub use base::array_error::ArrayError;
pub use base::indexing::IndexLonger;
pub use base::indexing_mut::GetMut;
pub use growth::joined_shape::fits_after;
pub use layout::several_slices::{MultiSliceArg, MultiSliceMut};
pub use nd_elements::along::lane_mut::LaneMut;
pub use nd_elements::storage::{
    Data, DataMut, DataOwned, OwnedRepr, RegionRepr, ViewMutRepr, ViewRepr,
};
pub use nd_shape_and_slice::{
    Axis, AxisCount, AxisDescription, Coordinates, Dim, Dimension, ErrorKind, FromDimension,
    InsertAxis, IntoDimension, IntoPattern, IntoStrideShape, Ix, Ix0, Ix1, Ix2, Ix3, Ix4, Ix5, Ix6,
    IxDyn, Ixs, MAX_AXES, NdIndex, NoMemory, Order, RemoveAxis, Shape, ShapeArg, ShapeBuilder,
    ShapeError, Slice, SliceArg, SliceInfo, SliceInfoElem, StrideList, StrideShape, index_of_rank,
    slice_fits, slices_fit, slices_intersect,
};
pub use reshape::either_array::{EitherArray, ViewOrOwned};

/// Makes a list of slices from ranges, slices and numbers. An array of any dimension takes it, and the result has the
/// dimension `IxDyn`.
#[macro_export]
macro_rules! slices {
    ($($element:expr),* $(,)?) => {
        [$($crate::SliceInfoElem::from($element)),*]
    };
}

/// Makes a list of slices with a fixed number of axes, so that the type of the result is known. This is ndarray's `s!`.
#[macro_export]
macro_rules! s {
    ($($element:expr),* $(,)?) => {
        $crate::SliceInfo::new_unchecked(&[$($crate::SliceInfoElem::from($element)),*])
    };
}

/// Makes an array of elements that are written out, by rows and blocks, with one to three axes:
/// `array![in alloc; [1, 2], [3, 4]]` has two. Each element is cloned once. Fails with `NoMemory` if the storage or a
/// clone is refused. This is ndarray's `array!`.
#[macro_export]
macro_rules! array {
    (in $alloc:expr; $([$([$($x:expr),* $(,)?]),+ $(,)?]),+ $(,)?) => {
        $crate::arr3($alloc, &[$([$([$($x,)*],)*],)*])
    };
    (in $alloc:expr; $([$($x:expr),* $(,)?]),+ $(,)?) => {
        $crate::arr2($alloc, &[$([$($x,)*],)*])
    };
    (in $alloc:expr; $($x:expr),* $(,)?) => {
        $crate::arr1($alloc, &[$($x,)*])
    };
}
